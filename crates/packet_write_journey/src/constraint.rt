// Writes a temporary constraint of an accepted journey sheet into its packet. No width depends on its type or range.
// Parameters: `sheet` is read and `room` is written at the place `p`; each function returns the place after its part.
ghost use Rattle.grammar.specs.journey.Journey as tree;
ghost use Rattle.packet_write_segment.specs.internal.elements.Writing.{Ready, Wrote};
ghost use Rattle.packet_write_journey.specs.internal.constraint.Begun.{Begun};

use kinds::body::MCurrent;
use kinds::journey::DTcEndLocation;
use packet_write_segment::elements::PacketSpot;
use packet_write_segment::row::Given;

// Writes the type, the range and the start at once, then the end, and returns the type.
fn location(sheet: &[u8], room: &mut [u8], p: PacketSpot) -> Given
    requires { Ready tree.temporary_constraint sheet.now room.old p }
    ensures { Begun tree.temporary_constraint tree.restriction sheet.now room.old p room.new result }
{
    let of = numbers::accepted::number(sheet, p.from);
    let range = numbers::accepted::number(sheet, of.next);
    let start = numbers::accepted::number(sheet, range.next);
    let bits = of.value * 67108864 + range.value * 16777216 + start.value;
    let next = p.put(room, 28, bits, start.next);
    let end = next.copy_number(sheet, room, DTcEndLocation::WIDTH);
    Given {
        value: of.value,
        next: end.next,
    }
}

// Writes Q_FRONT, the speed, the adhesion and the current at once; the current is no limit, and an unused speed is 0.
// `of`, the Q_TC_Type, is for the contract alone. It is no ghost value: a call picks one from its arguments or a constant, and `location` returned it.
fn restriction(sheet: &[u8], room: &mut [u8], p: PacketSpot, of: u32) -> PacketSpot
    requires { Ready (tree.restriction of) sheet.now room.old p }
    ensures { Wrote (tree.restriction of) sheet.now room.old p room.new result }
{
    let front = numbers::accepted::number(sheet, p.from);
    let level = numbers::accepted::number(sheet, front.next);
    let adhesion = numbers::accepted::number(sheet, level.next);
    let current = numbers::accepted::number(sheet, adhesion.next);
    let speed = level.value;
    let steps = fields::lower::speed_steps(speed);
    let bits = front.value * 1048576 + steps * 8192 + adhesion.value * 1024 + MCurrent::NO_LIMIT;
    p.put(room, 21, bits, current.next)
}

// Writes a temporary constraint.
pub fn constraint(sheet: &[u8], room: &mut [u8], p: PacketSpot) -> PacketSpot
    requires { Ready tree.temporary_constraint sheet.now room.old p }
    ensures { Wrote tree.temporary_constraint sheet.now room.old p room.new result }
{
    let first = location(sheet, room, p);
    restriction(sheet, room, first.next, first.value)
}
