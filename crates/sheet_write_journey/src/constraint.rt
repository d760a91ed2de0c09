// A temporary constraint of an accepted journey, written to the sheet. What was accepted is not judged again.
ghost use Rattle.std.specs.Prelude.{◌≡◌, ◌+◌};
ghost use Rattle.grammar.specs.journey.Journey.{temporary_constraint};
ghost use Rattle.sheet_write_segment.specs.internal.elements.Writing.{filled, PartWritable, Wrote};
ghost use Rattle.sheet_write_segment.specs.internal.row.Row.{put_all, Row, copied};
ghost use Rattle.sheet_write_journey.specs.internal.constraint.Numbers.{start_widths, restriction_at, RestrictionFits};

use grammar::journey::layout;
use kinds::journey::DTcEndLocation;
use sheet_write_segment::row::{number, one};

// Writes Q_TC_Type, Q_TC_Range and the start, 2, 2 and 24 bits, from the byte `n` of `room` on; returns the byte after them.
fn start(packet: &[u8], at: usize, room: &mut [u8], n: usize) -> usize
    requires { Row packet.now at start_widths (filled room.old n) }
    ensures { filled room.new result ≡ copied packet.now at start_widths (filled room.old n) }
{
    let t = bits::read_window(packet, at, layout::START_WIDTH);
    let second = one(room, n, t / 67108864);
    let third = one(room, second, t / 16777216 % 4);
    numbers::write::put_number(room, third, t % 16777216)
}

// Writes Q_FRONT, the speed, the adhesion and the current, 1, 7, 3 and 10 bits, from the byte `n` of `room` on; returns the byte after them.
// For speed, no branch depends on the type: an unused speed is 0 in both media, and the sheet's current is always 0.
fn restriction(packet: &[u8], at: usize, room: &mut [u8], n: usize) -> usize
    requires { RestrictionFits packet.now at (filled room.old n) }
    ensures { filled room.new result ≡ put_all (filled room.old n) (restriction_at packet.now at) }
{
    let t = bits::read_window(packet, at, layout::FRONT_WIDTH);
    let speed = one(room, n, t / 1048576);
    let adhesion = numbers::write::put_short(room, speed, fields::raise::speed(t / 8192 % 128));
    let current = one(room, adhesion, t / 1024 % 8);
    one(room, current, 0)
}

// Writes a temporary constraint, of any type and range, from the byte `n` of `room` on; returns the byte after it.
pub fn constraint(packet: &[u8], stop: usize, at: usize, room: &mut [u8], n: usize) -> usize
    requires { PartWritable temporary_constraint packet.now stop at (filled room.old n) }
    ensures { Wrote temporary_constraint packet.now stop at (filled room.old n) (at + 73) (filled room.new result) }
{
    let end = start(packet, at, room, n);
    let front = number(packet, at + layout::END, DTcEndLocation::WIDTH, room, end);
    restriction(packet, at + layout::FRONT, room, front)
}
