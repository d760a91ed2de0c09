// The sheet of an accepted journey, written part by part into a room that holds all of it. What was accepted is not judged again.
// Parameters: `packet` is the packet, `stop` the bit where its fields end, `room` the room, `from` the bit of the part and the byte of `room` for its first number.
// `stop` is for the contracts alone, and `packet` and `room` are no struct's: `write_journey` and `constraint::constraint`, which docs/CONTRACTS.md names, take all three.

#![tactic(auto)]

pub mod constraint;
pub mod rows;

ghost use Rattle.std.specs.Prelude.{◌≡◌, ◌≤◌, length};
ghost use Rattle.std.proofs.lemmas.List.Edits.{sets};
ghost use Rattle.format.specs.Format.{Format, times};
ghost use Rattle.grammar.specs.journey.Journey.{timing_point, temporary_constraint, journey_segment, constraints};
ghost use Rattle.grammar.specs.declared.link.Tree.TheVariants.{Journey};
ghost use Rattle.grammar.specs.internal.link.Trees.{fields_of, FieldsWritable};
ghost use Rattle.sheet_write_segment.specs.internal.elements.Writing.{filled, PartWritable, Wrote};

use crate::constraint::constraint;
use crate::rows::{head, point, start};
use grammar::journey::layout::{CONSTRAINT, POINT, SEGMENT_HEAD, SEGMENTS};
use grammar::segment::layout::COUNT;
use kinds::body::NIter;
use sheet_write_segment::elements::SheetSpot;
use sheet_write_segment::row::one;

// A part of the fields that stands any number of times, one after another.
trait Repeated {
    ghost part: { Format → Format };

    // Writes it once.
    fn write(packet: &[u8], stop: usize, from: SheetSpot, room: &mut [u8]) -> SheetSpot
        requires { PartWritable part packet.now stop from.at (filled room.old from.n) }
        ensures { Wrote part packet.now stop from.at (filled room.old from.n) result.at (filled room.new result.n) };
}

// Writes the part `P` so many times.
fn times<P: Repeated>(
    packet: &[u8],
    stop: usize,
    from: SheetSpot,
    count: u32,
    room: &mut [u8],
) -> SheetSpot
    requires { PartWritable (times P.part count) packet.now stop from.at (filled room.old from.n) }
    ensures { Wrote (times P.part count) packet.now stop from.at (filled room.old from.n) result.at (filled room.new result.n) }
{
    let mut spot = from;
    for _ in 0..count {
        spot = P::write(packet, stop, spot, room);
    }
    spot
}

struct TimingPoint;

impl Repeated for TimingPoint {
    ghost part = { timing_point };

    // Writes the numbers of a timing point, 129 bits of the packet.
    fn write(packet: &[u8], stop: usize, from: SheetSpot, room: &mut [u8]) -> SheetSpot {
        let n = point(packet, from.at, room, from.n);
        SheetSpot {
            at: from.at + POINT,
            n,
        }
    }
}

struct TemporaryConstraint;

impl Repeated for TemporaryConstraint {
    ghost part = { temporary_constraint };

    // Writes the numbers of a temporary constraint, 73 bits of the packet.
    fn write(packet: &[u8], stop: usize, from: SheetSpot, room: &mut [u8]) -> SheetSpot {
        let n = constraint(packet, stop, from.at, room, from.n);
        SheetSpot {
            at: from.at + CONSTRAINT,
            n,
        }
    }
}

struct Segment;

impl Repeated for Segment {
    ghost part = { journey_segment constraints };

    // Writes the identity and the direction, the timing points and the temporary constraints, each list after its count.
    fn write(packet: &[u8], stop: usize, from: SheetSpot, room: &mut [u8]) -> SheetSpot {
        let counted = start(packet, from.at, room, from.n);
        let first = SheetSpot {
            at: from.at + SEGMENT_HEAD,
            n: counted.n,
        };
        let last = times::<TimingPoint>(packet, stop, first, counted.count, room);
        let v = bits::read_window(packet, last.at, NIter::WIDTH);
        let n = one(room, last.n, v);
        let next = SheetSpot {
            at: last.at + COUNT,
            n,
        };
        times::<TemporaryConstraint>(packet, stop, next, v, room)
    }
}

// Writes the numbers of a journey's fields, which end at the bit `stop` of `packet`, from the byte `start` of `room` on.
pub fn write_journey(packet: &[u8], stop: usize, room: &mut [u8], start: usize)
    requires { FieldsWritable Journey packet.now stop room.old start × (8 ≤ length packet.now) }
    ensures { room.new ≡ sets room.old start (fields_of Journey packet.now stop) }
{
    let counted = head(packet, room, start);
    let first = SheetSpot {
        at: SEGMENTS,
        n: counted.n,
    };
    times::<Segment>(packet, stop, first, counted.count, room);
}
