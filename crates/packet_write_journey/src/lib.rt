// Writes the body of an accepted journey sheet's packet. No value is judged again.
// Parameters: `sheet` is read and `room` is written, at the place `p` or `from`; each function returns the place after its part.
// The three go side by side in each function: those that docs/CONTRACTS.md names take them so.

#![tactic(auto)]

pub mod constraint;
pub mod point;

ghost use Rattle.format.specs.Format.{Format, times};
ghost use Rattle.packet_write_segment.specs.internal.elements.Writing.{Ready, Wrote};
ghost use Rattle.grammar.specs.journey.Journey as tree;
ghost use Rattle.grammar.specs.internal.journey.Parts.{segment_widths, segment_most, journey_body_part};
ghost use Rattle.grammar.specs.internal.rows.Rows.{row};

use crate::constraint::constraint;
use crate::point::point;
use grammar::journey::CONSTRAINTS;
use kinds::UpTo;
use kinds::body::{MSpVersion, NIter, NidC, NidSp};
use kinds::journey::{NIterSp, QJpStatus, QSpDir};
use packet_write_segment::elements::PacketSpot;
use packet_write_segment::row::{number, piece};

// Bits of the two versions and Q_SP_DIR, which are written at once.
const VERSION: u32 = MSpVersion::WIDTH + MSpVersion::WIDTH + QSpDir::WIDTH;

// A part of the body that stands any number of times, one after another.
trait Repeated {
    ghost part: { Format → Format };

    // Writes it once.
    fn write(sheet: &[u8], room: &mut [u8], p: PacketSpot) -> PacketSpot
        requires { Ready part sheet.now room.old p }
        ensures { Wrote part sheet.now room.old p room.new result };
}

// Writes the part `P` so many times.
fn times<P: Repeated>(sheet: &[u8], room: &mut [u8], from: PacketSpot, count: u32) -> PacketSpot
    requires { Ready (times P.part count) sheet.now room.old from }
    ensures { Wrote (times P.part count) sheet.now room.old from room.new result }
{
    let mut p = from;
    for _ in 0..count {
        p = P::write(sheet, room, p);
    }
    p
}

struct TimingPoint;

impl Repeated for TimingPoint {
    ghost part = { tree.timing_point };

    fn write(sheet: &[u8], room: &mut [u8], p: PacketSpot) -> PacketSpot {
        point(sheet, room, p)
    }
}

struct TemporaryConstraint;

impl Repeated for TemporaryConstraint {
    ghost part = { tree.temporary_constraint };

    fn write(sheet: &[u8], room: &mut [u8], p: PacketSpot) -> PacketSpot {
        constraint(sheet, room, p)
    }
}

struct Segment;

impl Repeated for Segment {
    ghost part = { tree.journey_segment tree.constraints };

    // Writes NID_C to Q_SP_DIR, the timing points and the temporary constraints, each list after its count.
    fn write(sheet: &[u8], room: &mut [u8], p: PacketSpot) -> PacketSpot {
        let next = names(sheet, room, p);
        let count = number(sheet, room, next, NIter::WIDTH, NIter::LARGEST);
        let last = times::<TimingPoint>(sheet, room, count.next, count.value);
        let second = number(sheet, room, last, NIter::WIDTH, CONSTRAINTS);
        times::<TemporaryConstraint>(sheet, room, second.next, second.value)
    }
}

// Writes NID_C to Q_SP_DIR of a segment.
// A function of its own, as `arrival` and `stopping` of `point` are: one for the three rows misses a bar of speed (docs/PERFORMANCE.md).
fn names(sheet: &[u8], room: &mut [u8], p: PacketSpot) -> PacketSpot
    requires { Ready (row segment_widths segment_most) sheet.now room.old p }
    ensures { Wrote (row segment_widths segment_most) sheet.now room.old p room.new result }
{
    let widths = grammar::journey::segment_widths();
    let most = grammar::journey::segment_most();
    let country = piece(sheet, room, p, &widths, &most, 0, 1, NidC::WIDTH);
    let name = piece(sheet, room, country, &widths, &most, 1, 2, NidSp::WIDTH);
    piece(sheet, room, name, &widths, &most, 2, 5, VERSION)
}

// Writes the body: Q_JP_Status, N_ITER_SP and the segments.
pub fn body(sheet: &[u8], room: &mut [u8], p: PacketSpot) -> PacketSpot
    requires { Ready journey_body_part sheet.now room.old p }
    ensures { Wrote journey_body_part sheet.now room.old p room.new result }
{
    let status = number(sheet, room, p, QJpStatus::WIDTH, QJpStatus::LARGEST);
    let count = number(sheet, room, status.next, NIterSp::WIDTH, NIterSp::LARGEST);
    times::<Segment>(sheet, room, count.next, count.value)
}
