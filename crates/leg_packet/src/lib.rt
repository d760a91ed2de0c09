// Reads the segments of an accepted journey packet and their temporary constraints, at bits of the packet. What was accepted is not judged again.
// Locations are in cm, speeds in km/h.

#![tactic(auto)]

ghost use Rattle.format.specs.Format.{times};
ghost use Rattle.grammar.specs.journey.Journey as tree;
ghost use Rattle.speed_element.specs.internal.Reading.{Readable, Passes};
ghost use Rattle.speed_packet.specs.internal.Asking.{AcceptedPacket, numbers_of_packet, Reads};
ghost use Rattle.legs.specs.Legs.{after_constraints};
ghost use Rattle.leg_parts.specs.internal.Reading.{IdentityRead, LegsRead, LegRead, ConstraintRead};
ghost use Rattle.leg_packet.specs.internal.Asking.{AcceptedJourney, numbers_of_journey};

use fields::raise;
use grammar::journey::layout;
use grammar::segment::layout::{COUNT, COUNTRY, IDENTITY, MAJOR};
use kinds::UpTo;
use kinds::body::{MSpVersion, NIter, NidC, NidSp};
use kinds::journey::DTcEndLocation;
use leg_parts::{ConstraintAt, Identity, LegHead, Legs};

// Bits of the two versions, which are read at once.
const VERSION_WIDTH: u32 = 2 * MSpVersion::WIDTH;

// Reads the identity of an accepted segment.
pub fn identity(packet: &[u8]) -> Identity
    requires { AcceptedPacket packet.now }
    ensures { IdentityRead (numbers_of_packet packet.now) result }
{
    let version = bits::read_window(packet, MAJOR, VERSION_WIDTH);
    Identity {
        nid_c: bits::read_window(packet, COUNTRY, NidC::WIDTH),
        nid_sp: bits::read_window(packet, IDENTITY, NidSp::WIDTH),
        major: version / 256,
        minor: version % 256,
    }
}

// Reads the count of the segments of an accepted journey. The first always stands at the same bit.
pub fn legs(packet: &[u8]) -> Legs
    requires { AcceptedJourney packet.now }
    ensures { LegsRead (Reads packet.now) (numbers_of_journey packet.now) result }
{
    let t = bits::read_window(packet, layout::STATUS, layout::COUNTS_WIDTH);
    Legs {
        count: t % 256,
        first: layout::SEGMENTS,
    }
}

// Reads the head of the segment at the bit `at`. Its timing points are passed over.
pub fn head(packet: &[u8], at: usize) -> LegHead
    requires { Readable (Reads packet.now) (tree.journey_segment tree.constraints) at }
    ensures { LegRead (Reads packet.now) at result }
{
    let nid_c = bits::read_window(packet, at, NidC::WIDTH);
    let nid_sp = bits::read_window(packet, at + layout::IDENTITY, NidSp::WIDTH);
    let t = bits::read_window(packet, at + layout::VERSIONS, layout::VERSIONS_WIDTH);
    let points = t % 32;
    let to = at + layout::SEGMENT_HEAD + layout::POINT * points as usize;
    let count = bits::read_window(packet, to, NIter::WIDTH);
    LegHead {
        identity: Identity {
            nid_c,
            nid_sp,
            major: t / 16384,
            minor: t / 64 % 256,
        },
        direction: t / 32 % 2,
        count,
        constraints: to + COUNT,
    }
}

// Reads the temporary constraint at the bit `at`.
pub fn constraint(packet: &[u8], at: usize) -> ConstraintAt
    requires { Readable (Reads packet.now) tree.temporary_constraint at }
    ensures { ConstraintRead (Reads packet.now) at result }
{
    let t = bits::read_window(packet, at, layout::START_WIDTH);
    let end = bits::read_window(packet, at + layout::END, DTcEndLocation::WIDTH);
    let u = bits::read_window(packet, at + layout::FRONT, layout::FRONT_WIDTH);
    ConstraintAt {
        of: t / 67108864,
        range: t / 16777216 % 4,
        start: t % 16777216,
        end,
        q_front: u / 1048576,
        speed: raise::speed(u / 8192 % 128),
        next: at + layout::CONSTRAINT,
    }
}

// Returns the bit after the `count` temporary constraints at the bit `at`. Only the contract uses `packet`.
pub fn constraints_end(packet: &[u8], at: usize, count: u32) -> usize
    requires { Readable (Reads packet.now) (times tree.temporary_constraint count) at }
    ensures { Passes (Reads packet.now) (times tree.temporary_constraint count) (after_constraints count) at result }
{
    at + layout::CONSTRAINT * count as usize
}
