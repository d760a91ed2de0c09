// Reads the segments of an accepted journey sheet and their temporary constraints, at bytes of the sheet. What was accepted is not judged again.
// Locations are in cm, speeds in km/h.

#![tactic(auto)]

ghost use Rattle.std.specs.Prelude.{◌≤◌};
ghost use Rattle.format.specs.Format.{times};
ghost use Rattle.grammar.specs.journey.Journey as tree;
ghost use Rattle.speed_element.specs.internal.Reading.{Readable, Passes};
ghost use Rattle.speed_sheet.specs.internal.Asking.{AcceptedSheet, numbers_of_sheet, Reads};
ghost use Rattle.legs.specs.Legs.{after_constraints};
ghost use Rattle.leg_parts.specs.internal.Reading.{IdentityRead, LegsRead, LegRead, ConstraintRead};
ghost use Rattle.leg_sheet.specs.internal.Asking.{AcceptedJourney, numbers_of_journey};

use leg_parts::{ConstraintAt, Identity, LegHead, Legs};
use speed_sheet::{FIRST, number, numbers_end};

// The count of numbers between the packet number and a segment's NID_C: NID_OPERATIONAL, 4 of the header.
const BEFORE_IDENTITY: u32 = 5;

// The count of numbers between the packet number and N_ITER_SP: NID_OPERATIONAL, 4 of the header, Q_JP_Status.
const BEFORE_COUNT: u32 = 6;

// The count of a timing point's numbers.
const POINT: u32 = 16;

// The count of a temporary constraint's numbers, and of those after the speed: the adhesion, the current.
const CONSTRAINT: u32 = 8;

const AFTER_SPEED: u32 = 2;

// Reads the identity of an accepted segment.
pub fn identity(sheet: &[u8]) -> Identity
    requires { AcceptedSheet sheet.now }
    ensures { IdentityRead (numbers_of_sheet sheet.now) result }
{
    let at = numbers_end(sheet, FIRST, BEFORE_IDENTITY);
    let nid_c = number(sheet, at);
    let nid_sp = number(sheet, nid_c.next);
    let major = number(sheet, nid_sp.next);
    let minor = number(sheet, major.next);
    Identity {
        nid_c: nid_c.value,
        nid_sp: nid_sp.value,
        major: major.value,
        minor: minor.value,
    }
}

// Reads the count of the segments of an accepted journey, and finds the first.
pub fn legs(sheet: &[u8]) -> Legs
    requires { AcceptedJourney sheet.now }
    ensures { LegsRead (Reads sheet.now) (numbers_of_journey sheet.now) result }
{
    let at = numbers_end(sheet, FIRST, BEFORE_COUNT);
    let count = number(sheet, at);
    Legs {
        count: count.value,
        first: count.next,
    }
}

// Reads the head of the segment at the byte `at`. Its timing points are passed over.
pub fn head(sheet: &[u8], at: usize) -> LegHead
    requires { Readable (Reads sheet.now) (tree.journey_segment tree.constraints) at }
    ensures { LegRead (Reads sheet.now) at result }
{
    let nid_c = number(sheet, at);
    let nid_sp = number(sheet, nid_c.next);
    let major = number(sheet, nid_sp.next);
    let minor = number(sheet, major.next);
    let direction = number(sheet, minor.next);
    let points = number(sheet, direction.next);
    let to = numbers_end(sheet, points.next, POINT * points.value);
    let count = number(sheet, to);
    LegHead {
        identity: Identity {
            nid_c: nid_c.value,
            nid_sp: nid_sp.value,
            major: major.value,
            minor: minor.value,
        },
        direction: direction.value,
        count: count.value,
        constraints: count.next,
    }
}

// Reads the temporary constraint at the byte `at`.
pub fn constraint(sheet: &[u8], at: usize) -> ConstraintAt
    requires { Readable (Reads sheet.now) tree.temporary_constraint at }
    ensures { ConstraintRead (Reads sheet.now) at result }
{
    let of = number(sheet, at);
    let range = number(sheet, of.next);
    let start = number(sheet, range.next);
    let end = number(sheet, start.next);
    let q_front = number(sheet, end.next);
    let speed = number(sheet, q_front.next);
    ConstraintAt {
        of: of.value,
        range: range.value,
        start: start.value,
        end: end.value,
        q_front: q_front.value,
        speed: speed.value,
        next: numbers_end(sheet, speed.next, AFTER_SPEED),
    }
}

// Returns the byte after the `count` temporary constraints at the byte `at`.
pub fn constraints_end(sheet: &[u8], at: usize, count: u32) -> usize
    requires { Readable (Reads sheet.now) (times tree.temporary_constraint count) at × (count ≤ 31) }
    ensures { Passes (Reads sheet.now) (times tree.temporary_constraint count) (after_constraints count) at result }
{
    numbers_end(sheet, at, CONSTRAINT * count)
}
