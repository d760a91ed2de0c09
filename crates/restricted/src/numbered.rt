// The forms for a medium that is a number, 0 packets and any other sheets, and for a journey's bytes that can be read where they are asked.
// Lengths and places on the track are in cm, speeds in km/h.

ghost use Rattle.std.specs.Prelude.{◌≡◌, ◌≤◌, length, drop};
ghost use Rattle.format.specs.Format.{times};
ghost use Rattle.grammar.specs.journey.Journey as tree;
ghost use Rattle.speed.specs.Run.{Each};
ghost use Rattle.speed.specs.Speed.{lowest};
ghost use Rattle.speed_element.specs.internal.Reading.{Readable, Passes};
ghost use Rattle.speed_question.specs.Question.{lent};
ghost use Rattle.speed_question.specs.internal.Run.{brought_of, said, judged_of, AcceptedAs, numbers_as, numbers_in, ReadsAs, HeadOf, Few, LastRead, RunKnown};
ghost use Rattle.legs.specs.Legs.{after_constraints};
ghost use Rattle.legs.specs.Restricted.{held_restrictions};
ghost use Rattle.legs.specs.Travelled.{legs_refusal};
ghost use Rattle.leg_parts.specs.internal.Reading.{IdentityRead, LegsRead, LegRead, ConstraintRead, LegsAt};
ghost use Rattle.restricted.specs.Question.{journey_as};
ghost use Rattle.restricted.specs.internal.Travelling.{JourneyAccepted, journey_numbers, legs_in, refusal_said, Stands, InsideRead, OverRead, LegJudged};

use grammar::link::Tree;
use kinds::refusals::{Refusal, Refused};
use leg_parts::{ConstraintAt, Identity, LegHead, Legs};
use speed::Train;
use speed_element::Head;
use speed_question::run;
use speed_question::run::{LastSegment, PACKET};

// Q_SP_DIR of a segment that is travelled in its nominal direction.
const NOMINAL: u32 = 1;

// Judges a packet if `medium` is 0, else a sheet, as a journey.
pub fn judge(medium: u32, journey: &[u8]) -> Result<(), Refused<u32>>
    ensures { said result ≡ judged_of (journey_as (brought_of medium) journey.now) }
{
    if medium == PACKET {
        packet_judge::judge_packet(Tree::Journey, journey)?;
        return Ok(());
    }
    convert_sheet::counted(Tree::Journey, journey)?;
    Ok(())
}

// Reads the identity of an accepted segment.
pub fn identity(medium: u32, segment: &[u8]) -> Identity
    requires { AcceptedAs (brought_of medium) segment.now }
    ensures { IdentityRead (numbers_as (brought_of medium) segment.now) result }
{
    if medium == PACKET {
        return leg_packet::identity(segment);
    }
    leg_sheet::identity(segment)
}

// Finds the legs of an accepted journey.
pub fn legs(medium: u32, journey: &[u8]) -> Legs
    requires { JourneyAccepted (brought_of medium) journey.now }
    ensures { LegsRead (ReadsAs (brought_of medium) journey.now) (journey_numbers (brought_of medium) journey.now) result }
{
    if medium == PACKET {
        return leg_packet::legs(journey);
    }
    leg_sheet::legs(journey)
}

// Reads the head of the leg at the place `at`.
pub fn head(medium: u32, journey: &[u8], at: usize) -> LegHead
    requires { Readable (ReadsAs (brought_of medium) journey.now) (tree.journey_segment tree.constraints) at }
    ensures { LegRead (ReadsAs (brought_of medium) journey.now) at result }
{
    if medium == PACKET {
        return leg_packet::head(journey, at);
    }
    leg_sheet::head(journey, at)
}

// Reads the temporary constraint at the place `at`.
fn constraint(medium: u32, journey: &[u8], at: usize) -> ConstraintAt
    requires { Readable (ReadsAs (brought_of medium) journey.now) tree.temporary_constraint at }
    ensures { ConstraintRead (ReadsAs (brought_of medium) journey.now) at result }
{
    if medium == PACKET {
        return leg_packet::constraint(journey, at);
    }
    leg_sheet::constraint(journey, at)
}

// Returns the place after the constraints of `leg`, whose head was read: that of the next leg.
pub fn next(medium: u32, journey: &[u8], leg: LegHead) -> usize
    requires { Readable (ReadsAs (brought_of medium) journey.now) (times tree.temporary_constraint leg.count) leg.constraints × (leg.count ≤ 31) }
    ensures { Passes (ReadsAs (brought_of medium) journey.now) (times tree.temporary_constraint leg.count) (after_constraints leg.count) leg.constraints result }
{
    if medium == PACKET {
        return leg_packet::constraints_end(journey, leg.constraints, leg.count);
    }
    leg_sheet::constraints_end(journey, leg.constraints, leg.count)
}

// Returns the place of the leg with the number `n`: the legs from the place `first` on are passed over.
pub fn find(medium: u32, journey: &[u8], first: usize, n: u32) -> usize
    requires { LegsAt (ReadsAs (brought_of medium) journey.now) first (legs_in (brought_of medium) journey.now) × (n ≤ length (legs_in (brought_of medium) journey.now)) }
    ensures { LegsAt (ReadsAs (brought_of medium) journey.now) result (drop n (legs_in (brought_of medium) journey.now)) }
{
    let mut at = first;
    for _ in 0..n {
        at = next(medium, journey, head(medium, journey, at));
    }
    at
}

// Returns whether no restriction of the speed of `leg` uses a location outside its segment, which has the length `lsp`.
pub fn all_inside(medium: u32, journey: &[u8], leg: LegHead, lsp: u32) -> bool
    requires { Readable (ReadsAs (brought_of medium) journey.now) (times tree.temporary_constraint leg.count) leg.constraints }
    ensures { InsideRead (ReadsAs (brought_of medium) journey.now) leg lsp result }
{
    let mut at = leg.constraints;
    for _ in 0..leg.count {
        let c = constraint(medium, journey, at);
        if c.misplaced(lsp) {
            return false;
        }
        at = c.next;
    }
    true
}

// Returns the lowest of the speed `held` and of the constraints of `leg` that hold for `train` at `y`, counted from the start of its segment.
// `lsp` is the segment's length.
pub fn passed_over(
    medium: u32,
    journey: &[u8],
    leg: LegHead,
    train: Train,
    lsp: u32,
    y: u32,
    held: u32,
) -> u32
    requires { Readable (ReadsAs (brought_of medium) journey.now) (times tree.temporary_constraint leg.count) leg.constraints }
    ensures { OverRead (ReadsAs (brought_of medium) journey.now) leg train lsp y held result }
{
    let mut low = held;
    let mut at = leg.constraints;
    for _ in 0..leg.count {
        let c = constraint(medium, journey, at);
        low = c.lowered(train, lsp, y, low);
        at = c.next;
    }
    low
}

// Judges the leg that an accepted segment with the head `here` is to be. Refuses it with 23, 24 or 25.
fn judge_leg(
    medium: u32,
    segment: &[u8],
    here: Head,
    journey: &[u8],
    leg: LegHead,
) -> Result<(), Refusal>
    requires { AcceptedAs (brought_of medium) segment.now × HeadOf (brought_of medium) segment.now here.lsp here.profile × Readable (ReadsAs (brought_of medium) journey.now) (times tree.temporary_constraint leg.count) leg.constraints }
    ensures { LegJudged (ReadsAs (brought_of medium) journey.now) (numbers_as (brought_of medium) segment.now) leg (refusal_said result) }
{
    let own = identity(medium, segment);
    let identity = leg.identity;
    if !leg_parts::same(own, identity) {
        return Err(Refusal::OtherSegment);
    }
    if leg.direction != NOMINAL {
        return Err(Refusal::ReverseLeg);
    }
    if !all_inside(medium, journey, leg, here.lsp) {
        return Err(Refusal::ConstraintPlace);
    }
    Ok(())
}

// Judges the legs of the `count` accepted segments of a run, in order: the first refusal counts, 23, 24 or 25.
// `last` is what `last_segment` found. The first of the legs stands at `place`; `before`, the count of the journey's legs before it, is for the contract alone.
pub fn judge_legs<'a>(
    medium: u32,
    count: u32,
    first: &'a [u8],
    second: &'a [u8],
    third: &'a [u8],
    fourth: &'a [u8],
    last: LastSegment,
    journey: &'a [u8],
    before: u32,
    place: usize,
) -> Result<(), Refusal>
    requires { Few count × Each (AcceptedAs (brought_of medium)) (lent count first.now second.now third.now fourth.now) × LastRead (brought_of medium) (lent count first.now second.now third.now fourth.now) last × Stands (brought_of medium) journey.now count before place }
    ensures { refusal_said result ≡ legs_refusal (numbers_in (brought_of medium) (lent count first.now second.now third.now fourth.now)) (drop before (legs_in (brought_of medium) journey.now)) }
{
    let mut at = place;
    for i in 0..count {
        let s = run::segment(i, first, second, third, fourth);
        let here = run::head_of(medium, s, count - i, last.head);
        let leg = head(medium, journey, at);
        judge_leg(medium, s, here, journey, leg)?;
        at = next(medium, journey, leg);
    }
    Ok(())
}

// Returns the lowest of the speed `held` and of the constraints of the run's legs that hold for `train` at `x` of the last segment.
// Passes over each leg at the place counted from its own start. The parameters are as those of `judge_legs`.
pub fn lowest<'a>(
    medium: u32,
    count: u32,
    first: &'a [u8],
    second: &'a [u8],
    third: &'a [u8],
    fourth: &'a [u8],
    last: LastSegment,
    journey: &'a [u8],
    before: u32,
    place: usize,
    train: Train,
    x: u32,
    held: u32,
) -> u32
    requires { Few count × RunKnown (brought_of medium) (lent count first.now second.now third.now fourth.now) last x × Stands (brought_of medium) journey.now count before place }
    ensures { result ≡ lowest held (held_restrictions train x (numbers_in (brought_of medium) (lent count first.now second.now third.now fourth.now)) (drop before (legs_in (brought_of medium) journey.now))) }
{
    let y = last.start + x;
    let mut low = held;
    let mut start = 0;
    let mut at = place;
    for i in 0..count {
        let s = run::segment(i, first, second, third, fourth);
        let here = run::head_of(medium, s, count - i, last.head);
        let leg = head(medium, journey, at);
        low = passed_over(medium, journey, leg, train, here.lsp, y - start, low);
        start += here.lsp;
        at = next(medium, journey, leg);
    }
    low
}
