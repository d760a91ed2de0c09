// A journey, a packet or a sheet: judged once; then its segments, the legs, are read at places. Legs are passed over by their counts, and nothing is kept.
// Lengths and places on the track are in cm, speeds in km/h.

ghost use Rattle.std.specs.Prelude.{◌≡◌, ◌≤◌, length, drop, MatchResult};
ghost use Rattle.kinds.specs.Refusals.{refusal_number};
ghost use Rattle.format.specs.Format.{times, refused};
ghost use Rattle.grammar.specs.journey.Journey as tree;
ghost use Rattle.speed_element.specs.internal.Reading.{Readable, Passes};
ghost use Rattle.speed_question.specs.Question.{packet, sheet};
ghost use Rattle.speed_question.specs.internal.Run.{brought_as, said, judged_of, AcceptedAs, numbers_as};
ghost use Rattle.legs.specs.Legs.{after_constraints};
ghost use Rattle.leg_parts.specs.internal.Reading.{IdentityRead, LegsRead, LegRead, ConstraintRead, LegsAt};
ghost use Rattle.restricted.specs.Question.{journey_as};
ghost use Rattle.restricted.specs.internal.Travelling.{InsideRead, OverRead};
ghost use Rattle.restricted.specs.internal.Travelled.{ReadsIn, numbers_of, legs_of};

use crate::accepted::Journey;
pub use crate::numbered::{all_inside, find, head, legs, next, passed_over};
use grammar::link::Tree;
use kinds::refusals::Refused;
use leg_parts::{ConstraintAt, Identity, LegHead, Legs};
use speed::Train;
use speed_question::medium::Medium;

// Judges a packet as a journey.
fn judge_packet(journey: &[u8]) -> Result<(), Refused<u32>>
    ensures { said result ≡ judged_of (journey_as packet journey.now) }
{
    packet_judge::judge_packet(Tree::Journey, journey)?;
    Ok(())
}

// Judges a sheet as a journey, and counts its packet's bits.
fn judge_sheet(journey: &[u8]) -> Result<(), Refused<u32>>
    ensures { said result ≡ judged_of (journey_as sheet journey.now) }
{
    convert_sheet::counted(Tree::Journey, journey)?;
    Ok(())
}

// Judges a packet or a sheet as a journey.
fn judge(medium: Medium, journey: &[u8]) -> Result<(), Refused<u32>>
    ensures { said result ≡ judged_of (journey_as (brought_as medium) journey.now) }
{
    match medium {
        Medium::Packet => judge_packet(journey),
        Medium::Sheet => judge_sheet(journey),
    }
}

// Reads the identity of an accepted segment.
pub fn identity(medium: Medium, segment: &[u8]) -> Identity
    requires { AcceptedAs (brought_as medium) segment.now }
    ensures { IdentityRead (numbers_as (brought_as medium) segment.now) result }
{
    match medium {
        Medium::Packet => leg_packet::identity(segment),
        Medium::Sheet => leg_sheet::identity(segment),
    }
}

impl<'a> Journey<'a> {
    // Judges a journey. An accepted one is read at places.
    pub fn judged(medium: Medium, bytes: &'a [u8]) -> Result<Journey<'a>, Refused<u32>>
        ensures { MatchResult result (λ j. (j.medium ≡ medium) × (j.bytes.now ≡ bytes.now)) (λ e. journey_as (brought_as medium) bytes.now ≡ refused (refusal_number e.0) e.1) }
    {
        judge(medium, bytes)?;
        Ok(Journey { medium, bytes })
    }

    // Finds the legs.
    pub fn legs(&self) -> Legs
        ensures { LegsRead (ReadsIn self.now) (numbers_of self.now) result }
    {
        match self.medium {
            Medium::Packet => leg_packet::legs(self.bytes),
            Medium::Sheet => leg_sheet::legs(self.bytes),
        }
    }

    // Reads the head of the leg at the place `at`.
    pub fn head(&self, at: usize) -> LegHead
        requires { Readable (ReadsIn self.now) (tree.journey_segment tree.constraints) at }
        ensures { LegRead (ReadsIn self.now) at result }
    {
        match self.medium {
            Medium::Packet => leg_packet::head(self.bytes, at),
            Medium::Sheet => leg_sheet::head(self.bytes, at),
        }
    }

    // Reads the temporary constraint at the place `at`.
    fn constraint(&self, at: usize) -> ConstraintAt
        requires { Readable (ReadsIn self.now) tree.temporary_constraint at }
        ensures { ConstraintRead (ReadsIn self.now) at result }
    {
        match self.medium {
            Medium::Packet => leg_packet::constraint(self.bytes, at),
            Medium::Sheet => leg_sheet::constraint(self.bytes, at),
        }
    }

    // Returns the place after the constraints of `leg`, whose head was read: that of the next leg.
    pub fn next(&self, leg: LegHead) -> usize
        requires { Readable (ReadsIn self.now) (times tree.temporary_constraint leg.count) leg.constraints × (leg.count ≤ 31) }
        ensures { Passes (ReadsIn self.now) (times tree.temporary_constraint leg.count) (after_constraints leg.count) leg.constraints result }
    {
        match self.medium {
            Medium::Packet => leg_packet::constraints_end(self.bytes, leg.constraints, leg.count),
            Medium::Sheet => leg_sheet::constraints_end(self.bytes, leg.constraints, leg.count),
        }
    }

    // Returns the place of the leg with the number `n`: the legs from the place `first` on are passed over.
    pub fn find(&self, first: usize, n: u32) -> usize
        requires { LegsAt (ReadsIn self.now) first (legs_of self.now) × (n ≤ length (legs_of self.now)) }
        ensures { LegsAt (ReadsIn self.now) result (drop n (legs_of self.now)) }
    {
        let mut at = first;
        for _ in 0..n {
            at = self.next(self.head(at));
        }
        at
    }

    // Returns whether no restriction of the speed of `leg` uses a location outside its segment, which has the length `lsp`.
    pub fn all_inside(&self, leg: LegHead, lsp: u32) -> bool
        requires { Readable (ReadsIn self.now) (times tree.temporary_constraint leg.count) leg.constraints }
        ensures { InsideRead (ReadsIn self.now) leg lsp result }
    {
        let mut at = leg.constraints;
        for _ in 0..leg.count {
            let c = self.constraint(at);
            if c.misplaced(lsp) {
                return false;
            }
            at = c.next;
        }
        true
    }

    // Returns the lowest of the speed `held` and of the constraints of `leg` that hold for `train` at `y`, counted from the start of its segment.
    // `lsp` is the segment's length.
    pub fn passed_over(&self, leg: LegHead, train: Train, lsp: u32, y: u32, held: u32) -> u32
        requires { Readable (ReadsIn self.now) (times tree.temporary_constraint leg.count) leg.constraints }
        ensures { OverRead (ReadsIn self.now) leg train lsp y held result }
    {
        let mut low = held;
        let mut at = leg.constraints;
        for _ in 0..leg.count {
            let c = self.constraint(at);
            low = c.lowered(train, lsp, y, low);
            at = c.next;
        }
        low
    }
}
