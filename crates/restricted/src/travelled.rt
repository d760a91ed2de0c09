// The legs that a run of segments travels: judged against the segments, then passed over with the lowest speed so far.
// Lengths and places on the track are in cm, speeds in km/h.

ghost use Rattle.std.specs.Prelude.{◌≡◌, ◌<◌, length, drop};
ghost use Rattle.format.specs.Format.{times};
ghost use Rattle.grammar.specs.journey.Journey as tree;
ghost use Rattle.speed.specs.Speed.{lowest};
ghost use Rattle.speed_element.specs.internal.Reading.{Readable};
ghost use Rattle.speed_question.specs.internal.Run.{brought_as, AcceptedAs, numbers_as, HeadOf};
ghost use Rattle.speed_question.specs.internal.Asked.{LastOf, numbers_of_run};
ghost use Rattle.legs.specs.Restricted.{held_restrictions};
ghost use Rattle.legs.specs.Travelled.{legs_refusal};
ghost use Rattle.restricted.specs.internal.Travelling.{refusal_said, LegJudged};
ghost use Rattle.restricted.specs.internal.Travelled.{ReadsIn, legs_of, Stands};

use crate::accepted::Journey;
use crate::journey;
use kinds::refusals::Refusal;
use leg_parts::LegHead;
use speed::Train;
use speed_element::Head;
use speed_question::medium::Medium;
use speed_question::run::{LastSegment, Run};

// Q_SP_DIR of a segment that is travelled in its nominal direction.
const NOMINAL: u32 = 1;

// Judges the leg that an accepted segment with the head `here` is to be. Refuses it with 23, 24 or 25.
fn judge_leg(
    medium: Medium,
    segment: &[u8],
    here: Head,
    journey: &Journey,
    leg: LegHead,
) -> Result<(), Refusal>
    requires { AcceptedAs (brought_as medium) segment.now × HeadOf (brought_as medium) segment.now here.lsp here.profile × Readable (ReadsIn journey.now) (times tree.temporary_constraint leg.count) leg.constraints }
    ensures { LegJudged (ReadsIn journey.now) (numbers_as (brought_as medium) segment.now) leg (refusal_said result) }
{
    let own = journey::identity(medium, segment);
    let identity = leg.identity;
    if !leg_parts::same(own, identity) {
        return Err(Refusal::OtherSegment);
    }
    if leg.direction != NOMINAL {
        return Err(Refusal::ReverseLeg);
    }
    if !journey.all_inside(leg, here.lsp) {
        return Err(Refusal::ConstraintPlace);
    }
    Ok(())
}

// Judges the legs of `run`, in order: the first refusal counts, 23, 24 or 25.
// `last` is what `last_segment` found. The first of the legs stands at `place`; `before`, the count of the journey's legs before it, is for the contract alone.
pub fn judge_legs(
    run: &Run,
    last: LastSegment,
    journey: &Journey,
    before: u32,
    place: usize,
) -> Result<(), Refusal>
    requires { LastOf run.now last × Stands journey.now (length run.now.segments.now) before place }
    ensures { refusal_said result ≡ legs_refusal (numbers_of_run run.now) (drop before (legs_of journey.now)) }
{
    let mut at = place;
    for (i, segment) in run.segments.iter().enumerate() {
        let here = run.head(i, last);
        let leg = journey.head(at);
        judge_leg(run.medium, segment, here, journey, leg)?;
        at = journey.next(leg);
    }
    Ok(())
}

// Returns the lowest of the speed `held` and of the constraints of the run's legs that hold for `train` at `x` of the last segment.
// Passes over each leg at the place counted from its own start. The parameters are as those of `judge_legs`.
pub fn lowest(
    run: &Run,
    last: LastSegment,
    journey: &Journey,
    before: u32,
    place: usize,
    train: Train,
    x: u32,
    held: u32,
) -> u32
    requires { LastOf run.now last × (x < last.head.lsp) × Stands journey.now (length run.now.segments.now) before place }
    ensures { result ≡ lowest held (held_restrictions train x (numbers_of_run run.now) (drop before (legs_of journey.now))) }
{
    let y = last.start + x;
    let mut low = held;
    let mut start = 0;
    let mut at = place;
    for i in 0..run.segments.len() {
        let here = run.head(i, last);
        let leg = journey.head(at);
        low = journey.passed_over(leg, train, here.lsp, y - start, low);
        start += here.lsp;
        at = journey.next(leg);
    }
    low
}
