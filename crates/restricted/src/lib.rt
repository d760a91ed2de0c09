// The restricted speed of a train at a place of a run of segments on a journey: the lowest of the permitted speed and of the journey's temporary constraints that hold there.
// The segments are judged in order, then the journey, then the legs against the segments, then the train and the place; only then is the speed worked out.

#![tactic(auto)]

pub mod accepted;
pub mod journey;
pub mod numbered;
pub mod travelled;

ghost use Rattle.std.specs.Prelude.{◌≡◌, ◌&&◌, ◌+◌, ◌-◌, length, ltb, drop, take};
ghost use Rattle.speed_question.specs.Question.{no_speed, run_asked};
ghost use Rattle.speed_question.specs.internal.Run.{segments_of, speed_said};
ghost use Rattle.speed_question.specs.internal.Asked.{values_of_run};
ghost use Rattle.restricted.specs.Question.{restricted_along, restricted_on, restricted_of_run, restricted_speed};
ghost use Rattle.restricted.specs.internal.Travelled.{legs_of, Stands};

use accepted::Journey;
use kinds::refusals::{Refusal, Refused};
use speed::Train;
use speed_question::Speed;
use speed_question::run::Run;

// Returns whether the train may still stand on a segment before the run: `before` legs stand there, and the front is at `start` + `x` of the run.
fn tail_before(before: u32, start: u32, x: u32, train: Train) -> bool
    ensures { result ≡ (ltb 0 before && ltb (start + x) train.length) }
{
    if before == 0 {
        return false;
    }
    (start as u64 + x as u64) < train.length as u64
}

// Judges the legs of `run`, then the train and the place, then the train's tail; and returns the restricted speed.
// The run's first leg stands at `place`, after `before` legs of the journey.
fn along(
    run: &Run,
    journey: &Journey,
    before: u32,
    place: usize,
    train: Train,
    x: u32,
) -> Result<u32, Refused<u32>>
    requires { Stands journey.now (length run.now.segments.now) before place }
    ensures { let count = length run.now.segments.now in speed_said result ≡ restricted_along count (before + count - 1) train x (values_of_run run.now) (take count (drop before (legs_of journey.now))) }
{
    let last = run.last_segment();
    if let Err(refusal) = travelled::judge_legs(run, last, journey, before, place) {
        return Err(Refused(refusal, 0));
    }
    let permitted = run.permitted_speed(train, x)?;
    if tail_before(before, last.start, x, train) {
        return Err(Refused(Refusal::TailBefore, 0));
    }
    Ok(travelled::lowest(run, last, journey, before, place, train, x, permitted))
}

// Finds the legs of `run`, the last of them the one with the number `leg`, and answers as `along` does; 22 if they are not all on the journey.
fn on_journey(
    run: &Run,
    journey: &Journey,
    leg: u32,
    train: Train,
    x: u32,
) -> Result<u32, Refused<u32>>
    ensures { speed_said result ≡ restricted_on (length run.now.segments.now) leg train x (values_of_run run.now) (legs_of journey.now) }
{
    let legs = journey.legs();
    let count = run.segments.len() as u32;
    if legs.count <= leg {
        return Err(Refused(Refusal::NoLeg, 0));
    }
    if leg + 1 < count {
        return Err(Refused(Refusal::NoLeg, 0));
    }
    let before = leg + 1 - count;
    let place = journey.find(legs.first, before);
    along(run, journey, before, place, train, x)
}

// Judges the first `count` of the segments `lent`, then the journey, and answers as `on_journey` does.
fn answered<'a>(
    medium: u32,
    count: u32,
    lent: &'a [&'a [u8]; 4],
    journey: &'a [u8],
    leg: u32,
    train: Train,
    x: u32,
) -> Result<u32, Refused<u32>>
    ensures { speed_said result ≡ run_asked no_speed (restricted_of_run medium count journey.now leg train x) medium count (take count (segments_of lent.now)) }
{
    let run = Run::new(medium, count, lent)?;
    let journey = Journey::judged(run.medium, journey)?;
    on_journey(&run, &journey, leg, train, x)
}

// Answers the restricted speed of `train` at `x` cm from the start of the last of the `count` segments, or a refusal.
// `medium` says what segments and journey are: 0 packets, 1 sheets. `leg` is the number of the journey's segment in which x lies, 0 the first.
// With 15 for another medium and 16 for a count of 0 or more than 4 neither a segment nor the journey is read. Segments past the count are not read.
pub fn restricted_speed<'a>(
    medium: u32,
    count: u32,
    first: &'a [u8],
    second: &'a [u8],
    third: &'a [u8],
    fourth: &'a [u8],
    journey: &'a [u8],
    leg: u32,
    train: Train,
    x: u32,
) -> Speed
    ensures { result ≡ restricted_speed medium count first.now second.now third.now fourth.now journey.now leg train x }
{
    let lent = [first, second, third, fourth];
    Speed::from(answered(medium, count, &lent, journey, leg, train, x))
}
