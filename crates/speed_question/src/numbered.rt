// The forms for a medium that is a number, 0 packets and any other sheets, and for segments that are lent one by one, four of them with a count.
// Lengths and places are in cm, speeds in km/h.

ghost use Rattle.std.specs.Prelude.{◌≡◌, take};
ghost use Rattle.speed.specs.Run.{Each, speed_in_run};
ghost use Rattle.speed_question.specs.Question.{read_as, lent, judged_run, speed_of_run};
ghost use Rattle.speed_question.specs.internal.Run.{brought_of, segments_of, said, run_judged, AcceptedAs, values_in, numbers_in, HeadOf, Few, nth, LastRead, RunKnown};
ghost use Rattle.speed_question.specs.internal.Asked.{kind_of, lent_of};

use crate::Speed;
use crate::medium::Medium;
use crate::run::{LastSegment, Run};
use kinds::refusals::Refused;
use speed::Train;
use speed_element::Head;

// Returns the run of the first `count` of the segments `lent`, which are accepted.
pub fn run_of<'a>(medium: u32, count: u32, lent: &'a [&'a [u8]; 4]) -> Run<'a>
    requires { Few count × Each (AcceptedAs (brought_of medium)) (take count (segments_of lent.now)) }
    ensures { (kind_of result ≡ brought_of medium) × (lent_of result ≡ take count (segments_of lent.now)) }
{
    Run {
        medium: Medium::of(medium),
        segments: &lent[..count as usize],
    }
}

// Returns the segment with the number `i` of those lent: 0 the first.
pub fn segment<'a>(
    i: u32,
    first: &'a [u8],
    second: &'a [u8],
    third: &'a [u8],
    fourth: &'a [u8],
) -> &'a [u8]
    ensures { result.now ≡ nth i first.now second.now third.now fourth.now }
{
    match i {
        0 => first,
        1 => second,
        2 => third,
        _ => fourth,
    }
}

// Returns the head of a segment of a run: `last` if it is the only one that is left, else it is read.
pub fn head_of(medium: u32, segment: &[u8], left: u32, last: Head) -> Head
    requires { AcceptedAs (brought_of medium) segment.now × (left ≡ 1 → HeadOf (brought_of medium) segment.now last.lsp last.profile) }
    ensures { HeadOf (brought_of medium) segment.now result.lsp result.profile }
{
    if left == 1 {
        return last;
    }
    Medium::of(medium).head(segment)
}

// Judges the `count` segments of a run in order. The first refusal counts.
pub fn judge_run<'a>(
    medium: u32,
    count: u32,
    first: &'a [u8],
    second: &'a [u8],
    third: &'a [u8],
    fourth: &'a [u8],
) -> Result<(), Refused<u32>>
    requires { Few count }
    ensures { said result ≡ run_judged (judged_run (read_as (brought_of medium)) (lent count first.now second.now third.now fourth.now)) }
{
    let lent = [first, second, third, fourth];
    Run::judged(Medium::of(medium), &lent[..count as usize])?;
    Ok(())
}

// Finds the last of the `count` accepted segments of a run.
pub fn last_segment<'a>(
    medium: u32,
    count: u32,
    first: &'a [u8],
    second: &'a [u8],
    third: &'a [u8],
    fourth: &'a [u8],
) -> LastSegment
    requires { Few count × Each (AcceptedAs (brought_of medium)) (lent count first.now second.now third.now fourth.now) }
    ensures { LastRead (brought_of medium) (lent count first.now second.now third.now fourth.now) result }
{
    run_of(medium, count, &[first, second, third, fourth]).last_segment()
}

// Returns the permitted speed for `train` at `x` in the last of the `count` accepted segments of a run. `last` is what `last_segment` found.
pub fn speed_in_run<'a>(
    medium: u32,
    count: u32,
    first: &'a [u8],
    second: &'a [u8],
    third: &'a [u8],
    fourth: &'a [u8],
    last: LastSegment,
    train: Train,
    x: u32,
) -> u32
    requires { Few count × RunKnown (brought_of medium) (lent count first.now second.now third.now fourth.now) last x }
    ensures { result ≡ speed_in_run train x (numbers_in (brought_of medium) (lent count first.now second.now third.now fourth.now)) }
{
    run_of(medium, count, &[first, second, third, fourth]).profile_speed(last, train, x)
}

// Judges `train` and the place `x` in the last of the `count` accepted segments, and answers with the lower of the train's maximum and the profile's speed.
pub fn of_run<'a>(
    medium: u32,
    count: u32,
    first: &'a [u8],
    second: &'a [u8],
    third: &'a [u8],
    fourth: &'a [u8],
    train: Train,
    x: u32,
) -> Speed
    requires { Few count × Each (AcceptedAs (brought_of medium)) (lent count first.now second.now third.now fourth.now) }
    ensures { result ≡ speed_of_run train x (values_in (brought_of medium) (lent count first.now second.now third.now fourth.now)) }
{
    let lent = [first, second, third, fourth];
    Speed::from(run_of(medium, count, &lent).permitted_speed(train, x))
}
