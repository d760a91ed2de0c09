// Checks a supplier's speed steps against the permitted speed, at every centimetre of the last segment of a run.
// The code looks only at places where a step or the permitted speed can change. Places are in cm, speeds in km/h.

#![tactic(auto)]

pub mod looking;
pub mod numbered;
pub mod spans;

ghost use Rattle.std.specs.Prelude.{◌≡◌, length, ◌<◌, take};
ghost use Rattle.speed_question.specs.Question.{run_asked};
ghost use Rattle.speed_question.specs.internal.Run.{segments_of};
ghost use Rattle.speed_question.specs.internal.Asked.{values_of_run};
ghost use Rattle.steps.specs.Steps.{rising_below, stepped, not_checked, steps_of_run, check_steps};
ghost use Rattle.steps.specs.internal.Places.{checked_said};

use kinds::refusals::{Refusal, Refused};
use speed::Train;
use speed_question::run::Run;

// The most steps.
pub const MOST: usize = 128;

// Answer to a check of steps: 0 and 0, or a refusal's number and its place; with 19 the place is the first wrong centimetre.
#[repr(C)]
#[derive(Clone, Copy)]
pub struct Checked {
    pub refusal: u32,
    pub place: u32,
}

impl From<Result<(), Refused<u32>>> for Checked {
    ghost from_gives = { λ r s. s ≡ checked_said r };

    // Makes the answer of steps that are right, or of a refusal and its place.
    fn from(answer: Result<(), Refused<u32>>) -> Checked {
        match answer {
            Ok(()) => Checked {
                refusal: 0,
                place: 0,
            },
            Err(Refused(refusal, place)) => Checked {
                refusal: u32::from(refusal),
                place,
            },
        }
    }
}

// Returns whether `starts`, of which there is one at least, rise strictly and lie below `lsp`.
fn rising(starts: &[u32], lsp: u32) -> bool
    requires { 0 < length starts.now }
    ensures { result ≡ rising_below lsp starts.now }
{
    let mut last = starts[0];
    for next in &starts[1..] {
        if *next <= last {
            return false;
        }
        last = *next;
    }
    last < lsp
}

// Returns whether there are 1 to 128 steps, with as many speeds, whose starts rise strictly from 0 on and lie below `lsp`.
fn stepped<'a>(starts: &'a [u32], speeds: &'a [u32], lsp: u32) -> bool
    ensures { result ≡ stepped lsp starts.now speeds.now }
{
    let n = starts.len();
    if n < 1 {
        return false;
    }
    if MOST < n {
        return false;
    }
    if n != speeds.len() {
        return false;
    }
    if starts[0] != 0 {
        return false;
    }
    rising(starts, lsp)
}

// Judges `train` and the steps' starts, then compares each step with the permitted speed in the last segment of `run`.
fn of_run<'a>(
    run: &Run<'a>,
    train: Train,
    starts: &'a [u32],
    speeds: &'a [u32],
) -> Result<(), Refused<u32>>
    ensures { checked_said result ≡ steps_of_run train starts.now speeds.now (values_of_run run.now) }
{
    if !speed::valid(train) {
        return Err(Refused(Refusal::TrainValue, 0));
    }
    let last = run.last_segment();
    let lsp = last.head.lsp;
    if !stepped(starts, speeds, lsp) {
        return Err(Refused(Refusal::Steps, 0));
    }
    let kept = spans::run_spans(run, last, train);
    let spans = &kept.spans[..kept.count];
    match looking::first_wrong(spans, train, last.start, starts, speeds, lsp) {
        Some(place) => Err(Refused(Refusal::WrongSpeed, place)),
        None => Ok(()),
    }
}

// Checks the steps as `check_steps` does, in the last of the first `count` of the segments `lent`.
fn answered<'a>(
    medium: u32,
    count: u32,
    lent: &'a [&'a [u8]; 4],
    train: Train,
    starts: &'a [u32],
    speeds: &'a [u32],
) -> Result<(), Refused<u32>>
    ensures { checked_said result ≡ run_asked not_checked (steps_of_run train starts.now speeds.now) medium count (take count (segments_of lent.now)) }
{
    let run = Run::new(medium, count, lent)?;
    of_run(&run, train, starts, speeds)
}

// Checks the steps that start at `starts` with the `speeds` against the permitted speed of `train` at every centimetre of the last of the
// `count` segments. `medium` says what the segments are: 0 packets, 1 sheets. Any other is refused with 15, then a count of 0 or more than 4
// with 16, then a segment, then the train. Segments past the count are not read. `medium` is a number here since C hands it over.
pub fn check_steps<'a>(
    medium: u32,
    count: u32,
    first: &'a [u8],
    second: &'a [u8],
    third: &'a [u8],
    fourth: &'a [u8],
    train: Train,
    starts: &'a [u32],
    speeds: &'a [u32],
) -> Checked
    ensures { result ≡ check_steps medium count first.now second.now third.now fourth.now train starts.now speeds.now }
{
    let lent = [first, second, third, fourth];
    Checked::from(answered(medium, count, &lent, train, starts, speeds))
}
