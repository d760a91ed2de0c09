// Looks for the first wrong centimetre, stretch by stretch: from one place where a span starts or stops to the next the permitted speed stays as it is.
// So it is worked out once for each stretch, and each step is compared once.

ghost use Rattle.std.specs.Prelude.{◌≡◌, true, ◌≤◌, ◌<◌, length, MatchOption};
ghost use Rattle.std.proofs.Math.Option.{none, some};
ghost use Rattle.steps.specs.Steps.{stepped, first_wrong};
ghost use Rattle.steps.specs.internal.Places.{right_in, Gone, Stretched, StepAt, StepsGive, NextStep, Compares};

use crate::spans::Span;
use speed::Train;

// A stretch: the lowest speed of the spans that hold in it, and the place, in cm from the start of the run, where it ends.
#[derive(Clone, Copy)]
pub struct Stretch {
    pub low: u32,
    pub until: u64,
}

// A place in cm from the start of the last segment, and the number of the last step at or before it.
#[derive(Clone, Copy)]
pub struct Reached {
    pub place: u32,
    pub step: usize,
}

// Returns how many of the `spans` have stopped at `y`, one after the other, where the first `first` of them have.
fn gone(spans: &[Span], first: usize, y: u64) -> usize
    requires { (first ≤ length spans.now) × Gone first spans.now y }
    ensures { (result ≤ length spans.now) × Gone result spans.now y }
{
    for i in first..spans.len() {
        if y < spans[i].stop {
            return i;
        }
    }
    spans.len()
}

// Returns the stretch that begins at `y`, of the `spans`, of which the first `first` have stopped. It ends at `end` at the latest.
fn stretch_from(spans: &[Span], first: usize, y: u64, end: u64) -> Stretch
    requires { (first ≤ length spans.now) × Gone first spans.now y × (y < end) }
    ensures { Stretched (length spans.now) spans.now y end result }
{
    let mut low = speed_element::NONE;
    let mut until = end;
    for i in first..spans.len() {
        let span = spans[i];
        if y < span.start {
            until = until.min(span.start);
        } else if y < span.stop {
            until = until.min(span.stop);
            low = speed_element::lower(low, span.speed);
        }
    }
    Stretch { low, until }
}

// Returns where the step after `step` starts, and its number; or `until` and `step`, if it starts past `until` or there is none.
fn next_step(starts: &[u32], step: usize, until: u32) -> Reached
    requires { step < length starts.now }
    ensures { NextStep starts.now step until result }
{
    let next = step + 1;
    if next < starts.len() {
        let start = starts[next];
        if start <= until {
            return Reached {
                place: start,
                step: next,
            };
        }
    }
    Reached { place: until, step }
}

// Compares the steps from `x` up to `until` with the speed `ours`. Returns the first place where they differ, or `until`. At `x` the step is `at`.
fn compare<'a>(
    starts: &'a [u32],
    speeds: &'a [u32],
    at: usize,
    x: u32,
    until: u32,
    ours: u32,
) -> Reached
    requires { StepsGive starts.now speeds.now × StepAt starts.now x at × (x ≤ until) }
    ensures { Compares starts.now speeds.now x until ours result }
{
    let mut place = x;
    let mut step = at;
    // A turn goes on to a place that it reads, so a `for` would be no plainer.
    while place < until {
        if speeds[step] != ours {
            return Reached { place, step };
        }
        let next = next_step(starts, step, until);
        place = next.place;
        step = next.step;
    }
    Reached { place, step }
}

// Returns the first wrong centimetre of the last segment, which starts at `from`; none if the steps are right at every centimetre.
pub fn first_wrong<'a>(
    spans: &'a [Span],
    train: Train,
    from: u32,
    starts: &'a [u32],
    speeds: &'a [u32],
    lsp: u32,
) -> Option<u32>
    requires { stepped lsp starts.now speeds.now ≡ true }
    ensures { MatchOption result (first_wrong lsp 0 (right_in train spans.now from starts.now speeds.now) ≡ none) (λ place. first_wrong lsp 0 (right_in train spans.now from starts.now speeds.now) ≡ some place) }
{
    let end = from as u64 + lsp as u64;
    let mut first = 0;
    let mut x = 0;
    let mut step = 0;
    // A turn goes on to a place that it finds, so a `for` would be no plainer.
    while x < lsp {
        let y = from as u64 + x as u64;
        first = gone(spans, first, y);
        let here = stretch_from(spans, first, y, end);
        let until = (here.until - from as u64) as u32;
        let ours = speed::limited(train, speed_element::permitted(here.low));
        let found = compare(starts, speeds, step, x, until, ours);
        x = found.place;
        step = found.step;
        if x < until {
            return Some(x);
        }
    }
    None
}
