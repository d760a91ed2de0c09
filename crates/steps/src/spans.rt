// The elements of a run's segments as spans: from where and before where each holds for a train, in cm from the start of the run, and with which
// speed in km/h. They are kept by value, so that each segment is read once.

ghost use Rattle.std.specs.Prelude.{◌≡◌};
ghost use Rattle.grammar.specs.segment.Segment as segment;
ghost use Rattle.speed_element.specs.internal.Reading.{Readable, Opens, NextRead, FirstRead};
ghost use Rattle.speed_question.specs.internal.Run.{brought_as, ReadsAs, HeadOf, numbers_as};
ghost use Rattle.speed_question.specs.internal.Asked.{LastOf, numbers_of_run};
ghost use Rattle.steps.specs.internal.Spans.{SpeedRead, Whole, Few, SegmentKept, RunKept};

use speed::Train;
use speed_element::{First, Following, Head, Open};
use speed_question::medium::Medium;
use speed_question::run::{LastSegment, Run};

// The most spans: 32 elements in each of 4 segments.
pub const MOST: usize = 128;

// A span: it holds from `start` on and before `stop`, both in cm from the start of the run, with `speed`.
#[derive(Clone, Copy)]
pub struct Span {
    pub start: u64,
    pub stop: u64,
    pub speed: u32,
}

// The first `count` of `spans` are kept.
// No heap: the most spans of a run are few, so they are kept in an array and not in a Vec.
#[derive(Clone, Copy)]
pub struct Spans {
    pub count: usize,
    pub spans: [Span; MOST],
}

// Reads the first element of an accepted segment's speed profile.
fn first(medium: Medium, s: &[u8], head: Head) -> First
    requires { HeadOf (brought_as medium) s.now head.lsp head.profile }
    ensures { FirstRead (ReadsAs (brought_as medium) s.now) head.profile result }
{
    match medium {
        Medium::Packet => speed_packet::first(s, head.profile, head.lsp),
        Medium::Sheet => speed_sheet::first(s, head.profile, head.lsp),
    }
}

// Reads the next of the `left` changes at the place `at`, which follow the element `open`. If none is left, `open` ends at `lsp`.
fn next(medium: Medium, s: &[u8], open: Open, at: usize, left: u64, lsp: u32) -> Following
    requires { Readable (ReadsAs (brought_as medium) s.now) (segment.changes segment.profile lsp «open».start left) at }
    ensures { NextRead (ReadsAs (brought_as medium) s.now) lsp «open» left at result }
{
    match medium {
        Medium::Packet => speed_packet::next(s, open, at, left, lsp),
        Medium::Sheet => speed_sheet::next(s, open, at, left, lsp),
    }
}

// Returns the speed for `train` of the element `open`, which ends at `end`: 0 if it holds nowhere.
fn speed_of(medium: Medium, s: &[u8], open: Open, train: Train, end: u32) -> u32
    requires { Opens (ReadsAs (brought_as medium) s.now) «open» }
    ensures { SpeedRead (ReadsAs (brought_as medium) s.now) train end «open» result }
{
    let none = speed_element::NONE;
    let held = match medium {
        Medium::Packet => speed_packet::ended(s, open, train, none, end, open.start),
        Medium::Sheet => speed_sheet::ended(s, open, train, none, end, open.start),
    };
    speed_element::permitted(held)
}

// Returns no spans.
fn no_spans() -> Spans
    ensures { (result.count ≡ 0) × Whole result }
{
    let none = Span {
        start: 0,
        stop: 0,
        speed: 0,
    };
    Spans {
        count: 0,
        spans: [none; MOST],
    }
}

// Returns the spans `before`, and after them those of the elements of a segment that starts at `start`.
fn segment_spans(
    medium: Medium,
    s: &[u8],
    head: Head,
    train: Train,
    start: u32,
    before: Spans,
) -> Spans
    requires { HeadOf (brought_as medium) s.now head.lsp head.profile × Few 96 before }
    ensures { SegmentKept train (numbers_as (brought_as medium) s.now) start before.count before result }
{
    let lsp = head.lsp;
    let begun = first(medium, s, head);
    let count = begun.count;
    let mut kept = before;
    let mut open = begun.open;
    let mut to = begun.next;
    let mut left = count as u64 + 1;
    while 0 < left {
        left -= 1;
        let n = next(medium, s, open, to, left, lsp);
        kept.spans[kept.count] = Span {
            start: start as u64 + open.start as u64,
            stop: start as u64 + open.until(train, n.end),
            speed: speed_of(medium, s, open, train, n.end),
        };
        kept.count += 1;
        open = n.open;
        to = n.next;
    }
    kept
}

// Returns the spans of all elements of the segments of `run`. `last` is what `last_segment` found.
pub fn run_spans(run: &Run, last: LastSegment, train: Train) -> Spans
    requires { LastOf run.now last }
    ensures { RunKept train (numbers_of_run run.now) last.start result }
{
    let mut kept = no_spans();
    let mut start = 0;
    for (i, segment) in run.segments.iter().enumerate() {
        let head = run.head(i, last);
        kept = segment_spans(run.medium, segment, head, train, start, kept);
        start += head.lsp;
    }
    kept
}
