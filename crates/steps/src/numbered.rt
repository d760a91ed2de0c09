// The forms for a medium that is a number, 0 packets and any other sheets, and for segments that are lent one by one, four of them with a count.

ghost use Rattle.speed.specs.Run.{Each};
ghost use Rattle.speed_question.specs.Question.{lent};
ghost use Rattle.speed_question.specs.internal.Run.{brought_of, AcceptedAs, numbers_in, LastRead, Few};
ghost use Rattle.steps.specs.internal.Spans.{RunKept};

use crate::spans;
use crate::spans::Spans;
use speed::Train;
use speed_question::numbered;
use speed_question::run::LastSegment;

// Returns the spans of all elements of the `count` accepted segments of a run. `last` is what `last_segment` found.
pub fn run_spans<'a>(
    medium: u32,
    count: u32,
    first: &'a [u8],
    second: &'a [u8],
    third: &'a [u8],
    fourth: &'a [u8],
    last: LastSegment,
    train: Train,
) -> Spans
    requires { Few count × Each (AcceptedAs (brought_of medium)) (lent count first.now second.now third.now fourth.now) × LastRead (brought_of medium) (lent count first.now second.now third.now fourth.now) last }
    ensures { RunKept train (numbers_in (brought_of medium) (lent count first.now second.now third.now fourth.now)) last.start result }
{
    let lent = [first, second, third, fourth];
    spans::run_spans(&numbered::run_of(medium, count, &lent), last, train)
}
