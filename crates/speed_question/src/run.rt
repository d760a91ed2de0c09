// A run: 1 to 4 accepted segments, packets or sheets, in order of travel. Lengths and places are in cm.

ghost use Rattle.std.specs.Prelude.{◌≡◌, true, length};
ghost use Rattle.speed_question.specs.internal.Run.{brought_as, segments_of, all_accepted, Few};

use crate::medium::Medium;
pub use crate::numbered::{head_of, judge_run, last_segment, segment, speed_in_run};
use speed_element::Head;

// `medium` of a run of packets, where it is a number.
pub const PACKET: u32 = 0;

// `medium` of a run of sheets, where it is a number.
pub const SHEET: u32 = 1;

// The most segments in a run.
pub const MOST: u32 = 4;

// A run of accepted segments of the one medium.
#[derive(Clone, Copy)]
pub struct Run<'a> {
    pub medium: Medium,
    pub segments: &'a [&'a [u8]],
    ghost few: { Few (length segments.now) },
    ghost accepted: { all_accepted (brought_as medium) (segments_of segments.now) ≡ true },
}

// The last segment of a run: where it starts, counted from the start of the run, and its head.
#[derive(Clone, Copy)]
pub struct LastSegment {
    pub start: u32,
    pub head: Head,
}
