// A run judged, in order, and passed over, in order: each segment at a place counted from its own start.
// Lengths and places are in cm, speeds in km/h.

ghost use Rattle.std.specs.Prelude.{◌≡◌, ◌<◌, length, MatchResult};
ghost use Rattle.kinds.specs.Refusals.{refusal_number};
ghost use Rattle.speed.specs.Run.{speed_in_run};
ghost use Rattle.speed_question.specs.Question.{refused, read_as, judged_run, speed_of_run};
ghost use Rattle.speed_question.specs.internal.Run.{brought_as, segments_of, HeadOf, Few, speed_said};
ghost use Rattle.speed_question.specs.internal.Asked.{kind_of, segment_at, LastOf, values_of_run, numbers_of_run, RunTaken, RunRefused};

use crate::medium::Medium;
use crate::run::{LastSegment, MOST, Run};
use kinds::refusals::{Refusal, Refused};
use speed::Train;
use speed_element::Head;

impl<'a> Run<'a> {
    // Judges `segments`, of which there are 1 to 4, in order. The first refusal counts.
    #[tactic(auto, using(crate::proofs::Runs::judging_first, crate::proofs::Runs::taken_refused, crate::proofs::Runs::judging_last))]
    pub fn judged(medium: Medium, segments: &'a [&'a [u8]]) -> Result<Run<'a>, Refused<u32>>
        requires { Few (length segments.now) }
        ensures { MatchResult result (λ r. (r.medium ≡ medium) × (r.segments.now ≡ segments.now)) (λ e. judged_run (read_as (brought_as medium)) (segments_of segments.now) ≡ refused (refusal_number e.0) e.1) }
    {
        for segment in segments {
            medium.judge(segment)?;
        }
        Ok(Run { medium, segments })
    }

    // Judges the first `count` segments of those `lent`, in order; the others are not read.
    // `medium` says what they are: 0 packets, 1 sheets. Any other is refused with 15, then a count of 0 or more than 4 with 16.
    pub fn new(medium: u32, count: u32, lent: &'a [&'a [u8]; 4]) -> Result<Run<'a>, Refused<u32>>
        ensures { MatchResult result (λ r. RunTaken medium count (segments_of lent.now) r) (λ e. RunRefused medium count (segments_of lent.now) (refusal_number e.0) e.1) }
    {
        let medium = Medium::try_from(medium)?;
        if count < 1 || MOST < count {
            return Err(Refused(Refusal::RunCount, 0));
        }
        Run::judged(medium, &lent[..count as usize])
    }

    // Finds the last segment.
    pub fn last_segment(&self) -> LastSegment
        ensures { LastOf self.now result }
    {
        let mut start = 0;
        let mut head = Head { lsp: 0, profile: 0 };
        for segment in self.segments {
            start += head.lsp;
            head = self.medium.head(segment);
        }
        LastSegment { start, head }
    }

    // Returns the head of the segment with the number `i`, 0 the first. That of the `last` is known, and any other is read.
    pub fn head(&self, i: usize, last: LastSegment) -> Head
        requires { (i < length self.now.segments.now) × LastOf self.now last }
        ensures { HeadOf (kind_of self.now) (segment_at self.now i) result.lsp result.profile }
    {
        if i + 1 == self.segments.len() {
            return last.head;
        }
        self.medium.head(self.segments[i])
    }

    // Returns the speed of the profile for `train` at `x` in the `last` segment.
    // Passes over each segment with the lowest speed that the segments before it left, at the place counted from its own start.
    pub fn profile_speed(&self, last: LastSegment, train: Train, x: u32) -> u32
        requires { LastOf self.now last × (x < last.head.lsp) }
        ensures { result ≡ speed_in_run train x (numbers_of_run self.now) }
    {
        let y = last.start + x;
        let mut held = speed_element::NONE;
        let mut start = 0;
        for (i, segment) in self.segments.iter().enumerate() {
            let head = self.head(i, last);
            held = self.medium.passed(segment, head, train, held, y - start);
            start += head.lsp;
        }
        speed_element::permitted(held)
    }

    // Judges `train`, then the place `x` in the last segment; then returns the lower of the train's maximum and the profile's speed.
    pub fn permitted_speed(&self, train: Train, x: u32) -> Result<u32, Refused<u32>>
        ensures { speed_said result ≡ speed_of_run train x (values_of_run self.now) }
    {
        if !speed::valid(train) {
            return Err(Refused(Refusal::TrainValue, 0));
        }
        let last = self.last_segment();
        if last.head.lsp <= x {
            return Err(Refused(Refusal::PastEnd, 0));
        }
        Ok(speed::limited(train, self.profile_speed(last, train, x)))
    }
}
