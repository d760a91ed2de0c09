// The permitted speed of a train at a place of a run of segments, from packets or from sheets.
// The segments are judged whole, in order, then the train, then the place; only then is the speed worked out.

#![tactic(auto)]

pub mod medium;
pub mod numbered;
pub mod run;
pub mod travel;

ghost use Rattle.std.specs.Prelude.{◌≡◌, take};
ghost use Rattle.speed_packet.specs.internal.Asking.{AcceptedPacket};
ghost use Rattle.speed_question.specs.Question.{speed_asked, permitted_speed};
ghost use Rattle.speed_question.specs.internal.Run.{segments_of, speed_said};

use kinds::refusals::Refused;
use medium::Medium;
pub use numbered::of_run;
use run::Run;
use speed::Train;

// Answer to a speed question: 0, 0 and the permitted speed in km/h; or a refusal's number, its place (a bit of the packet or a byte of the sheet) and 0.
#[repr(C)]
#[derive(Clone, Copy)]
pub struct Speed {
    pub refusal: u32,
    pub place: u32,
    pub speed: u32,
}

impl From<Result<u32, Refused<u32>>> for Speed {
    ghost from_gives = { λ r s. s ≡ speed_said r };

    // Makes the answer of a speed in km/h, or of a refusal and its place.
    fn from(answer: Result<u32, Refused<u32>>) -> Speed {
        match answer {
            Ok(speed) => Speed {
                refusal: 0,
                place: 0,
                speed,
            },
            Err(Refused(refusal, place)) => Speed {
                refusal: u32::from(refusal),
                place,
                speed: 0,
            },
        }
    }
}

// Judges `train` and the place `x` in the segment of an accepted packet, and answers as `permitted_speed` does for a run of that packet.
pub fn of_packet(packet: &[u8], train: Train, x: u32) -> Speed
    requires { AcceptedPacket packet.now }
    ensures { result ≡ permitted_speed 0 1 packet.now packet.now packet.now packet.now train x }
{
    let run = Run {
        medium: Medium::Packet,
        segments: &[packet],
    };
    Speed::from(run.permitted_speed(train, x))
}

// Returns the permitted speed for a run of the first `count` of the segments `lent`, or the refusal.
fn answered<'a>(
    medium: u32,
    count: u32,
    lent: &'a [&'a [u8]; 4],
    train: Train,
    x: u32,
) -> Result<u32, Refused<u32>>
    ensures { speed_said result ≡ speed_asked medium count (take count (segments_of lent.now)) train x }
{
    Run::new(medium, count, lent)?.permitted_speed(train, x)
}

// Answers the permitted speed of `train` at `x` cm from the start of the last of the `count` segments, or a refusal.
// `medium` says what the segments are: 0 packets, 1 sheets. Any other is refused with 15, then a count of 0 or more than 4 with 16.
// Segments past the count are not read. `medium` is a number here since C hands it over.
pub fn permitted_speed<'a>(
    medium: u32,
    count: u32,
    first: &'a [u8],
    second: &'a [u8],
    third: &'a [u8],
    fourth: &'a [u8],
    train: Train,
    x: u32,
) -> Speed
    ensures { result ≡ permitted_speed medium count first.now second.now third.now fourth.now train x }
{
    Speed::from(answered(medium, count, &[first, second, third, fourth], train, x))
}
