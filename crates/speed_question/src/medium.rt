// The two media of a run's segments, packets and sheets: how a segment is judged, and how it is passed over once it is accepted.
// Lengths and places are in cm.

ghost use Rattle.std.specs.Prelude.{◌≡◌, MatchResult};
ghost use Rattle.speed_element.specs.internal.Passing.{Passed};
ghost use Rattle.kinds.specs.declared.refusals.Refusal.TheVariants.{UnknownKind};
ghost use Rattle.speed_question.specs.Question.{packet, sheet, medium_of, Neither, read_as};
ghost use Rattle.speed_question.specs.internal.Run.{brought_of, brought_as, said, judged_of, AcceptedAs, numbers_as, HeadOf};

use crate::run::PACKET;
use grammar::link::Tree;
use kinds::refusals::{Refusal, Refused};
use speed::Train;
use speed_element::Head;

// What the segments of a run are.
#[derive(Clone, Copy, Debug, PartialEq, Eq)]
pub enum Medium {
    Packet,
    Sheet,
}

impl TryFrom<u32> for Medium {
    type Error = Refused<u32>;

    ghost try_from_gives = { λ kind r. MatchResult r (λ m. kind ≡ medium_of (brought_as m)) (λ e. (e ≡ record { 0 = UnknownKind; 1 = 0 }) × Neither kind) };

    // Returns the medium with the number `kind`: 0 packets, 1 sheets. Any other is refused with 15.
    fn try_from(kind: u32) -> Result<Medium, Refused<u32>> {
        match kind {
            0 => Ok(Medium::Packet),
            1 => Ok(Medium::Sheet),
            _ => Err(Refused(Refusal::UnknownKind, 0)),
        }
    }
}

// Judges a packet as a segment.
fn judge_packet(segment: &[u8]) -> Result<(), Refused<u32>>
    ensures { said result ≡ judged_of (read_as packet segment.now) }
{
    packet_judge::judge_packet(Tree::Segment, segment)?;
    Ok(())
}

// Judges a sheet as a segment.
fn judge_sheet(segment: &[u8]) -> Result<(), Refused<u32>>
    ensures { said result ≡ judged_of (read_as sheet segment.now) }
{
    sheet_judge::judge_sheet(Tree::Segment, segment)?;
    Ok(())
}

impl Medium {
    // Returns the medium of a `number` that may be any: packets for 0, else sheets.
    pub fn of(number: u32) -> Medium
        ensures { brought_as result ≡ brought_of number }
    {
        if number == PACKET {
            return Medium::Packet;
        }
        Medium::Sheet
    }

    // Judges a packet or a sheet as a segment.
    pub fn judge(self, segment: &[u8]) -> Result<(), Refused<u32>>
        ensures { said result ≡ judged_of (read_as (brought_as self) segment.now) }
    {
        match self {
            Medium::Packet => judge_packet(segment),
            Medium::Sheet => judge_sheet(segment),
        }
    }

    // Reads the head of an accepted segment.
    pub fn head(self, segment: &[u8]) -> Head
        requires { AcceptedAs (brought_as self) segment.now }
        ensures { HeadOf (brought_as self) segment.now result.lsp result.profile }
    {
        match self {
            Medium::Packet => speed_packet::head(segment),
            Medium::Sheet => speed_sheet::head(segment),
        }
    }

    // Returns the lowest speed that holds at `y` from the segment's own start: of the speed `held`, and of the segment's elements.
    // If the train has left the segment, nothing of it holds, and its profile is not read.
    pub fn passed(self, segment: &[u8], head: Head, train: Train, held: u32, y: u32) -> u32
        requires { AcceptedAs (brought_as self) segment.now × HeadOf (brought_as self) segment.now head.lsp head.profile }
        ensures { Passed train (numbers_as (brought_as self) segment.now) y held result }
    {
        if head.lsp as u64 + train.length as u64 <= y as u64 {
            return held;
        }
        match self {
            Medium::Packet => speed_packet::passed(segment, head, train, held, y),
            Medium::Sheet => speed_sheet::passed(segment, head, train, held, y),
        }
    }
}
