// The fields of a segment's packet judged, with the bytes of its sheet counted: the fields before the lists, and the three lists. Nothing is written.
// Parameters: `s` is the packet, `stop` the bit where its fields end, `spot` the bit of the part and the sheet bytes before it.

#![tactic(auto)]

// Gives what is judged, or hands a refusal on by its two parts. For speed, in place of `?`: `packet_fields::on` says why.
// A macro of another crate leaves the check without a name for what is bound, so it stands here too.
macro_rules! on {
    ($judged:expr) => {
        match $judged {
            Ok(judged) => judged,
            Err(Refused(refusal, place)) => {
                return Err(Refused(refusal, place));
            }
        }
    };
}

pub mod element;
pub mod head;

ghost use Rattle.std.specs.Prelude.{◌<◌};
ghost use Rattle.grammar.specs.segment.Segment as segment;
ghost use Rattle.grammar.specs.internal.segment.Parts.{start_of, three_lists, segment_rows};
ghost use Rattle.packet_fields.specs.internal.Judging.{Standing, Over};

use grammar::segment::{Part, WIRE_CHANGES};
use kinds::body;
use kinds::refusals::Refused;
use packet_fields::{Judged, Spot};

// Judges the `count` changes of a part: each a location, above the location before it and below `lsp`, and an element.
#[inline(always)]
fn changes(part: Part, s: &[u8], stop: usize, spot: Spot, lsp: u32, count: u32) -> Judged<Spot>
    requires { Standing s.now stop spot.at spot.n }
    ensures { Over (segment.changes (start_of part) lsp 0 count) s.now stop spot.at spot.n result }
{
    let mut next = spot;
    let mut last = 0;
    for _ in 0..count {
        let (at, start) = on!(packet_fields::location(s, stop, next, last, lsp));
        next = on!(crate::element::element(part, s, stop, start));
        last = at;
    }
    Ok(next)
}

// Judges a part: its first element, the count of its changes, at most `limit`, and the changes.
#[inline(always)]
fn list(part: Part, s: &[u8], stop: usize, spot: Spot, lsp: u32, limit: u32) -> Judged<Spot>
    requires { Standing s.now stop spot.at spot.n × (limit < 128) }
    ensures { Over (segment.part (start_of part) limit lsp) s.now stop spot.at spot.n result }
{
    let changed = on!(crate::element::element(part, s, stop, spot));
    let (count, first) = on!(packet_fields::count(s, stop, changed, limit));
    changes(part, s, stop, first, lsp, count)
}

// Judges the speed profile, the rated voltage and the current limitation. `lsp` is the length of the segment.
fn lists(s: &[u8], stop: usize, spot: Spot, lsp: u32) -> Judged<Spot>
    requires { Standing s.now stop spot.at spot.n }
    ensures { Over (three_lists lsp) s.now stop spot.at spot.n result }
{
    let volts = on!(list(Part::Speeds, s, stop, spot, lsp, body::NIter::LARGEST));
    let amperes = on!(list(Part::Volts, s, stop, volts, lsp, WIRE_CHANGES));
    list(Part::Amperes, s, stop, amperes, lsp, WIRE_CHANGES)
}

// Judges every field of a segment after L_PACKET_ATO.
pub fn fields(s: &[u8], stop: usize) -> Judged<Spot>
    requires { Standing s.now stop 24 1 }
    ensures { Over segment_rows s.now stop 24 1 result }
{
    let (lsp, profile) = on!(crate::head::head(s, stop));
    lists(s, stop, profile, lsp)
}
