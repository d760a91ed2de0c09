// A packet judged whole: its frame, its fields by its tree, and its padding; the bytes of its sheet are counted. Nothing is written.

#![tactic(auto)]

// Gives what is judged, or hands a refusal on by its two parts. For speed, in place of `?`: `packet_fields::on` says why.
// A macro of another crate leaves the check without a name for what is bound, so it stands here too.
macro_rules! on {
    ($judged:expr) => {
        match $judged {
            Ok(judged) => judged,
            Err(Refused(refusal, place)) => {
                return Err(Refused(refusal, place));
            }
        }
    };
}

ghost use Rattle.std.specs.Prelude.{◌≡◌, ◌≤◌, length};
ghost use Rattle.format.specs.internal.Places.{Placed};
ghost use Rattle.grammar.specs.link.Link.{tree_number};
ghost use Rattle.verdict.specs.internal.frame.Framed.{frame_of};
ghost use Rattle.verdict.specs.internal.Verdict.{said, fields_verdict, packet_verdict};
ghost use Rattle.packet_fields.specs.internal.Judging.{Standing, Over};
ghost use Rattle.packet_judge.specs.internal.Whole.{tree_part};

use grammar::link::Tree;
use kinds::refusals::{Refusal, Refused};
use packet_fields::{Judged, Spot};

// Judges every field after L_PACKET_ATO of a packet of `tree`, whose fields end at the bit `stop`.
fn fields(tree: Tree, s: &[u8], stop: usize) -> Judged<Spot>
    requires { Standing s.now stop 24 1 }
    ensures { Over (tree_part tree) s.now stop 24 1 result }
{
    match tree {
        Tree::Segment => packet_segment::fields(s, stop),
        Tree::Journey => packet_journey::fields(s, stop),
    }
}

// Judges the fields of a packet, which are to end at the bit `stop`, and returns the bytes of its sheet.
fn packet_fields(tree: Tree, s: &[u8], stop: usize) -> Judged<usize>
    requires { Placed s.now 24 stop × (8 ≤ length s.now) }
    ensures { said result ≡ fields_verdict tree s.now stop }
{
    let end = on!(fields(tree, s, stop));
    if end.at == stop {
        return Ok(end.n);
    }
    Err(Refused(Refusal::BitsLeft, end.at as u32))
}

// Judges the frame of a packet of `tree`, its length and its packet number, and returns the bit where its fields end.
pub fn tree_frame(tree: Tree, s: &[u8]) -> Result<usize, Refused<u32>>
    ensures { said result ≡ frame_of (tree_number tree) s.now }
{
    verdict::frame::judge_frame(s, grammar::link::number(tree))
}

// Returns the bytes of the sheet of a packet of `tree`, or the first refusal and its bit.
pub fn judge_packet(tree: Tree, s: &[u8]) -> Result<usize, Refused<u32>>
    ensures { said result ≡ packet_verdict tree s.now }
{
    let stop = on!(tree_frame(tree, s));
    let n = on!(packet_fields(tree, s, stop));
    let one = verdict::frame::first_one(s, stop);
    if one == 8 * s.len() {
        Ok(n)
    } else {
        Err(Refused(Refusal::PaddingBit, one as u32))
    }
}
