// A sheet judged whole: the packet number, the fields of its tree, and the verdict. Nothing is written.

#![tactic(auto)]

ghost use Rattle.std.specs.Prelude.{◌≡◌};
ghost use Rattle.verdict.specs.internal.Verdict.{said, sheet_verdict};
ghost use Rattle.sheet_fields.specs.internal.Judging.{Standing, Over};
ghost use Rattle.sheet_judge.specs.internal.Whole.{after_part, numbers_part, start};

use grammar::link::Tree;
use kinds::header;
use kinds::refusals::{Refusal, Refused};
use sheet_fields::{Judged, Spot, ranged};

// Judges every field of a sheet of `tree` after the packet number, from `spot` on.
fn fields(tree: Tree, s: &[u8], spot: Spot) -> Judged<Spot>
    requires { Standing s.now spot.at }
    ensures { Over (after_part tree) s.now spot result }
{
    match tree {
        Tree::Segment => sheet_segment::fields(s, spot),
        Tree::Journey => sheet_journey::fields(s, spot),
    }
}

// Judges the packet number, which must be that of `tree`, and every other field.
fn tree_numbers(tree: Tree, s: &[u8]) -> Judged<Spot>
    requires { Standing s.now 0 }
    ensures { Over (numbers_part tree) s.now start result }
{
    let number = grammar::link::number(tree);
    let width = header::NidPacketAto::WIDTH;
    let start = Spot { at: 0, n: 0 };
    let (_, next) = ranged(s, start, width, number, number, Refusal::PacketNumber)?;
    fields(tree, s, next)
}

// Returns the verdict on a sheet of `tree`: the bits of the packet without L_PACKET_ATO and padding, or a refusal and its byte.
pub fn judge_sheet(tree: Tree, s: &[u8]) -> Result<usize, Refused<u32>>
    ensures { said result ≡ sheet_verdict tree s.now }
{
    match tree_numbers(tree, s) {
        Err(Refused(refusal, place)) => Err(Refused(refusal, place as u32)),
        Ok(end) if end.at == s.len() => Ok(end.n as usize),
        Ok(end) => Err(Refused(Refusal::SheetForm, end.at as u32)),
    }
}
