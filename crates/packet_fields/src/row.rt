// Judges a row of fields of a packet, and counts the bytes of their numbers in the sheet. Nothing is written.
ghost use Rattle.std.specs.Prelude.{◌≡◌, true};
ghost use Rattle.grammar.specs.internal.rows.Rows as rows;
ghost use Rattle.grammar.specs.internal.rows.Rows.{fits};
ghost use Rattle.packet_fields.specs.internal.Judging.{Standing, Over};

use crate::{Judged, Spot};
use kinds::refusals::Refused;

// Judges fields from `spot` on, one after another: field i has `widths[i]` bits and is at most `most[i]`.
// The fields of the packet end at bit `stop`.
pub fn row(s: &[u8], stop: usize, spot: Spot, widths: &[u32], most: &[u32]) -> Judged<Spot>
    requires { Standing s.now stop spot.at spot.n × (fits widths.now most.now ≡ true) }
    ensures { Over (rows.row widths.now most.now) s.now stop spot.at spot.n result }
{
    let mut next = spot;
    for (width, largest) in widths.iter().zip(most) {
        next = on!(crate::plain(s, stop, next, kinds::up_to(*width, *largest)));
    }
    Ok(next)
}
