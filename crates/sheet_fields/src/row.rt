// Judges a row of fields of a sheet, and counts the bits of their values in the packet. Nothing is written.
ghost use Rattle.std.specs.Prelude.{◌≡◌, length};
ghost use Rattle.grammar.specs.internal.rows.Rows as rows;
ghost use Rattle.sheet_fields.specs.internal.Judging.{Standing, Over};

use crate::{Judged, Spot, ranged};
use kinds::refusals::Refusal;

// Judges fields from `spot` on, one after another: field i has `widths[i]` bits in the packet and is at most `most[i]`.
pub fn row(s: &[u8], mut spot: Spot, widths: &[u32], most: &[u32]) -> Judged<Spot>
    requires { Standing s.now spot.at × (length widths.now ≡ length most.now) }
    ensures { Over (rows.row widths.now most.now) s.now spot result }
{
    for (width, largest) in widths.iter().zip(most) {
        (_, spot) = ranged(s, spot, *width, 0, *largest, Refusal::FieldValue)?;
    }
    Ok(spot)
}
