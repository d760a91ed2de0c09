// The header of a sheet after the packet number, judged. Both trees begin with it.
ghost use Rattle.grammar.specs.internal.rows.Rows as rows;
ghost use Rattle.grammar.specs.internal.segment.Parts as parts;
ghost use Rattle.sheet_fields.specs.internal.Judging.{Standing, Over};

use crate::row::row;
use crate::{Judged, Spot, operational};

// Judges NID_ENGINE to N_Packet_Counter.
fn header_row(s: &[u8], spot: Spot) -> Judged<Spot>
    requires { Standing s.now spot.at }
    ensures { Over (rows.row parts.header_widths parts.header_most) s.now spot result }
{
    let widths = grammar::segment::header_widths();
    let most = grammar::segment::header_most();
    row(s, spot, &widths, &most)
}

// Judges NID_OPERATIONAL to N_Packet_Counter.
pub fn header(s: &[u8], spot: Spot) -> Judged<Spot>
    requires { Standing s.now spot.at }
    ensures { Over parts.header_rows s.now spot result }
{
    let next = operational(s, spot)?;
    header_row(s, next)
}
