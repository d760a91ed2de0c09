// The header of a packet judged, whichever tree its body is of, with the bytes of its sheet counted. Nothing is written.
ghost use Rattle.grammar.specs.internal.segment.Parts.{header_rows};
ghost use Rattle.packet_fields.specs.internal.Judging.{Standing, Over};

use crate::{Judged, Spot};
use grammar::segment::layout;
use kinds::header::NidOperational;
use kinds::refusals::Refused;

// Judges NID_OPERATIONAL to N_Packet_Counter field by field; one byte of the sheet, the packet number's, is counted before them.
pub fn header(s: &[u8], stop: usize) -> Judged<Spot>
    requires { Standing s.now stop 24 1 }
    ensures { Over header_rows s.now stop 24 1 result }
{
    let first = Spot {
        at: layout::OPERATIONAL,
        n: 1,
    };
    let spot = on!(crate::plain(s, stop, first, NidOperational::rule()));
    let widths = grammar::segment::header_widths();
    let most = grammar::segment::header_most();
    crate::row::row(s, stop, spot, &widths, &most)
}
