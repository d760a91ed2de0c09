// The fields before the lists of an accepted segment, copied to the sheet in rows; the header's row stands in the sheets of both trees.
ghost use Rattle.std.specs.Prelude.{◌≡◌};
ghost use Rattle.grammar.specs.internal.segment.Parts.{identity_widths, offset_widths};
ghost use Rattle.sheet_write_segment.specs.internal.elements.Writing.{filled};
ghost use Rattle.sheet_write_segment.specs.internal.head.Widths.{header_fields};
ghost use Rattle.sheet_write_segment.specs.internal.row.Row.{Row, copied};

use crate::row::{moment, number, short};
use grammar::segment::layout;
use kinds::{UpTo, body, header};

// Writes NID_OPERATIONAL to N_Packet_Counter from the byte `n` of `room` on; returns the byte after them. Both trees begin with them.
pub fn header(packet: &[u8], room: &mut [u8], n: usize) -> usize
    requires { Row packet.now 24 header_fields (filled room.old n) }
    ensures { filled room.new result ≡ copied packet.now 24 header_fields (filled room.old n) }
{
    let engine = number(
        packet,
        layout::OPERATIONAL,
        header::NidOperational::WIDTH,
        room,
        n,
    );
    let stamp = number(
        packet,
        layout::ENGINE,
        header::NidEngine::WIDTH,
        room,
        engine,
    );
    let counter = moment(packet, layout::DATE, room, stamp);
    short(
        packet,
        layout::COUNTER,
        header::NPacketCounter::WIDTH,
        room,
        counter,
    )
}

// Writes NID_C, NID_SP and the two versions from the byte `n` of `room` on; returns the byte after them.
pub fn identity(packet: &[u8], room: &mut [u8], n: usize) -> usize
    requires { Row packet.now 120 identity_widths (filled room.old n) }
    ensures { filled room.new result ≡ copied packet.now 120 identity_widths (filled room.old n) }
{
    let segment = short(packet, layout::COUNTRY, body::NidC::WIDTH, room, n);
    let major = number(packet, layout::IDENTITY, body::NidSp::WIDTH, room, segment);
    let minor = short(packet, layout::MAJOR, body::MSpVersion::WIDTH, room, major);
    short(packet, layout::MINOR, body::MSpVersion::WIDTH, room, minor)
}

// Writes D_EoA_Offset, Q_UTC_Offset and M_SP_Altitude from the byte `n` of `room` on; returns the byte after them.
pub fn offsets(packet: &[u8], room: &mut [u8], n: usize) -> usize
    requires { Row packet.now 202 offset_widths (filled room.old n) }
    ensures { filled room.new result ≡ copied packet.now 202 offset_widths (filled room.old n) }
{
    let clock = number(packet, layout::OFFSET, body::DEoAOffset::WIDTH, room, n);
    let altitude = short(packet, layout::CLOCK, body::QUtcOffset::WIDTH, room, clock);
    number(
        packet,
        layout::ALTITUDE,
        body::MSpAltitude::WIDTH,
        room,
        altitude,
    )
}
