// The fields of a segment's packet before its lists judged, with the bytes of their sheet counted. Nothing is written.
// Parameters: `s` is the packet, `stop` the bit where its fields end, `spot` the bit of the part and the sheet bytes before it.
// For speed, what an accepted packet goes through is put in line, and what is judged field by field, which a refused one alone needs, is not.
ghost use Rattle.std.specs.Prelude.{◌≡◌, ◌≤◌, length};
ghost use Rattle.grammar.specs.internal.rows.Rows.{row};
ghost use Rattle.bits.specs.internal.Windows.{fields_at};
ghost use Rattle.grammar.specs.internal.segment.Parts.{header_widths, header_most, identity_widths, offset_widths, offset_most};
ghost use Rattle.packet_fields.specs.internal.Judging.{Standing, Over, Gave};
ghost use Rattle.packet_fields.specs.internal.row.Values.{groups_all, row_bytes};
ghost use Rattle.packet_segment.specs.internal.head.Head.{body_head, head_part};

use grammar::segment::layout;
use kinds::refusals::Refused;
use kinds::{UpTo, body, header};
use packet_fields::{Judged, Spot};

// ---- field by field

// Judges D_EoA_Offset, Q_UTC_Offset and M_SP_Altitude.
fn cut_offsets(s: &[u8], stop: usize, spot: Spot) -> Judged<Spot>
    requires { Standing s.now stop spot.at spot.n }
    ensures { Over (row offset_widths offset_most) s.now stop spot.at spot.n result }
{
    let widths = grammar::segment::offset_widths();
    let most = grammar::segment::offset_most();
    packet_fields::row::row(s, stop, spot, &widths, &most)
}

// Judges the body's fields before the lists and returns the value of L_SP.
fn cut_body(s: &[u8], stop: usize, spot: Spot) -> Judged<(u32, Spot)>
    requires { Standing s.now stop spot.at spot.n }
    ensures { Gave body_head s.now stop spot.at spot.n result }
{
    let widths = grammar::segment::identity_widths();
    let most = grammar::segment::identity_most();
    let length = packet_fields::row::row(s, stop, spot, &widths, &most)?;
    let (lsp, offset) = packet_fields::field(s, stop, length, body::LSp::rule())?;
    let profile = cut_offsets(s, stop, offset)?;
    Ok((lsp, profile))
}

// Judges the header and the body's fields before the lists and returns the value of L_SP.
#[cold]
#[inline(never)]
fn cut_head(s: &[u8], stop: usize) -> Judged<(u32, Spot)>
    requires { Standing s.now stop 24 1 }
    ensures { Gave head_part s.now stop 24 1 result }
{
    let country = packet_fields::header::header(s, stop)?;
    cut_body(s, stop, country)
}

// ---- fast path: the bits are all present, and each field stands at a constant place from the packet's start

// Least bytes of a packet for the fast path: eight bytes can be read from the first byte of each field before the lists. A packet that has all those fields is as long.
const LONG: usize = layout::ALTITUDE / 8 + 9;

// Bytes of NID_ENGINE to N_Packet_Counter in the sheet, or 0 if the seconds are refused.
#[inline(always)]
fn header_bytes(s: &[u8]) -> usize
    requires { 38 ≤ length s.now }
    ensures { result ≡ row_bytes header_most (fields_at s.now 56 header_widths) }
{
    let seconds = fields::size::within(
        0,
        header::TTimestampSeconds::LARGEST,
        bits::read_window(s, layout::SECONDS, header::TTimestampSeconds::WIDTH),
    );
    if seconds == 0 {
        return 0;
    }
    let engine = numbers::write::groups(bits::read_window(
        s,
        layout::ENGINE,
        header::NidEngine::WIDTH,
    ));
    let date = numbers::write::groups(bits::read_window(
        s,
        layout::DATE,
        header::TTimestampDate::WIDTH,
    ));
    let counter = fields::size::short(bits::read_window(
        s,
        layout::COUNTER,
        header::NPacketCounter::WIDTH,
    ));
    engine as usize + date as usize + seconds as usize + counter as usize
}

// Bytes of NID_C, NID_SP and the two versions in the sheet; none of the four can be refused.
#[inline(always)]
fn identity_bytes(s: &[u8]) -> usize
    requires { 38 ≤ length s.now }
    ensures { result ≡ groups_all (fields_at s.now 120 identity_widths) }
{
    let country = fields::size::short(bits::read_window(s, layout::COUNTRY, body::NidC::WIDTH));
    let identity = numbers::write::groups(bits::read_window(
        s,
        layout::IDENTITY,
        body::NidSp::WIDTH,
    ));
    let major = fields::size::short(bits::read_window(s, layout::MAJOR, body::MSpVersion::WIDTH));
    let minor = fields::size::short(bits::read_window(s, layout::MINOR, body::MSpVersion::WIDTH));
    country as usize + identity as usize + major as usize + minor as usize
}

// Bytes of D_EoA_Offset, Q_UTC_Offset and M_SP_Altitude in the sheet, or 0 if Q_UTC_Offset is refused.
#[inline(always)]
fn offset_bytes(s: &[u8]) -> usize
    requires { 38 ≤ length s.now }
    ensures { result ≡ row_bytes offset_most (fields_at s.now 202 offset_widths) }
{
    let clock = fields::size::one(
        body::QUtcOffset::LARGEST,
        bits::read_window(s, layout::CLOCK, body::QUtcOffset::WIDTH),
    );
    if clock == 0 {
        return 0;
    }
    let offset = numbers::write::groups(bits::read_window(
        s,
        layout::OFFSET,
        body::DEoAOffset::WIDTH,
    ));
    let altitude = numbers::write::groups(bits::read_window(
        s,
        layout::ALTITUDE,
        body::MSpAltitude::WIDTH,
    ));
    offset as usize + clock as usize + altitude as usize
}

// Judges the head, whose bits are all present, and returns the value of L_SP. On a refusal, calls `cut_head` to find the field at fault.
// For speed, what that returns is made anew, `Ok(on!(..))`: the compiler then keeps the place apart from the count of bytes.
#[inline(always)]
fn whole_head(s: &[u8], stop: usize) -> Judged<(u32, Spot)>
    requires { Standing s.now stop 24 1 × (38 ≤ length s.now) × (253 ≤ stop) }
    ensures { Gave head_part s.now stop 24 1 result }
{
    let operational = fields::size::operational(bits::read_window(
        s,
        layout::OPERATIONAL,
        header::NidOperational::WIDTH,
    ));
    if operational == 0 {
        return Ok(on!(cut_head(s, stop)));
    }
    let header = header_bytes(s);
    if header == 0 {
        return Ok(on!(cut_head(s, stop)));
    }
    let lsp = bits::read_window(s, layout::LENGTH, body::LSp::WIDTH);
    if lsp == 0 {
        return Ok(on!(cut_head(s, stop)));
    }
    let offsets = offset_bytes(s);
    if offsets == 0 {
        return Ok(on!(cut_head(s, stop)));
    }
    let identity = identity_bytes(s);
    let length = numbers::write::groups(lsp);
    let bytes = 1 + operational as usize + header + identity + length as usize + offsets;
    Ok((
        lsp,
        Spot {
            at: layout::PROFILE,
            n: bytes,
        },
    ))
}

// Judges the thirteen fields before the lists and returns the value of L_SP.
pub fn head(s: &[u8], stop: usize) -> Judged<(u32, Spot)>
    requires { Standing s.now stop 24 1 }
    ensures { Gave head_part s.now stop 24 1 result }
{
    if s.len() < LONG {
        return Ok(on!(cut_head(s, stop)));
    }
    if stop < layout::PROFILE {
        return Ok(on!(cut_head(s, stop)));
    }
    whole_head(s, stop)
}
