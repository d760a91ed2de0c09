// The sheet of a segment judged part by part, with the bits of its packet counted. Nothing is written.
// `spot` is the byte where a part begins, with the packet bits counted before the part, modulo 2^32.

#![tactic(auto)]

ghost use Rattle.std.specs.Prelude.{◌≡◌, ◌<◌};
ghost use Rattle.kinds.specs.Tables.{cant_figures};
ghost use Rattle.grammar.specs.internal.rows.Rows as rows;
ghost use Rattle.grammar.specs.segment.Segment as segment;
ghost use Rattle.grammar.specs.internal.segment.Parts as parts;
ghost use Rattle.grammar.specs.internal.segment.Parts.{start_of, three_lists};
ghost use Rattle.sheet_fields.specs.internal.Judging.{Standing, Over};

use fields::tables;
use grammar::segment::{Part, WIRE_CHANGES};
use kinds::refusals::Refusal;
use kinds::{UpTo, body};
use sheet_fields::header::header;
use sheet_fields::row::row;
use sheet_fields::{Judged, Spot, class, current, location, ranged, single, speed, voltage};

// Judges a specific entry: Q_DIFF, the class, V_DIFF. `figures` is the table of cant figures.
fn entry(s: &[u8], figures: &[u32; 11], spot: Spot) -> Judged<Spot>
    requires { Standing s.now spot.at × (figures.now ≡ cant_figures) }
    ensures { Over parts.entry s.now spot result }
{
    let (q, next) = single(s, spot, body::QDiff::WIDTH, body::QDiff::LARGEST)?;
    let next = class(s, figures, next, q)?;
    speed(s, next)
}

// Judges the `count` specific entries of an element.
fn entries(s: &[u8], mut spot: Spot, count: u32) -> Judged<Spot>
    requires { Standing s.now spot.at }
    ensures { Over (segment.entries count) s.now spot result }
{
    let figures = tables::CANT_FIGURES;
    for _ in 0..count {
        spot = entry(s, &figures, spot)?;
    }
    Ok(spot)
}

// Judges V_STATIC, Q_FRONT, the count of the specific entries, and the specific entries.
fn profile(s: &[u8], spot: Spot) -> Judged<Spot>
    requires { Standing s.now spot.at }
    ensures { Over segment.profile s.now spot result }
{
    let next = speed(s, spot)?;
    let (_, next) = single(s, next, body::QFront::WIDTH, body::QFront::LARGEST)?;
    let (count, next) = single(s, next, body::NIter::WIDTH, body::NIter::LARGEST)?;
    entries(s, next, count)
}

// Judges M_VOLTAGE and NID_CTRACTION.
fn wire(s: &[u8], spot: Spot) -> Judged<Spot>
    requires { Standing s.now spot.at }
    ensures { Over segment.voltage s.now spot result }
{
    let (u, next) = voltage(s, spot)?;
    let width = body::NidCTraction::WIDTH;
    let most = body::NidCTraction::most(u);
    let (_, next) = ranged(s, next, width, 0, most, Refusal::FieldValue)?;
    Ok(next)
}

// Judges one element of a list: a speed element, a voltage or a current.
fn element(part: Part, s: &[u8], spot: Spot) -> Judged<Spot>
    requires { Standing s.now spot.at }
    ensures { Over (start_of part) s.now spot result }
{
    match part {
        Part::Speeds => profile(s, spot),
        Part::Volts => wire(s, spot),
        Part::Amperes => current(s, spot),
    }
}

// Judges the `count` changes of a list, each a location and an element. The locations rise and are below `lsp`.
fn changes(part: Part, s: &[u8], mut spot: Spot, lsp: u32, count: u32) -> Judged<Spot>
    requires { Standing s.now spot.at }
    ensures { Over (segment.changes (start_of part) lsp 0 count) s.now spot result }
{
    let mut last: u32 = 0;
    for _ in 0..count {
        let (x, next) = location(s, spot, last, lsp)?;
        spot = element(part, s, next)?;
        last = x;
    }
    Ok(spot)
}

// Judges a list: its first element, the count of its changes, at most `limit`, and the changes.
fn list(part: Part, s: &[u8], spot: Spot, lsp: u32, limit: u32) -> Judged<Spot>
    requires { Standing s.now spot.at × (limit < 128) }
    ensures { Over (segment.part (start_of part) limit lsp) s.now spot result }
{
    let next = element(part, s, spot)?;
    let (count, next) = single(s, next, body::NIter::WIDTH, limit)?;
    changes(part, s, next, lsp, count)
}

// Judges the three lists: speeds, voltages, currents.
fn lists(s: &[u8], spot: Spot, lsp: u32) -> Judged<Spot>
    requires { Standing s.now spot.at }
    ensures { Over (three_lists lsp) s.now spot result }
{
    let next = list(Part::Speeds, s, spot, lsp, body::NIter::LARGEST)?;
    let next = list(Part::Volts, s, next, lsp, WIRE_CHANGES)?;
    list(Part::Amperes, s, next, lsp, WIRE_CHANGES)
}

// Judges NID_C, NID_SP and the two versions.
fn identity(s: &[u8], spot: Spot) -> Judged<Spot>
    requires { Standing s.now spot.at }
    ensures { Over (rows.row parts.identity_widths parts.identity_most) s.now spot result }
{
    let widths = grammar::segment::identity_widths();
    let most = grammar::segment::identity_most();
    row(s, spot, &widths, &most)
}

// Judges D_EoA_Offset, Q_UTC_Offset and M_SP_Altitude.
fn offsets(s: &[u8], spot: Spot) -> Judged<Spot>
    requires { Standing s.now spot.at }
    ensures { Over (rows.row parts.offset_widths parts.offset_most) s.now spot result }
{
    let widths = grammar::segment::offset_widths();
    let most = grammar::segment::offset_most();
    row(s, spot, &widths, &most)
}

// Judges the fields after L_SP, whose value is `lsp`: the offsets and the three lists.
fn after_length(s: &[u8], spot: Spot, lsp: u32) -> Judged<Spot>
    requires { Standing s.now spot.at }
    ensures { Over (parts.offset_rows lsp) s.now spot result }
{
    let next = offsets(s, spot)?;
    lists(s, next, lsp)
}

// Judges the fields of the body.
fn body(s: &[u8], spot: Spot) -> Judged<Spot>
    requires { Standing s.now spot.at }
    ensures { Over parts.body_rows s.now spot result }
{
    let next = identity(s, spot)?;
    let (lsp, next) = ranged(
        s,
        next,
        body::LSp::WIDTH,
        body::LSp::LEAST,
        body::LSp::LARGEST,
        Refusal::FieldValue,
    )?;
    after_length(s, next, lsp)
}

// Judges every field of a segment after the packet number.
pub fn fields(s: &[u8], spot: Spot) -> Judged<Spot>
    requires { Standing s.now spot.at }
    ensures { Over parts.segment_rows s.now spot result }
{
    let next = header(s, spot)?;
    body(s, next)
}
