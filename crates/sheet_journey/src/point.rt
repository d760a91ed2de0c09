// Judges the timing points of a journey's sheet, and counts the bits of their values in the packet.
// Parameters: `s` is the sheet, `spot` the byte where a part begins and the packet bits before it modulo 2^32.
ghost use Rattle.format.specs.Format.{times};
ghost use Rattle.grammar.specs.internal.rows.Rows as rows;
ghost use Rattle.grammar.specs.journey.Journey as journey;
ghost use Rattle.grammar.specs.internal.journey.Parts as parts;
ghost use Rattle.sheet_fields.specs.internal.Judging.{Standing, Over};

use kinds::UpTo;
use kinds::journey::QStopSkipPasses;
use kinds::refusals::Refusal;
use sheet_fields::row::row;
use sheet_fields::{Judged, Spot, ranged};

// Judges Q_TP_Information to Q_Automatic_Closing, by Q_Stop_Skip_Passes.
// For speed, judges two rows of five fields, which the compiler unrolls; it would not unroll one row of ten.
fn stopping_row(s: &[u8], spot: Spot, stop_skip_passes: u32) -> Judged<Spot>
    requires { Standing s.now spot.at }
    ensures { Over (rows.row parts.stopping_widths (parts.stopping_most stop_skip_passes)) s.now spot result }
{
    let widths = grammar::journey::stopping_widths();
    let most = grammar::journey::stopping_most(stop_skip_passes);
    let next = row(s, spot, &widths[0..5], &most[0..5])?;
    row(s, next, &widths[5..10], &most[5..10])
}

// Judges NID_TP to Q_TP_Alignment.
fn arrival_row(s: &[u8], spot: Spot) -> Judged<Spot>
    requires { Standing s.now spot.at }
    ensures { Over (rows.row parts.arrival_widths parts.arrival_most) s.now spot result }
{
    let widths = grammar::journey::arrival_widths();
    let most = grammar::journey::arrival_most();
    row(s, spot, &widths, &most)
}

// Judges a timing point.
fn point(s: &[u8], spot: Spot) -> Judged<Spot>
    requires { Standing s.now spot.at }
    ensures { Over journey.timing_point s.now spot result }
{
    let next = arrival_row(s, spot)?;
    let (stop_skip_passes, next) = ranged(
        s,
        next,
        QStopSkipPasses::WIDTH,
        0,
        QStopSkipPasses::LARGEST,
        Refusal::FieldValue,
    )?;
    stopping_row(s, next, stop_skip_passes)
}

// Judges `count` timing points, one after another.
pub fn points(s: &[u8], mut spot: Spot, count: u32) -> Judged<Spot>
    requires { Standing s.now spot.at }
    ensures { Over (times journey.timing_point count) s.now spot result }
{
    for _ in 0..count {
        spot = point(s, spot)?;
    }
    Ok(spot)
}
