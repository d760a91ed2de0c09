// Judges the numbers of a journey's sheet, and counts the bits of its packet. Nothing is written.
// Parameters: `s` is the sheet, `spot` the byte where a part begins and the packet bits before it modulo 2^32.

#![tactic(auto)]

pub mod constraint;
pub mod point;

ghost use Rattle.format.specs.Format.{times};
ghost use Rattle.grammar.specs.internal.rows.Rows as rows;
ghost use Rattle.grammar.specs.journey.Journey as journey;
ghost use Rattle.grammar.specs.internal.journey.Parts as parts;
ghost use Rattle.sheet_fields.specs.internal.Judging.{Standing, Over};

use crate::point::points;
use grammar::journey::CONSTRAINTS;
use kinds::UpTo;
use kinds::body::NIter;
use kinds::journey::{NIterSp, QJpStatus};
use kinds::refusals::Refusal;
use sheet_fields::header::header;
use sheet_fields::row::row;
use sheet_fields::{Judged, Spot, ranged};

// Judges the count of a segment's temporary constraints, and the constraints.
fn constraints(s: &[u8], spot: Spot) -> Judged<Spot>
    requires { Standing s.now spot.at }
    ensures { Over (parts.constraint_list journey.constraints) s.now spot result }
{
    let (count, next) = ranged(s, spot, NIter::WIDTH, 0, CONSTRAINTS, Refusal::FieldValue)?;
    crate::constraint::constraints(s, next, count)
}

// Judges NID_C to Q_SP_DIR of a segment.
fn segment_row(s: &[u8], spot: Spot) -> Judged<Spot>
    requires { Standing s.now spot.at }
    ensures { Over (rows.row parts.segment_widths parts.segment_most) s.now spot result }
{
    let widths = grammar::journey::segment_widths();
    let most = grammar::journey::segment_most();
    row(s, spot, &widths, &most)
}

// Judges a segment: NID_C to Q_SP_DIR, its timing points, its temporary constraints.
fn segment(s: &[u8], spot: Spot) -> Judged<Spot>
    requires { Standing s.now spot.at }
    ensures { Over (journey.journey_segment journey.constraints) s.now spot result }
{
    let next = segment_row(s, spot)?;
    let (count, next) = ranged(
        s,
        next,
        NIter::WIDTH,
        0,
        NIter::LARGEST,
        Refusal::FieldValue,
    )?;
    let next = points(s, next, count)?;
    constraints(s, next)
}

// Judges `count` segments, one after another.
fn segments(s: &[u8], mut spot: Spot, count: u32) -> Judged<Spot>
    requires { Standing s.now spot.at }
    ensures { Over (times (journey.journey_segment journey.constraints) count) s.now spot result }
{
    for _ in 0..count {
        spot = segment(s, spot)?;
    }
    Ok(spot)
}

// Judges the body: Q_JP_Status, N_ITER_SP and the segments.
fn body(s: &[u8], spot: Spot) -> Judged<Spot>
    requires { Standing s.now spot.at }
    ensures { Over parts.journey_body_part s.now spot result }
{
    let (_, next) = ranged(
        s,
        spot,
        QJpStatus::WIDTH,
        0,
        QJpStatus::LARGEST,
        Refusal::FieldValue,
    )?;
    let (count, next) = ranged(
        s,
        next,
        NIterSp::WIDTH,
        0,
        NIterSp::LARGEST,
        Refusal::FieldValue,
    )?;
    segments(s, next, count)
}

// Judges every number after the packet number.
pub fn fields(s: &[u8], spot: Spot) -> Judged<Spot>
    requires { Standing s.now spot.at }
    ensures { Over parts.journey_part s.now spot result }
{
    let next = header(s, spot)?;
    body(s, next)
}
