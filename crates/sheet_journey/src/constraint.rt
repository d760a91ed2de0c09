// Judges the temporary constraints of a journey's sheet, and counts the bits of their values in the packet.
// Parameters: `s` is the sheet, `spot` the byte where a part begins and the packet bits before it modulo 2^32.
ghost use Rattle.kinds.specs.Kind.{up_to};
ghost use Rattle.format.specs.Format.{then, times};
ghost use Rattle.kinds.specs.journey.Kinds as kind;
ghost use Rattle.grammar.specs.journey.Journey as journey;
ghost use Rattle.sheet_fields.specs.internal.Judging.{Standing, Over};

use kinds::UpTo;
use kinds::journey::{
    DTcEndLocation, DTcStartLocation, QLowAdhesionRate, QTcFront, QTcRange, QTcType, VSpeedLevel,
};
use kinds::refusals::Refusal;
use sheet_fields::{Judged, Spot, after, no_current, ranged, speed};

// Judges a field of `width` bits up to `most` and drops its value; no later field depends on it.
fn up_to(s: &[u8], spot: Spot, width: u32, most: u32) -> Judged<Spot>
    requires { Standing s.now spot.at }
    ensures { Over (then (up_to width most)) s.now spot result }
{
    let (_, next) = ranged(s, spot, width, 0, most, Refusal::FieldValue)?;
    Ok(next)
}

// Judges the end at Q_TC_Range `range`: with `BOTH` it is above `start`, in cm.
fn end(s: &[u8], spot: Spot, range: u32, start: u32) -> Judged<Spot>
    requires { Standing s.now spot.at }
    ensures { Over (then (kind.d_tc_end_location range start)) s.now spot result }
{
    if range == QTcRange::BOTH {
        return after(s, spot, start);
    }
    up_to(s, spot, DTcEndLocation::WIDTH, DTcEndLocation::most(range))
}

// Judges the start and the end, at Q_TC_Range `range`.
fn stretch(s: &[u8], spot: Spot, range: u32) -> Judged<Spot>
    requires { Standing s.now spot.at }
    ensures { Over (journey.stretch range) s.now spot result }
{
    let most = DTcStartLocation::most(range);
    let (start, next) = ranged(
        s,
        spot,
        DTcStartLocation::WIDTH,
        0,
        most,
        Refusal::FieldValue,
    )?;
    end(s, next, range, start)
}

// Judges V_Speed_Level at Q_TC_Type `of`: km/h, or the number 0 alone where no speed is used.
fn level(s: &[u8], spot: Spot, of: u32) -> Judged<Spot>
    requires { Standing s.now spot.at }
    ensures { Over (then (kind.v_speed_level of)) s.now spot result }
{
    if of == QTcType::SPEED {
        return speed(s, spot);
    }
    up_to(s, spot, VSpeedLevel::WIDTH, 0)
}

// Judges Q_FRONT, V_Speed_Level, Q_Low_Adhesion_Rate and M_CURRENT, at Q_TC_Type `of`.
fn restriction(s: &[u8], spot: Spot, of: u32) -> Judged<Spot>
    requires { Standing s.now spot.at }
    ensures { Over (journey.restriction of) s.now spot result }
{
    let next = up_to(s, spot, QTcFront::WIDTH, QTcFront::most(of))?;
    let next = level(s, next, of)?;
    let next = up_to(s, next, QLowAdhesionRate::WIDTH, QLowAdhesionRate::most(of))?;
    no_current(s, next)
}

// Judges a temporary constraint.
fn constraint(s: &[u8], spot: Spot) -> Judged<Spot>
    requires { Standing s.now spot.at }
    ensures { Over journey.temporary_constraint s.now spot result }
{
    let (of, next) = ranged(
        s,
        spot,
        QTcType::WIDTH,
        0,
        QTcType::LARGEST,
        Refusal::FieldValue,
    )?;
    let (range, next) = ranged(
        s,
        next,
        QTcRange::WIDTH,
        0,
        QTcRange::LARGEST,
        Refusal::FieldValue,
    )?;
    let next = stretch(s, next, range)?;
    restriction(s, next, of)
}

// Judges `count` temporary constraints, one after another.
pub fn constraints(s: &[u8], mut spot: Spot, count: u32) -> Judged<Spot>
    requires { Standing s.now spot.at }
    ensures { Over (times journey.temporary_constraint count) s.now spot result }
{
    for _ in 0..count {
        spot = constraint(s, spot)?;
    }
    Ok(spot)
}
