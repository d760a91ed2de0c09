// Judges one field of a sheet, and counts the bits of its value in the packet. Nothing is written.
// Parameters: `s` is the sheet, `spot` the byte of the field's number and the packet bits before it modulo 2^32.

#![tactic(auto)]

pub mod header;
pub mod numbered;
pub mod row;

ghost use Rattle.std.specs.Prelude.{◌≡◌, ◌<◌, ◌==◌, Ok, Err};
ghost use Rattle.kinds.specs.Kind.{range, up_to};
ghost use Rattle.kinds.specs.Kinds as kind;
ghost use Rattle.kinds.specs.Refusals.{refusal_number};
ghost use Rattle.kinds.specs.Tables.{cant_figures};
ghost use Rattle.format.specs.Format.{then};
ghost use Rattle.sheet_fields.specs.internal.Judging.{Standing, Took, Over, Reads};

use fields::lower;
use kinds::header::NidOperational;
use kinds::journey::DTcEndLocation;
use kinds::refusals::{Refusal, Refused};
use kinds::{UpTo, body};

// A byte of a sheet that judging has reached, and the packet bits before it modulo 2^32.
pub type Spot = verdict::Spot<u32>;

// What judging gives, or a refusal and its byte.
pub type Judged<T> = Result<T, Refused<usize>>;

// Reads a number, and returns it with the spot after a field of `width` bits.
fn read(s: &[u8], spot: Spot, width: u32) -> Judged<(u32, Spot)>
    requires { Standing s.now spot.at }
    ensures { Reads width s.now spot result }
{
    let found = numbers::found_at(s, spot.at);
    if found.count == 0 {
        return Err(Refused(Refusal::SheetForm, spot.at));
    }
    let next = Spot {
        at: spot.at + found.count as usize,
        n: std::num::wrapping_add_u32(spot.n, width),
    };
    Ok((found.value, next))
}

// Judges a field of `width` bits from `least` to `largest` and returns its value. Any other number is refused with `refusal`.
pub fn ranged(
    s: &[u8],
    spot: Spot,
    width: u32,
    least: u32,
    largest: u32,
    refusal: Refusal,
) -> Judged<(u32, Spot)>
    requires { Standing s.now spot.at }
    ensures { Took (range width least largest (refusal_number refusal)) s.now spot result }
{
    let (v, next) = read(s, spot, width)?;
    if v < least || largest < v {
        return Err(Refused(refusal, spot.at));
    }
    Ok((v, next))
}

// Judges a field of `width` bits from 0 to `largest` (below 128) and returns its value.
// Fast path: a byte up to `largest` is the whole number, so that the next place does not depend on it.
pub fn single(s: &[u8], spot: Spot, width: u32, largest: u32) -> Judged<(u32, Spot)>
    requires { Standing s.now spot.at × (largest < 128) }
    ensures { Took (up_to width largest) s.now spot result }
{
    if spot.at < s.len() {
        let v = bits::wide(s[spot.at]);
        if v <= largest {
            let next = Spot {
                at: spot.at + 1,
                n: std::num::wrapping_add_u32(spot.n, width),
            };
            return Ok((v, next));
        }
    }
    ranged(s, spot, width, 0, largest, Refusal::FieldValue)
}

// Judges D_Location, above `last` and below `lsp` (cm), and returns its value.
pub fn location(s: &[u8], spot: Spot, last: u32, lsp: u32) -> Judged<(u32, Spot)>
    requires { Standing s.now spot.at }
    ensures { Took (kind.d_location last lsp) s.now spot result }
{
    let (v, next) = read(s, spot, body::DLocation::WIDTH)?;
    if v <= last || lsp <= v {
        return Err(Refused(Refusal::ChangeLocation, spot.at));
    }
    Ok((v, next))
}

// Judges D_TC_End_Location (cm): 4 for an end of more than 24 bits, 5 for an end that is not above `start`.
pub fn after(s: &[u8], spot: Spot, start: u32) -> Judged<Spot>
    requires { Standing s.now spot.at }
    ensures { Over (then (kind.d_end_after start)) s.now spot result }
{
    let (v, next) = read(s, spot, DTcEndLocation::WIDTH)?;
    if DTcEndLocation::LARGEST < v {
        return Err(Refused(Refusal::FieldValue, spot.at));
    }
    if v <= start {
        return Err(Refused(Refusal::ChangeLocation, spot.at));
    }
    Ok(next)
}

// Judges NID_OPERATIONAL: each digit of four bits is 0 to 9 or F.
pub fn operational(s: &[u8], spot: Spot) -> Judged<Spot>
    requires { Standing s.now spot.at }
    ensures { Over (then kind.nid_operational) s.now spot result }
{
    let (v, next) = read(s, spot, NidOperational::WIDTH)?;
    if fields::size::digits_good(v) {
        return Ok(next);
    }
    Err(Refused(Refusal::FieldValue, spot.at))
}

// Judges V_STATIC, V_DIFF or V_Speed_Level, in km/h.
pub fn speed(s: &[u8], spot: Spot) -> Judged<Spot>
    requires { Standing s.now spot.at }
    ensures { Over (then kind.speed) s.now spot result }
{
    let (v, next) = read(s, spot, body::VStatic::WIDTH)?;
    if lower::speed_steps(v) == lower::NO_SPEED {
        return Err(Refused(Refusal::FieldValue, spot.at));
    }
    Ok(next)
}

// Judges the class of an entry with Q_DIFF `q`. `figures` is the table of cant figures, in mm.
pub fn class(s: &[u8], figures: &[u32; 11], spot: Spot, q: u32) -> Judged<Spot>
    requires { Standing s.now spot.at × (figures.now ≡ cant_figures) }
    ensures { Over (then (kind.class q)) s.now spot result }
{
    let (v, next) = read(s, spot, body::NcDiff::WIDTH)?;
    if lower::class_place(figures, q, v) == lower::NO_CLASS {
        return Err(Refused(Refusal::FieldValue, spot.at));
    }
    Ok(next)
}

// Judges M_VOLTAGE, in volts, and returns its place in the table of volts.
pub fn voltage(s: &[u8], spot: Spot) -> Judged<(u32, Spot)>
    requires { Standing s.now spot.at }
    ensures { Took kind.m_voltage s.now spot result }
{
    let (v, next) = read(s, spot, body::MVoltage::WIDTH)?;
    let place = lower::volts_place(v);
    if place == lower::NO_VOLTAGE {
        return Err(Refused(Refusal::FieldValue, spot.at));
    }
    Ok((place, next))
}

// Judges M_CURRENT: amperes + 1, or 0 for no limit.
pub fn current(s: &[u8], spot: Spot) -> Judged<Spot>
    requires { Standing s.now spot.at }
    ensures { Over (then kind.m_current) s.now spot result }
{
    let (v, next) = read(s, spot, body::MCurrent::WIDTH)?;
    if lower::current_steps(v) == lower::NO_CURRENT {
        return Err(Refused(Refusal::FieldValue, spot.at));
    }
    Ok(next)
}

// Judges a current that is not used: the number 0 alone.
pub fn no_current(s: &[u8], spot: Spot) -> Judged<Spot>
    requires { Standing s.now spot.at }
    ensures { Over (then kind.no_current) s.now spot result }
{
    let (v, next) = read(s, spot, body::MCurrent::WIDTH)?;
    if v == 0 {
        return Ok(next);
    }
    Err(Refused(Refusal::FieldValue, spot.at))
}
