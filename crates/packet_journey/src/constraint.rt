// Judges the temporary constraints of a journey's packet, and counts the bytes of their numbers in the sheet.
// Parameters: `s` is the packet, `stop` the bit where its fields end, `spot` the bit where a part begins and the sheet bytes before it.
// For speed, what an accepted packet goes through is put in line, and what is judged field by field, which a refused one alone needs, is not.
ghost use Rattle.std.specs.Prelude.{◌-◌, ◌≤◌};
ghost use Rattle.format.specs.Format.{times};
ghost use Rattle.grammar.specs.journey.Journey as journey;
ghost use Rattle.grammar.specs.journey.Journey.{temporary_constraint};
ghost use Rattle.packet_fields.specs.internal.Judging.{Standing, Over};

use grammar::journey::layout::{CONSTRAINT, END, FRONT};
use kinds::journey::{
    DTcEndLocation, DTcStartLocation, QLowAdhesionRate, QTcFront, QTcRange, QTcType, VSpeedLevel,
};
use kinds::refusals::Refused;
use kinds::{Rule, UpTo};
use packet_fields::times::times;
use packet_fields::{Judged, Spot};

// Judges the start and the end, at Q_TC_Range `range`.
fn stretch(s: &[u8], stop: usize, spot: Spot, range: u32) -> Judged<Spot>
    requires { Standing s.now stop spot.at spot.n }
    ensures { Over (journey.stretch range) s.now stop spot.at spot.n result }
{
    let (start, end) = packet_fields::field(s, stop, spot, DTcStartLocation::rule(range))?;
    packet_fields::plain(s, stop, end, DTcEndLocation::rule(range, start))
}

// Judges Q_FRONT, V_Speed_Level, Q_Low_Adhesion_Rate and M_CURRENT, at Q_TC_Type `of`.
fn restriction(s: &[u8], stop: usize, spot: Spot, of: u32) -> Judged<Spot>
    requires { Standing s.now stop spot.at spot.n }
    ensures { Over (journey.restriction of) s.now stop spot.at spot.n result }
{
    let speed = packet_fields::plain(s, stop, spot, QTcFront::rule(of))?;
    let rate = packet_fields::plain(s, stop, speed, VSpeedLevel::rule(of))?;
    let current = packet_fields::plain(s, stop, rate, QLowAdhesionRate::rule(of))?;
    packet_fields::plain(s, stop, current, Rule::NoCurrent)
}

// Judges a temporary constraint field by field, and finds the field at fault.
#[cold]
#[inline(never)]
fn cut_constraint(s: &[u8], stop: usize, spot: Spot) -> Judged<Spot>
    requires { Standing s.now stop spot.at spot.n }
    ensures { Over temporary_constraint s.now stop spot.at spot.n result }
{
    let (of, second) = packet_fields::field(s, stop, spot, QTcType::rule())?;
    let (range, start) = packet_fields::field(s, stop, second, QTcRange::rule())?;
    let front = stretch(s, stop, start, range)?;
    restriction(s, stop, front, of)
}

// Fast path: all 73 bits are present. On a refusal, calls `cut_constraint` to find the field at fault.
// For speed, what that returns is made anew, `Ok(on!(..))`: the compiler then keeps the place apart from the count of bytes.
#[inline(always)]
fn whole_constraint(s: &[u8], stop: usize, spot: Spot) -> Judged<Spot>
    requires { Standing s.now stop spot.at spot.n × (73 ≤ stop - spot.at) }
    ensures { Over temporary_constraint s.now stop spot.at spot.n result }
{
    let t = bits::read_window(s, spot.at, 28);
    let end = bits::read_window(s, spot.at + END, DTcEndLocation::WIDTH);
    let stretch = crate::constraint_bytes::stretch_bytes(t / 16777216 % 4, t % 16777216, end);
    if stretch == 0 {
        return Ok(on!(cut_constraint(s, stop, spot)));
    }
    let uses = bits::read_window(s, spot.at + FRONT, 21);
    let restriction = crate::constraint_bytes::restriction_bytes(t / 67108864, uses);
    if restriction == 0 {
        return Ok(on!(cut_constraint(s, stop, spot)));
    }
    let bytes = stretch + restriction + 2;
    Ok(Spot {
        at: spot.at + CONSTRAINT,
        n: spot.n + bytes as usize,
    })
}

// Judges a temporary constraint.
#[inline(always)]
fn constraint(s: &[u8], stop: usize, spot: Spot) -> Judged<Spot>
    requires { Standing s.now stop spot.at spot.n }
    ensures { Over temporary_constraint s.now stop spot.at spot.n result }
{
    if stop - spot.at < CONSTRAINT {
        return Ok(on!(cut_constraint(s, stop, spot)));
    }
    whole_constraint(s, stop, spot)
}

// Judges `count` temporary constraints, one after another.
pub fn constraints(s: &[u8], stop: usize, spot: Spot, count: u32) -> Judged<Spot>
    requires { Standing s.now stop spot.at spot.n }
    ensures { Over (times temporary_constraint count) s.now stop spot.at spot.n result }
{
    times(count, spot, |at| constraint(s, stop, at))
}
