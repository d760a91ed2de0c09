// Judges the timing points of a journey's packet, and counts the bytes of their numbers in the sheet.
// Parameters: `s` is the packet, `stop` the bit where its fields end, `spot` the bit where a part begins and the sheet bytes before it.
// For speed, what an accepted packet goes through is put in line, and what is judged field by field, which a refused one alone needs, is not.
ghost use Rattle.std.specs.Prelude.{◌-◌, ◌≤◌};
ghost use Rattle.format.specs.Format.{times};
ghost use Rattle.grammar.specs.internal.rows.Rows.{row};
ghost use Rattle.grammar.specs.journey.Journey.{timing_point};
ghost use Rattle.grammar.specs.internal.journey.Parts.{arrival_widths, arrival_most, stopping_widths, stopping_most};
ghost use Rattle.packet_fields.specs.internal.Judging.{Standing, Over};

use grammar::journey::layout::{DOORS, LATEST, LEAVING, MARKS, POINT};
use kinds::UpTo;
use kinds::journey::{NidTp, QStopSkipPasses};
use kinds::refusals::Refused;
use packet_fields::times::times;
use packet_fields::{Judged, Spot};

// Judges NID_TP to Q_TP_Alignment, field by field.
fn arrival(s: &[u8], stop: usize, spot: Spot) -> Judged<Spot>
    requires { Standing s.now stop spot.at spot.n }
    ensures { Over (row arrival_widths arrival_most) s.now stop spot.at spot.n result }
{
    let widths = grammar::journey::arrival_widths();
    let most = grammar::journey::arrival_most();
    packet_fields::row::row(s, stop, spot, &widths, &most)
}

// Judges Q_TP_Information to Q_Automatic_Closing, field by field, by Q_Stop_Skip_Passes.
fn stopping(s: &[u8], stop: usize, spot: Spot, stop_skip_passes: u32) -> Judged<Spot>
    requires { Standing s.now stop spot.at spot.n }
    ensures { Over (row stopping_widths (stopping_most stop_skip_passes)) s.now stop spot.at spot.n result }
{
    let widths = grammar::journey::stopping_widths();
    let most = grammar::journey::stopping_most(stop_skip_passes);
    packet_fields::row::row(s, stop, spot, &widths, &most)
}

// Judges a timing point field by field, and finds the field at fault.
#[cold]
#[inline(never)]
fn cut_point(s: &[u8], stop: usize, spot: Spot) -> Judged<Spot>
    requires { Standing s.now stop spot.at spot.n }
    ensures { Over timing_point s.now stop spot.at spot.n result }
{
    let passes = arrival(s, stop, spot)?;
    let (stop_skip_passes, rest) = packet_fields::field(s, stop, passes, QStopSkipPasses::rule())?;
    stopping(s, stop, rest, stop_skip_passes)
}

// Fast path: all 129 bits are present. On a refusal, calls `cut_point` to find the field at fault.
// For speed, what that returns is made anew, `Ok(on!(..))`: the compiler then keeps the place apart from the count of bytes.
#[inline(always)]
fn whole_point(s: &[u8], stop: usize, spot: Spot) -> Judged<Spot>
    requires { Standing s.now stop spot.at spot.n × (129 ≤ stop - spot.at) }
    ensures { Over timing_point s.now stop spot.at spot.n result }
{
    let latest = crate::point_bytes::latest_bytes(bits::read_window(s, spot.at + LATEST, 32));
    if latest == 0 {
        return Ok(on!(cut_point(s, stop, spot)));
    }
    let t = bits::read_window(s, spot.at + MARKS, 17);
    let marks = crate::point_bytes::marks_bytes(t);
    if marks == 0 {
        return Ok(on!(cut_point(s, stop, spot)));
    }
    let doors = bits::read_window(s, spot.at + DOORS, 20);
    let leaving = bits::read_window(s, spot.at + LEAVING, 28);
    let eight = crate::point_bytes::eight_bytes(t / 8 % 4, doors, leaving);
    if eight == 0 {
        return Ok(on!(cut_point(s, stop, spot)));
    }
    let name = numbers::write::groups(bits::read_window(s, spot.at, NidTp::WIDTH));
    let bytes = name + latest + marks + eight;
    Ok(Spot {
        at: spot.at + POINT,
        n: spot.n + bytes as usize,
    })
}

// Judges a timing point.
#[inline(always)]
fn point(s: &[u8], stop: usize, spot: Spot) -> Judged<Spot>
    requires { Standing s.now stop spot.at spot.n }
    ensures { Over timing_point s.now stop spot.at spot.n result }
{
    if stop - spot.at < POINT {
        return Ok(on!(cut_point(s, stop, spot)));
    }
    whole_point(s, stop, spot)
}

// Judges `count` timing points, one after another.
pub fn points(s: &[u8], stop: usize, spot: Spot, count: u32) -> Judged<Spot>
    requires { Standing s.now stop spot.at spot.n }
    ensures { Over (times timing_point count) s.now stop spot.at spot.n result }
{
    times(count, spot, |at| point(s, stop, at))
}
