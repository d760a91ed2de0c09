// Judges the fields of a journey's packet, and counts the bytes of its sheet. Nothing is written.
// Parameters: `s` is the packet, `stop` the bit where its fields end, `spot` the bit where a part begins and the sheet bytes before it.
// For speed, what an accepted packet goes through is put in line, and what is judged field by field, which a refused one alone needs, is not.

#![tactic(auto)]

// Gives what is judged, or hands a refusal on by its two parts. For speed, in place of `?`: `packet_fields::on` says why.
// A macro of another crate leaves the check without a name for what is bound, so it stands here too.
macro_rules! on {
    ($judged:expr) => {
        match $judged {
            Ok(judged) => judged,
            Err(Refused(refusal, place)) => {
                return Err(Refused(refusal, place));
            }
        }
    };
}

pub mod constraint;
pub mod constraint_bytes;
pub mod point;
pub mod point_bytes;

ghost use Rattle.std.specs.Prelude.{◌-◌, ◌≤◌};
ghost use Rattle.format.specs.Format.{times};
ghost use Rattle.grammar.specs.journey.Journey.{journey_segment, constraints};
ghost use Rattle.grammar.specs.internal.journey.Parts.{constraint_list, journey_body_part, journey_part};
ghost use Rattle.packet_fields.specs.internal.Judging.{Standing, Over, Gave};
ghost use Rattle.packet_journey.specs.internal.Head.{segment_head};

use grammar::journey::CONSTRAINTS;
use grammar::journey::layout::{IDENTITY, SEGMENT_HEAD, VERSIONS, VERSIONS_WIDTH};
use kinds::journey::{NIterSp, QJpStatus};
use kinds::refusals::Refused;
use kinds::{UpTo, body};
use packet_fields::times::times;
use packet_fields::{Judged, Spot};

// Judges NID_C to Q_SP_DIR and N_ITER of a segment, field by field, and returns N_ITER.
#[cold]
#[inline(never)]
fn cut_head(s: &[u8], stop: usize, spot: Spot) -> Judged<(u32, Spot)>
    requires { Standing s.now stop spot.at spot.n }
    ensures { Gave segment_head s.now stop spot.at spot.n result }
{
    let widths = grammar::journey::segment_widths();
    let most = grammar::journey::segment_most();
    let count = packet_fields::row::row(s, stop, spot, &widths, &most)?;
    packet_fields::count(s, stop, count, body::NIter::LARGEST)
}

// Fast path: all 64 bits are present. No value of these fields is refused.
#[inline(always)]
fn whole_head(s: &[u8], stop: usize, spot: Spot) -> Judged<(u32, Spot)>
    requires { Standing s.now stop spot.at spot.n × (64 ≤ stop - spot.at) }
    ensures { Gave segment_head s.now stop spot.at spot.n result }
{
    let country = fields::size::short(bits::read_window(s, spot.at, body::NidC::WIDTH));
    let identity = numbers::write::groups(bits::read_window(
        s,
        spot.at + IDENTITY,
        body::NidSp::WIDTH,
    ));
    let t = bits::read_window(s, spot.at + VERSIONS, VERSIONS_WIDTH);
    let major = fields::size::short(t / 16384);
    let minor = fields::size::short(t / 64 % 256);
    let bytes = country + identity + major + minor + 2;
    Ok((
        t % 32,
        Spot {
            at: spot.at + SEGMENT_HEAD,
            n: spot.n + bytes as usize,
        },
    ))
}

// Judges NID_C to Q_SP_DIR and N_ITER of a segment, and returns N_ITER, the count of its timing points.
#[inline(always)]
fn segment_head(s: &[u8], stop: usize, spot: Spot) -> Judged<(u32, Spot)>
    requires { Standing s.now stop spot.at spot.n }
    ensures { Gave segment_head s.now stop spot.at spot.n result }
{
    if stop - spot.at < SEGMENT_HEAD {
        return Ok(on!(cut_head(s, stop, spot)));
    }
    whole_head(s, stop, spot)
}

// Judges the count of a segment's temporary constraints, and the constraints.
#[inline(always)]
fn constraint_list(s: &[u8], stop: usize, spot: Spot) -> Judged<Spot>
    requires { Standing s.now stop spot.at spot.n }
    ensures { Over (constraint_list constraints) s.now stop spot.at spot.n result }
{
    let (count, first) = on!(packet_fields::count(s, stop, spot, CONSTRAINTS));
    crate::constraint::constraints(s, stop, first, count)
}

// Judges a segment: its head, its timing points, its temporary constraints.
#[inline(always)]
fn segment(s: &[u8], stop: usize, spot: Spot) -> Judged<Spot>
    requires { Standing s.now stop spot.at spot.n }
    ensures { Over (journey_segment constraints) s.now stop spot.at spot.n result }
{
    let (count, first) = on!(segment_head(s, stop, spot));
    let list = on!(crate::point::points(s, stop, first, count));
    constraint_list(s, stop, list)
}

// Judges `count` segments, one after another.
fn segments(s: &[u8], stop: usize, spot: Spot, count: u32) -> Judged<Spot>
    requires { Standing s.now stop spot.at spot.n }
    ensures { Over (times (journey_segment constraints) count) s.now stop spot.at spot.n result }
{
    times(count, spot, |at| segment(s, stop, at))
}

// Judges the body: Q_JP_Status, N_ITER_SP and the segments.
fn body(s: &[u8], stop: usize, spot: Spot) -> Judged<Spot>
    requires { Standing s.now stop spot.at spot.n }
    ensures { Over journey_body_part s.now stop spot.at spot.n result }
{
    let count = on!(packet_fields::plain(s, stop, spot, QJpStatus::rule()));
    let (segment_count, first) = on!(packet_fields::field(s, stop, count, NIterSp::rule()));
    segments(s, stop, first, segment_count)
}

// Judges every field after L_PACKET_ATO.
pub fn fields(s: &[u8], stop: usize) -> Judged<Spot>
    requires { Standing s.now stop 24 1 }
    ensures { Over journey_part s.now stop 24 1 result }
{
    let status = on!(packet_fields::header::header(s, stop));
    body(s, stop, status)
}
