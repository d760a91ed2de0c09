// Judges one field of a packet, and counts the bytes of its number in the sheet. Nothing is written.
// Parameters: `s` is the packet, `stop` the bit where its fields end, `spot` the bit of the field and the sheet bytes before it.

#![tactic(auto)]

// Gives what is judged, or hands a refusal on by its two parts.
// For speed, in place of `?`: that copies a refusal as one word, which overlaps a spot in part, so that each spot goes through memory (docs/PERFORMANCE.md).
macro_rules! on {
    ($judged:expr) => {
        match $judged {
            Ok(judged) => judged,
            Err(Refused(refusal, place)) => {
                return Err(Refused(refusal, place));
            }
        }
    };
}

pub mod header;
pub mod numbered;
pub mod row;
pub mod times;

ghost use Rattle.std.specs.Prelude.{◌<◌};
ghost use Rattle.kinds.specs.Kinds.{n_iter, d_location};
ghost use Rattle.kinds.specs.internal.Rules.{meaning};
ghost use Rattle.format.specs.Format.{then};
ghost use Rattle.grammar.specs.segment.Segment as segment;
ghost use Rattle.packet_fields.specs.internal.Judging.{Standing, Wide, Took, Over};

use grammar::segment::layout::{COUNT, LOCATION};
use kinds::refusals::{Refusal, Refused};
use kinds::{Rule, body};

// A bit of a packet, and the bytes that its fields before it have in the sheet.
pub type Spot = verdict::Spot<usize>;

// What is judged, or the first refusal and its bit.
pub type Judged<T> = Result<T, Refused<u32>>;

// Judges one field by `rule`, and returns its value and the spot after it.
#[inline(always)]
pub fn field(s: &[u8], stop: usize, spot: Spot, rule: Rule) -> Judged<(u32, Spot)>
    requires { Standing s.now stop spot.at spot.n × Wide (meaning rule) }
    ensures { Took (meaning rule) s.now stop spot.at spot.n result }
{
    let width = fields::width(rule);
    if stop - spot.at < width as usize {
        return Err(Refused(Refusal::BodyBits, spot.at as u32));
    }
    let v = bits::read_window(s, spot.at, width);
    let bytes = fields::size::by(rule, v);
    if bytes == 0 {
        return Err(Refused(fields::size::refusal(rule, v), spot.at as u32));
    }
    Ok((
        v,
        Spot {
            at: spot.at + width as usize,
            n: spot.n + bytes as usize,
        },
    ))
}

// Judges one field by `rule` and drops its value; no later field depends on it.
#[inline(always)]
pub fn plain(s: &[u8], stop: usize, spot: Spot, rule: Rule) -> Judged<Spot>
    requires { Standing s.now stop spot.at spot.n × Wide (meaning rule) }
    ensures { Over (then (meaning rule)) s.now stop spot.at spot.n result }
{
    let (_, next) = on!(field(s, stop, spot, rule));
    Ok(next)
}

// ---- fast paths for N_ITER, D_Location and M_CURRENT, which look up no `Rule`

// Judges N_ITER, at most `limit` (below 128), and returns its value and the spot after it.
#[inline(always)]
pub fn count(s: &[u8], stop: usize, spot: Spot, limit: u32) -> Judged<(u32, Spot)>
    requires { Standing s.now stop spot.at spot.n × (limit < 128) }
    ensures { Took (n_iter limit) s.now stop spot.at spot.n result }
{
    if stop - spot.at < COUNT {
        return Err(Refused(Refusal::BodyBits, spot.at as u32));
    }
    let v = bits::read_window(s, spot.at, body::NIter::WIDTH);
    let bytes = fields::size::one(limit, v);
    if bytes == 0 {
        return Err(Refused(Refusal::FieldValue, spot.at as u32));
    }
    Ok((
        v,
        Spot {
            at: spot.at + COUNT,
            n: spot.n + bytes as usize,
        },
    ))
}

// Judges D_Location, above `last` and below `lsp` (cm), and returns its value and the spot after it.
#[inline(always)]
pub fn location(s: &[u8], stop: usize, spot: Spot, last: u32, lsp: u32) -> Judged<(u32, Spot)>
    requires { Standing s.now stop spot.at spot.n }
    ensures { Took (d_location last lsp) s.now stop spot.at spot.n result }
{
    if stop - spot.at < LOCATION {
        return Err(Refused(Refusal::BodyBits, spot.at as u32));
    }
    let v = bits::read_window(s, spot.at, body::DLocation::WIDTH);
    let bytes = fields::size::location(last, lsp, v);
    if bytes == 0 {
        return Err(Refused(Refusal::ChangeLocation, spot.at as u32));
    }
    Ok((
        v,
        Spot {
            at: spot.at + LOCATION,
            n: spot.n + bytes as usize,
        },
    ))
}

// Bits of M_CURRENT.
const CURRENT: usize = body::MCurrent::WIDTH as usize;

// Judges M_CURRENT and drops its value; no later field depends on it.
#[inline(always)]
pub fn current(s: &[u8], stop: usize, spot: Spot) -> Judged<Spot>
    requires { Standing s.now stop spot.at spot.n }
    ensures { Over segment.current s.now stop spot.at spot.n result }
{
    if stop - spot.at < CURRENT {
        return Err(Refused(Refusal::BodyBits, spot.at as u32));
    }
    let bytes = fields::size::current(bits::read_window(s, spot.at, body::MCurrent::WIDTH));
    if bytes == 0 {
        return Err(Refused(Refusal::FieldValue, spot.at as u32));
    }
    Ok(Spot {
        at: spot.at + CURRENT,
        n: spot.n + bytes as usize,
    })
}
