// Judges the elements of a packet's lists, and counts the bytes that they have in the sheet. Nothing is written.
// For speed, what an accepted packet goes through is put in line, and what is judged field by field, which a refused one alone needs, is not.
ghost use Rattle.std.specs.Prelude.{◌≡◌, ◌*◌, ◌-◌, ◌/◌, ◌%◌, ◌≤◌, ◌<◌};
ghost use Rattle.format.specs.internal.Ways as ways;
ghost use Rattle.grammar.specs.segment.Segment as segment;
ghost use Rattle.grammar.specs.internal.segment.Parts as parts;
ghost use Rattle.grammar.specs.internal.segment.Parts.{start_of};
ghost use Rattle.packet_fields.specs.internal.Judging.{judge, Standing, Over, Gave};
ghost use Rattle.packet_segment.specs.internal.element.Profile.{profile_head, name_bytes, past_entry};

use grammar::segment::Part;
use grammar::segment::layout::{CLASS, ELEMENT, ENTRY, V_DIFF, WIRE};
use kinds::refusals::{Refusal, Refused};
use kinds::{UpTo, body};
use packet_fields::times::times;
use packet_fields::{Judged, Spot};

// ---- the specific entries

// Judges the specific entry at `spot`, field by field.
#[cold]
#[inline(never)]
fn cut_entry(s: &[u8], stop: usize, spot: Spot) -> Judged<Spot>
    requires { Standing s.now stop spot.at spot.n }
    ensures { Over parts.entry s.now stop spot.at spot.n result }
{
    let (q, class) = packet_fields::field(s, stop, spot, body::QDiff::rule())?;
    let speed = packet_fields::plain(s, stop, class, body::class_at(q))?;
    packet_fields::plain(s, stop, speed, body::VStatic::rule())
}

// More than the sheet bytes of any entry. `FAULT + d` says that the field `d` bits into the entry is refused.
const FAULT: usize = 16;

// The first six bits of an entry, Q_DIFF and class, are its name. The bit `n` is set if the name `n` is allowed.
const NAMES: u64 = 0x7000707FF;

// The bit `n` is set if the class of the name `n` has two bytes in the sheet.
const LONG_NAMES: u64 = 0x7FC;

// Bytes of an entry's Q_DIFF and class, `name`, in the sheet, or 0 if one is refused.
// For speed: no branch depends on Q_DIFF, which would mispredict from entry to entry.
#[inline(always)]
fn name_bytes(name: u32) -> u32
    requires { name < 64 }
    ensures { result ≡ name_bytes (name / 16) (name % 16) }
{
    if (NAMES >> name) % 2 == 0 {
        return 0;
    }
    2 + ((LONG_NAMES >> name) % 2) as u32
}

// Fast path: all 13 bits of the entry at `spot` are present. Returns its bytes in the sheet, or `FAULT` plus the bits before the refused field.
#[inline(always)]
fn whole_entry(s: &[u8], stop: usize, spot: Spot) -> usize
    requires { Standing s.now stop spot.at spot.n × (13 ≤ stop - spot.at) }
    ensures { ways.Over (judge s.now stop) parts.entry spot.at spot.n (past_entry spot.at spot.n result) × (result < 29) }
{
    let t = bits::read_window(s, spot.at, ENTRY as u32);
    let name = name_bytes(t / 128);
    if name == 0 {
        if t / 2048 <= body::QDiff::LARGEST {
            return FAULT + CLASS;
        }
        return FAULT;
    }
    let speed = fields::size::speed(t % 128);
    if speed == 0 {
        return FAULT + V_DIFF;
    }
    name as usize + speed as usize
}

// Fast path: the bits of all `count` entries are present.
#[inline(always)]
fn whole_entries(s: &[u8], stop: usize, spot: Spot, count: u32) -> Judged<Spot>
    requires { Standing s.now stop spot.at spot.n × (13 * count ≤ stop - spot.at) }
    ensures { Over (segment.entries count) s.now stop spot.at spot.n result }
{
    let mut next = spot;
    for _ in 0..count {
        let bytes = whole_entry(s, stop, next);
        if FAULT <= bytes {
            let place = next.at + (bytes - FAULT);
            return Err(Refused(Refusal::FieldValue, place as u32));
        }
        next = Spot {
            at: next.at + ENTRY,
            n: next.n + bytes,
        };
    }
    Ok(next)
}

// Judges `count` entries field by field.
#[cold]
#[inline(never)]
fn cut_entries(s: &[u8], stop: usize, spot: Spot, count: u32) -> Judged<Spot>
    requires { Standing s.now stop spot.at spot.n }
    ensures { Over (segment.entries count) s.now stop spot.at spot.n result }
{
    times(count, spot, |at| cut_entry(s, stop, at))
}

// Judges the `count` specific entries of an element. Takes the fast path if the bits of all of them are present.
#[inline(always)]
fn entries(s: &[u8], stop: usize, spot: Spot, count: u32) -> Judged<Spot>
    requires { Standing s.now stop spot.at spot.n }
    ensures { Over (segment.entries count) s.now stop spot.at spot.n result }
{
    if stop - spot.at < ENTRY * count as usize {
        return Ok(on!(cut_entries(s, stop, spot, count)));
    }
    whole_entries(s, stop, spot, count)
}

// ---- the speed profile

// Judges V_STATIC, Q_FRONT and N_ITER field by field, and returns the value of N_ITER.
#[cold]
#[inline(never)]
fn cut_profile(s: &[u8], stop: usize, spot: Spot) -> Judged<(u32, Spot)>
    requires { Standing s.now stop spot.at spot.n }
    ensures { Gave profile_head s.now stop spot.at spot.n result }
{
    let front = packet_fields::plain(s, stop, spot, body::VStatic::rule())?;
    let count = packet_fields::plain(s, stop, front, body::QFront::rule())?;
    packet_fields::count(s, stop, count, body::NIter::LARGEST)
}

// Judges V_STATIC, Q_FRONT and N_ITER, and returns the value of N_ITER. Fast path: all 13 bits are present, and only V_STATIC can be refused.
#[inline(always)]
fn profile_head(s: &[u8], stop: usize, spot: Spot) -> Judged<(u32, Spot)>
    requires { Standing s.now stop spot.at spot.n }
    ensures { Gave profile_head s.now stop spot.at spot.n result }
{
    if stop - spot.at < ELEMENT {
        return Ok(on!(cut_profile(s, stop, spot)));
    }
    let t = bits::read_window(s, spot.at, ELEMENT as u32);
    let speed = fields::size::speed(t / 64);
    if speed == 0 {
        return Err(Refused(Refusal::FieldValue, spot.at as u32));
    }
    Ok((
        t % 32,
        Spot {
            at: spot.at + ELEMENT,
            n: spot.n + speed as usize + 2,
        },
    ))
}

// Judges an element of the speed profile: V_STATIC, Q_FRONT, the count of its entries, and the entries.
#[inline(always)]
fn profile(s: &[u8], stop: usize, spot: Spot) -> Judged<Spot>
    requires { Standing s.now stop spot.at spot.n }
    ensures { Over segment.profile s.now stop spot.at spot.n result }
{
    let (count, first) = on!(profile_head(s, stop, spot));
    entries(s, stop, first, count)
}

// ---- the rated voltage

// Judges M_VOLTAGE and NID_CTRACTION field by field.
#[cold]
#[inline(never)]
fn cut_wire(s: &[u8], stop: usize, spot: Spot) -> Judged<Spot>
    requires { Standing s.now stop spot.at spot.n }
    ensures { Over segment.voltage s.now stop spot.at spot.n result }
{
    let (u, traction) = packet_fields::field(s, stop, spot, body::MVoltage::rule())?;
    packet_fields::plain(s, stop, traction, body::NidCTraction::rule(u))
}

// The bits of M_VOLTAGE.
const VOLTAGE: usize = body::MVoltage::WIDTH as usize;

// Judges M_VOLTAGE and NID_CTRACTION. Fast path: all 14 bits are present, and are read at once.
#[inline(always)]
fn wire(s: &[u8], stop: usize, spot: Spot) -> Judged<Spot>
    requires { Standing s.now stop spot.at spot.n }
    ensures { Over segment.voltage s.now stop spot.at spot.n result }
{
    if stop - spot.at < WIRE {
        return Ok(on!(cut_wire(s, stop, spot)));
    }
    let t = bits::read_window(s, spot.at, WIRE as u32);
    let volts = fields::size::volts(t / 1024);
    if volts == 0 {
        return Err(Refused(Refusal::FieldValue, spot.at as u32));
    }
    let traction = fields::size::traction(t / 1024, t % 1024);
    if traction == 0 {
        return Err(Refused(Refusal::FieldValue, (spot.at + VOLTAGE) as u32));
    }
    Ok(Spot {
        at: spot.at + WIRE,
        n: spot.n + volts as usize + traction as usize,
    })
}

// ---- any of the three

// Judges the element of the list `part` at `spot`, without its location.
#[inline(always)]
pub fn element(part: Part, s: &[u8], stop: usize, spot: Spot) -> Judged<Spot>
    requires { Standing s.now stop spot.at spot.n }
    ensures { Over (start_of part) s.now stop spot.at spot.n result }
{
    match part {
        Part::Speeds => profile(s, stop, spot),
        Part::Volts => wire(s, stop, spot),
        Part::Amperes => packet_fields::current(s, stop, spot),
    }
}
