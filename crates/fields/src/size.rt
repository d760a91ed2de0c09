// Counts the bytes that a packet's value has in the sheet, by the kind of its field: 0 where the value is refused.
ghost use Rattle.std.specs.Prelude.{◌≡◌, ◌<◌, length};
ghost use Rattle.numbers.specs.Numbers.{groups_in};
ghost use Rattle.kinds.specs.Kinds.{digits, nid_operational, speed, nc_cd_diff, class, d_location, m_voltage, nid_c_traction, m_current, d_end_after, no_current};
ghost use Rattle.kinds.specs.Judged.{value_in_packet};
ghost use Rattle.kinds.specs.Refusals.{refusal_number};
ghost use Rattle.kinds.specs.internal.Rules.{meaning};
ghost use Rattle.fields.specs.internal.size.Counts.{bytes_of, BytesIn, most_class};

use crate::raise;
use kinds::refusals::Refusal;
use kinds::{Rule, UpTo, body};

// Bytes of `v`, a number below 16,384, in the sheet.
pub fn short(v: u32) -> u32
    requires { v < 16384 }
    ensures { result ≡ length (groups_in v) }
{
    if v < 128 { 1 } else { 2 }
}

// Bytes of `v` in the sheet: 1, or 0 if `v` exceeds `largest` (below 128).
pub fn one(largest: u32, v: u32) -> u32
    requires { largest < 128 }
    ensures { BytesIn 0 largest v result }
{
    if v <= largest { 1 } else { 0 }
}

// Bytes of `v` in the sheet, or 0 if `v` is not in `least` to `largest`.
pub fn within(least: u32, largest: u32, v: u32) -> u32
    ensures { BytesIn least largest v result }
{
    if least <= v && v <= largest {
        numbers::write::groups(v)
    } else {
        0
    }
}

// Bytes of a change's location `v` in the sheet, or 0 if `v` is not after `last` and before the segment's end `lsp`.
pub fn location(last: u32, lsp: u32, v: u32) -> u32
    ensures { result ≡ bytes_of (value_in_packet (d_location last lsp) v) }
{
    if last < v && v < lsp {
        numbers::write::groups(v)
    } else {
        0
    }
}

// Bytes of a V_STATIC or V_DIFF `v` in the sheet, or 0 if refused. From 26 steps on, the speed is 128 km/h or more.
pub fn speed(v: u32) -> u32
    ensures { result ≡ bytes_of (value_in_packet speed v) }
{
    if body::VStatic::LARGEST < v {
        0
    } else if v < 26 {
        1
    } else {
        2
    }
}

// Bytes of an NC_CDDIFF `v` in the sheet, or 0 if refused. Only the first two figures are below 128.
fn cant(v: u32) -> u32
    ensures { result ≡ bytes_of (value_in_packet nc_cd_diff v) }
{
    if body::NcCdDiff::LARGEST < v {
        0
    } else if v < 2 {
        1
    } else {
        2
    }
}

// Returns the largest class where Q_DIFF is `q`.
fn most_class(q: u32) -> u32
    ensures { result ≡ most_class q }
{
    if q == 0 {
        body::NcCdDiff::LARGEST
    } else {
        body::NcDiff::LARGEST
    }
}

// Bytes of a specific entry's class `v` in the sheet, where Q_DIFF is `q`, or 0 if refused.
// For speed: no branch depends on `q` alone, which would mispredict from entry to entry.
pub fn class(q: u32, v: u32) -> u32
    ensures { result ≡ bytes_of (value_in_packet (class q) v) }
{
    if most_class(q) < v {
        0
    } else {
        1 + (q == 0) as u32 * (2 <= v) as u32
    }
}

// Bytes of an M_VOLTAGE `v` in the sheet, or 0 if refused. Only 25,000 V is 16,384 or more, and only 0 V below 128.
pub fn volts(v: u32) -> u32
    ensures { result ≡ bytes_of (value_in_packet m_voltage v) }
{
    match v {
        0 => 1,
        1 => 3,
        2..=body::MVoltage::LARGEST => 2,
        _ => 0,
    }
}

// Bytes of an NID_CTRACTION `v` at the M_VOLTAGE `voltage` in the sheet, or 0 if refused.
pub fn traction(voltage: u32, v: u32) -> u32
    ensures { result ≡ bytes_of (value_in_packet (nid_c_traction voltage) v) }
{
    if v <= body::NidCTraction::most(voltage) {
        short(v)
    } else {
        0
    }
}

// Bytes of an M_CURRENT `v` in the sheet, or 0 if refused.
pub fn current(v: u32) -> u32
    ensures { result ≡ bytes_of (value_in_packet m_current v) }
{
    if v == body::MCurrent::NO_LIMIT {
        1
    } else if v <= body::MCurrent::HIGHEST {
        numbers::write::groups(raise::current(v))
    } else {
        0
    }
}

// Bytes of the end `v` of a temporary constraint in the sheet, or 0 if `v` is not after `start`.
pub fn after(start: u32, v: u32) -> u32
    ensures { result ≡ bytes_of (value_in_packet (d_end_after start) v) }
{
    if start < v && v <= body::DLocation::LARGEST {
        numbers::write::groups(v)
    } else {
        0
    }
}

// Bytes of a current `v` that a temporary constraint does not use: 1, or 0 if `v` is not 1,023. The sheet has 0 for it.
pub fn no_current(v: u32) -> u32
    ensures { result ≡ bytes_of (value_in_packet no_current v) }
{
    if v == body::MCurrent::NO_LIMIT { 1 } else { 0 }
}

// Returns whether each of the eight digits of `v` is 0 to 9 or F: where a digit's top bit is set, its other bits are 0, 1 or 7.
pub fn digits_good(v: u32) -> bool
    ensures { result ≡ digits 8 v }
{
    let low = v & 0x77777777;
    v & (low + 0x66666666) & 0x88888888 == v & (low + 0x11111111) & 0x88888888
}

// Bytes of an NID_OPERATIONAL `v` in the sheet, or 0 if a digit is refused.
pub fn operational(v: u32) -> u32
    ensures { result ≡ bytes_of (value_in_packet nid_operational v) }
{
    if digits_good(v) {
        numbers::write::groups(v)
    } else {
        0
    }
}

// Bytes of `v` in the sheet, by the field's `rule`, or 0 if refused.
pub fn by(rule: Rule, v: u32) -> u32
    ensures { result ≡ bytes_of (value_in_packet (meaning rule) v) }
{
    match rule {
        Rule::Range { least, largest, .. } => within(least, largest, v),
        Rule::Location { last, lsp } => location(last, lsp, v),
        Rule::Operational => operational(v),
        Rule::Speed => speed(v),
        Rule::Current => current(v),
        Rule::Cant => cant(v),
        Rule::Volts => volts(v),
        Rule::After { start } => after(start, v),
        Rule::NoCurrent => no_current(v),
    }
}

// Returns the refusal of a temporary constraint's end `v`: 5 if it is not after its start, 4 if it has more than 24 bits.
fn after_refusal(v: u32) -> Refusal
    ensures { refusal_number result ≡ (d_end_after 0).refusal v }
{
    if body::DLocation::LARGEST < v {
        Refusal::FieldValue
    } else {
        Refusal::ChangeLocation
    }
}

// Returns the refusal of `v`, which the field's `rule` does not allow.
pub fn refusal(rule: Rule, v: u32) -> Refusal
    ensures { refusal_number result ≡ (meaning rule).refusal v }
{
    match rule {
        Rule::Range { refusal, .. } => refusal,
        Rule::Location { .. } => Refusal::ChangeLocation,
        Rule::After { .. } => after_refusal(v),
        Rule::Operational
        | Rule::Speed
        | Rule::Current
        | Rule::Cant
        | Rule::Volts
        | Rule::NoCurrent => Refusal::FieldValue,
    }
}
