// The width, the bytes in the sheet and the refusal by a field's rule, where the refusal is any number.
ghost use Rattle.std.specs.Prelude.{◌≡◌};
ghost use Rattle.kinds.specs.Judged.{value_in_packet};
ghost use Rattle.kinds.specs.internal.numbered.Rules.{meaning};
ghost use Rattle.fields.specs.internal.size.Counts.{bytes_of};

use crate::size;
use kinds::body::{DLocation, MCurrent, MVoltage, NcCdDiff, VStatic};
use kinds::header::NidOperational;
use kinds::numbered::Rule;
use kinds::refusals::Refusal;

// Returns how many bits a field of the rule `rule` has in a packet.
pub fn width(rule: Rule) -> u32
    ensures { result ≡ (meaning rule).width }
{
    match rule {
        Rule::Range { width, .. } => width,
        Rule::Location { .. } | Rule::After { .. } => DLocation::WIDTH,
        Rule::Operational => NidOperational::WIDTH,
        Rule::Speed => VStatic::WIDTH,
        Rule::Current | Rule::NoCurrent => MCurrent::WIDTH,
        Rule::Cant => NcCdDiff::WIDTH,
        Rule::Volts => MVoltage::WIDTH,
    }
}

// Bytes of `v` in the sheet, by the field's `rule`, or 0 if refused.
pub fn by(rule: Rule, v: u32) -> u32
    ensures { result ≡ bytes_of (value_in_packet (meaning rule) v) }
{
    match rule {
        Rule::Range { least, largest, .. } => size::within(least, largest, v),
        Rule::Location { last, lsp } => size::location(last, lsp, v),
        Rule::Operational => size::operational(v),
        Rule::Speed => size::speed(v),
        Rule::Current => size::current(v),
        Rule::Cant => size::by(kinds::Rule::Cant, v),
        Rule::Volts => size::volts(v),
        Rule::After { start } => size::after(start, v),
        Rule::NoCurrent => size::no_current(v),
    }
}

// Returns the refusal of `v`, which the field's `rule` does not allow.
pub fn refusal(rule: Rule, v: u32) -> u32
    ensures { result ≡ (meaning rule).refusal v }
{
    match rule {
        Rule::Range { refusal, .. } => refusal,
        Rule::Location { .. } => u32::from(Refusal::ChangeLocation),
        Rule::After { start } => u32::from(size::refusal(kinds::Rule::After { start }, v)),
        Rule::Operational
        | Rule::Speed
        | Rule::Current
        | Rule::Cant
        | Rule::Volts
        | Rule::NoCurrent => u32::from(Refusal::FieldValue),
    }
}
