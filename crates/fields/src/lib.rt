// One field between packet and sheet: its width, its value lowered and raised, its bytes in the sheet, and the tables of figures.

#![tactic(auto)]

pub mod lower;
pub mod numbered;
pub mod raise;
pub mod size;
pub mod tables;

ghost use Rattle.std.specs.Prelude.{◌≡◌};
ghost use Rattle.kinds.specs.internal.Rules.{meaning};

use kinds::Rule;
use kinds::body::{DLocation, MCurrent, MVoltage, NcCdDiff, VStatic};
use kinds::header::NidOperational;

// Returns how many bits a field of the rule `rule` has in a packet.
pub fn width(rule: Rule) -> u32
    ensures { result ≡ (meaning rule).width }
{
    match rule {
        Rule::Range { width, .. } => width,
        Rule::Location { .. } | Rule::After { .. } => DLocation::WIDTH,
        Rule::Operational => NidOperational::WIDTH,
        Rule::Speed => VStatic::WIDTH,
        Rule::Current | Rule::NoCurrent => MCurrent::WIDTH,
        Rule::Cant => NcCdDiff::WIDTH,
        Rule::Volts => MVoltage::WIDTH,
    }
}
