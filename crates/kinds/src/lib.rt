// Field kinds: one type for each kind, with its width in bits, its largest packet value, and the rule that judges its values.

#![tactic(auto)]

pub mod body;
pub mod header;
pub mod journey;
pub mod numbered;
pub mod refusals;

ghost use Rattle.std.specs.Prelude.{◌≡◌, ℕ};
ghost use Rattle.kinds.specs.Kind.{Kind, up_to};
ghost use Rattle.kinds.specs.internal.Rules.{Keeps, meaning};

use crate::refusals::Refusal;

// A field's value: `sheet` is the sheet's number, `packet` the packet's value.
#[derive(Clone, Copy, Debug, PartialEq, Eq)]
pub struct Item {
    pub sheet: u32,
    pub packet: u32,
}

// The rule of a field kind. Widths are in bits, locations in cm.
#[derive(Clone, Copy, Debug, PartialEq, Eq)]
pub enum Rule {
    // A sheet's number from `least` to `largest`, which is also the packet's value; `refusal` for any other number.
    Range {
        width: u32,
        least: u32,
        largest: u32,
        refusal: Refusal,
    },
    // D_Location of a change: above `last` and below `lsp`.
    Location {
        last: u32,
        lsp: u32,
    },
    // NID_OPERATIONAL: eight digits of four bits, each 0 to 9 or F.
    Operational,
    // A speed: km/h in a sheet, steps of 5 km/h in a packet.
    Speed,
    // A current limit: amperes + 1 in a sheet, steps of 10 A in a packet; 0 and 1,023 for no limit.
    Current,
    // A cant deficiency: mm in a sheet, the place in the table of cant figures in a packet.
    Cant,
    // A voltage: volts in a sheet, the place in the table of volts in a packet.
    Volts,
    // D_TC_End_Location of a range with a start and an end: above `start`.
    After {
        start: u32,
    },
    // A current that is not used: 0 in a sheet, 1,023 in a packet.
    NoCurrent,
}

// Returns the rule for values from 0 to `largest` in a field of `width` bits.
pub fn up_to(width: u32, largest: u32) -> Rule
    ensures { meaning result ≡ up_to width largest }
{
    Rule::Range {
        width,
        least: 0,
        largest,
        refusal: Refusal::FieldValue,
    }
}

// A field kind whose values are the numbers from 0 to `LARGEST`, in a sheet as in a packet. Each type has its own constants and `rule`.
pub trait UpTo {
    // Bits in a packet.
    const WIDTH: u32;

    const LARGEST: u32;

    ghost WIDTH: { ℕ };

    ghost LARGEST: { ℕ };

    // The document's kind.
    ghost kind: { Kind };

    ghost is: { kind ≡ up_to WIDTH LARGEST };

    // Returns the rule that judges values of the kind.
    final fn rule() -> Rule
        ensures { Keeps kind WIDTH LARGEST result }
    {
        up_to(Self::WIDTH, Self::LARGEST)
    }
}
