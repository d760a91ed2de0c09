// The rule of a field kind, and a refusal with its place, where the refusal is any number: the forms of `Rule` and `Refused` that ask for no `Refusal`.

// The rule of a field kind. Widths are in bits, locations in cm.
#[derive(Clone, Copy, Debug, PartialEq, Eq)]
pub enum Rule {
    // A sheet's number from `least` to `largest`, which is also the packet's value; `refusal` for any other number.
    Range {
        width: u32,
        least: u32,
        largest: u32,
        refusal: u32,
    },
    // D_Location of a change: above `last` and below `lsp`.
    Location {
        last: u32,
        lsp: u32,
    },
    // NID_OPERATIONAL: eight digits of four bits, each 0 to 9 or F.
    Operational,
    // A speed: km/h in a sheet, steps of 5 km/h in a packet.
    Speed,
    // A current limit: amperes + 1 in a sheet, steps of 10 A in a packet; 0 and 1,023 for no limit.
    Current,
    // A cant deficiency: mm in a sheet, the place in the table of cant figures in a packet.
    Cant,
    // A voltage: volts in a sheet, the place in the table of volts in a packet.
    Volts,
    // D_TC_End_Location of a range with a start and an end: above `start`.
    After {
        start: u32,
    },
    // A current that is not used: 0 in a sheet, 1,023 in a packet.
    NoCurrent,
}

// A refusal's number, and the place where it was met: a bit of a packet or a byte of a sheet.
#[derive(Clone, Copy, Debug, PartialEq, Eq)]
pub struct Refused<P>(pub u32, pub P);
