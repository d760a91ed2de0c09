// The answer of a conversion, from a packet to its sheet or from a sheet to its packet.

#![tactic(auto)]

ghost use Rattle.std.specs.Prelude.{◌≡◌};
ghost use Rattle.convert.specs.internal.Writers.{converted_as};

use kinds::refusals::Refused;

// Answer of a conversion: 0, 0 and the length of the result in bytes; or a refusal's number, its place (a bit of a packet, a byte of a sheet) and 0.
#[repr(C)]
#[derive(Clone, Copy)]
pub struct Converted {
    pub refusal: u32,
    pub place: u32,
    pub length: u32,
}

// Makes the answer of a conversion that was refused at `place`: its length is 0. A function and no `From` alone, as docs/CONTRACTS.md names it; an intake hands over the number that C keeps.
pub fn refused(refusal: u32, place: u32) -> Converted
    ensures { result ≡ record { refusal = refusal; place = place; length = 0 } }
{
    Converted {
        refusal,
        place,
        length: 0,
    }
}

// Makes the answer of a conversion that wrote `length` bytes.
pub fn done(length: u32) -> Converted
    ensures { result ≡ record { refusal = 0; place = 0; length = length } }
{
    Converted {
        refusal: 0,
        place: 0,
        length,
    }
}

impl From<Result<u32, Refused<u32>>> for Converted {
    ghost from_gives = { λ r c. c ≡ converted_as r };

    // Makes the answer of a conversion that gives the length of its result, in bytes, or is refused.
    fn from(answer: Result<u32, Refused<u32>>) -> Converted {
        match answer {
            Ok(length) => done(length),
            Err(Refused(refusal, place)) => refused(refusal as u32, place),
        }
    }
}
