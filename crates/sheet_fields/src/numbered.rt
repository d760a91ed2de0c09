// Judges one field of a sheet whose refusal is any number, and counts the bits of its value in the packet. Nothing is written.
// Parameters: `s` is the sheet, `at` the byte of the field's number, `n` the packet bits before it modulo 2^32.
ghost use Rattle.kinds.specs.Kind.{range};
ghost use Rattle.sheet_fields.specs.internal.Judging.{Standing};
ghost use Rattle.sheet_fields.specs.internal.numbered.Judging.{Took};

use crate::Spot;
use kinds::numbered::Refused;
use kinds::refusals;

// What judging gives, or the number of a refusal and its byte.
pub type Judged<T> = Result<T, Refused<usize>>;

// Judges a field of `width` bits from `least` to `largest`, and returns its value and the spot after it. Any other number is refused with `refusal`.
pub fn ranged(
    s: &[u8],
    at: usize,
    n: u32,
    width: u32,
    least: u32,
    largest: u32,
    refusal: u32,
) -> Judged<(u32, Spot)>
    requires { Standing s.now at }
    ensures { Took (range width least largest refusal) s.now at n result }
{
    match crate::read(s, Spot { at, n }, width) {
        Err(refusals::Refused(form, place)) => Err(Refused(u32::from(form), place)),
        Ok((v, next)) => {
            if v < least || largest < v {
                Err(Refused(refusal, at))
            } else {
                Ok((v, next))
            }
        }
    }
}
