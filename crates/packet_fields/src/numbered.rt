// Judges one field of a packet by a rule whose refusal is any number, and counts the bytes of its number in the sheet. Nothing is written.
// Parameters: `s` is the packet, `stop` the bit where its fields end, `at` the bit of the field, `n` the sheet bytes before it.
ghost use Rattle.kinds.specs.internal.numbered.Rules.{meaning};
ghost use Rattle.format.specs.Format.{then};
ghost use Rattle.packet_fields.specs.internal.Judging.{Standing, Wide};
ghost use Rattle.packet_fields.specs.internal.numbered.Judging.{Took, Over};

use crate::Spot;
use fields::numbered;
use kinds::numbered::{Refused, Rule};
use kinds::refusals::Refusal;

// What is judged, or the number of the first refusal and its bit.
pub type Judged<T> = Result<T, Refused<u32>>;

// Judges one field by `rule`, and returns its value and the spot after it.
pub fn field(s: &[u8], stop: usize, at: usize, n: usize, rule: Rule) -> Judged<(u32, Spot)>
    requires { Standing s.now stop at n × Wide (meaning rule) }
    ensures { Took (meaning rule) s.now stop at n result }
{
    let width = numbered::width(rule);
    if stop - at < width as usize {
        return Err(Refused(u32::from(Refusal::BodyBits), at as u32));
    }
    let v = bits::read_window(s, at, width);
    let bytes = numbered::by(rule, v);
    if bytes == 0 {
        return Err(Refused(numbered::refusal(rule, v), at as u32));
    }
    Ok((
        v,
        Spot {
            at: at + width as usize,
            n: n + bytes as usize,
        },
    ))
}

// Judges one field by `rule` and drops its value; no later field depends on it.
pub fn plain(s: &[u8], stop: usize, at: usize, n: usize, rule: Rule) -> Judged<Spot>
    requires { Standing s.now stop at n × Wide (meaning rule) }
    ensures { Over (then (meaning rule)) s.now stop at n result }
{
    let (_, next) = field(s, stop, at, n, rule)?;
    Ok(next)
}
