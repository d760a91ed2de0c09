// Reads the numbers of an accepted sheet. Their form and size are not judged again.
ghost use Rattle.numbers.specs.internal.accepted.Accepted.{There, Single, Reads};

use crate::MOST;

// A number, and the place of the byte after it.
#[derive(Clone, Copy, Debug, PartialEq, Eq)]
pub struct ReadNumber {
    pub value: u32,
    pub next: usize,
}

// Reads the number at byte `from`, of one group. Fast path: `next` does not depend on the byte.
pub fn single(s: &[u8], from: usize) -> ReadNumber
    requires { Single s.now from }
    ensures { Reads s.now from result }
{
    ReadNumber {
        value: u32::from(s[from]),
        next: from + 1,
    }
}

// Reads the number at byte `from`, group by group.
fn longer(s: &[u8], from: usize) -> ReadNumber
    requires { There s.now from }
    ensures { Reads s.now from result }
{
    let mut value = 0;
    let mut scale = 1;
    for i in 0..MOST as usize {
        let b = u32::from(s[from + i]);
        if b < 128 {
            return ReadNumber {
                value: value + b * scale,
                next: from + i + 1,
            };
        }
        value += (b - 128) * scale;
        scale *= 128;
    }
    unreachable!()
}

// Reads the number at byte `from`.
// Fast path: one or two groups, without a branch between the two. Otherwise calls `longer`.
pub fn number(s: &[u8], from: usize) -> ReadNumber
    requires { There s.now from }
    ensures { Reads s.now from result }
{
    let b = u32::from(s[from]);
    let more = b / 128;
    let last = u32::from(s[from + more as usize]);
    if last < 128 {
        return ReadNumber {
            value: b % 128 + last * (more * 128),
            next: from + 1 + more as usize,
        };
    }
    longer(s, from)
}
