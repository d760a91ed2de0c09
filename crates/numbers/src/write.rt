// Writes the numbers of a sheet, and counts their groups.
ghost use Rattle.std.specs.Prelude.{◌≡◌, ◌+◌, ◌≤◌, ◌<◌, length};
ghost use Rattle.numbers.specs.Numbers.{groups_in};
ghost use Rattle.numbers.specs.internal.Groups.{put_number};

// Returns how many groups `v` has, by the place of its highest one bit.
pub fn groups(v: u32) -> u32
    ensures { result ≡ length (groups_in v) }
{
    if v == 0 {
        1
    } else {
        (38 - u32::leading_zeros(v)) / 7
    }
}

// Writes `v` at byte `at` and returns the next byte's place. What is left of `v`, not a count, ends the loop.
pub fn put_number(s: &mut [u8], at: usize, v: u32) -> usize
    requires { at + length (groups_in v) ≤ length s.old }
    ensures { record { next = result; bytes = s.new } ≡ put_number s.old at v }
{
    let mut x = v;
    let mut i = at;
    while 128 <= x {
        s[i] = (x % 128 + 128) as u8;
        x /= 128;
        i += 1;
    }
    s[i] = x as u8;
    i + 1
}

// Writes `v`, below 16,384, at byte `at` and returns the next byte's place.
// Fast path, without a branch: writes the second group first; the first group overwrites it where `v` has one group.
pub fn put_short(s: &mut [u8], at: usize, v: u32) -> usize
    requires { (v < 16384) × (at + length (groups_in v) ≤ length s.old) }
    ensures { record { next = result; bytes = s.new } ≡ put_number s.old at v }
{
    let more = (128 <= v) as u32;
    s[at + more as usize] = (v / 128) as u8;
    s[at] = (v % 128 + 128 * more) as u8;
    at + 1 + more as usize
}
