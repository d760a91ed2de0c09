// Reads a field of up to 32 bits at any bit of a slice, through the eight bytes that hold it.

#![tactic(auto)]

pub mod write;

ghost use Rattle.std.specs.Prelude.{◌≡◌, ◌+◌, ◌-◌, ◌*◌, ◌/◌, ◌%◌, ◌^◌, ◌<◌, ◌≤◌, min, length};
ghost use Rattle.bits.specs.Bits.{field_at};

// Returns the byte `x` in 64 bits. Stays beside `u64::from`, as the contracts' page names it.
pub fn wider(x: u8) -> u64
    ensures { result ≡ x }
{
    u64::from(x)
}

// Returns the byte `x` in 32 bits. Stays beside `u32::from`, as the contracts' page names it.
pub fn wide(x: u8) -> u32
    ensures { result ≡ x }
{
    u32::from(x)
}

// Reads the eight bytes from the byte `i` on as one number, the first byte in its highest bits.
fn eight(s: &[u8], i: usize) -> u64
    requires { i + 8 ≤ length s.now }
    ensures { result ≡ field_at s.now (8 * i) 64 }
{
    u64::from_be_bytes([
        s[i],
        s[i + 1],
        s[i + 2],
        s[i + 3],
        s[i + 4],
        s[i + 5],
        s[i + 6],
        s[i + 7],
    ])
}

// ---- a field of the eight bytes

// Returns the `width` bits of `x` above its lowest `d`.
fn cut(x: u64, d: u32, width: u32) -> u32
    requires { (d < 64) × (width ≤ 32) }
    ensures { result ≡ x / 2 ^ d % 2 ^ width }
{
    ((x >> d) % (1 << width)) as u32
}

// ---- a field of a slice

// Reads the bit `at`. The top bit of a byte is its first.
fn bit(s: &[u8], at: usize) -> u32
    requires { at < 8 * length s.now }
    ensures { result ≡ field_at s.now at 1 }
{
    cut(u64::from(s[at / 8]), (7 - at % 8) as u32, 1)
}

// Reads the `width` bits at the bit `at` of a slice of at least eight bytes, in the eight bytes that start at the field's first byte, or 8 before the end.
pub fn read_window(s: &[u8], at: usize, width: u32) -> u32
    requires { (0 < width) × (width ≤ 32) × (at + width ≤ 8 * length s.now) × (8 ≤ length s.now) }
    ensures { result ≡ field_at s.now at width }
{
    let i = usize::min(at / 8, s.len() - 8);
    cut(eight(s, i), (64 - (at - 8 * i)) as u32 - width, width)
}

// Reads the `width` bits at the bit `at`; in a slice shorter than eight bytes, bit by bit.
// For speed: a function that calls itself is not inlined, and `s[0..]` keeps the slice in registers.
pub fn read_field(s: &[u8], at: usize, width: u32) -> u32
    requires { (width ≤ 32) × (at + width ≤ 8 * length s.now) × (at < 2 ^ 32) }
    ensures { result ≡ field_at s.now at width }
{
    if width == 0 {
        return 0;
    }
    if s.len() < 8 {
        return read_field(&s[0..], at, width - 1) * 2 + bit(s, at + (width - 1) as usize);
    }
    read_window(s, at, width)
}
