// Puts fields one after the other into bytes. Bits that do not fill a byte yet are kept in `wait`, so no byte is read back.
ghost use Rattle.std.specs.Prelude.{◌≡◌, ◌+◌, ◌%◌, ◌^◌, ◌<◌, ◌≤◌, length};
ghost use Rattle.std.proofs.lemmas.List.Edits.{sets};
ghost use Rattle.bits.specs.internal.write.Filling.{bytes_in, Filling};

// Stores the bytes of `x` from the byte `i` on, the highest first, up to the end of `s`, which has fewer than eight bytes there.
// For speed: `rest` is shifted up, else the compiler makes longer code of this short loop.
fn store_some(s: &mut [u8], i: usize, x: u64)
    requires { length s.old < i + 8 }
    ensures { s.new ≡ sets s.old i (bytes_in 8 x) }
{
    let mut rest = x;
    for j in i..s.len() {
        s[j] = (rest >> 56) as u8;
        rest <<= 8;
    }
}

// Stores the bytes of `x` from the byte `i` on, the highest first. Bytes past the end of `s` are dropped.
fn store(s: &mut [u8], i: usize, x: u64)
    requires { i < 2 ^ 63 }
    ensures { s.new ≡ sets s.old i (bytes_in 8 x) }
{
    if i + 8 <= s.len() {
        s[i..i + 8].copy_from_slice(&x.to_be_bytes());
    } else {
        store_some(s, i, x);
    }
}

// Puts the `width` bits of `v` at the bit `at`, after the bits kept in `wait`, and returns the bits to keep then.
// Bytes after the field may become 0. Past the end of `s` nothing is put.
pub fn put(s: &mut [u8], at: usize, wait: u64, width: u32, v: u32) -> u64
    requires { (0 < width) × (width ≤ 32) × (v < 2 ^ width) }
    ensures { Filling s.old at wait width v s.new result }
{
    let used = (at % 8) as u32 + width;
    let x = wait.wrapping_add(u64::from(v) << (64 - used));
    store(s, at / 8, x);
    x << (used / 8 * 8)
}
