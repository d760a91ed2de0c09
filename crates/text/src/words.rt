// Words and numbers, written as text at a place of a room. Not by `write!`: these functions cannot fail, and `Laid` says every byte of the room.
ghost use Rattle.std.specs.Prelude.{◌∷◌, [], ◌+◌, ◌≤◌, ◌<◌, length};
ghost use Rattle.text.specs.words.Words.{digit_byte, decimal, signed_decimal, labelled, Laid};

// Writes the bytes of `word` at the byte `at` of the room and returns the place after them.
pub fn put_word(room: &mut [u8], at: usize, word: &[u8]) -> usize
    requires { at + length word.now ≤ length room.old }
    ensures { Laid room.old at word.now result room.new }
{
    let next = at + word.len();
    room[at..next].copy_from_slice(word);
    next
}

// Writes the decimal digit `d` at the byte `at` of the room and returns the place after it.
fn put_digit(room: &mut [u8], at: usize, d: u32) -> usize
    requires { (at < length room.old) × (d < 10) }
    ensures { Laid room.old at (digit_byte d ∷ []) result room.new }
{
    room[at] = (48 + d) as u8;
    at + 1
}

// Writes the decimal digits of `v`, the highest first, at the byte `at` of the room and returns the place after them.
pub fn put_decimal(room: &mut [u8], at: usize, v: u32) -> usize
    requires { at + length (decimal v) ≤ length room.old }
    ensures { Laid room.old at (decimal v) result room.new }
{
    if v < 10 {
        return put_digit(room, at, v);
    }
    let next = put_decimal(room, at, v / 10);
    put_digit(room, next, v % 10)
}

// Writes `z` in decimal digits, after a minus sign if it is negative, at the byte `at` of the room and returns the place after it.
pub fn put_signed(room: &mut [u8], at: usize, z: i32) -> usize
    requires { at + length (signed_decimal z) ≤ length room.old }
    ensures { Laid room.old at (signed_decimal z) result room.new }
{
    if z < 0 {
        let next = put_word(room, at, b"-");
        return put_decimal(room, next, z.unsigned_abs());
    }
    put_decimal(room, at, z.unsigned_abs())
}

// Writes `word` and after it the decimal digits of `v` at the byte `at` of the room, and returns the place after them.
pub fn put_labelled(room: &mut [u8], at: usize, word: &[u8], v: u32) -> usize
    requires { at + length (labelled word.now v) ≤ length room.old }
    ensures { Laid room.old at (labelled word.now v) result room.new }
{
    let next = put_word(room, at, word);
    put_decimal(room, next, v)
}
