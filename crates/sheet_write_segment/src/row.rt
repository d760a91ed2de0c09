// Fields in a row, copied from an accepted packet's bits to the sheet: each number equals its field. For speed, fields that fit a window of 32 bits are read at once.
ghost use Rattle.std.specs.Prelude.{[], ◌∷◌, ◌≡◌, ◌+◌, ◌<◌, ◌≤◌, length};
ghost use Rattle.numbers.specs.Numbers.{groups_in};
ghost use Rattle.sheet_write_segment.specs.internal.elements.Writing.{filled, putting};
ghost use Rattle.sheet_write_segment.specs.internal.row.Row.{put_all, FitAll, Row, copied};

// Writes `v`, which is below 128, as one byte at the byte `n` of `room`; returns the byte after it.
pub fn one(room: &mut [u8], n: usize, v: u32) -> usize
    requires { (v < 128) × (n + length (groups_in v) ≤ length room.old) }
    ensures { filled room.new result ≡ putting (filled room.old n) v }
{
    room[n] = v as u8;
    n + 1
}

// Writes four numbers below 128 from the byte `n` of `room` on; returns the byte after them.
pub fn four(room: &mut [u8], n: usize, a: u32, b: u32, c: u32, d: u32) -> usize
    requires { (a < 128) × (b < 128) × (c < 128) × (d < 128) × FitAll (filled room.old n) (a ∷ b ∷ c ∷ d ∷ []) }
    ensures { filled room.new result ≡ put_all (filled room.old n) (a ∷ b ∷ c ∷ d ∷ []) }
{
    let second = one(room, n, a);
    let third = one(room, second, b);
    let fourth = one(room, third, c);
    one(room, fourth, d)
}

// Copies the field of `width` bits, at most 32, at the bit `at` to the byte `n` of `room`; returns the byte after its number.
pub fn number(packet: &[u8], at: usize, width: u32, room: &mut [u8], n: usize) -> usize
    requires { Row packet.now at (width ∷ []) (filled room.old n) × (0 < width) × (width ≤ 32) }
    ensures { filled room.new result ≡ copied packet.now at (width ∷ []) (filled room.old n) }
{
    let v = bits::read_window(packet, at, width);
    numbers::write::put_number(room, n, v)
}

// Copies the field of `width` bits, at most 14, at the bit `at` to the byte `n` of `room`; its number has at most two bytes. Returns the byte after it.
pub fn short(packet: &[u8], at: usize, width: u32, room: &mut [u8], n: usize) -> usize
    requires { Row packet.now at (width ∷ []) (filled room.old n) × (0 < width) × (width ≤ 14) }
    ensures { filled room.new result ≡ copied packet.now at (width ∷ []) (filled room.old n) }
{
    let v = bits::read_window(packet, at, width);
    numbers::write::put_short(room, n, v)
}

// Copies a date, 15 bits, and the seconds of its day, 17 bits, from the bit `at` on to the byte `n` of `room`; returns the byte after them.
pub fn moment(packet: &[u8], at: usize, room: &mut [u8], n: usize) -> usize
    requires { Row packet.now at (15 ∷ 17 ∷ []) (filled room.old n) }
    ensures { filled room.new result ≡ copied packet.now at (15 ∷ 17 ∷ []) (filled room.old n) }
{
    let t = bits::read_window(packet, at, 32);
    let second = numbers::write::put_number(room, n, t / 131072);
    numbers::write::put_number(room, second, t % 131072)
}
