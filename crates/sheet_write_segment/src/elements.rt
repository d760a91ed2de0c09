// Writes an element of each list, without its location: the speed profile with its entries, the wire, the current. What was accepted is not judged again.
ghost use Rattle.std.specs.Prelude.{◌≡◌, ◌+◌};
ghost use Rattle.kinds.specs.Tables.{cant_figures};
ghost use Rattle.grammar.specs.segment.Segment.{entries, profile, voltage, current};
ghost use Rattle.grammar.specs.internal.segment.Parts as parts;
ghost use Rattle.grammar.specs.internal.segment.Parts.{start_of};
ghost use Rattle.sheet_write_segment.specs.internal.elements.Writing.{filled, PartWritable, Wrote};

use fields::{raise, tables};
use grammar::segment::Part;
use grammar::segment::layout::ENTRY;
use kinds::body;

// A bit of the packet, and the byte of the room up to which the room is written.
#[derive(Clone, Copy)]
pub struct SheetSpot {
    pub at: usize,
    pub n: usize,
}

// Writes the three numbers of the specific entry at the bit `at` from the byte `n` on, and returns the byte after them. `figures` are the cant figures.
fn entry(
    figures: &[u32; 11],
    packet: &[u8],
    stop: usize,
    at: usize,
    room: &mut [u8],
    n: usize,
) -> usize
    requires { (figures.now ≡ cant_figures) × PartWritable parts.entry packet.now stop at (filled room.old n) }
    ensures { Wrote parts.entry packet.now stop at (filled room.old n) (at + 13) (filled room.new result) }
{
    let t = bits::read_window(packet, at, ENTRY as u32);
    let q = t / 2048;
    let second = numbers::write::put_short(room, n, q);
    let third = numbers::write::put_short(room, second, raise::class(figures, q, t / 128 % 16));
    numbers::write::put_short(room, third, raise::speed(t % 128))
}

// Writes the `count` specific entries at the bit `at` from the byte `n` on.
// For speed: the table of figures is lent once for all of them.
fn specific(
    packet: &[u8],
    stop: usize,
    at: usize,
    count: u32,
    room: &mut [u8],
    n: usize,
) -> SheetSpot
    requires { PartWritable (entries count) packet.now stop at (filled room.old n) }
    ensures { Wrote (entries count) packet.now stop at (filled room.old n) result.at (filled room.new result.n) }
{
    let figures = tables::CANT_FIGURES;
    let mut to = at;
    let mut m = n;
    for _ in 0..count {
        m = entry(&figures, packet, stop, to, room, m);
        to += ENTRY;
    }
    SheetSpot { at: to, n: m }
}

// Writes V_STATIC, Q_FRONT, the count of the specific entries, and the entries.
fn speeds(packet: &[u8], stop: usize, at: usize, room: &mut [u8], n: usize) -> SheetSpot
    requires { PartWritable profile packet.now stop at (filled room.old n) }
    ensures { Wrote profile packet.now stop at (filled room.old n) result.at (filled room.new result.n) }
{
    let t = bits::read_window(packet, at, ENTRY as u32);
    let count = t % 32;
    let second = numbers::write::put_short(room, n, raise::speed(t / 64));
    let third = numbers::write::put_short(room, second, t / 32 % 2);
    let first = numbers::write::put_short(room, third, count);
    specific(packet, stop, at + ENTRY, count, room, first)
}

// Writes M_VOLTAGE and NID_CTRACTION.
fn wire(packet: &[u8], stop: usize, at: usize, room: &mut [u8], n: usize) -> SheetSpot
    requires { PartWritable voltage packet.now stop at (filled room.old n) }
    ensures { Wrote voltage packet.now stop at (filled room.old n) result.at (filled room.new result.n) }
{
    let u = bits::read_window(packet, at, body::MVoltage::WIDTH);
    let second = numbers::write::put_number(room, n, raise::volts(u));
    let v = bits::read_window(packet, at + 4, body::NidCTraction::WIDTH);
    let m = numbers::write::put_short(room, second, v);
    SheetSpot { at: at + 14, n: m }
}

// Writes M_CURRENT.
fn amperes(packet: &[u8], stop: usize, at: usize, room: &mut [u8], n: usize) -> SheetSpot
    requires { PartWritable current packet.now stop at (filled room.old n) }
    ensures { Wrote current packet.now stop at (filled room.old n) result.at (filled room.new result.n) }
{
    let v = bits::read_window(packet, at, body::MCurrent::WIDTH);
    let m = numbers::write::put_short(room, n, raise::current(v));
    SheetSpot { at: at + 10, n: m }
}

// Writes the element of the list `part` at the bit `at`, without its location, from the byte `n` of the room on.
pub fn element(
    part: Part,
    packet: &[u8],
    stop: usize,
    at: usize,
    room: &mut [u8],
    n: usize,
) -> SheetSpot
    requires { PartWritable (start_of part) packet.now stop at (filled room.old n) }
    ensures { Wrote (start_of part) packet.now stop at (filled room.old n) result.at (filled room.new result.n) }
{
    match part {
        Part::Speeds => speeds(packet, stop, at, room, n),
        Part::Volts => wire(packet, stop, at, room, n),
        Part::Amperes => amperes(packet, stop, at, room, n),
    }
}
