// An element of a list of an accepted sheet, put into its packet, and the places in both.
ghost use Rattle.std.specs.Prelude.{◌≡◌, ◌^◌, ◌<◌, ◌≤◌};
ghost use Rattle.kinds.specs.Tables.{cant_figures};
ghost use Rattle.grammar.specs.segment.Segment as segment;
ghost use Rattle.grammar.specs.internal.segment.Parts as parts;
ghost use Rattle.grammar.specs.internal.segment.Parts.{start_of};
ghost use Rattle.packet_write_segment.specs.internal.elements.Writing.{FieldPut, Ready, Wrote};
ghost use Rattle.packet_write_segment.specs.internal.row.Alone.{Copied, Fitting};

use crate::row::Given;
use fields::tables;
use grammar::segment::{Part, layout};
use kinds::body;

// `from`: the next byte of the sheet. `at`: the next bit of the packet. `wait`: the bits of the packet's unfinished byte.
#[derive(Clone, Copy)]
pub struct PacketSpot {
    pub from: usize,
    pub at: usize,
    pub wait: u64,
}

impl PacketSpot {
    // Puts the `width` bits of `v`, and returns the spot after them. `next` is the byte of the sheet to go on at.
    #[inline]
    pub fn put(self, room: &mut [u8], width: u32, v: u32, next: usize) -> PacketSpot
        requires { (0 < width) × (width ≤ 32) × (v < 2 ^ width) × (self.at < 2 ^ 32) }
        ensures { FieldPut room.old self width v next room.new result }
    {
        let wait = bits::write::put(room, self.at, self.wait, width, v);
        PacketSpot {
            from: next,
            at: self.at + width as usize,
            wait,
        }
    }

    // Puts the next number of the sheet as a field of `width` bits, and returns its value and the spot after it.
    #[inline]
    pub fn copy_number(self, sheet: &[u8], room: &mut [u8], width: u32) -> Given
        requires { Fitting sheet.now self width }
        ensures { Copied sheet.now room.old self width room.new result }
    {
        let a = numbers::accepted::number(sheet, self.from);
        Given {
            value: a.value,
            next: self.put(room, width, a.value, a.next),
        }
    }
}

// Puts Q_DIFF, class and V_DIFF at once. `figures` is the table of cant figures.
fn entry(sheet: &[u8], figures: &[u32; 11], room: &mut [u8], p: PacketSpot) -> PacketSpot
    requires { Ready parts.entry sheet.now room.old p × (figures.now ≡ cant_figures) }
    ensures { Wrote parts.entry sheet.now room.old p room.new result }
{
    let q = numbers::accepted::single(sheet, p.from);
    let a = numbers::accepted::number(sheet, q.next);
    let v = numbers::accepted::number(sheet, a.next);
    let class = fields::lower::class_place(figures, q.value, a.value);
    let bits = q.value * 2048 + class * 128 + fields::lower::speed_steps(v.value);
    p.put(room, layout::ENTRY_WIDTH, bits, v.next)
}

// Puts the `count` specific entries of an element.
fn entries(sheet: &[u8], room: &mut [u8], from: PacketSpot, count: u32) -> PacketSpot
    requires { Ready (segment.entries count) sheet.now room.old from }
    ensures { Wrote (segment.entries count) sheet.now room.old from room.new result }
{
    let figures = tables::CANT_FIGURES;
    let mut p = from;
    for _ in 0..count {
        p = entry(sheet, &figures, room, p);
    }
    p
}

// Puts V_STATIC, Q_FRONT and the count of the specific entries at once, and the specific entries.
fn profile(sheet: &[u8], room: &mut [u8], p: PacketSpot) -> PacketSpot
    requires { Ready segment.profile sheet.now room.old p }
    ensures { Wrote segment.profile sheet.now room.old p room.new result }
{
    let v = numbers::accepted::number(sheet, p.from);
    let q = numbers::accepted::single(sheet, v.next);
    let n = numbers::accepted::single(sheet, q.next);
    let bits = fields::lower::speed_steps(v.value) * 64 + q.value * 32 + n.value;
    let first = p.put(room, layout::ELEMENT_WIDTH, bits, n.next);
    entries(sheet, room, first, n.value)
}

// Puts M_VOLTAGE and NID_CTRACTION at once.
fn wire(sheet: &[u8], room: &mut [u8], p: PacketSpot) -> PacketSpot
    requires { Ready segment.voltage sheet.now room.old p }
    ensures { Wrote segment.voltage sheet.now room.old p room.new result }
{
    let u = numbers::accepted::number(sheet, p.from);
    let n = numbers::accepted::number(sheet, u.next);
    let bits = fields::lower::volts_place(u.value) * 1024 + n.value;
    p.put(room, layout::WIRE_WIDTH, bits, n.next)
}

// Puts M_CURRENT.
fn amperes(sheet: &[u8], room: &mut [u8], p: PacketSpot) -> PacketSpot
    requires { Ready segment.current sheet.now room.old p }
    ensures { Wrote segment.current sheet.now room.old p room.new result }
{
    let a = numbers::accepted::number(sheet, p.from);
    p.put(
        room,
        body::MCurrent::WIDTH,
        fields::lower::current_steps(a.value),
        a.next,
    )
}

// Puts one element of a list: a speed element, a voltage or a current.
pub fn element(part: Part, sheet: &[u8], room: &mut [u8], p: PacketSpot) -> PacketSpot
    requires { Ready (start_of part) sheet.now room.old p }
    ensures { Wrote (start_of part) sheet.now room.old p room.new result }
{
    match part {
        Part::Speeds => profile(sheet, room, p),
        Part::Volts => wire(sheet, room, p),
        Part::Amperes => amperes(sheet, room, p),
    }
}
