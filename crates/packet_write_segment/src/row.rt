// Fields of an accepted sheet whose numbers are their values, put into a packet: one field alone, the fields of a row in one piece, and a whole row field by field.
// `most` is no ghost value: docs/CONTRACTS.md names `number`, `piece` and `row`, so they take what they took.
ghost use Rattle.std.specs.Prelude.{◌≡◌, true, ◌+◌, ◌^◌, ◌≤◌, ◌<◌};
ghost use Rattle.bits.specs.internal.Windows.{bits_in};
ghost use Rattle.kinds.specs.Kind.{up_to};
ghost use Rattle.grammar.specs.internal.rows.Rows as rows;
ghost use Rattle.packet_write_segment.specs.internal.elements.Writing.{Ready, Wrote};
ghost use Rattle.packet_write_segment.specs.internal.row.Alone.{Offers, Gives};
ghost use Rattle.packet_write_segment.specs.internal.row.Pieces.{between, Puttable};

use crate::elements::PacketSpot;

// The value of a field that was put, and the places after the field.
#[derive(Clone, Copy)]
pub struct Given {
    pub value: u32,
    pub next: PacketSpot,
}

// Puts one field of `width` bits, on whose value later fields may depend. `most` is its largest value, named for the contract only.
pub fn number(sheet: &[u8], room: &mut [u8], p: PacketSpot, width: u32, most: u32) -> Given
    requires { Offers (up_to width most) sheet.now room.old p × (1 ≤ width) × (width ≤ 32) × (most < 2 ^ width) }
    ensures { Gives (up_to width most) sheet.now room.old p room.new result }
{
    p.copy_number(sheet, room, width)
}

// Puts the fields of a row from number `first` up to before number `end` at once: `total` bits, at most 32. `most` are the largest values of the row, named for the contract only.
pub fn piece(
    sheet: &[u8],
    room: &mut [u8],
    p: PacketSpot,
    widths: &[u32],
    most: &[u32],
    first: usize,
    end: usize,
    total: u32,
) -> PacketSpot
    requires { Ready (between widths.now most.now first end) sheet.now room.old p × Puttable widths.now most.now first end total }
    ensures { Wrote (between widths.now most.now first end) sheet.now room.old p room.new result }
{
    let part = &widths[first..end];
    let mut from = p.from;
    let mut bits: u64 = 0;
    for width in part {
        let a = numbers::accepted::number(sheet, from);
        bits = (bits << *width) + a.value as u64;
        from = a.next;
    }
    p.put(room, total, bits as u32, from)
}

// Puts all fields of a row, one after the other. `most` are their largest values, named for the contract only.
pub fn row(
    sheet: &[u8],
    room: &mut [u8],
    from: PacketSpot,
    widths: &[u32],
    most: &[u32],
) -> PacketSpot
    requires { Ready (rows.row widths.now most.now) sheet.now room.old from × (rows.fits widths.now most.now ≡ true) }
    ensures { Wrote (rows.row widths.now most.now) sheet.now room.old from room.new result × (result.at ≡ from.at + bits_in widths.now) }
{
    let mut p = from;
    for width in widths {
        p = p.copy_number(sheet, room, *width).next;
    }
    p
}
