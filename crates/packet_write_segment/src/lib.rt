// The packet of an accepted segment sheet, written part by part. What was accepted is not judged again.
// The sheet, the room and the spot go side by side in each function: those that docs/CONTRACTS.md names take them so.

#![tactic(auto)]

pub mod elements;
pub mod row;

ghost use Rattle.std.specs.Prelude.{◌≡◌, ℕ, ◌+◌, ◌^◌, ◌<◌};
ghost use Rattle.grammar.specs.segment.Segment as segment;
ghost use Rattle.grammar.specs.internal.segment.Parts.{start_of, three_lists, header_rows, body_rows};
ghost use Rattle.packet_write_segment.specs.internal.elements.Writing.{Ready, Wrote};

use crate::elements::{PacketSpot, element};
use crate::row::row;
use grammar::segment::Part;
use kinds::body;
use kinds::header::NidOperational;

// Puts the `count` changes of a list, each a location and an element. `lsp` and `last`, the location before, are named for the contract only.
// `lsp` is no ghost value: a call picks one from its arguments or a constant, and L_SP is what a call in `body` returned.
fn changes(
    part: Part,
    sheet: &[u8],
    room: &mut [u8],
    from: PacketSpot,
    lsp: u32,
    count: u32,
) -> PacketSpot
    requires { Ready (segment.changes (start_of part) lsp 0 count) sheet.now room.old from × (lsp < 2 ^ 24) }
    ensures { Wrote (segment.changes (start_of part) lsp 0 count) sheet.now room.old from room.new result }
{
    let mut p = from;
    let mut last: u32 = 0;
    for _ in 0..count {
        let x = p.copy_number(sheet, room, body::DLocation::WIDTH);
        p = element(part, sheet, room, x.next);
        last = x.value;
    }
    p
}

// Puts a list: its first element, the count of its changes, and the changes. `lsp` is named for the contract only.
fn list(part: Part, sheet: &[u8], room: &mut [u8], p: PacketSpot, lsp: u32) -> PacketSpot
    ghost limit: { ℕ }
    requires { Ready (segment.part (start_of part) limit lsp) sheet.now room.old p × (lsp < 2 ^ 24) × (limit < 32) }
    ensures { Wrote (segment.part (start_of part) limit lsp) sheet.now room.old p room.new result }
{
    let first = element(part, sheet, room, p);
    let n = first.copy_number(sheet, room, body::NIter::WIDTH);
    changes(part, sheet, room, n.next, lsp, n.value)
}

// Puts the three lists: speeds, voltages, currents.
fn lists(sheet: &[u8], room: &mut [u8], p: PacketSpot, lsp: u32) -> PacketSpot
    requires { Ready (three_lists lsp) sheet.now room.old p × (lsp < 2 ^ 24) }
    ensures { Wrote (three_lists lsp) sheet.now room.old p room.new result }
{
    let one = list(Part::Speeds, sheet, room, p, lsp);
    let two = list(Part::Volts, sheet, room, one, lsp);
    list(Part::Amperes, sheet, room, two, lsp)
}

// Puts the fields of the header after L_PACKET_ATO, 96 bits: NID_OPERATIONAL, and the row NID_ENGINE to N_Packet_Counter.
pub fn header(sheet: &[u8], room: &mut [u8], p: PacketSpot) -> PacketSpot
    requires { Ready header_rows sheet.now room.old p }
    ensures { Wrote header_rows sheet.now room.old p room.new result × (result.at ≡ p.at + 96) }
{
    let operational = p.copy_number(sheet, room, NidOperational::WIDTH);
    let widths = grammar::segment::header_widths();
    let most = grammar::segment::header_most();
    row(sheet, room, operational.next, &widths, &most)
}

// Puts the fields of the body: the row NID_C to the minor version, L_SP, the row D_EoA_Offset to M_SP_Altitude, and the lists.
pub fn body(sheet: &[u8], room: &mut [u8], p: PacketSpot) -> PacketSpot
    requires { Ready body_rows sheet.now room.old p }
    ensures { Wrote body_rows sheet.now room.old p room.new result }
{
    let widths = grammar::segment::identity_widths();
    let most = grammar::segment::identity_most();
    let names = row(sheet, room, p, &widths, &most);
    let l = names.copy_number(sheet, room, body::LSp::WIDTH);
    let offset_widths = grammar::segment::offset_widths();
    let offset_most = grammar::segment::offset_most();
    let first = row(sheet, room, l.next, &offset_widths, &offset_most);
    lists(sheet, room, first, l.value)
}
