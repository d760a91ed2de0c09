// The conversion of a sheet, of a segment or a journey, to its packet: the sheet is judged whole, then its packet is written.
// The header's writer is lent the first fifteen bytes of the room, the body's writer the rest.

#![tactic(auto)]

ghost use Rattle.std.specs.Prelude.{◌≡◌, ◌++◌, ◌+◌, ◌-◌, ◌/◌, ◌≤◌, ◌<◌, ◌^◌, length, drop};
ghost use Rattle.bits.specs.Bits.{bytes_of_bits};
ghost use Rattle.grammar.specs.link.Link.{tree_number};
ghost use Rattle.grammar.specs.internal.link.Trees.{tree_of_sheet};
ghost use Rattle.verdict.specs.internal.Verdict.{said};
ghost use Rattle.convert.specs.Convert.{sheet_to_packet};
ghost use Rattle.convert.specs.internal.Writers.{converted_as, bits_of_sheet, SheetAccepted, body_bits_of, BodyAt, Headed, tree_to_packet};
ghost use Rattle.packet_write_segment.specs.internal.elements.Writing.{Ready, Wrote};
ghost use Rattle.convert_sheet.specs.internal.Counted.{counted_verdict, tree_body_part};

use convert::Converted;
use grammar::link::Tree;
use grammar::segment::layout;
use kinds::refusals::{Refusal, Refused};
use kinds::{UpTo, header};
use packet_write_segment::elements::PacketSpot;

// Bits of a packet before its body, without the 16 of L_PACKET_ATO.
const BEFORE_BODY: usize = 104;

// Writes the header of an accepted sheet's packet and returns the byte of the sheet where the body's first number begins.
// `nid` is the packet number of `tree`, `bits` the count of bits of the body.
fn write_header(tree: Tree, nid: u32, sheet: &[u8], header: &mut [u8], bits: u32) -> usize
    requires { (length header.old ≡ 15) × (bits ≡ length (bits_of_sheet tree sheet.now) - 96) × SheetAccepted tree sheet.now × (nid ≡ tree_number tree) }
    ensures { Headed tree sheet.now header.new result }
{
    let number = bits::write::put(header, 0, 0, header::NidPacketAto::WIDTH, nid);
    let wait = bits::write::put(header, 8, number, header::LPacketAto::WIDTH, bits);
    let first = PacketSpot {
        from: numbers::write::groups(nid) as usize,
        at: layout::OPERATIONAL,
        wait,
    };
    let last = packet_write_segment::header(sheet, header, first);
    last.from
}

// Writes the header of an accepted sheet's packet, with the packet number that `tree` has and a body of `bits` bits.
// Returns the byte of the sheet where the body's first number begins.
fn tree_header(tree: Tree, sheet: &[u8], header: &mut [u8], bits: u32) -> usize
    requires { (length header.old ≡ 15) × (bits ≡ length (bits_of_sheet tree sheet.now) - 96) × SheetAccepted tree sheet.now }
    ensures { Headed tree sheet.now header.new result }
{
    write_header(tree, grammar::link::number(tree), sheet, header, bits)
}

// Writes the fields of a body of `tree` from the spot `p` on and returns the spot after them.
fn tree_body(tree: Tree, sheet: &[u8], room: &mut [u8], p: PacketSpot) -> PacketSpot
    requires { Ready (tree_body_part tree) sheet.now room.old p }
    ensures { Wrote (tree_body_part tree) sheet.now room.old p room.new result }
{
    match tree {
        Tree::Segment => packet_write_segment::body(sheet, room, p),
        Tree::Journey => packet_write_journey::body(sheet, room, p),
    }
}

// Writes the body of an accepted sheet's packet, with its padding, into the first `bytes` bytes of `body`.
// The body's first number begins at the byte `start` of the sheet.
fn write_body(tree: Tree, sheet: &[u8], start: usize, body: &mut [u8], bytes: usize)
    requires { BodyAt tree sheet.now start × (bytes ≡ (length (body_bits_of tree sheet.now start) + 7) / 8) × (bytes ≤ length body.old) × (length (body_bits_of tree sheet.now start) < 2 ^ 31) }
    ensures { body.new ≡ bytes_of_bits (body_bits_of tree sheet.now start) ++ drop ((length (body_bits_of tree sheet.now start) + 7) / 8) body.old }
{
    let first = PacketSpot {
        from: start,
        at: 0,
        wait: 0,
    };
    tree_body(tree, sheet, &mut body[..bytes], first);
}

// Judges a sheet of `tree`; then refuses a body of more than 65,535 bits with 12.
pub fn counted(tree: Tree, sheet: &[u8]) -> Result<usize, Refused<u32>>
    ensures { said result ≡ counted_verdict tree sheet.now }
{
    let n = sheet_judge::judge_sheet(tree, sheet)?;
    if grammar::link::MOST_BITS + BEFORE_BODY < n {
        return Err(Refused(Refusal::LongBody, 0));
    }
    Ok(n)
}

// Judges a sheet of `tree` and writes its packet at the start of `room`. A refusal, 8 for a short room among them, writes nothing.
fn tree_to_packet(tree: Tree, sheet: &[u8], room: &mut [u8]) -> Result<u32, Refused<u32>>
    ensures { record { answer = converted_as result; room = room.new } ≡ tree_to_packet tree sheet.now room.old }
{
    let n = counted(tree, sheet)?;
    let bits = n - BEFORE_BODY;
    let bytes = (bits + 7) / 8;
    let length = layout::HEADER_BYTES + bytes;
    if room.len() < length {
        return Err(Refused(Refusal::ShortRoom, 0));
    }
    let at = tree_header(tree, sheet, &mut room[..layout::HEADER_BYTES], bits as u32);
    write_body(tree, sheet, at, &mut room[layout::HEADER_BYTES..], bytes);
    Ok(length as u32)
}

// Returns the tree that the sheet's first number names: a journey for 4, a segment for any other number or for none.
fn tree_of(sheet: &[u8]) -> Tree
    ensures { result ≡ tree_of_sheet sheet.now }
{
    match numbers::number_at(sheet, 0) {
        Some(a) => grammar::link::tree_of(a),
        None => Tree::Segment,
    }
}

// Converts a sheet of a segment or a journey: writes its packet at the start of `room` and answers the packet's length, or refuses and writes nothing.
pub fn sheet_to_packet(sheet: &[u8], room: &mut [u8]) -> Converted
    ensures { record { answer = result; room = room.new } ≡ sheet_to_packet sheet.now room.old }
{
    Converted::from(tree_to_packet(tree_of(sheet), sheet, room))
}
