// The conversion of a packet, of a segment or a journey, to its sheet: the packet is judged whole, then its sheet is written.

#![tactic(auto)]

ghost use Rattle.std.specs.Prelude.{◌≡◌, ◌≤◌, length};
ghost use Rattle.std.proofs.lemmas.List.Edits.{sets};
ghost use Rattle.grammar.specs.segment.Frame.{packet_number};
ghost use Rattle.grammar.specs.link.Link.{tree_number, tree_of};
ghost use Rattle.grammar.specs.internal.link.Trees.{fields_of, FieldsWritable};
ghost use Rattle.convert.specs.Convert.{packet_to_sheet};
ghost use Rattle.convert.specs.internal.Writers.{converted_as, sheet_of, SheetWritable, tree_to_sheet};

use convert::Converted;
use grammar::link::Tree;
use kinds::header;
use kinds::refusals::{Refusal, Refused};

// Writes the numbers of the fields of an accepted packet, from the bit 24 up to the bit `stop`, into `room` from the byte `start` on.
fn write_fields(tree: Tree, packet: &[u8], stop: usize, room: &mut [u8], start: usize)
    requires { FieldsWritable tree packet.now stop room.old start × (8 ≤ length packet.now) }
    ensures { room.new ≡ sets room.old start (fields_of tree packet.now stop) }
{
    match tree {
        Tree::Segment => sheet_write_segment::write_fields(packet, stop, room, start),
        Tree::Journey => sheet_write_journey::write_journey(packet, stop, room, start),
    }
}

// Writes the sheet of an accepted packet at the start of `room`. `number` is the packet number of `tree`.
fn write_sheet(tree: Tree, number: u32, packet: &[u8], room: &mut [u8])
    requires { SheetWritable tree packet.now room.old × (number ≡ tree_number tree) }
    ensures { room.new ≡ sets room.old 0 (sheet_of tree packet.now) }
{
    match packet_judge::tree_frame(tree, packet) {
        Err(_) => {}
        Ok(stop) => {
            let n = numbers::write::put_number(room, 0, number);
            write_fields(tree, packet, stop, room, n);
        }
    }
}

// Writes the sheet of an accepted packet at the start of `room`, with the packet number that `tree` has.
fn write_tree(tree: Tree, packet: &[u8], room: &mut [u8])
    requires { SheetWritable tree packet.now room.old }
    ensures { room.new ≡ sets room.old 0 (sheet_of tree packet.now) }
{
    write_sheet(tree, grammar::link::number(tree), packet, room);
}

// Judges a packet of `tree` and writes its sheet at the start of `room`. A refusal, 8 for a short room among them, writes nothing.
fn tree_to_sheet(tree: Tree, packet: &[u8], room: &mut [u8]) -> Result<u32, Refused<u32>>
    ensures { record { answer = converted_as result; room = room.new } ≡ tree_to_sheet tree packet.now room.old }
{
    let n = packet_judge::judge_packet(tree, packet)?;
    if room.len() < n {
        return Err(Refused(Refusal::ShortRoom, 0));
    }
    write_tree(tree, packet, room);
    Ok(n as u32)
}

// Returns the tree that the packet number, the first byte, names: a journey for 4, a segment for any other number or for no byte.
pub fn tree_of(packet: &[u8]) -> Tree
    ensures { result ≡ tree_of (packet_number packet.now) }
{
    if packet.len() == 0 {
        return Tree::Segment;
    }
    grammar::link::tree_of(bits::read_field(packet, 0, header::NidPacketAto::WIDTH))
}

// Converts a packet of a segment or a journey: writes its sheet at the start of `room` and answers the sheet's length, or refuses and writes nothing.
pub fn packet_to_sheet(packet: &[u8], room: &mut [u8]) -> Converted
    ensures { record { answer = result; room = room.new } ≡ packet_to_sheet packet.now room.old }
{
    Converted::from(tree_to_sheet(tree_of(packet), packet, room))
}
