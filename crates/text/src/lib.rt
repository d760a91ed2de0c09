// The listing of a packet as text, written into a room that the caller lends.

#![tactic(auto)]

pub mod lines;
pub mod sheet;
pub mod words;

ghost use Rattle.std.specs.Prelude.{◌≡◌, ◌≤◌, length};
ghost use Rattle.format.specs.Format.{sheet_numbers, values_of};
ghost use Rattle.grammar.specs.segment.Segment.{wire_changes};
ghost use Rattle.grammar.specs.segment.Judgement.{from_packet};
ghost use Rattle.text.specs.words.Words.{Laid};
ghost use Rattle.text.specs.lines.Lines.{lines};
ghost use Rattle.text.specs.Listing.{refused_line, listing_in};
ghost use Rattle.text.specs.internal.Writers.{PacketAccepted};

// Bytes of a room that holds any listing.
pub const ROOM: usize = 2048;

// Bytes of a segment's largest sheet.
const SHEET: usize = 5728;

// Writes the line of a refusal and its place, a bit of the packet, at the start of the room. Returns the line's length.
pub fn put_refusal(refusal: u32, place: u32, room: &mut [u8]) -> usize
    requires { 33 ≤ length room.old }
    ensures { Laid room.old 0 (refused_line refusal place) result room.new }
{
    let number = crate::words::put_labelled(room, 0, b"REFUSED ", refusal);
    let at = crate::words::put_labelled(room, number, b" AT ", place);
    crate::words::put_word(room, at, b"\n")
}

// Writes the lines of an accepted packet at the start of the room, from its sheet and its `altitude` in cm. Returns the length of the text.
fn put_accepted(packet: &[u8], altitude: i32, room: &mut [u8]) -> usize
    requires { PacketAccepted packet.now × (1669 ≤ length room.old) }
    ensures { Laid room.old 0 (lines altitude (sheet_numbers (values_of (from_packet wire_changes packet.now)))) result room.new }
{
    let mut sheet = [0u8; SHEET];
    let converted = convert_packet::packet_to_sheet(packet, &mut sheet);
    let length = converted.length as usize;
    crate::lines::put_lines(&sheet[..length], altitude, room)
}

// Writes the listing of a packet at the start of the room: its lines, or the line of its refusal. Returns the length of the text.
pub fn listing(packet: &[u8], room: &mut [u8; ROOM]) -> usize
    ensures { record { length = result; room = room.new } ≡ listing_in packet.now room.old }
{
    let answer = altitude::altitude_of_packet(packet);
    let refusal = answer.refusal;
    if refusal != 0 {
        return put_refusal(refusal, answer.place, room);
    }
    put_accepted(packet, answer.altitude, room)
}
