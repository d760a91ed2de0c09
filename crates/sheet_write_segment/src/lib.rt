// The sheet of an accepted segment's packet, written part by part into a room that holds all of it. What was accepted is not judged again.
// Parameters: `packet` is the packet, `stop` the bit where its fields end, `room` the room, `from` the bit of the part and the byte of `room` for its first number.
// `stop` is for the contracts alone, and `packet` and `room` are no struct's: `write_fields` and `elements::element`, which docs/CONTRACTS.md names, take all three.

#![tactic(auto)]

pub mod elements;
pub mod head;
pub mod row;

ghost use Rattle.std.specs.Prelude.{◌≡◌, ℕ, ◌≤◌, length};
ghost use Rattle.std.proofs.lemmas.List.Edits.{sets};
ghost use Rattle.grammar.specs.segment.Segment as segment;
ghost use Rattle.grammar.specs.internal.segment.Parts.{start_of, three_lists};
ghost use Rattle.grammar.specs.declared.link.Tree.TheVariants.{Segment};
ghost use Rattle.grammar.specs.internal.link.Trees.{fields_of, FieldsWritable};
ghost use Rattle.sheet_write_segment.specs.internal.elements.Writing.{filled, PartWritable, Wrote};

use crate::elements::{SheetSpot, element};
use grammar::segment::{Part, layout};
use kinds::body;

// Writes the `count` changes of a part, each a location and an element, from `from` on. `lsp` and `last` are for the contract and the proof alone.
// `lsp` is no ghost value: a call picks one from its arguments or a constant, and L_SP is what a call in `write_fields` returned.
fn changes(
    part: Part,
    packet: &[u8],
    stop: usize,
    from: SheetSpot,
    lsp: u32,
    count: u32,
    room: &mut [u8],
) -> SheetSpot
    requires { PartWritable (segment.changes (start_of part) lsp 0 count) packet.now stop from.at (filled room.old from.n) }
    ensures { Wrote (segment.changes (start_of part) lsp 0 count) packet.now stop from.at (filled room.old from.n) result.at (filled room.new result.n) }
{
    let mut spot = from;
    let mut last: u32 = 0;
    for _ in 0..count {
        let x = bits::read_window(packet, spot.at, body::DLocation::WIDTH);
        let m = numbers::write::put_number(room, spot.n, x);
        spot = element(part, packet, stop, spot.at + layout::LOCATION, room, m);
        last = x;
    }
    spot
}

// Writes a part from `from` on: its first element, the count of its changes, and the changes. `lsp` is for the contract alone.
fn list(
    part: Part,
    packet: &[u8],
    stop: usize,
    from: SheetSpot,
    lsp: u32,
    room: &mut [u8],
) -> SheetSpot
    ghost limit: { ℕ }
    requires { PartWritable (segment.part (start_of part) limit lsp) packet.now stop from.at (filled room.old from.n) }
    ensures { Wrote (segment.part (start_of part) limit lsp) packet.now stop from.at (filled room.old from.n) result.at (filled room.new result.n) }
{
    let first = element(part, packet, stop, from.at, room, from.n);
    let count = bits::read_window(packet, first.at, body::NIter::WIDTH);
    let m = numbers::write::put_short(room, first.n, count);
    let next = SheetSpot {
        at: first.at + layout::COUNT,
        n: m,
    };
    changes(part, packet, stop, next, lsp, count, room)
}

// Writes the speed profile, the rated voltage and the current limitation from `from` on.
fn lists(packet: &[u8], stop: usize, from: SheetSpot, lsp: u32, room: &mut [u8]) -> SheetSpot
    requires { PartWritable (three_lists lsp) packet.now stop from.at (filled room.old from.n) }
    ensures { Wrote (three_lists lsp) packet.now stop from.at (filled room.old from.n) result.at (filled room.new result.n) }
{
    let one = list(Part::Speeds, packet, stop, from, lsp, room);
    let two = list(Part::Volts, packet, stop, one, lsp, room);
    list(Part::Amperes, packet, stop, two, lsp, room)
}

// Writes the numbers of a segment's fields, which end at the bit `stop` of `packet`, from the byte `start` of `room` on.
pub fn write_fields(packet: &[u8], stop: usize, room: &mut [u8], start: usize)
    requires { FieldsWritable Segment packet.now stop room.old start × (8 ≤ length packet.now) }
    ensures { room.new ≡ sets room.old start (fields_of Segment packet.now stop) }
{
    let n = head::header(packet, room, start);
    let m = head::identity(packet, room, n);
    let lsp = bits::read_window(packet, layout::LENGTH, body::LSp::WIDTH);
    let to = numbers::write::put_number(room, m, lsp);
    let first = SheetSpot {
        at: layout::PROFILE,
        n: head::offsets(packet, room, to),
    };
    lists(packet, stop, first, lsp, room);
}
