// The parts of an accepted journey that are fields in a row, copied to the sheet: its head, the head of a segment, and a timing point.
ghost use Rattle.std.specs.Prelude.{◌≡◌, ◌+◌};
ghost use Rattle.bits.specs.Bits.{field_at};
ghost use Rattle.sheet_write_segment.specs.internal.elements.Writing.{filled};
ghost use Rattle.sheet_write_segment.specs.internal.row.Row.{Row, copied};
ghost use Rattle.sheet_write_journey.specs.internal.rows.Widths.{head_widths, count_widths, start_widths, version_widths, point_widths, choice_widths, closing_widths};

use grammar::journey::layout;
use kinds::UpTo;
use kinds::body::{NidC, NidSp};
use kinds::journey::NidTp;
use sheet_write_segment::head::header;
use sheet_write_segment::row::{four, moment, number, one, short};

// `n` is the byte up to which the room is written; `count` is the value of the last field, which counts what follows.
#[derive(Clone, Copy)]
pub struct Listed {
    pub n: usize,
    pub count: u32,
}

// Writes Q_JP_Status and N_ITER_SP, 3 and 8 bits, from the byte `n` of `room` on, and returns N_ITER_SP.
fn counts(packet: &[u8], at: usize, room: &mut [u8], n: usize) -> Listed
    requires { Row packet.now at count_widths (filled room.old n) }
    ensures { (filled room.new result.n ≡ copied packet.now at count_widths (filled room.old n)) × (result.count ≡ field_at packet.now (at + 3) 8) }
{
    let t = bits::read_window(packet, at, layout::COUNTS_WIDTH);
    let second = one(room, n, t / 256);
    let count = t % 256;
    let last = numbers::write::put_short(room, second, count);
    Listed { n: last, count }
}

// Writes NID_OPERATIONAL to N_ITER_SP from the byte `n` of `room` on, and returns N_ITER_SP.
pub fn head(packet: &[u8], room: &mut [u8], n: usize) -> Listed
    requires { Row packet.now 24 head_widths (filled room.old n) }
    ensures { (filled room.new result.n ≡ copied packet.now 24 head_widths (filled room.old n)) × (result.count ≡ field_at packet.now 123 8) }
{
    let status = header(packet, room, n);
    counts(packet, layout::STATUS, room, status)
}

// Writes the two versions, Q_SP_DIR and N_ITER, 8, 8, 1 and 5 bits, from the byte `n` of `room` on, and returns N_ITER.
fn versions(packet: &[u8], at: usize, room: &mut [u8], n: usize) -> Listed
    requires { Row packet.now at version_widths (filled room.old n) }
    ensures { (filled room.new result.n ≡ copied packet.now at version_widths (filled room.old n)) × (result.count ≡ field_at packet.now (at + 17) 5) }
{
    let t = bits::read_window(packet, at, layout::VERSIONS_WIDTH);
    let second = numbers::write::put_short(room, n, t / 16384);
    let third = numbers::write::put_short(room, second, t / 64 % 256);
    let fourth = one(room, third, t / 32 % 2);
    let count = t % 32;
    let last = one(room, fourth, count);
    Listed { n: last, count }
}

// Writes NID_C to N_ITER of a segment from the byte `n` of `room` on, and returns N_ITER.
pub fn start(packet: &[u8], at: usize, room: &mut [u8], n: usize) -> Listed
    requires { Row packet.now at start_widths (filled room.old n) }
    ensures { (filled room.new result.n ≡ copied packet.now at start_widths (filled room.old n)) × (result.count ≡ field_at packet.now (at + 59) 5) }
{
    let name = short(packet, at, NidC::WIDTH, room, n);
    let version = number(packet, at + layout::IDENTITY, NidSp::WIDTH, room, name);
    versions(packet, at + layout::VERSIONS, room, version)
}

// Writes T_Arrival_Window to Q_Train_Hold, 10 bits, then 2, 2, 2, 1 and 2, 1, 1, 1, from the byte `n` of `room` on; returns the byte after them.
fn choices(packet: &[u8], at: usize, room: &mut [u8], n: usize) -> usize
    requires { Row packet.now at choice_widths (filled room.old n) }
    ensures { filled room.new result ≡ copied packet.now at choice_widths (filled room.old n) }
{
    let t = bits::read_window(packet, at, layout::MARKS_WIDTH);
    let stop = numbers::write::put_short(room, n, t / 4096);
    let doors = four(
        room,
        stop,
        t / 1024 % 4,
        t / 256 % 4,
        t / 64 % 4,
        t / 32 % 2,
    );
    four(room, doors, t / 8 % 4, t / 4 % 2, t / 2 % 2, t % 2)
}

// Writes T_Minimum_Dwell_Time and Q_Automatic_Closing, 10 bits and 1, from the byte `n` of `room` on; returns the byte after them.
fn closing(packet: &[u8], at: usize, room: &mut [u8], n: usize) -> usize
    requires { Row packet.now at closing_widths (filled room.old n) }
    ensures { filled room.new result ≡ copied packet.now at closing_widths (filled room.old n) }
{
    let t = bits::read_window(packet, at, layout::CLOSING_WIDTH);
    let second = numbers::write::put_short(room, n, t / 2);
    one(room, second, t % 2)
}

// Writes a timing point, NID_TP to Q_Automatic_Closing, from the byte `n` of `room` on; returns the byte after it. The fields equal their numbers whatever Q_Stop_Skip_Passes is.
pub fn point(packet: &[u8], at: usize, room: &mut [u8], n: usize) -> usize
    requires { Row packet.now at point_widths (filled room.old n) }
    ensures { filled room.new result ≡ copied packet.now at point_widths (filled room.old n) }
{
    let arrival = number(packet, at, NidTp::WIDTH, room, n);
    let stop = moment(packet, at + layout::LATEST, room, arrival);
    let departure = choices(packet, at + layout::MARKS, room, stop);
    let dwell = moment(packet, at + layout::DEPARTURE, room, departure);
    closing(packet, at + layout::DWELL, room, dwell)
}
