// The lines of a listing, written from the sheet of an accepted packet.
ghost use Rattle.std.specs.Prelude.{◌+◌, ◌*◌, ◌≤◌, length, drop};
ghost use Rattle.speed.specs.Speed.{element_of, after_element, changes_from};
ghost use Rattle.text.specs.internal.sheet.Numbers.{numbers_in, NumbersAt};
ghost use Rattle.text.specs.words.Words.{Laid};
ghost use Rattle.text.specs.lines.Lines.{names_text, measures, segment_line, element_line, element_lines, lines};
ghost use Rattle.text.specs.internal.lines.Changes.{changes_of};

use crate::sheet::{number, past};
use crate::words::{put_labelled, put_signed, put_word};

// Place of NID_C among a sheet's numbers, counted from 0.
const NID_C: usize = 6;

// Place of NID_SP among a sheet's numbers, counted from 0.
const NID_SP: usize = 7;

// Place of L_SP among a sheet's numbers, counted from 0.
const L_SP: usize = 10;

// Place of the speed profile's first number among a sheet's numbers, counted from 0.
const PROFILE: usize = 14;

// Writes the segment's line up to NID_SP at the start of the room. Returns the place after it.
fn put_names(sheet: &[u8], room: &mut [u8]) -> usize
    requires { 29 ≤ length room.old }
    ensures { Laid room.old 0 (names_text (numbers_in sheet.now)) result room.new }
{
    let nid_c = number(sheet, past(sheet, 0, NID_C));
    let nid_sp = number(sheet, past(sheet, 0, NID_SP));
    let at = put_labelled(room, 0, b"SEGMENT ", nid_c);
    put_labelled(room, at, b" ", nid_sp)
}

// Writes the rest of the segment's line, L_SP and `altitude` in cm, at the byte `at` of the room. Returns the place after it.
fn put_measures(sheet: &[u8], altitude: i32, room: &mut [u8], at: usize) -> usize
    requires { at + 40 ≤ length room.old }
    ensures { Laid room.old at (measures altitude (numbers_in sheet.now)) result room.new }
{
    let l_sp = number(sheet, past(sheet, 0, L_SP));
    let mut next = put_labelled(room, at, b" LENGTH ", l_sp);
    next = put_word(room, next, b" ALTITUDE ");
    next = put_signed(room, next, altitude);
    put_word(room, next, b"\n")
}

// Writes the segment's line, with its `altitude` in cm, at the start of the room. Returns the place after it.
fn put_segment(sheet: &[u8], altitude: i32, room: &mut [u8]) -> usize
    requires { 69 ≤ length room.old }
    ensures { Laid room.old 0 (segment_line altitude (numbers_in sheet.now)) result room.new }
{
    let at = put_names(sheet, room);
    put_measures(sheet, altitude, room, at)
}

// Writes the line of an element at the byte `at` of the room and returns the place after it.
// The element's numbers begin at the byte `from` of the sheet; it starts at `start` cm.
fn put_element(sheet: &[u8], from: usize, start: u32, room: &mut [u8], at: usize) -> usize
    requires { (from ≤ length sheet.now) × (at + 50 ≤ length room.old) }
    ensures { Laid room.old at (element_line (element_of start (numbers_in (drop from sheet.now)))) result room.new }
{
    let speed = number(sheet, from);
    let front = number(sheet, past(sheet, from, 1));
    let mut next = put_labelled(room, at, b"FROM ", start);
    next = put_labelled(room, next, b" SPEED ", speed);
    next = put_labelled(room, next, b" FRONT ", front);
    put_word(room, next, b"\n")
}

// Returns the byte of the sheet after an element that begins at the byte `from`: three numbers, and three for each specific entry.
fn after_element(sheet: &[u8], from: usize) -> usize
    requires { from ≤ length sheet.now }
    ensures { NumbersAt sheet.now result (after_element (numbers_in (drop from sheet.now))) }
{
    let entries = number(sheet, past(sheet, from, 2));
    past(sheet, from, 3 + 3 * entries as usize)
}

// Writes the lines of `left` changes at the byte `at` of the room and returns the place after them.
// The first change begins at the byte `from` of the sheet.
fn put_changes(sheet: &[u8], from: usize, left: u32, room: &mut [u8], at: usize) -> usize
    requires { (from ≤ length sheet.now) × (at + 50 * left ≤ length room.old) }
    ensures { Laid room.old at (element_lines (changes_from 0 left (numbers_in (drop from sheet.now)))) result room.new }
{
    let mut place = from;
    let mut next = at;
    for _ in 0..left {
        let start = number(sheet, place);
        place = past(sheet, place, 1);
        next = put_element(sheet, place, start, room, next);
        place = after_element(sheet, place);
    }
    next
}

// Writes all lines of an accepted packet, with its `altitude` in cm, at the start of the room. Returns the length of the text.
// The segment's line has at most 69 bytes, the line of each of at most 32 elements 50.
pub fn put_lines(sheet: &[u8], altitude: i32, room: &mut [u8]) -> usize
    requires { (changes_of (numbers_in sheet.now) ≤ 31) × (1669 ≤ length room.old) }
    ensures { Laid room.old 0 (lines altitude (numbers_in sheet.now)) result room.new }
{
    let mut at = put_segment(sheet, altitude, room);
    let profile = past(sheet, 0, PROFILE);
    at = put_element(sheet, profile, 0, room, at);
    let changes = after_element(sheet, profile);
    let left = number(sheet, changes);
    let first = past(sheet, changes, 1);
    put_changes(sheet, first, left, room, at)
}
