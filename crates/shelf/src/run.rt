// Reads a run of kept sheets: judges it, and finds the entry of a key in it. A sheet is judged once; of one that was accepted only its key is read again.
ghost use Rattle.std.specs.Prelude.{◌≡◌, ◌+◌, ◌≤◌, length, drop};
ghost use Rattle.shelf.specs.Book.{key_number, lookup, found};
ghost use Rattle.shelf.specs.Shelf.{length_in, sheets_in, distinct};
ghost use Rattle.shelf.specs.internal.Scanning.{InRange, AcceptedSheet, accepted_key, Stands, Runs, kept_in, entry_at, sheet_end, above_with, scanned, gap_in};

use crate::Key;
use grammar::link::Tree;
use kinds::refusals::Refusal;
use speed_sheet::{FIRST, number};

// Where the entry of a key stands: its first byte, and how many it has.
#[derive(Clone, Copy, Debug, PartialEq, Eq)]
pub struct Place {
    pub start: usize,
    pub size: usize,
}

// An entry that is read: the key of its sheet, and the byte after it.
#[derive(Clone, Copy)]
pub struct Entry {
    pub key: Key,
    pub next: usize,
}

// Bytes of an entry before its sheet: the sheet's length.
pub(crate) const LENGTH: usize = 4;

// The count of numbers between the packet number and NID_C: NID_OPERATIONAL, 4 of the header.
const BEFORE_KEY: u32 = 5;

// Returns a sheet's key as one number of 58 bits, by which keys are in order.
pub(crate) fn number_of(key: Key) -> u64
    requires { InRange key }
    ensures { result ≡ key_number key }
{
    ((key.nid_c as u64 * 4294967296 + key.nid_sp as u64) * 256 + key.major as u64) * 256
        + key.minor as u64
}

// Reads the key of an accepted sheet.
pub(crate) fn key_of(sheet: &[u8]) -> Key
    requires { AcceptedSheet sheet.now }
    ensures { result ≡ accepted_key sheet.now }
{
    let at = speed_sheet::numbers_end(sheet, FIRST, BEFORE_KEY);
    let nid_c = number(sheet, at);
    let nid_sp = number(sheet, nid_c.next);
    let major = number(sheet, nid_sp.next);
    let minor = number(sheet, major.next);
    Key {
        nid_c: nid_c.value,
        nid_sp: nid_sp.value,
        major: major.value,
        minor: minor.value,
    }
}

// Reads the length of the sheet whose entry starts at the byte `at`.
fn length_at(run: &[u8], at: usize) -> usize
    requires { at + 4 ≤ length run.now }
    ensures { result ≡ length_in (drop at run.now) }
{
    u32::from_be_bytes([run[at], run[at + 1], run[at + 2], run[at + 3]]) as usize
}

// Judges the entry at the byte `at` and returns the byte after it. Refuses with 21 if no entry with an accepted sheet stands there.
fn sheet_end(run: &[u8], at: usize) -> Result<usize, Refusal>
    requires { at ≤ length run.now }
    ensures { result ≡ sheet_end run.now at }
{
    if run.len() - at < LENGTH {
        return Err(Refusal::NoShelf);
    }
    let start = at + LENGTH;
    let count = length_at(run, at);
    if run.len() - start < count {
        return Err(Refusal::NoShelf);
    }
    let end = start + count;
    match sheet_judge::judge_sheet(Tree::Segment, &run[start..end]) {
        Err(_) => Err(Refusal::NoShelf),
        Ok(_) => Ok(end),
    }
}

// Reads the entry at the byte `at`, whose sheet was accepted.
fn entry_at(run: &[u8], at: usize) -> Entry
    requires { Stands run.now at }
    ensures { result ≡ entry_at run.now at }
{
    let start = at + LENGTH;
    let next = start + length_at(run, at);
    Entry {
        key: key_of(&run[start..next]),
        next,
    }
}

// Returns whether a sheet of the run has the key. The entries have different lengths, so a `for` would need an iterator with this loop's own step and test.
fn keeps(run: &[u8], key: Key) -> bool
    requires { Runs run.now }
    ensures { result ≡ found (lookup key (kept_in run.now)) }
{
    let mut at = 0;
    while at < run.len() {
        let e = entry_at(run, at);
        if e.key == key {
            return true;
        }
        at = e.next;
    }
    false
}

// Returns the byte of the run before which an entry goes whose key has the number `mine`: where the first entry with a greater key starts, or the end.
// The loop is a `while` as in `keeps`.
pub(crate) fn gap(run: &[u8], mine: u64) -> usize
    requires { Runs run.now }
    ensures { result ≡ gap_in mine (kept_in run.now) }
{
    let mut at = 0;
    while at < run.len() {
        let e = entry_at(run, at);
        if mine < number_of(e.key) {
            return at;
        }
        at = e.next;
    }
    at
}

// Returns the number above all keys of the run and above `key`; refuses with 21 if the run keeps `key`. `above` is above all keys of the run.
fn above_with(run: &[u8], above: u64, key: Key) -> Result<u64, Refusal>
    requires { Runs run.now × InRange key }
    ensures { result ≡ above_with above (key_number key) (lookup key (kept_in run.now)) }
{
    let mine = number_of(key);
    if above <= mine {
        return Ok(mine + 1);
    }
    if keeps(run, key) {
        return Err(Refusal::NoShelf);
    }
    Ok(above)
}

// Judges a run and finds the entry of `key`, if one has it. Refuses with 21 what is not a run of accepted sheets with different keys.
// A key above all before it is new; for any other the sheets before it are asked, so that any order is taken.
// The loop is a `while` as in `keeps`.
pub(crate) fn judge(run: &[u8], key: Key) -> Result<Option<Place>, Refusal>
    requires { length run.now ≤ 65536 }
    ensures { result ≡ scanned key (distinct (sheets_in (length run.now) run.now)) }
{
    let mut at = 0;
    let mut above = 0;
    let mut place = None;
    while at < run.len() {
        let next = sheet_end(run, at)?;
        let its = key_of(&run[at + LENGTH..next]);
        above = above_with(&run[..at], above, its)?;
        if its == key {
            place = Some(Place {
                start: at,
                size: next - at,
            });
        }
        at = next;
    }
    Ok(place)
}
