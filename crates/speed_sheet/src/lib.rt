// The speed profile of an accepted sheet, read at bytes of the sheet. What was accepted is not judged again.
// Locations and lengths are in cm, speeds in km/h.

#![tactic(auto)]

ghost use Rattle.std.specs.Prelude.{◌≡◌, ◌<◌, length};
ghost use Rattle.grammar.specs.segment.Segment as segment;
ghost use Rattle.speed.specs.Speed.{after_entries};
ghost use Rattle.speed_element.specs.internal.Reading.{Readable, Passes, Opens, Ended, NextRead, FirstRead, HeadRead};
ghost use Rattle.speed_element.specs.internal.Passing.{Passed};
ghost use Rattle.speed_sheet.specs.internal.Asking.{AcceptedSheet, numbers_of_sheet, NumberAt, Numbers, numbers_end, short_end, Reads};

use numbers::accepted::ReadNumber;
use speed::Train;
use speed_element::profile::Profile;
use speed_element::{First, Following, Head, Lows, Open, ReadAt, profile};

// The byte after the packet number.
pub const FIRST: usize = 1;

// The count of numbers between the packet number and L_SP: NID_OPERATIONAL, 4 of the header, 4 of the identity.
const BEFORE_LENGTH: u32 = 9;

// The count of numbers between L_SP and the speed profile.
const OFFSETS: u32 = 3;

// Reads the number at the byte `at`.
pub fn number(s: &[u8], at: usize) -> ReadNumber
    ensures { NumberAt s.now at result.next result.value }
{
    let found = numbers::found_at(s, at);
    ReadNumber {
        value: found.value,
        next: at + found.count as usize,
    }
}

// Returns the byte after the `count` numbers that stand at the byte `at`: each number ends at its first byte below 128.
// For speed the loop counts bytes and not groups: no branch depends on the size of a number.
pub fn numbers_end(s: &[u8], at: usize, count: u32) -> usize
    requires { Numbers s.now at count }
    ensures { result ≡ numbers_end s.now at count }
{
    let mut to = at;
    let mut ended = 0;
    // No `for`: a turn is a byte, and ends a number or none.
    while ended < count {
        ended += 1 - bits::wide(s[to]) / 128;
        to += 1;
    }
    to
}

// Returns the byte after a number of one or two groups, whose first byte is at `at` and tells how many.
fn short_end(s: &[u8], at: usize) -> usize
    requires { at < length s.now }
    ensures { result ≡ short_end s.now at }
{
    at + 1 + (bits::wide(s[at]) / 128) as usize
}

// Returns the byte after the `count` entries at the byte `at`. Q_DIFF has one group, the class and the speed one or two.
fn entries_end(s: &[u8], at: usize, count: u32) -> usize
    requires { Readable (Reads s.now) (segment.entries count) at }
    ensures { Passes (Reads s.now) (segment.entries count) (after_entries count) at result }
{
    let mut to = at;
    for _ in 0..count {
        to = short_end(s, short_end(s, to + 1));
    }
    to
}

// Speed profiles in sheets, at bytes.
pub struct Sheet;

impl Profile for Sheet {
    // Numbers need no tables.
    type Tables = ();

    ghost reads = { Reads };

    ghost accepts = { AcceptedSheet };

    ghost numbers = { numbers_of_sheet };

    ghost are_tables = { λ tables. Unit {0} };

    // Returns nothing.
    fn tables() {}

    // Reads the three numbers of the entry at the byte `at`.
    fn entry(s: &[u8], at: usize, _tables: &(), train: Train, lows: Lows) -> ReadAt<Lows> {
        let q_diff = number(s, at);
        let class = number(s, q_diff.next);
        let v = number(s, class.next);
        ReadAt {
            value: lows.with(train, q_diff.value, class.value, v.value),
            next: v.next,
        }
    }

    // Reads the element at the byte `at`, up to its entries. Q_FRONT and N_ITER have one group.
    fn element(s: &[u8], at: usize, start: u32) -> ReadAt<Open> {
        let v_static = number(s, at);
        let second = v_static.next;
        let q_front = bits::wide(s[second]);
        let count = bits::wide(s[second + 1]);
        let entries = second + 2;
        let next = entries_end(s, entries, count);
        ReadAt {
            value: Open {
                start,
                v_static: v_static.value,
                q_front,
                count,
                entries,
            },
            next,
        }
    }

    // Reads the location at the byte `at`, in cm.
    fn location(s: &[u8], at: usize) -> ReadAt<u32> {
        let location = number(s, at);
        ReadAt {
            value: location.value,
            next: location.next,
        }
    }

    // Reads the count at the byte `at`.
    fn count(s: &[u8], at: usize) -> ReadAt<u32> {
        let count = number(s, at);
        ReadAt {
            value: count.value,
            next: count.next,
        }
    }

    // Reads L_SP, and finds the speed profile.
    fn head(sheet: &[u8]) -> Head {
        let at = numbers_end(sheet, FIRST, BEFORE_LENGTH);
        let length = number(sheet, at);
        Head {
            lsp: length.value,
            profile: numbers_end(sheet, length.next, OFFSETS),
        }
    }
}

// Returns the lowest speed that holds at `x`: of the speed `held` so far, and of the element `open`, which ends at `end`.
pub fn ended(s: &[u8], open: Open, train: Train, held: u32, end: u32, x: u32) -> u32
    requires { Opens (Reads s.now) «open» }
    ensures { Ended (Reads s.now) train held end x «open» result }
{
    profile::ended::<Sheet>(s, open, train, held, end, x)
}

// Reads the next of the `left` changes at the byte `at`: the element `open` ends at its location. If none is left, `open` ends at `lsp`.
pub fn next(s: &[u8], open: Open, at: usize, left: u64, lsp: u32) -> Following
    requires { Readable (Reads s.now) (segment.changes segment.profile lsp «open».start left) at }
    ensures { NextRead (Reads s.now) lsp «open» left at result }
{
    profile::next::<Sheet>(s, open, at, left, lsp)
}

// Reads the first element of the speed profile at the byte `at`, and the count of its changes. `lsp` is the segment's length.
pub fn first(s: &[u8], at: usize, lsp: u32) -> First
    requires { Readable (Reads s.now) (segment.part segment.profile 31 lsp) at }
    ensures { FirstRead (Reads s.now) at result }
{
    profile::first::<Sheet>(s, at, lsp)
}

// Reads L_SP of an accepted sheet, and finds its speed profile.
pub fn head(sheet: &[u8]) -> Head
    requires { AcceptedSheet sheet.now }
    ensures { HeadRead (Reads sheet.now) (numbers_of_sheet sheet.now) result.lsp result.profile }
{
    Sheet::head(sheet)
}

// Returns the lowest speed that holds for `train` at `x` from the start of an accepted sheet's segment: of the speed `held`, and of the
// elements of the segment. `head` is what the function of that name returned for the sheet.
pub fn passed(sheet: &[u8], head: Head, train: Train, held: u32, x: u32) -> u32
    requires { HeadRead (Reads sheet.now) (numbers_of_sheet sheet.now) head.lsp head.profile }
    ensures { Passed train (numbers_of_sheet sheet.now) x held result }
{
    profile::passed::<Sheet>(sheet, head, train, held, x)
}
