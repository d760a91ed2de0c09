// The passes over an accepted speed profile, element by element, which are the same in a packet and in a sheet, and how a medium gives its parts.
// What was accepted is not judged again. Places are bits of a packet and bytes of a sheet. Locations and lengths are in cm, speeds in km/h.

ghost use Rattle.std.specs.Prelude.{◌≡◌, List, ℕ, ◌+◌, ◌≤◌};
ghost use Rattle.kinds.specs.declared.Item.{Item};
ghost use Rattle.kinds.specs.Kinds.{n_iter, d_location};
ghost use Rattle.format.specs.Format.{Format};
ghost use Rattle.grammar.specs.segment.Segment as segment;
ghost use Rattle.grammar.specs.internal.segment.Parts as parts;
ghost use Rattle.speed_element.specs.internal.Reading.{Readable, Stands, LocationStands, FieldRead, EntryRead, Opens, ElementRead, Ended, NextRead, FirstRead, ChangesRead, HeadRead};
ghost use Rattle.speed_element.specs.internal.Passing.{Passed};

use crate::{First, Following, Head, Lows, Open, ReadAt};
use speed::Train;

// How a medium gives the parts of a speed profile at their places.
pub trait Profile {
    // The tree stands at the place in the bytes, and is accepted with the values.
    ghost reads: { List ℕ → Format → ℕ → List Item → Type 0 };

    // The bytes are accepted as a segment.
    ghost accepts: { List ℕ → Type 0 };

    // The numbers of the segment's sheet.
    ghost numbers: { List ℕ → List ℕ };

    // What entries are read with.
    type Tables: Copy;

    // It is the medium's.
    ghost are_tables: { Self.Tables → Type 0 };

    // Returns what entries are read with.
    fn tables() -> Self::Tables
        ensures { are_tables result };

    // Reads the entry at `at`, and returns the lowest speeds `lows` with that entry.
    fn entry(s: &[u8], at: usize, tables: &Self::Tables, train: Train, lows: Lows) -> ReadAt<Lows>
        requires { are_tables tables.now × Readable (reads s.now) parts.entry at }
        ensures { EntryRead (reads s.now) train lows result.value at result.next };

    // Reads the element at `at`, which starts at the location `start`. Its entries are passed over.
    fn element(s: &[u8], at: usize, start: u32) -> ReadAt<Open>
        requires { Readable (reads s.now) segment.profile at }
        ensures { ElementRead (reads s.now) at result.next result.value × (result.value.start ≡ start) };

    // Reads the location of a change at `at`.
    fn location(s: &[u8], at: usize) -> ReadAt<u32>
        requires { LocationStands (reads s.now) at }
        ensures { (last lsp : ℕ) → FieldRead (reads s.now) (d_location last lsp) at result.next result.value result.value };

    // Reads the count of the changes at `at`.
    fn count(s: &[u8], at: usize) -> ReadAt<u32>
        requires { Stands (reads s.now) (n_iter 31) at }
        ensures { FieldRead (reads s.now) (n_iter 31) at result.next result.value result.value × (result.value ≤ 31) };

    // Reads L_SP of an accepted segment, and finds its speed profile.
    fn head(s: &[u8]) -> Head
        requires { accepts s.now }
        ensures { HeadRead (reads s.now) (numbers s.now) result.lsp result.profile };
}

// Returns the lowest speed that holds at `x`: of the speed `held` so far, and of the element `open`, which ends at `end`.
// The element's entries are read only if it holds at `x`.
pub fn ended<P: Profile>(s: &[u8], open: Open, train: Train, held: u32, end: u32, x: u32) -> u32
    requires { Opens (P.reads s.now) «open» }
    ensures { Ended (P.reads s.now) train held end x «open» result }
{
    if !open.holds(train, end, x) {
        return held;
    }
    // For speed: made once, and lent to each entry.
    let tables = P::tables();
    let mut lows = crate::no_lows();
    let mut to = open.entries;
    for _ in 0..open.count {
        let e = P::entry(s, to, &tables, train, lows);
        lows = e.value;
        to = e.next;
    }
    lows.lowered(train, open.v_static, held)
}

// Reads the next of the `left` changes at `at`: the element `open` ends at its location. If none is left, `open` ends at `lsp`.
pub fn next<P: Profile>(s: &[u8], open: Open, at: usize, left: u64, lsp: u32) -> Following
    requires { Readable (P.reads s.now) (segment.changes segment.profile lsp «open».start left) at }
    ensures { NextRead (P.reads s.now) lsp «open» left at result }
{
    if left == 0 {
        return Following {
            end: lsp,
            open,
            next: at,
        };
    }
    let location = P::location(s, at);
    let e = P::element(s, location.next, location.value);
    Following {
        end: location.value,
        open: e.value,
        next: e.next,
    }
}

// Returns the lowest speed that holds at `x`: of the speed `before`, of the first element of a speed profile, and of the changes after it.
// The last element ends at `lsp`.
fn changes<P: Profile>(s: &[u8], first: First, train: Train, lsp: u32, x: u32, before: u32) -> u32
    requires { Opens (P.reads s.now) first.«open» × Readable (P.reads s.now) (segment.changes segment.profile lsp first.«open».start first.count) first.next }
    ensures { ChangesRead (P.reads s.now) train lsp x before first.«open» first.count first.next result }
{
    let count = first.count as u64;
    let mut held = before;
    let mut open = first.open;
    let mut to = first.next;
    for left in (0..count + 1).rev() {
        let n = next::<P>(s, open, to, left, lsp);
        held = ended::<P>(s, open, train, held, n.end, x);
        open = n.open;
        to = n.next;
    }
    held
}

// Reads the first element of the speed profile at `at`, and the count of its changes. `lsp` is the segment's length, which only the contract uses.
pub fn first<P: Profile>(s: &[u8], at: usize, lsp: u32) -> First
    requires { Readable (P.reads s.now) (segment.part segment.profile 31 lsp) at }
    ensures { FirstRead (P.reads s.now) at result }
{
    let e = P::element(s, at, 0);
    let count = P::count(s, e.next);
    First {
        open: e.value,
        count: count.value,
        next: count.next,
    }
}

// Returns the lowest speed that holds for `train` at `x` from the start of an accepted segment: of the speed `held`, and of the elements of
// the segment. `head` is what the medium's function of that name returned for the segment.
pub fn passed<P: Profile>(s: &[u8], head: Head, train: Train, held: u32, x: u32) -> u32
    requires { HeadRead (P.reads s.now) (P.numbers s.now) head.lsp head.profile }
    ensures { Passed train (P.numbers s.now) x held result }
{
    let first = first::<P>(s, head.profile, head.lsp);
    changes::<P>(s, first, train, head.lsp, x, held)
}
