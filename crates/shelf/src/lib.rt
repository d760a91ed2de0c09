// The shelf: keeps segment sheets in a lent store and finds them by NID_C, NID_SP and version. The caller keeps the store and how many of its bytes are used.
// A kept sheet is an entry: four bytes for its length, most significant first, then its bytes. A run is entries one after the other, with nothing between.
// Places and sizes are in bytes.

#![tactic(auto)]

mod moves;
mod run;

ghost use Rattle.std.specs.Prelude.{◌≡◌, ◌+◌, ◌≤◌, length, Some};
ghost use Rattle.shelf.specs.Shelf.{book_of, shelf_add, shelf_remove, seen, part_of, shelf_lookup};
ghost use Rattle.shelf.specs.internal.Scanning.{AcceptedSheet, is_shelf, size_of, scanned, EntryIn, found_at, either_of, found_of};
ghost use Rattle.shelf.specs.internal.Changing.{Insertable, inserted, Placed, answer_of};

use crate::moves::{cut, put_entry};
use crate::run::{LENGTH, Place};
use grammar::link::Tree;
use kinds::refusals::{Refusal, Refused};

// Key of a kept sheet. Any numbers can be asked for; those of a sheet have 10, 32, 8 and 8 bits.
#[repr(C)]
#[derive(Clone, Copy, Debug, PartialEq, Eq)]
pub struct Key {
    pub nid_c: u32,
    pub nid_sp: u32,
    pub major: u32,
    pub minor: u32,
}

// Answer to a change: 0, 0 and the used bytes; or a refusal's number, its place (a byte of the sheet) and the used bytes as they were.
#[repr(C)]
#[derive(Clone, Copy)]
pub struct Shelved {
    pub refusal: u32,
    pub place: u32,
    pub used: u32,
}

// Where a lookup finds its sheet: whether the default store has it, its first byte there and how many.
#[derive(Clone, Copy, Debug, PartialEq, Eq)]
pub struct Found {
    pub standard: bool,
    pub start: usize,
    pub count: usize,
}

// Most bytes of a store.
const MOST: usize = 65536;

// A key to judge a store with, where no entry is looked for.
const ANY: Key = Key {
    nid_c: 0,
    nid_sp: 0,
    major: 0,
    minor: 0,
};

// Makes the answer to a change of a store, of which `used` bytes were used: a refusal leaves them, and its place is 0.
fn answer(changed: Result<u32, Refusal>, used: u32) -> Shelved
    ensures { result ≡ answer_of changed used }
{
    match changed {
        Ok(after) => Shelved {
            refusal: 0,
            place: 0,
            used: after,
        },
        Err(refusal) => Shelved {
            refusal: u32::from(refusal),
            place: 0,
            used,
        },
    }
}

// Judges a store of which `used` bytes are used, and finds the entry of `key` in it, if one has it. Refuses with 21 what is no shelf.
fn judged(store: &[u8], used: u32, key: Key) -> Result<Option<Place>, Refusal>
    ensures { result ≡ scanned key (book_of store.now used) }
{
    let end = used as usize;
    if MOST < store.len() || store.len() < end {
        return Err(Refusal::NoShelf);
    }
    run::judge(&store[..end], key)
}

// Puts an accepted sheet with the key `key` into the run of the store's first `rest` bytes, before the first entry with a greater key.
fn insert(store: &mut [u8], rest: usize, key: Key, sheet: &[u8])
    requires { Insertable store.old rest key sheet.now }
    ensures { store.new ≡ inserted rest key sheet.now store.old }
{
    let at = run::gap(&store[..rest], run::number_of(key));
    let count = LENGTH + sheet.len();
    store.copy_within(at..rest, at + count);
    put_entry(store, at, sheet);
}

// Returns how many bytes an entry has: 0 if there is none.
fn size_of(old: Option<Place>) -> usize
    ensures { result ≡ size_of old }
{
    match old {
        Some(place) => place.size,
        None => 0,
    }
}

// Adds an accepted sheet with the key `key` to a shelf, where `old` is what `judged` found of that key, and returns the used bytes.
// Refuses with 8 if there is no room.
fn put(
    store: &mut [u8],
    used: u32,
    old: Option<Place>,
    key: Key,
    sheet: &[u8],
) -> Result<u32, Refusal>
    requires { Placed store.old used old key sheet.now }
    ensures { record { answer = answer_of result used; store = store.new } ≡ shelf_add store.old used sheet.now }
{
    let size = size_of(old);
    let rest = used as usize - size;
    let room = store.len() - rest;
    if room < LENGTH + sheet.len() {
        return Err(Refusal::ShortRoom);
    }
    match old {
        Some(place) => cut(store, used as usize, place),
        None => {}
    }
    insert(store, rest, key, sheet);
    Ok((rest + LENGTH + sheet.len()) as u32)
}

// Keeps an accepted sheet in the store, of which `used` bytes are used, and returns the used bytes. Refuses with 21, then with 8.
fn added(store: &mut [u8], used: u32, sheet: &[u8]) -> Result<u32, Refusal>
    requires { AcceptedSheet sheet.now }
    ensures { record { answer = answer_of result used; store = store.new } ≡ shelf_add store.old used sheet.now }
{
    let key = run::key_of(sheet);
    let old = judged(store, used, key)?;
    put(store, used, old, key, sheet)
}

// Returns whether a store, of which `used` bytes are used, is a shelf.
fn is_shelf(store: &[u8], used: u32) -> bool
    ensures { result ≡ is_shelf (book_of store.now used) }
{
    judged(store, used, ANY).is_ok()
}

// Keeps `sheet` in the store, of which `used` bytes are used, and answers the used bytes. A kept sheet with the same key goes.
// Refuses with 21 if the store is no shelf, then with the sheet's own refusal, then with 8 if there is no room; then nothing moves.
pub fn add(store: &mut [u8], used: u32, sheet: &[u8]) -> Shelved
    ensures { record { answer = result; store = store.new } ≡ shelf_add store.old used sheet.now }
{
    match sheet_judge::judge_sheet(Tree::Segment, sheet) {
        Err(Refused(refusal, place)) => {
            if is_shelf(store, used) {
                return Shelved {
                    refusal: u32::from(refusal),
                    place,
                    used,
                };
            }
            answer(Err(Refusal::NoShelf), used)
        }
        Ok(_) => answer(added(store, used, sheet), used),
    }
}

// Takes the sheet with the key `key` out of the store, of which `used` bytes are used, and returns the used bytes. Refuses with 21, then with 17.
fn removed(store: &mut [u8], used: u32, key: Key) -> Result<u32, Refusal>
    ensures { record { answer = answer_of result used; store = store.new } ≡ shelf_remove store.old used key }
{
    let old = judged(store, used, key)?;
    let place = old.ok_or(Refusal::NotKept)?;
    let rest = used as usize - place.size;
    cut(store, used as usize, place);
    Ok(rest as u32)
}

// Removes the sheet with the key `key` from the store, of which `used` bytes are used, and answers the used bytes.
// Refuses with 21 if the store is no shelf, then with 17 if no sheet has the key; then nothing moves.
pub fn remove(store: &mut [u8], used: u32, key: Key) -> Shelved
    ensures { record { answer = result; store = store.new } ≡ shelf_remove store.old used key }
{
    answer(removed(store, used, key), used)
}

// Returns where the sheet of an entry stands: `standard` says whether the default store has it.
fn sheet_in(place: Place, standard: bool) -> Found
    requires { EntryIn (Some place) }
    ensures { result ≡ found_at standard place }
{
    Found {
        standard,
        start: place.start + LENGTH,
        count: place.size - LENGTH,
    }
}

// Chooses between the entries that two shelves have of a key: the yard's, else the default store's. Refuses with 17 if neither has one.
fn either(own: Option<Place>, other: Option<Place>) -> Result<Found, Refusal>
    requires { EntryIn own × EntryIn other }
    ensures { result ≡ either_of own other }
{
    if let Some(place) = own {
        return Ok(sheet_in(place, false));
    }
    let place = other.ok_or(Refusal::NotKept)?;
    Ok(sheet_in(place, true))
}

// Judges both stores, and finds the sheet with the key `key` in the yard's, else in the default one. Refuses with 21, then with 17.
fn find(
    yard: &[u8],
    yard_used: u32,
    standard: &[u8],
    standard_used: u32,
    key: Key,
) -> Result<Found, Refusal>
    ensures { result ≡ found_of yard.now yard_used standard.now standard_used key }
{
    let own = judged(yard, yard_used, key)?;
    let other = judged(standard, standard_used, key)?;
    either(own, other)
}

// Lends `count` bytes of a slice, from its byte `start` on.
fn part<'a>(s: &'a [u8], start: usize, count: usize) -> &'a [u8]
    requires { start + count ≤ length s.now }
    ensures { seen result ≡ part_of (seen s.entry) start count }
{
    &s[start..start + count]
}

// Looks up the sheet with the key `key`, in the yard's store first and in the default store second, and lends that part of the store that keeps it.
// A refused lookup lends a part too, so it is no Result: `shelf_lookup` says which.
// Sets `refusal` to 0; or to 21 if one of the stores is no shelf, or to 17 if no sheet has the key, and then lends an empty part of the yard's store.
pub fn lookup<'a>(
    yard: &'a [u8],
    yard_used: u32,
    standard: &'a [u8],
    standard_used: u32,
    key: Key,
    refusal: &mut u32,
) -> &'a [u8]
    ensures { record { refusal = refusal.new; part = seen result } ≡ shelf_lookup (seen yard.entry) yard_used (seen standard.entry) standard_used key }
{
    match find(yard, yard_used, standard, standard_used, key) {
        Err(none) => {
            *refusal = u32::from(none);
            part(yard, 0, 0)
        }
        Ok(found) => {
            *refusal = 0;
            if found.standard {
                return part(standard, found.start, found.count);
            }
            part(yard, found.start, found.count)
        }
    }
}

// Looks a key up as `lookup` does, sets `into` to the part that is lent, and returns the refusal. An exported function cannot return a slice.
pub fn lookup_into<'s, 'a>(
    into: &'s mut &'a [u8],
    yard: &'a [u8],
    yard_used: u32,
    standard: &'a [u8],
    standard_used: u32,
    key: Key,
) -> u32
    ensures { record { refusal = result; part = seen into.new } ≡ shelf_lookup (seen yard.entry) yard_used (seen standard.entry) standard_used key }
{
    let mut refusal = 0;
    *into = lookup(yard, yard_used, standard, standard_used, key, &mut refusal);
    refusal
}
