// Moves bytes within a store, and writes an entry.
ghost use Rattle.std.specs.Prelude.{◌≡◌, ◌+◌, ◌-◌, ◌≤◌, length};
ghost use Rattle.shelf.specs.internal.Changing.{moved, entry_put};

use crate::run::{LENGTH, Place};

// Cuts an entry out of the first `used` bytes: those after it move down to its place.
pub(crate) fn cut(store: &mut [u8], used: usize, place: Place)
    requires { (place.start + place.size ≤ used) × (used ≤ length store.old) }
    ensures { store.new ≡ moved place.start (place.start + place.size) (used - place.size - place.start) store.old }
{
    store.copy_within(place.start + place.size..used, place.start);
}

// Writes the entry of `sheet` at the place `at`: the four bytes of its length, then its bytes.
pub(crate) fn put_entry(store: &mut [u8], at: usize, sheet: &[u8])
    requires { at + 4 + length sheet.now ≤ length store.old × (length store.old ≤ 65536) }
    ensures { store.new ≡ entry_put at sheet.now store.old }
{
    let start = at + LENGTH;
    store[at..start].copy_from_slice(&(sheet.len() as u32).to_be_bytes());
    store[start..start + sheet.len()].copy_from_slice(sheet);
}
