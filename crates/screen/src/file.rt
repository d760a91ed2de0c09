// A cards file: seven numbers a card, judged one by one.

ghost use Rattle.std.specs.Prelude.{◌≡◌, length};
ghost use Rattle.screen.specs.File.{wrong};
ghost use Rattle.screen.specs.internal.Reading.{Read};

use kinds::refusals::{Refusal, Refused};

// Numbers of 64 cards.
pub const NUMBERS: usize = 448;

// Returns whether `v` is neither 0 nor 1 where the number `k` of a file, counted from 0, is a membership.
fn wrong(k: usize, v: u32) -> bool
    ensures { result ≡ wrong k v }
{
    (2..=4).contains(&(k % 7)) && 1 < v
}

// Judges the numbers of a cards file in order and puts them into `values`. Returns the count of its cards, or the first refusal with a byte of the file as its place.
pub fn read_cards(s: &[u8], values: &mut [u32]) -> Result<usize, Refused<u32>>
    requires { length values.old ≡ 448 }
    ensures { Read s.now result values.new }
{
    let mut k = 0;
    let mut at = 0;
    // A number has as many bytes as its groups, so a `for` would need an iterator with this loop's own step and test.
    while at < s.len() {
        if k == NUMBERS {
            return Err(Refused(Refusal::CardList, 0));
        }
        let found = numbers::found_at(s, at);
        if found.count == 0 {
            return Err(Refused(Refusal::SheetForm, at as u32));
        }
        if wrong(k, found.value) {
            return Err(Refused(Refusal::FieldValue, at as u32));
        }
        values[k] = found.value;
        k += 1;
        at += found.count as usize;
    }
    if k % 7 != 0 {
        return Err(Refused(Refusal::SheetForm, at as u32));
    }
    Ok(k / 7)
}
