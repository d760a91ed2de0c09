// Reads an input into a buffer: standard input for the listing, a file for the wall screen.

#![tactic(auto)]

ghost use Rattle.std.specs.Io.KnownBytes.{Consumes};
ghost use Rattle.std.specs.Prelude.{◌≤◌, length, take};

use std::io::Read;

// Reads until the buffer is full, the input ends or a read fails. Returns how many bytes it has put at the start of the buffer.
pub fn read_full<R: Read>(input: &mut R, buffer: &mut [u8]) -> usize
    ensures within { result ≤ length buffer.new }
    ensures bytes { Consumes (R.remaining input.old) (R.remaining input.new) (take result buffer.new) }
{
    // `read_exact` of std does not tell how much there was, and `read_to_end` takes a heap. No `for`: a turn reads as many bytes as come at once.
    let mut done = 0;
    while done < buffer.len() {
        match input.read(&mut buffer[done..]) {
            Ok(n) if n > 0 => done += n,
            _ => break,
        }
    }
    done
}
