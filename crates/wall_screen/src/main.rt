// Shows the fleet on a wall screen: a line for each card of the file `cards` on the segment of the file `packet`, or a refusal.

#![tactic(auto)]

ghost use Rattle.std.specs.Prelude.{◌≤◌, length};

use std::fs::File;
use std::io;
use std::rt::Files;

// Reads the file `path` of the folder in which the program was started into `buffer`. Returns how many bytes it has put there: 0 for a file that cannot be opened.
fn read_file(rt: &impl Files, path: &str, buffer: &mut [u8]) -> usize
    ensures { result ≤ length buffer.new }
{
    match File::open(rt, path) {
        Ok(mut file) => input::read_full(&mut file, buffer),
        Err(_) => 0,
    }
}

// Reads the files `cards` and `packet` and writes the screen's text to standard output.
fn main(rt: HostRuntime) -> io::Result<()> {
    // 64 cards have at most 2,240 bytes, a packet at most 8,207: one byte more tells that a file is longer, so the rest is not read.
    let mut cards = [0u8; 2241];
    let n = read_file(&rt, "cards", &mut cards);
    let mut packet = [0u8; 8208];
    let m = read_file(&rt, "packet", &mut packet);
    let mut room = [0u8; screen::ROOM];
    let length = screen::screen(&cards[..n], &packet[..m], &mut room);
    rt.write_all(&room[..length])
}
