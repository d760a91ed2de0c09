// Lists the packet on standard input: its segment and the elements of its speed profile, or its refusal.
// It takes no file name: where there is one, it says so on standard error, and reads and lists nothing.

#![tactic(auto)]

use std::env::{Env, FillError};
use std::io;
use std::io::Input;

// Reads a packet from standard input and writes its listing to standard output.
fn list(rt: &(impl Input + Print)) -> io::Result<()> {
    // The largest packet has 8,207 bytes: longer input is refused with 2 or 3 by its first 8,208 bytes, so the rest is not read.
    let mut packet = [0u8; 8208];
    let n = input::read_full(&mut rt.reader(), &mut packet);
    let mut room = [0u8; text::ROOM];
    let length = text::listing(&packet[..n], &mut room);
    rt.write_all(&room[..length])
}

// Tells whether the program was started with an argument: its own name is the first of the count, and one that is too long for a byte is one all the same.
fn has_argument(rt: &impl Env) -> bool {
    let mut byte = [0u8; 1];
    match rt.arg(1, &mut byte) {
        Err(FillError::NotPresent) => false,
        _ => true,
    }
}

// Lists the packet, unless the program was started with an argument.
fn main(rt: HostRuntime) -> io::Result<()> {
    if has_argument(&rt) {
        return rt.stderr().write_all(b"listing reads standard input and no file: listing <FILE\n");
    }
    list(&rt)
}
