// The intake: takes a packet in several deliveries into a lent room, and judges it when it is complete. The caller keeps its state, a value.

#![tactic(auto)]

ghost use Rattle.std.specs.Prelude.{◌≡◌};
ghost use Rattle.intake.specs.Intake.{gathering, passed, judged_as, gathered, gathers_at, delivered, completed, is_verdict, judged_sheet, asked};

use convert::{Converted, refused};
use convert_packet::tree_of;
use kinds::refusals::{Refusal, Refused};

// State of an intake: its phase; how many bytes of a packet are in the room or were judged; the refusal of the verdict and its place, a bit of the packet.
#[repr(C)]
#[derive(Clone, Copy)]
pub struct Intake {
    pub phase: u32,
    pub length: u32,
    pub refusal: u32,
    pub place: u32,
}

// Phase in which the deliveries have passed the room's end. A number and no enum: C keeps the state, and `gathered` takes every phase above 2 for 0.
const PASSED: u32 = 1;

// Phase after a verdict. In a phase that is neither 1 nor 2 the intake gathers bytes.
const JUDGED: u32 = 2;

// Largest count of bytes that a state can hold.
const MOST: usize = 4294967295;

// Makes the state in which `length` bytes of a packet are in the room.
fn gather(length: u32) -> Intake
    ensures { result ≡ gathering length }
{
    Intake {
        phase: 0,
        length,
        refusal: 0,
        place: 0,
    }
}

// Makes the state in which the deliveries have passed the room's end.
fn pass() -> Intake
    ensures { result ≡ passed }
{
    Intake {
        phase: PASSED,
        length: 0,
        refusal: 0,
        place: 0,
    }
}

// Makes the state after a verdict on a packet of `length` bytes. `refusal` and `place` are 0 for an accepted packet.
fn judge(length: u32, refusal: u32, place: u32) -> Intake
    ensures { result ≡ judged_as length refusal place }
{
    Intake {
        phase: JUDGED,
        length,
        refusal,
        place,
    }
}

// Returns the state before the first delivery.
pub fn fresh() -> Intake
    ensures { result ≡ gathering 0 }
{
    gather(0)
}

// Returns how many bytes of a packet are in the room: 0 after a verdict.
fn in_room(intake: Intake) -> u32
    ensures { result ≡ gathered intake }
{
    if intake.phase == JUDGED {
        return 0;
    }
    intake.length
}

// Copies `delivery` into the room after the `n` bytes that are there and returns the state after it.
// Copies nothing if the room does not hold it, or if a state cannot count its bytes.
fn put(n: u32, delivery: &[u8], room: &mut [u8]) -> Intake
    ensures { record { intake = result; room = room.new } ≡ gathers_at n delivery.now room.old }
{
    let from = n as usize;
    if room.len() < from {
        return pass();
    }
    if room.len() - from < delivery.len() {
        return pass();
    }
    let to = from + delivery.len();
    if MOST < to {
        return pass();
    }
    room[from..to].copy_from_slice(delivery);
    gather(to as u32)
}

// Takes a delivery and returns the state after it. A delivery of no bytes changes nothing.
// A delivery that would pass the room's end, and each after it until the completion, writes nothing.
pub fn deliver(intake: Intake, delivery: &[u8], room: &mut [u8]) -> Intake
    ensures { record { intake = result; room = room.new } ≡ delivered intake delivery.now room.old }
{
    if delivery.len() == 0 {
        return intake;
    }
    if intake.phase == PASSED {
        return pass();
    }
    put(in_room(intake), delivery, room)
}

// Judges the first `n` bytes of the room as a packet and returns the state with the verdict: 8 if the room has fewer bytes.
fn verdict(n: u32, room: &[u8]) -> Intake
    ensures { result ≡ completed (gathering n) room.now }
{
    if room.len() < n as usize {
        return judge(0, Refusal::ShortRoom as u32, 0);
    }
    let packet = &room[..n as usize];
    match packet_judge::judge_packet(tree_of(packet), packet) {
        Err(Refused(refusal, place)) => judge(n, u32::from(refusal), place),
        Ok(_) => judge(n, 0, 0),
    }
}

// Judges the bytes that were delivered as a complete packet and returns the state with the verdict: 8 if they have passed the room's end.
pub fn complete(intake: Intake, room: &[u8]) -> Intake
    ensures { result ≡ completed intake room.now }
{
    if intake.phase != PASSED {
        return verdict(in_room(intake), room);
    }
    judge(0, Refusal::ShortRoom as u32, 0)
}

// Returns whether a completion can give this refusal at this place: 0 to 8 or 13, and with 0, 1, 2, 3 and 8 only the place 0.
fn is_verdict(refusal: u32, place: u32) -> bool
    ensures { result ≡ is_verdict refusal place }
{
    match refusal {
        0..=3 | 8 => place == 0,
        4..=7 | 13 => true,
        _ => false,
    }
}

// Writes the sheet of the judged packet, the first `n` bytes of `taken`, into `room`; refuses with 14 if `taken` is shorter.
fn judged_sheet(n: u32, taken: &[u8], room: &mut [u8]) -> Converted
    ensures { record { answer = result; room = room.new } ≡ judged_sheet n taken.now room.old }
{
    if taken.len() < n as usize {
        return refused(Refusal::TooEarly as u32, 0);
    }
    convert_packet::packet_to_sheet(&taken[..n as usize], room)
}

// Writes the sheet of the packet that was judged at the start of `room` and answers its length. `taken` is the room with the packet.
// Refuses with 14 if there is no verdict that a completion gives, then with the verdict's refusal, then with 14 if `taken` is shorter than the packet.
pub fn sheet(intake: Intake, taken: &[u8], room: &mut [u8]) -> Converted
    ensures { record { answer = result; room = room.new } ≡ asked intake taken.now room.old }
{
    if intake.phase != JUDGED {
        return refused(Refusal::TooEarly as u32, 0);
    }
    if is_verdict(intake.refusal, intake.place) {
        if intake.refusal == 0 {
            return judged_sheet(intake.length, taken, room);
        }
        return refused(intake.refusal, intake.place);
    }
    refused(Refusal::TooEarly as u32, 0)
}
