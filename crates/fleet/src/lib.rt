// The fleet board: a lent list of up to 64 train cards, each with a location on the segment of one packet.
// `fleet_lowest` and `fleet_move` take the list; the functions that they call take plain data and bytes.

#![tactic(auto)]

ghost use Rattle.std.specs.Prelude.{◌≡◌, ◌<◌};
ghost use Rattle.speed_packet.specs.internal.Asking.{AcceptedPacket};
ghost use Rattle.fleet.specs.Fleet.{no_board, asked_of, moved, answer_of, alone, board};
ghost use Rattle.fleet.specs.internal.Turns.{named_as, started_with, turned};

use kinds::refusals::{Refusal, Refused};
use speed::Train;
use speed_question::Speed;
use speed_question::medium::Medium;
use speed_question::run::Run;

// A train, and its location in cm from the start of the packet's segment.
#[repr(C)]
#[derive(Clone, Copy)]
pub struct Card {
    pub train: Train,
    pub location: u32,
}

// Answer of the board: 0, 0, the number of the first card with the lowest permitted speed, and that speed in km/h;
// or a refusal's number, its place (a bit of the packet), 0 and 0.
#[repr(C)]
#[derive(Clone, Copy)]
pub struct Board {
    pub refusal: u32,
    pub place: u32,
    pub card: u32,
    pub speed: u32,
}

// The most cards in a list.
pub const MOST: usize = 64;

// Number of the board's interface, which its header has too.
const INTERFACE: u32 = 1;

// Makes the board of a refusal and its place.
fn refused(refusal: u32, place: u32) -> Board
    ensures { result ≡ no_board refusal place }
{
    Board {
        refusal,
        place,
        card: 0,
        speed: 0,
    }
}

// Makes the board of card `i` alone, from the answer of the speed question.
fn alone(i: usize, s: Speed) -> Board
    requires { i < 64 }
    ensures { result ≡ alone i s }
{
    if s.refusal == 0 {
        return Board {
            refusal: 0,
            place: 0,
            card: i as u32,
            speed: s.speed,
        };
    }
    refused(s.refusal, s.place)
}

// Judges the packet for a board of `n` cards. Returns the board before the first card: refusal 20 if there is no card, else the packet's own, or 0.
pub fn started(n: usize, packet: &[u8]) -> Board
    ensures { result ≡ started_with n packet.now }
{
    if n == 0 {
        return refused(u32::from(Refusal::CardList), 0);
    }
    match Run::judged(Medium::Packet, &[packet]) {
        Err(Refused(r, place)) => refused(u32::from(r), place),
        Ok(_) => refused(0, 0),
    }
}

// Returns the board after card `i`, from the board `best` after the cards before it. A refusal stays. The packet is not judged again.
pub fn next(packet: &[u8], best: Board, i: usize, card: Card) -> Board
    requires { (i < 64) × (best.refusal ≡ 0 → AcceptedPacket packet.now) }
    ensures { result ≡ turned best i (answer_of packet.now card) }
{
    if best.refusal != 0 {
        return best;
    }
    let train = card.train;
    let s = speed_question::of_packet(packet, train, card.location);
    if i == 0 {
        return alone(i, s);
    }
    if s.refusal != 0 {
        return alone(i, s);
    }
    if best.speed <= s.speed {
        return best;
    }
    alone(i, s)
}

// Returns how many cards of a list of `n` are asked: none of one that is longer than 64.
pub fn asked(n: usize) -> usize
    ensures { result ≡ asked_of n }
{
    if MOST < n { 0 } else { n }
}

// Refuses with 20 a list of `n` cards that is empty, has more than 64 or has no card of the number `card`.
fn named(n: usize, card: u32) -> Result<(), Refusal>
    ensures { result ≡ named_as n card }
{
    if (card as usize) < asked(n) {
        return Ok(());
    }
    Err(Refusal::CardList)
}

// Changes the location of the card with the number `card`; all else of the list stays as it was. Answers 0; or 20, and then changes nothing.
pub fn fleet_move(cards: &mut [Card], card: u32, location: u32) -> u32
    ensures { record { refusal = result; cards = cards.new } ≡ moved cards.old card location }
{
    match named(cards.len(), card) {
        Ok(()) => {
            cards[card as usize].location = location;
            0
        }
        Err(refusal) => u32::from(refusal),
    }
}

// Answers the number and the permitted speed of the first card with the lowest permitted speed on the packet's segment, or a refusal.
pub fn fleet_lowest(cards: &[Card], packet: &[u8]) -> Board
    ensures { result ≡ board packet.now cards.now }
{
    let n = asked(cards.len());
    let mut best = started(n, packet);
    for (i, card) in cards[..n].iter().enumerate() {
        best = next(packet, best, i, *card);
    }
    best
}

// Answers the number of the board's interface. Its name carries the number: an object that was built with a header of another number does not link.
pub fn fleet_interface_1() -> u32
    ensures { result ≡ 1 }
{
    INTERFACE
}
