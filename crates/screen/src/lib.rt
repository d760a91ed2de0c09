// The text of the wall screen: a line for each card of a cards file on the segment of a packet, or the line of a refusal.

#![tactic(auto)]

pub mod file;

ghost use Rattle.std.specs.Prelude.{◌≡◌, ◌+◌, ◌≤◌, ◌<◌, length, take};
ghost use Rattle.text.specs.words.Words.{Laid};
ghost use Rattle.speed_packet.specs.internal.Asking.{AcceptedPacket};
ghost use Rattle.screen.specs.File.{card_at, cards_from};
ghost use Rattle.screen.specs.Screen.{card_line, lines_after, text_of, screen_in};

use file::NUMBERS;
use fleet::Card;
use kinds::refusals::Refused;
use speed::Train;
use text::words::{put_labelled, put_word};

// Bytes of a room that holds any text of the screen.
pub const ROOM: usize = 4096;

// Numbers of a card.
const CARD: usize = 7;

// Makes the card `i` of a file from the file's numbers.
fn card(values: &[u32; NUMBERS], i: usize) -> Card
    requires { i < 64 }
    ensures { result ≡ card_at values.now i }
{
    let at = CARD * i;
    let train = Train {
        length: values[at],
        cant: values[at + 1],
        maximum: values[at + 5],
        freight_p: values[at + 2] == 1,
        freight_g: values[at + 3] == 1,
        passenger: values[at + 4] == 1,
    };
    Card {
        train,
        location: values[at + 6],
    }
}

// What stands in an array of cards where no card was put.
const NO_CARD: Card = Card {
    train: Train {
        length: 0,
        cant: 0,
        maximum: 0,
        freight_p: false,
        freight_g: false,
        passenger: false,
    },
    location: 0,
};

// Makes the `n` cards of a file from the file's numbers.
fn cards_in(values: &[u32; NUMBERS], n: usize) -> [Card; fleet::MOST]
    requires { n ≤ 64 }
    ensures { take n result ≡ cards_from n 0 values.now }
{
    let mut cards = [NO_CARD; fleet::MOST];
    for i in 0..n {
        cards[i] = card(values, i);
    }
    cards
}

// Writes the line of the card `i`, at `location` in cm and with `speed` in km/h, at the byte `at` of the room. Returns the place after it.
fn put_card(room: &mut [u8], at: usize, i: usize, location: u32, speed: u32) -> usize
    requires { (i < 64) × (at + 47 ≤ length room.old) }
    ensures { Laid room.old at (card_line i location speed) result room.new }
{
    let mut next = put_labelled(room, at, b"CARD ", i as u32);
    next = put_labelled(room, next, b" AT ", location);
    next = put_labelled(room, next, b" SPEED ", speed);
    put_word(room, next, b"\n")
}

// Writes a line for each card at the start of the room, with the speeds from an accepted packet. Returns the length of the text.
fn put_cards(cards: &[Card], packet: &[u8], room: &mut [u8]) -> usize
    requires { (length cards.now ≤ 64) × AcceptedPacket packet.now × (3008 ≤ length room.old) }
    ensures { Laid room.old 0 (lines_after packet.now cards.now (length cards.now)) result room.new }
{
    let mut next = 0;
    for (i, card) in cards.iter().enumerate() {
        let s = speed_question::of_packet(packet, card.train, card.location);
        next = put_card(room, next, i, card.location, s.speed);
    }
    next
}

// Writes the lines of the cards at the start of the room, or the line of the board's refusal. Returns the length of the text.
fn put_text(cards: &[Card], packet: &[u8], room: &mut [u8]) -> usize
    requires { (length cards.now ≤ 64) × (3008 ≤ length room.old) }
    ensures { Laid room.old 0 (text_of packet.now cards.now) result room.new }
{
    let board = fleet::fleet_lowest(cards, packet);
    if board.refusal != 0 {
        return text::put_refusal(board.refusal, board.place, room);
    }
    put_cards(cards, packet, room)
}

// Writes the text of the wall screen at the start of the room: the lines of the cards, or the line of the first refusal. Returns the length of the text.
pub fn screen(cards: &[u8], packet: &[u8], room: &mut [u8; ROOM]) -> usize
    ensures { record { length = result; room = room.new } ≡ screen_in cards.now packet.now room.old }
{
    let mut values = [0u32; NUMBERS];
    match file::read_cards(cards, &mut values) {
        Err(Refused(refusal, place)) => text::put_refusal(u32::from(refusal), place, room),
        Ok(n) => {
            let all = cards_in(&values, n);
            put_text(&all[..n], packet, room)
        }
    }
}
