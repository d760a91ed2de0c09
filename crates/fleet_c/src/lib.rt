// The board's two operations and its interface's number, under the names that the customer's server links. None has a `requires`: any list, bytes and numbers may be handed over.

#![tactic(auto)]

ghost use Rattle.std.specs.Prelude.{◌≡◌};
ghost use Rattle.fleet.specs.Fleet.{moved, board};

use fleet::{Board, Card};

// Changes the location of the card with the number `card`; all else of the list stays as it was. Answers 0; or 20, and then changes nothing.
#[unsafe(no_mangle)]
pub extern "C" fn fleet_move(cards: &mut [Card], card: u32, location: u32) -> u32
    ensures { record { refusal = result; cards = cards.new } ≡ moved cards.old card location }
{
    fleet::fleet_move(cards, card, location)
}

// Answers the number and the permitted speed of the first card with the lowest permitted speed on the packet's segment, or a refusal.
#[unsafe(no_mangle)]
pub extern "C" fn fleet_lowest(cards: &[Card], packet: &[u8]) -> Board
    ensures { result ≡ board packet.now cards.now }
{
    fleet::fleet_lowest(cards, packet)
}

// Answers the number of the board's interface. Its name carries the number: an object that was built with a header of another number does not link.
#[unsafe(no_mangle)]
pub extern "C" fn fleet_interface_1() -> u32
    ensures { result ≡ 1 }
{
    fleet::fleet_interface_1()
}
