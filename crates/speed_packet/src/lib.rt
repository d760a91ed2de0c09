// The speed profile of an accepted packet, read at bits of the packet. What was accepted is not judged again.
// Locations and lengths are in cm, speeds in km/h.

#![tactic(auto)]

ghost use Rattle.std.specs.Prelude.{◌≡◌};
ghost use Rattle.kinds.specs.Tables.{cant_figures};
ghost use Rattle.grammar.specs.segment.Segment as segment;
ghost use Rattle.speed_element.specs.internal.Reading.{Readable, Opens, Ended, NextRead, FirstRead, HeadRead};
ghost use Rattle.speed_element.specs.internal.Passing.{Passed};
ghost use Rattle.speed_packet.specs.internal.Asking.{AcceptedPacket, numbers_of_packet, Reads};

use fields::{raise, tables};
use grammar::segment::layout::{COUNT, ELEMENT, ENTRY, LENGTH, LOCATION, PROFILE};
use kinds::body;
use speed::Train;
use speed_element::profile::Profile;
use speed_element::{First, Following, Head, Lows, Open, ReadAt, profile};

// Speed profiles in packets, at bits.
pub struct Packet;

impl Profile for Packet {
    // The cant figures, in mm.
    type Tables = [u32; 11];

    ghost reads = { Reads };

    ghost accepts = { AcceptedPacket };

    ghost numbers = { numbers_of_packet };

    ghost are_tables = { λ figures. figures ≡ cant_figures };

    // Returns the cant figures.
    fn tables() -> [u32; 11] {
        tables::CANT_FIGURES
    }

    // Reads the entry at the bit `at`, of 13 bits, at once.
    fn entry(s: &[u8], at: usize, figures: &[u32; 11], train: Train, lows: Lows) -> ReadAt<Lows> {
        let t = bits::read_window(s, at, ENTRY as u32);
        let q_diff = t / 2048;
        let class = raise::class(figures, q_diff, t / 128 % 16);
        ReadAt {
            value: lows.with(train, q_diff, class, raise::speed(t % 128)),
            next: at + ENTRY,
        }
    }

    // Reads the element at the bit `at`, up to its entries, at once.
    fn element(s: &[u8], at: usize, start: u32) -> ReadAt<Open> {
        let t = bits::read_window(s, at, ELEMENT as u32);
        let count = t % 32;
        let entries = at + ELEMENT;
        ReadAt {
            value: Open {
                start,
                v_static: raise::speed(t / 64),
                q_front: t / 32 % 2,
                count,
                entries,
            },
            next: entries + ENTRY * count as usize,
        }
    }

    // Reads the location at the bit `at`, in cm.
    fn location(s: &[u8], at: usize) -> ReadAt<u32> {
        ReadAt {
            value: bits::read_window(s, at, body::DLocation::WIDTH),
            next: at + LOCATION,
        }
    }

    // Reads the count at the bit `at`.
    fn count(s: &[u8], at: usize) -> ReadAt<u32> {
        ReadAt {
            value: bits::read_window(s, at, body::NIter::WIDTH),
            next: at + COUNT,
        }
    }

    // Reads L_SP. The speed profile always starts at the same bit.
    fn head(packet: &[u8]) -> Head {
        Head {
            lsp: bits::read_window(packet, LENGTH, body::LSp::WIDTH),
            profile: PROFILE,
        }
    }
}

// Returns the lowest speed that holds at `x`: of the speed `held` so far, and of the element `open`, which ends at `end`.
pub fn ended(s: &[u8], open: Open, train: Train, held: u32, end: u32, x: u32) -> u32
    requires { Opens (Reads s.now) «open» }
    ensures { Ended (Reads s.now) train held end x «open» result }
{
    profile::ended::<Packet>(s, open, train, held, end, x)
}

// Reads the next of the `left` changes at the bit `at`: the element `open` ends at its location. If none is left, `open` ends at `lsp`.
pub fn next(s: &[u8], open: Open, at: usize, left: u64, lsp: u32) -> Following
    requires { Readable (Reads s.now) (segment.changes segment.profile lsp «open».start left) at }
    ensures { NextRead (Reads s.now) lsp «open» left at result }
{
    profile::next::<Packet>(s, open, at, left, lsp)
}

// Reads the first element of the speed profile at the bit `at`, and the count of its changes. `lsp` is the segment's length.
pub fn first(s: &[u8], at: usize, lsp: u32) -> First
    requires { Readable (Reads s.now) (segment.part segment.profile 31 lsp) at }
    ensures { FirstRead (Reads s.now) at result }
{
    profile::first::<Packet>(s, at, lsp)
}

// Reads L_SP of an accepted packet, and finds its speed profile.
pub fn head(packet: &[u8]) -> Head
    requires { AcceptedPacket packet.now }
    ensures { HeadRead (Reads packet.now) (numbers_of_packet packet.now) result.lsp result.profile }
{
    Packet::head(packet)
}

// Returns the lowest speed that holds for `train` at `x` from the start of an accepted packet's segment: of the speed `held`, and of the
// elements of the segment. `head` is what the function of that name returned for the packet.
pub fn passed(packet: &[u8], head: Head, train: Train, held: u32, x: u32) -> u32
    requires { HeadRead (Reads packet.now) (numbers_of_packet packet.now) head.lsp head.profile }
    ensures { Passed train (numbers_of_packet packet.now) x held result }
{
    profile::passed::<Packet>(packet, head, train, held, x)
}
