// The altitude of a segment in signed centimetres, from its packet.

#![tactic(auto)]

ghost use Rattle.std.specs.Prelude.{◌≡◌, ◌<◌, ◌^◌};
ghost use Rattle.altitude.specs.Altitude.{centimetres, altitude_of};

use grammar::link::Tree;
use grammar::segment::layout::ALTITUDE;
use kinds::refusals::Refused;
use kinds::{UpTo, body};

// Answer to an altitude question: 0, 0 and the altitude in cm; or a refusal's number, its place (a bit of the packet) and 0.
#[repr(C)]
#[derive(Clone, Copy)]
pub struct Altitude {
    pub refusal: u32,
    pub place: u32,
    pub altitude: i32,
}

// Centimetres that are added to an altitude when it is sent.
const ADDED: i32 = 100000;

// Returns the altitude in cm that is sent as `v`.
fn signed(v: u32) -> i32
    requires { v < 2 ^ 20 }
    ensures { result ≡ centimetres v }
{
    v as i32 - ADDED
}

// Judges a segment's packet and answers its altitude in cm, or its refusal.
pub fn altitude_of_packet(packet: &[u8]) -> Altitude
    ensures { result ≡ altitude_of packet.now }
{
    match packet_judge::judge_packet(Tree::Segment, packet) {
        Err(Refused(refusal, place)) => Altitude {
            refusal: u32::from(refusal),
            place,
            altitude: 0,
        },
        Ok(_) => Altitude {
            refusal: 0,
            place: 0,
            altitude: signed(bits::read_field(packet, ALTITUDE, body::MSpAltitude::WIDTH)),
        },
    }
}
