// The frame of a packet: refusals 1, 2 and 3, the bit where the fields end, and the padding.
ghost use Rattle.std.specs.Prelude.{◌≡◌, ◌+◌, ◌*◌, ◌^◌, ◌≤◌, ◌<◌, length, drop};
ghost use Rattle.bits.specs.Bits.{bits_of_bytes};
ghost use Rattle.verdict.specs.internal.Verdict.{said};
ghost use Rattle.verdict.specs.internal.frame.Framed.{frame_of, one_or_end};

use grammar::segment::layout::HEADER_BYTES;
use kinds::refusals::{Refusal, Refused};
use kinds::{UpTo, header};

// Checks refusals 1, 2, 3, all at bit 0, and returns the bit where the fields end. `number` is the expected packet number.
pub fn judge_frame(s: &[u8], number: u32) -> Result<usize, Refused<u32>>
    ensures { said result ≡ frame_of number s.now }
{
    if s.len() < HEADER_BYTES {
        return Err(Refused(Refusal::ShortPacket, 0));
    }
    if bits::read_field(s, 0, header::NidPacketAto::WIDTH) != number {
        return Err(Refused(Refusal::PacketNumber, 0));
    }
    let body = bits::read_field(s, 8, header::LPacketAto::WIDTH) as usize;
    if s.len() == HEADER_BYTES + (body + 7) / 8 {
        Ok(8 * HEADER_BYTES + body)
    } else {
        Err(Refused(Refusal::PacketLength, 0))
    }
}

// Returns the place of the first padding bit that is 1, or the packet's length in bits if all are 0. The padding begins at bit `stop`.
pub fn first_one(s: &[u8], stop: usize) -> usize
    requires { (stop ≤ 8 * length s.now) × (8 * length s.now < stop + 8) × (stop < 2 ^ 32) }
    ensures { result ≡ one_or_end stop (drop stop (bits_of_bytes s.now)) }
{
    let padding = bits::read_field(s, stop, (8 * s.len() - stop) as u32);
    8 * s.len() - (32 - u32::leading_zeros(padding)) as usize
}
