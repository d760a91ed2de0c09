// Judges a part of a packet several times, and counts the bytes of its fields in the sheet. Nothing is written.
ghost use Rattle.format.specs.Format.{times};
ghost use Rattle.packet_fields.specs.internal.Judging.{Over};
ghost use Rattle.packet_fields.specs.internal.times.Repeat.{Repeat, Judges};

use crate::{Judged, Spot};
use kinds::refusals::Refused;

// Runs `step`, which judges a part, `count` times: each time from the spot where the part before it ends.
#[inline(always)]
pub fn times<F: Fn(Spot) -> Judged<Spot>>(count: u32, spot: Spot, step: F) -> Judged<Spot>
    requires { (r : Repeat) × Judges r (F.pre step) (F.post step) spot }
    ensures { (r : Repeat) → Judges r (F.pre step) (F.post step) spot → Over (times r.part count) r.s r.stop spot.at spot.n result }
{
    let mut next = spot;
    for _ in 0..count {
        next = on!(step(next));
    }
    Ok(next)
}
