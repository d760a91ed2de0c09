// Verdicts on a packet and on a sheet: the size of the conversion's result, or a refusal with its place.

#![tactic(auto)]

pub mod frame;

// A place that judging has reached, and what is counted before it: a bit of a packet and bytes of its sheet,
// or a byte of a sheet and bits of its packet, modulo 2^32.
#[derive(Clone, Copy, Debug, PartialEq, Eq)]
pub struct Spot<N> {
    pub at: usize,
    pub n: N,
}
