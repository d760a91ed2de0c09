// Parts of a segment that have changes, and tables of its rows of fields. The tree itself is definitions.
pub mod layout;

ghost use Rattle.std.specs.Prelude.{◌≡◌};
ghost use Rattle.grammar.specs.internal.segment.Parts.{header_widths, header_most, identity_widths, identity_most, offset_widths, offset_most};

use kinds::UpTo;
use kinds::body::{DEoAOffset, MSpAltitude, MSpVersion, NidC, NidSp, QUtcOffset};
use kinds::header::{NPacketCounter, NidEngine, TTimestampDate, TTimestampSeconds};

// A part with a list of changes: the speed profile, the rated voltage, or the current limitation.
#[derive(Clone, Copy, Debug, PartialEq, Eq)]
pub enum Part {
    Speeds,
    Volts,
    Amperes,
}

// Most changes of the rated voltage, and most changes of the current limitation.
pub const WIRE_CHANGES: u32 = 31;

// Returns the widths in bits of NID_ENGINE to N_Packet_Counter.
pub fn header_widths() -> [u32; 4]
    ensures { result ≡ header_widths }
{
    [
        NidEngine::WIDTH,
        TTimestampDate::WIDTH,
        TTimestampSeconds::WIDTH,
        NPacketCounter::WIDTH,
    ]
}

// Returns the largest values of NID_ENGINE to N_Packet_Counter.
pub fn header_most() -> [u32; 4]
    ensures { result ≡ header_most }
{
    [
        NidEngine::LARGEST,
        TTimestampDate::LARGEST,
        TTimestampSeconds::LARGEST,
        NPacketCounter::LARGEST,
    ]
}

// Returns the widths in bits of NID_C, NID_SP and the two versions.
pub fn identity_widths() -> [u32; 4]
    ensures { result ≡ identity_widths }
{
    [
        NidC::WIDTH,
        NidSp::WIDTH,
        MSpVersion::WIDTH,
        MSpVersion::WIDTH,
    ]
}

// Returns the largest values of NID_C, NID_SP and the two versions.
pub fn identity_most() -> [u32; 4]
    ensures { result ≡ identity_most }
{
    [
        NidC::LARGEST,
        NidSp::LARGEST,
        MSpVersion::LARGEST,
        MSpVersion::LARGEST,
    ]
}

// Returns the widths in bits of D_EoA_Offset, Q_UTC_Offset and M_SP_Altitude.
pub fn offset_widths() -> [u32; 3]
    ensures { result ≡ offset_widths }
{
    [DEoAOffset::WIDTH, QUtcOffset::WIDTH, MSpAltitude::WIDTH]
}

// Returns the largest values of D_EoA_Offset, Q_UTC_Offset and M_SP_Altitude.
pub fn offset_most() -> [u32; 3]
    ensures { result ≡ offset_most }
{
    [
        DEoAOffset::LARGEST,
        QUtcOffset::LARGEST,
        MSpAltitude::LARGEST,
    ]
}
