// Field kinds of a segment's body, in packet order. `WIDTH` is in bits, `LARGEST` is the largest packet value.
ghost use Rattle.std.specs.Prelude.{◌≡◌, refl};
ghost use Rattle.kinds.specs.Kinds.{nid_c, nid_sp, m_sp_version, l_sp, d_eoa_offset, q_utc_offset, m_sp_altitude, speed, q_front, n_iter, q_diff, nc_cd_diff, nc_diff, class, d_location, m_voltage, most_traction, nid_c_traction, m_current};
ghost use Rattle.kinds.specs.internal.Rules.{Keeps, meaning};

use crate::refusals::Refusal;
use crate::{Rule, UpTo, up_to};

// NID_C, the number of the country or region.
#[derive(Drop)]
pub struct NidC;

impl UpTo for NidC {
    const WIDTH: u32 = 10;

    const LARGEST: u32 = 1023;

    ghost WIDTH = { 10 };

    ghost LARGEST = { 1023 };

    ghost kind = { nid_c };

    ghost is = { refl };
}

// NID_SP, the number of the segment.
#[derive(Drop)]
pub struct NidSp;

impl UpTo for NidSp {
    const WIDTH: u32 = 32;

    const LARGEST: u32 = 4294967295;

    ghost WIDTH = { 32 };

    ghost LARGEST = { 4294967295 };

    ghost kind = { nid_sp };

    ghost is = { refl };
}

// Half of M_SP_Version: the major or the minor version.
#[derive(Drop)]
pub struct MSpVersion;

impl UpTo for MSpVersion {
    const WIDTH: u32 = 8;

    const LARGEST: u32 = 255;

    ghost WIDTH = { 8 };

    ghost LARGEST = { 255 };

    ghost kind = { m_sp_version };

    ghost is = { refl };
}

// L_SP, the length of the segment in cm.
#[derive(Drop)]
pub struct LSp;

impl LSp {
    pub const WIDTH: u32 = 24;

    pub const LARGEST: u32 = 16777215;

    pub const LEAST: u32 = 1;

    // Returns the rule for a length of `LEAST` to `LARGEST` cm.
    pub fn rule() -> Rule
        ensures { Keeps l_sp Self.WIDTH Self.LARGEST result }
    {
        Rule::Range {
            width: Self::WIDTH,
            least: Self::LEAST,
            largest: Self::LARGEST,
            refusal: Refusal::FieldValue,
        }
    }
}

// D_EoA_Offset, in cm.
#[derive(Drop)]
pub struct DEoAOffset;

impl UpTo for DEoAOffset {
    const WIDTH: u32 = 24;

    const LARGEST: u32 = 16777215;

    ghost WIDTH = { 24 };

    ghost LARGEST = { 16777215 };

    ghost kind = { d_eoa_offset };

    ghost is = { refl };
}

// Q_UTC_Offset, a number without a unit.
#[derive(Drop)]
pub struct QUtcOffset;

impl UpTo for QUtcOffset {
    const WIDTH: u32 = 7;

    const LARGEST: u32 = 112;

    ghost WIDTH = { 7 };

    ghost LARGEST = { 112 };

    ghost kind = { q_utc_offset };

    ghost is = { refl };
}

// M_SP_Altitude, in cm, with 100,000 added.
#[derive(Drop)]
pub struct MSpAltitude;

impl UpTo for MSpAltitude {
    const WIDTH: u32 = 20;

    const LARGEST: u32 = 1048575;

    ghost WIDTH = { 20 };

    ghost LARGEST = { 1048575 };

    ghost kind = { m_sp_altitude };

    ghost is = { refl };
}

// V_STATIC, or V_DIFF of a specific entry, in steps of 5 km/h.
#[derive(Drop)]
pub struct VStatic;

impl VStatic {
    pub const WIDTH: u32 = 7;

    pub const LARGEST: u32 = 120;

    pub const STEP: u32 = 5;

    pub fn rule() -> Rule
        ensures { Keeps speed Self.WIDTH Self.LARGEST result }
    {
        Rule::Speed
    }
}

// Q_FRONT of an element: 0 delays its end by the length of the train, 1 does not.
#[derive(Drop)]
pub struct QFront;

impl UpTo for QFront {
    const WIDTH: u32 = 1;

    const LARGEST: u32 = 1;

    ghost WIDTH = { 1 };

    ghost LARGEST = { 1 };

    ghost kind = { q_front };

    ghost is = { refl };
}

// N_ITER, a count of entries, changes, timing points or temporary constraints, up to the limit of its list.
#[derive(Drop)]
pub struct NIter;

impl NIter {
    pub const WIDTH: u32 = 5;

    pub const LARGEST: u32 = 31;

    pub fn rule(most: u32) -> Rule
        ensures { Keeps (n_iter most) Self.WIDTH most result }
    {
        up_to(Self::WIDTH, most)
    }
}

// Q_DIFF of a specific entry, which says what the class of the entry means.
#[derive(Drop)]
pub struct QDiff;

impl UpTo for QDiff {
    const WIDTH: u32 = 2;

    const LARGEST: u32 = 2;

    ghost WIDTH = { 2 };

    ghost LARGEST = { 2 };

    ghost kind = { q_diff };

    ghost is = { refl };
}

// NC_CDDIFF, the class of an entry with Q_DIFF 0: a place in the table of cant figures, from 0.
#[derive(Drop)]
pub struct NcCdDiff;

impl NcCdDiff {
    pub const WIDTH: u32 = 4;

    pub const LARGEST: u32 = 10;

    pub fn rule() -> Rule
        ensures { Keeps nc_cd_diff Self.WIDTH Self.LARGEST result }
    {
        Rule::Cant
    }
}

// NC_DIFF, the class of an entry with Q_DIFF 1 or 2: a train category.
#[derive(Drop)]
pub struct NcDiff;

impl UpTo for NcDiff {
    const WIDTH: u32 = 4;

    const LARGEST: u32 = 2;

    ghost WIDTH = { 4 };

    ghost LARGEST = { 2 };

    ghost kind = { nc_diff };

    ghost is = { refl };
}

// D_Location of a change, in cm: above the last location and below L_SP.
#[derive(Drop)]
pub struct DLocation;

impl DLocation {
    pub const WIDTH: u32 = 24;

    pub const LARGEST: u32 = 16777215;

    pub fn rule(last: u32, lsp: u32) -> Rule
        ensures { Keeps (d_location last lsp) Self.WIDTH Self.LARGEST result }
    {
        Rule::Location { last, lsp }
    }
}

// M_VOLTAGE, a place in the table of volts, from 0.
#[derive(Drop)]
pub struct MVoltage;

impl MVoltage {
    pub const WIDTH: u32 = 4;

    pub const LARGEST: u32 = 5;

    pub fn rule() -> Rule
        ensures { Keeps m_voltage Self.WIDTH Self.LARGEST result }
    {
        Rule::Volts
    }
}

// NID_CTRACTION, which is 0 where M_VOLTAGE is 0.
// It and three of a journey's constraint have a `most` of their own, and no trait: it would ask five members of each for one call in common.
#[derive(Drop)]
pub struct NidCTraction;

impl NidCTraction {
    pub const WIDTH: u32 = 10;

    pub const LARGEST: u32 = 1023;

    // Returns the largest value at the voltage `voltage`: 0 where that is 0.
    pub fn most(voltage: u32) -> u32
        ensures { result ≡ most_traction voltage }
    {
        if voltage == 0 { 0 } else { Self::LARGEST }
    }

    // Returns the rule at M_VOLTAGE `voltage`.
    pub fn rule(voltage: u32) -> Rule
        ensures { meaning result ≡ nid_c_traction voltage }
    {
        up_to(Self::WIDTH, Self::most(voltage))
    }
}

// M_CURRENT, in steps of 10 A up to `HIGHEST`, or `NO_LIMIT`.
#[derive(Drop)]
pub struct MCurrent;

impl MCurrent {
    pub const WIDTH: u32 = 10;

    pub const LARGEST: u32 = 1023;

    pub const NO_LIMIT: u32 = 1023;

    pub const HIGHEST: u32 = 1000;

    pub const STEP: u32 = 10;

    pub fn rule() -> Rule
        ensures { Keeps m_current Self.WIDTH Self.LARGEST result }
    {
        Rule::Current
    }
}

// Returns the rule for the class of a specific entry: NC_CDDIFF where `q_diff` is 0, else NC_DIFF.
pub fn class_at(q_diff: u32) -> Rule
    ensures { meaning result ≡ class q_diff }
{
    if q_diff == 0 {
        NcCdDiff::rule()
    } else {
        NcDiff::rule()
    }
}
