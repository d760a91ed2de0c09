// Lowers a sheet's number to the packet's value: what judging a sheet and writing its packet share.
ghost use Rattle.std.specs.Prelude.{◌≡◌};
ghost use Rattle.kinds.specs.Tables.{cant_figures};
ghost use Rattle.kinds.specs.Kinds.{speed, nc_cd_diff, nc_diff, class, m_voltage, m_current};
ghost use Rattle.fields.specs.internal.lower.Lowered.{lowered};

use crate::tables;
use kinds::{UpTo, body};

// Returned where a number has no value: one more than the field's bits hold.
pub const NO_SPEED: u32 = 128;

pub const NO_CLASS: u32 = 16;

pub const NO_VOLTAGE: u32 = 16;

pub const NO_CURRENT: u32 = 1024;

// Returns the V_STATIC or V_DIFF of `a` km/h, in steps of 5 km/h.
pub fn speed_steps(a: u32) -> u32
    ensures { result ≡ lowered speed a }
{
    let v = a / body::VStatic::STEP;
    if v <= body::VStatic::LARGEST {
        v
    } else {
        NO_SPEED
    }
}

// Returns the NC_CDDIFF of the cant figure `a` mm.
// For speed: a figure can stand only near (a - 67) / 22 in the table, so one look decides.
fn cant_place(figures: &[u32; 11], a: u32) -> u32
    requires { figures.now ≡ cant_figures }
    ensures { result ≡ lowered nc_cd_diff a }
{
    let near = std::num::wrapping_sub_u32(a, 67) / 22;
    let i = if near <= body::NcCdDiff::LARGEST {
        near
    } else {
        0
    };
    if figures[i as usize] == a {
        i
    } else {
        NO_CLASS
    }
}

// Returns the NC_DIFF of the category `a`.
fn category(a: u32) -> u32
    ensures { result ≡ lowered nc_diff a }
{
    if a <= body::NcDiff::LARGEST {
        a
    } else {
        NO_CLASS
    }
}

// Returns the class of a specific entry: the NC_CDDIFF of `a` where `q` (Q_DIFF) is 0, else its NC_DIFF.
// For speed: both are worked out, and one is chosen. A branch on `q` would mispredict from entry to entry.
pub fn class_place(figures: &[u32; 11], q: u32, a: u32) -> u32
    requires { figures.now ≡ cant_figures }
    ensures { result ≡ lowered (class q) a }
{
    let cant = cant_place(figures, a);
    let other = category(a);
    if q == 0 { cant } else { other }
}

// Returns the M_VOLTAGE of `a` volts.
pub fn volts_place(a: u32) -> u32
    ensures { result ≡ lowered m_voltage a }
{
    match tables::VOLTS.iter().position(|&figure| figure == a) {
        Some(i) => i as u32,
        None => NO_VOLTAGE,
    }
}

// Returns the M_CURRENT of `a`, which is amperes + 1, in steps of 10 A; 0 is no limit.
pub fn current_steps(a: u32) -> u32
    ensures { result ≡ lowered m_current a }
{
    if a == 0 {
        return body::MCurrent::NO_LIMIT;
    }
    let v = (a - 1) / body::MCurrent::STEP;
    if v <= body::MCurrent::HIGHEST {
        v
    } else {
        NO_CURRENT
    }
}
