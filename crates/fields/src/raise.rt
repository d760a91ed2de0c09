// Raises a packet's value to the number that the sheet has for it: what writing a sheet and asking a packet for a speed share.
ghost use Rattle.std.specs.Prelude.{◌≡◌, ◌<◌, true, if◌then◌else◌};
ghost use Rattle.kinds.specs.Kinds as kinds;
ghost use Rattle.kinds.specs.Tables.{cant_figures};

use crate::tables;
use kinds::body;

// Returns the speed in km/h of `v`, a V_STATIC or V_DIFF of 7 bits.
pub fn speed(v: u32) -> u32
    requires { v < 128 }
    ensures { result ≡ (kinds.speed).raise v }
{
    v * body::VStatic::STEP
}

// Returns `a` where `so` is true, else `b`.
fn chosen(so: bool, a: u32, b: u32) -> u32
    ensures { result ≡ (if so then a else b) }
{
    if so { a } else { b }
}

// Returns the number of a specific entry's class `v`: a cant figure in mm where `q_diff` is 0, else `v`.
// For speed: a figure is looked up in any case. A branch on `q_diff` would mispredict from entry to entry.
pub fn class(figures: &[u32; 11], q_diff: u32, v: u32) -> u32
    requires { (figures.now ≡ cant_figures) × ((kinds.class q_diff).allowed v ≡ true) }
    ensures { result ≡ (kinds.class q_diff).raise v }
{
    let by_cant = q_diff == 0;
    let figure = figures[chosen(by_cant, v, 0) as usize];
    chosen(by_cant, figure, v)
}

// Returns the rated voltage in volts of the M_VOLTAGE `v`.
pub fn volts(v: u32) -> u32
    requires { (kinds.m_voltage).allowed v ≡ true }
    ensures { result ≡ (kinds.m_voltage).raise v }
{
    tables::VOLTS[v as usize]
}

// Returns the number of the M_CURRENT `v`: amperes + 1, or 0 for no limit.
pub fn current(v: u32) -> u32
    requires { (kinds.m_current).allowed v ≡ true }
    ensures { result ≡ (kinds.m_current).raise v }
{
    if v == body::MCurrent::NO_LIMIT {
        0
    } else {
        v * body::MCurrent::STEP + 1
    }
}
