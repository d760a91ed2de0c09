// The two tables of figures, which both conversions look up.
ghost use Rattle.std.specs.Prelude.{◌≡◌};
ghost use Rattle.kinds.specs.Tables.{cant_figures};

// Cant deficiencies in mm; the index is NC_CDDIFF.
pub const CANT_FIGURES: [u32; 11] = [80, 100, 130, 150, 165, 180, 210, 225, 245, 275, 300];

// Rated voltages in volts; the index is M_VOLTAGE.
pub const VOLTS: [u32; 6] = [0, 25000, 15000, 3000, 1500, 750];

pub fn cant_figures() -> [u32; 11]
    ensures { result ≡ cant_figures }
{
    CANT_FIGURES
}
