// A train of a speed question: its measures, which of them are allowed, and the categories that it belongs to.

#![tactic(auto)]

ghost use Rattle.std.specs.Prelude.{◌≡◌, false, ◌%◌, get_or};
ghost use Rattle.speed.specs.Speed.{valid_train, figure, limited, memberships};

use fields::tables;

// A train: `length` in cm, 1 to 150,000; cant deficiency `cant` in mm, one of eleven figures; its own `maximum` speed in km/h, 1 to 600;
// whether it is freight in P position, freight in G position, a passenger train.
#[repr(C)]
#[derive(Clone, Copy)]
pub struct Train {
    pub length: u32,
    pub cant: u32,
    pub maximum: u32,
    pub freight_p: bool,
    pub freight_g: bool,
    pub passenger: bool,
}

// Length in cm of the longest train that is allowed.
pub const LONGEST: u32 = 150000;

// The highest maximum speed of a train that is allowed, in km/h.
pub const FASTEST: u32 = 600;

// Q_DIFF of a specific entry whose class is a cant deficiency.
pub const OF_CANT: u32 = 0;

// Returns whether `cant`, in mm, is one of the eleven cant deficiencies of the table.
fn is_figure(cant: u32) -> bool
    ensures { result ≡ figure cant }
{
    let figures = tables::cant_figures();
    fields::lower::class_place(&figures, OF_CANT, cant) < fields::lower::NO_CLASS
}

// Returns whether the length, the maximum speed and the cant deficiency of `train` are allowed.
#[tactic(auto, using(crate::proofs::Laws::valid_slow))]
pub fn valid(train: Train) -> bool
    ensures { result ≡ valid_train train }
{
    (1..=LONGEST).contains(&train.length)
        && (1..=FASTEST).contains(&train.maximum)
        && is_figure(train.cant)
}

// Returns the lower of the train's maximum and `v`, the speed of the profile, both in km/h.
pub fn limited(train: Train, v: u32) -> u32
    ensures { result ≡ limited train v }
{
    train.maximum.min(v)
}

// Returns whether `train` belongs to `category`, which counts modulo 32: 0 freight in P position, 1 freight in G position, 2 passenger, others none.
// For speed, the three memberships are bits of one number, so that there is no branch on `category`.
pub fn belongs_to(train: Train, category: u32) -> bool
    ensures { result ≡ get_or (memberships train) (category % 32) false }
{
    let all = train.freight_p as u32 + 2 * train.freight_g as u32 + 4 * train.passenger as u32;
    (all >> (category % 32)) % 2 == 1
}
