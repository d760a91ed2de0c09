// One element of a speed profile: the lowest speeds of the entries that name the train, the element's speed, and whether it holds.

#![tactic(auto)]

pub mod profile;

ghost use Rattle.std.specs.Prelude.{◌≡◌, ◌&&◌, [], min, ◌<◌};
ghost use Rattle.speed.specs.Speed.{held_to, holds};
ghost use Rattle.speed_element.specs.internal.Elements.{none, counted, Distant, cant_of, no_lows, instead_from, Kept, Worked, OneMore, element_with};

use speed::Train;

// `NONE` and every larger number stand for no speed. Speeds are below it, so the lower of a speed and no speed is the speed, and no flag is needed.
pub const NONE: u32 = 1024;

// An entry by cant deficiency is one number, distance * SPEEDS + speed. `NO_FIGURE` and every larger number stand for no entry.
const NO_FIGURE: u64 = 4398046511104;

// More than any speed in km/h.
const SPEEDS: u64 = 1024;

// Distances, in mm, are counted modulo `DISTANCES`.
const DISTANCES: u64 = 18014398509481984;

// Added to a figure for each Q_DIFF: more than any cant deficiency.
const Q_DIFF: u64 = 4294967296;

// The Q_DIFF of entries that replace the speed, and of entries that only lower it. For speed a Q_DIFF stays as it is read: an enum would be a branch on each entry.
const REPLACING: u32 = 1;

const LOWERING: u32 = 2;

// The lowest speeds in km/h of the entries that name the train, for each Q_DIFF. `cant` is the lowest distance * SPEEDS + speed.
#[derive(Clone, Copy)]
pub struct Lows {
    pub cant: u64,
    pub replacing: u32,
    pub lowering: u32,
}

// An element whose entries are not read yet: its start in cm, V_STATIC in km/h, Q_FRONT, the count of its entries, and where they stand.
#[derive(Clone, Copy)]
pub struct Open {
    pub start: u32,
    pub v_static: u32,
    pub q_front: u32,
    pub count: u32,
    pub entries: usize,
}

// What was read at a place, and the place after it.
#[derive(Clone, Copy)]
pub struct ReadAt<T> {
    pub value: T,
    pub next: usize,
}

// The head of a segment: L_SP in cm, and the place where its speed profile starts.
#[derive(Clone, Copy)]
pub struct Head {
    pub lsp: u32,
    pub profile: usize,
}

// The first element of a speed profile, the count of changes that follow it, and the place of the first of them.
#[derive(Clone, Copy)]
pub struct First {
    pub open: Open,
    pub count: u32,
    pub next: usize,
}

// Where an element ends in cm, the element that follows, and the place after that one.
#[derive(Clone, Copy)]
pub struct Following {
    pub end: u32,
    pub open: Open,
    pub next: usize,
}

// Returns the lower of two speeds.
pub fn lower(a: u32, b: u32) -> u32
    ensures { result ≡ min a b }
{
    a.min(b)
}

// Returns the speed `v` if `so` and `member` are true, else a number that stands for no speed.
// For speed: a sum, and no branch, which would mispredict from entry to entry.
pub fn counted(so: bool, member: bool, v: u32) -> u32
    requires { v < none }
    ensures { result ≡ counted (so && member) v }
{
    v + NONE * (1 - so as u32 * member as u32)
}

// Returns how far the figure `class` lies below the train's cant deficiency, in mm; a number above any if it lies above, or if `q_diff` is not 0.
fn distance(train: Train, q_diff: u32, class: u32) -> u64
    requires { q_diff < 4 }
    ensures { Distant train q_diff class result }
{
    (DISTANCES + train.cant as u64 - (class as u64 + q_diff as u64 * Q_DIFF)) % DISTANCES
}

// Returns the speed of the nearest figure not above the train's, which `best` holds, or `v` if there is none.
fn by_cant(train: Train, best: u64, v: u32) -> u32
    ensures { result ≡ cant_of train best v }
{
    if best / SPEEDS <= train.cant as u64 {
        (best % SPEEDS) as u32
    } else {
        v
    }
}

// Returns the lowest speeds of no entry.
pub fn no_lows() -> Lows
    ensures { result ≡ no_lows }
{
    Lows {
        cant: NO_FIGURE,
        replacing: NONE,
        lowering: NONE,
    }
}

// Returns the speed `low`, or `v` if `low` stands for no speed.
fn instead(low: u32, v: u32) -> u32
    ensures { result ≡ instead_from low v [] }
{
    if low < NONE { low } else { v }
}

impl Lows {
    // Returns the lowest speeds with one entry more.
    // Of two entries by cant deficiency the lower number is the nearer figure, and of two equal figures the lower speed.
    // For speed: the entry is compared for every Q_DIFF, with no branch on its own.
    pub fn with(self, train: Train, q_diff: u32, class: u32, v: u32) -> Lows
        requires { Kept q_diff class v }
        ensures { OneMore train self q_diff class v result }
    {
        let far = distance(train, q_diff, class) * SPEEDS;
        let member = speed::belongs_to(train, class);
        Lows {
            cant: self.cant.min(far + v as u64),
            replacing: self.replacing.min(counted(q_diff == REPLACING, member, v)),
            lowering: self.lowering.min(counted(q_diff == LOWERING, member, v)),
        }
    }

    // Returns the lower of `held` and the element's speed for the train, from its V_STATIC `v_static` and these lowest speeds.
    pub fn lowered(self, train: Train, v_static: u32, held: u32) -> u32
        requires { v_static < none }
        ensures { Worked train self v_static held result }
    {
        let v = instead(self.replacing, by_cant(train, self.cant, v_static));
        held.min(v.min(self.lowering))
    }
}

impl Open {
    // Returns the place, in cm, before which the element holds, if it ends at `end`: with Q_FRONT 0 the train's length further on.
    pub fn until(self, train: Train, end: u32) -> u64
        ensures { result ≡ held_to train (element_with self []) end }
    {
        if self.q_front == 0 {
            end as u64 + train.length as u64
        } else {
            end as u64
        }
    }

    // Returns whether the element holds at `x`, in cm, if it ends at `end`. It does not depend on the entries.
    pub fn holds(self, train: Train, end: u32, x: u32) -> bool
        ensures { result ≡ holds train (element_with self []) end x }
    {
        self.start <= x && (x as u64) < self.until(train, end)
    }
}

// Returns the permitted speed in km/h, from the lowest speed `held` of all elements: 0 if none holds.
pub fn permitted(held: u32) -> u32
    ensures { result ≡ instead_from held 0 [] }
{
    instead(held, 0)
}
