// One segment of a journey, a leg, and one of its temporary constraints, as both media give them. Locations are in cm, speeds in km/h.

#![tactic(auto)]

ghost use Rattle.std.specs.Prelude.{◌≡◌, cond, ◌&&◌, ◌||◌, min, eqb, ltb, leb};
ghost use Rattle.legs.specs.Restricted.{uses_start, uses_end, begins_at, stops_at, held_until, holds_at};
ghost use Rattle.legs.specs.Travelled.{outside};
ghost use Rattle.leg_parts.specs.internal.Reading.{constraint_with, same_identity};

use kinds::journey::{QTcRange, QTcType};
use speed::Train;

// The segments of a journey: how many, and the place of the first.
#[derive(Clone, Copy)]
pub struct Legs {
    pub count: u32,
    pub first: usize,
}

// NID_C, NID_SP and version of a segment.
#[derive(Clone, Copy, Debug, PartialEq, Eq)]
pub struct Identity {
    pub nid_c: u32,
    pub nid_sp: u32,
    pub major: u32,
    pub minor: u32,
}

// A segment of a journey whose constraints are not read yet: its identity, Q_SP_DIR, the count of its constraints, and where they stand.
#[derive(Clone, Copy)]
pub struct LegHead {
    pub identity: Identity,
    pub direction: u32,
    pub count: u32,
    pub constraints: usize,
}

// A temporary constraint from Q_TC_Type, `of`, to V_Speed_Level, and the place after it. `of` and `range` are the numbers that stand there, as in
// `constraint_of`: each reader would turn them into an enum, and `constraint_with` would turn it back.
#[derive(Clone, Copy)]
pub struct ConstraintAt {
    pub of: u32,
    pub range: u32,
    pub start: u32,
    pub end: u32,
    pub q_front: u32,
    pub speed: u32,
    pub next: usize,
}

// Returns whether two segments have the same identity.
pub fn same(a: Identity, b: Identity) -> bool
    ensures { result ≡ same_identity a b }
{
    a == b
}

impl ConstraintAt {
    // Returns whether the range uses a location: it is `alone`, which uses that one only, or both.
    fn uses(self, alone: u32) -> bool
        ensures { result ≡ (eqb self.range alone || eqb self.range 2) }
    {
        self.range == alone || self.range == QTcRange::BOTH
    }

    // Returns whether the start, if it is used, is at or past `lsp`, the length of the segment.
    fn start_outside(self, lsp: u32) -> bool
        ensures { result ≡ (uses_start (constraint_with self) && leb lsp self.start) }
    {
        self.uses(QTcRange::STARTS) && lsp <= self.start
    }

    // Returns whether the end, if it is used, is 0 or past `lsp`, the length of the segment.
    fn end_outside(self, lsp: u32) -> bool
        ensures { result ≡ (uses_end (constraint_with self) && (eqb self.end 0 || ltb lsp self.end)) }
    {
        self.uses(QTcRange::ENDS) && (self.end == 0 || lsp < self.end)
    }

    // Returns whether this is a restriction of the speed that uses a location outside the segment of the length `lsp`.
    pub fn misplaced(self, lsp: u32) -> bool
        ensures { result ≡ (eqb self.of 0 && outside lsp (constraint_with self)) }
    {
        self.of == QTcType::SPEED && (self.start_outside(lsp) || self.end_outside(lsp))
    }

    // Returns where the constraint begins.
    fn begins_at(self) -> u32
        ensures { result ≡ begins_at (constraint_with self) }
    {
        if self.uses(QTcRange::STARTS) {
            self.start
        } else {
            0
        }
    }

    // Returns where the constraint stops in a segment of the length `lsp`.
    fn stops_at(self, lsp: u32) -> u32
        ensures { result ≡ stops_at lsp (constraint_with self) }
    {
        if self.uses(QTcRange::ENDS) {
            self.end
        } else {
            lsp
        }
    }

    // Returns the place before which the constraint holds: with Q_FRONT 0 the train's length further on.
    fn held_until(self, train: Train, lsp: u32) -> u64
        ensures { result ≡ held_until train lsp (constraint_with self) }
    {
        let stop = self.stops_at(lsp) as u64;
        if self.q_front == 0 {
            stop + train.length as u64
        } else {
            stop
        }
    }

    // Returns whether the constraint holds for `train` at the place `y`, counted from the start of its segment of the length `lsp`.
    fn holds(self, train: Train, lsp: u32, y: u32) -> bool
        ensures { result ≡ holds_at train lsp y (constraint_with self) }
    {
        self.of == QTcType::SPEED
            && self.begins_at() <= y
            && (y as u64) < self.held_until(train, lsp)
    }

    // Returns the lower of the speed `held` and the constraint's, if the constraint holds at `y`, else `held`.
    pub fn lowered(self, train: Train, lsp: u32, y: u32, held: u32) -> u32
        ensures { result ≡ cond (holds_at train lsp y (constraint_with self)) (min held self.speed) held }
    {
        if self.holds(train, lsp, y) {
            held.min(self.speed)
        } else {
            held
        }
    }
}
