// Field kinds of a journey's body, in packet order. `WIDTH` is in bits, `LARGEST` is the largest packet value.
ghost use Rattle.std.specs.Prelude.{◌||◌, ◌≡◌, ℕ, eqb, refl};
ghost use Rattle.kinds.specs.Kind.{Kind, up_to};
ghost use Rattle.kinds.specs.internal.Rules.{meaning};
ghost use Rattle.kinds.specs.journey.Kinds as kind;
ghost use Rattle.kinds.specs.journey.Kinds.{most_at, most_where};

use crate::{Rule, UpTo, up_to};

// Q_JP_Status: 0 invalid, 1 valid, 2 unavailable, 3 update, 4 overwrite.
#[derive(Drop)]
pub struct QJpStatus;

impl UpTo for QJpStatus {
    const WIDTH: u32 = 3;

    const LARGEST: u32 = 4;

    ghost WIDTH = { 3 };

    ghost LARGEST = { 4 };

    ghost kind = { kind.q_jp_status };

    ghost is = { refl };
}

// N_ITER_SP, the count of segments.
#[derive(Drop)]
pub struct NIterSp;

impl UpTo for NIterSp {
    const WIDTH: u32 = 8;

    const LARGEST: u32 = 255;

    ghost WIDTH = { 8 };

    ghost LARGEST = { 255 };

    ghost kind = { kind.n_iter_sp };

    ghost is = { refl };
}

// Q_SP_DIR: 0 reverse, 1 nominal.
#[derive(Drop)]
pub struct QSpDir;

impl UpTo for QSpDir {
    const WIDTH: u32 = 1;

    const LARGEST: u32 = 1;

    ghost WIDTH = { 1 };

    ghost LARGEST = { 1 };

    ghost kind = { kind.q_sp_dir };

    ghost is = { refl };
}

// NID_TP, the number of the timing point.
#[derive(Drop)]
pub struct NidTp;

impl UpTo for NidTp {
    const WIDTH: u32 = 32;

    const LARGEST: u32 = 4294967295;

    ghost WIDTH = { 32 };

    ghost LARGEST = { 4294967295 };

    ghost kind = { kind.nid_tp };

    ghost is = { refl };
}

// T_Latest_Arrival_Date, in days from 1 January 2010.
#[derive(Drop)]
pub struct TLatestArrivalDate;

impl UpTo for TLatestArrivalDate {
    const WIDTH: u32 = 15;

    const LARGEST: u32 = 32767;

    ghost WIDTH = { 15 };

    ghost LARGEST = { 32767 };

    ghost kind = { kind.t_latest_arrival_date };

    ghost is = { refl };
}

// T_Latest_Arrival_Seconds, in seconds of the day, up to 24:00:00.
#[derive(Drop)]
pub struct TLatestArrivalSeconds;

impl UpTo for TLatestArrivalSeconds {
    const WIDTH: u32 = 17;

    const LARGEST: u32 = 86400;

    ghost WIDTH = { 17 };

    ghost LARGEST = { 86400 };

    ghost kind = { kind.t_latest_arrival_seconds };

    ghost is = { refl };
}

// T_Arrival_Window, in seconds.
#[derive(Drop)]
pub struct TArrivalWindow;

impl UpTo for TArrivalWindow {
    const WIDTH: u32 = 10;

    const LARGEST: u32 = 1023;

    ghost WIDTH = { 10 };

    ghost LARGEST = { 1023 };

    ghost kind = { kind.t_arrival_window };

    ghost is = { refl };
}

// Q_TP_Alignment: 0 front, 1 middle, 2 rear.
#[derive(Drop)]
pub struct QTpAlignment;

impl UpTo for QTpAlignment {
    const WIDTH: u32 = 2;

    const LARGEST: u32 = 2;

    ghost WIDTH = { 2 };

    ghost LARGEST = { 2 };

    ghost kind = { kind.q_tp_alignment };

    ghost is = { refl };
}

// Q_Stop_Skip_Passes: 0 stopping point, 1 skipped stopping point, 2 passing point.
#[derive(Drop)]
pub struct QStopSkipPasses;

impl QStopSkipPasses {
    pub const PASSING: u32 = 2;
}

impl UpTo for QStopSkipPasses {
    const WIDTH: u32 = 2;

    const LARGEST: u32 = 2;

    ghost WIDTH = { 2 };

    ghost LARGEST = { 2 };

    ghost kind = { kind.q_stop_skip_passes };

    ghost is = { refl };
}

// Q_TP_Information: 0 none, 1 end of journey.
#[derive(Drop)]
pub struct QTpInformation;

impl UpTo for QTpInformation {
    const WIDTH: u32 = 2;

    const LARGEST: u32 = 1;

    ghost WIDTH = { 2 };

    ghost LARGEST = { 1 };

    ghost kind = { kind.q_tp_information };

    ghost is = { refl };
}

// Q_Day_Light_Saving, 0 or 1.
#[derive(Drop)]
pub struct QDayLightSaving;

impl UpTo for QDayLightSaving {
    const WIDTH: u32 = 1;

    const LARGEST: u32 = 1;

    ghost WIDTH = { 1 };

    ghost LARGEST = { 1 };

    ghost kind = { kind.q_day_light_saving };

    ghost is = { refl };
}

// A field kind of a timing point: numbers from 0 to `LARGEST`, but 0 alone at a passing point.
pub trait UnlessPassing {
    // Bits in a packet.
    const WIDTH: u32;

    const LARGEST: u32;

    ghost WIDTH: { ℕ };

    ghost LARGEST: { ℕ };

    // The document's kind, by Q_Stop_Skip_Passes.
    ghost kind: { ℕ → Kind };

    ghost is: { (stop_skip_passes : ℕ) → kind stop_skip_passes ≡ up_to WIDTH (most_at stop_skip_passes LARGEST) };

    // Returns the rule at a Q_Stop_Skip_Passes of `stop_skip_passes`.
    final fn rule(stop_skip_passes: u32) -> Rule
        ensures { meaning result ≡ kind stop_skip_passes }
    {
        if stop_skip_passes == QStopSkipPasses::PASSING {
            up_to(Self::WIDTH, 0)
        } else {
            up_to(Self::WIDTH, Self::LARGEST)
        }
    }
}

// Q_Opening_Door_Side: 0 none, 1 right, 2 left, 3 both; 0 at a passing point.
#[derive(Drop)]
pub struct QOpeningDoorSide;

impl UnlessPassing for QOpeningDoorSide {
    const WIDTH: u32 = 2;

    const LARGEST: u32 = 3;

    ghost WIDTH = { 2 };

    ghost LARGEST = { 3 };

    ghost kind = { kind.q_opening_door_side };

    ghost is = { λ _. refl };
}

// Q_Centralised_Opening, 0 or 1; 0 at a passing point.
#[derive(Drop)]
pub struct QCentralisedOpening;

impl UnlessPassing for QCentralisedOpening {
    const WIDTH: u32 = 1;

    const LARGEST: u32 = 1;

    ghost WIDTH = { 1 };

    ghost LARGEST = { 1 };

    ghost kind = { kind.q_centralised_opening };

    ghost is = { λ _. refl };
}

// Q_Relaxed_Coupler, 0 or 1; 0 at a passing point.
#[derive(Drop)]
pub struct QRelaxedCoupler;

impl UnlessPassing for QRelaxedCoupler {
    const WIDTH: u32 = 1;

    const LARGEST: u32 = 1;

    ghost WIDTH = { 1 };

    ghost LARGEST = { 1 };

    ghost kind = { kind.q_relaxed_coupler };

    ghost is = { λ _. refl };
}

// Q_Train_Hold, 0 or 1; 0 at a passing point.
#[derive(Drop)]
pub struct QTrainHold;

impl UnlessPassing for QTrainHold {
    const WIDTH: u32 = 1;

    const LARGEST: u32 = 1;

    ghost WIDTH = { 1 };

    ghost LARGEST = { 1 };

    ghost kind = { kind.q_train_hold };

    ghost is = { λ _. refl };
}

// T_Departure_Date, in days from 1 January 2010; 0 at a passing point.
#[derive(Drop)]
pub struct TDepartureDate;

impl UnlessPassing for TDepartureDate {
    const WIDTH: u32 = 15;

    const LARGEST: u32 = 32767;

    ghost WIDTH = { 15 };

    ghost LARGEST = { 32767 };

    ghost kind = { kind.t_departure_date };

    ghost is = { λ _. refl };
}

// T_Departure_Seconds, in seconds of the day, before 24:00:00; 0 at a passing point.
#[derive(Drop)]
pub struct TDepartureSeconds;

impl UnlessPassing for TDepartureSeconds {
    const WIDTH: u32 = 17;

    const LARGEST: u32 = 86399;

    ghost WIDTH = { 17 };

    ghost LARGEST = { 86399 };

    ghost kind = { kind.t_departure_seconds };

    ghost is = { λ _. refl };
}

// T_Minimum_Dwell_Time, in seconds; 0 at a passing point.
#[derive(Drop)]
pub struct TMinimumDwellTime;

impl UnlessPassing for TMinimumDwellTime {
    const WIDTH: u32 = 10;

    const LARGEST: u32 = 1023;

    ghost WIDTH = { 10 };

    ghost LARGEST = { 1023 };

    ghost kind = { kind.t_minimum_dwell_time };

    ghost is = { λ _. refl };
}

// Q_Automatic_Closing, 0 or 1; 0 at a passing point.
#[derive(Drop)]
pub struct QAutomaticClosing;

impl UnlessPassing for QAutomaticClosing {
    const WIDTH: u32 = 1;

    const LARGEST: u32 = 1;

    ghost WIDTH = { 1 };

    ghost LARGEST = { 1 };

    ghost kind = { kind.q_automatic_closing };

    ghost is = { λ _. refl };
}

// ---- fields of a temporary constraint

// Q_TC_Type: 0 additional speed restriction, 1 low adhesion, 2 and 3 driving modes.
#[derive(Drop)]
pub struct QTcType;

impl QTcType {
    // Type of an additional speed restriction.
    pub const SPEED: u32 = 0;

    // Type of a low adhesion.
    pub const ADHESION: u32 = 1;
}

impl UpTo for QTcType {
    const WIDTH: u32 = 2;

    const LARGEST: u32 = 3;

    ghost WIDTH = { 2 };

    ghost LARGEST = { 3 };

    ghost kind = { kind.q_tc_type };

    ghost is = { refl };
}

// Q_TC_Range: 0 has a start, 1 an end, 2 both, 3 neither, for the whole segment.
#[derive(Drop)]
pub struct QTcRange;

impl QTcRange {
    pub const STARTS: u32 = 0;

    pub const ENDS: u32 = 1;

    pub const BOTH: u32 = 2;
}

impl UpTo for QTcRange {
    const WIDTH: u32 = 2;

    const LARGEST: u32 = 3;

    ghost WIDTH = { 2 };

    ghost LARGEST = { 3 };

    ghost kind = { kind.q_tc_range };

    ghost is = { refl };
}

// D_TC_Start_Location, in cm; 0 where Q_TC_Range has no start.
#[derive(Drop)]
pub struct DTcStartLocation;

impl DTcStartLocation {
    pub const WIDTH: u32 = 24;

    pub const LARGEST: u32 = 16777215;

    // Returns the largest start in cm at Q_TC_Range `range`.
    pub fn most(range: u32) -> u32
        ensures { result ≡ most_where (eqb range 0 || eqb range 2) 16777215 }
    {
        if range == QTcRange::STARTS || range == QTcRange::BOTH {
            Self::LARGEST
        } else {
            0
        }
    }

    pub fn rule(range: u32) -> Rule
        ensures { meaning result ≡ kind.d_tc_start_location range }
    {
        up_to(Self::WIDTH, Self::most(range))
    }
}

// D_TC_End_Location, in cm; 0 where Q_TC_Range has no end.
#[derive(Drop)]
pub struct DTcEndLocation;

impl DTcEndLocation {
    pub const WIDTH: u32 = 24;

    pub const LARGEST: u32 = 16777215;

    // Returns the largest end in cm at Q_TC_Range `range`, other than `BOTH`.
    pub fn most(range: u32) -> u32
        ensures { result ≡ most_where (eqb range 1) 16777215 }
    {
        if range == QTcRange::ENDS {
            Self::LARGEST
        } else {
            0
        }
    }

    // Returns the rule at Q_TC_Range `range`: with `BOTH` the end is above `start`, in cm.
    pub fn rule(range: u32, start: u32) -> Rule
        ensures { meaning result ≡ kind.d_tc_end_location range start }
    {
        if range == QTcRange::BOTH {
            Rule::After { start }
        } else {
            up_to(Self::WIDTH, Self::most(range))
        }
    }
}

// Q_FRONT of a temporary constraint; 0 unless it is a speed restriction.
#[derive(Drop)]
pub struct QTcFront;

impl QTcFront {
    pub const WIDTH: u32 = 1;

    pub const LARGEST: u32 = 1;

    // Returns the largest Q_FRONT at Q_TC_Type `of`.
    pub fn most(of: u32) -> u32
        ensures { result ≡ most_where (eqb of 0) 1 }
    {
        if of == QTcType::SPEED {
            Self::LARGEST
        } else {
            0
        }
    }

    pub fn rule(of: u32) -> Rule
        ensures { meaning result ≡ kind.q_tc_front of }
    {
        up_to(Self::WIDTH, Self::most(of))
    }
}

// V_Speed_Level of a temporary constraint, in steps of 5 km/h; 0 unless it is a speed restriction.
#[derive(Drop)]
pub struct VSpeedLevel;

impl VSpeedLevel {
    pub const WIDTH: u32 = 7;

    pub const LARGEST: u32 = 120;

    // Returns the rule at Q_TC_Type `of`: a speed, or 0 where none is used.
    pub fn rule(of: u32) -> Rule
        ensures { meaning result ≡ kind.v_speed_level of }
    {
        if of == QTcType::SPEED {
            Rule::Speed
        } else {
            up_to(Self::WIDTH, 0)
        }
    }
}

// Q_Low_Adhesion_Rate of a temporary constraint; 0 unless it is a low adhesion.
#[derive(Drop)]
pub struct QLowAdhesionRate;

impl QLowAdhesionRate {
    pub const WIDTH: u32 = 3;

    pub const LARGEST: u32 = 5;

    // Returns the largest Q_Low_Adhesion_Rate at Q_TC_Type `of`.
    pub fn most(of: u32) -> u32
        ensures { result ≡ most_where (eqb of 1) 5 }
    {
        if of == QTcType::ADHESION {
            Self::LARGEST
        } else {
            0
        }
    }

    pub fn rule(of: u32) -> Rule
        ensures { meaning result ≡ kind.q_low_adhesion_rate of }
    {
        up_to(Self::WIDTH, Self::most(of))
    }
}
