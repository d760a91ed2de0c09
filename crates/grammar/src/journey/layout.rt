// Layout of a journey's packet in bits: places of fields, from the start of their part, and lengths of parts.
use crate::segment::layout::BODY;
use kinds::UpTo;
use kinds::body::{MCurrent, MSpVersion, NIter, NidC, NidSp};
use kinds::journey::{
    DTcEndLocation, DTcStartLocation, NIterSp, NidTp, QAutomaticClosing, QCentralisedOpening,
    QDayLightSaving, QJpStatus, QLowAdhesionRate, QOpeningDoorSide, QRelaxedCoupler, QSpDir,
    QStopSkipPasses, QTcFront, QTcRange, QTcType, QTpAlignment, QTpInformation, QTrainHold,
    TArrivalWindow, TDepartureDate, TDepartureSeconds, TLatestArrivalDate, TLatestArrivalSeconds,
    TMinimumDwellTime, UnlessPassing, VSpeedLevel,
};

// Place of Q_JP_Status, the first field of the body, in bits from the packet's start.
pub const STATUS: usize = BODY;

// Bits of Q_JP_Status and N_ITER_SP.
pub const COUNTS_WIDTH: u32 = QJpStatus::WIDTH + NIterSp::WIDTH;

// Place of the first segment, in bits from the packet's start.
pub const SEGMENTS: usize = STATUS + COUNTS_WIDTH as usize;

// Place of NID_SP in a segment, in bits from its start.
pub const IDENTITY: usize = NidC::WIDTH as usize;

// Place of the major version in a segment, in bits from its start.
pub const VERSIONS: usize = IDENTITY + NidSp::WIDTH as usize;

// Bits of a segment from the major version on, up to its timing points.
pub const VERSIONS_WIDTH: u32 = 2 * MSpVersion::WIDTH + QSpDir::WIDTH + NIter::WIDTH;

// Bits of a segment before its timing points.
pub const SEGMENT_HEAD: usize = VERSIONS + VERSIONS_WIDTH as usize;

// Place of T_Latest_Arrival_Date in a timing point, in bits from its start.
pub const LATEST: usize = NidTp::WIDTH as usize;

// Place of T_Arrival_Window in a timing point, in bits from its start.
pub const MARKS: usize = LATEST
    + (TLatestArrivalDate::WIDTH + TLatestArrivalSeconds::WIDTH) as usize;

// Place of Q_Opening_Door_Side in a timing point, in bits from its start.
pub const DOORS: usize = MARKS
    + (TArrivalWindow::WIDTH
        + QTpAlignment::WIDTH
        + QStopSkipPasses::WIDTH
        + QTpInformation::WIDTH
        + QDayLightSaving::WIDTH) as usize;

// Place of T_Departure_Date in a timing point, in bits from its start.
pub const DEPARTURE: usize = DOORS
    + (QOpeningDoorSide::WIDTH
        + QCentralisedOpening::WIDTH
        + QRelaxedCoupler::WIDTH
        + QTrainHold::WIDTH) as usize;

// Bits of a timing point from T_Arrival_Window on, up to T_Departure_Date.
pub const MARKS_WIDTH: u32 = (DEPARTURE - MARKS) as u32;

// Place of T_Departure_Seconds in a timing point, in bits from its start.
pub const LEAVING: usize = DEPARTURE + TDepartureDate::WIDTH as usize;

// Place of T_Minimum_Dwell_Time in a timing point, in bits from its start.
pub const DWELL: usize = LEAVING + TDepartureSeconds::WIDTH as usize;

// Bits of T_Minimum_Dwell_Time and Q_Automatic_Closing.
pub const CLOSING_WIDTH: u32 = TMinimumDwellTime::WIDTH + QAutomaticClosing::WIDTH;

// Bits of a timing point: "A timing point has 129 bits".
pub const POINT: usize = DWELL + CLOSING_WIDTH as usize;

// Bits of Q_TC_Type, Q_TC_Range and D_TC_Start_Location.
pub const START_WIDTH: u32 = QTcType::WIDTH + QTcRange::WIDTH + DTcStartLocation::WIDTH;

// Place of D_TC_End_Location in a temporary constraint, in bits from its start.
pub const END: usize = START_WIDTH as usize;

// Place of Q_FRONT in a temporary constraint, in bits from its start.
pub const FRONT: usize = END + DTcEndLocation::WIDTH as usize;

// Bits of a temporary constraint from Q_FRONT on.
pub const FRONT_WIDTH: u32 = QTcFront::WIDTH
    + VSpeedLevel::WIDTH
    + QLowAdhesionRate::WIDTH
    + MCurrent::WIDTH;

// Bits of a temporary constraint.
pub const CONSTRAINT: usize = FRONT + FRONT_WIDTH as usize;
