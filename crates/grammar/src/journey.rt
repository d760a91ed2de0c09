// Tables of a journey's rows of fields, and the most temporary constraints. The tree itself is definitions.
pub mod layout;

ghost use Rattle.std.specs.Prelude.{◌≡◌};
ghost use Rattle.grammar.specs.internal.journey.Parts.{segment_widths, segment_most, arrival_widths, arrival_most, stopping_widths, stopping_most};

use kinds::UpTo;
use kinds::body::{MSpVersion, NidC, NidSp};
use kinds::journey::{
    NidTp, QAutomaticClosing, QCentralisedOpening, QDayLightSaving, QOpeningDoorSide,
    QRelaxedCoupler, QSpDir, QStopSkipPasses, QTpAlignment, QTpInformation, QTrainHold,
    TArrivalWindow, TDepartureDate, TDepartureSeconds, TLatestArrivalDate, TLatestArrivalSeconds,
    TMinimumDwellTime, UnlessPassing,
};

// Most temporary constraints: "up to 31 constraints per segment".
pub const CONSTRAINTS: u32 = 31;

// Returns the widths in bits of NID_C to Q_SP_DIR of a segment.
pub fn segment_widths() -> [u32; 5]
    ensures { result ≡ segment_widths }
{
    [
        NidC::WIDTH,
        NidSp::WIDTH,
        MSpVersion::WIDTH,
        MSpVersion::WIDTH,
        QSpDir::WIDTH,
    ]
}

// Returns the largest values of NID_C to Q_SP_DIR of a segment.
pub fn segment_most() -> [u32; 5]
    ensures { result ≡ segment_most }
{
    [
        NidC::LARGEST,
        NidSp::LARGEST,
        MSpVersion::LARGEST,
        MSpVersion::LARGEST,
        QSpDir::LARGEST,
    ]
}

// Returns the widths in bits of NID_TP to Q_TP_Alignment of a timing point.
pub fn arrival_widths() -> [u32; 5]
    ensures { result ≡ arrival_widths }
{
    [
        NidTp::WIDTH,
        TLatestArrivalDate::WIDTH,
        TLatestArrivalSeconds::WIDTH,
        TArrivalWindow::WIDTH,
        QTpAlignment::WIDTH,
    ]
}

// Returns the largest values of NID_TP to Q_TP_Alignment of a timing point.
pub fn arrival_most() -> [u32; 5]
    ensures { result ≡ arrival_most }
{
    [
        NidTp::LARGEST,
        TLatestArrivalDate::LARGEST,
        TLatestArrivalSeconds::LARGEST,
        TArrivalWindow::LARGEST,
        QTpAlignment::LARGEST,
    ]
}

// Returns the widths in bits of Q_TP_Information to Q_Automatic_Closing of a timing point.
pub fn stopping_widths() -> [u32; 10]
    ensures { result ≡ stopping_widths }
{
    [
        QTpInformation::WIDTH,
        QDayLightSaving::WIDTH,
        QOpeningDoorSide::WIDTH,
        QCentralisedOpening::WIDTH,
        QRelaxedCoupler::WIDTH,
        QTrainHold::WIDTH,
        TDepartureDate::WIDTH,
        TDepartureSeconds::WIDTH,
        TMinimumDwellTime::WIDTH,
        QAutomaticClosing::WIDTH,
    ]
}

// Returns the largest values of Q_TP_Information to Q_Automatic_Closing, by Q_Stop_Skip_Passes: 0 for the last eight at a passing point.
pub fn stopping_most(stop_skip_passes: u32) -> [u32; 10]
    ensures { result ≡ stopping_most stop_skip_passes }
{
    if stop_skip_passes == QStopSkipPasses::PASSING {
        [
            QTpInformation::LARGEST,
            QDayLightSaving::LARGEST,
            0,
            0,
            0,
            0,
            0,
            0,
            0,
            0,
        ]
    } else {
        [
            QTpInformation::LARGEST,
            QDayLightSaving::LARGEST,
            QOpeningDoorSide::LARGEST,
            QCentralisedOpening::LARGEST,
            QRelaxedCoupler::LARGEST,
            QTrainHold::LARGEST,
            TDepartureDate::LARGEST,
            TDepartureSeconds::LARGEST,
            TMinimumDwellTime::LARGEST,
            QAutomaticClosing::LARGEST,
        ]
    }
}
