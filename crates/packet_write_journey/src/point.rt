// Writes a timing point of an accepted journey sheet into its packet, in pieces of at most 32 bits.
// Parameters: `sheet` is read and `room` is written at the place `p`; each function returns the place after its part.
ghost use Rattle.grammar.specs.internal.rows.Rows.{row};
ghost use Rattle.grammar.specs.journey.Journey.{timing_point};
ghost use Rattle.grammar.specs.internal.journey.Parts.{arrival_widths, arrival_most, stopping_widths, stopping_most};
ghost use Rattle.packet_write_segment.specs.internal.elements.Writing.{Ready, Wrote};

use kinds::UpTo;
use kinds::journey::{
    NidTp, QAutomaticClosing, QCentralisedOpening, QDayLightSaving, QOpeningDoorSide,
    QRelaxedCoupler, QStopSkipPasses, QTpAlignment, QTpInformation, QTrainHold, TArrivalWindow,
    TDepartureDate, TDepartureSeconds, TLatestArrivalDate, TLatestArrivalSeconds,
    TMinimumDwellTime, UnlessPassing,
};
use packet_write_segment::elements::PacketSpot;
use packet_write_segment::row::{number, piece};

// Bits of the piece T_Latest_Arrival_Date to T_Latest_Arrival_Seconds.
const LATEST: u32 = TLatestArrivalDate::WIDTH + TLatestArrivalSeconds::WIDTH;

// Bits of the piece T_Arrival_Window to Q_TP_Alignment.
const WINDOW: u32 = TArrivalWindow::WIDTH + QTpAlignment::WIDTH;

// Bits of the piece Q_TP_Information to Q_Train_Hold.
const DOORS: u32 = QTpInformation::WIDTH
    + QDayLightSaving::WIDTH
    + QOpeningDoorSide::WIDTH
    + QCentralisedOpening::WIDTH
    + QRelaxedCoupler::WIDTH
    + QTrainHold::WIDTH;

// Bits of the piece T_Departure_Date to T_Departure_Seconds.
const DEPARTURE: u32 = TDepartureDate::WIDTH + TDepartureSeconds::WIDTH;

// Bits of the piece T_Minimum_Dwell_Time to Q_Automatic_Closing.
const DWELL: u32 = TMinimumDwellTime::WIDTH + QAutomaticClosing::WIDTH;

// Writes NID_TP to Q_TP_Alignment.
// A function of its own, as `stopping` and `names` are: one for the three rows misses a bar of speed (docs/PERFORMANCE.md).
fn arrival(sheet: &[u8], room: &mut [u8], p: PacketSpot) -> PacketSpot
    requires { Ready (row arrival_widths arrival_most) sheet.now room.old p }
    ensures { Wrote (row arrival_widths arrival_most) sheet.now room.old p room.new result }
{
    let widths = grammar::journey::arrival_widths();
    let most = grammar::journey::arrival_most();
    let name = piece(sheet, room, p, &widths, &most, 0, 1, NidTp::WIDTH);
    let latest = piece(sheet, room, name, &widths, &most, 1, 3, LATEST);
    piece(sheet, room, latest, &widths, &most, 3, 5, WINDOW)
}

// Writes Q_TP_Information to Q_Automatic_Closing, by Q_Stop_Skip_Passes, which is for the contract alone.
// It is no ghost value: a call picks one from its arguments or a constant, and this is what a call in `point` returned.
fn stopping(sheet: &[u8], room: &mut [u8], p: PacketSpot, stop_skip_passes: u32) -> PacketSpot
    requires { Ready (row stopping_widths (stopping_most stop_skip_passes)) sheet.now room.old p }
    ensures { Wrote (row stopping_widths (stopping_most stop_skip_passes)) sheet.now room.old p room.new result }
{
    let widths = grammar::journey::stopping_widths();
    let most = grammar::journey::stopping_most(stop_skip_passes);
    let doors = piece(sheet, room, p, &widths, &most, 0, 6, DOORS);
    let departure = piece(sheet, room, doors, &widths, &most, 6, 8, DEPARTURE);
    piece(sheet, room, departure, &widths, &most, 8, 10, DWELL)
}

// Writes a timing point.
pub fn point(sheet: &[u8], room: &mut [u8], p: PacketSpot) -> PacketSpot
    requires { Ready timing_point sheet.now room.old p }
    ensures { Wrote timing_point sheet.now room.old p room.new result }
{
    let first = arrival(sheet, room, p);
    let stop_skip_passes = number(
        sheet,
        room,
        first,
        QStopSkipPasses::WIDTH,
        QStopSkipPasses::LARGEST,
    );
    stopping(sheet, room, stop_skip_passes.next, stop_skip_passes.value)
}
