// Counts the bytes of a timing point's values in the sheet, several fields at once; 0 where a value is refused.
ghost use Rattle.std.specs.Prelude.{◌++◌, ◌≡◌, ◌<◌};
ghost use Rattle.bits.specs.internal.Windows.{low_parts};
ghost use Rattle.packet_fields.specs.internal.row.Values.{row_bytes};
ghost use Rattle.packet_journey.specs.internal.point_bytes.Windows.{latest_widths, latest_most, marks_widths, marks_most, doors_widths, leaving_widths, eight_most};

use kinds::UpTo;
use kinds::journey::{
    QStopSkipPasses, QTpAlignment, QTpInformation, TDepartureSeconds, TLatestArrivalSeconds,
    UnlessPassing,
};

// Bytes of T_Latest_Arrival_Date and T_Latest_Arrival_Seconds in the sheet, or 0 if one is refused. `t` is their 32 bits.
pub fn latest_bytes(t: u32) -> u32
    ensures { result ≡ row_bytes latest_most (low_parts latest_widths t) }
{
    let seconds = t % 131072;
    if TLatestArrivalSeconds::LARGEST < seconds {
        return 0;
    }
    numbers::write::groups(t / 131072) + numbers::write::groups(seconds)
}

// Bytes of T_Arrival_Window to Q_Day_Light_Saving in the sheet, or 0 if one is refused. `t` is their 17 bits.
// Only the window has more than one byte.
pub fn marks_bytes(t: u32) -> u32
    requires { t < 131072 }
    ensures { result ≡ row_bytes marks_most (low_parts marks_widths t) }
{
    if QTpAlignment::LARGEST < t / 32 % 4 {
        return 0;
    }
    if QStopSkipPasses::LARGEST < t / 8 % 4 {
        return 0;
    }
    if QTpInformation::LARGEST < t / 2 % 4 {
        return 0;
    }
    fields::size::short(t / 128) + 4
}

// Bytes of the last eight fields in the sheet, not at a passing point, or 0 if the departure seconds are refused.
// `doors` is Q_Opening_Door_Side to T_Departure_Date (20 bits), `leaving` T_Departure_Seconds to Q_Automatic_Closing (28 bits).
fn not_passing_bytes(doors: u32, leaving: u32) -> u32
    requires { leaving < 268435456 }
    ensures { result ≡ row_bytes (eight_most 0) (low_parts doors_widths doors ++ low_parts leaving_widths leaving) }
{
    let seconds = leaving / 2048;
    if TDepartureSeconds::LARGEST < seconds {
        return 0;
    }
    let date = numbers::write::groups(doors % 32768);
    date + numbers::write::groups(seconds) + fields::size::short(leaving / 2 % 1024) + 5
}

// Bytes of the last eight fields in the sheet, by Q_Stop_Skip_Passes, or 0 if one is refused; at a passing point all are 0.
// `doors` is Q_Opening_Door_Side to T_Departure_Date (20 bits), `leaving` T_Departure_Seconds to Q_Automatic_Closing (28 bits).
pub fn eight_bytes(stop_skip_passes: u32, doors: u32, leaving: u32) -> u32
    requires { (doors < 1048576) × (leaving < 268435456) }
    ensures { result ≡ row_bytes (eight_most stop_skip_passes) (low_parts doors_widths doors ++ low_parts leaving_widths leaving) }
{
    if stop_skip_passes != QStopSkipPasses::PASSING {
        return not_passing_bytes(doors, leaving);
    }
    if doors != 0 {
        return 0;
    }
    if leaving != 0 {
        return 0;
    }
    8
}
