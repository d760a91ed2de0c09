// Counts the bytes of a temporary constraint's values in the sheet, several fields at once; 0 where a value is refused.
ghost use Rattle.std.specs.Prelude.{◌≡◌, ◌%◌, ◌<◌};
ghost use Rattle.packet_journey.specs.internal.constraint_bytes.Bytes.{stretch_bytes, restriction_bytes};

use kinds::body::MCurrent;
use kinds::journey::{DTcEndLocation, DTcStartLocation, QLowAdhesionRate, QTcRange, QTcType};

// Bytes of `start` and `end` (cm) in the sheet at Q_TC_Range 2, or 0 if `end` is not above `start`.
fn both_bytes(start: u32, end: u32) -> u32
    requires { (start < 16777216) × (end < 16777216) }
    ensures { result ≡ stretch_bytes 2 start end }
{
    if end <= start {
        return 0;
    }
    numbers::write::groups(start) + numbers::write::groups(end)
}

// Bytes of `start` and `end` (cm) in the sheet at Q_TC_Range `range`, or 0 if one is refused.
pub fn stretch_bytes(range: u32, start: u32, end: u32) -> u32
    requires { (start < 16777216) × (end < 16777216) }
    ensures { result ≡ stretch_bytes range start end }
{
    if range == QTcRange::BOTH {
        return both_bytes(start, end);
    }
    if DTcStartLocation::most(range) < start {
        return 0;
    }
    if DTcEndLocation::most(range) < end {
        return 0;
    }
    numbers::write::groups(start) + numbers::write::groups(end)
}

// Bytes of Q_FRONT to M_CURRENT in the sheet at Q_TC_Type 0, or 0 if one is refused. `t` is their 21 bits.
// Only the speed has more than one byte.
fn speed_bytes(t: u32) -> u32
    requires { t % 1024 ≡ 1023 }
    ensures { result ≡ restriction_bytes 0 t }
{
    if t / 1024 % 8 != 0 {
        return 0;
    }
    let speed = fields::size::speed(t / 8192 % 128);
    if speed == 0 {
        return 0;
    }
    speed + 3
}

// Bytes of Q_FRONT to M_CURRENT in the sheet at Q_TC_Type `of`, or 0 if one is refused. `t` is their 21 bits.
// Where the type is no speed restriction, one comparison checks the adhesion and that Q_FRONT and the speed before it are 0.
pub fn restriction_bytes(of: u32, t: u32) -> u32
    requires { t < 2097152 }
    ensures { result ≡ restriction_bytes of t }
{
    if t % 1024 != MCurrent::NO_LIMIT {
        return 0;
    }
    if of == QTcType::SPEED {
        return speed_bytes(t);
    }
    if QLowAdhesionRate::most(of) < t / 1024 {
        return 0;
    }
    4
}
