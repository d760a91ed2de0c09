// The thirteen public operations and the interface's number, under the names that the customer's server links. None has a `requires`: any bytes and numbers may be handed over.

#![tactic(auto)]

ghost use Rattle.std.specs.Prelude.{◌≡◌};
ghost use Rattle.convert.specs.Convert.{packet_to_sheet, sheet_to_packet};
ghost use Rattle.speed_question.specs.Question.{permitted_speed};
ghost use Rattle.restricted.specs.Question.{restricted_speed};
ghost use Rattle.steps.specs.Steps.{check_steps};
ghost use Rattle.altitude.specs.Altitude.{altitude_of};
ghost use Rattle.intake.specs.Intake.{gathering, delivered, completed, asked};
ghost use Rattle.shelf.specs.Shelf.{shelf_add, shelf_remove, seen, shelf_lookup};

use altitude::Altitude;
use convert::Converted;
use intake::Intake;
use shelf::{Key, Shelved};
use speed::Train;
use speed_question::Speed;
use steps::Checked;

// The number of the interface: that of the request that last changed a layout or a function which the header had. A new function leaves it.
const INTERFACE: u32 = 10;

// Writes the sheet of a packet at the start of `room`. Answers 0, 0 and the sheet's length in bytes;
// or a refusal's number, its place (a bit of the packet) and 0, and then writes nothing.
#[unsafe(no_mangle)]
pub extern "C" fn seglink_packet_to_sheet(packet: &[u8], room: &mut [u8]) -> Converted
    ensures { record { answer = result; room = room.new } ≡ packet_to_sheet packet.now room.old }
{
    convert_packet::packet_to_sheet(packet, room)
}

// Writes the packet of a sheet at the start of `room`. Answers 0, 0 and the packet's length in bytes;
// or a refusal's number, its place (a byte of the sheet) and 0, and then writes nothing.
#[unsafe(no_mangle)]
pub extern "C" fn seglink_sheet_to_packet(sheet: &[u8], room: &mut [u8]) -> Converted
    ensures { record { answer = result; room = room.new } ≡ sheet_to_packet sheet.now room.old }
{
    convert_sheet::sheet_to_packet(sheet, room)
}

// Answers the permitted speed of `train` at `x` cm from the start of the last of a run of `count` segments, 1 to 4, packets (`medium` 0) or
// sheets (`medium` 1), in order of travel: 0, 0 and the speed in km/h; or a refusal's number, its place and 0. Segments past the count are not read.
#[unsafe(no_mangle)]
pub extern "C" fn seglink_permitted_speed<'a>(
    medium: u32,
    count: u32,
    first: &'a [u8],
    second: &'a [u8],
    third: &'a [u8],
    fourth: &'a [u8],
    train: Train,
    x: u32,
) -> Speed
    ensures { result ≡ permitted_speed medium count first.now second.now third.now fourth.now train x }
{
    speed_question::permitted_speed(medium, count, first, second, third, fourth, train, x)
}

// Answers the restricted speed of `train` at `x` cm from the start of the last of a run of `count` segments that is travelled on `journey`, of the same
// medium: the lowest of the permitted speed and of the journey's temporary constraints that hold there. `leg` is the number of the journey's segment in
// which x lies. Answers 0, 0 and the speed in km/h; or a refusal's number, its place and 0.
#[unsafe(no_mangle)]
pub extern "C" fn seglink_restricted_speed<'a>(
    medium: u32,
    count: u32,
    first: &'a [u8],
    second: &'a [u8],
    third: &'a [u8],
    fourth: &'a [u8],
    journey: &'a [u8],
    leg: u32,
    train: Train,
    x: u32,
) -> Speed
    ensures { result ≡ restricted_speed medium count first.now second.now third.now fourth.now journey.now leg train x }
{
    restricted::restricted_speed(
        medium, count, first, second, third, fourth, journey, leg, train, x,
    )
}

// Answers the altitude of a packet's segment: 0, 0 and the altitude in signed centimetres; or a refusal's number, its place and 0.
#[unsafe(no_mangle)]
pub extern "C" fn seglink_altitude_of_packet(packet: &[u8]) -> Altitude
    ensures { result ≡ altitude_of packet.now }
{
    altitude::altitude_of_packet(packet)
}

// Checks the steps that start at `starts`, in cm from the start of the last of a run of `count` segments, with the `speeds` in km/h against the
// permitted speed of `train` at every centimetre of that segment. Answers 0 and 0; or a refusal's number and its place, with 19 the first wrong centimetre.
#[unsafe(no_mangle)]
pub extern "C" fn seglink_check_steps<'a>(
    medium: u32,
    count: u32,
    first: &'a [u8],
    second: &'a [u8],
    third: &'a [u8],
    fourth: &'a [u8],
    train: Train,
    starts: &'a [u32],
    speeds: &'a [u32],
) -> Checked
    ensures { result ≡ check_steps medium count first.now second.now third.now fourth.now train starts.now speeds.now }
{
    steps::check_steps(
        medium, count, first, second, third, fourth, train, starts, speeds,
    )
}

// Returns the state of an intake before the first delivery.
#[unsafe(no_mangle)]
pub extern "C" fn seglink_intake_fresh() -> Intake
    ensures { result ≡ gathering 0 }
{
    intake::fresh()
}

// Takes a delivery of a packet into `room` and returns the state after it.
#[unsafe(no_mangle)]
pub extern "C" fn seglink_intake_deliver(intake: Intake, delivery: &[u8], room: &mut [u8]) -> Intake
    ensures { record { intake = result; room = room.new } ≡ delivered intake delivery.now room.old }
{
    intake::deliver(intake, delivery, room)
}

// Judges the bytes that were delivered into `room` as a complete packet and returns the state with the verdict.
#[unsafe(no_mangle)]
pub extern "C" fn seglink_intake_complete(intake: Intake, room: &[u8]) -> Intake
    ensures { result ≡ completed intake room.now }
{
    intake::complete(intake, room)
}

// Writes the sheet of the packet that was judged, which is in `taken`, at the start of `room`. Answers 0, 0 and the sheet's length in bytes;
// or a refusal's number, its place and 0, and then writes nothing.
#[unsafe(no_mangle)]
pub extern "C" fn seglink_intake_sheet(intake: Intake, taken: &[u8], room: &mut [u8]) -> Converted
    ensures { record { answer = result; room = room.new } ≡ asked intake taken.now room.old }
{
    intake::sheet(intake, taken, room)
}

// Keeps the sheet of a segment in `store`, of which `used` bytes are used, under its NID_C, NID_SP and version. Answers 0, 0 and the bytes used then;
// or a refusal's number, its place (a byte of the sheet) and `used`, and then moves nothing.
#[unsafe(no_mangle)]
pub extern "C" fn seglink_shelf_add(store: &mut [u8], used: u32, sheet: &[u8]) -> Shelved
    ensures { record { answer = result; store = store.new } ≡ shelf_add store.old used sheet.now }
{
    shelf::add(store, used, sheet)
}

// Removes the sheet with the key `key` from `store`, of which `used` bytes are used. Answers 0, 0 and the bytes used then;
// or a refusal's number, 0 and `used`, and then moves nothing.
#[unsafe(no_mangle)]
pub extern "C" fn seglink_shelf_remove(store: &mut [u8], used: u32, key: Key) -> Shelved
    ensures { record { answer = result; store = store.new } ≡ shelf_remove store.old used key }
{
    shelf::remove(store, used, key)
}

// Sets `part` to the part of the yard's store, or else of the default store, that keeps the sheet with the key `key`, and returns 0;
// or to an empty part of the yard's store, and returns a refusal's number.
#[unsafe(no_mangle)]
pub extern "C" fn seglink_shelf_lookup_into<'s, 'a>(
    part: &'s mut &'a [u8],
    yard: &'a [u8],
    yard_used: u32,
    standard: &'a [u8],
    standard_used: u32,
    key: Key,
) -> u32
    ensures { record { refusal = result; part = seen part.new } ≡ shelf_lookup (seen yard.entry) yard_used (seen standard.entry) standard_used key }
{
    shelf::lookup_into(part, yard, yard_used, standard, standard_used, key)
}

// Answers the number of the interface that the header and this archive have in common.
#[unsafe(no_mangle)]
pub extern "C" fn seglink_version() -> u32
    ensures { result ≡ 10 }
{
    INTERFACE
}

// Answers the number of the interface too. Its name carries the number: an object that was built with a header of another number does not link.
#[unsafe(no_mangle)]
pub extern "C" fn seglink_interface_10() -> u32
    ensures { result ≡ 10 }
{
    INTERFACE
}
