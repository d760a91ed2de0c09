// Layout of a segment's packet in bits: places of the fields before the lists, and lengths of the parts of a list.
use kinds::{UpTo, body, header};

// Bytes of a packet's header.
pub const HEADER_BYTES: usize = 15;

// Place of NID_OPERATIONAL, in bits from the packet's start.
pub const OPERATIONAL: usize = (header::NidPacketAto::WIDTH + header::LPacketAto::WIDTH) as usize;

// Place of NID_ENGINE, in bits from the packet's start.
pub const ENGINE: usize = OPERATIONAL + header::NidOperational::WIDTH as usize;

// Place of T_Timestamp_Date, in bits from the packet's start.
pub const DATE: usize = ENGINE + header::NidEngine::WIDTH as usize;

// Place of T_Timestamp_Seconds, in bits from the packet's start.
pub const SECONDS: usize = DATE + header::TTimestampDate::WIDTH as usize;

// Place of N_Packet_Counter, in bits from the packet's start.
pub const COUNTER: usize = SECONDS + header::TTimestampSeconds::WIDTH as usize;

// Place of NID_C, in bits from the packet's start.
pub const COUNTRY: usize = COUNTER + header::NPacketCounter::WIDTH as usize;

// Place of NID_SP, in bits from the packet's start.
pub const IDENTITY: usize = COUNTRY + body::NidC::WIDTH as usize;

// Place of the major version, in bits from the packet's start.
pub const MAJOR: usize = IDENTITY + body::NidSp::WIDTH as usize;

// Place of the minor version, in bits from the packet's start.
pub const MINOR: usize = MAJOR + body::MSpVersion::WIDTH as usize;

// Place of L_SP, in bits from the packet's start.
pub const LENGTH: usize = MINOR + body::MSpVersion::WIDTH as usize;

// Place of D_EoA_Offset, in bits from the packet's start.
pub const OFFSET: usize = LENGTH + body::LSp::WIDTH as usize;

// Place of Q_UTC_Offset, in bits from the packet's start.
pub const CLOCK: usize = OFFSET + body::DEoAOffset::WIDTH as usize;

// Place of M_SP_Altitude, in bits from the packet's start.
pub const ALTITUDE: usize = CLOCK + body::QUtcOffset::WIDTH as usize;

// Place of the speed profile, in bits from the packet's start.
pub const PROFILE: usize = ALTITUDE + body::MSpAltitude::WIDTH as usize;

// Bits of an element of the speed profile before its entries: V_STATIC, Q_FRONT, N_ITER.
pub const ELEMENT_WIDTH: u32 = body::VStatic::WIDTH + body::QFront::WIDTH + body::NIter::WIDTH;

// `ELEMENT_WIDTH` as `usize`, to add to a place.
pub const ELEMENT: usize = ELEMENT_WIDTH as usize;

// Place of the class in an entry, in bits from its start.
pub const CLASS: usize = body::QDiff::WIDTH as usize;

// Place of V_DIFF in an entry, in bits from its start.
pub const V_DIFF: usize = CLASS + body::NcDiff::WIDTH as usize;

// Bits of an entry: Q_DIFF, the class, V_DIFF.
pub const ENTRY_WIDTH: u32 = body::QDiff::WIDTH + body::NcDiff::WIDTH + body::VStatic::WIDTH;

// `ENTRY_WIDTH` as `usize`, to add to a place.
pub const ENTRY: usize = ENTRY_WIDTH as usize;

// Bits of a rated voltage: M_VOLTAGE and NID_CTRACTION.
pub const WIRE_WIDTH: u32 = body::MVoltage::WIDTH + body::NidCTraction::WIDTH;

// `WIRE_WIDTH` as `usize`, to add to a place.
pub const WIRE: usize = WIRE_WIDTH as usize;

// Bits of D_Location of a change.
pub const LOCATION: usize = body::DLocation::WIDTH as usize;

// Place of the body, in bits from the packet's start.
pub const BODY: usize = COUNTRY;

// Bits of N_ITER.
pub const COUNT: usize = body::NIter::WIDTH as usize;
