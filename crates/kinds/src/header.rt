// Field kinds of a packet's header, in packet order. `WIDTH` is in bits, `LARGEST` is the largest packet value.
ghost use Rattle.std.specs.Prelude.{refl};
ghost use Rattle.kinds.specs.Kinds.{nid_packet_ato, l_packet_ato, nid_operational, nid_engine, t_timestamp_date, t_timestamp_seconds, n_packet_counter};
ghost use Rattle.kinds.specs.internal.Rules.{Keeps};

use crate::refusals::Refusal;
use crate::{Rule, UpTo};

// NID_PACKET_ATO, the packet number.
#[derive(Drop)]
pub struct NidPacketAto;

impl NidPacketAto {
    pub const WIDTH: u32 = 8;

    // Packet number of a segment.
    pub const SEGMENT: u32 = 6;

    // Packet number of a journey.
    pub const JOURNEY: u32 = 4;

    pub const LARGEST: u32 = Self::SEGMENT;

    // Returns the rule for the packet number of a segment.
    pub fn rule() -> Rule
        ensures { Keeps nid_packet_ato Self.WIDTH Self.LARGEST result }
    {
        Rule::Range {
            width: Self::WIDTH,
            least: Self::SEGMENT,
            largest: Self::LARGEST,
            refusal: Refusal::PacketNumber,
        }
    }
}

// L_PACKET_ATO, the bits of the body, without header and padding.
#[derive(Drop)]
pub struct LPacketAto;

impl UpTo for LPacketAto {
    const WIDTH: u32 = 16;

    const LARGEST: u32 = 65535;

    ghost WIDTH = { 16 };

    ghost LARGEST = { 65535 };

    ghost kind = { l_packet_ato };

    ghost is = { refl };
}

// NID_OPERATIONAL, eight digits of four bits, each 0 to 9 or F.
#[derive(Drop)]
pub struct NidOperational;

impl NidOperational {
    pub const WIDTH: u32 = 32;

    pub const LARGEST: u32 = 4294967295;

    pub fn rule() -> Rule
        ensures { Keeps nid_operational Self.WIDTH Self.LARGEST result }
    {
        Rule::Operational
    }
}

// NID_ENGINE, the number of the engine.
#[derive(Drop)]
pub struct NidEngine;

impl UpTo for NidEngine {
    const WIDTH: u32 = 24;

    const LARGEST: u32 = 16777215;

    ghost WIDTH = { 24 };

    ghost LARGEST = { 16777215 };

    ghost kind = { nid_engine };

    ghost is = { refl };
}

// T_Timestamp_Date, in days from 1 January 2010.
#[derive(Drop)]
pub struct TTimestampDate;

impl UpTo for TTimestampDate {
    const WIDTH: u32 = 15;

    const LARGEST: u32 = 32767;

    ghost WIDTH = { 15 };

    ghost LARGEST = { 32767 };

    ghost kind = { t_timestamp_date };

    ghost is = { refl };
}

// T_Timestamp_Seconds, in seconds of the day, before 24:00:00.
#[derive(Drop)]
pub struct TTimestampSeconds;

impl UpTo for TTimestampSeconds {
    const WIDTH: u32 = 17;

    const LARGEST: u32 = 86399;

    ghost WIDTH = { 17 };

    ghost LARGEST = { 86399 };

    ghost kind = { t_timestamp_seconds };

    ghost is = { refl };
}

// N_Packet_Counter, the packet counter.
#[derive(Drop)]
pub struct NPacketCounter;

impl UpTo for NPacketCounter {
    const WIDTH: u32 = 8;

    const LARGEST: u32 = 255;

    ghost WIDTH = { 8 };

    ghost LARGEST = { 255 };

    ghost kind = { n_packet_counter };

    ghost is = { refl };
}
