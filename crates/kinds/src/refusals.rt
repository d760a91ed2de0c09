// Refusals, with the numbers that the C header names, which says the ground and the place of each. 0 is success.
ghost use Rattle.std.specs.Prelude.{◌≡◌};
ghost use Rattle.kinds.specs.Refusals.{refusal_number};

// Why a packet, a sheet or a question is refused.
#[derive(Clone, Copy, Debug, PartialEq, Eq)]
pub enum Refusal {
    // A packet has fewer than 15 bytes.
    ShortPacket = 1,

    // The packet number is neither 4 nor 6, or is 4 where a segment is needed.
    PacketNumber = 2,

    // The packet's bytes are not 15 + L_PACKET_ATO / 8, rounded up.
    PacketLength = 3,

    // A field is outside its range or set, or not 0 where it is not used.
    FieldValue = 4,

    // A change's location does not rise, is 0, or is at or past L_SP; or a temporary constraint's start is not below its end.
    ChangeLocation = 5,

    // A field does not fit in the body's remaining bits.
    BodyBits = 6,

    // A padding bit is 1.
    PaddingBit = 7,

    // The result is longer than the lent room, or a packet's deliveries together are; or a store has no room for a sheet.
    ShortRoom = 8,

    // A sheet ends too soon, has bytes left, or a number is not in its shortest form or not below 4,294,967,296.
    SheetForm = 9,

    // The train's length, cant deficiency or maximum speed is not allowed.
    TrainValue = 10,

    // Location x of a speed question is at or past L_SP of the last segment.
    PastEnd = 11,

    // A sheet's body would exceed 65,535 bits.
    LongBody = 12,

    // Bits of the body are left after the last field.
    BitsLeft = 13,

    // An intake's sheet is asked for before a completion, after the next delivery or in phase 2 with a refusal or place that no completion gives;
    // or with the packet's room cut short.
    TooEarly = 14,

    // A speed question brings neither packets, 0, nor sheets, 1.
    UnknownKind = 15,

    // A speed question brings a run of no segment or of more than 4.
    RunCount = 16,

    // No sheet with the key is kept in the stores that are asked.
    NotKept = 17,

    // There are no steps or more than 128, unequal numbers of starts and speeds, or starts that do not rise from 0 on or reach L_SP.
    Steps = 18,

    // The last step at or before a centimetre does not give the permitted speed.
    WrongSpeed = 19,

    // A list of cards has none or more than 64, or no card of a number.
    CardList = 20,

    // A store has more than 65,536 bytes, or its used part is not a run of accepted sheets with different keys.
    NoShelf = 21,

    // A leg is no segment of the journey, or the run would begin before the journey.
    NoLeg = 22,

    // A segment's NID_C, NID_SP or version are not those of the journey's segment at its place.
    OtherSegment = 23,

    // The journey's segment is not travelled in its nominal direction.
    ReverseLeg = 24,

    // A temporary constraint of type 0 uses a location outside its segment.
    ConstraintPlace = 25,

    // The train may still stand on a segment before the run.
    TailBefore = 26,
}

impl From<Refusal> for u32 {
    ghost from_gives = { λ r n. n ≡ refusal_number r };

    fn from(refusal: Refusal) -> u32 {
        refusal as u32
    }
}

// A refusal, and the place where it was met: a bit of a packet or a byte of a sheet.
#[derive(Clone, Copy, Debug, PartialEq, Eq)]
pub struct Refused<P>(pub Refusal, pub P);
