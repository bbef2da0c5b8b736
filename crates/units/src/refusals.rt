// Why a call is refused, and the number that it answers then.

// The refusals, in the order of their numbers.
// [R1, R2, R3, R4, R5, R6, R7, R8, R9, R10, R11, R13, R14, R15, R16, R17, R18, R19, R20, R21, R22]
#[derive(Clone, Copy, Debug, PartialEq, Eq)]
pub enum Refusal {
    BadTable,
    NoEntry,
    OtherKind,
    WrongState,
    PayloadLength,
    TooShort,
    WindowFull,
    RunFull,
    UrgentWaits,
    BadFrame,
    NotOurs,
    NoEndPoint,
    AcksFull,
    UnknownType,
    UserBits,
    LengthAgainstType,
    WrongSequence,
    UnderWay,
    NoneUnderWay,
    BadTrace,
    BadBlock,
}

// The numbers of the refusals for a fault of a frame's header, since C asks by them where the fault sits.
pub const UNKNOWN_TYPE: u8 = 15;

pub const USER_BITS: u8 = 16;

pub const LENGTH_AGAINST_TYPE: u8 = 17;

pub const WRONG_SEQUENCE: u8 = 18;

// The paper's number of a refusal.
impl From<Refusal> for u8 {
    ghost use Rattle.std.specs.Prelude.{◌≡◌};
    ghost use Rattle.units.specs.Refusals.{number_of};

    ghost from_gives = { λ refusal number. number ≡ number_of refusal };

    fn from(refusal: Refusal) -> u8 {
        match refusal {
            Refusal::BadTable => 1,
            Refusal::NoEntry => 2,
            Refusal::OtherKind => 3,
            Refusal::WrongState => 4,
            Refusal::PayloadLength => 5,
            Refusal::TooShort => 6,
            Refusal::WindowFull => 7,
            Refusal::RunFull => 8,
            Refusal::UrgentWaits => 9,
            Refusal::BadFrame => 10,
            Refusal::NotOurs => 11,
            Refusal::NoEndPoint => 13,
            Refusal::AcksFull => 14,
            Refusal::UnknownType => UNKNOWN_TYPE,
            Refusal::UserBits => USER_BITS,
            Refusal::LengthAgainstType => LENGTH_AGAINST_TYPE,
            Refusal::WrongSequence => WRONG_SEQUENCE,
            Refusal::UnderWay => 19,
            Refusal::NoneUnderWay => 20,
            Refusal::BadTrace => 21,
            Refusal::BadBlock => 22,
        }
    }
}
