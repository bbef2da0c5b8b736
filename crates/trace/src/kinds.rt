// The kinds of record: what a host or a driver asks of a node.
ghost use Rattle.std.specs.Prelude.{◌≡◌};
ghost use Rattle.trace.specs.Kinds.{is_kind, takes_index, takes_bytes};

use units::refusals::Refusal;

// The numbers that stand for them in a file.

pub const TABLE: u8 = 1;

pub const OPEN: u8 = 2;

pub const CLOSE: u8 = 3;

pub const SEND: u8 = 4;

pub const URGENT: u8 = 5;

pub const ARRIVAL: u8 = 6;

pub const TICK: u8 = 7;

pub const HAND_OUT: u8 = 8;

// The end of the frame under way.
pub const REPORT: u8 = 9;

#[derive(Clone, Copy)]
pub enum Kind {
    Table,
    Open,
    Close,
    Send,
    Urgent,
    Arrival,
    Tick,
    HandOut,
    // The end of the frame under way.
    Report,
}

impl TryFrom<u8> for Kind {
    ghost use Rattle.std.specs.Prelude.{◌≡◌};
    ghost use Rattle.trace.specs.Kinds.{kind_of};

    type Error = Refusal;

    ghost try_from_gives = { λ number kind. kind ≡ kind_of number };

    // The kind that a number stands for. [L6]
    fn try_from(number: u8) -> Result<Kind, Refusal> {
        match number {
            TABLE => Ok(Kind::Table),
            OPEN => Ok(Kind::Open),
            CLOSE => Ok(Kind::Close),
            SEND => Ok(Kind::Send),
            URGENT => Ok(Kind::Urgent),
            ARRIVAL => Ok(Kind::Arrival),
            TICK => Ok(Kind::Tick),
            HAND_OUT => Ok(Kind::HandOut),
            REPORT => Ok(Kind::Report),
            _ => Err(Refusal::BadTrace),
        }
    }
}

// Whether there is such a kind. This and the next two are asked of any byte: of a file, before it is known to be good.
pub fn is_kind(kind: u8) -> bool
    ensures { result ≡ is_kind kind }
{
    Kind::try_from(kind).is_ok()
}

// Whether its call takes an index.
pub fn takes_index(kind: u8) -> bool
    ensures { result ≡ takes_index kind }
{
    matches!(
        Kind::try_from(kind),
        Ok(Kind::Open | Kind::Close | Kind::Send | Kind::Urgent)
    )
}

// Whether its call takes bytes: a table, a payload or a frame.
pub fn takes_bytes(kind: u8) -> bool
    ensures { result ≡ takes_bytes kind }
{
    matches!(
        Kind::try_from(kind),
        Ok(Kind::Table | Kind::Send | Kind::Urgent | Kind::Arrival)
    )
}
