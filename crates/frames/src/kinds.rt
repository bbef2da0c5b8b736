// The kinds of record: what is done with its bytes.
use lines::Stop;

// A kind with its number.
#[derive(Clone, Copy)]
pub enum Kind {
    Read = 1,
    Write = 2,
    Check = 3,
}

// The kind that a number stands for.
impl TryFrom<u8> for Kind {
    type Error = Stop;

    fn try_from(number: u8) -> Result<Kind, Stop> {
        match number {
            1 => Ok(Kind::Read),
            2 => Ok(Kind::Write),
            3 => Ok(Kind::Check),
            _ => Err(Stop::Unknown),
        }
    }
}
