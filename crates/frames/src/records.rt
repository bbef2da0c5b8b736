// Where the records lie: kind, length (4 bytes, high byte first), bytes.
ghost use Rattle.std.specs.Prelude.{length};
ghost use Rattle.frames.specs.Records.{Lies};

use crate::kinds::Kind;
use lines::Stop;
use units::bytes::{byte_at, get32};

// How many bytes stand before a record's own.
pub const HEAD: usize = 5;

// In a record to write, behind the frame's fields: where the buffer's length stands, and where the payload begins.
pub const ROOM: usize = 7;

pub const PAYLOAD: usize = 11;

// A record: its kind, and its bytes from start to before end.
#[derive(Clone, Copy)]
pub struct Record {
    pub kind: Kind,
    pub start: usize,
    pub end: usize,
}

// The record at an index. One to write holds at least the fields. Not one with desk's: its head is another, and so is
// what is judged (`Lies`).
pub fn record_at(input: &[u8], i: usize) -> Result<Record, Stop>
    ensures { Lies i (length input.now) result }
{
    if input.len() <= i {
        return Err(Stop::Torn);
    }
    let left = input.len() - i;
    if left < HEAD {
        return Err(Stop::Torn);
    }
    let n = get32(input, i + 1) as usize;
    if left - HEAD < n {
        return Err(Stop::Torn);
    }
    let kind = Kind::try_from(byte_at(input, i))?;
    if matches!(kind, Kind::Write) && n < PAYLOAD {
        return Err(Stop::Torn);
    }
    let start = i + HEAD;
    Ok(Record {
        kind,
        start,
        end: start + n,
    })
}
