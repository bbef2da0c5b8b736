// Where the records lie: kind, index, length (2 bytes, high byte first), bytes.
ghost use Rattle.std.specs.Prelude.{length};
ghost use Rattle.desk.specs.Records.{Lies};

use crate::kinds::Kind;
use lines::Stop;
use trace::layout;

// A record: its kind, its index byte, and the end of its bytes, which begin right behind its head.
#[derive(Clone, Copy)]
pub struct Record {
    pub kind: Kind,
    pub index: u8,
    pub end: usize,
}

// The record at an index. Not one with that of `frames`: its head is another, and so is what is judged (`Lies`).
pub fn record_at(input: &[u8], i: usize) -> Result<Record, Stop>
    ensures { Lies i (length input.now) result }
{
    if input.len() <= i {
        return Err(Stop::Torn);
    }
    let left = input.len() - i;
    if left < layout::HEAD {
        return Err(Stop::Torn);
    }
    let head = layout::head(input, i);
    let n = head.length as usize;
    if left - layout::HEAD < n {
        return Err(Stop::Torn);
    }
    let kind = Kind::try_from(head.kind)?;
    Ok(Record {
        kind,
        index: head.index,
        end: i + layout::HEAD + n,
    })
}
