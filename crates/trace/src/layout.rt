// The trace file's bytes, high bytes first. A byte past the end counts as 0.
ghost use Rattle.std.specs.Prelude.{◌≡◌};
ghost use Rattle.trace.specs.Layout.{count_of, begin_of, head_from, bytes_from};

use crate::Head;
use units::bytes::{byte_at, get16, get32, part};

// Where the offsets stand, how long each is, and where the header ends.
const OFFSETS_AT: usize = 4;

const OFFSET: usize = 4;

pub const HEADER: usize = 4104;

// The most records of a file, and its most bytes.
pub const RECORDS: usize = 1024;

pub const FILE: usize = 65536;

// How many bytes stand before a record's own.
pub const HEAD: usize = 4;

// How many records the header says that there are.
pub fn count(file: &[u8]) -> u32
    ensures { result ≡ count_of file.now }
{
    get32(file, 0)
}

// Where record k begins, as the header has it.
#[tactic(auto, unfolding(crate::specs::Layout::begin_of))]
pub fn begin(file: &[u8], k: usize) -> u32
    ensures { result ≡ begin_of file.now k }
{
    if file.len() / OFFSET <= k {
        return 0;
    }
    get32(file, OFFSETS_AT + OFFSET * k)
}

// What stands before the bytes of the record that begins at a byte.
#[tactic(auto, unfolding(crate::specs::Layout::head_from))]
pub fn head(file: &[u8], at: usize) -> Head
    ensures { result ≡ head_from file.now at }
{
    if file.len() <= at {
        return Head {
            kind: 0,
            index: 0,
            length: 0,
        };
    }
    Head {
        kind: byte_at(file, at),
        index: byte_at(file, at + 1),
        length: get16(file, at + 2),
    }
}

// The bytes of that record, as many as there are.
#[tactic(auto, unfolding(crate::specs::Layout::bytes_from, crate::specs::Layout::head_from))]
pub fn bytes(file: &[u8], at: usize) -> &[u8]
    ensures { result.now ≡ bytes_from file.now at }
{
    if file.len() <= at {
        return part(file, at, 0);
    }
    let n = get16(file, at + 2) as usize;
    part(file, at + HEAD, n)
}
