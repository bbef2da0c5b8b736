// Reading into a buffer that is lent, until it is full or nothing more comes.
// Proved: of a reader whose bytes are known, which of them lie in the buffer, and that a buffer that is not full holds
// all of them.
#![tactic(auto)]

ghost use Rattle.std.specs.Prelude.{◌≡◌, ℕ, ◌<◌, ◌≤◌, take, length, IfOk, OnErr};
ghost use Rattle.std.specs.Io.KnownBytes.{Consumes, IsAtEnd};

use std::io::{Read, Result};

// Answers how many bytes it put at the start of the buffer. On a full buffer nothing says whether more would come.
// A read that fails ends it with that error: the bytes that came before lie at the buffer's start, and are not counted.
// No `for`: the reader says how far it goes, and when it ends.
pub fn read_full<R: Read>(from: &mut R, buffer: &mut [u8]) -> Result<usize>
    ensures within { IfOk result (λ n. n ≤ length buffer.new) }
    ensures bytes { IfOk result (λ n. Consumes (R.remaining from.old) (R.remaining from.new) (take n buffer.new)) }
    ensures end { IfOk result (λ n. n < length buffer.new → IsAtEnd (R.remaining from.new)) }
    ensures err { OnErr result ((n : ℕ) × Consumes (R.remaining from.old) (R.remaining from.new) (take n buffer.new)) }
{
    let mut at = 0;
    while at < buffer.len() {
        let n = from.read(&mut buffer[at..])?;
        if n == 0 {
            break;
        }
        at += n;
    }
    Ok(at)
}
