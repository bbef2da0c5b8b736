// The frame writer: refusals 15, 16, 18, 5 and 6, then the bytes.
ghost use Rattle.std.specs.Prelude.{◌≡◌};
ghost use Rattle.std.proofs.lemmas.List.Edits.{sets};
ghost use Rattle.units.specs.Refusals.{verdict};
ghost use Rattle.frame.specs.Layout.{head_bytes, frame_bytes};
ghost use Rattle.frame.specs.Writing.{typed_tests, write_tests, write_answer, written_of};

use crate::types::{payload_suits, seq_writes};
use crate::{Fields, FrameType, layout};
use units::bytes::{put, put_all};
use units::refusals::Refusal;

// The tests of a known type, with a payload of n bytes.
fn judge_typed(fields: Fields, kind: FrameType, n: usize, room: usize) -> Result<(), Refusal>
    ensures { result ≡ verdict (typed_tests kind fields n room) }
{
    if fields.user != 0 {
        return Err(Refusal::UserBits);
    }
    if !seq_writes(kind, fields.seq) {
        return Err(Refusal::WrongSequence);
    }
    if !payload_suits(kind, n) {
        return Err(Refusal::PayloadLength);
    }
    if room < n + layout::OVERHEAD {
        return Err(Refusal::TooShort);
    }
    Ok(())
}

// All the writer's tests.
fn judge(fields: Fields, n: usize, room: usize) -> Result<(), Refusal>
    ensures { result ≡ verdict (write_tests fields n room) }
{
    let kind = FrameType::try_from(fields.kind)?;
    judge_typed(fields, kind, n, room)
}

// Bytes 0 to 7, before a payload of n bytes. The length by quotient and rest, as `be16` has it: `to_be_bytes` would be
// an array to take apart again.
#[tactic(auto, unfolding(crate::specs::Layout::head_bytes, units::specs::Bytes::be16))]
fn head(fields: Fields, n: usize) -> [u8; layout::PAYLOAD]
    ensures { result ≡ head_bytes fields n }
{
    let length = n % 65536;
    [
        fields.destination.0,
        fields.protocol,
        fields.source.0,
        fields.user % 16 * 16 + fields.kind % 16,
        (length / 256) as u8,
        (length % 256) as u8,
        fields.channel.0,
        fields.seq.0,
    ]
}

// The frame's bytes from the buffer's start on, as many as there is room for.
pub fn emit(buffer: &mut [u8], fields: Fields, payload: &[u8])
    ensures { buffer.new ≡ sets buffer.old 0 (frame_bytes fields payload.now) }
{
    let first = head(fields, payload.len());
    put_all(buffer, 0, &first);
    put_all(buffer, layout::PAYLOAD, payload);
    let end = payload.len() + layout::PAYLOAD;
    if end < buffer.len() {
        let c = check8::check(&buffer[..end]);
        put(buffer, end, c);
    }
}

// The frame's length with its bytes at the buffer's start, or a refusal with the buffer as it was.
#[tactic(auto, unfolding(crate::specs::Writing::write_answer, crate::specs::Writing::written_of))]
pub fn write(buffer: &mut [u8], fields: Fields, payload: &[u8]) -> Result<usize, Refusal>
    ensures answer { result ≡ write_answer fields payload.now buffer.old }
    ensures after { buffer.new ≡ written_of fields payload.now buffer.old }
{
    let n = payload.len();
    judge(fields, n, buffer.len())?;
    emit(buffer, fields, payload);
    Ok(n + layout::OVERHEAD)
}
