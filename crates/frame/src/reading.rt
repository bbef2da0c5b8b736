// The frame reader: refusal 10 first, then 15, 16, 17, 18.
ghost use Rattle.std.specs.Prelude.{◌≡◌};
ghost use Rattle.units.specs.Refusals.{verdict};
ghost use Rattle.frame.specs.Layout.{payload_of};
ghost use Rattle.frame.specs.Reading.{sound_of, typed_tests, header_at, read_as, header_of, read_of};

use crate::types::{payload_suits, seq_given, seq_reads};
use crate::{FrameType, Header, layout};
use units::bytes::{byte_at, get16};
use units::refusals::Refusal;
use units::{Address, Channel, Seq};

// The first half: whether length and check byte are right.
#[tactic(auto, unfolding(crate::specs::Reading::sound_of))]
pub fn is_sound(frame: &[u8]) -> bool
    ensures { result ≡ sound_of frame.now }
{
    if frame.len() < layout::OVERHEAD {
        return false;
    }
    let n = get16(frame, layout::LENGTH) as usize;
    if n + layout::OVERHEAD != frame.len() {
        return false;
    }
    check8::check(frame) == 0
}

// The second half for a frame of a known type.
fn typed_header(frame: &[u8], kind: FrameType) -> Result<Header, Refusal>
    ensures { result ≡ read_as (verdict (typed_tests kind frame.now))
        (header_at kind frame.now) }
{
    let mark = byte_at(frame, layout::TYPE);
    if mark / 16 != 0 {
        return Err(Refusal::UserBits);
    }
    let length = get16(frame, layout::LENGTH);
    if !payload_suits(kind, length as usize) {
        return Err(Refusal::LengthAgainstType);
    }
    let seq = Seq(byte_at(frame, layout::SEQUENCE));
    if !seq_reads(kind, seq) {
        return Err(Refusal::WrongSequence);
    }
    Ok(Header {
        destination: Address(byte_at(frame, layout::DESTINATION)),
        protocol: byte_at(frame, layout::PROTOCOL),
        source: Address(byte_at(frame, layout::SOURCE)),
        kind,
        channel: Channel(byte_at(frame, layout::CHANNEL)),
        seq: seq_given(kind, seq),
        length,
    })
}

// The second half: the header, or refusal 15, 16, 17 or 18.
#[tactic(auto, unfolding(crate::specs::Reading::header_of))]
#[inline(always)]
pub fn header(frame: &[u8]) -> Result<Header, Refusal>
    ensures { result ≡ header_of frame.now }
{
    let mark = byte_at(frame, layout::TYPE);
    let kind = FrameType::try_from(mark % 16)?;
    typed_header(frame, kind)
}

// The whole reader.
#[tactic(auto, unfolding(crate::specs::Reading::read_of, crate::specs::Reading::header_of))]
pub fn read(frame: &[u8]) -> Result<Header, Refusal>
    ensures { result ≡ read_of frame.now }
{
    if !is_sound(frame) {
        return Err(Refusal::BadFrame);
    }
    header(frame)
}

// The payload: the part of the caller's slice from byte 8 on, all but the check byte.
#[tactic(auto, unfolding(crate::specs::Layout::payload_of))]
pub fn payload(frame: &[u8]) -> &[u8]
    ensures { result.now ≡ payload_of frame.now }
{
    let n = frame.len();
    if n < layout::OVERHEAD {
        return &frame[..0];
    }
    let end = n - 1;
    &frame[layout::PAYLOAD..end]
}
