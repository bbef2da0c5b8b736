// The four types of frame, and what each asks of payload and sequence.
ghost use Rattle.std.specs.Prelude.{◌≡◌};
ghost use Rattle.frame.specs.Types.{suits, seq_reads, seq_writes, seq_given};

use crate::{FrameType, layout};
use units::Seq;
use units::refusals::Refusal;

// A type's number.
impl From<FrameType> for u8 {
    ghost use Rattle.std.specs.Prelude.{◌≡◌};
    ghost use Rattle.frame.specs.Types.{type_number};

    ghost from_gives = { λ kind number. number ≡ type_number kind };

    fn from(kind: FrameType) -> u8 {
        match kind {
            FrameType::Data => 0,
            FrameType::Acknowledge => 1,
            FrameType::Reset => 2,
            FrameType::Urgent => 3,
        }
    }
}

impl TryFrom<u8> for FrameType {
    ghost use Rattle.std.specs.Prelude.{◌≡◌};
    ghost use Rattle.frame.specs.Types.{known_of};

    type Error = Refusal;

    ghost try_from_gives = { λ number kind. kind ≡ known_of number };

    // The type that a number stands for. [F7, G4]
    fn try_from(number: u8) -> Result<FrameType, Refusal> {
        match number {
            0 => Ok(FrameType::Data),
            1 => Ok(FrameType::Acknowledge),
            2 => Ok(FrameType::Reset),
            3 => Ok(FrameType::Urgent),
            4..=255 => Err(Refusal::UnknownType),
        }
    }
}

// Whether a payload of n bytes fits a type.
pub fn payload_suits(kind: FrameType, n: usize) -> bool
    ensures { result ≡ suits kind n }
{
    match kind {
        FrameType::Data => 1 <= n && n <= layout::LARGEST,
        FrameType::Acknowledge => n == 0,
        FrameType::Reset => n == 0,
        FrameType::Urgent => 1 <= n && n <= layout::LARGEST,
    }
}

// Whether a frame of a type may be read with a sequence.
pub fn seq_reads(kind: FrameType, seq: Seq) -> bool
    ensures { result ≡ seq_reads kind seq.0 }
{
    match kind {
        FrameType::Data => true,
        FrameType::Acknowledge => true,
        FrameType::Reset => seq.0 == 0,
        FrameType::Urgent => true,
    }
}

// Whether a frame of a type may be written with a sequence.
pub fn seq_writes(kind: FrameType, seq: Seq) -> bool
    ensures { result ≡ seq_writes kind seq.0 }
{
    match kind {
        FrameType::Data => true,
        FrameType::Acknowledge => true,
        FrameType::Reset => seq.0 == 0,
        FrameType::Urgent => seq.0 == 0,
    }
}

// The sequence that the reader gives: an Urgent's is not looked at.
pub fn seq_given(kind: FrameType, seq: Seq) -> Seq
    ensures { result ≡ record { 0 = seq_given kind seq.0 } }
{
    match kind {
        FrameType::Data => seq,
        FrameType::Acknowledge => seq,
        FrameType::Reset => seq,
        FrameType::Urgent => Seq(0),
    }
}
