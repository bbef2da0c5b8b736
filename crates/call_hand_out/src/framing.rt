// A frame's fields, and its bytes where the buffer has room for them.
ghost use Rattle.std.specs.Prelude.{◌≡◌};
ghost use Rattle.std.proofs.lemmas.List.Edits.{sets};
ghost use Rattle.frame.specs.Layout.{frame_bytes};
ghost use Rattle.call_hand_out.specs.Handing.{fields_to, fitted, once};

use end_points::heads;
use frame::writing::emit;
use frame::{Fields, FrameType, layout};
use table::Entry;
use units::Seq;
use units::refusals::Refusal;

// The fields of a frame of type t, with number s, to the end that an entry names.
#[tactic(auto, unfolding(crate::specs::Handing::fields_to))]
pub fn fields_to(node: &[u64], e: Entry, t: FrameType, s: Seq) -> Fields
    ensures { result ≡ fields_to node.now e t s.0 }
{
    let destination = e.remote;
    let channel = e.channel;
    Fields {
        destination,
        protocol: heads::protocol(node),
        source: heads::own(node),
        kind: u8::from(t),
        user: 0,
        channel,
        seq: s,
    }
}

// The frame's bytes from the buffer's start on and their number, or refusal 6 with the buffer as it was.
pub fn put_frame(frame: &mut [u8], fields: Fields, payload: &[u8]) -> Result<usize, Refusal>
    ensures answer { result ≡ fitted frame.old (frame_bytes fields payload.now) }
    ensures frame { frame.new ≡ once result frame.old
        (sets frame.old 0 (frame_bytes fields payload.now)) }
{
    let n = payload.len() + layout::OVERHEAD;
    if frame.len() < n {
        return Err(Refusal::TooShort);
    }
    emit(frame, fields, payload);
    Ok(n)
}
