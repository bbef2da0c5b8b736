// The tests of an arrival at an entry: 13, 5, 14, 6, in this order.
ghost use Rattle.std.specs.Prelude.{◌≡◌, not, ◌&&◌, [], ◌∷◌, leb, ltb};
ghost use Rattle.units.specs.declared.refusals.Refusal.TheVariants as refusal;
ghost use Rattle.memory.specs.Layout.{ack_places};
ghost use Rattle.waiting.specs.Acks.{waiting_of};
ghost use Rattle.end_points.specs.Ends.{end_of};
ghost use Rattle.end_points.specs.Heads.{need_in};
ghost use Rattle.end_points.specs.States.{is_open};
ghost use Rattle.units.specs.Refusals.{verdict};
ghost use Rattle.call_arrive.specs.Arriving.{block_room, entry_tests};
ghost use Rattle.frame.specs.Types.{carries, answered};

use blocks::layout;
use end_points::states::{is_closed, is_open};
use end_points::{heads, load_entry, load_state};
use frame::FrameType;
use units::refusals::Refusal;
use waiting::acks;

// Whether a frame of a type carries a payload into a block.
fn is_delivered(t: FrameType) -> bool
    ensures { result ≡ carries t }
{
    matches!(t, FrameType::Data | FrameType::Urgent)
}

// Whether a frame of a type is acknowledged.
fn is_answered(t: FrameType) -> bool
    ensures { result ≡ answered t }
{
    matches!(t, FrameType::Data | FrameType::Reset)
}

// The room that Data and Urgent need in the block.
#[tactic(auto, unfolding(end_points::specs::Ends::end_of, end_points::specs::Ends::load_run))]
fn block_room(node: &[u64], i: u8) -> usize
    ensures { result ≡ block_room (end_of node.now i) }
{
    let entry = load_entry(node, i as usize);
    layout::EMPTY + (entry.window % 256) as usize * (layout::OFFSET_BYTES + entry.largest as usize)
}

// Data or a Reset, with so many acknowledgements waiting.
fn acks_full(t: FrameType, n: u8) -> bool
    ensures { result ≡ answered t && leb ack_places n }
{
    is_answered(t) && acks::MOST <= n
}

// Data and Urgent, with a payload of n bytes, for entry i, which is not Closed.
#[tactic(auto, unfolding(end_points::specs::Ends::end_of))]
fn judge_payload(
    node: &[u64],
    i: u8,
    t: FrameType,
    n: u16,
    store: usize,
    block: usize,
) -> Result<(), Refusal>
    ensures { let e = end_of node.now i in
        result ≡ verdict ((not (is_open e.state), refusal.NoEndPoint)
        ∷ (ltb e.entry.largest n, refusal.PayloadLength)
        ∷ (answered t && leb ack_places (waiting_of node.now), refusal.AcksFull)
        ∷ (ltb store (need_in node.now), refusal.TooShort)
        ∷ (ltb block (block_room e), refusal.TooShort) ∷ []) }
{
    let state = load_state(node, i as usize);
    if !is_open(state) {
        return Err(Refusal::NoEndPoint);
    }
    let entry = load_entry(node, i as usize);
    if entry.largest < n {
        return Err(Refusal::PayloadLength);
    }
    if acks_full(t, acks::waiting(node)) {
        return Err(Refusal::AcksFull);
    }
    if store < heads::need(node) {
        return Err(Refusal::TooShort);
    }
    if block < block_room(node, i) {
        return Err(Refusal::TooShort);
    }
    Ok(())
}

// Acknowledge and Reset.
fn judge_bare(node: &[u64], t: FrameType, store: usize) -> Result<(), Refusal>
    ensures { result ≡ verdict ((answered t && leb ack_places (waiting_of node.now), refusal.AcksFull)
        ∷ (ltb store (need_in node.now), refusal.TooShort) ∷ []) }
{
    if acks_full(t, acks::waiting(node)) {
        return Err(Refusal::AcksFull);
    }
    if store < heads::need(node) {
        return Err(Refusal::TooShort);
    }
    Ok(())
}

// The verdict on a frame of type t with a payload of n bytes, for entry i; with a store and a block of so many bytes.
// What it asks of the end point it reads itself, a word or two: the whole is read once the frame is to be taken in. The
// numbers are those of the paper's tests, one by one.
#[tactic(auto, unfolding(end_points::specs::Ends::end_of))]
pub fn judge(
    node: &[u64],
    i: u8,
    t: FrameType,
    n: u16,
    store: usize,
    block: usize,
) -> Result<(), Refusal>
    ensures { let ws = node.now in
        result ≡ verdict (entry_tests ws i (end_of ws i) t n store block) }
{
    if heads::count(node) <= i {
        return Err(Refusal::NoEndPoint);
    }
    let state = load_state(node, i as usize);
    if is_closed(state) {
        return Err(Refusal::NoEndPoint);
    }
    if is_delivered(t) {
        return judge_payload(node, i, t, n, store, block);
    }
    judge_bare(node, t, store)
}
