// Handing out: one frame a call, acknowledgements first, then Resets, Urgents, retransmissions, data; each sort in
// the order in which it began to wait. The frame is under way then, and no other goes out before its end is reported.
// Proved: the answer, and what node, book and frame buffer hold afterwards, are those of specs/Handing.antt, for every
// memory; a call that is refused alters nothing, and bytes after the frame stay.
#![tactic(auto)]

ghost use Rattle.std.specs.Prelude.{◌≡◌, nat_le, Some, None};
ghost use Rattle.units.specs.Refusals.{pick};
ghost use Rattle.memory.specs.Layout.{queues};
ghost use Rattle.waiting.specs.Queues.{next_of};
ghost use Rattle.end_points.specs.Lent.{whole};
ghost use Rattle.call_hand_out.specs.Handing.{next_out, hand_out_answer, hand_out_after};

use end_points::heads;
use memory::layout;
use units::refusals::Refusal;
use waiting::acks::Ack;
use waiting::{acks, port, queues};

mod framing; // framing.rt: a frame's fields, and its bytes where there is room
mod sorts; // sorts.rt: each sort, handed out

// What goes out next: an acknowledgement, or what has waited longest in a queue, by its number there.
#[derive(Clone, Copy)]
pub enum Next {
    Nothing,
    Ack(Ack),
    Reset(u16),
    Urgent(u16),
    Resend(u16),
    Data(u16),
}

// What has waited longest in queue q, by its number there. A queue that is followed by a queue's own number is empty.
fn waiting_in(book: &[u16], q: u16) -> Option<u16>
    ensures { result ≡ pick (nat_le queues (next_of book.now q)) (Some (next_of book.now q)) None }
{
    let first = queues::first(book, q);
    if first < layout::QUEUES {
        return None;
    }
    Some(first)
}

// What goes out next: the sorts in their order.
#[tactic(auto, unfolding(crate::specs::Handing::next_out))]
fn next_out(node: &[u64], book: &[u16]) -> Next
    ensures { result ≡ next_out node.now book.now }
{
    if 0 < acks::waiting(node) {
        return Next::Ack(acks::oldest(node));
    }
    if let Some(reset) = waiting_in(book, layout::RESETS) {
        return Next::Reset(reset);
    }
    if let Some(urgent) = waiting_in(book, layout::URGENTS) {
        return Next::Urgent(urgent);
    }
    if let Some(again) = waiting_in(book, layout::RESENDS) {
        return Next::Resend(again);
    }
    if let Some(data) = waiting_in(book, layout::DATAS) {
        return Next::Data(data);
    }
    Next::Nothing
}

// One frame is handed out into the buffer: its length, 0 where nothing waits, as C has it too (`handed_of`), or refusal
// 19 or 6.
#[tactic(auto, unfolding(crate::specs::Handing::hand_out_answer, crate::specs::Handing::hand_out_after, crate::specs::Handing::frame_out, crate::specs::Handing::out_node, crate::specs::Handing::out_book))]
pub fn hand_out(
    node: &mut [u64],
    book: &mut [u16],
    store: &[u8],
    frame: &mut [u8],
) -> Result<usize, Refusal>
    ensures answer { let x = whole node.old book.old store.now frame.old in
        result ≡ hand_out_answer x }
    ensures after { let x = whole node.old book.old store.now frame.old in
        whole node.new book.new store.now frame.new ≡ hand_out_after x result }
{
    if port::under(book) != 0 {
        return Err(Refusal::UnderWay);
    }
    if store.len() < heads::need(node) {
        return Err(Refusal::TooShort);
    }
    match next_out(node, book) {
        Next::Nothing => Ok(0),
        Next::Ack(a) => sorts::put_ack(node, book, frame, a),
        Next::Reset(x) => sorts::put_reset(node, book, frame, x),
        Next::Urgent(x) => sorts::put_urgent(node, book, store, frame, x),
        Next::Resend(x) => sorts::put_number::<false>(node, book, store, frame, x),
        Next::Data(x) => sorts::put_number::<true>(node, book, store, frame, x),
    }
}
