// A Reset, Data or an Urgent taken in by a receiver.
// Proved: the answer, and the node, the book, the store and the host's block afterwards, are those of
// specs/Receiving.antt, for every memory, every number and every payload that a frame can carry.
#![tactic(auto)]

ghost use Rattle.std.specs.Prelude.{◌≡◌, [], ◌∷◌, ◌<◌, length};
ghost use Rattle.std.proofs.lemmas.List.Edits.{sets};
ghost use Rattle.blocks.specs.Blocks.{block_of};
ghost use Rattle.end_points.specs.Lent.{whole};
ghost use Rattle.arrive_data.specs.Receiving.{reset_answer, reset_node, window_node, put_store, put_book, data_answer};
ghost use Rattle.arrive_data.specs.Receiving.{data_after, urgent_answer};

use blocks::carried::Payload;
use blocks::{Owner, put_block, put_none, put_one};
use end_points::answers::Was;
use end_points::states::{anew_run, is_new};
use end_points::{EndPoint, State, save};
use memory::layout;
use slots::{cell_of, slot_for, spot_of};
use units::Seq;
use units::bytes::{put, put_all};
use waiting::acks;
use window::Window;

// A Reset, at Enabled or Open: the receiver is Open at start 1, with acknowledgement 0 alone waiting for it.
#[tactic(auto, unfolding(crate::specs::Receiving::reset_answer, crate::specs::Receiving::reset_node))]
pub fn take_reset(node: &mut [u64], i: u8, e: EndPoint) -> Was
    ensures answer { result ≡ reset_answer e }
    ensures after { node.new ≡ reset_node node.old i e }
{
    let run = e.run;
    acks::drop(node, i);
    acks::push(node, i, Seq(0));
    save(node, i as usize, State::Open, anew_run(run));
    Was::Reset(run.window.held_count())
}

// Data, at Open: a new payload in the window is kept, and what then follows the start without a gap is delivered;
// any other is dropped. An acknowledgement waits in all cases.
#[tactic(auto, unfolding(crate::specs::Receiving::data_answer, crate::specs::Receiving::given, crate::specs::Receiving::data_after))]
pub fn take_data(
    node: &mut [u64],
    book: &mut [u16],
    store: &mut [u8],
    out: &mut [u8],
    i: u8,
    e: EndPoint,
    s: Seq,
    payload: Payload,
) -> Was
    ensures answer { let x = whole node.old book.old store.old out.old in
        result ≡ data_answer x i e s.0 payload.entry.bytes.now }
    ensures after { let x = whole node.old book.old store.old out.old in
        whole node.new book.new store.new out.new
        ≡ data_after x i e s.0 payload.entry.bytes.now }
{
    let window = e.run.window;
    acks::push(node, i, s);
    let accepted = window.accept(s);
    let found = accepted.found;
    if is_new(found) {
        keep(book, store, i, e, s, payload);
        let passed = accepted.window.pass();
        let owner = Owner {
            entry: i,
            place: e.place,
            largest: e.entry.largest,
            window,
        };
        let n = put_block(out, store, book, owner, passed.run);
        put_window(node, i, passed.window);
        return Was::Data(n);
    }
    Was::Data(put_none(out))
}

// A payload lies in the slot of its number.
fn keep(book: &mut [u16], store: &mut [u8], i: u8, e: EndPoint, s: Seq, payload: Payload)
    ensures length { book.new ≡ put_book book.old i e s.0 payload.entry.bytes.now }
    ensures bytes { store.new ≡ put_store store.old e s.0 payload.entry.bytes.now }
{
    let window = e.run.window;
    cell_of(i, window, s).put_length(book, payload.bytes.len() as u16);
    put_all(
        store,
        spot_of(e.place, e.entry.largest, slot_for(window, s)),
        payload.bytes,
    )
}

// Another window: of the run's words three alter, and no other is written.
fn put_window(node: &mut [u64], i: u8, w: Window)
    ensures { node.new ≡ window_node node.old i w }
{
    let at = layout::ENTRY_AT + layout::ENTRY_WORDS * i as usize;
    put(node, at + layout::START, w.start.0 as u64);
    put(node, at + layout::LOW_MARKS, w.marks.0);
    put(node, at + layout::HIGH_MARKS, w.marks.1)
}

// An Urgent, at Open: it is delivered, and not acknowledged.
#[tactic(auto, unfolding(crate::specs::Receiving::urgent_answer))]
pub fn take_urgent(out: &mut [u8], payload: Payload) -> Was
    ensures answer { result ≡ urgent_answer out.old payload.entry.bytes.now }
    ensures after { out.new ≡ sets out.old 0 (block_of (payload.entry.bytes.now ∷ [])) }
{
    Was::Urgent(put_one(out, payload))
}
