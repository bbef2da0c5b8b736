// Send and Urgent: the host hands over a payload. It is put into its slot of the lent store and waits to be
// handed out.
// Proved: which answer is given, and what the node, the book and the store hold afterwards, for every memory and
// every payload; a refused call alters nothing. specs/Sending.antt states both calls.
#![tactic(auto)]

pub mod judging; // judging.rt: which of the two calls are refused

ghost use Rattle.std.specs.Prelude.{◌≡◌, ◌<◌, length};
ghost use Rattle.slots.specs.Slots.{cell};
ghost use Rattle.end_points.specs.Lent.{stored};
ghost use Rattle.call_send.specs.Sending.{send_answer, send_after, sent_node, sent_book, urgent_answer, urgent_after};
ghost use Rattle.call_send.specs.Sending.{laid_book, laid_store, urgent_run};

use end_points::{EndPoint, Run, State, heads, load, save};
use judging::{judge_send, judge_urgent};
use memory::layout;
use slots::{cell_of, slot_for, spot_of};
use units::Seq;
use units::bytes::{put, put_all};
use units::refusals::Refusal;
use waiting::queues;
use window::{Window, advance};

// The host sends a payload: it takes the next sequence number and waits as data.
#[tactic(auto, unfolding(crate::specs::Sending::send_answer, crate::specs::Sending::send_after))]
pub fn send(
    node: &mut [u64],
    book: &mut [u16],
    store: &mut [u8],
    index: usize,
    payload: &[u8],
) -> Result<(), Refusal>
    ensures answer { let x = stored node.old book.old store.old in
        result ≡ send_answer x index payload.now }
    ensures after { let x = stored node.old book.old store.old in
        stored node.new book.new store.new
        ≡ send_after x index payload.now result }
{
    if heads::count(node) as usize <= index {
        return Err(Refusal::NoEntry);
    }
    let e = load(node, index);
    judge_send(e, payload.len(), store.len(), heads::need(node))?;
    lay(book, store, index as u8, e, payload);
    put_sent(node, index as u8, e.run);
    Ok(())
}

// The host sends an Urgent: it lies in the sender's last slot and waits. What is tested and what is stored are not
// send's (`urgent_tests`, `urgent_run`), so the two share `judge_sender` alone.
#[tactic(auto, unfolding(crate::specs::Sending::urgent_answer, crate::specs::Sending::urgent_after))]
pub fn urgent(
    node: &mut [u64],
    book: &mut [u16],
    store: &mut [u8],
    index: usize,
    payload: &[u8],
) -> Result<(), Refusal>
    ensures answer { let x = stored node.old book.old store.old in
        result ≡ urgent_answer x index payload.now }
    ensures after { let x = stored node.old book.old store.old in
        stored node.new book.new store.new
        ≡ urgent_after x index payload.now result }
{
    if heads::count(node) as usize <= index {
        return Err(Refusal::NoEntry);
    }
    let e = load(node, index);
    judge_urgent(e, payload.len(), store.len(), heads::need(node))?;
    let run = e.run;
    queues::append(book, layout::URGENTS, layout::URGENT_ID + index as u16);
    let at = spot_of(e.place, e.entry.largest, run.window.size);
    put_all(store, at, payload);
    save(
        node,
        index,
        State::Open,
        urgent_run(run, payload.len() as u16),
    );
    Ok(())
}

// A payload lies in the slot of the next number, which waits as data. Its length is asked and no `Payload` taken: K6's
// note names this function as one that others call.
pub fn lay(book: &mut [u16], store: &mut [u8], i: u8, e: EndPoint, payload: &[u8])
    requires { length payload.now < 65536 }
    ensures book { book.new ≡ laid_book book.old i e (length payload.now) }
    ensures store { store.new ≡ laid_store store.old e payload.now }
{
    let window = e.run.window;
    let s = advance(window.start, e.run.taken);
    wait_as_data(book, i, window, s, payload.len() as u16);
    let at = spot_of(e.place, e.entry.largest, slot_for(window, s));
    put_all(store, at, payload)
}

// One payload more is taken and accepted: of the run's words two alter, and no other is written.
fn put_sent(node: &mut [u64], i: u8, r: Run)
    requires { (r.taken < 255) × (r.accepted.0 < 4294967295) }
    ensures { node.new ≡ sent_node node.old i r }
{
    let at = layout::ENTRY_AT + layout::ENTRY_WORDS * i as usize;
    put(node, at + layout::TAKEN, (r.taken + 1) as u64);
    put(node, at + layout::ACCEPTED, (r.accepted.0 + 1) as u64)
}

// The run with an Urgent of n bytes waiting.
#[tactic(auto, unfolding(crate::specs::Sending::urgent_run))]
fn urgent_run(mut r: Run, n: u16) -> Run
    ensures { result ≡ urgent_run r n }
{
    r.urgent = n;
    r
}

// Number s of entry i is a payload of n bytes that was never sent again, and waits as data.
#[tactic(auto, unfolding(crate::specs::Sending::sent_book))]
fn wait_as_data(book: &mut [u16], i: u8, w: Window, s: Seq, n: u16)
    ensures { book.new ≡ sent_book book.old (cell i w s.0) n }
{
    let g = cell_of(i, w, s);
    g.put_length(book, n);
    g.put_retries(book, 0);
    queues::append(book, layout::DATAS, g.id())
}
