// Setup, open, close, counts and state: an end point's life as the host rules it.
// Proved: which answer each call gives, and what the node and the book hold afterwards, for every memory and every
// table; a refused call alters nothing. specs/Setup.antt and specs/Opening.antt state the calls.
#![tactic(auto)]

mod setting; // setting.rt: setup from a channel table

ghost use Rattle.std.specs.Prelude.{◌≡◌};
ghost use Rattle.end_points.specs.Lent.{bare};
ghost use Rattle.call_open.specs.Opening.{open_answer, open_after, close_answer, close_after, silenced, counts_answer};
ghost use Rattle.call_open.specs.Opening.{state_answer};

use end_points::answers::Counts;
use end_points::states::{anew_run, is_closed, is_sends};
use end_points::{Run, State, heads, load, load_state, save};
use memory::layout;
pub use setting::{setup, store_need};
use slots::idle;
use units::refusals::Refusal;
use waiting::{acks, queues};

// The host opens an end point: it becomes Enabled, and a sender's Reset waits.
#[tactic(auto, unfolding(crate::specs::Opening::open_answer, crate::specs::Opening::open_after))]
pub fn open(node: &mut [u64], book: &mut [u16], index: usize) -> Result<(), Refusal>
    ensures answer { result ≡ open_answer (bare node.old book.old) index }
    ensures after { let x = bare node.old book.old in
        bare node.new book.new ≡ open_after x index result }
{
    if heads::count(node) as usize <= index {
        return Err(Refusal::NoEntry);
    }
    let e = load(node, index);
    let entry = e.entry;
    let kind = entry.kind;
    let state = e.state;
    let run = e.run;
    if !is_closed(state) {
        return Err(Refusal::WrongState);
    }
    save(node, index, State::Enabled(0, false), anew_run(run));
    if is_sends(kind) {
        queues::append(book, layout::RESETS, layout::RESET_ID + index as u16);
        return Ok(());
    }
    Ok(())
}

// The host closes an end point: what of it waits, waits no more. It begins as `open` does and goes on otherwise.
#[tactic(auto, unfolding(crate::specs::Opening::close_answer, crate::specs::Opening::close_after))]
pub fn close(node: &mut [u64], book: &mut [u16], index: usize) -> Result<(), Refusal>
    ensures answer { result ≡ close_answer (bare node.old book.old) index }
    ensures after { let x = bare node.old book.old in
        bare node.new book.new ≡ close_after x index result }
{
    if heads::count(node) as usize <= index {
        return Err(Refusal::NoEntry);
    }
    let e = load(node, index);
    let entry = e.entry;
    let kind = entry.kind;
    let state = e.state;
    let run = e.run;
    if is_closed(state) {
        return Err(Refusal::WrongState);
    }
    if is_sends(kind) {
        silence(book, index as u8, state, run);
        save(node, index, State::Closed, anew_run(run));
        return Ok(());
    }
    acks::drop(node, index as u8);
    save(node, index, State::Closed, anew_run(run));
    Ok(())
}

// What of a sender waits, waits no more.
#[tactic(auto, unfolding(crate::specs::Opening::silenced))]
fn silence(book: &mut [u16], i: u8, s: State, r: Run)
    ensures { book.new ≡ silenced i s r book.old }
{
    match s {
        State::Closed => {}
        State::Enabled(timer, _) => {
            if timer == 0 {
                queues::unlink(book, layout::RESET_ID + i as u16);
            }
        }
        State::Open => idle(book, i, r),
        State::Failing(_) => {}
    }
}

// How many payloads a sender has accepted, and how many of those are confirmed, in every state.
#[tactic(auto, unfolding(crate::specs::Opening::counts_answer))]
pub fn counts(node: &[u64], index: usize) -> Result<Counts, Refusal>
    ensures { result ≡ counts_answer node.now index }
{
    if heads::count(node) as usize <= index {
        return Err(Refusal::NoEntry);
    }
    let e = load(node, index);
    let entry = e.entry;
    let kind = entry.kind;
    let run = e.run;
    if !is_sends(kind) {
        return Err(Refusal::OtherKind);
    }
    let accepted = run.accepted;
    let confirmed = run.confirmed;
    Ok(Counts {
        accepted,
        confirmed,
    })
}

// An end point's state.
#[tactic(auto, unfolding(crate::specs::Opening::state_answer, end_points::specs::Ends::end_of))]
pub fn state(node: &[u64], index: usize) -> Result<State, Refusal>
    ensures { result ≡ state_answer node.now index }
{
    if heads::count(node) as usize <= index {
        return Err(Refusal::NoEntry);
    }
    Ok(load_state(node, index))
}
