// An acknowledgement taken in by a sender: at Enabled it may open the run, at Open and Failing it may count.
// Proved: the answer, the node and the book afterwards are those of specs/Acking.antt, for every memory and every
// number; an acknowledgement that is ignored alters nothing.
#![tactic(auto)]

ghost use Rattle.std.specs.Prelude.{◌≡◌, ◌<◌};
ghost use Rattle.end_points.specs.declared.State.TheVariants as state;
ghost use Rattle.arrive_ack.specs.Acking.{fewer, moved, opened_run, tallied, reset_gone, stopped, ack_answer};
ghost use Rattle.arrive_ack.specs.Acking.{counted_node, ack_node, ack_book};

use end_points::answers::Was;
use end_points::states::{anew_run, is_new};
use end_points::{EndPoint, Run, State, save};
use memory::layout;
use slots::cell_of;
use slots::cells::Cell;
use units::bytes::put;
use units::{Seq, Unfolded};
use waiting::queues;
use window::{Passed, distance};

// What a number that counts at Open or Failing comes to: the run afterwards, and how many numbers the start passed.
#[derive(Clone, Copy)]
struct Tally {
    next: Run,
    passed: u8,
}

// The run whose start has passed some numbers.
fn moved_run(r: Run, p: Passed) -> Run
    ensures { result ≡ moved r p }
{
    let window = p.window;
    Run {
        window,
        taken: r.taken.saturating_sub(p.run),
        handed: r.handed.saturating_sub(p.run),
        confirmed: Unfolded(r.confirmed.0.wrapping_add(p.run as u32)),
        ..r
    }
}

// What s comes to where it counts; else it is ignored.
#[tactic(auto, unfolding(crate::specs::Acking::tallied, crate::specs::Acking::counts, crate::specs::Acking::acked_run))]
fn tally_of(r: Run, s: Seq) -> Option<Tally>
    ensures { result ≡ tallied r s.0 }
{
    let window = r.window;
    if r.handed <= distance(window.start, s) {
        return None;
    }
    let accepted = window.accept(s);
    let found = accepted.found;
    if !is_new(found) {
        return None;
    }
    let marked = accepted.window;
    let passed = marked.pass();
    Some(Tally {
        next: moved_run(r, passed),
        passed: passed.run,
    })
}

// The run at its opening.
#[tactic(auto, unfolding(crate::specs::Acking::opened_run, end_points::specs::Runs::anew))]
fn opened_run(r: Run) -> Run
    ensures { result ≡ opened_run r }
{
    Run {
        accepted: Unfolded(0),
        confirmed: Unfolded(0),
        ..anew_run(r)
    }
}

// Takes the waiting Reset out of its queue: one waits exactly where its timer t is 0.
fn drop_reset(book: &mut [u16], i: u8, t: u16)
    ensures { book.new ≡ reset_gone book.old i t }
{
    if t == 0 {
        queues::unlink(book, layout::RESET_ID + i as u16);
    }
}

// At Enabled, with a Reset's timer and whether one went out. This and its like for Open and for Failing have the call's
// own three definitions, each at its state.
#[tactic(auto, unfolding(crate::specs::Acking::ack_answer, crate::specs::Acking::ack_node, crate::specs::Acking::ack_book))]
fn at_enabled(
    node: &mut [u64],
    book: &mut [u16],
    i: u8,
    e: EndPoint,
    t: u16,
    sent: bool,
    s: Seq,
) -> Was
    ensures answer { result ≡ ack_answer e (state.Enabled t sent) s.0 }
    ensures node { node.new ≡ ack_node node.old book.old i e (state.Enabled t sent)
        s.0 }
    ensures book { book.new ≡ ack_book book.old i e (state.Enabled t sent) s.0 }
{
    if !sent {
        return Was::Ignored;
    }
    if s.0 != 0 {
        return Was::Ignored;
    }
    let run = e.run;
    save(node, i as usize, State::Open, opened_run(run));
    drop_reset(book, i, t);
    Was::Opened
}

// The timer of cell g stops, and a waiting retransmission goes: at Open one waits where the timer's place is 0.
#[tactic(auto, unfolding(crate::specs::Acking::stopped))]
fn stop(book: &mut [u16], g: Cell)
    ensures { book.new ≡ stopped book.old g }
{
    if g.timer(book) == 0 {
        queues::unlink(book, g.id());
        g.put_timer(book, 0);
        return;
    }
    g.put_timer(book, 0)
}

// A number counts: of the run's words six alter, and no other is written.
fn put_counted(node: &mut [u64], i: u8, r: Run)
    ensures { node.new ≡ counted_node node.old i r }
{
    let at = layout::ENTRY_AT + layout::ENTRY_WORDS * i as usize;
    put(node, at + layout::START, r.window.start.0 as u64);
    put(node, at + layout::LOW_MARKS, r.window.marks.0);
    put(node, at + layout::HIGH_MARKS, r.window.marks.1);
    put(node, at + layout::TAKEN, r.taken as u64);
    put(node, at + layout::HANDED, r.handed as u64);
    put(node, at + layout::CONFIRMED, r.confirmed.0 as u64)
}

// At Open.
#[tactic(auto, unfolding(crate::specs::Acking::tallied, crate::specs::Acking::ack_answer, crate::specs::Acking::ack_node, crate::specs::Acking::ack_book))]
fn at_open(node: &mut [u64], book: &mut [u16], i: u8, e: EndPoint, s: Seq) -> Was
    ensures answer { result ≡ ack_answer e state.Open s.0 }
    ensures node { node.new ≡ ack_node node.old book.old i e state.Open s.0 }
    ensures book { book.new ≡ ack_book book.old i e state.Open s.0 }
{
    let run = e.run;
    let Some(tally) = tally_of(run, s) else {
        return Was::Ignored;
    };
    stop(book, cell_of(i, e.run.window, s));
    put_counted(node, i, tally.next);
    Was::Acknowledged(tally.passed)
}

// How many of n timers run once one that stood at t is stopped.
fn fewer_of(t: u16, n: u16) -> u16
    ensures { result ≡ fewer t n }
{
    if t == 0 {
        return n;
    }
    n.saturating_sub(1)
}

// At Failing, with the number of timers that still run.
#[tactic(auto, unfolding(crate::specs::Acking::tallied, crate::specs::Acking::ack_answer, crate::specs::Acking::ack_node, crate::specs::Acking::ack_book))]
fn at_failing(node: &mut [u64], book: &mut [u16], i: u8, e: EndPoint, n: u16, s: Seq) -> Was
    ensures answer { result ≡ ack_answer e (state.Failing n) s.0 }
    ensures node { node.new ≡ ack_node node.old book.old i e (state.Failing n)
        s.0 }
    ensures book { book.new ≡ ack_book book.old i e (state.Failing n) s.0 }
{
    let run = e.run;
    let Some(tally) = tally_of(run, s) else {
        return Was::Ignored;
    };
    let g = cell_of(i, e.run.window, s);
    let running = fewer_of(g.timer(book), n);
    g.put_timer(book, 0);
    save(node, i as usize, State::Failing(running), tally.next);
    timing::rouse(node);
    Was::Acknowledged(tally.passed)
}

// Acknowledgement s reaches entry i, a sender whose end point is e.
#[tactic(auto, unfolding(crate::specs::Acking::ack_answer, crate::specs::Acking::ack_node, crate::specs::Acking::ack_book))]
pub fn acknowledge(node: &mut [u64], book: &mut [u16], i: u8, e: EndPoint, s: Seq) -> Was
    ensures answer { result ≡ ack_answer e e.state s.0 }
    ensures node { node.new ≡ ack_node node.old book.old i e e.state s.0 }
    ensures book { book.new ≡ ack_book book.old i e e.state s.0 }
{
    let state = e.state;
    match state {
        State::Closed => Was::Ignored,
        State::Enabled(t, sent) => at_enabled(node, book, i, e, t, sent, s),
        State::Open => at_open(node, book, i, e, s),
        State::Failing(n) => at_failing(node, book, i, e, n, s),
    }
}
