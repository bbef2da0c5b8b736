// The report: the port says that the frame under way has ended. Data or a Reset starts its timer then, unless it was
// acknowledged, answered or closed meanwhile; an Acknowledge and an Urgent start nothing.
// Proved: the answer, and what node and book hold afterwards, are those of specs/Reporting.antt, for every memory; a
// report that is refused alters nothing.
#![tactic(auto)]

ghost use Rattle.std.specs.Prelude.{◌≡◌, set, Some, None};
ghost use Rattle.units.specs.Refusals.{pick};
ghost use Rattle.memory.specs.Layout.{timer_at};
ghost use Rattle.timing.specs.Timing.{clock_in, later};
ghost use Rattle.waiting.specs.Port.{out_number};
ghost use Rattle.slots.specs.Slots.{cell};
ghost use Rattle.end_points.specs.Ends.{end_of};
ghost use Rattle.end_points.specs.Lent.{bare};
ghost use Rattle.end_points.specs.declared.State.TheVariants as state;
ghost use Rattle.call_report.specs.Reporting.{report_answer, report_after, data_starts, started_node, started_book};

use end_points::{Run, State, load_entry, load_state, run_of, save};
use slots::cell_of;
use slots::cells::Cell;
use units::refusals::Refusal;
use waiting::port;
use window::distance;

// The cell whose timer of Data starts at its end: where its number is still handed out and its timer stands.
fn data_start(book: &[u16], i: u8, r: Run, u: u16) -> Option<Cell>
    ensures { result ≡ pick (data_starts book.now i r u)
        (Some (cell i r.window (out_number u))) None }
{
    if !port::is_data(u, i) {
        return None;
    }
    let window = r.window;
    let s = port::number(u);
    if r.handed <= distance(window.start, s) {
        return None;
    }
    let g = cell_of(i, window, s);
    if g.timer(book) == 0 {
        return None;
    }
    Some(g)
}

// The timer in cell g of entry i starts at T, which is answered.
#[tactic(auto, unfolding(end_points::specs::Ends::end_of))]
fn start_data(node: &[u64], book: &mut [u16], i: u8, g: Cell) -> u16
    ensures answer { result ≡ (end_of node.now i).entry.timeout }
    ensures after { book.new ≡ set book.old (timer_at g) (later (clock_in node.now) result) }
{
    let timeout = load_entry(node, i as usize).timeout;
    g.put_timer(book, timing::later(timing::clock(node), timeout));
    timeout
}

// At Enabled the timer of the Reset starts, where one went out since Enabled began. This and its like for Open and for
// Failing have the same two definitions, each at its state.
#[tactic(auto, unfolding(crate::specs::Reporting::started_node, end_points::specs::Ends::end_of))]
fn at_enabled(node: &mut [u64], book: &[u16], i: u8, d: u16, sent: bool, u: u16)
    ensures { node.new ≡ started_node node.old book.now i
        (end_of node.old i) (state.Enabled d sent) u }
{
    if !port::is_reset(u, i) {
        return;
    }
    if !sent {
        return;
    }
    let timeout = load_entry(node, i as usize).timeout;
    let over = timing::later(timing::clock(node), timeout);
    let run = run_of(node, i as usize);
    save(node, i as usize, State::Enabled(over, true), run);
    timing::heed(node, timeout)
}

// At Open the timer of Data starts.
#[tactic(auto, unfolding(crate::specs::Reporting::started_node, crate::specs::Reporting::started_book))]
fn at_open(node: &mut [u64], book: &mut [u16], i: u8, u: u16)
    ensures node { node.new ≡ started_node node.old book.old i
        (end_of node.old i) state.Open u }
    ensures book { book.new ≡ started_book node.old book.old i
        (end_of node.old i) state.Open u }
{
    let run = run_of(node, i as usize);
    let Some(g) = data_start(book, i, run, u) else {
        return;
    };
    let timeout = start_data(node, book, i, g);
    timing::heed(node, timeout)
}

// At Failing too, and the next tick goes through the entries, since none may be left to wait for.
#[tactic(auto, unfolding(crate::specs::Reporting::started_node, crate::specs::Reporting::started_book))]
fn at_failing(node: &mut [u64], book: &mut [u16], i: u8, n: u16, u: u16)
    ensures node { node.new ≡ started_node node.old book.old i
        (end_of node.old i) (state.Failing n) u }
    ensures book { book.new ≡ started_book node.old book.old i
        (end_of node.old i) (state.Failing n) u }
{
    let run = run_of(node, i as usize);
    if let Some(g) = data_start(book, i, run, u) {
        start_data(node, book, i, g);
    }
    timing::rouse(node)
}

// What the end of a frame of entry i starts, by its end point's state.
#[tactic(auto, unfolding(crate::specs::Reporting::started_node, crate::specs::Reporting::started_book, end_points::specs::Ends::end_of))]
fn start(node: &mut [u64], book: &mut [u16], i: u8, u: u16)
    ensures node { node.new ≡ started_node node.old book.old i
        (end_of node.old i) (end_of node.old i).state u }
    ensures book { book.new ≡ started_book node.old book.old i
        (end_of node.old i) (end_of node.old i).state u }
{
    match load_state(node, i as usize) {
        State::Closed => {}
        State::Enabled(d, sent) => at_enabled(node, book, i, d, sent, u),
        State::Open => at_open(node, book, i, u),
        State::Failing(n) => at_failing(node, book, i, n, u),
    }
}

// The end of the frame under way, or refusal 20 where none is.
#[tactic(auto, unfolding(crate::specs::Reporting::report_answer, crate::specs::Reporting::report_after))]
pub fn report(node: &mut [u64], book: &mut [u16]) -> Result<(), Refusal>
    ensures answer { result ≡ report_answer (bare node.old book.old) }
    ensures after { bare node.new book.new
        ≡ report_after (bare node.old book.old) result }
{
    let u = port::under(book);
    if u == 0 {
        return Err(Refusal::NoneUnderWay);
    }
    start(node, book, port::entry(u), u);
    port::end(book);
    Ok(())
}
