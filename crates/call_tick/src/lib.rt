// A tick of the driver's: every running timer falls by one, entries in table order, an entry's timers in window order;
// then each Failing end with no timer running and no frame of its own under way becomes Enabled. A timer falls by the
// clock, and a tick in which none can run out does no more than move that.
// Proved: `tick` is the definition of specs/Ticking.antt, for every memory; it refuses nothing. proofs/Apart.antt: what
// a tick makes of an entry leaves every other entry as it was.
#![tactic(auto)]

mod timers; // timers.rt: an entry's timers

ghost use Rattle.std.specs.Prelude.{◌≡◌, [], ◌<◌, ◌≤◌, ◌^◌};
ghost use Rattle.units.specs.Refusals.{pick};
ghost use Rattle.end_points.specs.Ends.{end_of};
ghost use Rattle.end_points.specs.Lent.{bare};
ghost use Rattle.call_tick.specs.Ticking.{ticked, tick_enabled, tick_open, tick_failing, tick_entry, tick_entries};
ghost use Rattle.call_tick.specs.Ticking.{recover as recovered, recover_all, entries as entries_of, scan_after};
ghost use Rattle.call_tick.specs.Ticking.{scan_of, tick_answer, tick_after};
ghost use Rattle.end_points.specs.States.{is_over};

use end_points::states::{anew_run, is_open, without_urgent};
use end_points::{State, heads, load, load_state, run_of, save};
use memory::layout;
use timers::tick_slots;
use units::limits;
use waiting::{port, queues};

// In tick c entry i at Enabled, with its Reset's timer running out at tick d: then the Reset waits again. While it is
// under way its timer stands. Answers the least that is left of a timer, as each of these does; `scan_of` is node, book
// and that number.
fn tick_enabled(
    node: &mut [u64],
    book: &mut [u16],
    i: u8,
    c: u16,
    d: u16,
    sent: bool,
    least: u16,
) -> u16
    ensures { scan_of node.new book.new result
        ≡ tick_enabled c (scan_of node.old book.old least) i (end_of node.old i)
        d sent }
{
    if d == 0 {
        return least;
    }
    if port::is_reset(port::under(book), i) {
        return least;
    }
    if d != c {
        return timing::soonest(least, c, d);
    }
    let run = run_of(node, i as usize);
    save(node, i as usize, State::Enabled(0, sent), run);
    queues::append(book, layout::RESETS, layout::RESET_ID + i as u16);
    least
}

// Entry i at Open or Failing: an open end is Failing from now on where a number's retries are spent, and only then does
// the node alter; one that was Failing says how many timers still run. The run is read again for that, and not carried
// through the loop, since it is seldom written.
fn tick_sent(node: &mut [u64], book: &mut [u16], i: u8, c: u16, failing: bool, least: u16) -> u16
    ensures { let y = scan_of node.old book.old least in
        let e = end_of node.old i in
        let t = ticked c i e failing book.old least in
        scan_of node.new book.new result ≡ pick failing (tick_failing y i e t) (tick_open y i e t) }
{
    let e = load(node, i as usize);
    let t = tick_slots(book, i, e, c, failing, least);
    if failing {
        let run = run_of(node, i as usize);
        save(node, i as usize, State::Failing(t.running as u16), run);
        return t.least;
    }
    if t.failing {
        let run = without_urgent(run_of(node, i as usize));
        save(node, i as usize, State::Failing(t.running as u16), run);
        return t.least;
    }
    t.least
}

// The timers of entry i.
#[tactic(auto, unfolding(crate::specs::Ticking::tick_entry, end_points::specs::Ends::end_of, crate::specs::Ticking::tick_state))]
fn tick_entry(node: &mut [u64], book: &mut [u16], i: u8, c: u16, least: u16) -> u16
    ensures { scan_of node.new book.new result
        ≡ tick_entry c i (scan_of node.old book.old least) }
{
    let state = load_state(node, i as usize);
    match state {
        State::Closed => least,
        State::Enabled(d, sent) => tick_enabled(node, book, i, c, d, sent, least),
        State::Open | State::Failing(_) => {
            let failing = !is_open(state);
            tick_sent(node, book, i, c, failing, least)
        }
    }
}

// Those of the first n entries, in table order.
#[tactic(auto, unfolding(crate::specs::Ticking::tick_entries))]
fn tick_entries(node: &mut [u64], book: &mut [u16], n: u8, c: u16) -> u16
    ensures { scan_of node.new book.new result
        ≡ tick_entries c n (scan_of node.old book.old 65535) }
{
    let mut least: u16 = 65535;
    for i in 0..n {
        least = tick_entry(node, book, i, c, least);
    }
    least
}

// Whether a state is Failing with no timer running.
fn is_over(s: State) -> bool
    ensures { result ≡ is_over s }
{
    matches!(s, State::Failing(0))
}

// Entry i becomes Enabled with a Reset waiting, and its bit is set, where it is Failing with no timer running and no
// frame of its own under way. The record of its contract is the definition's own, and its bounds are of entry and bits
// together, so no type of one has them.
#[tactic(auto, unfolding(crate::specs::Ticking::recover, end_points::specs::Ends::end_of))]
fn recover(node: &mut [u64], book: &mut [u16], i: u8, bits: u16) -> u16
    requires { (i < 16) × (bits < 2 ^ i) }
    ensures { record { lent = bare node.new book.new; bits = result }
        ≡ recovered i (record { lent = bare node.old book.old; bits = bits }) }
{
    if is_over(load_state(node, i as usize)) {
        if port::is_own(book, i) {
            return bits;
        }
        let run = anew_run(run_of(node, i as usize));
        save(node, i as usize, State::Enabled(0, false), run);
        queues::append(book, layout::RESETS, layout::RESET_ID + i as u16);
        return bits + (1 << i);
    }
    bits
}

// The same of the first n entries, in table order: the bits of those that became Enabled.
#[tactic(auto, unfolding(crate::specs::Ticking::recover_all))]
fn recover_all(node: &mut [u64], book: &mut [u16], n: u8) -> u16
    requires { n ≤ 16 }
    ensures { record { lent = bare node.new book.new; bits = result }
        ≡ recover_all n (record { lent = bare node.old book.old; bits = 0 }) }
{
    let mut bits: u16 = 0;
    for i in 0..n {
        bits = recover(node, book, i, bits);
    }
    bits
}

// How many entries there are: at most 16, whatever the memory says.
fn entries(node: &[u64]) -> u8
    ensures { result ≡ entries_of (bare node.now []) }
{
    heads::count(node).min(limits::ENTRIES)
}

// Tick c, where a timer can run out.
#[tactic(auto, unfolding(crate::specs::Ticking::scan_after, crate::specs::Ticking::scan_both))]
#[inline(never)]
fn scan(node: &mut [u64], book: &mut [u16], c: u16) -> u16
    ensures { record { lent = bare node.new book.new; bits = result }
        ≡ scan_after c (bare node.old book.old) }
{
    let n = entries(node);
    let least = tick_entries(node, book, n, c);
    let bits = recover_all(node, book, n);
    timing::pass(node, c, least.saturating_sub(1) as u64);
    bits
}

// A tick. Answers 16 bits, entry 0 lowest: the entries that became Enabled in it.
#[tactic(auto, unfolding(crate::specs::Ticking::tick_both, crate::specs::Ticking::tick_answer, crate::specs::Ticking::tick_after))]
pub fn tick(node: &mut [u64], book: &mut [u16]) -> u16
    ensures answer { result ≡ tick_answer (bare node.old book.old) }
    ensures after { bare node.new book.new
        ≡ tick_after (bare node.old book.old) }
{
    let c = timing::later(timing::clock(node), 1);
    let left = timing::quiet(node);
    if left != 0 {
        timing::pass(node, c, left - 1);
        return 0;
    }
    scan(node, book, c)
}
