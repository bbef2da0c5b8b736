// Timers by the tick at which they run out: the node's clock, what is left of a timer, and how long none can run out.
// Proved: each function is the definition of specs/Timing.antt that it cites, for every memory. proofs/Falling.antt:
// what is left falls by one a tick, and a tick before the bound passes over none that is due.
#![tactic(auto)]

ghost use Rattle.std.specs.Prelude.{◌≡◌};
ghost use Rattle.timing.specs.Timing.{clock_in, quiet_in, later as later_than, left_of, soonest as soonest_of};
ghost use Rattle.timing.specs.Timing.{passed, heeded, roused};

use memory::{layout, word_at};
use units::bytes::put;

// How many ticks a round of the clock has: it shows 1 to this, so that 0 can mean that a timer does not run.
pub const ROUND: u16 = 65535;

// A timer's place while its frame is under way: it does not run yet, and is not 0, since nothing of it waits. Tick 1
// has the same number, so the place alone does not say which it is, and no enum can be read from it.
pub const STANDING: u16 = 1;

// The number of the last tick, 0 before the first.
pub fn clock(node: &[u64]) -> u16
    ensures { result ≡ clock_in node.now }
{
    (word_at(node, layout::CLOCK_AT) % 65536) as u16
}

// How many ticks pass before a timer can run out.
pub fn quiet(node: &[u64]) -> u64
    ensures { result ≡ quiet_in node.now }
{
    word_at(node, layout::QUIET_AT)
}

// The number of the tick n ticks after tick c.
pub fn later(c: u16, n: u16) -> u16
    ensures { result ≡ later_than c n }
{
    let s = c as u32 + n as u32;
    if s <= ROUND as u32 {
        return s as u16;
    }
    (s - ROUND as u32) as u16
}

// What is left after tick c of a timer that runs out at tick d: of one that does not run it is 0 (`left_of`).
pub fn left(c: u16, d: u16) -> u16
    ensures { result ≡ left_of c d }
{
    if d == 0 {
        return 0;
    }
    if c < d {
        return d - c;
    }
    d + (ROUND - c)
}

// The smaller of `least` and what is left, after tick c, of a timer that runs out at tick d: three numbers of one line,
// and no struct.
pub fn soonest(least: u16, c: u16, d: u16) -> u16
    ensures { result ≡ soonest_of least c d }
{
    least.min(left(c, d))
}

// Tick c has passed; `quiet` more may pass before the entries have to be gone through.
pub fn pass(node: &mut [u64], c: u16, quiet: u64)
    ensures { node.new ≡ passed node.old c quiet }
{
    put(node, layout::CLOCK_AT, c as u64);
    put(node, layout::QUIET_AT, quiet)
}

// A timer of t ticks starts: fewer than t may pass before the entries are gone through.
pub fn heed(node: &mut [u64], t: u16)
    ensures { node.new ≡ heeded node.old t }
{
    let fewer = t.saturating_sub(1) as u64;
    put(node, layout::QUIET_AT, quiet(node).min(fewer))
}

// The next tick goes through the entries.
pub fn rouse(node: &mut [u64])
    ensures { node.new ≡ roused node.old }
{
    put(node, layout::QUIET_AT, 0)
}
