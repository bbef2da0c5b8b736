// An entry's timers in the book, and what comes of one that runs out.
ghost use Rattle.std.specs.Prelude.{◌≡◌, ◌<◌};
ghost use Rattle.call_tick.specs.Ticking.{timers_of, expired, tick_cell, stood_cell, tick_slot, ticked};

use end_points::EndPoint;
use memory::layout;
use slots::cells::Cell;
use slots::{cell_of, idle};
use waiting::{port, queues};
use window::advance;

// How far the tick of an entry's timers has come: whether the end is Failing, how many timers still run, and the least
// that is left of one. That fewer than 256 run is asked before each step, and is no invariant: a step may add one.
#[derive(Clone, Copy)]
pub struct Timers {
    pub failing: bool,
    pub running: u64,
    pub least: u16,
}

// The timer of cell g comes to zero. Whether the end is Failing is asked here, at each: the loop may have made it so.
fn expire(book: &mut [u16], i: u8, e: EndPoint, g: Cell, t: Timers) -> Timers
    ensures { timers_of book.new result ≡ expired i e g (timers_of book.old t) }
{
    if t.failing {
        g.put_timer(book, 0);
        return t;
    }
    let retries = g.retries(book);
    if retries < e.entry.retries as u16 {
        g.put_timer(book, 0);
        g.put_retries(book, retries + 1);
        queues::append(book, layout::RESENDS, g.id());
        return t;
    }
    let run = e.run;
    idle(book, i, run);
    g.put_timer(book, 0);
    Timers { failing: true, ..t }
}

// In tick c the timer of cell g, which runs out at tick d. That it runs on is tested before that it is due, since most
// do.
fn tick_cell(book: &mut [u16], i: u8, e: EndPoint, c: u16, g: Cell, d: u16, t: Timers) -> Timers
    requires { t.running < 256 }
    ensures { timers_of book.new result ≡ tick_cell c i e g d (timers_of book.old t) }
{
    if d == 0 {
        return t;
    }
    if d != c {
        return Timers {
            running: t.running + 1,
            least: timing::soonest(t.least, c, d),
            ..t
        };
    }
    expire(book, i, e, g, t)
}

// The timer of Data that is under way, with d in its place: it stands, and the end waits for it.
fn stand(book: &[u16], d: u16, t: Timers) -> Timers
    requires { t.running < 256 }
    ensures { timers_of book.now result ≡ stood_cell d (timers_of book.now t) }
{
    if d == 0 {
        return t;
    }
    Timers {
        running: t.running + 1,
        ..t
    }
}

// The timer of the number k past the start, where the number `out` is under way.
#[tactic(auto, unfolding(crate::specs::Ticking::tick_slot))]
fn tick_slot(book: &mut [u16], i: u8, e: EndPoint, c: u16, out: u16, k: u8, t: Timers) -> Timers
    requires { t.running < 256 }
    ensures { timers_of book.new result ≡ tick_slot c i e out k (timers_of book.old t) }
{
    let window = e.run.window;
    let s = advance(window.start, k);
    let g = cell_of(i, window, s);
    let d = g.timer(book);
    if s.0 as u16 == out {
        return stand(book, d, t);
    }
    tick_cell(book, i, e, c, g, d, t)
}

// The timers of all numbers handed out, in window order. What they come to is carried in locals, not in one of
// `Timers`: so all stay in registers.
#[tactic(auto, unfolding(crate::specs::Ticking::tick_slots))]
pub fn tick_slots(
    book: &mut [u16],
    i: u8,
    e: EndPoint,
    c: u16,
    mut failing: bool,
    mut least: u16,
) -> Timers
    ensures after { timers_of book.new result ≡ ticked c i e failing book.old least }
    ensures running_bound { result.running < 256 }
{
    let handed = e.run.handed;
    let out = port::data_out(book, i);
    let mut running: u64 = 0;
    for k in 0..handed {
        let t = tick_slot(
            book,
            i,
            e,
            c,
            out,
            k,
            Timers {
                failing,
                running,
                least,
            },
        );
        failing = t.failing;
        running = t.running;
        least = t.least;
    }
    Timers {
        failing,
        running,
        least,
    }
}
