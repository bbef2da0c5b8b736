// A receive window as a record that its driver lends and finds altered: thin functions over the steps by value. The
// record is the window itself, so its driver may also use it by value.
// Proved: afterwards the record is the window's own step applied to the record as it was lent, and the answer is that
// step's, for every record and number. None asks anything of its caller.
#![tactic(auto)]

ghost use Rattle.std.specs.Prelude.{◌≡◌};
ghost use Rattle.lent_window.specs.Lending.{Tests, Accepts, Passes, Resets};
ghost use Rattle.lent_window.specs.Received.{received_of};

use units::Seq;
use window::{Found, Marks, Window};

// Whether s lies in the window that is lent.
pub fn inside(w: &Window, s: Seq) -> bool
    ensures { Tests w.now s.0 result }
{
    let v = *w;
    v.inside(s)
}

// Holds s too, where s lies in the window and is new; says what was found of s. [W4, W6, G8]
pub fn accept(w: &mut Window, s: Seq) -> Found
    ensures { Accepts w.old s.0 result w.new }
{
    let v = *w;
    let a = v.accept(s);
    let next = a.window;
    *w = next;
    a.found
}

// Passes all that is held from the start on without a gap; says how many those are. [W5, G8]
pub fn pass(w: &mut Window) -> u8
    ensures { Passes w.old result w.new }
{
    let v = *w;
    let p = v.pass();
    let next = p.window;
    *w = next;
    p.run
}

// Starts at 1 again, with nothing held. [E8, G8]
pub fn reset(w: &mut Window)
    ensures { Resets w.old w.new }
{
    let v = *w;
    *w = v.reset();
}

// What comes of a number that arrives: the window afterwards, what was found of the number, how many were passed.
#[derive(Clone, Copy)]
pub struct Received {
    pub window: Window,
    pub found: Found,
    pub run: u8,
}

// For a caller that has no record to lend: the record is made here, lent to `accept` and to `pass`, and given back.
pub fn receive(start: Seq, size: u8, marks: Marks, s: Seq) -> Received
    ensures { result ≡ received_of start size marks s.0 }
{
    let mut w = Window { start, size, marks };
    let found = accept(&mut w, s);
    let run = pass(&mut w);
    Received {
        window: w,
        found,
        run,
    }
}
