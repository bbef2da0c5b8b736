// A sliding window of sequence numbers: where it starts, how many numbers it takes in, which of them are held.
// Every step takes the window by value and gives it back as it stands afterwards.
// Proved: each function is the definition of specs/ that it cites, for every input; none asks anything of its
// caller. specs/Law.antt has the window law, once over W; proofs/ what callers cite of the steps.
#![tactic(auto)]

ghost use Rattle.std.specs.Prelude.{◌≡◌, ◌+◌};
ghost use Rattle.window.specs.Numbers.{distance_of, seq_of};
ghost use Rattle.window.specs.Windows.{inside_of, held, held_count, new_of, accept_of, pass_of, reset_of};

use units::Seq;

mod words; // words.rt: marks in two words

// Marks for 128 offsets from a window's start, the low word first. Two words and no `u128`: the window law is over both
// (`joined`, `parted`), and a driver lends the record as it is.
#[derive(Clone, Copy)]
pub struct Marks(pub u64, pub u64);

// The numbers from start on, as many as size says. Mark k is set where the number k places after start is held.
#[derive(Clone, Copy)]
pub struct Window {
    pub start: Seq,
    pub size: u8,
    pub marks: Marks,
}

// What is found of a number that is offered.
#[derive(Clone, Copy)]
pub enum Found {
    New,
    Held,
    Outside,
}

#[derive(Clone, Copy)]
pub struct Accepted {
    pub window: Window,
    pub found: Found,
}

#[derive(Clone, Copy)]
pub struct Passed {
    pub window: Window,
    pub run: u8,
}

// How far s lies after start, going up and from 255 on to 0. [W1, G1]
pub fn distance(start: Seq, s: Seq) -> u8
    ensures { result ≡ distance_of start.0 s.0 }
{
    s.0.wrapping_sub(start.0)
}

// The number n places after s.
pub fn advance(s: Seq, n: u8) -> Seq
    ensures { result ≡ seq_of (s.0 + n) }
{
    Seq(s.0.wrapping_add(n))
}

impl Window {
    // A window at start 1 with nothing held.
    pub fn new(size: u8) -> Window
        ensures { result ≡ new_of size }
    {
        Window {
            start: Seq(1),
            size,
            marks: Marks(0, 0),
        }
    }

    // Whether s lies in the window.
    pub fn inside(self, s: Seq) -> bool
        ensures { result ≡ inside_of self s.0 }
    {
        distance(self.start, s) < self.size
    }

    // Whether the number k places after the start is held.
    pub fn holds(self, k: u8) -> bool
        ensures { result ≡ held self k }
    {
        words::is_set(self.marks, k)
    }

    // The window with s held too, where s lies in it and is new; and what was found of s. [W4, W6, G6]
    pub fn accept(self, s: Seq) -> Accepted
        ensures { result ≡ accept_of self s.0 }
    {
        let offset = distance(self.start, s);
        if self.size <= offset {
            return Accepted {
                window: self,
                found: Found::Outside,
            };
        }
        if words::is_set(self.marks, offset) {
            return Accepted {
                window: self,
                found: Found::Held,
            };
        }
        let marks = words::with_set(self.marks, offset);
        Accepted {
            window: Window { marks, ..self },
            found: Found::New,
        }
    }

    // The window past all that is held from its start on without a gap, and how many those are. [W5, W8, G6]
    #[tactic(auto, unfolding(crate::specs::Windows::pass_of))]
    pub fn pass(self) -> Passed
        ensures { result ≡ pass_of self }
    {
        let run = words::run(self.marks);
        let start = advance(self.start, run);
        let marks = words::shift_down(self.marks, run);
        Passed {
            window: Window {
                start,
                marks,
                ..self
            },
            run,
        }
    }

    // The window at start 1 again, with nothing held. [E8, G6]
    pub fn reset(self) -> Window
        ensures { result ≡ reset_of self }
    {
        Window::new(self.size)
    }

    // How many numbers are held.
    pub fn held_count(self) -> u8
        ensures { result ≡ held_count self }
    {
        words::count(self.marks)
    }
}
