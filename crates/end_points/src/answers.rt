// What the calls answer. specs/Answers.antt gives the paper's number and values of each case.
ghost use Rattle.std.specs.Prelude.{◌≡◌, get_or};
ghost use Rattle.end_points.specs.Answers.{state_number, what_of, value_of};

use crate::State;
use units::Unfolded;
use units::refusals::Refusal;

// A sender's counts: accepted and confirmed.
#[derive(Clone, Copy)]
pub struct Counts {
    pub accepted: Unfolded,
    pub confirmed: Unfolded,
}

// A plan: how many of its payloads were accepted, and what the next was refused with. [O3, O10]
#[derive(Clone, Copy)]
pub struct Plan {
    pub accepted: u8,
    pub stop: Result<(), Refusal>,
}

// What a frame was to the entry that took it in. [O3]
#[derive(Clone, Copy)]
pub enum Was {
    Ignored,
    // How many numbers the start passed.
    Acknowledged(u8),
    Opened,
    // How many payloads were held.
    Reset(u8),
    // The length of the host's block.
    Data(usize),
    Urgent(usize),
}

// An arrival: the index of the entry that the frame was for, and what it was there. [O3]
#[derive(Clone, Copy)]
pub struct Arrival {
    pub entry: u8,
    pub was: Was,
}

// A state's number: Closed, Enabled, Open, Failing. Not a `From`: a timer is not in it.
pub fn state_number(s: State) -> u8
    ensures { result ≡ state_number s }
{
    match s {
        State::Closed => 0,
        State::Enabled(_, _) => 1,
        State::Open => 2,
        State::Failing(_) => 3,
    }
}

// What a frame was, as a number: ignored, acknowledged, opened, Reset, Data, Urgent. Not a `From`: the value is not in
// it.
pub fn what(w: Was) -> u8
    ensures { result ≡ what_of w }
{
    match w {
        Was::Ignored => 0,
        Was::Acknowledged(_) => 1,
        Was::Opened => 2,
        Was::Reset(_) => 3,
        Was::Data(_) => 4,
        Was::Urgent(_) => 5,
    }
}

// Its value, 0 where it has none: that is C's number, and what asks for it is C's call alone (`lines` takes a `Was`
// apart).
pub fn value(w: Was) -> usize
    ensures { result ≡ get_or (value_of w) 0 0 }
{
    match w {
        Was::Ignored => 0,
        Was::Acknowledged(passed) => passed as usize,
        Was::Opened => 0,
        Was::Reset(held) => held as usize,
        Was::Data(n) => n,
        Was::Urgent(n) => n,
    }
}
