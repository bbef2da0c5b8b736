// What every layer shares: the papers' units, which are never taken for one another; the refusals and
// their numbers; big-endian numbers and runs of bytes in lent memory.
// Proved: each function is the definition of specs/ that it cites, for every input; none asks anything
// of its caller. A read past the end gives 0, a store past the end alters nothing.
#![tactic(auto)]

pub mod bytes; // bytes.rt: reading and writing lent bytes
pub mod limits; // limits.rt: the protocol's limits
pub mod sizes; // sizes.rt: which numbers are window sizes, and the default
pub mod refusals; // refusals.rt: why a call is refused, and what it answers then

ghost use Rattle.std.specs.Prelude.{◌≡◌, eqb};

// A sequence number, as a frame carries it. [U1, U2]
#[derive(Clone, Copy, Debug, PartialEq, Eq)]
pub struct Seq(pub u8);

// A channel number. [U1]
#[derive(Clone, Copy, Debug, PartialEq, Eq)]
pub struct Channel(pub u8);

// A SpaceWire logical address. [U1]
#[derive(Clone, Copy, Debug, PartialEq, Eq)]
pub struct Address(pub u8);

impl Address {
    // Whether it is the same as another.
    pub fn is(self, other: Address) -> bool
        ensures { result ≡ eqb self.0 other.0 }
    {
        self == other
    }
}

// A count of payloads from the start of a run on, which no byte folds. [U2]
#[derive(Clone, Copy, Debug, PartialEq, Eq)]
pub struct Unfolded(pub u32);
