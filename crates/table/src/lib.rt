// The channel table: what its bytes say, which tables are good, and which area of the lent store each
// entry owns.
// Proved: each function is the definition of specs/ that it cites, for every slice; none asks anything of
// its caller. specs/Rules.antt says which tables are good, specs/Areas.antt where the areas lie, specs/Laws.antt
// what holds of good tables.
#![tactic(auto)]

mod layout; // layout.rt: reading the bytes
mod areas; // areas.rt: the entries' areas of the lent store
mod rules; // rules.rt: which tables are good

pub use areas::{area, store_need};
pub use layout::{count, entry_at, own, protocol};
pub use rules::is_good;
use units::{Address, Channel};

// What an entry's end point does.
#[derive(Clone, Copy, Debug, PartialEq, Eq)]
pub enum Kind {
    Sends,
    Receives,
}

// What a table says of one end point. The window is the one in force.
#[derive(Clone, Copy, Debug, PartialEq, Eq)]
pub struct Entry {
    pub kind: Kind,
    pub remote: Address,
    pub channel: Channel,
    pub retries: u8,
    pub window: u16,
    pub largest: u16,
    pub timeout: u16,
}
