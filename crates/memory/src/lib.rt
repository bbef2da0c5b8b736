// The node's memory: lent words of 64 bits (the node) and of 16 bits (its book), and what lies where in them.
// Proved: a read is `get_or` for every index: past the end it gives 0. A store is `put` of crates/units, which alters
// nothing there. So no caller has to say how long what it was lent is. specs/Layout.antt is the map.
#![tactic(auto)]

pub mod layout; // layout.rt: what lies where

ghost use Rattle.std.specs.Prelude.{◌≡◌, get_or};

use units::bytes::get_or;

// The word at an index.
pub fn word_at(ws: &[u64], i: usize) -> u64
    ensures { result ≡ get_or ws.now i 0 }
{
    get_or(ws, i, 0)
}

// The half word at an index.
pub fn half_at(hs: &[u16], i: usize) -> u16
    ensures { result ≡ get_or hs.now i 0 }
{
    get_or(hs, i, 0)
}
