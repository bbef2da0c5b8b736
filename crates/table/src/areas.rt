// The entries' areas of the lent store, in table order.
ghost use Rattle.std.specs.Prelude.{◌≡◌};
ghost use Rattle.table.specs.Areas.{slots_of, area_of, store_of};

use crate::layout::{count, entry_at};
use crate::{Entry, Kind};

// How many slots an end point of a kind has for a window.
fn slots(kind: Kind, window: u16) -> usize
    ensures { result ≡ slots_of kind window }
{
    match kind {
        Kind::Sends => window as usize + 1,
        Kind::Receives => window as usize,
    }
}

// How many bytes of the store an entry takes.
pub fn area(e: Entry) -> usize
    ensures { result ≡ area_of e }
{
    let kind = e.kind;
    slots(kind, e.window) * e.largest as usize
}

// How many bytes of the store all entries take.
#[tactic(auto, unfolding(crate::specs::Areas::place_of, crate::specs::Areas::store_of))]
pub fn store_need(table: &[u8]) -> usize
    ensures { result ≡ store_of table.now }
{
    let n = count(table) as usize;
    let mut need = 0;
    for i in 0..n {
        need += area(entry_at(table, i));
    }
    need
}
