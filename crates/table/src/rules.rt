// Which tables are not refused with 1.
ghost use Rattle.std.specs.Prelude.{◌≡◌, ◌<◌};
ghost use Rattle.units.specs.Sizes.{may_write};
ghost use Rattle.table.specs.Layout.{count_of};
ghost use Rattle.table.specs.Rules.{every_below, is_address, head_good, timed as Rules·timed, numbers_good, form_good};
ghost use Rattle.table.specs.Rules.{entry_good, agree as Rules·agree, apart as Rules·apart, good_table};

use crate::areas::store_need;
use crate::layout::{
    ENTRY, HEAD, count, entry_at, entry_from, first, head_zeros, own, protocol, window_from,
    zeros_from,
};
use crate::{Entry, Kind};
use units::bytes::byte_at;
use units::sizes::is_size;
use units::{Address, limits};

// Whether a table breaks no rule.
#[tactic(auto, unfolding(crate::specs::Rules::good_table, crate::specs::Rules::fits))]
pub fn is_good(table: &[u8]) -> bool
    ensures { result ≡ good_table table.now }
{
    head_good(table) && entries_good(table) && store_need(table) <= limits::STORE
}

// Whether the head keeps its rules, and the length is the count's.
#[tactic(auto, unfolding(crate::specs::Rules::head_good))]
fn head_good(table: &[u8]) -> bool
    ensures { result ≡ head_good table.now }
{
    let n = count(table) as usize;
    n <= limits::ENTRIES as usize
        && table.len() == HEAD + ENTRY * n
        && first(table) as usize == HEAD
        && is_address(own(table))
        && 1 <= protocol(table)
        && head_zeros(table) == 0
}

fn is_address(a: Address) -> bool
    ensures { result ≡ is_address a }
{
    32 <= a.0 && a.0 <= 254
}

// Whether every entry keeps its rules. Its like in crates/trace tests something else: a closure for the test would
// need the bound on i in its contract, and be no shorter.
#[tactic(auto, using(crate::proofs::Every::every_none, crate::proofs::Every::every_more))]
fn entries_good(table: &[u8]) -> bool
    ensures { result ≡ every_below (count_of table.now) (entry_good table.now) }
{
    let n = count(table) as usize;
    for i in 0..n {
        if !entry_good(table, i) {
            return false;
        }
    }
    true
}

// Whether entry i keeps its rules: its bytes, and that it agrees with none before it.
fn entry_good(table: &[u8], i: usize) -> bool
    requires { i < 65536 }
    ensures { result ≡ entry_good table.now i }
{
    form_good(table, i) && apart(table, i)
}

// Whether the bytes of entry i keep their rules.
#[tactic(auto, unfolding(crate::specs::Rules::form_good, crate::specs::Layout::entry_of))]
fn form_good(table: &[u8], i: usize) -> bool
    requires { i < 65536 }
    ensures { result ≡ form_good table.now i }
{
    let at = HEAD + ENTRY * i;
    byte_at(table, at) <= 1
        && may_write(window_from(table, at))
        && zeros_from(table, at) == 0
        && numbers_good(entry_from(table, at))
}

// Whether a table may write w for a window: 0, or a size.
fn may_write(w: u16) -> bool
    ensures { result ≡ may_write w }
{
    w == 0 || is_size(w)
}

// Whether an entry's address, largest payload, timeout and retries keep their rules.
#[tactic(auto, unfolding(crate::specs::Rules::numbers_good))]
fn numbers_good(e: Entry) -> bool
    ensures { result ≡ numbers_good e }
{
    let kind = e.kind;
    is_address(e.remote)
        && 1 <= e.largest
        && e.largest <= limits::PAYLOAD
        && timed(kind, e.timeout, e.retries)
}

// Whether a kind may have this timeout and these retries.
fn timed(kind: Kind, timeout: u16, retries: u8) -> bool
    ensures { result ≡ Rules·timed kind timeout retries }
{
    match kind {
        Kind::Sends => 1 <= timeout,
        Kind::Receives => timeout == 0 && retries == 0,
    }
}

// Whether entry i agrees with none before it. Each pair is looked at: a map would need a heap, for 16 entries at most.
#[tactic(auto, unfolding(crate::specs::Rules::apart))]
fn apart(table: &[u8], i: usize) -> bool
    ensures { result ≡ Rules·apart table.now i }
{
    let e = entry_at(table, i);
    for j in 0..i {
        if agree(e, entry_at(table, j)) {
            return false;
        }
    }
    true
}

// Whether two entries are of one kind, for the same remote address and channel.
#[tactic(auto, unfolding(crate::specs::Rules::agree))]
fn agree(a: Entry, b: Entry) -> bool
    ensures { result ≡ Rules·agree a b }
{
    a.kind == b.kind && a.remote == b.remote && a.channel == b.channel
}
