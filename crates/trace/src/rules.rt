// Which trace files are not refused with 21.
ghost use Rattle.std.specs.Prelude.{◌≡◌, ◌≤◌, eqb};
ghost use Rattle.table.specs.Rules.{every_below};
ghost use Rattle.trace.specs.Kinds.{table_kind};
ghost use Rattle.trace.specs.Layout.{count_of};
ghost use Rattle.trace.specs.Rules.{header_good, taken_or_zero, form_good, placed as Rules·placed, record_good};
ghost use Rattle.trace.specs.Rules.{unused_good, good_trace};

use crate::kinds::Kind;
use crate::layout::{begin, count, head};
use crate::{Head, kinds, layout};

// Whether a file breaks no rule.
#[tactic(auto, unfolding(crate::specs::Rules::good_trace))]
pub fn is_good(file: &[u8]) -> bool
    ensures { result ≡ good_trace file.now }
{
    header_good(file) && records_good(file) && unused_good(file)
}

// Whether the file has its length, and the header its count, its first offset and its end.
#[tactic(auto, unfolding(crate::specs::Rules::header_good))]
fn header_good(file: &[u8]) -> bool
    ensures { result ≡ header_good file.now }
{
    let n = count(file) as usize;
    layout::HEADER <= file.len()
        && file.len() <= layout::FILE
        && 1 <= n
        && n <= layout::RECORDS
        && begin(file, 0) as usize == layout::HEADER
        && begin(file, n) as usize == file.len()
}

// Whether every record keeps its rules. Its like in crates/table tests something else: a closure for the test would
// need the bound on k in its contract, and be no shorter.
#[tactic(auto, using(table::proofs::Every::every_none, table::proofs::Every::every_more))]
fn records_good(file: &[u8]) -> bool
    ensures { result ≡ every_below (count_of file.now) (record_good file.now) }
{
    let n = count(file) as usize;
    for k in 0..n {
        if !record_good(file, k) {
            return false;
        }
    }
    true
}

// Whether record k ends where the next begins, its head keeps its rules, and it is a table where it is the first.
#[tactic(auto, unfolding(crate::specs::Layout::end_from, crate::specs::Rules::record_good))]
fn record_good(file: &[u8], k: usize) -> bool
    requires { k ≤ 4294967295 }
    ensures { result ≡ record_good file.now k }
{
    let at = begin(file, k) as usize;
    let h = head(file, at);
    begin(file, k + 1) as usize == at + layout::HEAD + h.length as usize
        && form_good(h)
        && placed(k, h.kind)
}

// Whether there is such a kind, and index and length are 0 where its call takes none.
#[tactic(auto, unfolding(crate::specs::Rules::form_good))]
fn form_good(h: Head) -> bool
    ensures { result ≡ form_good h }
{
    kinds::is_kind(h.kind)
        && taken_or_zero(kinds::takes_index(h.kind), h.index as u16)
        && taken_or_zero(kinds::takes_bytes(h.kind), h.length)
}

// Whether a number is 0, unless its call takes one.
fn taken_or_zero(takes: bool, n: u16) -> bool
    ensures { result ≡ taken_or_zero takes n }
{
    takes || n == 0
}

// Whether a record's kind is a table.
fn is_table(kind: u8) -> bool
    ensures { result ≡ eqb kind table_kind }
{
    matches!(Kind::try_from(kind), Ok(Kind::Table))
}

// Whether the first record is a table, and another none.
fn placed(k: usize, kind: u8) -> bool
    ensures { result ≡ Rules·placed k kind }
{
    if k == 0 {
        return is_table(kind);
    }
    !is_table(kind)
}

// Whether the offsets behind the file's end are 0.
#[tactic(auto, unfolding(crate::specs::Rules::unused_good))]
fn unused_good(file: &[u8]) -> bool
    ensures { result ≡ unused_good file.now }
{
    for k in count(file) as usize + 1..layout::RECORDS + 1 {
        if begin(file, k) != 0 {
            return false;
        }
    }
    true
}
