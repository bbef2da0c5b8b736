// Setup: a node made from a channel table. All end points are Closed, nothing waits and no frame is under way.
ghost use Rattle.std.specs.Prelude.{◌≡◌, true, ◌<◌, length, replicate};
ghost use Rattle.waiting.specs.Queues.{joined};
ghost use Rattle.table.specs.Layout.{count_of};
ghost use Rattle.table.specs.Rules.{good_table};
ghost use Rattle.end_points.specs.Ends.{saved, saved_entry};
ghost use Rattle.end_points.specs.declared.State.TheVariants.{Closed};
ghost use Rattle.arrive_lookup.specs.Lookup.{indexed};
ghost use Rattle.end_points.specs.Lent.{stored};
ghost use Rattle.call_open.specs.Setup.{need_answer, setup_answer, setup_after, first_run, headed, tabled, emptied};

use arrive_lookup::put_in_index;
use end_points::{Run, State, save, save_entry};
use memory::layout;
use table::Entry;
use timing::ROUND;
use units::Unfolded;
use units::bytes::{put, put_all};
use units::refusals::Refusal;
use waiting::port;
use window::Window;

// How many bytes of store a table needs.
#[tactic(auto, unfolding(crate::specs::Setup::need_answer))]
pub fn store_need(table: &[u8]) -> Result<usize, Refusal>
    ensures { result ≡ need_answer table.now }
{
    if table::is_good(table) {
        return Ok(table::store_need(table));
    }
    Err(Refusal::BadTable)
}

// The node is set up from a table.
#[tactic(auto, unfolding(crate::specs::Setup::setup_answer, crate::specs::Setup::setup_after))]
pub fn setup(node: &mut [u64], book: &mut [u16], store: &[u8], table: &[u8]) -> Result<(), Refusal>
    ensures answer { let x = stored node.old book.old store.now in
        result ≡ setup_answer x table.now }
    ensures after { let x = stored node.old book.old store.now in
        stored node.new book.new store.now ≡ setup_after x table.now result }
{
    if !table::is_good(table) {
        return Err(Refusal::BadTable);
    }
    if store.len() < table::store_need(table) {
        return Err(Refusal::TooShort);
    }
    clear(node);
    put_head(node, table);
    put_entries(node, table);
    empty(book);
    port::end(book);
    Ok(())
}

// Every word 0.
fn clear(ws: &mut [u64])
    ensures { ws.new ≡ replicate (length ws.old) 0 }
{
    ws.fill(0)
}

// The head: how many entries, who we are, how much of a store the entries take; no acknowledgement waits, no tick
// has passed yet, and 65,535 may pass before a timer can run out.
fn put_head(node: &mut [u64], table: &[u8])
    ensures { node.new ≡ headed table.now node.old }
{
    let own = table::own(table);
    let words = [
        table::count(table) as u64,
        own.0 as u64,
        table::protocol(table) as u64,
        table::store_need(table) as u64,
        0,
        0,
        0,
        ROUND as u64,
    ];
    put_all(node, layout::COUNT_AT, &words)
}

// The entries, each Closed, at their places in the store.
#[tactic(auto, unfolding(crate::specs::Setup::tabled, table::specs::Areas::place_of))]
fn put_entries(node: &mut [u64], table: &[u8])
    requires { good_table table.now ≡ true }
    ensures { node.new ≡ tabled table.now (count_of table.now)
        node.old }
{
    let n = table::count(table) as usize;
    let mut place: usize = 0;
    for k in 0..n {
        let e = table::entry_at(table, k);
        put_entry(node, k, e, place as u16);
        place += table::area(e);
    }
}

// Entry k of the table, Closed, at a place in the store, and in the index, which asks that k is below 16.
fn put_entry(node: &mut [u64], k: usize, e: Entry, place: u16)
    requires { k < 16 }
    ensures { node.new ≡ indexed (saved (saved_entry node.old k e place) k Closed first_run) k
        e }
{
    save_entry(node, k, e, place);
    save(node, k, State::Closed, first_run());
    put_in_index(node, k as u8, e)
}

// A run with nothing taken and the counts 0. It is made from no other run, so each field is named.
fn first_run() -> Run
    ensures { result ≡ first_run }
{
    Run {
        window: Window::new(0),
        taken: 0,
        handed: 0,
        accepted: Unfolded(0),
        confirmed: Unfolded(0),
        urgent: 0,
    }
}

// Nothing waits in any queue.
#[tactic(auto, unfolding(crate::specs::Setup::emptied))]
fn empty(book: &mut [u16])
    ensures { book.new ≡ emptied book.old }
{
    empty_queue(book, layout::RESETS);
    empty_queue(book, layout::URGENTS);
    empty_queue(book, layout::RESENDS);
    empty_queue(book, layout::DATAS)
}

// Queue q is followed by itself.
fn empty_queue(book: &mut [u16], q: u16)
    ensures { book.new ≡ joined book.old q q }
{
    put(book, q as usize, q);
    put(book, layout::PREV_AT + q as usize, q)
}
