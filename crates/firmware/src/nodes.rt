// The node's calls for C: the node and its book are the two lent arrays, everything else pointer and length.
// Each answers the refusal, 0 where it is done; what else it answers goes to the last parameter, which a refused call
// leaves as it was, as all that was lent. Each stores other values: a closure for each would be longer than its match.
// Proved: each is the node's own call (crates/node), in the numbers that specs/Nodes.antt gives to its answer.
ghost use Rattle.std.specs.Prelude.{◌≡◌};
ghost use Rattle.end_points.specs.Answers.{answer_of, counted_of, planned_of, arrived_of, handed_of, stated_of};
ghost use Rattle.end_points.specs.Answers.{needed_of};
ghost use Rattle.end_points.specs.Lent.{bare, stored, whole};
ghost use Rattle.call_open.specs.Setup.{need_answer, setup_answer, setup_after};
ghost use Rattle.call_open.specs.Opening.{open_answer, open_after, close_answer, close_after, counts_answer};
ghost use Rattle.call_open.specs.Opening.{state_answer};
ghost use Rattle.call_send.specs.Sending.{send_answer, send_after, urgent_answer, urgent_after};
ghost use Rattle.call_plan.specs.Planning.{plan_answer, plan_after};
ghost use Rattle.call_arrive.specs.Arriving.{arrival_answer, arrival_after};
ghost use Rattle.call_hand_out.specs.Handing.{hand_out_answer, hand_out_after};
ghost use Rattle.call_report.specs.Reporting.{report_answer, report_after};
ghost use Rattle.call_tick.specs.Ticking.{tick_answer, tick_after};
ghost use Rattle.firmware.specs.Nodes.{refusal_in, value_in, pair_in, arrived_in, version_of};

use end_points::answers;
use end_points::answers::{Arrival, Counts, Plan};
use node::{Book, Node};
use units::refusals::Refusal;

// A verdict's number: C has no `Result`.
fn told(v: Result<(), Refusal>) -> u8
    ensures { result ≡ refusal_in (answer_of v) }
{
    match v {
        Ok(()) => 0,
        Err(w) => u8::from(w),
    }
}

// The table is read into a node, a new one or any other. Refuses 1, 6.
pub fn shelugvar_setup(node: &mut Node, book: &mut Book, store: &[u8], table: &[u8]) -> u8
    ensures answer { let x = stored node.old book.old store.now in
        result ≡ refusal_in (answer_of (setup_answer x table.now)) }
    ensures after { let x = stored node.old book.old store.now in
        stored node.new book.new store.now
        ≡ setup_after x table.now (setup_answer x table.now) }
{
    told(node::setup(node, book, store, table))
}

// Entry `index` becomes Enabled. Refuses 2, 4.
pub fn shelugvar_open(node: &mut Node, book: &mut Book, index: usize) -> u8
    ensures answer { let x = bare node.old book.old in
        result ≡ refusal_in (answer_of (open_answer x index)) }
    ensures after { let x = bare node.old book.old in
        bare node.new book.new ≡ open_after x index (open_answer x index) }
{
    told(node::open(node, book, index))
}

// Entry `index` becomes Closed. Refuses 2, 4.
pub fn shelugvar_close(node: &mut Node, book: &mut Book, index: usize) -> u8
    ensures answer { let x = bare node.old book.old in
        result ≡ refusal_in (answer_of (close_answer x index)) }
    ensures after { let x = bare node.old book.old in
        bare node.new book.new ≡ close_after x index (close_answer x index) }
{
    told(node::close(node, book, index))
}

// A sender's counts: accepted, confirmed. Refuses 2, 3.
#[tactic(auto, unfolding(crate::specs::Nodes::pair_in))]
pub fn shelugvar_counts(node: &Node, index: usize, values: &mut [u32; 2]) -> u8
    ensures answer { result ≡ refusal_in (counted_of (counts_answer node.now index)) }
    ensures after { values.new
        ≡ pair_in (counted_of (counts_answer node.now index)) values.old }
{
    match node::counts(node, index) {
        Ok(
            Counts {
                accepted,
                confirmed,
            },
        ) => {
            values[0] = accepted.0;
            values[1] = confirmed.0;
            0
        }
        Err(w) => u8::from(w),
    }
}

// A payload is accepted and waits. Refuses 2, 3, 4, 5, 8, 7, 6.
pub fn shelugvar_send(
    node: &mut Node,
    book: &mut Book,
    store: &mut [u8],
    index: usize,
    payload: &[u8],
) -> u8
    ensures answer { let x = stored node.old book.old store.old in
        result ≡ refusal_in (answer_of (send_answer x index payload.now)) }
    ensures after { let x = stored node.old book.old store.old in
        stored node.new book.new store.new
        ≡ send_after x index payload.now (send_answer x index payload.now) }
{
    told(node::send(node, book, store, index, payload))
}

// An Urgent waits. Refuses 2, 3, 4, 5, 9, 6.
pub fn shelugvar_urgent(
    node: &mut Node,
    book: &mut Book,
    store: &mut [u8],
    index: usize,
    payload: &[u8],
) -> u8
    ensures answer { let x = stored node.old book.old store.old in
        result ≡ refusal_in (answer_of (urgent_answer x index payload.now)) }
    ensures after { let x = stored node.old book.old store.old in
        stored node.new book.new store.new
        ≡ urgent_after x index payload.now (urgent_answer x index payload.now) }
{
    told(node::urgent(node, book, store, index, payload))
}

// The payloads of a block are sent in order, up to and including the first that is refused: how many were accepted,
// and what refused the next, 0 where none was. Refuses 22.
#[tactic(auto, unfolding(crate::specs::Nodes::pair_in))]
pub fn shelugvar_plan(
    node: &mut Node,
    book: &mut Book,
    store: &mut [u8],
    index: usize,
    block: &[u8],
    values: &mut [u8; 2],
) -> u8
    ensures answer { let x = stored node.old book.old store.old in
        result ≡ refusal_in (planned_of (plan_answer x index block.now)) }
    ensures after { let x = stored node.old book.old store.old in
        stored node.new book.new store.new
        ≡ plan_after x index block.now (plan_answer x index block.now) }
    ensures values { let x = stored node.old book.old store.old in
        values.new ≡ pair_in (planned_of (plan_answer x index block.now)) values.old }
{
    match node::plan(node, book, store, index, block) {
        Ok(Plan { accepted: n, stop }) => {
            values[0] = n;
            values[1] = told(stop);
            0
        }
        Err(w) => u8::from(w),
    }
}

// An arrival in numbers: what it was, its entry, and its value, 0 where it has none.
#[tactic(auto, unfolding(crate::specs::Nodes::arrived_in))]
fn arrived(values: &mut [usize; 3], a: Result<Arrival, Refusal>) -> u8
    ensures answer { result ≡ refusal_in (arrived_of a) }
    ensures after { values.new ≡ arrived_in (arrived_of a) values.old }
{
    match a {
        Ok(Arrival { entry: i, was }) => {
            values[0] = answers::what(was) as usize;
            values[1] = i as usize;
            values[2] = answers::value(was);
            0
        }
        Err(w) => u8::from(w),
    }
}

// A frame has arrived: what it was (0 ignored, 1 acknowledged, 2 opened, 3 Reset, 4 Data, 5 Urgent), the entry that it
// was for, and the numbers passed, the payloads held or the block's length. Refuses 10, 11, 15, 16, 17, 18, 13, 5,
// 14, 6.
pub fn shelugvar_arrival(
    node: &mut Node,
    book: &mut Book,
    store: &mut [u8],
    block: &mut [u8],
    frame: &[u8],
    values: &mut [usize; 3],
) -> u8
    ensures answer { let x = whole node.old book.old store.old block.old in
        result ≡ refusal_in (arrived_of (arrival_answer x frame.now)) }
    ensures after { let x = whole node.old book.old store.old block.old in
        whole node.new book.new store.new block.new
        ≡ arrival_after x frame.now }
    ensures values { let x = whole node.old book.old store.old block.old in
        values.new ≡ arrived_in (arrived_of (arrival_answer x frame.now)) values.old }
{
    arrived(values, node::arrival(node, book, store, block, frame))
}

// What goes out next is written into the frame buffer: its length, 0 where nothing waits. Refuses 6.
#[tactic(auto, unfolding(crate::specs::Nodes::value_in))]
pub fn shelugvar_hand_out(
    node: &mut Node,
    book: &mut Book,
    store: &[u8],
    frame: &mut [u8],
    length: &mut usize,
) -> u8
    ensures answer { let x = whole node.old book.old store.now frame.old in
        result ≡ refusal_in (handed_of (hand_out_answer x)) }
    ensures after { let x = whole node.old book.old store.now frame.old in
        whole node.new book.new store.now frame.new
        ≡ hand_out_after x (hand_out_answer x) }
    ensures value { let x = whole node.old book.old store.now frame.old in
        length.new ≡ value_in (handed_of (hand_out_answer x)) length.old }
{
    match node::hand_out(node, book, store, frame) {
        Ok(n) => {
            *length = n;
            0
        }
        Err(w) => u8::from(w),
    }
}

// The frame under way has ended: Data or a Reset starts its timer. Refuses 20.
pub fn shelugvar_report(node: &mut Node, book: &mut Book) -> u8
    ensures answer { result
        ≡ refusal_in (answer_of (report_answer (bare node.old book.old))) }
    ensures after { let x = bare node.old book.old in
        bare node.new book.new ≡ report_after x (report_answer x) }
{
    told(node::report(node, book))
}

// Every running timer falls by one: the entries that became Enabled, entry 0 lowest. Refuses nothing.
pub fn shelugvar_tick(node: &mut Node, book: &mut Book) -> u16
    ensures answer { result ≡ tick_answer (bare node.old book.old) }
    ensures after { let x = bare node.old book.old in
        bare node.new book.new ≡ tick_after x }
{
    node::tick(node, book)
}

// An entry's state: 0 Closed, 1 Enabled, 2 Open, 3 Failing. Refuses 2.
#[tactic(auto, unfolding(crate::specs::Nodes::value_in))]
pub fn shelugvar_entry_state(node: &Node, index: usize, state: &mut u8) -> u8
    ensures answer { result ≡ refusal_in (stated_of (state_answer node.now index)) }
    ensures value { state.new
        ≡ value_in (stated_of (state_answer node.now index)) state.old }
{
    match node::state(node, index) {
        Ok(s) => {
            *state = answers::state_number(s);
            0
        }
        Err(w) => u8::from(w),
    }
}

// How many bytes of store a table needs. Refuses 1.
#[tactic(auto, unfolding(crate::specs::Nodes::value_in))]
pub fn shelugvar_store_need(table: &[u8], need: &mut usize) -> u8
    ensures answer { result ≡ refusal_in (needed_of (need_answer table.now)) }
    ensures value { need.new
        ≡ value_in (needed_of (need_answer table.now)) need.old }
{
    match node::store_need(table) {
        Ok(n) => {
            *need = n;
            0
        }
        Err(w) => u8::from(w),
    }
}

const MAJOR: u32 = 0;

const MINOR: u32 = 4;

const PATCH: u32 = 1;

// The version of this archive, a byte a number: `from_be_bytes` would need a fourth.
pub fn shelugvar_version() -> u32
    ensures { result ≡ version_of 0 4 1 }
{
    (MAJOR * 256 + MINOR) * 256 + PATCH
}
