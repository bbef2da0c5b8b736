// The node: one SpaceWire port with up to 16 transport end points. These are all its public calls. The caller lends
// the node's memory, two arrays of fixed length that are all zeros for a new node, and at each call the store, the
// block or the frame buffer that the call works on; nothing is kept of them between calls.
// Proved, for every input and every content of the memory: which answer, and what all that was lent holds afterwards,
// each as one equation over the definitions that the layer below cites (its specs/); a refused call leaves all as it
// was. docs/CONTRACTS.md lists the calls with their definitions.
// What is lent stands side by side, down to the last function, and in no struct of references: tried on the report,
// that was as fast, but a third longer, since each read had to go by a method of its own.
#![tactic(auto)]

ghost use Rattle.std.specs.Prelude.{◌≡◌};
ghost use Rattle.end_points.specs.Lent.{bare, stored, whole};
ghost use Rattle.call_open.specs.Setup.{need_answer, setup_answer, setup_after};
ghost use Rattle.call_open.specs.Opening.{open_answer, open_after, close_answer, close_after, counts_answer};
ghost use Rattle.call_open.specs.Opening.{state_answer};
ghost use Rattle.call_send.specs.Sending.{send_answer, send_after, urgent_answer, urgent_after};
ghost use Rattle.call_plan.specs.Planning.{plan_answer, plan_after};
ghost use Rattle.call_arrive.specs.Arriving.{arrival_answer, arrival_after};
ghost use Rattle.call_hand_out.specs.Handing.{hand_out_answer, hand_out_after};
ghost use Rattle.call_report.specs.Reporting.{report_answer, report_after};
ghost use Rattle.call_tick.specs.Ticking.{tick_answer, tick_after};

use end_points::State;
use end_points::answers::{Arrival, Counts, Plan};
use memory::layout;
use units::refusals::Refusal;

// A node's words, and its book. All zeros is a new node. [N1]
pub type Node = [u64; layout::NODE_WORDS];

pub type Book = [u16; layout::BOOK_HALVES];

// How many bytes of store a table needs. Refuses 1. [S1, R46]
pub fn store_need(table: &[u8]) -> Result<usize, Refusal>
    ensures { result ≡ need_answer table.now }
{
    call_open::store_need(table)
}

// The table is read: every entry Closed, nothing waiting or under way, start 1, counts 0. Refuses 1, 6. [E3, R31]
pub fn setup(node: &mut Node, book: &mut Book, store: &[u8], table: &[u8]) -> Result<(), Refusal>
    ensures answer { let x = stored node.old book.old store.now in
        result ≡ setup_answer x table.now }
    ensures after { let x = stored node.old book.old store.now in
        stored node.new book.new store.now ≡ setup_after x table.now result }
{
    call_open::setup(node, book, store, table)
}

// Entry `index` becomes Enabled; a sender's Reset then waits. Refuses 2, 4. [E4, E5, R32]
pub fn open(node: &mut Node, book: &mut Book, index: usize) -> Result<(), Refusal>
    ensures answer { result ≡ open_answer (bare node.old book.old) index }
    ensures after { let x = bare node.old book.old in
        bare node.new book.new ≡ open_after x index result }
{
    call_open::open(node, book, index)
}

// Entry `index` becomes Closed; what it held and what of it waited goes. Refuses 2, 4. [E6, E7, R33]
pub fn close(node: &mut Node, book: &mut Book, index: usize) -> Result<(), Refusal>
    ensures answer { result ≡ close_answer (bare node.old book.old) index }
    ensures after { let x = bare node.old book.old in
        bare node.new book.new ≡ close_after x index result }
{
    call_open::close(node, book, index)
}

// A sender's counts, accepted and confirmed, in every state. Refuses 2, 3. [E17, R34]
pub fn counts(node: &Node, index: usize) -> Result<Counts, Refusal>
    ensures { result ≡ counts_answer node.now index }
{
    call_open::counts(node, index)
}

// An entry's state. Refuses 2. [E1, R45]
pub fn state(node: &Node, index: usize) -> Result<State, Refusal>
    ensures { result ≡ state_answer node.now index }
{
    call_open::state(node, index)
}

// A payload is accepted and waits. Refuses 2, 3, 4, 5, 8, 7, 6. [W2, R35]
pub fn send(
    node: &mut Node,
    book: &mut Book,
    store: &mut [u8],
    index: usize,
    payload: &[u8],
) -> Result<(), Refusal>
    ensures answer { let x = stored node.old book.old store.old in
        result ≡ send_answer x index payload.now }
    ensures after { let x = stored node.old book.old store.old in
        stored node.new book.new store.new
        ≡ send_after x index payload.now result }
{
    call_send::send(node, book, store, index, payload)
}

// An Urgent waits. Refuses 2, 3, 4, 5, 9, 6. [E15, R36]
pub fn urgent(
    node: &mut Node,
    book: &mut Book,
    store: &mut [u8],
    index: usize,
    payload: &[u8],
) -> Result<(), Refusal>
    ensures answer { let x = stored node.old book.old store.old in
        result ≡ urgent_answer x index payload.now }
    ensures after { let x = stored node.old book.old store.old in
        stored node.new book.new store.new
        ≡ urgent_after x index payload.now result }
{
    call_send::urgent(node, book, store, index, payload)
}

// The payloads of a block are sent in order, up to and including the first that is refused. Refuses 22; answers how
// many were accepted, and what refused the next. [E18, R50, O10]
pub fn plan(
    node: &mut Node,
    book: &mut Book,
    store: &mut [u8],
    index: usize,
    block: &[u8],
) -> Result<Plan, Refusal>
    ensures answer { let x = stored node.old book.old store.old in
        result ≡ plan_answer x index block.now }
    ensures after { let x = stored node.old book.old store.old in
        stored node.new book.new store.new
        ≡ plan_after x index block.now result }
{
    call_plan::plan(node, book, store, index, block)
}

// A frame has arrived. Data and Urgent write the host's block. Refuses 10, 11, 15, 16, 17, 18, 13, 5, 14, 6.
// [B3, R37]
pub fn arrival(
    node: &mut Node,
    book: &mut Book,
    store: &mut [u8],
    block: &mut [u8],
    arrived: &[u8],
) -> Result<Arrival, Refusal>
    ensures answer { let x = whole node.old book.old store.old block.old in
        result ≡ arrival_answer x arrived.now }
    ensures after { let x = whole node.old book.old store.old block.old in
        whole node.new book.new store.new block.new
        ≡ arrival_after x arrived.now }
{
    call_arrive::arrive(node, book, store, block, arrived)
}

// What goes out next is written into the frame buffer, and is under way then. Refuses 19, 6; answers the length, 0
// where nothing waits. [H1, H5, H8, R38]
pub fn hand_out(
    node: &mut Node,
    book: &mut Book,
    store: &[u8],
    frame: &mut [u8],
) -> Result<usize, Refusal>
    ensures answer { let x = whole node.old book.old store.now frame.old in
        result ≡ hand_out_answer x }
    ensures after { let x = whole node.old book.old store.now frame.old in
        whole node.new book.new store.now frame.new ≡ hand_out_after x result }
{
    call_hand_out::hand_out(node, book, store, frame)
}

// The frame under way has ended; Data or a Reset starts its timer. Refuses 20. [D2, H8, R49]
pub fn report(node: &mut Node, book: &mut Book) -> Result<(), Refusal>
    ensures answer { result ≡ report_answer (bare node.old book.old) }
    ensures after { let x = bare node.old book.old in
        bare node.new book.new ≡ report_after x result }
{
    call_report::report(node, book)
}

// Every running timer falls by one. Refuses nothing; answers the entries that became Enabled, entry 0 lowest.
// [D3, D11, R39]
pub fn tick(node: &mut Node, book: &mut Book) -> u16
    ensures answer { result ≡ tick_answer (bare node.old book.old) }
    ensures after { let x = bare node.old book.old in
        bare node.new book.new ≡ tick_after x }
{
    call_tick::tick(node, book)
}
