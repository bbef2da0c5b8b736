// The functions of `firmware` as C calls them: the symbols of the archive.
// Proved: each promises what firmware's of the same name does.
#![tactic(auto)]

ghost use Rattle.std.specs.Prelude.{◌≡◌};
ghost use Rattle.frame.specs.Faults.{byte_number};
ghost use Rattle.frame.specs.Reading.{read_of};
ghost use Rattle.frame.specs.Writing.{write_answer, written_of};
ghost use Rattle.firmware.specs.Firmware.{read_number, read_fields, fields_in, write_number, window_number};
ghost use Rattle.end_points.specs.Answers.{answer_of, counted_of, planned_of, arrived_of, handed_of, stated_of};
ghost use Rattle.end_points.specs.Answers.{needed_of};
ghost use Rattle.end_points.specs.Lent.{bare, stored, whole};
ghost use Rattle.call_open.specs.Setup.{need_answer, setup_answer, setup_after};
ghost use Rattle.call_open.specs.Opening.{open_answer, open_after, close_answer, close_after, counts_answer};
ghost use Rattle.call_open.specs.Opening.{state_answer};
ghost use Rattle.call_send.specs.Sending.{send_answer, send_after, urgent_answer, urgent_after};
ghost use Rattle.call_plan.specs.Planning.{plan_answer, plan_after};
ghost use Rattle.call_arrive.specs.Arriving.{arrival_answer, arrival_after};
ghost use Rattle.call_hand_out.specs.Handing.{hand_out_answer, hand_out_after};
ghost use Rattle.call_report.specs.Reporting.{report_answer, report_after};
ghost use Rattle.call_tick.specs.Ticking.{tick_answer, tick_after};
ghost use Rattle.firmware.specs.Nodes.{refusal_in, value_in, pair_in, arrived_in, version_of};

use node::{Book, Node};

// Reads a frame: 0 with its fields, or the refusal (10, 15, 16, 17, 18) with `fields` as they were. The payload is the
// frame's own bytes from 8 on, all but the last. [G5]
#[unsafe(no_mangle)]
#[inline(never)]
pub extern "C" fn shelugvar_frame_read(frame: &[u8], fields: &mut [u8; 7]) -> u8
    ensures answer { result ≡ read_number (read_of frame.now) }
    ensures after { fields.new ≡ read_fields (read_of frame.now) fields.old }
{
    firmware::shelugvar_frame_read(frame, fields)
}

// The number of the byte at fault, for a refusal of the frame reader or of an arrival: 3, 3, 4, 7 for 15 to 18,
// and 255 for all other numbers. [R47, G5]
#[unsafe(no_mangle)]
pub extern "C" fn shelugvar_fault_byte(refusal: u8) -> u8
    ensures { result ≡ byte_number refusal }
{
    firmware::shelugvar_fault_byte(refusal)
}

// Writes a frame: 0 with payload + 9 bytes at the buffer's start, or the refusal (15, 16, 18, 5, 6) with the
// buffer as it was. [G5]
#[unsafe(no_mangle)]
#[inline(never)]
pub extern "C" fn shelugvar_frame_write(buffer: &mut [u8], fields: &[u8; 7], payload: &[u8]) -> u8
    ensures answer { result ≡ write_number (write_answer (fields_in fields.now) payload.now
        buffer.old) }
    ensures after { buffer.new
        ≡ written_of (fields_in fields.now) payload.now buffer.old }
{
    firmware::shelugvar_frame_write(buffer, fields, payload)
}

// Whether a sequence number lies in the window of a size from a start on: 1 in it, 0 outside, 2 where the size is none.
// A size of 0 is the default. [G5]
#[unsafe(no_mangle)]
pub extern "C" fn shelugvar_window_test(start: u8, size: u16, seq: u8) -> u8
    ensures { result ≡ window_number start size seq }
{
    firmware::shelugvar_window_test(start, size, seq)
}

// The table is read into a node, a new one or any other. Refuses 1, 6.
#[unsafe(no_mangle)]
#[inline(never)]
pub extern "C" fn shelugvar_setup(
    node: &mut Node,
    book: &mut Book,
    store: &[u8],
    table: &[u8],
) -> u8
    ensures answer { let x = stored node.old book.old store.now in
        result ≡ refusal_in (answer_of (setup_answer x table.now)) }
    ensures after { let x = stored node.old book.old store.now in
        stored node.new book.new store.now
        ≡ setup_after x table.now (setup_answer x table.now) }
{
    firmware::nodes::shelugvar_setup(node, book, store, table)
}

// Entry `index` becomes Enabled. Refuses 2, 4.
#[unsafe(no_mangle)]
pub extern "C" fn shelugvar_open(node: &mut Node, book: &mut Book, index: usize) -> u8
    ensures answer { let x = bare node.old book.old in
        result ≡ refusal_in (answer_of (open_answer x index)) }
    ensures after { let x = bare node.old book.old in
        bare node.new book.new ≡ open_after x index (open_answer x index) }
{
    firmware::nodes::shelugvar_open(node, book, index)
}

// Entry `index` becomes Closed. Refuses 2, 4.
#[unsafe(no_mangle)]
pub extern "C" fn shelugvar_close(node: &mut Node, book: &mut Book, index: usize) -> u8
    ensures answer { let x = bare node.old book.old in
        result ≡ refusal_in (answer_of (close_answer x index)) }
    ensures after { let x = bare node.old book.old in
        bare node.new book.new ≡ close_after x index (close_answer x index) }
{
    firmware::nodes::shelugvar_close(node, book, index)
}

// A sender's counts: accepted, confirmed. Refuses 2, 3.
#[unsafe(no_mangle)]
pub extern "C" fn shelugvar_counts(node: &Node, index: usize, values: &mut [u32; 2]) -> u8
    ensures answer { result ≡ refusal_in (counted_of (counts_answer node.now index)) }
    ensures after { values.new
        ≡ pair_in (counted_of (counts_answer node.now index)) values.old }
{
    firmware::nodes::shelugvar_counts(node, index, values)
}

// A payload is accepted and waits. Refuses 2, 3, 4, 5, 8, 7, 6.
#[unsafe(no_mangle)]
#[inline(never)]
pub extern "C" fn shelugvar_send(
    node: &mut Node,
    book: &mut Book,
    store: &mut [u8],
    index: usize,
    payload: &[u8],
) -> u8
    ensures answer { let x = stored node.old book.old store.old in
        result ≡ refusal_in (answer_of (send_answer x index payload.now)) }
    ensures after { let x = stored node.old book.old store.old in
        stored node.new book.new store.new
        ≡ send_after x index payload.now (send_answer x index payload.now) }
{
    firmware::nodes::shelugvar_send(node, book, store, index, payload)
}

// An Urgent waits. Refuses 2, 3, 4, 5, 9, 6.
#[unsafe(no_mangle)]
#[inline(never)]
pub extern "C" fn shelugvar_urgent(
    node: &mut Node,
    book: &mut Book,
    store: &mut [u8],
    index: usize,
    payload: &[u8],
) -> u8
    ensures answer { let x = stored node.old book.old store.old in
        result ≡ refusal_in (answer_of (urgent_answer x index payload.now)) }
    ensures after { let x = stored node.old book.old store.old in
        stored node.new book.new store.new
        ≡ urgent_after x index payload.now (urgent_answer x index payload.now) }
{
    firmware::nodes::shelugvar_urgent(node, book, store, index, payload)
}

// The payloads of a block are sent in order, up to and including the first that is refused: how many were accepted,
// and what refused the next, 0 where none was. Refuses 22.
#[unsafe(no_mangle)]
#[inline(never)]
pub extern "C" fn shelugvar_plan(
    node: &mut Node,
    book: &mut Book,
    store: &mut [u8],
    index: usize,
    block: &[u8],
    values: &mut [u8; 2],
) -> u8
    ensures answer { let x = stored node.old book.old store.old in
        result ≡ refusal_in (planned_of (plan_answer x index block.now)) }
    ensures after { let x = stored node.old book.old store.old in
        stored node.new book.new store.new
        ≡ plan_after x index block.now (plan_answer x index block.now) }
    ensures values { let x = stored node.old book.old store.old in
        values.new ≡ pair_in (planned_of (plan_answer x index block.now)) values.old }
{
    firmware::nodes::shelugvar_plan(node, book, store, index, block, values)
}

// A frame has arrived: what it was (0 ignored, 1 acknowledged, 2 opened, 3 Reset, 4 Data, 5 Urgent), the entry that it
// was for, and the numbers passed, the payloads held or the block's length. Refuses 10, 11, 15, 16, 17, 18, 13, 5,
// 14, 6.
#[unsafe(no_mangle)]
#[inline(never)]
pub extern "C" fn shelugvar_arrival(
    node: &mut Node,
    book: &mut Book,
    store: &mut [u8],
    block: &mut [u8],
    frame: &[u8],
    values: &mut [usize; 3],
) -> u8
    ensures answer { let x = whole node.old book.old store.old block.old in
        result ≡ refusal_in (arrived_of (arrival_answer x frame.now)) }
    ensures after { let x = whole node.old book.old store.old block.old in
        whole node.new book.new store.new block.new
        ≡ arrival_after x frame.now }
    ensures values { let x = whole node.old book.old store.old block.old in
        values.new ≡ arrived_in (arrived_of (arrival_answer x frame.now)) values.old }
{
    firmware::nodes::shelugvar_arrival(node, book, store, block, frame, values)
}

// What goes out next is written into the frame buffer: its length, 0 where nothing waits. Refuses 6.
#[unsafe(no_mangle)]
#[inline(never)]
pub extern "C" fn shelugvar_hand_out(
    node: &mut Node,
    book: &mut Book,
    store: &[u8],
    frame: &mut [u8],
    length: &mut usize,
) -> u8
    ensures answer { let x = whole node.old book.old store.now frame.old in
        result ≡ refusal_in (handed_of (hand_out_answer x)) }
    ensures after { let x = whole node.old book.old store.now frame.old in
        whole node.new book.new store.now frame.new
        ≡ hand_out_after x (hand_out_answer x) }
    ensures value { let x = whole node.old book.old store.now frame.old in
        length.new ≡ value_in (handed_of (hand_out_answer x)) length.old }
{
    firmware::nodes::shelugvar_hand_out(node, book, store, frame, length)
}

// The frame under way has ended: Data or a Reset starts its timer. Refuses 20.
#[unsafe(no_mangle)]
pub extern "C" fn shelugvar_report(node: &mut Node, book: &mut Book) -> u8
    ensures answer { result
        ≡ refusal_in (answer_of (report_answer (bare node.old book.old))) }
    ensures after { let x = bare node.old book.old in
        bare node.new book.new ≡ report_after x (report_answer x) }
{
    firmware::nodes::shelugvar_report(node, book)
}

// Every running timer falls by one: the entries that became Enabled, entry 0 lowest. Refuses nothing.
#[unsafe(no_mangle)]
pub extern "C" fn shelugvar_tick(node: &mut Node, book: &mut Book) -> u16
    ensures answer { result ≡ tick_answer (bare node.old book.old) }
    ensures after { let x = bare node.old book.old in
        bare node.new book.new ≡ tick_after x }
{
    firmware::nodes::shelugvar_tick(node, book)
}

// An entry's state: 0 Closed, 1 Enabled, 2 Open, 3 Failing. Refuses 2.
#[unsafe(no_mangle)]
pub extern "C" fn shelugvar_entry_state(node: &Node, index: usize, state: &mut u8) -> u8
    ensures answer { result ≡ refusal_in (stated_of (state_answer node.now index)) }
    ensures value { state.new
        ≡ value_in (stated_of (state_answer node.now index)) state.old }
{
    firmware::nodes::shelugvar_entry_state(node, index, state)
}

// How many bytes of store a table needs. Refuses 1.
#[unsafe(no_mangle)]
#[inline(never)]
pub extern "C" fn shelugvar_store_need(table: &[u8], need: &mut usize) -> u8
    ensures answer { result ≡ refusal_in (needed_of (need_answer table.now)) }
    ensures value { need.new
        ≡ value_in (needed_of (need_answer table.now)) need.old }
{
    firmware::nodes::shelugvar_store_need(table, need)
}

// The version of this archive, a byte a number.
#[unsafe(no_mangle)]
pub extern "C" fn shelugvar_version() -> u32
    ensures { result ≡ version_of 0 4 1 }
{
    firmware::nodes::shelugvar_version()
}
