// The line of a record, with the bytes of the block or the frame that its call wrote.
use crate::kinds;
use crate::kinds::Kind;
use crate::records::Record;
use end_points::answers::Was;
use lines::Page;
use lines::sink::Sink;
use node::{Book, Node};
use std::io::Write;
use trace_step::Told;
use units::bytes::part;

// What a call is lent: the node, its book, the store, and the buffer for a block or a frame.
#[derive(Drop)]
pub struct Station<'a> {
    pub node: &'a mut Node,
    pub book: &'a mut Book,
    pub store: &'a mut [u8],
    pub buffer: &'a mut [u8],
}

// How long a block a frame left: of the values that `lines` tells, those alone that are lengths.
fn delivered(was: Was) -> usize {
    match was {
        Was::Ignored => 0,
        Was::Acknowledged(_) => 0,
        Was::Opened => 0,
        Was::Reset(_) => 0,
        Was::Data(n) => n,
        Was::Urgent(n) => n,
    }
}

// How many bytes of the buffer a call wrote: a block or a frame, or none.
fn written(t: Told) -> usize {
    match t {
        Told::Plain(_) => 0,
        Told::Arrival(Ok(arrival)) => delivered(arrival.was),
        Told::Arrival(Err(_)) => 0,
        Told::Tick(_) => 0,
        Told::HandOut(length) => length.unwrap_or(0),
    }
}

// Counts: accepted and confirmed, which no trace records.
fn counts_line<W: Write>(
    page: &mut Page<'_>,
    to: &mut Sink<W>,
    count: u64,
    node: &Node,
    index: u8,
) {
    page.number(to, count);
    page.value(to, kinds::COUNTS as u64);
    page.counted(to, node::counts(node, index as usize));
    page.text(to, b"\n");
}

// A plan: how many payloads were accepted, and what refused the next.
fn plan_line<W: Write>(
    page: &mut Page<'_>,
    to: &mut Sink<W>,
    count: u64,
    station: &mut Station<'_>,
    index: u8,
    block: &[u8],
) {
    page.number(to, count);
    page.value(to, kinds::PLAN as u64);
    let plan = node::plan(
        station.node,
        station.book,
        station.store,
        index as usize,
        block,
    );
    page.planned(to, plan);
    page.text(to, b"\n");
}

// A call that a trace records too.
fn traced_line<W: Write>(
    page: &mut Page<'_>,
    to: &mut Sink<W>,
    count: u64,
    station: &mut Station<'_>,
    number: u8,
    index: u8,
    bytes: &[u8],
) {
    let t = trace_step::call(
        station.node,
        station.book,
        station.store,
        station.buffer,
        number,
        index,
        bytes,
    );
    trace_lines::begun(page, to, count, number, t);
    page.values(to, part(station.buffer, 0, written(t)));
    page.text(to, b"\n");
}

// A record's line.
pub fn line<W: Write>(
    page: &mut Page<'_>,
    to: &mut Sink<W>,
    count: u64,
    station: &mut Station<'_>,
    record: Record,
    bytes: &[u8],
) {
    let index = record.index;
    match record.kind {
        Kind::Traced(number) => traced_line(page, to, count, station, number, index, bytes),
        Kind::Plan => plan_line(page, to, count, station, index, bytes),
        Kind::Counts => counts_line(page, to, count, station.node, index),
    }
}
