// What each kind of record prints after its number and kind.
use crate::kinds::Kind;
use crate::records;
use frame::reading::{payload, read};
use frame::writing::write;
use frame::{Fields, Header};
use lines::Page;
use lines::sink::Sink;
use std::io::Write;
use units::bytes::{byte_at, get32, part};
use units::refusals::Refusal;
use units::{Address, Channel, Seq};

// What a buffer is filled with beforehand, to show what the writer leaves as it was.
const FILLER: u8 = 165;

// A frame that the reader takes: 0, its fields, its payload.
fn taken<W: Write>(page: &mut Page<'_>, to: &mut Sink<W>, h: Header, frame: &[u8]) {
    let kind = h.kind;
    let fields = [
        0,
        h.destination.0 as u64,
        h.protocol as u64,
        h.source.0 as u64,
        u8::from(kind) as u64,
        h.channel.0 as u64,
        h.seq.0 as u64,
        h.length as u64,
    ];
    page.values(to, &fields);
    page.values(to, payload(frame));
}

// The reader.
fn reading<W: Write>(page: &mut Page<'_>, to: &mut Sink<W>, bytes: &[u8]) {
    match read(bytes) {
        Ok(h) => taken(page, to, h, bytes),
        Err(why) => page.refused(to, why),
    }
}

// The bytes of a slice from an index on.
fn rest(bytes: &[u8], from: usize) -> &[u8] {
    part(bytes, from, bytes.len())
}

// The fields at the start of a record to write.
fn fields_of(bytes: &[u8]) -> Fields {
    Fields {
        destination: Address(byte_at(bytes, 0)),
        protocol: byte_at(bytes, 1),
        source: Address(byte_at(bytes, 2)),
        kind: byte_at(bytes, 3),
        user: byte_at(bytes, 4),
        channel: Channel(byte_at(bytes, 5)),
        seq: Seq(byte_at(bytes, 6)),
    }
}

// What the writer answers: 0 and the frame's length, or the refusal, which names no byte: there is no frame yet.
fn written<W: Write>(page: &mut Page<'_>, to: &mut Sink<W>, answer: Result<usize, Refusal>) {
    match answer {
        Ok(n) => page.done(to, n as u64),
        Err(why) => page.value(to, u8::from(why) as u64),
    }
}

// The writer's answer with a buffer, and the buffer afterwards.
fn writing_into<W: Write>(page: &mut Page<'_>, to: &mut Sink<W>, bytes: &[u8], buffer: &mut [u8]) {
    buffer.fill(FILLER);
    let answer = write(buffer, fields_of(bytes), rest(bytes, records::PAYLOAD));
    written(page, to, answer);
    page.values(to, buffer);
}

// The writer, with as much of the buffer as the record asks for.
fn writing<W: Write>(page: &mut Page<'_>, to: &mut Sink<W>, bytes: &[u8], buffer: &mut [u8]) {
    let asked = get32(bytes, records::ROOM) as usize;
    if asked < buffer.len() {
        writing_into(page, to, bytes, &mut buffer[0..asked]);
    } else {
        writing_into(page, to, bytes, buffer);
    }
}

// The check byte.
fn checking<W: Write>(page: &mut Page<'_>, to: &mut Sink<W>, bytes: &[u8]) {
    page.done(to, check8::check(bytes) as u64);
}

// The record's line from the refusal on.
pub fn answer<W: Write>(
    page: &mut Page<'_>,
    to: &mut Sink<W>,
    kind: Kind,
    bytes: &[u8],
    buffer: &mut [u8],
) {
    match kind {
        Kind::Read => reading(page, to, bytes),
        Kind::Write => writing(page, to, bytes, buffer),
        Kind::Check => checking(page, to, bytes),
    }
}
