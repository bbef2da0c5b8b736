// Frame reader, frame writer and check byte at work: a test tool that runs the records on standard input.
// A record is its kind (1 read, 2 write, 3 check), its length (4 bytes, high byte first) and that many bytes. Each
// gives one line: its number from 1, its kind, the refusal's number or 0, then what came back, in decimal; behind 15 to
// 18 of a frame that is read the number of the byte at fault. To write, the bytes are destination, protocol, source,
// type, user bits, channel, sequence, the buffer's length (4 bytes) and the payload; the buffer, all 165 beforehand, is
// printed as it stands afterwards.
// The input is at most 262,144 bytes; a longer one gives only the line `too long`. A record that is cut short, or too
// short for its fields, ends the run with `torn N`, a whole one of another kind with `unknown N`.
#![tactic(auto)]

mod kinds; // kinds.rt: which kinds there are
mod records; // records.rt: where the records lie
mod answers; // answers.rt: what each kind prints

use intake::read_full;
use kinds::Kind;
use lines::Page;
use lines::sink::Sink;
use records::record_at;
use std::io;
use std::io::Write;

// The most bytes of input. One more is read, to see that it is longer: the buffer is a fixed bound on what is read, and
// a longer input is refused.
const INPUT: usize = 262144;

// How much text is put together before it is written out.
const TEXT: usize = 65536;

// The largest buffer that the writer is lent: longer than any frame.
const BUFFER: usize = 70000;

// A record's line.
fn line<W: Write>(
    page: &mut Page<'_>,
    to: &mut Sink<W>,
    count: u64,
    kind: Kind,
    bytes: &[u8],
    buffer: &mut [u8],
) {
    page.number(to, count);
    page.value(to, kind as u64);
    answers::answer(page, to, kind, bytes, buffer);
    page.text(to, b"\n");
}

// The lines of all records, or of those up to the first that is torn or unknown. No `for`: the index goes on by the
// length that a record itself says.
fn run<W: Write>(page: &mut Page<'_>, to: &mut Sink<W>, input: &[u8], buffer: &mut [u8]) {
    let mut i = 0;
    let mut count: u64 = 0;
    while i < input.len() {
        count += 1;
        let record = match record_at(input, i) {
            Ok(record) => record,
            Err(why) => return page.stopped(to, why, count),
        };
        let bytes = &input[record.start..record.end];
        line(page, to, count, record.kind, bytes, buffer);
        i = record.end;
    }
}

fn main(rt: HostRuntime) -> io::Result<()> {
    let mut input = [0u8; INPUT + 1];
    let mut out = [0u8; TEXT];
    let mut buffer = [0u8; BUFFER];
    let mut to = Sink::new(io::writer(&rt));
    let mut page = Page {
        bytes: &mut out,
        taken: 0,
    };
    let n = read_full(&mut rt.reader(), &mut input)?;
    if INPUT < n {
        page.text(&mut to, b"too long\n");
    } else {
        run(&mut page, &mut to, &input[..n], &mut buffer);
    }
    page.flush(&mut to);
    to.finish()
}
