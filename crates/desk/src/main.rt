// The node at a desk: runs the calls that the records on standard input name, on a node that starts as zeros.
// A record is its kind (1 table, 2 open, 3 close, 4 send, 5 urgent, 6 arrival, 7 tick, 8 hand out, 9 report, 10 plan
// or 20 counts), an index byte, a length (2 bytes, high byte first) and that many bytes. Each gives one line: its
// number from 1, its kind, the refusal's number or 0, then what came back, in decimal; behind 15 to 18 the number of
// the byte at fault. Store, block and frame buffer are always long enough.
// The input is at most 65,536 bytes; a longer one gives only the line `too long`. A record that is cut short ends the
// run with `torn N`, a whole one of another kind with `unknown N`.
#![tactic(auto)]

mod kinds; // kinds.rt: which kinds there are
mod records; // records.rt: where the records lie
mod answers; // answers.rt: what each call prints

use answers::Station;
use intake::read_full;
use lines::Page;
use lines::sink::Sink;
use records::record_at;
use std::io;
use std::io::Write;
use trace::layout;
use trace_step::{BUFFER, STORE};

// The most bytes of input. One more is read, to see that it is longer: the buffer is a fixed bound on what is read, and
// a longer input is refused.
const INPUT: usize = 65536;

// How much text is put together before it is written out.
const TEXT: usize = 65536;

// The lines of all records, or of those up to the first that is torn or unknown. No `for`: the index goes on by the
// length that a record itself says.
fn run<W: Write>(page: &mut Page<'_>, to: &mut Sink<W>, input: &[u8], station: &mut Station<'_>) {
    let mut i = 0;
    let mut count: u64 = 0;
    while i < input.len() {
        count += 1;
        let record = match record_at(input, i) {
            Ok(record) => record,
            Err(why) => return page.stopped(to, why, count),
        };
        let bytes = &input[i + layout::HEAD..record.end];
        answers::line(page, to, count, station, record, bytes);
        i = record.end;
    }
}

fn main(rt: HostRuntime) -> io::Result<()> {
    let mut input = [0u8; INPUT + 1];
    let mut out = [0u8; TEXT];
    let mut node = [0u64; memory::layout::NODE_WORDS];
    let mut book = [0u16; memory::layout::BOOK_HALVES];
    let mut store = [0u8; STORE];
    let mut buffer = [0u8; BUFFER];
    let mut to = Sink::new(io::writer(&rt));
    let mut page = Page {
        bytes: &mut out,
        taken: 0,
    };
    let n = read_full(&mut rt.reader(), &mut input)?;
    if INPUT < n {
        page.text(&mut to, b"too long\n");
    } else {
        let mut station = Station {
            node: &mut node,
            book: &mut book,
            store: &mut store,
            buffer: &mut buffer,
        };
        run(&mut page, &mut to, &input[..n], &mut station);
    }
    page.flush(&mut to);
    to.finish()
}
