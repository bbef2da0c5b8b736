// A node's recorded calls, run again at a desk: reads a trace file on standard input, of any length, makes the calls of
// its records on a node that starts as zeros, and prints a line for each: its number from 1, its kind, the refusal's
// number or 0, then what the call returned, in decimal; behind 15 to 18 the number of the byte at fault, of a block and
// of a frame the length alone. A table that is refused ends the replay after its line. A file against the rules prints
// `refused 21` alone.
// Proved: all but reading and writing is the crate `trace_lines`'s, whose contract says what is printed.
#![tactic(auto)]

use intake::read_full;
use lines::Page;
use lines::sink::Sink;
use memory::layout;
use std::io;
use trace_step::{BUFFER, STORE};

// One byte more than the longest file is read, to see that a longer one is against the rules: the buffer is a fixed
// bound on what is read.
const INPUT: usize = trace::layout::FILE + 1;

// How much text is put together before it is written out.
const TEXT: usize = 65536;

fn main(rt: HostRuntime) -> io::Result<()> {
    let mut file = [0u8; INPUT];
    let mut text = [0u8; TEXT];
    let mut node = [0u64; layout::NODE_WORDS];
    let mut book = [0u16; layout::BOOK_HALVES];
    let mut store = [0u8; STORE];
    let mut buffer = [0u8; BUFFER];
    let mut to = Sink::new(io::writer(&rt));
    let mut page = Page {
        bytes: &mut text,
        taken: 0,
    };
    let n = read_full(&mut rt.reader(), &mut file)?;
    trace_lines::replay(
        &mut page,
        &mut to,
        &file[..n],
        &mut node,
        &mut book,
        &mut store,
        &mut buffer,
    );
    page.flush(&mut to);
    to.finish()
}
