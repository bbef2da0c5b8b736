// The lines of a replay: a trace file's records made one after the other on a node that is lent, and a line for each.
// Text is put together in a page, as in the crate `lines`.
// Proved, for every file and every content of the memory: what the page and all that was lent hold afterwards, by the
// definitions of specs/Lines.antt, whether or not a write fails; of a writer whose bytes are known, that what it holds
// and what waits in the page have grown by the lines, unless a write failed.
#![tactic(auto)]

ghost use Rattle.std.specs.Prelude.{◌≡◌, ◌<◌};
ghost use Rattle.end_points.specs.Lent.{whole};
ghost use Rattle.lines.specs.Lines.{SameBuffer, seen, valued_all};
ghost use Rattle.lines.specs.Sink.{Says, HasRoom, values_text};
ghost use Rattle.trace_step.specs.Told.{told_of};
ghost use Rattle.trace_step.specs.Replay.{is_refused};
ghost use Rattle.trace_lines.specs.Lines.{begun_of, line_of, kind_of, begun_text, line_text, replay_page};
ghost use Rattle.trace_lines.specs.Lines.{replay_text, replay_lent};

use lines::Page;
use lines::sink::Sink;
use node::{Book, Node};
use std::io::Write;
use trace::layout;
use trace_step::{Told, step};
use units::refusals::Refusal;

// The record that has the table.
const FIRST: usize = 0;

// What a call answered, each number a value.
fn told<W: Write>(page: &mut Page<'_>, to: &mut Sink<W>, t: Told)
    ensures lent { SameBuffer page.old page.new }
    ensures after { seen page.new ≡ valued_all (seen page.old) (told_of t) }
    ensures written { HasRoom (seen page.old) →
        Says W.contents to.old (seen page.old) to.new (seen page.new) (values_text (told_of t)) }
{
    match t {
        Told::Plain(v) => page.verdict(to, v),
        Told::Arrival(a) => page.arrived(to, a),
        Told::Tick(bits) => page.done(to, bits as u64),
        Told::HandOut(h) => page.handed(to, h),
    }
}

// A record's line but for its end: its number, its kind, what its call answered. Any byte is printed for a kind
// (`begun_of`), desk's own too.
#[tactic(auto, unfolding(crate::specs::Lines::begun_of))]
pub fn begun<W: Write>(page: &mut Page<'_>, to: &mut Sink<W>, n: u64, kind: u8, t: Told)
    ensures lent { SameBuffer page.old page.new }
    ensures after { seen page.new ≡ begun_of (seen page.old) n kind (told_of t) }
    ensures written { HasRoom (seen page.old) →
        Says W.contents to.old (seen page.old) to.new (seen page.new) (begun_text n kind (told_of t)) }
{
    page.number(to, n);
    page.value(to, kind as u64);
    told(page, to, t);
}

// The line of record k.
#[tactic(auto, unfolding(crate::specs::Lines::line_of))]
fn line<W: Write>(page: &mut Page<'_>, to: &mut Sink<W>, file: &[u8], k: usize, t: Told)
    requires { k < 4294967296 }
    ensures lent { SameBuffer page.old page.new }
    ensures after { seen page.new ≡ line_of (seen page.old) k (kind_of file.now k) (told_of t) }
    ensures written { HasRoom (seen page.old) →
        Says W.contents to.old (seen page.old) to.new (seen page.new) (line_text k (kind_of file.now k) (told_of t)) }
{
    let begin = layout::begin(file, k) as usize;
    let head = layout::head(file, begin);
    begun(page, to, k as u64 + 1, head.kind, t);
    page.text(to, b"\n");
}

// Whether a plain call was refused.
fn is_refused(t: Told) -> bool
    ensures { result ≡ is_refused t }
{
    matches!(t, Told::Plain(Err(_)))
}

// The lines of a replay, of a file that is given whole; `buffer` is the block and the frame buffer. A file against the
// rules gives `refused 21` alone, before any call is made, and a table that is refused ends the replay after its line.
// [R21, L10, L11, L12]
#[tactic(auto, unfolding(crate::specs::Lines::replay_page, crate::specs::Lines::replay_lent, crate::specs::Lines::replay_text))]
pub fn replay<W: Write>(
    page: &mut Page<'_>,
    to: &mut Sink<W>,
    file: &[u8],
    node: &mut Node,
    book: &mut Book,
    store: &mut [u8],
    buffer: &mut [u8],
)
    ensures lent { SameBuffer page.old page.new }
    ensures text { let x = whole node.old book.old store.old buffer.old in
        seen page.new ≡ replay_page (seen page.old) x file.now }
    ensures after { let x = whole node.old book.old store.old buffer.old in
        whole node.new book.new store.new buffer.new
        ≡ replay_lent x file.now }
    ensures written { let x = whole node.old book.old store.old buffer.old in
        HasRoom (seen page.old) →
        Says W.contents to.old (seen page.old) to.new (seen page.new) (replay_text x file.now) }
{
    if !trace::is_good(file) {
        page.refused_all(to, Refusal::BadTrace);
        return;
    }
    let n = layout::count(file) as usize;
    for k in 0..n {
        let t = step(node, book, store, buffer, file, k);
        line(page, to, file, k, t);
        if k == FIRST && is_refused(t) {
            return;
        }
    }
}
