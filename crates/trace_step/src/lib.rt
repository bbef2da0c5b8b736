// A record of a trace as the call that it names, made on a node that is lent.
// One buffer, `out`, is lent as the host's block and as the frame buffer: a call has one of them or neither.
// Proved, for every input and every content of the memory: which answer, and what all that was lent holds afterwards,
// by the definitions that the call's own contract cites (specs/Steps.antt). That a replay is so many single calls, and
// that none of them answers 6, is proved in crates/replayed.
#![tactic(auto)]

ghost use Rattle.std.specs.Prelude.{◌≡◌};
ghost use Rattle.end_points.specs.Lent.{whole};
ghost use Rattle.trace_step.specs.Steps.{call_of, step_of};

use end_points::answers::Arrival;
use node::{Book, Node};
use trace::kinds::Kind;
use trace::layout;
use units::limits;
use units::refusals::Refusal;

// As much of store and buffer as any table asks for: a block of as many payloads as a window can have, which fill the
// store; no frame is longer. With these no call is refused with 6. [L9]
pub const STORE: usize = limits::STORE;

pub const BUFFER: usize = blocks::layout::EMPTY
    + limits::WINDOW as usize * blocks::layout::OFFSET_BYTES
    + STORE;

// What a call answered.
#[derive(Clone, Copy)]
pub enum Told {
    // Setup, open, close, send, Urgent and a report; and what is no call.
    Plain(Result<(), Refusal>),
    Arrival(Result<Arrival, Refusal>),
    // The entries that became Enabled.
    Tick(u16),
    HandOut(Result<usize, Refusal>),
}

// The call of a kind, with an index and bytes, as a record has them. The kind is any byte (`call_of`): refuses 21 where
// there is no such kind, and as the call does. [L9]
#[tactic(auto, unfolding(crate::specs::Steps::call_of))]
pub fn call(
    node: &mut Node,
    book: &mut Book,
    store: &mut [u8],
    out: &mut [u8],
    kind: u8,
    index: u8,
    bytes: &[u8],
) -> Told
    ensures answer { let x = whole node.old book.old store.old out.old in
        result ≡ (call_of x kind index bytes.now).told }
    ensures after { let x = whole node.old book.old store.old out.old in
        whole node.new book.new store.new out.new
        ≡ (call_of x kind index bytes.now).lent }
{
    let i = index as usize;
    match Kind::try_from(kind) {
        Ok(Kind::Table) => Told::Plain(node::setup(node, book, store, bytes)),
        Ok(Kind::Open) => Told::Plain(node::open(node, book, i)),
        Ok(Kind::Close) => Told::Plain(node::close(node, book, i)),
        Ok(Kind::Send) => Told::Plain(node::send(node, book, store, i, bytes)),
        Ok(Kind::Urgent) => Told::Plain(node::urgent(node, book, store, i, bytes)),
        Ok(Kind::Arrival) => Told::Arrival(node::arrival(node, book, store, out, bytes)),
        Ok(Kind::Tick) => Told::Tick(node::tick(node, book)),
        Ok(Kind::HandOut) => Told::HandOut(node::hand_out(node, book, store, out)),
        Ok(Kind::Report) => Told::Plain(node::report(node, book)),
        Err(why) => Told::Plain(Err(why)),
    }
}

// The call of record k of a file. Refuses 21 where there is no such record, and as `call` does. [L9]
#[tactic(auto, unfolding(crate::specs::Steps::step_of))]
pub fn step(
    node: &mut Node,
    book: &mut Book,
    store: &mut [u8],
    out: &mut [u8],
    file: &[u8],
    k: usize,
) -> Told
    ensures answer { let x = whole node.old book.old store.old out.old in
        result ≡ (step_of x file.now k).told }
    ensures after { let x = whole node.old book.old store.old out.old in
        whole node.new book.new store.new out.new
        ≡ (step_of x file.now k).lent }
{
    if layout::count(file) as usize <= k {
        return Told::Plain(Err(Refusal::BadTrace));
    }
    let at = layout::begin(file, k) as usize;
    let h = layout::head(file, at);
    call(
        node,
        book,
        store,
        out,
        h.kind,
        h.index,
        layout::bytes(file, at),
    )
}
