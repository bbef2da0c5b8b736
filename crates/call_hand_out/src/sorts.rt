// Each sort of what waits, handed out: its frame into the buffer, and what that leaves of node and book. `once` and
// `fitted` are what their contracts have in common.
ghost use Rattle.std.specs.Prelude.{◌≡◌, ◌<◌};
ghost use Rattle.std.proofs.lemmas.List.Edits.{sets};
ghost use Rattle.units.specs.Refusals.{pick};
ghost use Rattle.waiting.specs.Queues.{unlinked};
ghost use Rattle.waiting.specs.Acks.{popped};
ghost use Rattle.end_points.specs.Ends.{end_of};
ghost use Rattle.call_hand_out.specs.Handing.{fitted, once, ack_frame, reset_frame, urgent_frame, data_frame};
ghost use Rattle.memory.specs.Layout.{reset_entry};
ghost use Rattle.call_hand_out.specs.Handing.{reset_node, urgent_node, handed_node, stood, sent, data_sent};
ghost use Rattle.memory.specs.Layout.{urgent_entry, id_entry};
ghost use Rattle.frame.specs.declared.FrameType.TheVariants as type;

use super::framing::{fields_to, put_frame};
use end_points::states::without_urgent;
use end_points::{Run, State, load, load_entry, load_place, run_of, save};
use frame::FrameType;
use memory::layout;
use slots::cells::Cell;
use slots::{number_in, spot_of};
use timing::STANDING;
use units::Seq;
use units::bytes::{part, put};
use units::refusals::Refusal;
use waiting::acks::Ack;
use waiting::{acks, port, queues};

// An acknowledgement.
#[tactic(auto, unfolding(crate::specs::Handing::ack_frame, end_points::specs::Ends::end_of))]
pub fn put_ack(
    node: &mut [u64],
    book: &mut [u16],
    frame: &mut [u8],
    a: Ack,
) -> Result<usize, Refusal>
    ensures answer { result ≡ fitted frame.old (ack_frame node.old a) }
    ensures node { node.new ≡ once result node.old (popped node.old) }
    ensures book { book.new ≡ once result book.old
        (sent book.old type.Acknowledge a.entry a.seq.0) }
    ensures frame { frame.new ≡ once result frame.old
        (sets frame.old 0 (ack_frame node.old a)) }
{
    let entry = load_entry(node, a.entry as usize);
    let fields = fields_to(node, entry, FrameType::Acknowledge, a.seq);
    let n = put_frame(frame, fields, b"")?;
    acks::pop(node);
    port::begin(book, u8::from(FrameType::Acknowledge), a.entry, a.seq);
    Ok(n)
}

// Hands out the Reset whose number in the book is x; its timer stands, and the end point notes that one went out.
#[tactic(auto, unfolding(crate::specs::Handing::reset_frame))]
pub fn put_reset(
    node: &mut [u64],
    book: &mut [u16],
    frame: &mut [u8],
    x: u16,
) -> Result<usize, Refusal>
    ensures answer { result ≡ fitted frame.old (reset_frame node.old x) }
    ensures node { node.new ≡ once result node.old
        (reset_node node.old (reset_entry x) (end_of node.old (reset_entry x))) }
    ensures book { book.new ≡ once result book.old
        (sent (unlinked book.old x) type.Reset (reset_entry x) 0) }
    ensures frame { frame.new ≡ once result frame.old
        (sets frame.old 0 (reset_frame node.old x)) }
{
    let i = (x.saturating_sub(layout::RESET_ID) % 256) as usize;
    let e = load(node, i);
    let fields = fields_to(node, e.entry, FrameType::Reset, Seq(0));
    let n = put_frame(frame, fields, b"")?;
    queues::unlink(book, x);
    port::begin(book, u8::from(FrameType::Reset), i as u8, Seq(0));
    save(node, i, State::Enabled(STANDING, true), e.run);
    Ok(n)
}

// The Urgent that is x in its queue: it waits no more.
#[tactic(auto, unfolding(crate::specs::Handing::urgent_frame))]
pub fn put_urgent(
    node: &mut [u64],
    book: &mut [u16],
    store: &[u8],
    frame: &mut [u8],
    x: u16,
) -> Result<usize, Refusal>
    ensures answer { result ≡ fitted frame.old (urgent_frame node.old store.now x) }
    ensures node { node.new ≡ once result node.old
        (urgent_node node.old (urgent_entry x) (end_of node.old (urgent_entry x))) }
    ensures book { book.new ≡ once result book.old
        (sent (unlinked book.old x) type.Urgent (urgent_entry x) 0) }
    ensures frame { frame.new ≡ once result frame.old
        (sets frame.old 0 (urgent_frame node.old store.now x)) }
{
    let i = (x.saturating_sub(layout::URGENT_ID) % 256) as usize;
    let e = load(node, i);
    let state = e.state;
    let run = e.run;
    let fields = fields_to(node, e.entry, FrameType::Urgent, Seq(0));
    let spot = spot_of(e.place, e.entry.largest, run.window.size);
    let n = put_frame(frame, fields, part(store, spot, run.urgent as usize))?;
    queues::unlink(book, x);
    port::begin(book, u8::from(FrameType::Urgent), i as u8, Seq(0));
    save(node, i, state, without_urgent(run));
    Ok(n)
}

// The entry of the slot that is x in its queue.
fn entry_of(x: u16) -> usize
    ensures { result ≡ id_entry x }
{
    (x.saturating_sub(layout::CELL_ID) / layout::CELLS % 256) as usize
}

// The slot that is x in its queue waits no more: its timer stands, and its frame, with this number, is under way.
fn put_sent(book: &mut [u16], x: u16, number: Seq)
    ensures { book.new ≡ sent (stood book.old x) type.Data (id_entry x) number.0 }
{
    queues::unlink(book, x);
    Cell::with_id(x).put_timer(book, STANDING);
    port::begin(book, u8::from(FrameType::Data), entry_of(x) as u8, number)
}

// One number more is handed out: of the run's words one alters, and no other is written. A bound on the index and no
// byte: with a byte handing out Data costs three instructions more (./bench).
fn put_handed(node: &mut [u64], i: usize, r: Run)
    requires { i < 4096 }
    ensures { node.new ≡ handed_node node.old i r }
{
    let at = layout::ENTRY_AT + layout::ENTRY_WORDS * i;
    put(node, at + layout::HANDED, r.handed.wrapping_add(1) as u64)
}

// The number that is x in its queue: with FIRST as data, so that one number more is handed out, else again.
#[tactic(auto, unfolding(crate::specs::Handing::data_frame, end_points::specs::Ends::end_of, crate::specs::Handing::data_sent))]
pub fn put_number<const FIRST: bool>(
    node: &mut [u64],
    book: &mut [u16],
    store: &[u8],
    frame: &mut [u8],
    x: u16,
) -> Result<usize, Refusal>
    ensures answer { result ≡ fitted frame.old
        (data_frame node.old book.old store.now x) }
    ensures node { node.new ≡ once result node.old
        (pick FIRST (handed_node node.old (id_entry x) (end_of node.old (id_entry x)).run) node.old) }
    ensures book { book.new ≡ once result book.old
        (data_sent node.old book.old x) }
    ensures frame { frame.new ≡ once result frame.old
        (sets frame.old 0 (data_frame node.old book.old store.now x)) }
{
    let i = entry_of(x);
    let g = x.saturating_sub(layout::CELL_ID);
    let slot = (g % layout::CELLS) as u8;
    let entry = load_entry(node, i);
    let run = run_of(node, i);
    let number = number_in(run.window, slot);
    let fields = fields_to(node, entry, FrameType::Data, number);
    let length = Cell::with_id(x).length(book);
    let spot = spot_of(load_place(node, i), entry.largest, slot);
    let n = put_frame(frame, fields, part(store, spot, length as usize))?;
    put_sent(book, x, number);
    if FIRST {
        put_handed(node, i, run);
    }
    Ok(n)
}
