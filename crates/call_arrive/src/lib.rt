// An arrival: a frame is read, judged, and taken in by the entry it is for.
// Proved: the answer and what all that was lent holds afterwards are the definitions of specs/Arriving.antt, for every
// frame and memory; a refused frame alters nothing.
#![tactic(auto)]

mod judging; // judging.rt: the tests at an entry

ghost use Rattle.std.specs.Prelude.{◌≡◌, length};
ghost use Rattle.units.specs.Refusals.{verdict};
ghost use Rattle.end_points.specs.Ends.{end_of};
ghost use Rattle.end_points.specs.Lent.{whole};
ghost use Rattle.call_arrive.specs.Arriving.{ours, entry_tests, taken_in_answer, taken_in_after, answer_as, after_as};
ghost use Rattle.call_arrive.specs.Arriving.{arrival_answer, arrival_after};

use arrive_ack::acknowledge;
use arrive_data::{take_data, take_reset, take_urgent};
use arrive_lookup::entry_for;
use blocks::carried::Payload;
use end_points::answers::{Arrival, Was};
use end_points::{EndPoint, heads, load};
use frame::reading::{header, is_sound, payload};
use frame::{FrameType, layout};
use judging::judge;
use units::bytes::byte_at;
use units::refusals::Refusal;
use units::{Address, Seq};

// Whether destination and protocol ID are ours.
fn is_ours(node: &[u64], frame: &[u8]) -> bool
    ensures { result ≡ ours node.now frame.now }
{
    let destination = Address(byte_at(frame, layout::DESTINATION));
    destination.is(heads::own(node)) && byte_at(frame, layout::PROTOCOL) == heads::protocol(node)
}

// Entry i, which is e, takes in a frame of type t, number s and payload.
#[tactic(auto, unfolding(crate::specs::Arriving::taken_in_answer, crate::specs::Arriving::taken_in_after, arrive_data::specs::Receiving::reset_after, arrive_data::specs::Receiving::urgent_after))]
fn take(
    node: &mut [u64],
    book: &mut [u16],
    store: &mut [u8],
    out: &mut [u8],
    i: u8,
    e: EndPoint,
    t: FrameType,
    s: Seq,
    payload: Payload,
) -> Was
    ensures answer { let x = whole node.old book.old store.old out.old in
        result ≡ taken_in_answer x i e t s.0 payload.entry.bytes.now }
    ensures after { let x = whole node.old book.old store.old out.old in
        whole node.new book.new store.new out.new
        ≡ taken_in_after x i e t s.0 payload.entry.bytes.now }
{
    match t {
        FrameType::Data => take_data(node, book, store, out, i, e, s, payload),
        FrameType::Acknowledge => acknowledge(node, book, i, e, s),
        FrameType::Reset => take_reset(node, i, e),
        FrameType::Urgent => take_urgent(out, payload),
    }
}

// A frame of type t, with a payload of n bytes by its header and number s, comes to entry i. It takes these apart and
// not the `Header`, which would be packed into a word and unpacked again.
fn come(
    node: &mut [u64],
    book: &mut [u16],
    store: &mut [u8],
    out: &mut [u8],
    i: u8,
    t: FrameType,
    n: u16,
    s: Seq,
    payload: Payload,
) -> Result<Arrival, Refusal>
    ensures answer { let x = whole node.old book.old store.old out.old in
        let e = end_of x.node i in
        let v = verdict (entry_tests x.node i e t n (length x.store) (length x.out)) in
        result ≡ answer_as v (Ok (record { entry = i; was = taken_in_answer x i e t s.0 payload.entry.bytes.now })) }
    ensures after { let x = whole node.old book.old store.old out.old in
        let e = end_of x.node i in
        let v = verdict (entry_tests x.node i e t n (length x.store) (length x.out)) in
        whole node.new book.new store.new out.new
        ≡ after_as v x (taken_in_after x i e t s.0 payload.entry.bytes.now) }
{
    judge(node, i, t, n, store.len(), out.len())?;
    let e = load(node, i as usize);
    let was = take(node, book, store, out, i, e, t, s, payload);
    Ok(Arrival { entry: i, was })
}

// A frame arrives.
#[tactic(auto, unfolding(crate::specs::Arriving::arrival_answer, crate::specs::Arriving::arrival_after, crate::specs::Arriving::read_answer, crate::specs::Arriving::read_after, crate::specs::Arriving::entry_answer, crate::specs::Arriving::entry_after))]
pub fn arrive(
    node: &mut [u64],
    book: &mut [u16],
    store: &mut [u8],
    out: &mut [u8],
    frame: &[u8],
) -> Result<Arrival, Refusal>
    ensures answer { let x = whole node.old book.old store.old out.old in
        result ≡ arrival_answer x frame.now }
    ensures after { let x = whole node.old book.old store.old out.old in
        whole node.new book.new store.new out.new
        ≡ arrival_after x frame.now }
{
    if !is_sound(frame) {
        return Err(Refusal::BadFrame);
    }
    if !is_ours(node, frame) {
        return Err(Refusal::NotOurs);
    }
    // By `?` the header would come packed into a word, and an acknowledgement cost 3.5 in 100 more (./bench).
    match header(frame) {
        Err(why) => Err(why),
        Ok(h) => {
            let t = h.kind;
            let i = entry_for(node, t, h.source, h.channel);
            let carried = Payload {
                bytes: payload(frame),
            };
            come(node, book, store, out, i, t, h.length, h.seq, carried)
        }
    }
}
