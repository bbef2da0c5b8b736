// The host's block: how many payloads it has, where each begins and where the last ends, then the payloads.
// Proved: what is written is `block_of` of specs/Blocks.antt, from the first byte on, and the answer how many of its
// bytes the lent block took: all of them, where it is long enough. Beyond its end nothing alters. specs/Reading.antt:
// the payloads can be read out of the block again; which bytes are a block, and which of those a plan.
// `put_one` takes a payload as a frame carries it (carried.rt), of at most 65,535 bytes.
#![tactic(auto)]

pub mod carried; // carried.rt: a payload as a frame carries it
pub mod layout; // layout.rt: its numbers
pub mod lent; // lent.rt: a block that was lent, read

ghost use Rattle.std.specs.Prelude.{◌≡◌, [], ◌∷◌, ◌+◌, ◌*◌, ◌<◌, length};
ghost use Rattle.std.proofs.lemmas.List.Edits.{sets};
ghost use Rattle.units.specs.Bytes.{be32};
ghost use Rattle.blocks.specs.Blocks.{offsets_at, offset_bytes, block_of, takes};
ghost use Rattle.blocks.specs.Payloads.{payload_at, payloads};

use slots::{cell_of, slot_for, spot_of};
use units::bytes::{part, put_all, put16, put32};
use window::{Window, advance};

// Whose payloads they are: the entry, where its area of the store begins, P, and its window.
#[derive(Clone, Copy)]
pub struct Owner {
    pub entry: u8,
    pub place: u16,
    pub largest: u16,
    pub window: Window,
}

// The payload of number k past the start.
fn payload<'a>(store: &'a [u8], book: &[u16], o: Owner, k: u8) -> &'a [u8]
    ensures is { result.now
        ≡ payload_at store.now book.now o.entry o.place o.largest o.window k }
    ensures short { length result.now < 65536 }
{
    let w = o.window;
    let s = advance(w.start, k);
    let n = cell_of(o.entry, w, s).length(book);
    part(
        store,
        spot_of(o.place, o.largest, slot_for(w, s)),
        n as usize,
    )
}

// Offset j of a block stored, with one test of the room where all of it fits: four stores of `be32`'s bytes, as by
// `to_be_bytes`.
#[tactic(auto, unfolding(units::specs::Bytes::be32, units::specs::Bytes::be16))]
fn put_offset(out: &mut [u8], j: u8, offset: usize)
    requires { offset < 4294967296 }
    ensures { out.new ≡ sets out.old (offsets_at + offset_bytes * j) (be32 offset) }
{
    let at = layout::OFFSETS + layout::OFFSET_BYTES * j as usize;
    if out.len() < at + layout::OFFSET_BYTES {
        put32(out, at, offset as u32);
        return;
    }
    out[at] = (offset / 65536 / 256) as u8;
    out[at + 1] = (offset / 65536 % 256) as u8;
    out[at + 2] = (offset % 65536 / 256) as u8;
    out[at + 3] = (offset % 65536 % 256) as u8;
}

// The block of an entry's first k payloads from the start of its window on, as store and book have them;
// answers how much of it the lent block took: no `Vec` is made, since nothing is allocated.
#[tactic(auto, unfolding(crate::specs::Payloads::payloads, crate::specs::Blocks::joined_up, crate::specs::Blocks::offsets))]
pub fn put_block(out: &mut [u8], store: &[u8], book: &[u16], o: Owner, k: u8) -> usize
    ensures length { let ps = payloads store.now book.now o.entry o.place o.largest o.window k in
        result ≡ takes out.old ps }
    ensures written { let ps = payloads store.now book.now o.entry o.place o.largest o.window k in
        out.new ≡ sets out.old 0 (block_of ps) }
{
    put16(out, 0, k as u16);
    let mut end = layout::EMPTY + layout::OFFSET_BYTES * k as usize;
    for j in 0..k {
        let p = payload(store, book, o, j);
        put_offset(out, j, end);
        put_all(out, end, p);
        end += p.len();
    }
    put_offset(out, k, end);
    end.min(out.len())
}

// The block of no payload; answers how much of it the lent block took.
#[tactic(auto, unfolding(crate::specs::Blocks::block_of, crate::specs::Blocks::offsets, crate::specs::Blocks::joined_up, units::specs::Bytes::be16, units::specs::Bytes::be32))]
pub fn put_none(out: &mut [u8]) -> usize
    ensures length { result ≡ takes out.old [] }
    ensures written { out.new ≡ sets out.old 0 (block_of []) }
{
    put16(out, 0, 0);
    put_offset(out, 0, layout::EMPTY);
    layout::EMPTY.min(out.len())
}

// The block of one payload; answers how much of it the lent block took.
#[tactic(auto, using(crate::proofs::Appending::length_one, crate::proofs::Appending::sets_one))]
pub fn put_one(out: &mut [u8], payload: carried::Payload) -> usize
    ensures length { result ≡ takes out.old (payload.entry.bytes.now ∷ []) }
    ensures written { out.new ≡ sets out.old 0 (block_of (payload.entry.bytes.now ∷ [])) }
{
    let end = layout::ONLY + payload.bytes.len();
    put16(out, 0, 1);
    put_offset(out, 0, layout::ONLY);
    put_offset(out, 1, end);
    put_all(out, layout::ONLY, payload.bytes);
    end.min(out.len())
}
