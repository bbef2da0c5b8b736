// The slots: where a numbered payload lies in the store and in the book, and what of an entry waits there.
// Proved: each function is the definition of specs/Slots.antt that it cites, for every memory.
#![tactic(auto)]

pub mod cells; // cells.rt: a cell, and what the book says of it

ghost use Rattle.std.specs.Prelude.{◌≡◌};
ghost use Rattle.slots.specs.Slots.{slot_for, cell, spot, waits_in, drop_slot, drop_slots, idled, number_in};

use cells::Cell;
use end_points::Run;
use memory::layout;
use units::Seq;
use waiting::queues;
use window::{Window, advance, distance};

// The slot of a sequence number.
pub fn slot_for(w: Window, s: Seq) -> u8
    ensures { result ≡ slot_for w s.0 }
{
    let size = w.size;
    if size == 0 {
        return 0;
    }
    s.0 % size
}

// The book's cell of a sequence number of entry i. Book, entry and window go side by side in this file: a struct of
// them would be made anew for one line each time.
pub fn cell_of(i: u8, w: Window, s: Seq) -> Cell
    ensures { result ≡ cell i w s.0 }
{
    Cell::of_slot(i, slot_for(w, s))
}

// The first byte of a slot in the store, for an entry whose part begins at place and whose largest payload is P: no
// struct of two of the three, which would be made for this sum alone.
pub fn spot_of(place: u16, largest: u16, slot: u8) -> usize
    ensures { result ≡ spot place largest slot }
{
    place as usize + slot as usize * largest as usize
}

// The least number that uses a slot is the slot's own.
fn least_in(slot: u8) -> Seq
    ensures { result ≡ record { 0 = slot } }
{
    Seq(slot)
}

// The number in the window that uses a slot.
pub fn number_in(w: Window, slot: u8) -> Seq
    ensures { result.0 ≡ number_in w slot }
{
    let size = w.size;
    let start = w.start;
    if size == 0 {
        return start;
    }
    let d = distance(start, least_in(slot));
    advance(start, d % size)
}

// Whether the number k past the start waits, as data or as a retransmission, at an open sender that has handed out
// some.
#[tactic(auto, unfolding(crate::specs::Slots::waits_in))]
pub fn waits(book: &[u16], i: u8, w: Window, handed: u8, k: u8) -> bool
    ensures { result ≡ waits_in book.now i w handed k }
{
    if handed <= k {
        return true;
    }
    if w.holds(k) {
        return false;
    }
    cell_of(i, w, advance(w.start, k)).timer(book) == 0
}

// The number k past the start waits no more.
#[tactic(auto, unfolding(crate::specs::Slots::drop_slot))]
fn drop_slot(book: &mut [u16], i: u8, w: Window, handed: u8, k: u8)
    ensures { book.new ≡ drop_slot i w handed k book.old }
{
    if waits(book, i, w, handed, k) {
        queues::unlink(book, cell_of(i, w, advance(w.start, k)).id());
    }
}

// Nothing of the numbers taken waits any more.
#[tactic(auto, unfolding(crate::specs::Slots::drop_slots))]
pub fn drop_slots(book: &mut [u16], i: u8, w: Window, taken: u8, handed: u8)
    ensures { book.new ≡ drop_slots i w handed taken book.old }
{
    for k in 0..taken {
        drop_slot(book, i, w, handed, k);
    }
}

// Nothing of an open sender waits any more.
#[tactic(auto, unfolding(crate::specs::Slots::idled))]
#[inline(always)]
pub fn idle(book: &mut [u16], i: u8, r: Run)
    ensures { book.new ≡ idled i r book.old }
{
    if r.urgent == 0 {
        drop_slots(book, i, r.window, r.taken, r.handed);
        return;
    }
    queues::unlink(book, layout::URGENT_ID + i as u16);
    drop_slots(book, i, r.window, r.taken, r.handed)
}
