// A cell of the book: the length of its payload, its timer and its retries. Each is one line: by a field's number one
// function would do, and say less.
ghost use Rattle.std.specs.Prelude.{◌≡◌, ◌-◌, ◌<◌, ℕ, set};
ghost use Rattle.memory.specs.Layout.{cell_of, cell_id, length_at, timer_at, retries_at};
ghost use Rattle.slots.specs.Slots.{length_in, timer_in, retries_in};

use memory::{half_at, layout};
use std::marker::Model;
use units::bytes::put;

// A cell, by its number: so small that its place in the queues, which is CELL_ID more, is a half word. It is kept as an
// index, since the book is read and written at it.
#[derive(Clone, Copy)]
pub struct Cell {
    number: usize,
}

impl Model for Cell {
    ghost Value = { ℕ };

    ghost view = { λ c. c.number };

    ghost invariant = { λ c. c.number < 65472 };

    ghost inverse = { λ n. record { number = n } };
}

impl Cell {
    // The cell of a slot of entry i.
    pub fn of_slot(i: u8, slot: u8) -> Self
        ensures { result ≡ cell_of i slot }
    {
        Cell {
            number: (layout::CELLS * i as u16) as usize + slot as usize,
        }
    }

    // The cell whose place in the queues is x.
    pub fn with_id(x: u16) -> Self
        ensures { result ≡ x - cell_id 0 }
    {
        Cell {
            number: x.saturating_sub(layout::CELL_ID) as usize,
        }
    }

    // Its place in the queues.
    pub fn id(self) -> u16
        ensures { result ≡ cell_id self }
    {
        layout::CELL_ID + self.number as u16
    }

    // The length of its payload.
    pub fn length(self, book: &[u16]) -> u16
        ensures { result ≡ length_in book.now self }
    {
        half_at(book, layout::LENGTH_AT + self.number)
    }

    // Its payload has n bytes.
    pub fn put_length(self, book: &mut [u16], n: u16)
        ensures { book.new ≡ set book.old (length_at self) n }
    {
        put(book, layout::LENGTH_AT + self.number, n)
    }

    // The tick at which its timer runs out, 0 where it does not run; a mark while its frame is under way. No enum: the
    // mark is also a tick's number (`timing::STANDING`).
    pub fn timer(self, book: &[u16]) -> u16
        ensures { result ≡ timer_in book.now self }
    {
        half_at(book, layout::TIMER_AT + self.number)
    }

    // Its timer runs out at tick d, or does not run where that is 0.
    pub fn put_timer(self, book: &mut [u16], d: u16)
        ensures { book.new ≡ set book.old (timer_at self) d }
    {
        put(book, layout::TIMER_AT + self.number, d)
    }

    // How often its payload was sent again.
    pub fn retries(self, book: &[u16]) -> u16
        ensures { result ≡ retries_in book.now self }
    {
        half_at(book, layout::RETRIES_AT + self.number)
    }

    // Its payload was sent again n times.
    pub fn put_retries(self, book: &mut [u16], n: u16)
        ensures { book.new ≡ set book.old (retries_at self) n }
    {
        put(book, layout::RETRIES_AT + self.number, n)
    }
}
