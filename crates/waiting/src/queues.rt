// The four queues. Each is a ring of links through the number that stands for the queue itself: it is one of the
// numbers of what can wait (crates/memory), and so no enum. The links are numbers in the lent book; there is no heap.
ghost use Rattle.std.specs.Prelude.{◌≡◌};
ghost use Rattle.waiting.specs.Queues.{next_of, appended, unlinked};

use memory::{half_at, layout};
use units::bytes::put;

// What has waited longest in queue q; a number below `QUEUES` where nothing waits.
pub fn first(book: &[u16], q: u16) -> u16
    ensures { result ≡ next_of book.now q }
{
    half_at(book, q as usize)
}

// x waits, last in queue q.
#[tactic(auto, unfolding(crate::specs::Queues::appended))]
pub fn append(book: &mut [u16], q: u16, x: u16)
    ensures { book.new ≡ appended book.old q x }
{
    let last = half_at(book, layout::PREV_AT + q as usize);
    put(book, last as usize, x);
    put(book, layout::PREV_AT + x as usize, last);
    put(book, x as usize, q);
    put(book, layout::PREV_AT + q as usize, x);
}

// x waits no more.
#[tactic(auto, unfolding(crate::specs::Queues::unlinked))]
pub fn unlink(book: &mut [u16], x: u16)
    ensures { book.new ≡ unlinked book.old x }
{
    let next = half_at(book, x as usize);
    let prev = half_at(book, layout::PREV_AT + x as usize);
    put(book, prev as usize, next);
    put(book, layout::PREV_AT + next as usize, prev);
}
