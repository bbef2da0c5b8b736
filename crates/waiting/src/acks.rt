// The waiting acknowledgements, oldest first: each is its entry and the number it acknowledges. They are a ring of the
// node's words, since nothing is allocated.
ghost use Rattle.std.specs.Prelude.{◌≡◌, ◌+◌, ◌*◌};
ghost use Rattle.waiting.specs.Acks.{waiting_of, oldest_of, ack_of, pushed, popped, turned, dropped};

use memory::{layout, word_at};
use units::Seq;
use units::bytes::put;

// The most that may wait: there are as many places.
pub const MOST: u8 = 32;
// The count is read modulo this, so that damaged memory cannot make the loop in `drop` long.
const COUNTS: u64 = 64;
// What takes one away, modulo `COUNTS`.
const ONE_FEWER: u64 = 63;

// An acknowledgement that waits.
#[derive(Clone, Copy)]
pub struct Ack {
    pub entry: u8,
    pub seq: Seq,
}

// The word that stands for an acknowledgement: its entry above, its number below.
impl From<Ack> for u64 {
    ghost use Rattle.std.specs.Prelude.{◌≡◌};
    ghost use Rattle.waiting.specs.Acks.{word_of};

    ghost from_gives = { λ ack word. word ≡ word_of ack };

    fn from(ack: Ack) -> u64 {
        let seq = ack.seq.0;
        ack.entry as u64 * 256 + seq as u64
    }
}

// The acknowledgement that a word stands for; what lies above is not read.
impl From<u64> for Ack {
    ghost use Rattle.std.specs.Prelude.{◌≡◌};
    ghost use Rattle.waiting.specs.Acks.{ack_of};

    ghost from_gives = { λ word ack. ack ≡ ack_of word };

    fn from(word: u64) -> Ack {
        Ack {
            entry: (word / 256 % 256) as u8,
            seq: Seq((word % 256) as u8),
        }
    }
}

// How many wait.
pub fn waiting(node: &[u64]) -> u8
    ensures { result ≡ waiting_of node.now }
{
    (word_at(node, layout::ACKS_AT) % COUNTS) as u8
}

// The word of the one that has waited longest.
fn oldest_word(node: &[u64]) -> u64
    ensures { result ≡ oldest_of node.now }
{
    let k = word_at(node, layout::OLDEST_AT) % layout::ACK_PLACES;
    word_at(node, layout::ACK_AT + k as usize)
}

// The one that has waited longest.
pub fn oldest(node: &[u64]) -> Ack
    ensures { result ≡ ack_of (oldest_of node.now) }
{
    Ack::from(oldest_word(node))
}

// One more waits.
#[tactic(auto, unfolding(crate::specs::Acks::pushed))]
fn push_word(node: &mut [u64], w: u64)
    ensures { node.new ≡ pushed node.old w }
{
    let k = word_at(node, layout::OLDEST_AT) % layout::ACK_PLACES;
    let n = word_at(node, layout::ACKS_AT) % COUNTS;
    put(
        node,
        layout::ACK_AT + ((k + n) % layout::ACK_PLACES) as usize,
        w,
    );
    put(node, layout::ACKS_AT, n + 1);
}

// An acknowledgement of s waits for entry i.
pub fn push(node: &mut [u64], i: u8, s: Seq)
    ensures { node.new ≡ pushed node.old (i * 256 + s.0) }
{
    push_word(node, u64::from(Ack { entry: i, seq: s }))
}

// The oldest waits no more.
#[tactic(auto, unfolding(crate::specs::Acks::popped))]
pub fn pop(node: &mut [u64])
    ensures { node.new ≡ popped node.old }
{
    let k = word_at(node, layout::OLDEST_AT) % layout::ACK_PLACES;
    let n = word_at(node, layout::ACKS_AT) % COUNTS;
    put(node, layout::OLDEST_AT, (k + 1) % layout::ACK_PLACES);
    put(node, layout::ACKS_AT, (n + ONE_FEWER) % COUNTS);
}

// Takes the oldest out, and puts it back at the end unless it is entry i's.
#[tactic(auto, unfolding(crate::specs::Acks::turned))]
fn turn(node: &mut [u64], i: u8)
    ensures { node.new ≡ turned i node.old }
{
    let w = oldest_word(node);
    pop(node);
    if Ack::from(w).entry == i {
        return;
    }
    push_word(node, w)
}

// Those of entry i wait no more; the others keep their order.
#[tactic(auto, unfolding(crate::specs::Acks::turns))]
pub fn drop(node: &mut [u64], i: u8)
    ensures { node.new ≡ dropped i node.old }
{
    let n = waiting(node);
    for _ in 0..n {
        turn(node, i);
    }
}
