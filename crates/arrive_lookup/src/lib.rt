// Which entry a frame is for: the one of the fitting kind, with the frame's source as remote address and its channel;
// and the index by which it is found, at one cost however many entries there are.
// Proved: `entry_for` and `put_in_index` are the definitions of specs/Lookup.antt, for every node. On an index that
// setup made, what is found fits, and what fits is found (proofs/Found.antt).
#![tactic(auto)]

ghost use Rattle.std.specs.Prelude.{◌≡◌, ◌<◌};
ghost use Rattle.window.specs.Marks.{bit};
ghost use Rattle.end_points.specs.States.{is_sends};
ghost use Rattle.arrive_lookup.specs.Lookup.{row_in, channel_digit, marked, indexed, first_from, entry_for};
ghost use Rattle.frame.specs.Types.{for_sender};

use frame::FrameType;
use memory::{layout, word_at};
use table::{Entry, Kind};
use units::bytes::put;
use units::{Address, Channel};

// Whether frames of a type are for senders.
fn for_sender(t: FrameType) -> bool
    ensures { result ≡ for_sender t }
{
    matches!(t, FrameType::Acknowledge)
}

// A row of the index: there is one for each byte, which is a channel in one place and an address in another. The rows
// are words of the node, and no map, which would need a heap.
#[derive(Clone, Copy)]
struct Row(u8);

// The sets of entries in a row.
fn sets_in(node: &[u64], v: Row) -> u64
    ensures { result ≡ row_in node.now v.0 }
{
    word_at(node, layout::ROW_AT + v.0 as usize)
}

// The lowest of 16 binary digits that is 1; 16 where none is, as `entry_for` answers it.
fn lowest(set: u64) -> u8
    ensures { result ≡ first_from (bit set) 0 16 }
{
    (set | 65536).trailing_zeros() as u8
}

// The entry that a frame of a type from a source on a channel is for; 16 where there is none. A number and no `Option`:
// by the contract of an arrival entry 16 is judged as any other, whatever the count in the node is.
#[tactic(auto, unfolding(crate::specs::Lookup::entry_for))]
pub fn entry_for(node: &[u64], t: FrameType, source: Address, channel: Channel) -> u8
    ensures { result ≡ entry_for node.now t source.0 channel.0 }
{
    let over = sets_in(node, Row(channel.0));
    let from = sets_in(node, Row(source.0)) >> 32;
    if for_sender(t) {
        return lowest(over & from);
    }
    lowest((over >> 16) & from)
}

// A row of the index with digit k too.
fn mark(node: &mut [u64], v: Row, k: u8)
    requires { k < 64 }
    ensures { node.new ≡ marked node.old v.0 k }
{
    let with = sets_in(node, v) | (1 << k);
    put(node, layout::ROW_AT + v.0 as usize, with)
}

// Entry i's digit in the row of its channel.
fn channel_digit(kind: Kind, i: u8) -> u8
    requires { i < 16 }
    ensures { result ≡ channel_digit (is_sends kind) i }
{
    match kind {
        Kind::Sends => i,
        Kind::Receives => 16 + i,
    }
}

// Entry i, which is e, is put into the index. That i is below 16 is asked, here and of setup's own step: a type for it
// would be made there once, and taken apart here.
#[tactic(auto, unfolding(crate::specs::Lookup::indexed))]
pub fn put_in_index(node: &mut [u64], i: u8, e: Entry)
    requires { i < 16 }
    ensures { node.new ≡ indexed node.old i e }
{
    let kind = e.kind;
    mark(node, Row(e.channel.0), channel_digit(kind, i));
    mark(node, Row(e.remote.0), 32 + i)
}
