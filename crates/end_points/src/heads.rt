// The node's head: how many entries there are, who we are, and how much of a store they take. Each is one read, under
// its own name.
ghost use Rattle.std.specs.Prelude.{◌≡◌};
ghost use Rattle.end_points.specs.Heads.{count_in, own_in, protocol_in, need_in};

use memory::{layout, word_at};
use units::Address;

// How many entries there are. Each call tests its index against that, in two lines: one step with `?` would be one
// function more, and its definition.
pub fn count(node: &[u64]) -> u8
    ensures { result ≡ count_in node.now }
{
    (word_at(node, layout::COUNT_AT) % 256) as u8
}

// Our logical address.
pub fn own(node: &[u64]) -> Address
    ensures { result ≡ own_in node.now }
{
    Address((word_at(node, layout::OWN_AT) % 256) as u8)
}

// The protocol ID.
pub fn protocol(node: &[u64]) -> u8
    ensures { result ≡ protocol_in node.now }
{
    (word_at(node, layout::PROTOCOL_AT) % 256) as u8
}

// How many bytes of store the entries take.
pub fn need(node: &[u64]) -> usize
    ensures { result ≡ need_in node.now }
{
    word_at(node, layout::NEED_AT) as usize
}
