// A lent block, read: how many payloads it counts, where each lies, and whether it is a plan.
ghost use Rattle.std.specs.Prelude.{◌≡◌, ◌-◌, ◌<◌, take, drop};
ghost use Rattle.blocks.specs.Reading.{count_in, offset_in, never_fall, is_plan};

use crate::layout;
use units::bytes::{get16, get32, part};
use units::limits;

// How many payloads a block counts.
pub fn count(block: &[u8]) -> u16
    ensures { result ≡ count_in block.now }
{
    get16(block, 0)
}

// Where payload j begins, and so where the one before it ends.
pub fn offset(block: &[u8], j: u8) -> usize
    ensures { result ≡ offset_in block.now j }
{
    get32(block, layout::OFFSETS + layout::OFFSET_BYTES * j as usize) as usize
}

// What lies between two offsets: a payload, or as much of it as there is. Nothing, where they fall: that is told first,
// and not left to a difference that stops at 0.
pub fn between(block: &[u8], from: usize, to: usize) -> &[u8]
    ensures { result.now ≡ take (to - from) (drop from block.now) }
{
    if to <= from {
        return &block[0..0];
    }
    part(block, from, to - from)
}

// Whether none of k offsets, from the second on, falls below the one before it.
#[tactic(auto, unfolding(crate::specs::Reading::never_fall))]
fn never_fall(block: &[u8], k: u8) -> bool
    requires { k < 255 }
    ensures { result ≡ never_fall block.now 0 k }
{
    let mut last = offset(block, 0);
    for j in 0..k {
        let next = offset(block, j + 1);
        if next < last {
            return false;
        }
        last = next;
    }
    true
}

// Whether bytes are a plan.
#[tactic(auto, unfolding(crate::specs::Reading::is_plan, crate::specs::Reading::is_block))]
pub fn is_plan(block: &[u8]) -> bool
    ensures { result ≡ is_plan block.now }
{
    let k = count(block);
    if limits::PLANNED < k {
        return false;
    }
    let n = k as u8;
    if offset(block, 0) != layout::EMPTY + layout::OFFSET_BYTES * n as usize {
        return false;
    }
    if !never_fall(block, n) {
        return false;
    }
    offset(block, n) == block.len()
}
