// Marks in two words of 64 bits: mark k is bit k of the low word, and from 64 on bit k - 64 of the high word.
// A mark past the last reads as not set, and setting it alters nothing.
ghost use Rattle.std.specs.Prelude.{◌≡◌, ◌/◌, ◌^◌, bit_or, count_ones};
ghost use Rattle.window.specs.Marks.{joined, parted, bit, run_in};

use super::Marks;

// How many bits of a word are 1 without a gap, from the lowest on.
fn trailing_ones(word: u64) -> u8
    ensures { result ≡ run_in 64 word }
{
    word.trailing_ones() as u8
}

// How many marks are set without a gap, from mark 0 on. [G3]
pub fn run(m: Marks) -> u8
    ensures { result ≡ run_in 128 (joined m) }
{
    let low = trailing_ones(m.0);
    if low < 64 {
        return low;
    }
    low + trailing_ones(m.1)
}

// How many marks are set.
pub fn count(m: Marks) -> u8
    ensures { result ≡ count_ones (joined m) }
{
    (m.0.count_ones() + m.1.count_ones()) as u8
}

// Whether mark k is set.
pub fn is_set(m: Marks, k: u8) -> bool
    ensures { result ≡ bit (joined m) k }
{
    let low = m.0;
    let high = m.1;
    if k < 64 {
        return (low >> k) % 2 == 1;
    }
    if k < 128 {
        return (high >> (k - 64)) % 2 == 1;
    }
    false
}

// The marks with k set too.
#[tactic(auto, using(crate::proofs::TwoWords::set_low, crate::proofs::TwoWords::set_high, crate::proofs::TwoWords::set_past))]
pub fn with_set(m: Marks, k: u8) -> Marks
    ensures { result ≡ parted (bit_or (joined m) (2 ^ k)) }
{
    let low = m.0;
    let high = m.1;
    if k < 64 {
        return Marks(low | (1 << k), high);
    }
    if k < 128 {
        return Marks(low, high | (1 << (k - 64)));
    }
    m
}

// The marks n places lower; the n lowest go.
#[tactic(auto, using(crate::proofs::TwoWords::shift_low, crate::proofs::TwoWords::shift_high, crate::proofs::TwoWords::shift_all))]
pub fn shift_down(m: Marks, n: u8) -> Marks
    ensures { result ≡ parted (joined m / 2 ^ n) }
{
    let low = m.0;
    let high = m.1;
    if n == 0 {
        return m;
    }
    if n < 64 {
        return Marks((low >> n) | (high << (64 - n)), high >> n);
    }
    if n < 128 {
        return Marks(high >> (n - 64), 0);
    }
    Marks(0, 0)
}
