// Reading and writing what is lent: items of any type, and numbers in bytes, high bytes first. Past the end a read
// gives 0, or what the caller says, and a store alters nothing.
ghost use Rattle.std.specs.Prelude.{◌≡◌, ◌+◌, ◌*◌, min, get_or, set, take, drop};
ghost use Rattle.std.proofs.lemmas.List.Edits.{sets};
ghost use Rattle.units.specs.Bytes.{get16_of, get32_of, be16, be32};

// The item at an index, or what stands for it past the end.
pub fn get_or<T: Copy>(s: &[T], i: usize, none: T) -> T
    ensures { result ≡ get_or s.now i none }
{
    s.get(i).copied().unwrap_or(none)
}

// The byte at an index. Kept beside `get_or`, as `word_at` and `half_at` (crates/memory) are: the 0 that a read past
// the end gives is said once, and not at each of a hundred reads.
pub fn byte_at(s: &[u8], i: usize) -> u8
    ensures { result ≡ get_or s.now i 0 }
{
    get_or(s, i, 0)
}

// The two bytes from an index on, as a number. `from_be_bytes` asks for both; here one past the end counts as 0, as
// `get16_of` says. `get32` is no second size of it: its result is of another type.
#[tactic(auto, unfolding(crate::specs::Bytes::get16_of), using(crate::proofs::Runs::far16))]
pub fn get16(s: &[u8], i: usize) -> u16
    ensures { result ≡ get16_of s.now i }
{
    if s.len() <= i {
        return 0;
    }
    let high = byte_at(s, i);
    let low = byte_at(s, i + 1);
    (high as u16) * 256 + (low as u16)
}

// Four bytes as a number.
fn joined(a: u8, b: u8, c: u8, d: u8) -> u32
    ensures { result ≡ (a * 256 + b) * 65536 + (c * 256 + d) }
{
    ((a as u32) * 256 + (b as u32)) * 65536 + ((c as u32) * 256 + (d as u32))
}

// The four bytes from an index on, as a number. Where all are there, which is tested first, it is one load.
#[tactic(auto, unfolding(crate::specs::Bytes::get16_of, crate::specs::Bytes::get32_of), using(crate::proofs::Runs::far32))]
pub fn get32(s: &[u8], i: usize) -> u32
    ensures { result ≡ get32_of s.now i }
{
    if 4 <= s.len() {
        if i <= s.len() - 4 {
            return joined(s[i], s[i + 1], s[i + 2], s[i + 3]);
        }
    }
    if s.len() <= i {
        return 0;
    }
    joined(
        byte_at(s, i),
        byte_at(s, i + 1),
        byte_at(s, i + 2),
        byte_at(s, i + 3),
    )
}

// n items from an index on, or as many of them as there are. Where all are there the length is n itself, so that no
// read of an item below n is tested again.
pub fn part<T>(s: &[T], i: usize, n: usize) -> &[T]
    ensures { result.now ≡ take n (drop i s.now) }
{
    if s.len() <= i {
        return &s[0..0];
    }
    if n <= s.len() - i {
        return &s[i..i + n];
    }
    &s[i..]
}

// One item stored.
pub fn put<T: Copy>(s: &mut [T], i: usize, item: T)
    ensures { s.new ≡ set s.old i item }
{
    if i < s.len() {
        s[i] = item;
    }
}

// A number stored in two bytes. Not by `to_be_bytes` at once: where there is room for one of the two, that one is
// stored (`be16`).
#[tactic(auto, unfolding(crate::specs::Bytes::be16), using(crate::proofs::Runs::sets_out))]
pub fn put16(s: &mut [u8], i: usize, v: u16)
    ensures { s.new ≡ sets s.old i (be16 v) }
{
    if s.len() <= i {
        return;
    }
    put(s, i, (v / 256) as u8);
    put(s, i + 1, (v % 256) as u8);
}

// A number stored in four bytes, as many as there is room for: with `put16` two functions, as there are two types.
#[tactic(auto, unfolding(crate::specs::Bytes::be16, crate::specs::Bytes::be32), using(crate::proofs::Runs::sets_out))]
pub fn put32(s: &mut [u8], i: usize, v: u32)
    ensures { s.new ≡ sets s.old i (be32 v) }
{
    if s.len() <= i {
        return;
    }
    put16(s, i, (v / 65536) as u16);
    put16(s, i + 2, (v % 65536) as u16);
}

// The smaller of two: the library's `min`, by the name that docs/CONTRACTS.md has for it.
pub fn least(a: usize, b: usize) -> usize
    ensures { result ≡ min a b }
{
    a.min(b)
}

// Items stored one after the other, as many as there is room for. One by one: `copy_from_slice` would ask C for
// `memmove` beside `memset`, which is all that docs/C.md says the archive needs.
#[tactic(auto, using(crate::proofs::Runs::sets_out, crate::proofs::Runs::sets_more, crate::proofs::Runs::sets_whole))]
pub fn put_all<T: Copy>(s: &mut [T], i: usize, items: &[T])
    ensures { s.new ≡ sets s.old i items.now }
{
    if s.len() <= i {
        return;
    }
    let n = least(s.len() - i, items.len());
    for k in 0..n {
        s[i + k] = items[k];
    }
}
