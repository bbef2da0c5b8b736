// The frame under way, from handing out to the report of its end: a half word of the book.
ghost use Rattle.std.specs.Prelude.{◌≡◌};
ghost use Rattle.waiting.specs.Port.{under_in, out_word, out_entry, out_number, begun, ended, is_own, is_data};
ghost use Rattle.waiting.specs.Port.{is_reset, data_out};

use memory::{half_at, layout};
use units::Seq;
use units::bytes::put;

// The parts of the half word: a sequence number takes 256 values, 16 entries come to this, and there are 4 types.
const PER_ENTRY: u16 = 256;

const ENTRIES: u8 = 16;

const PER_TYPE: u16 = 4096;

const TYPES: u8 = 4;

// Type and entry of entry 0's Data, and of its Reset.
const FIRST_DATA: u16 = 16;

const FIRST_RESET: u16 = 48;

// No sequence number.
const NO_NUMBER: u16 = 256;

// What is under way: 0 where there is none. It is the book's own half word, of which entry, number and sort are asked
// below: a struct of the three would be put together for a question about one.
pub fn under(book: &[u16]) -> u16
    ensures { result ≡ under_in book.now }
{
    half_at(book, layout::UNDER_AT)
}

// A frame of entry i with number s, by its type's number.
fn out_word(t: u8, i: u8, s: Seq) -> u16
    ensures { result ≡ out_word t i s.0 }
{
    let seq = s.0;
    ((t % TYPES) as u16 + 1) * PER_TYPE + (i % ENTRIES) as u16 * PER_ENTRY + seq as u16
}

// That frame goes under way. By its type's number, since the contract holds of every number (`begun`).
pub fn begin(book: &mut [u16], t: u8, i: u8, s: Seq)
    ensures { book.new ≡ begun book.old t i s.0 }
{
    put(book, layout::UNDER_AT, out_word(t, i, s))
}

// None is under way any more.
pub fn end(book: &mut [u16])
    ensures { book.new ≡ ended book.old }
{
    put(book, layout::UNDER_AT, 0)
}

// Whether a frame of entry i is under way.
pub fn is_own(book: &[u16], i: u8) -> bool
    ensures { result ≡ is_own book.now i }
{
    let u = under(book);
    u != 0 && entry(u) == i
}

// Whose a frame under way is.
pub fn entry(u: u16) -> u8
    ensures { result ≡ out_entry u }
{
    (u / PER_ENTRY % ENTRIES as u16) as u8
}

// Its sequence number.
pub fn number(u: u16) -> Seq
    ensures { result.0 ≡ out_number u }
{
    Seq((u % PER_ENTRY) as u8)
}

// Whether it is entry i's Data. This and its like for a Reset are one line each, by the name of what they ask.
pub fn is_data(u: u16, i: u8) -> bool
    ensures { result ≡ is_data u i }
{
    u / PER_ENTRY == FIRST_DATA + i as u16
}

// Whether it is entry i's Reset.
pub fn is_reset(u: u16, i: u8) -> bool
    ensures { result ≡ is_reset u i }
{
    u / PER_ENTRY == FIRST_RESET + i as u16
}

// The number of entry i's Data that is, and 256 where none is: each number of a run is compared with it, and none is
// that.
pub fn data_out(book: &[u16], i: u8) -> u16
    ensures { result ≡ data_out book.now i }
{
    let u = under(book);
    if is_data(u, i) {
        return u % PER_ENTRY;
    }
    NO_NUMBER
}
