// Lines of text, put together in a page and written to a sink, `to`, when that is full.
// Proved: what the page holds afterwards, by the definitions of specs/Lines.antt, for every input and whether or not a
// write fails. Any page may be given, also one without room, so no invariant asks for room, and the clause `written`
// says each time where it needs it; and text is put into what was lent, since nothing is allocated.
#![tactic(auto)]

pub mod sink; // sink.rt: where text goes, and the error that ends it
mod answers; // answers.rt: what the calls answered, in the paper's numbers

ghost use Rattle.std.specs.Prelude.{◌≡◌, ◌≤◌, ℕ, [], map, take, length};
ghost use Rattle.lines.specs.Lines.{SameBuffer, page, seen, place_of, appended, ascii, decimal_of, valued, valued_all};
ghost use Rattle.lines.specs.Lines.{word_of, last_line};
ghost use Rattle.lines.specs.Sink.{Puts, Says, HasRoom, value_text, values_text, last_text};
ghost use Rattle.units.specs.Refusals.{number_of};
ghost use Rattle.frame.specs.Faults.{refused_of};

use frame::faults;
use itoa::Buffer;
use sink::Sink;
use std::io::Write;
use units::bytes::put_all;
use units::refusals::Refusal;

// Text that is put together: a buffer that was lent, and how many of its bytes are taken.
#[derive(Drop)]
pub struct Page<'a> {
    pub bytes: &'a mut [u8],
    pub taken: usize,
}

// What is told as a number of 64 bits.
pub trait AsNumber: Copy {
    ghost number: { Self → ℕ };

    fn as_number(self) -> u64
        ensures { result ≡ number self };
}

impl AsNumber for u8 {
    ghost number = { λ v. v };

    fn as_number(self) -> u64 {
        u64::from(self)
    }
}

impl AsNumber for u64 {
    ghost number = { λ v. v };

    fn as_number(self) -> u64 {
        self // one already
    }
}

// Why a run of records ends before its input does.
#[derive(Clone, Copy)]
pub enum Stop {
    Torn, // a record is cut short
    Unknown, // a record is of no listed kind
}

// Writes out what is taken of a buffer that is lent only to be read: its first `at` bytes; nothing where it has fewer.
pub fn flush<W: Write>(to: &mut Sink<W>, out: &[u8], at: usize)
    ensures { at ≤ length out.now → Puts W.contents to.old to.new (take at out.now) }
{
    if at <= out.len() {
        to.put(&out[0..at]);
    }
}

impl Page<'_> {
    // Writes out what is taken.
    pub fn flush<W: Write>(&self, to: &mut Sink<W>)
        ensures { self.now.taken ≤ length self.now.bytes.now →
            Puts W.contents to.old to.new (take self.now.taken self.now.bytes.now) }
    {
        flush(to, self.bytes, self.taken)
    }

    // Where n bytes more go. Where there is no room behind what is taken, that is written out first.
    fn place<W: Write>(&self, to: &mut Sink<W>, n: usize) -> usize
        ensures answer { result ≡ place_of (length self.now.bytes.now) self.now.taken n }
        ensures written { self.now.taken ≤ length self.now.bytes.now →
            Says W.contents to.old (seen self.now) to.new (page self.now.bytes.now result) [] }
    {
        if self.bytes.len() < self.taken {
            return 0;
        }
        if self.bytes.len() - self.taken < n {
            self.flush(to);
            return 0;
        }
        self.taken
    }

    // Bytes more.
    #[tactic(auto, unfolding(crate::specs::Lines::appended), using(crate::proofs::Pages::place_le))]
    pub fn text<W: Write>(&mut self, to: &mut Sink<W>, bytes: &[u8])
        ensures lent { SameBuffer self.old self.new }
        ensures after { seen self.new ≡ appended (seen self.old) bytes.now }
        ensures written { self.old.taken ≤ length self.old.bytes.now → length bytes.now ≤ length self.old.bytes.now →
            Says W.contents to.old (seen self.old) to.new (seen self.new) bytes.now }
    {
        let n = bytes.len();
        let from = self.place(to, n);
        put_all(self.bytes, from, bytes);
        self.taken = from + n;
    }

    // A number more, in decimal.
    #[tactic(auto, using(crate::proofs::Decimals::spelt))]
    pub fn number<W: Write>(&mut self, to: &mut Sink<W>, v: u64)
        ensures lent { SameBuffer self.old self.new }
        ensures after { seen self.new ≡ appended (seen self.old) (decimal_of v) }
        ensures written { HasRoom (seen self.old) →
            Says W.contents to.old (seen self.old) to.new (seen self.new) (decimal_of v) }
    {
        let mut digits = Buffer::new();
        self.text(to, digits.format(v).as_bytes());
    }

    // A number of a line, with the space before it: a value.
    #[tactic(auto, unfolding(crate::specs::Lines::valued))]
    pub fn value<W: Write>(&mut self, to: &mut Sink<W>, v: u64)
        ensures lent { SameBuffer self.old self.new }
        ensures after { seen self.new ≡ valued (seen self.old) v }
        ensures written { HasRoom (seen self.old) →
            Says W.contents to.old (seen self.old) to.new (seen self.new) (value_text v) }
    {
        self.text(to, b" ");
        self.number(to, v);
    }

    // The numbers of a slice, each a value.
    pub fn values<W: Write, T: AsNumber>(&mut self, to: &mut Sink<W>, vs: &[T])
        ensures lent { SameBuffer self.old self.new }
        ensures after { seen self.new ≡ valued_all (seen self.old) (map T.number vs.now) }
        ensures written { HasRoom (seen self.old) →
            Says W.contents to.old (seen self.old) to.new (seen self.new) (values_text (map T.number vs.now)) }
    {
        for v in vs {
            self.value(to, v.as_number());
        }
    }

    // A refusal's number and, where it is for a fault of a frame, the number of the byte, each a value.
    #[tactic(auto, unfolding(crate::specs::Lines::valued_all))]
    pub fn refused<W: Write>(&mut self, to: &mut Sink<W>, why: Refusal)
        ensures lent { SameBuffer self.old self.new }
        ensures after { seen self.new ≡ valued_all (seen self.old) (refused_of why) }
        ensures written { HasRoom (seen self.old) →
            Says W.contents to.old (seen self.old) to.new (seen self.new) (values_text (refused_of why)) }
    {
        let n = u8::from(why);
        self.value(to, n as u64);
        let byte = faults::fault_byte(n);
        if byte != faults::NO_BYTE {
            self.value(to, byte as u64);
        }
    }

    // A last line: a word that says why the run ends, and a number.
    #[tactic(auto, unfolding(crate::specs::Lines::last_line))]
    fn last<W: Write>(&mut self, to: &mut Sink<W>, word: &[u8], v: u64)
        ensures lent { SameBuffer self.old self.new }
        ensures after { seen self.new ≡ last_line (seen self.old) word.now v }
        ensures written { HasRoom (seen self.old) → length word.now ≤ length self.old.bytes.now →
            Says W.contents to.old (seen self.old) to.new (seen self.new) (last_text word.now v) }
    {
        self.text(to, word);
        self.value(to, v);
        self.text(to, b"\n");
    }

    // The last line of a run that stops, with the number of the record at which it does.
    pub fn stopped<W: Write>(&mut self, to: &mut Sink<W>, why: Stop, count: u64)
        ensures lent { SameBuffer self.old self.new }
        ensures after { seen self.new ≡ last_line (seen self.old) (word_of why) count }
        ensures written { HasRoom (seen self.old) →
            Says W.contents to.old (seen self.old) to.new (seen self.new) (last_text (word_of why) count) }
    {
        match why {
            Stop::Torn => self.last(to, b"torn", count),
            Stop::Unknown => self.last(to, b"unknown", count),
        }
    }

    // The only line where the whole input is refused. No case of `stopped`: it tells a refusal's number, and no
    // record's.
    pub fn refused_all<W: Write>(&mut self, to: &mut Sink<W>, why: Refusal)
        ensures lent { SameBuffer self.old self.new }
        ensures after { seen self.new ≡ last_line (seen self.old) (ascii "refused") (number_of why) }
        ensures written { HasRoom (seen self.old) →
            Says W.contents to.old (seen self.old) to.new (seen self.new)
            (last_text (ascii "refused") (number_of why)) }
    {
        self.last(to, b"refused", u8::from(why) as u64);
    }
}
