// The table's bytes, high bytes first. A byte past the end counts as 0.
ghost use Rattle.std.specs.Prelude.{◌≡◌, take, drop};
ghost use Rattle.table.specs.Layout.{entry_size, count_of, first_of, own_of, protocol_of, head_zeros_of};
ghost use Rattle.table.specs.Layout.{kind_of};
ghost use Rattle.table.specs.Layout.{window_from, zeros_from, entry_from, entry_of};

use crate::{Entry, Kind};
use units::bytes::{byte_at, get16, part};
use units::sizes::in_force;
use units::{Address, Channel};

// The bytes of the head, and of an entry.
pub const HEAD: usize = 8;

pub const ENTRY: usize = 12;

// How many entries the table says that it has. Like `first` and `head_zeros` one read, under the paper's name.
pub fn count(table: &[u8]) -> u16
    ensures { result ≡ count_of table.now }
{
    get16(table, 0)
}

// The offset that the table gives for its first entry.
pub fn first(table: &[u8]) -> u16
    ensures { result ≡ first_of table.now }
{
    get16(table, 2)
}

// The node's own address.
pub fn own(table: &[u8]) -> Address
    ensures { result ≡ own_of table.now }
{
    Address(byte_at(table, 4))
}

// The protocol ID of every frame.
pub fn protocol(table: &[u8]) -> u8
    ensures { result ≡ protocol_of table.now }
{
    byte_at(table, 5)
}

// The head's last two bytes, which are to be zero.
pub fn head_zeros(table: &[u8]) -> u16
    ensures { result ≡ head_zeros_of table.now }
{
    get16(table, 6)
}

// The byte that stands for a kind.
impl From<Kind> for u8 {
    ghost use Rattle.std.specs.Prelude.{◌≡◌};
    ghost use Rattle.table.specs.Layout.{byte_of};

    ghost from_gives = { λ kind byte. byte ≡ byte_of kind };

    fn from(kind: Kind) -> u8 {
        match kind {
            Kind::Sends => 0,
            Kind::Receives => 1,
        }
    }
}

// The kind that a byte stands for: every byte does (`kind_of`), so no `TryFrom`.
fn kind_of(b: u8) -> Kind
    ensures { result ≡ kind_of b }
{
    if b == 0 {
        return Kind::Sends;
    }
    Kind::Receives
}

// The bytes of the entry that begins at a byte, as many of its 12 as there are.
fn bytes_from(table: &[u8], at: usize) -> &[u8]
    ensures { result.now ≡ take entry_size (drop at table.now) }
{
    part(table, at, ENTRY)
}

// The window as it is written in the entry that begins at a byte.
#[tactic(auto, using(crate::proofs::Cut::cut16))]
pub fn window_from(table: &[u8], at: usize) -> u16
    ensures { result ≡ window_from table.now at }
{
    get16(bytes_from(table, at), 4)
}

// The last two bytes of the entry that begins at a byte, which are to be zero.
#[tactic(auto, using(crate::proofs::Cut::cut16))]
pub fn zeros_from(table: &[u8], at: usize) -> u16
    ensures { result ≡ zeros_from table.now at }
{
    get16(bytes_from(table, at), 10)
}

// The entry that begins at a byte.
pub fn entry_from(table: &[u8], at: usize) -> Entry
    ensures { result ≡ entry_from table.now at }
{
    let bytes = bytes_from(table, at);
    Entry {
        kind: kind_of(byte_at(bytes, 0)),
        remote: Address(byte_at(bytes, 1)),
        channel: Channel(byte_at(bytes, 2)),
        retries: byte_at(bytes, 3),
        window: in_force(get16(bytes, 4)),
        largest: get16(bytes, 6),
        timeout: get16(bytes, 8),
    }
}

// Entry i. Past the table's end every byte of it is 0.
#[inline(always)]
pub fn entry_at(table: &[u8], i: usize) -> Entry
    ensures { result ≡ entry_of table.now i }
{
    if table.len() / ENTRY < i {
        return entry_from(table, table.len());
    }
    entry_from(table, HEAD + ENTRY * i)
}
