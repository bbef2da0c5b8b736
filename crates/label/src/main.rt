// Prints what the channel table on standard input says, or `refused 1`.
// Proved: every read and every sum is safe. The table's rules and its reading are the crate `table`'s.
#![tactic(auto)]

ghost use Rattle.std.specs.Prelude.{◌≡◌, true, ◌≤◌};
ghost use Rattle.table.specs.Rules.{good_table};

use intake::read_full;
use std::io;
use table::{Entry, Kind};

fn main(rt: HostRuntime) -> io::Result<()> {
    // One byte more than the longest table: what fills it is too long for its count, and refused.
    let mut buffer = [0u8; 201];
    let n = read_full(&mut rt.reader(), &mut buffer)?;
    print_label(&rt, &buffer[..n])
}

fn print_label(rt: &impl Print, table: &[u8]) -> io::Result<()> {
    if table::is_good(table) {
        print_head(rt, table)?;
        print_entries(rt, table)
    } else {
        println!(rt; "refused 1")
    }
}

fn print_head(rt: &impl Print, table: &[u8]) -> io::Result<()> {
    let n = table::count(table);
    let own = table::own(table).0;
    let protocol = table::protocol(table);
    println!(rt; "n={n} own={own} pid={protocol}")
}

fn print_entries(rt: &impl Print, table: &[u8]) -> io::Result<()>
    requires { good_table table.now ≡ true }
{
    for i in 0..table::count(table) as usize {
        print_entry(rt, i, table::entry_at(table, i))?;
    }
    Ok(())
}

// Index, kind, remote, channel, window in force, and what is left of the 256 numbers.
fn print_entry(rt: &impl Print, i: usize, e: Entry) -> io::Result<()>
    requires { e.window ≤ 128 }
{
    let kind = word(e.kind);
    let remote = e.remote.0;
    let channel = e.channel.0;
    let window = e.window;
    let left = 256 - window;
    println!(rt; "{i} {kind} {remote} {channel} {window} {left}")
}

// No `Display` for it: that would stand in the crate `table`, which prints nothing.
fn word(kind: Kind) -> &'static str {
    match kind {
        Kind::Sends => "tx",
        Kind::Receives => "rx",
    }
}
