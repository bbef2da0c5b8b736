// Runs the table's rules: tables that keep them all, and tables that each break one.
// A line each: what was altered in the paper's table, or what another table is; then `refused 1`, or `good` and the
// store that it takes.
#![tactic(auto)]

use std::io;
use units::bytes::{put, put_all, put16};

fn main(rt: HostRuntime) -> io::Result<()> {
    heads(&rt)?;
    lengths(&rt)?;
    counts(&rt)?;
    entries(&rt)?;
    numbers(&rt)?;
    pairs(&rt)?;
    stores(&rt)
}

// The head of a table with n entries.
fn head(n: u8) -> [u8; 8] {
    [0, n, 0, 8, 64, 238, 0, 0]
}

// The entries of the paper's table, on any channel.
fn sender(channel: u8) -> [u8; 12] {
    [0, 65, channel, 3, 0, 16, 1, 0, 0, 100, 0, 0]
}

fn receiver(channel: u8) -> [u8; 12] {
    [1, 65, channel, 0, 0, 0, 0, 64, 0, 0, 0, 0]
}

// A table of two entries, the first from byte 8 on and the second from byte 20 on.
fn pair(first: &[u8], second: &[u8]) -> [u8; 32] {
    let mut table = [0u8; 32];
    put_all(&mut table, 0, &head(2));
    put_all(&mut table, 8, first);
    put_all(&mut table, 20, second);
    table
}

fn paper() -> [u8; 32] {
    pair(&sender(7), &receiver(9))
}

fn heads(rt: &impl Print) -> io::Result<()> {
    byte(rt, 3, 9)?; // offset
    byte(rt, 2, 1)?;
    byte(rt, 4, 31)?; // own address
    byte(rt, 4, 32)?;
    byte(rt, 4, 254)?;
    byte(rt, 4, 255)?;
    byte(rt, 5, 0)?; // protocol ID
    byte(rt, 5, 255)?;
    byte(rt, 6, 1)?; // zeros
    byte(rt, 7, 1)
}

fn lengths(rt: &impl Print) -> io::Result<()> {
    show(rt, "the paper's table", &paper())?;
    show(rt, "no bytes", &[])?;
    let mut short = [0u8; 31];
    put_all(&mut short, 0, &paper());
    show(rt, "one byte short", &short)?;
    let mut long = [0u8; 33];
    put_all(&mut long, 0, &paper());
    show(rt, "one byte over", &long)?;
    byte(rt, 1, 1)?; // one entry over
    byte(rt, 1, 3) // one entry short
}

fn counts(rt: &impl Print) -> io::Result<()> {
    show(rt, "no entries", &head(0))?;
    let mut none = head(0);
    put(&mut none, 5, 0);
    show(rt, "no entries, protocol ID 0", &none)?;
    let mut full = [0u8; 200];
    put_receivers(&mut full, 16);
    show(rt, "16 entries", &full)?;
    let mut over = [0u8; 212];
    put_receivers(&mut over, 17);
    show(rt, "17 entries", &over)
}

fn entries(rt: &impl Print) -> io::Result<()> {
    byte(rt, 20, 2)?; // kind
    byte(rt, 9, 31)?; // remote address
    byte(rt, 9, 32)?;
    byte(rt, 9, 254)?;
    byte(rt, 9, 255)?;
    byte(rt, 18, 1)?; // zeros
    byte(rt, 19, 1)?;
    byte(rt, 30, 1)?;
    byte(rt, 31, 1)?;
    byte(rt, 11, 0)?; // a sender's retries
    byte(rt, 23, 1) // a receiver's retries
}

fn numbers(rt: &impl Print) -> io::Result<()> {
    number(rt, 16, 0)?; // a sender's timeout
    number(rt, 16, 65535)?;
    number(rt, 28, 1)?; // a receiver's timeout
    number(rt, 28, 256)?;
    number(rt, 24, 1)?; // window
    number(rt, 24, 3)?;
    number(rt, 24, 128)?;
    number(rt, 24, 200)?;
    number(rt, 24, 256)?;
    number(rt, 26, 0)?; // largest payload
    number(rt, 26, 1)
}

fn pairs(rt: &impl Print) -> io::Result<()> {
    byte(rt, 22, 7)?; // a sender and a receiver that agree
    show(
        rt,
        "senders on channels 7 and 8",
        &pair(&sender(7), &sender(8)),
    )?;
    show(rt, "senders on channel 7", &pair(&sender(7), &sender(7)))?;
    show(
        rt,
        "receivers on channels 9 and 8",
        &pair(&receiver(9), &receiver(8)),
    )?;
    show(
        rt,
        "receivers on channel 9",
        &pair(&receiver(9), &receiver(9)),
    )
}

fn stores(rt: &impl Print) -> io::Result<()> {
    one(rt, 32768)?;
    one(rt, 32769)?;
    areas(rt, 16)?;
    areas(rt, 17)
}

// The paper's table with one byte altered.
fn byte(rt: &impl Print, at: usize, b: u8) -> io::Result<()> {
    let mut table = paper();
    put(&mut table, at, b);
    altered(rt, "byte", at, b as u64, &table)
}

// The paper's table with a number of two bytes altered.
fn number(rt: &impl Print, at: usize, v: u16) -> io::Result<()> {
    let mut table = paper();
    put16(&mut table, at, v);
    altered(rt, "number", at, v as u64, &table)
}

// The paper's table, altered: what of it and where that stands, its value, and whether it is refused. Each is written
// by itself, so that a run whose output fails has told what came before.
fn altered(rt: &impl Print, what: &str, at: usize, value: u64, table: &[u8]) -> io::Result<()> {
    print!(rt; "{what} {at}")?;
    print!(rt; " is {value}")?;
    show(rt, "", table)
}

// A table of one receiver with window 1.
fn one(rt: &impl Print, largest: u16) -> io::Result<()> {
    let mut table = [0u8; 20];
    put_all(&mut table, 0, &head(1));
    put_all(&mut table, 8, &receiver(9));
    put16(&mut table, 12, 1);
    put16(&mut table, 14, largest);
    say(rt, "one receiver, payloads of ", largest as u64)?;
    show(rt, "", &table)
}

// The paper's table with a sender's area of 32,640 bytes and a receiver's of 8 payloads.
fn areas(rt: &impl Print, largest: u16) -> io::Result<()> {
    let mut table = paper();
    put16(&mut table, 14, 1920);
    put16(&mut table, 26, largest);
    say(rt, "areas of 32640 and ", 8 * largest as u64)?;
    show(rt, "", &table)
}

// A table of n receivers, each on its own channel, with window 1 and payloads of 64 bytes.
fn put_receivers(table: &mut [u8], n: u8) {
    put_all(table, 0, &head(n));
    for i in 0..n {
        let at = 8 + 12 * i as usize;
        put_all(table, at, &receiver(i));
        put16(table, at + 4, 1);
    }
}

fn say(rt: &impl Print, what: &str, n: u64) -> io::Result<()> {
    print!(rt; "{what}{n}")
}

fn show(rt: &impl Print, what: &str, table: &[u8]) -> io::Result<()> {
    if table::is_good(table) {
        let need = table::store_need(table);
        println!(rt; "{what}: good, {need}")
    } else {
        println!(rt; "{what}: refused 1")
    }
}
