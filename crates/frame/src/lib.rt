// The frame: its reader, in two halves, and its writer.
// Proved: each function is the definition of specs/ that it cites, for every input; none asks anything of its caller.
// What the writer writes the reader gives back, and a frame that the reader takes is written again as it stood
// (specs/RoundTrip.antt). Each fault of a frame is told exactly where its test is the first to fit
// (specs/AgainstRules.antt).
#![tactic(auto)]

use units::{Address, Channel, Seq};

pub mod layout; // layout.rt: where each field stands
pub mod faults; // faults.rt: where the fault sits that a refusal is for
pub mod reading; // reading.rt: from bytes to a header
pub mod writing; // writing.rt: from fields and payload to bytes
mod types; // types.rt: the four types, and what each asks of payload and sequence

#[derive(Clone, Copy, Debug, PartialEq, Eq)]
pub enum FrameType {
    Data,
    Acknowledge,
    Reset,
    Urgent,
}

// What the reader gives: length is the payload's, in bytes, and an Urgent's sequence is 0.
#[derive(Clone, Copy, Debug, PartialEq, Eq)]
pub struct Header {
    pub destination: Address,
    pub protocol: u8,
    pub source: Address,
    pub kind: FrameType,
    pub channel: Channel,
    pub seq: Seq,
    pub length: u16,
}

// What the writer is given: type and user bits are numbers that it may refuse.
#[derive(Clone, Copy, Debug, PartialEq, Eq)]
pub struct Fields {
    pub destination: Address,
    pub protocol: u8,
    pub source: Address,
    pub kind: u8,
    pub user: u8,
    pub channel: Channel,
    pub seq: Seq,
}
