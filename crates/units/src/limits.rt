// The protocol's limits that more than one crate names, as specs/Limits.antt has them.

// Entries of a table.
pub const ENTRIES: u8 = 16;
// Sequence numbers of a window.
pub const WINDOW: u16 = 128;
// Bytes of store that a table's entries take.
pub const STORE: usize = 32768;
// Bytes of a payload, as far as the store goes.
pub const PAYLOAD: u16 = 32768;
// Payloads of a plan.
pub const PLANNED: u16 = 64;
// Payloads that one run accepts.
pub const ACCEPTED: u32 = 4294967295;
