// The numbers of a block, as specs/Blocks.antt has them.

// Where the offsets begin: the count is 2 bytes.
pub const OFFSETS: usize = 2;

pub const OFFSET_BYTES: usize = 4;
// The length of a block of no payloads: the count, and the offset of its end.
pub const EMPTY: usize = 6;
// Where the payload of a block of one begins.
pub const ONLY: usize = EMPTY + OFFSET_BYTES;
