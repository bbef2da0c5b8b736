// Where each field stands in a frame: the numbers of specs/Layout.antt, under the same names.

pub const DESTINATION: usize = 0;

pub const PROTOCOL: usize = 1;

pub const SOURCE: usize = 2;
// user bits and type, a nibble each
pub const TYPE: usize = 3;

pub const LENGTH: usize = 4;

pub const CHANNEL: usize = 6;

pub const SEQUENCE: usize = 7;

pub const PAYLOAD: usize = 8;

// How many bytes a frame has beside its payload.
pub const OVERHEAD: usize = 9;

// The most bytes that a payload has.
pub const LARGEST: usize = 65520;
