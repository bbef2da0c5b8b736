// What lies where in the node and in the book: the numbers of specs/Layout.antt, under the same names. A change of the
// layout is a change of these two files. Places in lent words, and no structs, lists or maps: nothing is allocated, and
// the contracts speak of every content of the words.

// ---- the node

pub const NODE_WORDS: usize = 832;

// its head: count of entries, own address, protocol ID, bytes of store in use
pub const COUNT_AT: usize = 0;

pub const OWN_AT: usize = 1;

pub const PROTOCOL_AT: usize = 2;

pub const NEED_AT: usize = 3;

// the waiting acknowledgements: the oldest one's place, how many, and their places
pub const OLDEST_AT: usize = 4;

pub const ACKS_AT: usize = 5;

pub const ACK_AT: usize = 32;

pub const ACK_PLACES: u64 = 32;

// the number of the last tick, and how many more pass before a timer can run out (crates/timing)
pub const CLOCK_AT: usize = 6;

pub const QUIET_AT: usize = 7;

// the index, by which frames find their entry (crates/arrive_lookup)
pub const ROW_AT: usize = 64;

// entry 0, and how many words an entry has
pub const ENTRY_AT: usize = 320;

pub const ENTRY_WORDS: usize = 32;

// an entry's words: what the table says of it, where its area of the store begins
pub const KIND: usize = 0;

pub const REMOTE: usize = 1;

pub const CHANNEL: usize = 2;

pub const RETRIES: usize = 3;

pub const WINDOW: usize = 4;

pub const LARGEST: usize = 5;

pub const TIMEOUT: usize = 6;

pub const PLACE: usize = 7;
// its state: which one, its timer or count of timers, and whether a Reset went out
pub const STATE: usize = 8;

pub const STATE_VALUE: usize = 9;

pub const STATE_FLAG: usize = 10;
// its run
pub const START: usize = 11;

pub const LOW_MARKS: usize = 12;

pub const HIGH_MARKS: usize = 13;

pub const TAKEN: usize = 14;

pub const HANDED: usize = 15;

pub const ACCEPTED: usize = 16;

pub const CONFIRMED: usize = 17;

pub const URGENT: usize = 18;

// ---- the book

pub const BOOK_HALVES: usize = 10368;

// what can wait has a number: first the four queues themselves
pub const RESETS: u16 = 0;

pub const URGENTS: u16 = 1;

pub const RESENDS: u16 = 2;

pub const DATAS: u16 = 3;

pub const QUEUES: u16 = 4;

// where the book says what is under way: the place of a link that nothing has
pub const UNDER_AT: usize = 4;

// then entry 0's Reset, entry 0's Urgent, and the payload in cell 0
pub const RESET_ID: u16 = 16;

pub const URGENT_ID: u16 = 32;

pub const CELL_ID: u16 = 64;

// how many cells an entry has
pub const CELLS: u16 = 128;

// where the links back begin; those forward begin at 0
pub const PREV_AT: usize = 2112;

// cell 0's length of payload, timer (the tick at which it runs out, crates/timing) and retries
pub const LENGTH_AT: usize = 4224;

pub const TIMER_AT: usize = 6272;

pub const RETRIES_AT: usize = 8320;
