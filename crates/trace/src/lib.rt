// The trace file: a node's recorded calls, behind a header that says where each record begins.
// Proved: each function is the definition of specs/ that it cites, for every slice; none asks anything of its caller.
// specs/Layout.antt says what the bytes mean, specs/Rules.antt which files are good, specs/Laws.antt what holds of good
// ones. A byte past the end counts as 0.
#![tactic(auto)]

pub mod kinds; // kinds.rt: the kinds' numbers, and what each call takes
pub mod layout; // layout.rt: reading the bytes
mod rules; // rules.rt: which files are good

pub use rules::is_good;

// What stands before a record's bytes: its kind, its index, and how many bytes follow. The kind is a byte, since a file
// that breaks the rules may have any (`good_trace` says which do not).
#[derive(Clone, Copy)]
pub struct Head {
    pub kind: u8,
    pub index: u8,
    pub length: u16,
}
