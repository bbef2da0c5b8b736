// An end point: what the table says of it, its state, and its run. It lives in the node's words, one field a
// word, and is taken out and put back by value.
// Proved: `load`, `save` and `save_entry` are the definitions of specs/Ends.antt, for every memory. proofs/Kept.antt
// has the laws: what is saved is loaded back, and nothing else of the node alters.
#![tactic(auto)]

pub mod answers; // answers.rt: what the calls answer
pub mod heads; // heads.rt: the node's head
pub mod states; // states.rt: questions about kind and state, and a run begun anew

ghost use Rattle.std.specs.Prelude.{◌≡◌, take, drop, [], ◌∷◌};
ghost use Rattle.memory.specs.Layout.{entry_long, entry_at};
ghost use Rattle.end_points.specs.Ends.{kind_of, state_of, load_entry, place_in, load_state, load_run, end_of};
ghost use Rattle.end_points.specs.Ends.{state_words, saved, saved_entry};

use memory::{layout, word_at};
use table::{Entry, Kind};
use units::bytes::{part, put_all};
use units::{Address, Channel, Seq, Unfolded};
use window::{Marks, Window};

// Where an end point is in its life. [E1, E2, G7]
#[derive(Clone, Copy)]
pub enum State {
    Closed,
    // A Reset's timer, 0 while the Reset waits, and whether one went out since Enabled began: rule G7 has both here.
    Enabled(u16, bool),
    Open,
    // How many timers still run.
    Failing(u16),
}

// What a run has come to.
#[derive(Clone, Copy)]
pub struct Run {
    // Where the window starts, and which numbers are held (a receiver's) or acknowledged (a sender's).
    pub window: Window,
    // How many numbers from the start on are taken, and how many of those were handed out.
    pub taken: u8,
    pub handed: u8,
    pub accepted: Unfolded,
    pub confirmed: Unfolded,
    // The length of the Urgent that waits, 0 where none does: it is its word in the node, and no Urgent has length 0.
    pub urgent: u16,
}

// Its index is not in it: no word of the entry has that, and every call has it at hand.
#[derive(Clone, Copy)]
pub struct EndPoint {
    pub entry: Entry,
    // Where its area of the store begins.
    pub place: u16,
    pub state: State,
    pub run: Run,
}

// The kind that a word stands for: every word does, also in garbage, and by another bit than a table's byte. So no
// `TryFrom`, and not the table's own.
fn kind_of(w: u64) -> Kind
    ensures { result ≡ kind_of w }
{
    if w % 2 == 0 {
        return Kind::Sends;
    }
    Kind::Receives
}

// The state that three words stand for: any three do, also in garbage (`state_of`), so no `TryFrom`.
#[tactic(auto, unfolding(crate::specs::Ends::state_of))]
fn state_of(tag: u64, value: u64, flag: u64) -> State
    ensures { result ≡ state_of tag value flag }
{
    if tag % 4 == 0 {
        return State::Closed;
    }
    if tag % 4 == 1 {
        return State::Enabled((value % 65536) as u16, flag % 2 == 1);
    }
    if tag % 4 == 2 {
        return State::Open;
    }
    State::Failing((value % 65536) as u16)
}

// The words of entry i, as many of its 32 as there are. The length is tested once here: where it is known, as in every
// call of the node, no read of a word below tests it again.
#[tactic(auto, using(crate::proofs::Past::none_there))]
fn words_of(node: &[u64], i: usize) -> &[u64]
    ensures { result.now ≡ take entry_long (drop (entry_at i) node.now) }
{
    if node.len() / layout::ENTRY_WORDS < i {
        return &node[0..0];
    }
    part(
        node,
        layout::ENTRY_AT + layout::ENTRY_WORDS * i,
        layout::ENTRY_WORDS,
    )
}

// What the table says of entry i.
#[tactic(auto, unfolding(crate::specs::Ends::load_entry))]
pub fn load_entry(node: &[u64], i: usize) -> Entry
    ensures { result ≡ load_entry node.now i }
{
    let ws = words_of(node, i);
    let kind = kind_of(word_at(ws, layout::KIND));
    let remote = word_at(ws, layout::REMOTE) % 256;
    let channel = word_at(ws, layout::CHANNEL) % 256;
    let retries = word_at(ws, layout::RETRIES) % 256;
    let window = word_at(ws, layout::WINDOW) % 65536;
    let largest = word_at(ws, layout::LARGEST) % 65536;
    let timeout = word_at(ws, layout::TIMEOUT) % 65536;
    Entry {
        kind,
        remote: Address(remote as u8),
        channel: Channel(channel as u8),
        retries: retries as u8,
        window: window as u16,
        largest: largest as u16,
        timeout: timeout as u16,
    }
}

// Where the area of the store begins that is entry i's.
pub fn load_place(node: &[u64], i: usize) -> u16
    ensures { result ≡ place_in node.now i }
{
    (word_at(words_of(node, i), layout::PLACE) % 65536) as u16
}

// The state of entry i.
pub fn load_state(node: &[u64], i: usize) -> State
    ensures { result ≡ load_state node.now i }
{
    let ws = words_of(node, i);
    let tag = word_at(ws, layout::STATE);
    let value = word_at(ws, layout::STATE_VALUE);
    let flag = word_at(ws, layout::STATE_FLAG);
    state_of(tag, value, flag)
}

// The run of entry i, whose window has a size.
#[tactic(auto, unfolding(crate::specs::Ends::load_run))]
pub fn load_run(node: &[u64], i: usize, size: u8) -> Run
    ensures { result ≡ load_run node.now i size }
{
    let ws = words_of(node, i);
    let start = word_at(ws, layout::START) % 256;
    let low = word_at(ws, layout::LOW_MARKS);
    let high = word_at(ws, layout::HIGH_MARKS);
    let taken = word_at(ws, layout::TAKEN) % 256;
    let handed = word_at(ws, layout::HANDED) % 256;
    let accepted = word_at(ws, layout::ACCEPTED) % 4294967296;
    let confirmed = word_at(ws, layout::CONFIRMED) % 4294967296;
    let urgent = word_at(ws, layout::URGENT) % 65536;
    Run {
        window: Window {
            start: Seq(start as u8),
            size,
            marks: Marks(low, high),
        },
        taken: taken as u8,
        handed: handed as u8,
        accepted: Unfolded(accepted as u32),
        confirmed: Unfolded(confirmed as u32),
        urgent: urgent as u16,
    }
}

// The run of end point i.
#[tactic(auto, unfolding(crate::specs::Ends::end_of))]
pub fn run_of(node: &[u64], i: usize) -> Run
    ensures { result ≡ (end_of node.now i).run }
{
    load_run(node, i, (load_entry(node, i).window % 256) as u8)
}

// End point i. The compiler is told to take it in, so that it reads at each call what is used there and no more: else
// the whole is handed over by way of memory.
#[tactic(auto, unfolding(crate::specs::Ends::end_of))]
#[inline(always)]
pub fn load(node: &[u64], i: usize) -> EndPoint
    ensures { result ≡ end_of node.now i }
{
    let entry = load_entry(node, i);
    let place = load_place(node, i);
    let state = load_state(node, i);
    let run = load_run(node, i, (entry.window % 256) as u8);
    EndPoint {
        entry,
        place,
        state,
        run,
    }
}

// End point i is put back with a state and a run; what the table says of it stays.
#[tactic(auto, unfolding(crate::specs::Ends::saved), using(crate::proofs::Past::none_saved))]
pub fn save(node: &mut [u64], i: usize, s: State, r: Run)
    ensures { node.new ≡ saved node.old i s r }
{
    if node.len() / layout::ENTRY_WORDS < i {
        return;
    }
    let [tag, value, flag] = state_words(s);
    let words = [
        tag,
        value,
        flag,
        r.window.start.0 as u64,
        r.window.marks.0,
        r.window.marks.1,
        r.taken as u64,
        r.handed as u64,
        r.accepted.0 as u64,
        r.confirmed.0 as u64,
        r.urgent as u64,
    ];
    put_all(
        node,
        layout::ENTRY_AT + layout::ENTRY_WORDS * i + layout::STATE,
        &words,
    )
}

// The three words of a state.
fn state_words(s: State) -> [u64; 3]
    ensures { result ≡ state_words s }
{
    match s {
        State::Closed => [0, 0, 0],
        State::Enabled(t, sent) => [1, t as u64, sent as u64],
        State::Open => [2, 0, 0],
        State::Failing(n) => [3, n as u64, 0],
    }
}

// Entry i as the table has it, at its place in the store.
#[tactic(auto, unfolding(crate::specs::Ends::saved_entry), using(crate::proofs::Past::no_entry_saved))]
pub fn save_entry(node: &mut [u64], i: usize, e: Entry, place: u16)
    ensures { node.new ≡ saved_entry node.old i e place }
{
    if node.len() / layout::ENTRY_WORDS < i {
        return;
    }
    let words = [
        u8::from(e.kind) as u64,
        e.remote.0 as u64,
        e.channel.0 as u64,
        e.retries as u64,
        e.window as u64,
        e.largest as u64,
        e.timeout as u64,
        place as u64,
    ];
    put_all(node, layout::ENTRY_AT + layout::ENTRY_WORDS * i, &words)
}
