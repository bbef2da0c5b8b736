// A plan: the host hands over the payloads of a lent block at once. They are sent in order, up to and including the
// first that is refused.
// Proved, for every content of the memory and every block: the answer, and what node, book and store hold afterwards,
// are those of so many single sends (specs/Planning.antt). The end point is found and loaded once, and saved once.
#![tactic(auto)]

ghost use Rattle.std.specs.Prelude.{◌≡◌, ◌+◌, ◌<◌, length};
ghost use Rattle.units.specs.Refusals.{verdict};
ghost use Rattle.blocks.specs.Reading.{payloads_in};
ghost use Rattle.end_points.specs.Ends.{end_of};
ghost use Rattle.end_points.specs.Heads.{count_in};
ghost use Rattle.end_points.specs.Lent.{stored};
ghost use Rattle.call_send.specs.Sending.{send_tests};
ghost use Rattle.call_plan.specs.Planning.{sent_in_order, plan_answer, plan_after};
ghost use Rattle.call_plan.specs.Steps.{advanced, accepted_node, book_after, store_after};

use blocks::lent;
use call_send::judging::judge_send;
use call_send::lay;
use end_points::answers::Plan;
use end_points::{EndPoint, Run, heads, load};
use memory::{layout, word_at};
use units::Unfolded;
use units::bytes::put;
use units::refusals::Refusal;

// The host hands over a plan.
#[tactic(auto, unfolding(blocks::specs::Reading::is_plan, blocks::specs::Reading::read_block, crate::specs::Planning::sent_in_order, blocks::specs::Reading::payloads_in, call_send::specs::Sending::send_answer, call_send::specs::Sending::send_after, crate::specs::Planning::plan_answer, crate::specs::Planning::plan_after))]
pub fn plan(
    node: &mut [u64; layout::NODE_WORDS],
    book: &mut [u16],
    store: &mut [u8],
    index: usize,
    block: &[u8],
) -> Result<Plan, Refusal>
    ensures answer { let x = stored node.old book.old store.old in
        result ≡ plan_answer x index block.now }
    ensures after { let x = stored node.old book.old store.old in
        stored node.new book.new store.new
        ≡ plan_after x index block.now result }
{
    if !lent::is_plan(block) {
        return Err(Refusal::BadBlock);
    }
    let k = lent::count(block) as u8;
    if k == 0 {
        return Ok(Plan {
            accepted: 0,
            stop: Ok(()),
        });
    }
    if heads::count(node) as usize <= index {
        return Ok(Plan {
            accepted: 0,
            stop: Err(Refusal::NoEntry),
        });
    }
    let plan = send_all(node, book, store, index as u8, block, k);
    put_accepted(node, index as u8, plan.accepted);
    Ok(plan)
}

// The first k payloads of a block are laid at entry i, up to the first that is refused. The node does not say so yet.
#[tactic(auto, unfolding(blocks::specs::Reading::payload_in, crate::specs::Planning::sent_in_order))]
fn send_all(
    node: &[u64; layout::NODE_WORDS],
    book: &mut [u16],
    store: &mut [u8],
    i: u8,
    block: &[u8],
    k: u8,
) -> Plan
    requires { (i < count_in node.now) × (k < 255) }
    ensures is { let ws = node.now in
        let x = stored ws book.old store.old in
        sent_in_order x i 0 (payloads_in block.now 0 k)
        ≡ record {
          accepted = result.accepted;
          stop = result.stop;
          left = stored (accepted_node ws i (end_of ws i).run result.accepted) book.new store.new;
        } }
    ensures fits { let e = end_of node.now i in
        (e.run.taken + result.accepted < 256) × (e.run.accepted.0 + result.accepted < 4294967296) }
{
    let e = load(node, i as usize);
    let need = heads::need(node);
    let mut from = lent::offset(block, 0);
    for j in 0..k {
        let to = lent::offset(block, j + 1);
        let p = lent::between(block, from, to);
        if let Err(why) = send_one(book, store, i, more(e, j), need, p) {
            return Plan {
                accepted: j,
                stop: Err(why),
            };
        }
        from = to;
    }
    Plan {
        accepted: k,
        stop: Ok(()),
    }
}

// One send: the payload is judged, and where it passes it is laid.
fn send_one(
    book: &mut [u16],
    store: &mut [u8],
    i: u8,
    e: EndPoint,
    need: usize,
    payload: &[u8],
) -> Result<(), Refusal>
    ensures answer { result ≡ verdict (send_tests e (length payload.now) (length store.old) need) }
    ensures book { book.new ≡ book_after result book.old i e payload.now }
    ensures store { store.new ≡ store_after result store.old e payload.now }
{
    judge_send(e, payload.len(), store.len(), need)?;
    lay(book, store, i, e, payload);
    Ok(())
}

// An end point that has taken and accepted n payloads more. That its counts have room is asked of both together, here
// and of what is put back: no type of one of them could say it.
fn more(e: EndPoint, n: u8) -> EndPoint
    requires { (e.run.taken + n < 256) × (e.run.accepted.0 + n < 4294967296) }
    ensures { result ≡ advanced e n }
{
    let run = Run {
        taken: e.run.taken + n,
        accepted: Unfolded(e.run.accepted.0 + n as u32),
        ..e.run
    };
    EndPoint { run, ..e }
}

// Entry i has taken and accepted n payloads more: of its words two alter, and none where n is 0.
#[tactic(auto, unfolding(end_points::specs::Ends::end_of, end_points::specs::Ends::load_run))]
fn put_accepted(node: &mut [u64], i: u8, n: u8)
    requires { ((end_of node.old i).run.taken + n < 256)
        × ((end_of node.old i).run.accepted.0 + n < 4294967296) }
    ensures { node.new ≡ accepted_node node.old i (end_of node.old i).run n }
{
    if n == 0 {
        return;
    }
    let at = layout::ENTRY_AT + layout::ENTRY_WORDS * i as usize;
    let taken = word_at(node, at + layout::TAKEN) % 256;
    let accepted = word_at(node, at + layout::ACCEPTED) % 4294967296;
    put(node, at + layout::TAKEN, taken + n as u64);
    put(node, at + layout::ACCEPTED, accepted + n as u64)
}
