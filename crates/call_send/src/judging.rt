// Which sends and Urgents are refused, once there is such an entry: the paper's tests in its order.
ghost use Rattle.std.specs.Prelude.{◌≡◌};
ghost use Rattle.units.specs.Refusals.{verdict};
ghost use Rattle.call_send.specs.Sending.{sender_tests, send_tests, urgent_tests};

use end_points::EndPoint;
use end_points::states::{is_open, is_sends};
use units::limits;
use units::refusals::Refusal;

// What both calls ask of an end point, for a payload of n bytes.
fn judge_sender(e: EndPoint, n: usize) -> Result<(), Refusal>
    ensures { result ≡ verdict (sender_tests e n) }
{
    let entry = e.entry;
    let kind = entry.kind;
    let state = e.state;
    if !is_sends(kind) {
        return Err(Refusal::OtherKind);
    }
    if !is_open(state) {
        return Err(Refusal::WrongState);
    }
    if n == 0 {
        return Err(Refusal::PayloadLength);
    }
    if (entry.largest as usize) < n {
        return Err(Refusal::PayloadLength);
    }
    Ok(())
}

// What send asks, with a store of room bytes where need are in use: the numbers of the paper's tests, one by one.
pub fn judge_send(e: EndPoint, n: usize, room: usize, need: usize) -> Result<(), Refusal>
    ensures { result ≡ verdict (send_tests e n room need) }
{
    judge_sender(e, n)?;
    if e.run.accepted.0 == limits::ACCEPTED {
        return Err(Refusal::RunFull);
    }
    if e.run.window.size <= e.run.taken {
        return Err(Refusal::WindowFull);
    }
    if room < need {
        return Err(Refusal::TooShort);
    }
    Ok(())
}

// What Urgent asks, with a store of room bytes where need are in use.
pub fn judge_urgent(e: EndPoint, n: usize, room: usize, need: usize) -> Result<(), Refusal>
    ensures { result ≡ verdict (urgent_tests e n room need) }
{
    judge_sender(e, n)?;
    if e.run.urgent != 0 {
        return Err(Refusal::UrgentWaits);
    }
    if room < need {
        return Err(Refusal::TooShort);
    }
    Ok(())
}
