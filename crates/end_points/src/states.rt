// Questions about an end point's kind and state, and a run begun anew.
ghost use Rattle.std.specs.Prelude.{◌≡◌};
ghost use Rattle.end_points.specs.States.{is_sends, is_closed, is_open};
ghost use Rattle.end_points.specs.Runs.{is_new, anew, urgent_gone};

use super::{Run, State};
use table::Kind;
use window::Found;

pub fn is_sends(k: Kind) -> bool
    ensures { result ≡ is_sends k }
{
    matches!(k, Kind::Sends)
}

pub fn is_closed(s: State) -> bool
    ensures { result ≡ is_closed s }
{
    matches!(s, State::Closed)
}

pub fn is_open(s: State) -> bool
    ensures { result ≡ is_open s }
{
    matches!(s, State::Open)
}

pub fn is_new(f: Found) -> bool
    ensures { result ≡ is_new f }
{
    matches!(f, Found::New)
}

// The run of an end that becomes Closed or Enabled: start 1, nothing taken, handed out or held; the counts are kept.
#[tactic(auto, unfolding(crate::specs::Runs::anew))]
pub fn anew_run(r: Run) -> Run
    ensures { result ≡ anew r }
{
    let window = r.window.reset();
    Run {
        window,
        taken: 0,
        handed: 0,
        urgent: 0,
        ..r
    }
}

// The run with no Urgent waiting.
#[tactic(auto, unfolding(crate::specs::Runs::urgent_gone))]
pub fn without_urgent(mut r: Run) -> Run
    ensures { result ≡ urgent_gone r }
{
    r.urgent = 0;
    r
}
