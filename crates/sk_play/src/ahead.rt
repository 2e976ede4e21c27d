//! The step that a call of a scenario takes.
ghost use Rattle.std.specs.Prelude.{◌≡◌};
ghost use Rattle.sk_play.specs.Session.{upcoming};

use sk_ids::Pid;
use sk_scenario::Call;
use sk_script::Input;

/// The process and the input of the step that a call takes, where it takes one. This takes no memory.
pub fn upcoming(call: &Call) -> Option<(Pid, Input)>
    ensures { result ≡ upcoming call.now }
{
    match call {
        Call::Step(pid, input) | Call::Guess(pid, input) => Some((*pid, input.input())),
        Call::Commit(_) | Call::Fail(_) => None,
    }
}
