//! Replaying a trace on a session.
ghost use Rattle.std.specs.Prelude.{◌≡◌, IfOk};
ghost use Rattle.sk_play.specs.Replays.{call_of, told_by, ReplaysSo};
ghost use Rattle.sk_play.specs.Session.{held_after, AnswerMatches};

use crate::{CallAnswer, Session};
use sk_scenario::Call;
use sk_trace::Event;
use std::alloc::AllocError;
use thiserror::Error;

/// Why a trace was not replayed to its end.
#[derive(Clone, Copy, Debug, PartialEq, Eq, Error)]
pub enum Unreplayed {
    /// The entry of this number, from 1, does not happen as the trace has it.
    #[error("entry {0} does not happen")]
    Entry(usize),
    #[error("out of memory")]
    Memory,
}

impl From<AllocError> for Unreplayed {
    ghost use Rattle.std.specs.Prelude.{◌≡◌};
    ghost use Rattle.sk_play.specs.declared.replaying.Unreplayed.TheVariants.{Memory};

    ghost from_gives = { λ _ why. why ≡ Memory };

    fn from(_error: AllocError) -> Unreplayed {
        Unreplayed::Memory
    }
}

/// Makes the call of an event.
fn call_again(session: &mut Session, event: &Event) -> Result<CallAnswer, AllocError>
    ensures held { IfOk result
        (λ answer. session.new.holder.held
        ≡ held_after answer (call_of event.now) session.old.holder.held) }
    ensures told { IfOk result
        (λ answer. AnswerMatches answer (call_of event.now) session.old.holder.held
        session.old.holder.kernel session.new.holder.kernel) }
{
    match event {
        Event::Step { pid, input } => session.step(*pid, input.lend()),
        Event::Guess { pid, input, .. } => session.guess(*pid, input.lend()),
        Event::Commit(id) => session.execute(&Call::Commit(*id)),
        Event::Fail(id) => session.execute(&Call::Fail(*id)),
    }
}

/// The answer that an event tells.
fn told_by(event: &Event) -> CallAnswer
    ensures { result ≡ told_by event.now }
{
    match event {
        Event::Step { .. } => CallAnswer::Stepped,
        Event::Guess { id, .. } => CallAnswer::Guessed(*id),
        Event::Commit(_) | Event::Fail(_) => CallAnswer::Done,
    }
}

/// Makes the call of each event in order. It stops at the first that is answered otherwise than the
/// trace has it: refused, gone, without a token, or with another guess.
pub fn replay(session: &mut Session, events: &[Event]) -> Result<(), Unreplayed>
    ensures { ReplaysSo result events.now session.old.holder.held session.old.holder.kernel
        session.new.holder.held session.new.holder.kernel }
{
    for (place, event) in events.iter().enumerate() {
        let answer = call_again(session, event)?;
        if answer != told_by(event) {
            return Err(Unreplayed::Entry(place + 1));
        }
    }
    Ok(())
}
