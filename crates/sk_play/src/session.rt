//! A kernel at play, with the tokens of its guesses.
ghost use Rattle.std.specs.Prelude.{MatchResult, IfOk, None, Some, ◌≡◌};
ghost use Rattle.sk_play.specs.Base.{holding, BeginsPost, step_refused, guess_refused, next_guess, HandInPost};
ghost use Rattle.sk_play.specs.Base.{input_in, cause};
ghost use Rattle.sk_play.specs.Session.{decision_told, entry, with_guess, held_after, AnswerMatches, CanWantMemory, StepTold, GuessTold};
ghost use Rattle.sk_play.specs.Plays.{declared_kernel};
ghost use Rattle.sk_trace.specs.declared.event.Event.TheVariants as events;

use crate::answer::CallAnswer;
use sk_ids::Pid;
use sk_kernel::{EpochRefusal, HandIn, Holder, Kernel, Outcome};
use sk_plain::{InputRef, Refusal, Trace};
use sk_scenario::{Call, Declarations};
use sk_script::Lease;
use sk_terminal::Texts;
use std::alloc::{AllocError, Global};

/// A kernel with the tokens of its guesses, as a scenario calls it: each call is answered as the report tells it, of
/// which want of memory is no answer.
pub struct Session {
    holder: Holder,
}

/// The kernel that a scenario declares, at its start.
pub(crate) fn declared_kernel(
    alloc: Global,
    declarations: &Declarations,
) -> Result<Kernel, AllocError>
    ensures { IfOk result (λ kernel. kernel ≡ declared_kernel declarations.now) }
{
    Kernel::boot(
        alloc,
        declarations.number(),
        declarations.boot(),
        declarations.limit(),
    )
}

impl Session {
    /// The kernel that a scenario declares, at its start. It has no token.
    pub fn new(alloc: Global, declarations: &Declarations) -> Result<Session, AllocError>
        ensures { IfOk result
            (λ session. session.holder ≡ holding (declared_kernel declarations.now)) }
    {
        let kernel = declared_kernel(alloc, declarations)?;
        Ok(Session {
            holder: Holder::new(alloc, kernel),
        })
    }

    pub fn kernel(&self) -> &Kernel
        ensures { result.now ≡ self.now.holder.kernel }
    {
        self.holder.kernel()
    }

    /// Makes the call that a step says. Memory is wanted only where nothing else stands against the call, and then
    /// nothing changes. A commit and a failure take none.
    #[inline(always)]
    pub fn execute(&mut self, step: &Call) -> Result<CallAnswer, AllocError>
        ensures held { IfOk result
            (λ answer. self.new.holder.held ≡ held_after answer step.now self.old.holder.held) }
        ensures told { MatchResult result
            (λ answer. AnswerMatches answer step.now self.old.holder.held self.old.holder.kernel
            self.new.holder.kernel)
            (λ _. CanWantMemory step.now self.old.holder.kernel
            × (self.new.holder ≡ self.old.holder)) }
    {
        match step {
            Call::Step(pid, input) => self.step(*pid, input.lend()),
            Call::Guess(pid, input) => self.guess(*pid, input.lend()),
            Call::Commit(id) => Ok(answer_of(self.holder.commit(*id))),
            Call::Fail(id) => Ok(answer_of(self.holder.fail(*id))),
        }
    }

    pub(crate) fn step(&mut self, pid: Pid, input: InputRef<'_>) -> Result<CallAnswer, AllocError>
        ensures held { self.new.holder.held ≡ self.old.holder.held }
        ensures told { let asked = entry pid (input_in input.entry) None in
            let refused = step_refused self.old.holder.kernel asked in
            MatchResult result
            (λ answer. StepTold answer refused (events.Step pid (input_in input.entry))
            self.old.holder.kernel self.new.holder.kernel)
            (λ _. (refused ≡ None) × (self.new.holder ≡ self.old.holder)) }
    {
        match self.holder.step(pid, input) {
            Ok(()) => Ok(CallAnswer::Stepped),
            Err(refusal) => refused(refusal),
        }
    }

    pub(crate) fn guess(&mut self, pid: Pid, input: InputRef<'_>) -> Result<CallAnswer, AllocError>
        ensures held { IfOk result
            (λ answer. self.new.holder.held ≡ with_guess answer self.old.holder.held) }
        ensures told { let next = next_guess self.old.holder.kernel in
            let asked = entry pid (input_in input.entry) (Some next) in
            let refused = guess_refused self.old.holder.kernel asked in
            MatchResult result
            (λ answer. GuessTold answer refused (events.Guess next pid (input_in input.entry))
            self.old.holder.kernel self.new.holder.kernel)
            (λ _. (refused ≡ None) × (self.new.holder ≡ self.old.holder)) }
    {
        match self.holder.guess(pid, input) {
            Ok(id) => Ok(CallAnswer::Guessed(id)),
            Err(refusal) => refused(refusal),
        }
    }

    /// Begins a new epoch where no guess is undecided, as the kernel does; the tokens of struck guesses are let go. Refusals:
    /// `Undecided`, and nothing has changed; then `Memory`, where the kernel is as it was.
    pub fn begin_epoch(&mut self) -> Result<(Trace, Texts), EpochRefusal>
        ensures { BeginsPost result self.old.holder self.new.holder }
    {
        self.holder.begin_epoch()
    }

    /// Takes a lease in, as the kernel does.
    pub(crate) fn hand_in(&mut self, lease: Lease) -> Result<(), (Lease, HandIn)>
        ensures kernel { HandInPost result lease self.old.holder.kernel self.new.holder.kernel }
        ensures held { self.new.holder.held ≡ self.old.holder.held }
    {
        self.holder.hand_in(lease)
    }

    /// Fails the guesses that are left, and ends.
    pub fn end(self) {
        let Session { holder } = self;
        holder.abandon();
    }
}

/// A refusal that is an answer; want of memory is none.
fn refused(refusal: Refusal) -> Result<CallAnswer, AllocError>
    ensures { MatchResult result
        (λ answer. (answer ≡ CallAnswer.Refused refusal) × (cause refusal ≡ Some refusal))
        (λ _. cause refusal ≡ None) }
{
    match refusal {
        Refusal::Memory => Err(AllocError),
        _ => Ok(CallAnswer::Refused(refusal)),
    }
}

/// What a decision is answered, of which nothing came where there was no token.
fn answer_of(decided: Option<Outcome>) -> CallAnswer
    ensures { result ≡ decision_told decided }
{
    match decided {
        Some(Outcome::Done) => CallAnswer::Done,
        Some(Outcome::Gone) => CallAnswer::Gone,
        None => CallAnswer::NoToken,
    }
}
