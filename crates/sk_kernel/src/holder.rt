//! A kernel with the tokens of its guesses.
ghost use Rattle.std.specs.Prelude.{◌≡◌, ◌<◌, ◌+◌, ℕ, [], None, Some, IfSome, IfErr, is_some, length, slice_get, slice_index_or};
ghost use Rattle.sk_kernel.specs.Base.{remove, has, cause, released_at, input_in};
ghost use Rattle.sk_kernel.specs.Kernel.{undecided_at, next_guess, entry, step_refused, guess_refused};
ghost use Rattle.sk_kernel.specs.Calls.{StepPost, EpochPost, LeavesTexts};
ghost use Rattle.sk_kernel.specs.HandIn.{HandInPost};
ghost use Rattle.sk_trace.specs.declared.event.Event.TheVariants as events;
ghost use Rattle.sk_kernel.specs.Holder.{holding, GuessesPost, DecidesPost, FailsSome, BeginsPost};

use crate::{EpochRefusal, HandIn, Kernel, Outcome};
use sk_guesses::Guess;
use sk_ids::{GuessId, Pid};
use sk_plain::{InputRef, Refusal, Trace};
use sk_script::Lease;
use sk_terminal::Texts;
use std::alloc::Global;
use std::marker::Model;

/// A kernel with the tokens of its guesses, the oldest first. Contracts see the kernel and the guesses whose
/// tokens it has: each of them is undecided or struck, and each undecided guess is one of them.
pub struct Holder {
    kernel: Kernel,
    tokens: Vec<Guess>,
}

impl Model for Holder {
    ghost use Rattle.sk_kernel.specs.Holder.{HolderView, holder_code, ids};
    ghost use Rattle.sk_kernel.specs.Tokens.{IsHeld};

    ghost Value = { HolderView };

    ghost coded = { holder_code };

    ghost view = { λ h. record { kernel = h.kernel; held = ids h.tokens.items } };

    ghost invariant = { λ h. IsHeld h.kernel h.tokens.items };
}

/// Takes the token at a place out; those behind it move up. Mostly none is.
#[inline(always)]
#[tactic(auto, using(std::proofs::lemmas::List::drop_all))]
fn take_token(tokens: &mut Vec<Guess>, place: usize) -> Guess
    requires { place < length tokens.old.items }
    ensures value { result ≡ slice_index_or tokens.old.items place result }
    ensures items { tokens.new.items ≡ remove tokens.old.items place }
    ensures len { length tokens.new.items + 1 ≡ length tokens.old.items }
{
    if place + 1 < tokens.len() {
        return tokens.remove(place);
    }
    match tokens.pop() {
        Some(token) => token,
        None => unreachable!(),
    }
}

impl Holder {
    /// Takes a kernel of which no guess is undecided. This takes no memory.
    pub fn new(alloc: Global, kernel: Kernel) -> Holder
        requires { undecided_at kernel ≡ [] }
        ensures { result ≡ holding kernel }
    {
        Holder {
            kernel,
            tokens: Vec::new(alloc),
        }
    }

    pub fn kernel(&self) -> &Kernel
        ensures { result.now ≡ self.now.kernel }
    {
        &self.kernel
    }

    /// The first cause against a guess for which there is no memory.
    fn guess_refusal(&self, pid: Pid, input: InputRef<'_>) -> Refusal
        ensures { guess_refused self.now.kernel
            (entry pid (input_in input.entry) (Some (next_guess self.now.kernel))) ≡ cause result }
    {
        if let Some(why) = self.kernel.guess_refusal(pid, input) {
            return why;
        }
        if self.kernel.room() < 2 {
            return Refusal::TraceFull;
        }
        Refusal::Memory
    }

    /// The place of the newest token, where it is a guess's.
    fn newest_place(&self, id: GuessId) -> Option<usize>
        ensures { IfSome result (λ place. slice_get self.now.held place ≡ Some id) }
    {
        let count = self.tokens.len();
        if count == 0 {
            return None;
        }
        let newest = count - 1;
        if self.tokens[newest].id() == id {
            return Some(newest);
        }
        None
    }

    /// The place of a guess's token. Mostly it is the newest or the oldest.
    fn place_of(&self, id: GuessId) -> Option<usize>
        ensures there { IfSome result (λ place. slice_get self.now.held place ≡ Some id) }
        ensures held { is_some result ≡ has id self.now.held }
    {
        if let Some(newest) = self.newest_place(id) {
            return Some(newest);
        }
        for (place, token) in self.tokens.iter().enumerate() {
            if token.id() == id {
                return Some(place);
            }
        }
        None
    }

    /// Takes a step, as the kernel does.
    pub fn step(&mut self, pid: Pid, input: InputRef<'_>) -> Result<(), Refusal>
        ensures kernel { StepPost result
            (step_refused self.old.kernel (entry pid (input_in input.entry) None))
            (events.Step pid (input_in input.entry)) self.old.kernel self.new.kernel }
        ensures held { self.new.held ≡ self.old.held }
    {
        self.kernel.step_lent(pid, input)
    }

    /// Takes a lease in, as the kernel does.
    pub fn hand_in(&mut self, lease: Lease) -> Result<(), (Lease, HandIn)>
        ensures kernel { HandInPost result lease self.old.kernel self.new.kernel }
        ensures held { self.new.held ≡ self.old.held }
    {
        self.kernel.hand_in(lease)
    }

    /// Draws the next guess and takes its step, as the kernel does, and keeps its token.
    pub fn guess(&mut self, pid: Pid, input: InputRef<'_>) -> Result<GuessId, Refusal>
        ensures { GuessesPost result
            (guess_refused self.old.kernel
            (entry pid (input_in input.entry) (Some (next_guess self.old.kernel)))) pid
            (input_in input.entry) self.old self.new }
    {
        if self.tokens.reserve(1).is_err() {
            return Err(self.guess_refusal(pid, input));
        }
        let _sound = self.kernel.trace();
        let token = self.kernel.speculate_lent(pid, input)?;
        let id = token.id();
        self.tokens.push_reserved(token);
        Ok(id)
    }

    /// Commits a guess, by its token; `None` where there is none. This takes no memory.
    pub fn commit(&mut self, id: GuessId) -> Option<Outcome>
        ensures { DecidesPost result (events.Commit id) id self.old self.new }
    {
        let place = self.place_of(id)?;
        let _sound = self.kernel.trace();
        let token = take_token(&mut self.tokens, place);
        match self.kernel.commit_speculation(token) {
            Ok(outcome) => Some(outcome),
            Err(_stranger) => unreachable!(),
        }
    }

    /// Fails a guess, by its token; `None` where there is none. This takes no memory.
    pub fn fail(&mut self, id: GuessId) -> Option<Outcome>
        ensures { DecidesPost result (events.Fail id) id self.old self.new }
    {
        let place = self.place_of(id)?;
        let _sound = self.kernel.trace();
        let token = take_token(&mut self.tokens, place);
        match self.kernel.fail_speculation(token) {
            Ok(outcome) => Some(outcome),
            Err(_refusal) => unreachable!(),
        }
    }

    /// Begins a new epoch where no guess is held, as the kernel does; refused only for want of memory.
    pub fn new_epoch(&mut self) -> Result<(Trace, Texts), EpochRefusal>
        requires { self.old.held ≡ [] }
        ensures kernel { EpochPost result self.old.kernel self.new.kernel }
        ensures memory { IfErr result (λ why. why ≡ EpochRefusal.Memory) }
        ensures held { self.new.held ≡ [] }
    {
        self.kernel.new_epoch()
    }

    /// Begins a new epoch where no guess is undecided, as the kernel does; the tokens that are left are of struck
    /// guesses, and are let go. Refusals: `Undecided`, and nothing has changed; then `Memory`, where the kernel is as it was.
    pub fn begin_epoch(&mut self) -> Result<(Trace, Texts), EpochRefusal>
        ensures { BeginsPost result self.old self.new }
    {
        let undecided = self.kernel.undecided();
        if undecided > 0 {
            return Err(EpochRefusal::Undecided(undecided));
        }
        self.spend();
        self.new_epoch()
    }

    /// Ends a kernel of which no guess is held: its trace, and what its terminals have released. This takes no
    /// memory.
    pub fn shut(self) -> (Trace, Texts)
        requires { self.held ≡ [] }
        ensures trace { result.0.events ≡ self.kernel.trace }
        ensures texts { (t : ℕ) → LeavesTexts self.kernel t (released_at result.1 t) }
    {
        let Holder { kernel, tokens } = self;
        tokens.destroy_empty();
        kernel.shut()
    }

    /// Spends the tokens by failures, the oldest first: nothing is committed. Where no guess is undecided they are of struck
    /// ones, and nothing fails.
    fn spend(&mut self)
        ensures held { self.new.held ≡ [] }
        ensures fails { FailsSome self.old.kernel self.new.kernel }
        ensures struck { undecided_at self.old.kernel ≡ [] → self.new.kernel ≡ self.old.kernel }
    {
        while let Some(token) = self.tokens.first() {
            let id = token.id();
            self.fail(id);
        }
    }

    /// Fails the guesses that are left, the oldest first, and ends. This takes no memory.
    pub fn abandon(self) {
        let mut holder = self;
        holder.spend();
        let Holder {
            kernel: _kernel,
            tokens,
        } = holder;
        tokens.destroy_empty();
    }
}
