//! The kernel over byte strings.
ghost use Rattle.std.specs.Prelude.{◌≡◌, ◌==◌, ◌≤◌, ◌∷◌, ℕ, List, [], true, false, None, Some, get_or, length, IfErr, IfOk, IfSome, OnErr, OnOk};
ghost use Rattle.sk_bytes.specs.Base.{non_zero_u16_get, slice_get, option_copied, option_map, guess_tags, known, none_drawn};
ghost use Rattle.sk_bytes.specs.Base.{released, numbers, tags_at, said_at, first_of, waiting_of, look_at, log_at};
ghost use Rattle.sk_bytes.specs.Base.{next_of, Refuses, Takes, IsEmptied, undo_state_of, bytes_cmp, string_of, at_key};
ghost use Rattle.sk_bytes.specs.Base.{CommitPost, HasPresent, LongKey, vec_capacity};
ghost use Rattle.sk_speculator.specs.declared.refusal.Refusal.TheVariants as inner;
ghost use Rattle.sk_bytes.specs.Calls.{Counts, FailPost, has_long_key, is_long, resting_on, HasPlaces, RefusesGuess, RefusesNext, RefusesStep, Unchanged};
ghost use Rattle.sk_bytes.specs.Steps.{byte_deed, IsAsItWas};

use crate::Refusal;
use crate::keys::Keys;
use crate::numbers::{absent_dependents, give_back_any, makes_absent};
use crate::refusal::named;
use sk_guesses::{Guess, Status};
use sk_ids::{GuessId, TagSet};
use sk_index::Number;
use sk_speculator::{Committed, Failed, Speculator, Step, Undone};
use std::alloc::Global;
use std::marker::Model;
use std::num::NonZeroU16;

/// The greatest length of a key.
pub const KEY_LIMIT: usize = 65_536;

/// A step over byte strings.
pub type ByteStep<V, O> = Step<Vec<u8>, V, O>;

/// What a failure came to: how many keys it took back, which `Bytes::undone` tells until the next step or decision,
/// and how many guesses it struck.
#[derive(Clone, Copy, Debug, PartialEq, Eq)]
pub enum Unmade {
    Done { keys: usize, struck: usize },
    /// The guess was struck by another's failure: nothing is left to decide.
    Gone,
}

/// A speculative kernel whose keys are byte strings. A key's bytes are kept once.
#[derive(Drop)]
pub struct Bytes<V, O> {
    keys: Keys<V, O>,
    kernel: Speculator<Number, V, O>,
    no_tags: TagSet,
}

impl<V, O> Model for Bytes<V, O> {
    ghost use Rattle.std.specs.Prelude.{◌≡◌, [], None};
    ghost use Rattle.sk_bytes.specs.Told.{byte_code, strings_of, told_of, ByteView, IsTold};

    ghost Value = { ByteView V O };

    ghost coded = { byte_code V.code O.code };

    ghost view = { λ b. record {
      parts = told_of b.keys.index b.kernel;
      undone = strings_of b.keys.index b.keys.loose.items;
      keys = b.keys.index;
    } };

    ghost invariant = { λ b. IsTold b.keys.index b.kernel b.keys.loose.items
        × (b.keys.numbered.looked.items ≡ [])
        × (b.keys.numbered.written.items ≡ [])
        × (b.keys.numbered.said ≡ None)
        × (b.no_tags ≡ []) };
}

impl<V, O> Bytes<V, O> {
    /// No key is there, and nothing has happened. A seed that users of the keys don't know keeps them from choosing keys that
    /// are found slowly.
    pub fn new(alloc: Global, number: u64, limit: NonZeroU16, seed: u64) -> Bytes<V, O>
        ensures look { (k : List ℕ) → look_at bytes_cmp result.parts.slots k ≡ None }
        ensures log { (k : List ℕ) → log_at bytes_cmp result.parts.slots k ≡ [] }
        ensures guesses { result.parts.guesses ≡ none_drawn number (non_zero_u16_get limit) }
        ensures opens { result.parts.opens ≡ [] }
        ensures said { result.parts.said ≡ [] }
        ensures undone { result.undone ≡ [] }
    {
        Bytes {
            keys: Keys::new(alloc, seed),
            kernel: Speculator::new(alloc, number, limit),
            no_tags: TagSet::new(alloc),
        }
    }

    /// What a key has; `None` where it is absent.
    pub fn value(&self, key: &[u8]) -> Option<&V>
        ensures { option_copied result ≡ look_at bytes_cmp self.now.parts.slots key.now }
    {
        match self.keys.index.find(key) {
            Some(number) => self.kernel.value(&number),
            None => None,
        }
    }

    /// The undecided guesses that a key depends on.
    pub fn tags_of(&self, key: &[u8]) -> &TagSet
        ensures { result.now ≡ tags_at (undo_state_of bytes_cmp self.now.parts) key.now }
    {
        match self.keys.index.find(key) {
            Some(number) => self.kernel.tags_of(&number),
            None => &self.no_tags,
        }
    }

    /// How many keys depend on a guess.
    pub fn dependents(&self, id: GuessId) -> usize
        ensures { result ≡ length (resting_on self.now id) }
    {
        self.numbers_on(id).len()
    }

    /// One of the keys that depend on a guess, by its place among them.
    pub fn dependent(&self, id: GuessId, place: usize) -> Option<&[u8]>
        ensures { option_map (λ s. s.now) result ≡ slice_get (resting_on self.now id) place }
    {
        match self.numbers_on(id).get(place) {
            Some(number) => self.keys.index.string(*number),
            None => None,
        }
    }

    /// The numbers of the keys that depend on a guess.
    fn numbers_on(&self, id: GuessId) -> &[Number]
        ensures count { length result.now ≡ length (resting_on self.now id) }
        ensures keys { (place : ℕ) → at_key None (string_of self.now.keys) (slice_get result.now place)
            ≡ slice_get (resting_on self.now id) place }
    {
        let _rising = self.keys.index.places();
        self.kernel.dependents(id)
    }

    /// One of the keys that the last failure took back, by its place among them.
    pub fn undone(&self, place: usize) -> Option<&[u8]>
        ensures { option_map (λ s. s.now) result ≡ slice_get self.now.undone place }
    {
        match self.keys.loose.get(place) {
            Some(number) => self.keys.index.string(*number),
            None => None,
        }
    }

    /// How many keys are there, depend on a guess, or were taken back by the last failure.
    pub fn len(&self) -> usize
        ensures { Counts self.now result }
    {
        self.keys.index.len()
    }

    /// How many keys are there.
    pub fn present(&self) -> usize
        ensures { HasPresent bytes_cmp (look_at bytes_cmp self.now.parts.slots) result }
    {
        self.kernel.present()
    }

    /// A place behind all that keys have. Each key that is there, depends on a guess, or was taken back by the last failure has
    /// one place before it, and no other key has any.
    pub fn places(&self) -> usize
        ensures behind { (place : ℕ) → result ≤ place → string_of self.now.keys place ≡ None }
        ensures keys { HasPlaces self.now }
    {
        self.keys.index.places()
    }

    /// The key that has a place.
    pub fn key_at(&self, place: usize) -> Option<&[u8]>
        ensures { option_map (λ s. s.now) result ≡ string_of self.now.keys place }
    {
        self.keys.index.string(Number::new(place))
    }

    /// What the key at a place has; `None` where it is absent.
    pub fn value_at(&self, place: usize) -> Option<&V>
        ensures { option_copied result
            ≡ at_key None (look_at bytes_cmp self.now.parts.slots) (string_of self.now.keys place) }
    {
        self.kernel.value(&Number::new(place))
    }

    /// What is known of a guess.
    pub fn status(&self, id: GuessId) -> Option<Status>
        ensures { result ≡ known self.now.parts.guesses self.now.parts.opens id }
    {
        self.kernel.status(id)
    }

    /// The guesses that an undecided guess's own step depends on, itself among them: its commit is firm where it is alone.
    pub fn tags_of_guess(&self, id: GuessId) -> Option<&TagSet>
        ensures { option_copied result ≡ guess_tags id self.now.parts.opens }
    {
        self.kernel.tags_of_guess(id)
    }

    /// How many guesses are undecided.
    pub fn undecided(&self) -> usize
        ensures { result ≡ length self.now.parts.opens }
    {
        self.kernel.undecided()
    }

    /// How many guesses may be undecided at once.
    pub fn limit(&self) -> u16
        ensures { result ≡ self.now.parts.guesses.limit }
    {
        self.kernel.limit()
    }

    /// The number of the next guess; or why none may be drawn, whatever its step is.
    pub fn next_guess(&self) -> Result<GuessId, Refusal>
        ensures ok { IfOk result (λ id. id ≡ next_of self.now.parts.guesses) }
        ensures may { OnOk result (Refuses self.now.parts inner.Memory) }
        ensures why { IfErr result (RefusesNext self.now.parts) }
    {
        next_number(&self.kernel)
    }

    /// The number of the oldest undecided guess, or of the next one where none is undecided.
    pub fn settled(&self) -> u64
        ensures { result
            ≡ get_or (numbers self.now.parts.opens) 0 (next_of self.now.parts.guesses) }
    {
        self.kernel.settled()
    }

    /// How many struck guesses there are whose tokens have not come back.
    pub fn struck(&self) -> usize
        ensures { result ≡ length self.now.parts.guesses.struck }
    {
        self.kernel.struck().len()
    }

    /// How many outputs there are, of all channels, whether they wait or not.
    pub fn outputs(&self) -> usize
        ensures { result ≡ length self.now.parts.said }
    {
        self.kernel.outputs()
    }

    /// How many outputs of a channel wait: the first that depends on a guess, and all behind it.
    pub fn waiting(&self, channel: u16) -> usize
        ensures { result ≡ waiting_of (said_at self.now.parts.said channel) }
    {
        self.kernel.waiting(channel)
    }

    /// The first output of a channel, whether it waits or not.
    pub fn first(&self, channel: u16) -> Option<&O>
        ensures { option_copied result ≡ first_of (said_at self.now.parts.said channel) }
    {
        self.kernel.first(channel)
    }

    /// The output of a channel that `released` would take out; `None` where it would take none.
    pub fn next_output(&self, channel: u16) -> Option<&O>
        ensures { option_copied result
            ≡ option_map (λ w. w.1)
            (slice_get (released (said_at self.now.parts.said channel)) 0) }
    {
        self.kernel.next_output(channel)
    }

    /// A channel that has an output to take, found without going through the others; `None` where none has.
    pub fn next_channel(&self) -> Option<u16>
        ensures some { IfSome result
            (λ channel. released (said_at self.now.parts.said channel) ≡ [] → ⊥) }
        ensures none { result ≡ None
            → (channel : ℕ) → released (said_at self.now.parts.said channel) ≡ [] }
    {
        self.kernel.next_channel()
    }
}

impl<V: Drop, O: Drop> Bytes<V, O> {
    /// Takes a step. Its buffers are empty then, with their room. After a refusal it is as it was, and nothing has changed.
    pub fn take(&mut self, step: &mut ByteStep<V, O>) -> Result<(), Refusal>
        ensures ok { OnOk result
            (Takes bytes_cmp self.old.parts (byte_deed step.old) None self.new.parts) }
        ensures emptied { OnOk result (IsEmptied step.old step.new) }
        ensures why { IfErr result (RefusesStep step.old) }
        ensures err { OnErr result (Unchanged self.old self.new) }
        ensures kept { OnErr result (IsAsItWas step.old step.new) }
    {
        self.keys.let_go(&self.kernel);
        checked(step)?;
        if self.keys.hand_over(step).is_err() {
            self.keys.let_go(&self.kernel);
            return Err(Refusal::Memory);
        }
        let makes_absent = makes_absent(self.keys.numbered.written.as_slice());
        if self.kernel.take(&mut self.keys.numbered).is_err() {
            self.keys.hand_back(step);
            self.keys.let_go(&self.kernel);
            return Err(Refusal::Memory);
        }
        self.keys.let_go_taken(&self.kernel, makes_absent);
        empty(step);
        Ok(())
    }

    /// Draws the next guess and takes its step, which depends on it. Its buffers are empty then, with their room. After a refusal
    /// it is as it was, and nothing has changed.
    pub fn guess(&mut self, step: &mut ByteStep<V, O>) -> Result<Guess, Refusal>
        ensures token { IfOk result
            (λ guess. guess
            ≡ record { kernel = self.old.parts.guesses.kernel; id = next_of self.old.parts.guesses }) }
        ensures ok { OnOk result
            (Takes bytes_cmp self.old.parts (byte_deed step.old)
            (Some (next_of self.old.parts.guesses)) self.new.parts) }
        ensures emptied { OnOk result (IsEmptied step.old step.new) }
        ensures why { IfErr result (RefusesGuess self.old.parts step.old) }
        ensures err { OnErr result (Unchanged self.old self.new) }
        ensures kept { OnErr result (IsAsItWas step.old step.new) }
    {
        self.keys.let_go(&self.kernel);
        checked(step)?;
        next_number(&self.kernel)?;
        if self.keys.hand_over(step).is_err() {
            self.keys.let_go(&self.kernel);
            return Err(Refusal::Memory);
        }
        match self.kernel.guess(&mut self.keys.numbered) {
            Ok(guess) => {
                self.keys.let_go(&self.kernel);
                empty(step);
                Ok(guess)
            }
            Err(refusal) => {
                self.keys.hand_back(step);
                self.keys.let_go(&self.kernel);
                Err(named(refusal))
            }
        }
    }

    /// The next output of a channel that depends on nothing, taken out; `None` where there is none. This takes no memory.
    pub fn released(&mut self, channel: u16) -> Option<O>
        ensures first { IfSome result
            (λ output. said_at self.old.parts.said channel
            ≡ ((channel, output), []) ∷ said_at self.new.parts.said channel) }
        ensures others { (t : ℕ) → (channel == t) ≡ false
            → said_at self.new.parts.said t ≡ said_at self.old.parts.said t }
        ensures none { result ≡ None → self.new ≡ self.old }
        ensures held { result ≡ None → released (said_at self.old.parts.said channel) ≡ [] }
        ensures same { self.new.parts ≡ record self.old.parts { said = self.new.parts.said } }
    {
        self.kernel.released(channel)
    }

    /// Drops what commits of many keys left of old values, of at most so many keys, and answers of how many there are still
    /// some. Nothing that is seen changes.
    pub fn let_go(&mut self, most: usize) -> usize
        ensures { self.new ≡ self.old }
    {
        self.kernel.let_go(most)
    }

    /// Commits a guess: nothing depends on it any more. It is never refused for want of memory.
    pub fn commit(&mut self, guess: Guess) -> Result<Committed, Guess>
        ensures { CommitPost bytes_cmp self.old.parts guess result self.new.parts }
    {
        self.keys.let_go(&self.kernel);
        let absent = absent_dependents(&self.kernel, self.keys.index.alloc(), guess.id());
        let committed = match self.kernel.commit(guess) {
            Ok(committed) => committed,
            Err(guess) => return Err(guess),
        };
        give_back_any(&mut self.keys.index, &self.kernel, absent);
        Ok(committed)
    }

    /// Fails a guess: what depends on it is taken back. This takes no memory.
    pub fn fail(&mut self, guess: Guess) -> Result<Unmade, Guess>
        ensures { FailPost self.old guess result self.new }
    {
        self.keys.let_go(&self.kernel);
        let failed = match self.kernel.fail(guess) {
            Ok(failed) => failed,
            Err(guess) => return Err(guess),
        };
        match failed {
            Failed::Done(Undone { keys, struck }) => {
                self.keys.loose = keys;
                Ok(Unmade::Done {
                    keys: self.keys.loose.len(),
                    struck,
                })
            }
            Failed::Gone => Ok(Unmade::Gone),
        }
    }
}

/// The number of the next guess; or why none may be drawn.
fn next_number<V, O>(kernel: &Speculator<Number, V, O>) -> Result<GuessId, Refusal>
    ensures ok { IfOk result (λ id. id ≡ next_of kernel.now.guesses) }
    ensures may { OnOk result (Refuses kernel.now inner.Memory) }
    ensures why { IfErr result (RefusesNext kernel.now) }
{
    match kernel.next_guess() {
        Ok(id) => Ok(id),
        Err(refusal) => Err(named(refusal)),
    }
}

/// Whether a key is longer than may be.
fn is_too_long(key: &Vec<u8>) -> bool
    ensures { result ≡ is_long key.now }
{
    key.len() > KEY_LIMIT
}

/// Refuses a step of which a key is too long.
fn checked<V, O>(step: &ByteStep<V, O>) -> Result<(), Refusal>
    ensures ok { OnOk result (has_long_key step.now ≡ false) }
    ensures err { IfErr result (λ why. (why ≡ LongKey) × (has_long_key step.now ≡ true)) }
{
    for key in step.looked.as_slice() {
        if is_too_long(key) {
            return Err(Refusal::LongKey);
        }
    }
    for write in step.written.as_slice() {
        if is_too_long(&write.0) {
            return Err(Refusal::LongKey);
        }
    }
    Ok(())
}

/// Empties a step that was taken. Its buffers keep their room.
fn empty<V: Drop, O>(step: &mut ByteStep<V, O>)
    ensures looked { step.new.looked.items ≡ [] }
    ensures written { step.new.written.items ≡ [] }
    ensures said { step.new.said ≡ step.old.said }
    ensures looked_room { vec_capacity step.new.looked ≡ vec_capacity step.old.looked }
    ensures written_room { vec_capacity step.new.written ≡ vec_capacity step.old.written }
{
    step.looked.clear();
    step.written.clear();
}
