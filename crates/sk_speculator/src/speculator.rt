//! The kernel.
ghost use Rattle.std.specs.Prelude.{◌≡◌, ◌≢◌, ◌==◌, ◌<◌, ◌∷◌, ◌&&◌, ℕ, [], true, false, None, Some, Option, is_some, is_none, length, get_or, IfErr, IfOk, IfSome, OnErr, OnOk};
ghost use Rattle.sk_speculator.specs.Base.{IsStrictlySortedBy, non_zero_u16_get, ShowsInOrder, deref, slice_get};
ghost use Rattle.sk_speculator.specs.Base.{option_copied, option_map, guess_tags, known, none_drawn, AreStatuses, is_in, released};
ghost use Rattle.sk_speculator.specs.Base.{has, numbers, tags_at, Status, said_at, first_of, waiting_of, look_at};
ghost use Rattle.sk_speculator.specs.Base.{log_at, keys_of, IsDistinct, eq_by_cmp, Memory, HasPresent};
ghost use Rattle.sk_speculator.specs.Calls.{next_of, Commits, CommitPost, FailsIn, FailPost, Refuses, Takes, TookBack};
ghost use Rattle.sk_speculator.specs.Emptied.{IsEmptied};
ghost use Rattle.sk_speculator.specs.Parts.{deed, machine_of, made_by, undo_state_of, GoesOn, IsSame};

use crate::asking::{StepTags, ask, goes_on, perform, perform_alone, perform_on};
use crate::lists::{relieve_rest, tags_of};
use crate::writes::find_all;
use crate::{Committed, Failed, Refusal, Step, Undone};
use indexmap::map::Keys;
use sk_guesses::{Guess, OpenGuesses, Redeemed, Status};
use sk_ids::{GuessId, TagSet};
use sk_inversion::{Inversion, Whole};
use sk_map::Key;
use sk_outputs::Outputs;
use sk_slots::{Slot, Slots};
use std::alloc::{AllocError, Global};
use std::hash::Hash;
use std::marker::Model;
use std::num::NonZeroU16;

/// A speculative kernel over its user's own keys, values and outputs, whose steps are taken outside. It keeps no record of
/// steps.
#[derive(Drop)]
pub struct Speculator<K: Key + Hash, V, O, I: Inversion<V> = Whole> {
    alloc: Global,
    slots: Slots<K, V, I>,
    guesses: OpenGuesses<K>,
    said: Outputs<O>,
    /// The places of the keys that a step writes; it is room that is used again.
    places: Vec<usize>,
    /// What `tags_of` lends where a key depends on nothing.
    no_tags: TagSet,
}

impl<K: Key + Hash, V, O, I: Inversion<V>> Model for Speculator<K, V, O, I> {
    ghost use Rattle.std.specs.Prelude.{◌≡◌, []};
    ghost use Rattle.sk_guesses.specs.Opens.{opens_of};
    ghost use Rattle.sk_speculator.specs.Parts.{Parts, parts_code, IsSound};

    ghost Value = { Parts K V O };

    ghost coded = { parts_code K.code V.code O.code };

    ghost view = { λ m. record {
      slots = m.slots;
      guesses = m.guesses.view;
      opens = opens_of m.guesses.opens;
      said = m.said.said;
    } };

    ghost invariant = { λ m. (m.no_tags ≡ [])
        × IsSound K.order
        (record {
          slots = m.slots;
          guesses = m.guesses.view;
          opens = opens_of m.guesses.opens;
          said = m.said.said;
        })
        m.guesses.opens };
}

impl<K: Key + Hash, V, O, I: Inversion<V>> Speculator<K, V, O, I> {
    /// No key is there, and nothing has happened, in the kernel of this number, of whose guesses so many may be undecided at
    /// once.
    pub fn new(alloc: Global, number: u64, limit: NonZeroU16) -> Speculator<K, V, O, I>
        ensures look { (k : K) → look_at K.order result.slots k ≡ None }
        ensures log { (k : K) → log_at K.order result.slots k ≡ [] }
        ensures guesses { result.guesses ≡ none_drawn number (non_zero_u16_get limit) }
        ensures some { 0 < result.guesses.limit }
        ensures opens { result.opens ≡ [] }
        ensures said { result.said ≡ [] }
    {
        Speculator {
            alloc,
            slots: Slots::new(alloc),
            guesses: OpenGuesses::new(alloc, number, limit.get()),
            said: Outputs::new(alloc),
            places: Vec::new(alloc),
            no_tags: TagSet::new(alloc),
        }
    }

    /// What a key has; `None` where it is absent.
    pub fn value(&self, key: &K) -> Option<&V>
        ensures { option_copied result ≡ look_at K.order self.now.slots key.now }
    {
        self.slots.value(key)
    }

    /// The undecided guesses that a key depends on.
    pub fn tags_of(&self, key: &K) -> &TagSet
        ensures { result.now ≡ tags_at (undo_state_of K.order self.now) key.now }
    {
        tags_of(&self.slots, &self.no_tags, key)
    }

    /// The keys that are there or depend on a guess, each once.
    pub fn keys(&self) -> Keys<'_, K, Slot<V, I>>
        ensures present { (k : K) → is_in K.order result k ≡ false
            → look_at K.order self.now.slots k ≡ None }
        ensures noted { (k : K) → is_in K.order result k ≡ false
            → log_at K.order self.now.slots k ≡ [] }
        ensures some { (k : K) → is_in K.order result k ≡ true
            → look_at K.order self.now.slots k ≡ None
            → log_at K.order self.now.slots k ≡ [] → ⊥ }
        ensures once { IsDistinct (eq_by_cmp K.order) result }
        ensures runs { ShowsInOrder (deref {X = K}) }
    {
        self.slots.keys()
    }

    /// How many keys are there, without a look at any.
    pub fn present(&self) -> usize
        ensures { HasPresent K.order (look_at K.order self.now.slots) result }
    {
        self.slots.present()
    }

    /// The keys that depend on a guess, by their order, each once: just those that its failure takes back.
    pub fn dependents(&self, id: GuessId) -> &[K]
        ensures exact { (k : K) → is_in K.order result.now k
            ≡ has id (tags_at (undo_state_of K.order self.now) k) }
        ensures rising { IsStrictlySortedBy K.order result.now }
    {
        self.guesses.dependents(id)
    }

    /// What is known of a guess: that it is undecided, or that it is struck and its token is out. It is not drawn, or decided,
    /// where nothing is.
    pub fn status(&self, id: GuessId) -> Option<Status>
        ensures kept { result ≡ known self.now.guesses self.now.opens id }
        ensures agrees { (status : ℕ → Option Status)
            → AreStatuses self.now.guesses self.now.opens status
            → IfSome result (λ is. status id ≡ Some is) }
    {
        self.guesses.status(id)
    }

    /// The guesses that an undecided guess's own step depends on, itself among them: its commit is firm where it is alone.
    pub fn tags_of_guess(&self, id: GuessId) -> Option<&TagSet>
        ensures { option_copied result ≡ guess_tags id self.now.opens }
    {
        self.guesses.tags(id)
    }

    /// The undecided guess at a place; they stand by rising number.
    pub fn open_at(&self, place: usize) -> Option<GuessId>
        ensures { result ≡ slice_get (numbers self.now.opens) place }
    {
        self.guesses.open_at(place)
    }

    /// How many guesses are undecided.
    pub fn undecided(&self) -> usize
        ensures { result ≡ length self.now.opens }
    {
        self.guesses.undecided()
    }

    /// Whether no guess is undecided.
    #[inline(always)]
    fn is_idle(&self) -> bool
        ensures { result ≡ true → self.now.opens ≡ [] }
    {
        self.guesses.undecided() == 0
    }

    /// How many guesses may be undecided at once.
    pub fn limit(&self) -> u16
        ensures { result ≡ self.now.guesses.limit }
    {
        self.guesses.limit()
    }

    /// The number of the next guess; or why none may be drawn, whatever its step is. Where one may, only memory can be wanting.
    pub fn next_guess(&self) -> Result<GuessId, Refusal>
        ensures ok { IfOk result (λ id. id ≡ next_of self.now.guesses) }
        ensures may { OnOk result (Refuses self.now Memory) }
        ensures why { IfErr result (λ why. (why ≢ Memory) × Refuses self.now why) }
    {
        let is_full = self.guesses.is_full();
        match self.guesses.free() {
            _ if is_full => Err(Refusal::TooMany),
            Some(id) => Ok(id),
            None => Err(Refusal::NoNumber),
        }
    }

    /// The number of the oldest undecided guess, or of the next one where none is undecided: each guess below it is decided.
    pub fn settled(&self) -> u64
        ensures { result ≡ get_or (numbers self.now.opens) 0 (next_of self.now.guesses) }
    {
        match self.guesses.oldest() {
            Some(id) => id.number(),
            None => self.guesses.drawn() + 1,
        }
    }

    /// The struck guesses whose tokens have not come back, in the order in which they were struck.
    pub fn struck(&self) -> &[GuessId]
        ensures { result.now ≡ self.now.guesses.struck }
    {
        self.guesses.struck()
    }

    /// How many outputs there are, of all channels, whether they wait or not.
    pub fn outputs(&self) -> usize
        ensures { result ≡ length self.now.said }
    {
        self.said.len()
    }

    /// How many outputs of a channel wait: the first that depends on a guess, and all behind it.
    pub fn waiting(&self, channel: u16) -> usize
        ensures { result ≡ waiting_of (said_at self.now.said channel) }
    {
        self.said.waiting(channel)
    }

    /// The first output of a channel, whether it waits or not.
    pub fn first(&self, channel: u16) -> Option<&O>
        ensures { option_copied result ≡ first_of (said_at self.now.said channel) }
    {
        self.said.first(channel)
    }

    /// The output of a channel that `released` would take out; `None` where it would take none.
    pub fn next_output(&self, channel: u16) -> Option<&O>
        ensures { option_copied result
            ≡ option_map (λ w. w.1) (slice_get (released (said_at self.now.said channel)) 0) }
    {
        self.said.next_output(channel)
    }

    /// A channel that has an output to take, found without going through the others; `None` where none has.
    pub fn next_channel(&self) -> Option<u16>
        ensures some { IfSome result
            (λ channel. released (said_at self.now.said channel) ≡ [] → ⊥) }
        ensures none { result ≡ None
            → (channel : ℕ) → released (said_at self.now.said channel) ≡ [] }
    {
        self.said.next_channel()
    }
}

impl<K: Key + Hash, V: Drop, O: Drop, I: Inversion<V>> Speculator<K, V, O, I> {
    /// Takes a step. Its buffers are empty then, with their room. Without memory the step is as it was, and nothing has changed.
    pub fn take(&mut self, step: &mut Step<K, V, O, I>) -> Result<(), AllocError>
    where
        I::Write: Drop,
        ensures ok { OnOk result
            (Takes K.order self.old
            (deed step.old.looked.items
            (made_by K.order I.written (look_at K.order self.old.slots) step.old.written.items)
            step.old.said) None self.new) }
        ensures emptied { OnOk result (IsEmptied step.old step.new) }
        ensures err { OnErr result (IsSame K.order self.old self.new) }
        ensures kept { OnErr result (step.new ≡ step.old) }
    {
        if self.goes_on(step) {
            return self.take_on(step);
        }
        if self.is_idle() {
            return self.take_alone(step);
        }
        self.take_apart(step)
    }

    /// Finds the places of the keys that a step writes, and answers whether it goes on where they stand.
    #[inline(always)]
    fn goes_on(&mut self, step: &Step<K, V, O, I>) -> bool
        ensures same { self.new ≡ self.old }
        ensures goes { result ≡ true
            → GoesOn K.order self.old.slots step.now.looked.items (keys_of step.now.written.items) }
    {
        let idle = self.is_idle();
        find_all(&self.slots, &mut self.places, step.written.as_slice());
        let places = self.places.as_slice();
        goes_on(&self.slots, &self.no_tags, places, step, idle)
    }

    /// Takes a step that goes on where its keys stand.
    #[inline(always)]
    fn take_on(&mut self, step: &mut Step<K, V, O, I>) -> Result<(), AllocError>
    where
        I::Write: Drop,
        requires { GoesOn K.order self.old.slots step.old.looked.items
            (keys_of step.old.written.items) }
        ensures ok { OnOk result
            (Takes K.order self.old
            (deed step.old.looked.items
            (made_by K.order I.written (look_at K.order self.old.slots) step.old.written.items)
            step.old.said) None self.new) }
        ensures emptied { OnOk result (IsEmptied step.old step.new) }
        ensures err { OnErr result (IsSame K.order self.old self.new) }
        ensures kept { OnErr result (step.new ≡ step.old) }
    {
        perform_on(
            &mut self.slots,
            &mut self.said,
            &self.no_tags,
            self.places.as_slice(),
            step,
        )
    }

    /// Takes a step whose tags are to be found, and whose writes are to be noted.
    #[inline(never)]
    fn take_apart(&mut self, step: &mut Step<K, V, O, I>) -> Result<(), AllocError>
    where
        I::Write: Drop,
        ensures ok { OnOk result
            (Takes K.order self.old
            (deed step.old.looked.items
            (made_by K.order I.written (look_at K.order self.old.slots) step.old.written.items)
            step.old.said) None self.new) }
        ensures emptied { OnOk result (IsEmptied step.old step.new) }
        ensures err { OnErr result (IsSame K.order self.old self.new) }
        ensures kept { OnErr result (step.new ≡ step.old) }
    {
        let mut both = StepTags::new(self.alloc);
        ask(
            self.alloc,
            &mut self.slots,
            &mut self.guesses,
            &mut self.said,
            self.places.as_slice(),
            &self.no_tags,
            &None,
            &mut both,
            step,
        )?;
        let StepTags { tags, own: _ } = both;
        perform(
            &mut self.slots,
            &mut self.said,
            tags,
            self.places.as_slice(),
            step,
        );
        Ok(())
    }

    /// Takes a step where no guess is undecided, so that nothing depends on one.
    #[inline(never)]
    fn take_alone(&mut self, step: &mut Step<K, V, O, I>) -> Result<(), AllocError>
    where
        I::Write: Drop,
        requires { self.old.opens ≡ [] }
        ensures ok { OnOk result
            (Takes K.order self.old
            (deed step.old.looked.items
            (made_by K.order I.written (look_at K.order self.old.slots) step.old.written.items)
            step.old.said) None self.new) }
        ensures emptied { OnOk result (IsEmptied step.old step.new) }
        ensures err { OnErr result (IsSame K.order self.old self.new) }
        ensures kept { OnErr result (step.new ≡ step.old) }
    {
        perform_alone(
            self.alloc,
            &mut self.slots,
            &mut self.said,
            self.places.as_slice(),
            &self.no_tags,
            step,
        )
    }

    /// Draws the next guess and takes its step, which depends on it. The step's buffers are empty then, with their room. After a
    /// refusal the step is as it was, and nothing has changed.
    pub fn guess(&mut self, step: &mut Step<K, V, O, I>) -> Result<Guess, Refusal>
    where
        I::Write: Drop,
        ensures token { IfOk result
            (λ guess. guess
            ≡ record { kernel = self.old.guesses.kernel; id = next_of self.old.guesses }) }
        ensures ok { OnOk result
            (Takes K.order self.old
            (deed step.old.looked.items
            (made_by K.order I.written (look_at K.order self.old.slots) step.old.written.items)
            step.old.said)
            (Some (next_of self.old.guesses)) self.new) }
        ensures emptied { OnOk result (IsEmptied step.old step.new) }
        ensures why { IfErr result (Refuses self.old) }
        ensures err { OnErr result (IsSame K.order self.old self.new) }
        ensures kept { OnErr result (step.new ≡ step.old) }
    {
        if self.guesses.is_full() {
            return Err(Refusal::TooMany);
        }
        let Some(id) = self.guesses.free() else {
            return Err(Refusal::NoNumber);
        };
        find_all(&self.slots, &mut self.places, step.written.as_slice());
        let mut both = StepTags::new(self.alloc);
        let asked = ask(
            self.alloc,
            &mut self.slots,
            &mut self.guesses,
            &mut self.said,
            self.places.as_slice(),
            &self.no_tags,
            &Some(id),
            &mut both,
            step,
        );
        let Ok(()) = asked else {
            return Err(Refusal::Memory);
        };
        let StepTags { tags, own } = both;
        let guess = self.guesses.draw(id, own, step.written.as_slice());
        perform(
            &mut self.slots,
            &mut self.said,
            tags,
            self.places.as_slice(),
            step,
        );
        Ok(guess)
    }

    /// The next output of a channel that depends on nothing, taken out; `None` where there is none. This takes no memory.
    pub fn released(&mut self, channel: u16) -> Option<O>
        ensures first { IfSome result
            (λ output. said_at self.old.said channel
            ≡ ((channel, output), []) ∷ said_at self.new.said channel) }
        ensures others { (t : ℕ) → (channel == t) ≡ false
            → said_at self.new.said t ≡ said_at self.old.said t }
        ensures none { result ≡ None → self.new ≡ self.old }
        ensures held { result ≡ None → released (said_at self.old.said channel) ≡ [] }
        ensures same { self.new ≡ record self.old { said = self.new.said } }
    {
        self.said.take_out(channel)
    }

    /// Commits a guess: nothing depends on it any more. This takes no memory.
    pub fn commit(&mut self, guess: Guess) -> Result<Committed, Guess>
        ensures { CommitPost K.order self.old guess result self.new }
    {
        let redeemed = match self.guesses.redeem(guess) {
            Ok(redeemed) => redeemed,
            Err(guess) => return Err(guess),
        };
        match redeemed {
            Redeemed::Struck(_struck) => Ok(Committed::Gone),
            Redeemed::Undecided(id) => {
                self.commit_open(id);
                Ok(Committed::Done)
            }
        }
    }

    /// Fails a guess: what depends on it is taken back, in place and without memory, and the guesses whose own steps depend on it
    /// are struck.
    pub fn fail(&mut self, guess: Guess) -> Result<Failed<K>, Guess>
        ensures { FailPost K.order self.old guess result self.new }
    {
        let redeemed = match self.guesses.redeem(guess) {
            Ok(redeemed) => redeemed,
            Err(guess) => return Err(guess),
        };
        match redeemed {
            Redeemed::Struck(_struck) => Ok(Failed::Gone),
            Redeemed::Undecided(id) => Ok(Failed::Done(self.fail_open(id))),
        }
    }

    /// Commits an undecided guess. This takes no memory.
    fn commit_open(&mut self, id: GuessId)
        requires { has id (numbers self.old.opens) ≡ true }
        ensures { Commits K.order self.old id self.new }
    {
        self.slots.commit(id, self.guesses.dependents(id));
        self.guesses.commit(id);
        self.said.commit(id);
    }

    /// Fails an undecided guess. This takes no memory.
    fn fail_open(&mut self, id: GuessId) -> Undone<K>
        requires { has id (numbers self.old.opens) ≡ true }
        ensures fails { FailsIn K.order self.old id self.new }
        ensures back { TookBack K.order self.old id result }
    {
        let keys = self.guesses.take_dependents(id);
        let struck = self.guesses.fail(id);
        relieve_rest(
            &mut self.guesses,
            &self.slots,
            &self.no_tags,
            id,
            keys.as_slice(),
        );
        self.slots.unwind(id, keys.as_slice());
        self.said.drop_of(id);
        Undone {
            keys: keys.into_vec(),
            struck,
        }
    }

    /// Drops what commits of many keys left of old values, of at most so many keys, and answers of how many there are still
    /// some. Nothing that is seen changes.
    pub fn let_go(&mut self, most: usize) -> usize
        ensures { self.new ≡ self.old }
    {
        self.slots.let_go(most)
    }

    /// Ends the kernel, if no guess is undecided: hands out what keys have, and the outputs that were not taken out.
    pub fn shut(self) -> Result<(Slots<K, V, I>, Outputs<O>), Speculator<K, V, O, I>>
        ensures slots { IfOk result (λ left. left.0 ≡ self.slots) }
        ensures said { IfOk result (λ left. left.1.said ≡ self.said) }
        ensures opens { OnOk result (self.opens ≡ []) }
        ensures err { IfErr result (λ back. (back ≡ self) × (self.opens ≡ [] → ⊥)) }
    {
        if self.guesses.undecided() > 0 {
            return Err(self);
        }
        let Speculator {
            alloc: _,
            slots,
            guesses: _,
            said,
            places: _places,
            no_tags: _,
        } = self;
        Ok((slots, said))
    }
}
