//! A kernel over byte strings whose guesses are decided by their numbers.
ghost use Rattle.std.specs.Prelude.{◌≡◌, [], None, OnErr, OnOk};
ghost use Rattle.std.specs.Int.NonZero.{non_zero_u16_get};
ghost use Rattle.std.specs.Option.{option_map};
ghost use Rattle.sk_record.specs.Machine.{released};
ghost use Rattle.sk_outputs.specs.Said.{said_at};
ghost use Rattle.sk_held.specs.Held.{no_step, CommitsBy, FailsBy, GuessPost, IsNew, LooksPost, PutsPost, SaysPost, StepPost, WritesPost};
ghost use Rattle.sk_held.specs.Outputs.{but_first, first_of, MayBring};

use crate::Output;
use crate::output::{drop_first, first_of};
use crate::parts::{check_key, check_value, copy_of};
use crate::tokens::place_of;
use sk_bytes::{ByteStep, Bytes, Refusal, Unmade};
use sk_guesses::Guess;
use sk_ids::GuessId;
use sk_speculator::{Committed, Step};
use std::alloc::{AllocError, Global};
use std::marker::Model;
use std::num::NonZeroU16;

/// A kernel over byte strings with the tokens of its guesses, which are decided by their numbers, and with a step that is written
/// one part at a time.
pub struct Held {
    alloc: Global,
    kernel: Bytes<Vec<u8>, Vec<u8>>,
    tokens: Vec<Guess>,
    step: ByteStep<Vec<u8>, Vec<u8>>,
    out: Vec<Output>,
}

impl Model for Held {
    ghost use Rattle.std.specs.Prelude.{◌≡◌, false};
    ghost use Rattle.sk_bytes.specs.Calls.{has_long_key};
    ghost use Rattle.sk_bytes.specs.Steps.{byte_deed};
    ghost use Rattle.sk_held.specs.Held.{HeldView};
    ghost use Rattle.sk_held.specs.Tokens.{AreHeld};

    ghost Value = { HeldView };

    ghost view = { λ h. record {
      kernel = h.kernel;
      step = byte_deed h.step;
      out = h.out.items;
    } };

    ghost invariant = { λ h. AreHeld h.kernel.parts h.tokens.items × (has_long_key h.step ≡ false) };
}

impl Held {
    /// No key is there, and nothing has happened, in the kernel of this number, of whose guesses so many may be undecided at
    /// once; with a seed that users of the keys don't know.
    pub fn new(alloc: Global, number: u64, limit: NonZeroU16, seed: u64) -> Held
        ensures { IsNew number (non_zero_u16_get limit) result }
    {
        Held {
            alloc,
            kernel: Bytes::new(alloc, number, limit, seed),
            tokens: Vec::new(alloc),
            step: Step::new(alloc),
            out: Vec::new(alloc),
        }
    }

    pub fn kernel(&self) -> &Bytes<Vec<u8>, Vec<u8>>
        ensures { result.now ≡ self.now.kernel }
    {
        &self.kernel
    }

    /// The step looked at a key.
    pub fn look(&mut self, key: &[u8]) -> Result<(), Refusal>
        ensures { LooksPost result key.now self.old self.new }
    {
        check_key(key)?;
        let key = copy_of(self.alloc, key)?;
        match self.step.looked.push(key) {
            Ok(()) => Ok(()),
            Err(_key) => Err(Refusal::Memory),
        }
    }

    /// The step sets what a key has.
    pub fn put(&mut self, key: &[u8], value: &[u8]) -> Result<(), Refusal>
        ensures { PutsPost result key.now value.now self.old self.new }
    {
        check_key(key)?;
        check_value(value)?;
        let value = copy_of(self.alloc, value)?;
        self.write(key, Some(value))
    }

    /// The step makes a key absent.
    pub fn remove(&mut self, key: &[u8]) -> Result<(), Refusal>
        ensures { WritesPost result key.now None self.old self.new }
    {
        self.write(key, None)
    }

    /// The step leaves a key so.
    fn write(&mut self, key: &[u8], value: Option<Vec<u8>>) -> Result<(), Refusal>
        ensures { WritesPost result key.now value self.old self.new }
    {
        check_key(key)?;
        let key = copy_of(self.alloc, key)?;
        match self.step.written.push((key, value)) {
            Ok(()) => Ok(()),
            Err(_write) => Err(Refusal::Memory),
        }
    }

    /// The step says this, in place of whatever it said before.
    pub fn say(&mut self, channel: u16, output: &[u8]) -> Result<(), Refusal>
        ensures { SaysPost result channel output.now self.old self.new }
    {
        check_value(output)?;
        let output = copy_of(self.alloc, output)?;
        self.step.said = Some((channel, output));
        Ok(())
    }

    /// Lets go of the step that is being written.
    pub fn clear(&mut self)
        ensures { self.new ≡ record self.old { step = no_step } }
    {
        self.step.looked.clear();
        self.step.written.clear();
        self.step.said = None;
    }

    /// Takes the step that was written, of which nothing is left then. Without memory it is as it was.
    pub fn take(&mut self) -> Result<(), Refusal>
        ensures { StepPost result self.old self.new }
    {
        self.kernel.take(&mut self.step)
    }

    /// Draws the next guess with the step that was written, of which nothing is left then, and keeps its token. After a refusal
    /// the step is as it was.
    pub fn guess(&mut self) -> Result<GuessId, Refusal>
        ensures { GuessPost result self.old self.new }
    {
        self.kernel.next_guess()?;
        if self.tokens.reserve(1).is_err() {
            return Err(Refusal::Memory);
        }
        let token = self.kernel.guess(&mut self.step)?;
        let id = token.id();
        self.tokens.push_reserved(token);
        Ok(id)
    }

    /// Commits a guess, by its token; `None` where nothing is known of it.
    pub fn commit(&mut self, guess: u64) -> Option<Committed>
        ensures { CommitsBy result guess self.old self.new }
    {
        let place = place_of(self.tokens.as_slice(), guess)?;
        let token = self.tokens.remove(place);
        match self.kernel.commit(token) {
            Ok(committed) => Some(committed),
            Err(_stranger) => unreachable!(),
        }
    }

    /// Fails a guess, by its token; `None` where nothing is known of it. This takes no memory.
    pub fn fail(&mut self, guess: u64) -> Option<Unmade>
        ensures { FailsBy result guess self.old self.new }
    {
        let place = place_of(self.tokens.as_slice(), guess)?;
        let token = self.tokens.remove(place);
        match self.kernel.fail(token) {
            Ok(unmade) => Some(unmade),
            Err(_stranger) => unreachable!(),
        }
    }

    /// Takes the next output out of a channel, if it depends on nothing, and keeps it until it is handed over; nothing, where one
    /// of the channel is kept.
    pub fn bring(&mut self, channel: u16) -> Result<(), AllocError>
        ensures brings { OnOk result (MayBring self.old channel self.new) }
        ensures none { OnOk result
            (first_of channel self.new.out ≡ None
            → released (said_at self.new.kernel.parts.said channel) ≡ []) }
        ensures err { OnErr result (self.new ≡ self.old) }
    {
        if first_of(self.out.as_slice(), channel).is_some() {
            return Ok(());
        }
        self.out.reserve(1)?;
        if let Some(bytes) = self.kernel.released(channel) {
            self.out.push_reserved(Output { channel, bytes });
        }
        Ok(())
    }

    /// The output of a channel that is to be handed over.
    pub fn output(&self, channel: u16) -> Option<&[u8]>
        ensures { option_map (λ s. s.now) result ≡ first_of channel self.now.out }
    {
        first_of(self.out.as_slice(), channel)
    }

    /// The output of a channel was handed over: lets go of it.
    pub fn handed_over(&mut self, channel: u16)
        ensures { self.new ≡ record self.old { out = but_first channel self.old.out } }
    {
        drop_first(&mut self.out, channel);
    }
}

/// The guesses that are left fail, the newest first.
impl Drop for Held {
    fn drop(self) {
        let Held {
            alloc: _,
            mut kernel,
            mut tokens,
            step: _step,
            out: _out,
        } = self;
        while let Some(token) = tokens.pop() {
            match kernel.fail(token) {
                Ok(_) => {}
                Err(_stranger) => unreachable!(),
            }
        }
        tokens.destroy_empty();
    }
}
