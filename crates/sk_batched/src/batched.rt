//! A kernel whose guesses are batches of a queue.
ghost use Rattle.std.specs.Prelude.{◌≡◌, ◌+◌, ◌*◌, ◌≤◌, [], ◌∷◌, ◌++◌, ◌==◌, ◌&&◌, not, ℕ, true, false, is_err, None, Some, IfErr, IfOk, IfSome, OnErr, OnOk, length, map};
ghost use Rattle.sk_batched.specs.Base.{non_zero_u16_get, has, released, numbers, struck_with, said_at, bytes_cmp};
ghost use Rattle.sk_batched.specs.Base.{Commits, FailsIn, Takes, TakesOut, TellsUndone, byte_deed, CutPost, WordPost};
ghost use Rattle.sk_batched.specs.Base.{FramePost, cut_due, Synced};
ghost use Rattle.sk_batches.specs.declared.batch.Stage.TheVariants.{Failed};
ghost use Rattle.sk_batched.specs.Base.{vec_items};
ghost use Rattle.sk_batched.specs.Barred.{HasNoneBarred, StandForAll};
ghost use Rattle.sk_batched.specs.Keys.{has_reserved_key};
ghost use Rattle.sk_batched.specs.Refused.{cause_of, step_refused};
ghost use Rattle.sk_batched.specs.Batched.{capped, in_batch, is_full, is_touched, log_refused, Appends, Begins, DecidePost, IsEmpty, IsKept, IsNew, IsStill, LogPost, MayBegin, NextPost, RunsInBatch, Stays, TakePost};

use crate::checks;
use crate::refusal::{Refusal, named};
use crate::rests::{keys_on, rests_of};
use sk_batches::{Cut, Decision, Places, Queue, Sealed, may_take_frame, take_frame};
use sk_bytes::{ByteStep, Bytes, Unmade};
use sk_guesses::Guess;
use sk_reserved::batch_key;
use sk_speculator::Step;
use std::alloc::{AllocError, Global};
use std::marker::Model;
use std::num::NonZeroU16;

/// No more frames may be in flight.
pub const MOST_IN_FLIGHT: u16 = 63;

/// What became of a batch, by its number.
#[derive(Clone, Copy, Debug, PartialEq, Eq)]
pub enum Outcome {
    /// It is logged, and its guess is committed.
    Logged(u64),
    /// It was cut off, and its guess has failed, which took back so many keys: `Bytes::undone` tells them until the next step or
    /// decision.
    Refused { batch: u64, keys: usize },
}

/// A kernel over byte strings, and a queue of batches of what was run there. Each batch is a guess of the kernel.
pub struct Batched<V, O> {
    alloc: Global,
    kernel: Bytes<V, O>,
    queue: Queue,
    /// The tokens of the undecided guesses, the oldest first.
    tokens: Vec<Guess>,
    /// Whether the guess of the open batch is drawn.
    begun: bool,
}

impl<V, O> Model for Batched<V, O> {
    ghost use Rattle.sk_batched.specs.Batched.{BatchedView};
    ghost use Rattle.sk_batched.specs.InStep.{IsInStep};
    ghost use Rattle.sk_batched.specs.Barred.{HasNoneBarred};

    ghost Value = { BatchedView V O };

    ghost view = { λ b. record {
      kernel = b.kernel;
      queue = b.queue;
      begun = b.begun;
    } };

    ghost invariant = { λ b. IsInStep b.kernel.parts b.queue b.begun b.tokens.items
        × HasNoneBarred b.kernel.parts };
}

/// How many frames are in flight at most: what was asked for, but no more than may be.
fn capped(most: NonZeroU16) -> NonZeroU16
    ensures { non_zero_u16_get result ≡ capped (non_zero_u16_get most) }
{
    if most.get() <= MOST_IN_FLIGHT {
        return most;
    }
    match NonZeroU16::new(MOST_IN_FLIGHT) {
        Some(most) => most,
        None => unreachable!(),
    }
}

/// How many guesses may be undecided: those of two rows of frames, and the open batch's.
fn limit_of(most: NonZeroU16) -> NonZeroU16
    requires { non_zero_u16_get most ≤ MOST_IN_FLIGHT }
    ensures { non_zero_u16_get result ≡ 2 * non_zero_u16_get most + 1 }
{
    match NonZeroU16::new(2 * most.get() + 1) {
        Some(limit) => limit,
        None => unreachable!(),
    }
}

/// Commits an undecided guess by its token.
fn commit<V: Drop, O: Drop>(kernel: &mut Bytes<V, O>, token: Guess)
    requires own { token.kernel ≡ kernel.old.parts.guesses.kernel }
    requires undecided { has token.id (numbers kernel.old.parts.opens) ≡ true }
    requires struck { kernel.old.parts.guesses.struck ≡ [] }
    ensures { Commits bytes_cmp kernel.old.parts token.id kernel.new.parts }
{
    match kernel.commit(token) {
        Ok(_committed) => {}
        Err(_stranger) => unreachable!(),
    }
}

/// Fails an undecided guess by its token, and says how many keys this took back.
fn fail<V: Drop, O: Drop>(kernel: &mut Bytes<V, O>, token: Guess) -> usize
    requires own { token.kernel ≡ kernel.old.parts.guesses.kernel }
    requires undecided { has token.id (numbers kernel.old.parts.opens) ≡ true }
    requires struck { kernel.old.parts.guesses.struck ≡ [] }
    requires alone { struck_with token.id kernel.old.parts.opens ≡ [] }
    ensures fails { FailsIn bytes_cmp kernel.old.parts token.id kernel.new.parts }
    ensures told { TellsUndone kernel.old.parts token.id result 0 kernel.new.undone }
{
    match kernel.fail(token) {
        Ok(Unmade::Done { keys, struck: _ }) => keys,
        Ok(Unmade::Gone) => unreachable!(),
        Err(_stranger) => unreachable!(),
    }
}

impl<V, O> Batched<V, O> {
    /// No key is there, and nothing has happened, in the kernel of this number. So many frames may be in flight, and so many
    /// bytes undecided; the next frame has this number. A seed that users of the keys don't know keeps them from choosing keys
    /// that are found slowly.
    pub fn new(
        alloc: Global,
        number: u64,
        most: NonZeroU16,
        most_bytes: u32,
        frame: u64,
        seed: u64,
    ) -> Batched<V, O>
        ensures { IsNew number (non_zero_u16_get most) most_bytes frame result }
    {
        let most = capped(most);
        Batched {
            alloc,
            kernel: Bytes::new(alloc, number, limit_of(most), seed),
            queue: Queue::new(alloc, most, most_bytes, frame),
            tokens: Vec::new(alloc),
            begun: false,
        }
    }

    pub fn kernel(&self) -> &Bytes<V, O>
        ensures { result.now ≡ self.now.kernel }
    {
        &self.kernel
    }

    pub fn queue(&self) -> &Queue
        ensures { result.now ≡ self.now.queue }
    {
        &self.queue
    }

    /// The cut that is to be made: once a frame failed, and all that were sent were told of.
    pub fn cut_due(&self) -> Option<Cut>
        ensures { result ≡ cut_due self.now.queue }
    {
        self.queue.cut_due()
    }

    /// For each undecided batch a key that depends on it, where one does that is no batch's. They stand for all keys: none but
    /// those of batches depends on more, and no key is there that is a batch's, or too long.
    pub fn resting(&self) -> Result<Vec<Vec<u8>>, AllocError>
        ensures keys { IfOk result
            (λ keys. StandForAll self.now.kernel.parts (map vec_items keys.items)) }
        ensures none { HasNoneBarred self.now.kernel.parts }
    {
        keys_on(self.alloc, &self.kernel, self.tokens.as_slice())
    }

    /// Whether the open batch has no guess and none may be drawn, since as many batches are undecided as may be.
    fn is_full(&self) -> bool
        ensures { result ≡ is_full self.now }
    {
        !self.begun && usize::from(self.kernel.limit()) <= self.kernel.undecided()
    }

    /// Why a step is not logged with so many bytes, whatever memory there is.
    fn may_log(&self, step: &ByteStep<V, O>, len: usize) -> Result<(), Refusal>
        ensures ok { OnOk result (log_refused self.now step.now len ≡ None) }
        ensures err { IfErr result
            (λ why. (log_refused self.now step.now len ≡ Some why) × (cause_of why ≡ Some why)) }
        ensures step { OnOk result (step_refused step.now ≡ None) }
    {
        checks::may_take(step)?;
        if let Err(refusal) = self.queue.may_append(len) {
            return Err(named(refusal));
        }
        if self.is_full() {
            return Err(Refusal::TooMany);
        }
        Ok(())
    }
}

impl<V: Drop, O: Drop> Batched<V, O> {
    /// Takes a step that is not logged. Its buffers are empty then. After a refusal it is as it was, and nothing has changed.
    pub fn take(&mut self, step: &mut ByteStep<V, O>) -> Result<(), Refusal>
        ensures { TakePost result step.old step.new self.old self.new }
    {
        checks::may_take(step)?;
        match self.kernel.take(step) {
            Ok(()) => Ok(()),
            Err(_refusal) => Err(Refusal::Memory),
        }
    }

    /// Takes a step in the open batch, and logs it with these bytes: answers the batch's number. The step depends on the guess of
    /// the batch, which is drawn before, and its record on what it touches. After a refusal the step is as it was, and nothing
    /// has changed but that, without memory, the guess of the open batch may be drawn.
    pub fn log(&mut self, step: &mut ByteStep<V, O>, bytes: &[u8]) -> Result<u64, Refusal>
        ensures { LogPost result step.old step.new bytes.now self.old self.new }
    {
        self.may_log(step, bytes.len())?;
        let number = self.queue.number();
        if self.append(step, bytes).is_err() {
            return Err(Refusal::Memory);
        }
        match self.run(step) {
            Ok(()) => Ok(number),
            Err(AllocError) => {
                self.queue.withdraw();
                Err(Refusal::Memory)
            }
        }
    }

    /// Takes the next frame whole into a room, and says where it is to be written. The guess of each batch in it is drawn. After
    /// a refusal nothing has changed but that, without memory, the guess of the open batch may be drawn.
    pub fn take_frame(
        &mut self,
        places: &mut Places,
        room: &mut [u8],
    ) -> Result<Sealed, sk_batches::Refusal>
        ensures { NextPost result self.old places.old room.old self.new places.new room.new }
    {
        may_take_frame(&self.queue, places, room.len())?;
        if self.is_full() {
            return Err(sk_batches::Refusal::Busy);
        }
        self.begin()?;
        self.send(places, room)
    }

    /// The host says that a frame is synced. It is decided once all before it are.
    pub fn synced(&mut self, frame: u64) -> Result<(), sk_batches::Refusal>
        ensures told { WordPost Synced result frame self.old.queue self.new.queue }
        ensures rest { self.new ≡ record self.old { queue = self.new.queue } }
    {
        self.queue.synced(frame)
    }

    /// The host says that a frame failed. Nothing is decided past it.
    pub fn failed(&mut self, frame: u64) -> Result<(), sk_batches::Refusal>
        ensures told { WordPost Failed result frame self.old.queue self.new.queue }
        ensures rest { self.new ≡ record self.old { queue = self.new.queue } }
    {
        self.queue.failed(frame)
    }

    /// The host says whether the cut that is due was made. If not, the queue stops.
    pub fn cut(&mut self, made: bool) -> Result<(), sk_batches::Refusal>
        ensures told { CutPost made result self.old.queue self.new.queue }
        ensures rest { self.new ≡ record self.old { queue = self.new.queue } }
    {
        self.queue.cut(made)
    }

    /// The oldest batch, if it is decided: it is let go of, and its guess is committed or fails with it. This takes no memory.
    pub fn decide(&mut self) -> Option<Outcome>
        ensures { DecidePost result self.old self.new }
    {
        let decision = self.queue.next_decided()?;
        let token = self.tokens.remove(0);
        match decision {
            Decision::Logged(batch) => {
                commit(&mut self.kernel, token);
                Some(Outcome::Logged(batch))
            }
            Decision::Refused(batch) => {
                let keys = fail(&mut self.kernel, token);
                Some(Outcome::Refused { batch, keys })
            }
        }
    }

    /// Drops what commits of many keys left of old values, of at most so many keys, and answers of how many there are still
    /// some. Nothing that is seen changes.
    pub fn let_go(&mut self, most: usize) -> usize
        ensures { self.new ≡ self.old }
    {
        self.kernel.let_go(most)
    }

    /// The next output of a channel that depends on nothing, taken out; `None` where there is none. This takes no memory.
    pub fn released(&mut self, channel: u16) -> Option<O>
        ensures some { IfSome result
            (λ output. TakesOut self.old.kernel.parts channel output self.new.kernel.parts) }
        ensures none { result ≡ None → self.new ≡ self.old }
        ensures held { result ≡ None
            → released (said_at self.old.kernel.parts.said channel) ≡ [] }
        ensures rest { self.new ≡ record self.old { kernel = self.new.kernel } }
    {
        self.kernel.released(channel)
    }

    /// Adds a record to the open batch, which depends on what the step touches.
    fn append(&mut self, step: &ByteStep<V, O>, bytes: &[u8]) -> Result<(), AllocError>
        ensures ok { OnOk result (Appends self.old (byte_deed step.now) bytes.now self.new) }
        ensures err { OnErr result (self.new ≡ self.old) }
    {
        let rests = rests_of(self.alloc, &self.kernel, step, self.queue.number())?;
        match self.queue.append(rests.as_slice(), bytes) {
            Ok(_number) => Ok(()),
            Err(_refusal) => Err(AllocError),
        }
    }

    /// Takes a step in the open batch, whose guess is drawn where it was not.
    fn run(&mut self, step: &mut ByteStep<V, O>) -> Result<(), AllocError>
        requires { step_refused step.old ≡ None }
        ensures ok { OnOk result (RunsInBatch self.old (byte_deed step.old) self.new) }
        ensures empty { OnOk result (IsEmpty step.new) }
        ensures err { OnErr result (MayBegin self.old self.new) }
        ensures kept { OnErr result (IsKept step.old step.new) }
    {
        self.begin()?;
        self.take_in_batch(step)
    }

    /// Draws the guess of the open batch, where it is not drawn.
    fn begin(&mut self) -> Result<(), AllocError>
        ensures ok { OnOk result (Begins self.old self.new) }
        ensures err { OnErr result (Stays self.old self.new) }
    {
        if self.begun {
            return Ok(());
        }
        let mut step: ByteStep<V, O> = Step::new(self.alloc);
        let key = batch_key(self.alloc, self.queue.number())?;
        step.written.reserve(1)?;
        step.written.push_reserved((key, None));
        self.tokens.reserve(1)?;
        if self.kernel.next_guess().is_err() {
            return Err(AllocError);
        }
        match self.kernel.guess(&mut step) {
            Ok(token) => {
                self.tokens.push_reserved(token);
                self.begun = true;
                Ok(())
            }
            Err(_refusal) => Err(AllocError),
        }
    }

    /// Takes a step, which also looks at the key of the open batch.
    fn take_in_batch(&mut self, step: &mut ByteStep<V, O>) -> Result<(), AllocError>
        requires { step_refused step.old ≡ None }
        ensures ok { OnOk result
            (Takes bytes_cmp self.old.kernel.parts (in_batch self.old.queue.number (byte_deed step.old))
            None self.new.kernel.parts) }
        ensures queue { self.new.queue ≡ self.old.queue }
        ensures begun { self.new.begun ≡ self.old.begun }
        ensures empty { OnOk result (IsEmpty step.new) }
        ensures err { OnErr result (IsStill self.old.kernel self.new.kernel) }
        ensures kept { OnErr result (IsKept step.old step.new) }
    {
        let key = batch_key(self.alloc, self.queue.number())?;
        step.looked.reserve(1)?;
        step.looked.push_reserved(key);
        match self.kernel.take(step) {
            Ok(()) => Ok(()),
            Err(_refusal) => {
                step.looked.pop();
                Err(AllocError)
            }
        }
    }

    /// Takes the next frame, where the guess of the open batch is drawn.
    fn send(&mut self, places: &mut Places, room: &mut [u8]) -> Result<Sealed, sk_batches::Refusal>
        requires { self.old.begun ≡ true }
        ensures post { FramePost result self.old.queue places.old room.old self.new.queue places.new room.new }
        ensures kernel { self.new.kernel ≡ self.old.kernel }
        ensures begun { self.new.begun ≡ is_err result }
    {
        let sealed = take_frame(&mut self.queue, places, room);
        self.begun = sealed.is_err();
        sealed
    }
}

/// The guesses that are left are committed, the oldest first.
impl<V: Drop, O: Drop> Drop for Batched<V, O> {
    fn drop(self) {
        let Batched {
            alloc: _,
            mut kernel,
            queue: _queue,
            mut tokens,
            begun: _,
        } = self;
        while !tokens.is_empty() {
            commit(&mut kernel, tokens.remove(0));
        }
        tokens.destroy_empty();
    }
}
