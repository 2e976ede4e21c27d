//! The store.
ghost use Rattle.std.specs.Prelude.{◌≡◌, ◌+◌, [], true, false, length, option_map, None};
ghost use Rattle.sk_durable.specs.Base.{option_copied, look_at, bytes_cmp, next_payload, cut_due, in_flight, undecided};
ghost use Rattle.sk_durable.specs.Base.{error_text, words_of, Failed, Synced, Unknown, names_reserved, channel_at};
ghost use Rattle.sk_durable.specs.Limits.{are_sound};
ghost use Rattle.sk_durable.specs.Posts.{AnswerPost, BringAnswersPost, BringPost, ConnectPost, CutFramePost, CutPost, DecidePost, FeedAheadPost, FeedPost, FramePost, HangUpPost, LearnPost, LetGoPost, OutputPost, PosedPost, ReadyPost, RefusedPost, RestorePost, TakePost, TellPost, TryPost, TurnPost, end_of, is_at_limit, moved};
ghost use Rattle.sk_durable.specs.Works.{CarryPost};
ghost use Rattle.sk_durable.specs.Store.{asked_at, first_answer, has_refusals, is_closed, queued, rests_on_at, IsNew};

use crate::asked::{UNKNOWN, text, too_long, work_of};
use crate::works::{Asker, Batches, NOBODY, WorkStep, carry_out, restore};
use crate::{Limits, NotDone, Refusal};
use sk_batched::{Batched, Outcome};
use sk_batches::{Cut, Places, Sealed};
use sk_channels::table::CHANNEL_LIMIT;
use sk_channels::{Ask, Asked, Channel, Channels};
use sk_commands::{ByteString, Work};
use sk_log::{HEAD, seal};
use sk_speculator::Step;
use std::alloc::Global;
use std::marker::Model;

/// What came of bytes.
#[derive(Clone, Copy, Debug, PartialEq, Eq)]
pub struct Fed {
    /// How many were taken, from the front.
    pub count: usize,
    /// What became of the request that they end.
    pub end: End,
}

/// What became of a request.
#[derive(Clone, Copy, Debug, PartialEq, Eq)]
pub enum End {
    /// The bytes end none that asks for something.
    Part,
    /// It was carried out, or an error is its answer.
    Done,
    /// The host is asked what its reply is (`Store::asked`): no byte of its channel is taken until it told (`Store::tell`).
    Asked,
    /// Nothing of it was done: its ticket is told so in its turn.
    NotDone(NotDone),
}

/// What became of bytes that end no request that is carried out.
fn end_of(is_posed: bool) -> End
    ensures { result ≡ end_of is_posed }
{
    if is_posed { End::Asked } else { End::Part }
}

/// Where a log goes on: the numbers of the next frame and of its segment, and its place there.
#[derive(Clone, Copy, Debug, PartialEq, Eq)]
pub struct Next {
    pub frame: u64,
    pub segment: u64,
    pub offset: u64,
}

/// What `output` tells: how many bytes were moved out; or `Memory`, where none was since there was no memory to bring some.
fn moved(brought: Result<(), Refusal>, count: usize) -> Result<usize, Refusal>
    ensures { result ≡ moved brought count }
{
    match brought {
        Err(Refusal::Memory) if count == 0 => Err(Refusal::Memory),
        _ => Ok(count),
    }
}

/// A store whose replies wait for exactly what they depend on.
#[derive(Drop)]
pub struct Store {
    alloc: Global,
    limits: Limits,
    batched: Batches,
    /// The buffers of the next step, empty between calls.
    step: WorkStep,
    channels: Channels,
    places: Places,
    /// The answer of what was carried out last, where it is looked at ahead.
    ahead: Option<ByteString>,
    /// Only channels from this number on may have tickets that are told that nothing was done, and no answer before them.
    unswept: u16,
}

impl Model for Store {
    ghost use Rattle.sk_durable.specs.Store.{HavePasts, StoreView};
    ghost use Rattle.std.specs.Prelude.{◌≡◌, true};
    ghost use Rattle.sk_batched.specs.Batched.{IsEmpty};
    ghost use Rattle.sk_durable.specs.Limits.{are_sound};

    ghost Value = { StoreView };

    ghost view = { λ s. record {
      limits = s.limits;
      batched = s.batched;
      channels = s.channels;
      places = s.places;
      ahead = s.ahead;
    } };

    ghost invariant = { λ s. IsEmpty s.step × (are_sound s.limits ≡ true)
        × HavePasts s.limits.requests s.channels };
}

impl Store {
    /// No key is there, no channel is connected, and nothing has happened, in the kernel of this number. A seed that users of the
    /// keys don't know keeps them from choosing keys that are found slowly.
    pub fn new(alloc: Global, limits: Limits, number: u64, next: Next, seed: u64) -> Store
        requires { are_sound limits ≡ true }
        ensures new { IsNew limits next [] result }
        ensures number { result.batched.kernel.parts.guesses.kernel ≡ number }
    {
        Store {
            alloc,
            limits,
            batched: Batched::new(
                alloc,
                number,
                limits.in_flight,
                limits.undecided,
                next.frame,
                seed,
            ),
            step: Step::new(alloc),
            channels: Channels::new(alloc),
            places: Places::new(limits.segment, next.segment, next.offset),
            ahead: None,
            unswept: 0,
        }
    }

    /// Carries out work that is in the log already, before anything else is asked for. After a refusal nothing has changed.
    pub fn restore(&mut self, work: Work) -> Result<(), NotDone>
        requires { names_reserved work ≡ false }
        ensures { RestorePost work result self.old self.new }
    {
        restore(self.alloc, &mut self.batched, &mut self.step, NOBODY, work)
    }

    // ---- channels

    /// A channel more, with a number that no other has.
    pub fn connect(&mut self) -> Result<u16, Refusal>
        ensures { ConnectPost result self.old self.new }
    {
        let channel = Channel::new(self.alloc, self.limits.requests, self.limits.waiting);
        Ok(self.channels.connect(channel)?)
    }

    /// A channel is gone: its replies are dropped, its writes stand. Its number is given again once no answer of it is left.
    pub fn hang_up(&mut self, channel: u16)
        ensures { HangUpPost channel self.old self.new }
    {
        self.channels.hang_up(channel);
        self.let_go(channel);
    }

    /// Drops the answers that may go out of a channel that was hung up, and frees its number once it has none.
    fn let_go(&mut self, channel: u16)
        requires { channel_at self.old.channels channel ≡ None }
        ensures { LetGoPost channel self.old self.new }
    {
        while self.batched.released(channel).is_some() {}
        if self.batched.kernel().first(channel).is_none() {
            self.channels.release(channel);
        }
    }

    /// Whether a fault was told on a channel: what comes is dropped, and it is to be hung up once its output is taken.
    pub fn is_closed(&mut self, channel: u16) -> bool
        ensures closed { result ≡ is_closed (channel_at self.old.channels channel) }
        ensures same { self.new ≡ self.old }
    {
        match self.channels.channel(channel) {
            Some(channel) => channel.is_closed(),
            None => false,
        }
    }

    /// How many bytes the commands take that wait for EXEC on a channel, at most four times as many as a request may have; none
    /// where no queue is open.
    pub fn queued(&self, channel: u16) -> usize
        ensures { result ≡ queued (channel_at self.now.channels channel) }
    {
        match self.channels.get(channel) {
            Some(channel) => channel.queued(),
            None => 0,
        }
    }

    // ---- the way in

    /// Takes bytes that came on a channel, from the front, up to the end of a request, which is carried out, or all.
    /// `DecisionDue` where a batch was cut off and `decide` has not told so yet: what depends on it must not be logged. `Full`
    /// where as many bytes are undecided as may be, or as many commands wait for their answers. After a refusal nothing has
    /// changed.
    pub fn feed(&mut self, channel: u16, bytes: &[u8]) -> Result<Fed, Refusal>
        ensures { FeedPost channel bytes.now result self.old self.new }
    {
        self.take(channel, bytes, false)
    }

    /// As `feed`; and where a request was carried out, `ahead` has its answer, as it is under the guesses that it depends on.
    pub fn feed_ahead(&mut self, channel: u16, bytes: &[u8]) -> Result<Fed, Refusal>
        ensures { FeedAheadPost channel bytes.now result self.old self.new }
    {
        self.ahead = None;
        self.take(channel, bytes, true)
    }

    /// The text of the answer to the request that the last `feed_ahead` carried out, which goes out in its turn, unless nothing
    /// of it is done; `None` where none was.
    pub fn ahead(&self) -> Option<&[u8]>
        ensures { option_map (λ s. s.now) result ≡ self.now.ahead }
    {
        match self.ahead.as_ref() {
            Some(text) => Some(text.as_slice()),
            None => None,
        }
    }

    fn take(&mut self, channel: u16, bytes: &[u8], looks: bool) -> Result<Fed, Refusal>
        ensures { TakePost looks channel bytes.now result self.old self.new }
    {
        if self.batched.queue().has_refused() {
            return Err(Refusal::DecisionDue);
        }
        if self.is_at_limit() {
            return Err(Refusal::Full);
        }
        let Some(from) = self.channels.channel(channel) else {
            return Err(Refusal::NoChannel);
        };
        let sk_channels::Fed { count, asked } = from.feed(bytes)?;
        let Some(Asked { ticket, ask }) = asked else {
            let end = end_of(from.is_posed());
            return Ok(Fed { count, end });
        };
        let end = self.answer(Asker { channel, ticket }, ask, looks);
        Ok(Fed { count, end })
    }

    /// Whether as many bytes are undecided as may be, or as many commands wait for their answers to be told.
    fn is_at_limit(&self) -> bool
        ensures { result ≡ is_at_limit self.now }
    {
        self.undecided() >= self.limits.undecided as usize
            || self.batched.kernel().outputs() >= self.limits.commands as usize
    }

    /// Carries out what was asked for; where a key is too long an error is the answer.
    fn answer(&mut self, asker: Asker, ask: Ask, looks: bool) -> End
        ensures { AnswerPost looks asker ask result self.old self.new }
    {
        match self.try_to_answer(asker, ask, looks) {
            Ok(ahead) => {
                self.ahead = ahead;
                End::Done
            }
            Err(why) => {
                self.unswept = self.unswept.min(asker.channel);
                End::NotDone(why)
            }
        }
    }

    fn try_to_answer(
        &mut self,
        asker: Asker,
        ask: Ask,
        looks: bool,
    ) -> Result<Option<ByteString>, NotDone>
        ensures { TryPost looks asker ask result self.old self.new }
    {
        let work = work_of(self.alloc, ask)?;
        match self.carry_out(asker, work, looks) {
            Err(NotDone::LongKey) => {
                let error = too_long(self.alloc)?;
                self.carry_out(asker, error, looks)
            }
            done => done,
        }
    }

    fn carry_out(
        &mut self,
        asker: Asker,
        work: Work,
        looks: bool,
    ) -> Result<Option<ByteString>, NotDone>
        requires { names_reserved work ≡ false }
        ensures post { CarryPost looks asker work result self.old.batched self.new.batched }
        ensures rest { self.new ≡ record self.old { batched = self.new.batched } }
    {
        carry_out(
            self.alloc,
            &mut self.batched,
            &mut self.step,
            asker,
            work,
            looks,
        )
    }

    // ---- what the host is asked

    /// A word of the request that the host is asked on a channel, by its place: the first names no command. `None` past the last,
    /// and where the host is not asked.
    pub fn asked(&self, channel: u16, place: usize) -> Option<&[u8]>
        ensures { option_map (λ s. s.now) result
            ≡ asked_at place (channel_at self.now.channels channel) }
    {
        self.channels.get(channel)?.word(place)
    }

    /// The ticket of the request that the host is asked on a channel.
    fn posed_ticket(&self, channel: u16) -> Result<u64, Refusal>
        ensures { PosedPost channel result self.now }
    {
        let Some(from) = self.channels.get(channel) else {
            return Err(Refusal::NoChannel);
        };
        match from.posed_ticket() {
            Some(ticket) => Ok(ticket),
            None => Err(Refusal::NoTicket),
        }
    }

    /// The host tells the reply to what it is asked on a channel: these bytes, as they are, which go out in their turn.
    /// `NoTicket` where it is not asked. After a refusal nothing has changed but that, without memory, the guess of the open
    /// batch may be drawn.
    pub fn tell(&mut self, channel: u16, reply: &[u8]) -> Result<(), Refusal>
        ensures { TellPost channel reply.now result self.old self.new }
    {
        let is_due = self.batched.queue().has_refused();
        if is_due {
            return Err(Refusal::DecisionDue);
        }
        let ticket = self.posed_ticket(channel)?;
        let work = text(self.alloc, reply)?;
        let done = self.carry_out(Asker { channel, ticket }, work, false);
        if done.is_err() {
            return Err(Refusal::Memory);
        }
        let Some(to) = self.channels.channel(channel) else {
            unreachable!();
        };
        to.tell();
        Ok(())
    }

    /// The host tells that it knows no such command, in the words that clients know.
    pub fn tell_unknown(&mut self, channel: u16) -> Result<(), Refusal>
        ensures { TellPost channel (error_text (words_of Unknown)) result self.old self.new }
    {
        self.tell(channel, UNKNOWN)
    }

    // ---- the way out

    /// A channel that `output` has something for: an answer that may go out, or tickets of which nothing was done.
    pub fn next_ready(&mut self) -> Option<u16>
        ensures { ReadyPost result self.old self.new }
    {
        while let Some(channel) = self.batched.kernel().next_channel() {
            if let Some(_connected) = self.channels.channel(channel) {
                return Some(channel);
            }
            self.let_go(channel);
        }
        self.next_refused()
    }

    /// The next channel with tickets that are told that nothing was done. What was hung up on the way is freed.
    fn next_refused(&mut self) -> Option<u16>
        ensures { RefusedPost result self.old self.new }
    {
        for channel in self.unswept..CHANNEL_LIMIT as u16 {
            self.unswept = channel + 1;
            if self.has_refusals(channel) {
                return Some(channel);
            }
            if self.channels.is_hung_up(channel) {
                self.let_go(channel);
            }
        }
        None
    }

    /// The ticket of the first answer of a channel, whether it waits or not.
    fn first_ticket(&self, channel: u16) -> Option<u64>
        ensures { result ≡ option_map (λ told. told.0) (first_answer self.now channel) }
    {
        match self.batched.kernel().first(channel) {
            Some(answer) => Some(answer.ticket()),
            None => None,
        }
    }

    /// Whether tickets before the first answer, or all that are left where there is none, were told nothing.
    fn has_refusals(&mut self, channel: u16) -> bool
        ensures refusals { result ≡ has_refusals (channel_at self.old.channels channel)
            (first_answer self.old channel) }
        ensures same { self.new ≡ self.old }
    {
        let first = self.first_ticket(channel);
        match self.channels.channel(channel) {
            Some(to) => to.next_told() < first.unwrap_or(to.next_given()),
            None => false,
        }
    }

    /// Moves bytes that may go out on a channel into the front of the room, and says how many: answers that depend on nothing,
    /// and refusals of what was not done, in the order of their tickets. It is to be called until it says 0. Nothing is lost
    /// without memory, which is told where no byte was moved.
    pub fn output(&mut self, channel: u16, room: &mut [u8]) -> Result<usize, Refusal>
        ensures { OutputPost channel result room.old room.new self.old self.new }
    {
        let brought = self.bring(channel);
        let Some(to) = self.channels.channel(channel) else {
            return Err(Refusal::NoChannel);
        };
        let count = to.output(room);
        moved(brought, count)
    }

    /// Tells the tickets of a channel all that they may be told.
    fn bring(&mut self, channel: u16) -> Result<(), Refusal>
        ensures { BringPost channel result self.old self.new }
    {
        self.bring_answers(channel)?;
        let first = self.first_ticket(channel);
        let Some(to) = self.channels.channel(channel) else {
            return Err(Refusal::NoChannel);
        };
        to.refuse_up_to(first.unwrap_or(to.next_given()))?;
        Ok(())
    }

    /// Tells the answers that may go out to their tickets. Each is taken out once it was told.
    fn bring_answers(&mut self, channel: u16) -> Result<(), Refusal>
        ensures { BringAnswersPost channel result self.old self.new }
    {
        while let Some(told) = self.batched.kernel().next_output(channel) {
            let Some(to) = self.channels.channel(channel) else {
                return Err(Refusal::NoChannel);
            };
            let text = told.answer().text(self.alloc)?;
            to.reply(told.ticket(), text.as_slice())?;
            let _told = self.batched.released(channel);
        }
        Ok(())
    }

    // ---- the log

    /// Takes the next frame whole into a room, and says where it is to be written. `Full` where it has no room in its segment
    /// (`turn`). After a refusal nothing has changed but that, without memory, the guess of the open batch may be drawn.
    pub fn take_frame(&mut self, room: &mut [u8]) -> Result<Sealed, sk_batches::Refusal>
        ensures { FramePost result room.old room.new self.old self.new }
    {
        self.batched.take_frame(&mut self.places, room)
    }

    /// The log goes on at the front of the next segment.
    pub fn turn(&mut self) -> Result<(), sk_batches::Refusal>
        ensures { TurnPost result self.old self.new }
    {
        self.places.turn(false)
    }

    /// Drops what decisions of many keys left of old values, of at most so many keys, and answers of how many there are still
    /// some. Nothing that is seen changes.
    pub fn free(&mut self, most: usize) -> usize
        ensures { self.new ≡ self.old }
    {
        self.batched.let_go(most)
    }

    /// The host says that a frame is synced. It is decided once all before it are.
    pub fn synced(&mut self, frame: u64) -> Result<(), sk_batches::Refusal>
        ensures { LearnPost Synced frame result self.old self.new }
    {
        self.batched.synced(frame)
    }

    /// The host says that a frame failed. Nothing is decided past it.
    pub fn failed(&mut self, frame: u64) -> Result<(), sk_batches::Refusal>
        ensures { LearnPost Failed frame result self.old self.new }
    {
        self.batched.failed(frame)
    }

    /// The cut that is to be made: once a frame failed, and all that were sent were told of.
    pub fn cut_due(&self) -> Option<Cut>
        ensures { result ≡ cut_due self.now.batched.queue }
    {
        self.batched.cut_due()
    }

    /// Writes the frame that makes the cut that is due into a room, and says where it is to be written: at the front of the next
    /// segment. Once that is synced the cut is made.
    pub fn cut_frame(&self, room: &mut [u8]) -> Result<Sealed, sk_batches::Refusal>
        ensures { CutFramePost result room.old room.new self.now }
    {
        let Some(cut) = self.cut_due() else {
            return Err(sk_batches::Refusal::NoCut);
        };
        let Some(segment) = self.places.next_segment() else {
            return Err(sk_batches::Refusal::NoNumber);
        };
        if room.len() < HEAD {
            return Err(sk_batches::Refusal::Short);
        }
        seal(&mut room[..HEAD], segment, cut.frame);
        Ok(Sealed {
            frame: cut.frame,
            segment,
            offset: 0,
            len: HEAD,
        })
    }

    /// The host says whether the cut that is due was made. If not, the store stops: nothing is written or decided any more.
    pub fn cut(&mut self, made: bool) -> Result<(), sk_batches::Refusal>
        ensures { CutPost made result self.old self.new }
    {
        if made && self.places.next_segment().is_none() {
            return Err(sk_batches::Refusal::NoNumber);
        }
        self.batched.cut(made)?;
        if made {
            self.places.turn(true)?;
        }
        Ok(())
    }

    /// The oldest batch, if it is decided: it is let go of, and what depends on it may go out, or is taken back. This takes no
    /// memory, and is to be called until it says `None`.
    pub fn decide(&mut self) -> Option<Outcome>
        ensures { DecidePost result self.old self.new }
    {
        let outcome = self.batched.decide();
        if let Some(Outcome::Refused { .. }) = outcome {
            self.unswept = 0;
        }
        outcome
    }

    // ---- counts

    /// How many bytes are undecided.
    pub fn undecided(&self) -> usize
        ensures { result ≡ undecided self.now.batched.queue }
    {
        self.batched.queue().undecided()
    }

    /// How many bytes the next frame has, whole.
    pub fn next_frame_len(&self) -> usize
        ensures { result ≡ 24 + length (next_payload self.now.batched.queue) }
    {
        self.batched.queue().next_frame_len()
    }

    /// How many frames were sent and are not decided.
    pub fn in_flight(&self) -> u64
        ensures { result ≡ in_flight self.now.batched.queue }
    {
        self.batched.queue().in_flight()
    }

    /// How many batches are undecided and have a guess, the open one among them where it has.
    pub fn open_batches(&self) -> usize
        ensures { result ≡ length self.now.batched.kernel.parts.opens }
    {
        self.batched.kernel().undecided()
    }

    /// How many commands wait for their answers to be told.
    pub fn answers(&self) -> usize
        ensures { result ≡ length self.now.batched.kernel.parts.said }
    {
        self.batched.kernel().outputs()
    }

    /// What a key has now, whatever it depends on; `None` where it is absent.
    pub fn value(&self, key: &[u8]) -> Option<&ByteString>
        ensures { option_copied result
            ≡ look_at bytes_cmp self.now.batched.kernel.parts.slots key.now }
    {
        self.batched.kernel().value(key)
    }

    /// The batch at a place among the undecided ones that a key depends on, by rising number; `None` past the last.
    pub fn rests_on(&self, key: &[u8], place: usize) -> Option<u64>
        ensures { result ≡ rests_on_at key.now place self.now }
    {
        let batch = self.batched.kernel().tags_of(key).ids().get(place)?;
        Some(batch.number())
    }
}
