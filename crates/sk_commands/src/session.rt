//! The queue of a channel: what is to be done for each of its requests.
ghost use Rattle.std.specs.Prelude.{◌≡◌, None, Some, is_some, map, nat_le, option_map, IfOk, OnErr, OnOk};
ghost use Rattle.sk_commands.specs.Base.{vec_items, Error, Simple, Say};
ghost use Rattle.sk_commands.specs.declared.reply.Word.TheVariants as word;
ghost use Rattle.sk_commands.specs.Parsing.{order_of};
ghost use Rattle.sk_commands.specs.Session.{bytes_left, no_commands, one_more, spoilt, turn, weighed, Takes};

use crate::{Command, Commands, Fault, Order, Reply, Word, Work};
use std::alloc::{AllocError, Global};

/// Commands that wait for EXEC.
#[derive(Drop)]
pub struct Queue {
    commands: Commands,
    /// A fault was told since, so that they are not to be carried out.
    spoiled: bool,
}

impl Queue {
    /// No command waits.
    fn new(alloc: Global) -> Queue
        ensures { result ≡ no_commands }
    {
        Queue {
            commands: Commands::new(alloc),
            spoiled: false,
        }
    }

    /// One command more waits; without memory none is to be carried out.
    fn push(&mut self, command: Command) -> Result<Work, AllocError>
        ensures ok { OnOk result (self.new ≡ one_more self.old command) }
        ensures said { IfOk result (λ work. work ≡ Say (Simple word.Queued)) }
        ensures err { OnErr result (self.new ≡ spoilt self.old) }
    {
        if self.commands.push(command).is_err() {
            self.spoiled = true;
            return Err(AllocError);
        }
        Ok(said(Word::Queued))
    }
}

/// What a channel asked for between its requests: the queue that is open, if one is.
#[derive(Drop)]
pub struct Session {
    alloc: Global,
    queue: Option<Queue>,
    /// How many bytes the requests take that came since the queue was opened.
    bytes: usize,
}

/// How many bytes a word takes beside its own where it is kept.
const WORD_ROOM: usize = 64;

/// How many bytes words take where they are kept, beyond so many.
fn weighed(words: &[Vec<u8>], from: usize) -> usize
    ensures { result ≡ weighed (map vec_items words.now) from }
{
    let mut bytes = from;
    for word in words {
        bytes = bytes.saturating_add(word.len()).saturating_add(WORD_ROOM);
    }
    bytes
}

/// A word is replied.
fn said(word: Word) -> Work
    ensures { result ≡ Say (Simple word) }
{
    Work::Say(Reply::Simple(word))
}

/// A fault is replied.
fn refused(fault: Fault) -> Work
    ensures { result ≡ Say (Error fault) }
{
    Work::Say(Reply::Error(fault))
}

/// What a request comes to where no queue is open.
fn idle(alloc: Global, order: Result<Order, Fault>) -> (Option<Queue>, Work)
    ensures queue { result.0 ≡ (turn None order).queue }
    ensures work { result.1 ≡ (turn None order).work }
{
    match order {
        Ok(Order::Run(command)) => (None, Work::One(command)),
        Ok(Order::Multi) => (Some(Queue::new(alloc)), said(Word::Ok)),
        Ok(Order::Exec) => (None, refused(Fault::ExecAlone)),
        Ok(Order::Discard) => (None, refused(Fault::DiscardAlone)),
        Err(fault) => (None, refused(fault)),
    }
}

/// What a request comes to where a queue is open.
fn waiting(
    mut queue: Queue,
    order: Result<Order, Fault>,
) -> (Option<Queue>, Result<Work, AllocError>)
    ensures { Takes (Some queue) order result.1 result.0 }
{
    match order {
        Ok(Order::Run(command)) => {
            let work = queue.push(command);
            (Some(queue), work)
        }
        Ok(Order::Multi) => (Some(queue), Ok(refused(Fault::Nested))),
        Ok(Order::Exec) if queue.spoiled => (None, Ok(refused(Fault::Aborted))),
        Ok(Order::Exec) => (None, Ok(Work::Each(queue.commands))),
        Ok(Order::Discard) => (None, Ok(said(Word::Ok))),
        Err(fault) => {
            queue.spoiled = true;
            (Some(queue), Ok(refused(fault)))
        }
    }
}

impl Session {
    /// No queue is open.
    pub fn new(alloc: Global) -> Session
        ensures queue { result.queue ≡ None }
        ensures bytes { result.bytes ≡ 0 }
    {
        Session {
            alloc,
            queue: None,
            bytes: 0,
        }
    }

    /// How many bytes the requests take that came since the queue was opened; none where no queue is open.
    pub fn bytes(&self) -> usize
        ensures { result ≡ self.now.bytes }
    {
        self.bytes
    }

    /// Whether the queue takes at most so many bytes with a request of these words.
    pub fn has_room(&self, words: &[Vec<u8>], most: usize) -> bool
        ensures { result ≡ nat_le (weighed (map vec_items words.now) self.now.bytes) most }
    {
        weighed(words, self.bytes) <= most
    }

    /// If a queue is open, its commands are not to be carried out any more.
    pub fn spoil(&mut self)
        ensures queue { self.new.queue ≡ option_map spoilt self.old.queue }
        ensures bytes { self.new.bytes ≡ self.old.bytes }
    {
        if let Some(open) = self.queue.as_mut() {
            open.spoiled = true;
        }
    }

    /// Whether a queue is open.
    pub fn is_open(&self) -> bool
        ensures { result ≡ is_some self.now.queue }
    {
        self.queue.is_some()
    }

    /// What is to be done for a request of these words, none of which is copied. Only a command that is to be queued wants
    /// memory; without it the queue is not to be carried out.
    pub fn take(&mut self, words: Vec<Vec<u8>>) -> Result<Work, AllocError>
        ensures takes { Takes self.old.queue (order_of (map vec_items words.items)) result self.new.queue }
        ensures bytes { self.new.bytes ≡ bytes_left self.old.queue self.new.queue
            (map vec_items words.items) self.old.bytes }
    {
        let Some(queue) = self.queue.take() else {
            let (queue, work) = idle(self.alloc, Order::of(words));
            self.queue = queue;
            self.bytes = 0;
            return Ok(work);
        };
        let bytes = weighed(words.as_slice(), self.bytes);
        let (queue, work) = waiting(queue, Order::of(words));
        self.bytes = if queue.is_some() { bytes } else { 0 };
        self.queue = queue;
        work
    }
}
