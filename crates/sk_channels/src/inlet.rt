//! The way in: bytes that came to works with tickets.
ghost use Rattle.std.specs.Prelude.{◌≡◌, ◌+◌, ◌-◌, ◌<◌, ◌≤◌, ◌^◌, ◌++◌, ◌∷◌, ◌||◌, ℕ, true, false, List, [], Option, None, Some, is_some, map, drop, length, option_map, ◌↔◌, IsTrue};
ghost use Rattle.sk_channels.specs.Base.{vec_items, Limits, Ask, Text, Say, Do, Reject};
ghost use Rattle.sk_channels.specs.declared.rejection.Rejection.TheVariants.{QueueFull};
ghost use Rattle.sk_channels.specs.Asking.{ends_queue, is_for_host, is_over, Asks};
ghost use Rattle.sk_channels.specs.Hearing.{most_queued, posed_ticket, word_at, Feeds, Finds, HasHeard, WordsAsk};

use crate::{Refusal, Rejection};
use sk_commands::{Keys, Name, Session, Work};
use sk_requests::{Found, Limits, Reader};
use std::alloc::Global;

/// How many times the bytes that a request may have a queue may take.
const QUEUED_REQUESTS: usize = 4;

/// What is to be done for a request.
#[derive(Drop)]
pub enum Ask {
    /// This work is to be done.
    Do(Work),
    /// Nothing is to be done, and why is to be replied.
    Reject(Rejection),
}

/// What is to be done for a request, and the ticket of its reply.
#[derive(Drop)]
pub struct Asked {
    /// Tickets are 1, 2 and so on.
    pub ticket: u64,
    /// What is to be done for the request.
    pub ask: Ask,
}

/// What came of bytes.
#[derive(Drop)]
pub struct Fed {
    /// How many bytes were taken, from the front.
    pub count: usize,
    /// What is to be done, where the bytes end a request that is not the host's to answer.
    pub asked: Option<Asked>,
}

/// Bytes that came to works with tickets.
#[derive(Drop)]
pub(crate) struct Inlet {
    alloc: Global,
    reader: Reader,
    session: Session,
    /// How many bytes may wait for EXEC.
    most_queued: usize,
    /// The words of the request that the host is asked.
    posed: Option<Keys>,
    /// The next ticket to be given.
    next: u64,
    /// A fault was told: what comes is dropped.
    closed: bool,
}

/// Whether a request of these words is the host's to answer: no queue is open, and they name no command.
fn is_for_host(session: &Session, words: &[Vec<u8>]) -> bool
    ensures { result ≡ is_for_host session.now.queue (map vec_items words.now) }
{
    match words.first() {
        Some(name) => !session.is_open() && Name::of(name.as_slice()).is_none(),
        None => false,
    }
}

/// Whether words end a queue: alone EXEC, or DISCARD.
fn ends_queue(words: &[Vec<u8>]) -> bool
    ensures { result ≡ ends_queue (map vec_items words.now) }
{
    match words {
        [name] => matches!(Name::of(name.as_slice()), Some(Name::Exec | Name::Discard)),
        _ => false,
    }
}

/// Whether a queue that is open would take more bytes than may with a request of these words.
fn is_over(session: &Session, words: &[Vec<u8>], most: usize) -> bool
    ensures { result ≡ is_over session.now (map vec_items words.now) most }
{
    session.is_open() && !ends_queue(words) && !session.has_room(words, most)
}

/// What a request of these words comes to. Where a queue is open that has no room for it, it is not to be carried out.
fn ask_for(session: &mut Session, words: Vec<Vec<u8>>, most: usize) -> Ask
    ensures asks { Asks session.old.queue (Some (map vec_items words.items)) result session.new.queue }
    ensures over { result ≡ Reject QueueFull
        → is_over session.old (map vec_items words.items) most ≡ true }
    ensures within { is_over session.old (map vec_items words.items) most ≡ true
        → result ≡ Reject QueueFull }
{
    if is_over(session, words.as_slice(), most) {
        session.spoil();
        return Ask::Reject(Rejection::QueueFull);
    }
    match session.take(words) {
        Ok(work) => Ask::Do(work),
        Err(_) => Ask::Reject(Rejection::Memory),
    }
}

/// What a request beyond the limits comes to: a queue that is open is not to be carried out.
fn pass_over(session: &mut Session, alloc: Global) -> Ask
    ensures { Asks session.old.queue None result session.new.queue }
{
    let _said = session.take(Vec::new(alloc));
    Ask::Reject(Rejection::TooLarge)
}

/// Whether there is no byte.
fn has_none(bytes: &[u8]) -> bool
    ensures { IsTrue result ↔ (length bytes.now ≡ 0) }
{
    bytes.is_empty()
}

/// The bytes behind so many.
fn behind(bytes: &[u8], count: usize) -> &[u8]
    ensures { result.now ≡ drop count bytes.now }
{
    bytes.get(count..).unwrap_or(&[])
}

impl Inlet {
    /// No byte came.
    pub(crate) fn new(alloc: Global, limits: Limits) -> Inlet
        requires { 16 ≤ limits.line }
        ensures heard { HasHeard limits [] [] result }
        ensures most { result.most_queued ≡ most_queued limits }
    {
        Inlet {
            alloc,
            reader: Reader::new(alloc, limits),
            session: Session::new(alloc),
            most_queued: limits.bytes.saturating_mul(QUEUED_REQUESTS),
            posed: None,
            next: 1,
            closed: false,
        }
    }

    /// How many bytes the commands take that wait for EXEC.
    pub(crate) fn queued(&self) -> usize
        ensures { result ≡ self.now.session.bytes }
    {
        self.session.bytes()
    }

    /// The next ticket to be given.
    pub(crate) fn next(&self) -> u64
        ensures { result ≡ self.now.next }
    {
        self.next
    }

    /// Whether a fault was told.
    pub(crate) fn is_closed(&self) -> bool
        ensures { result ≡ self.now.closed }
    {
        self.closed
    }

    /// Whether the host is asked: no byte is taken until it told.
    pub(crate) fn is_posed(&self) -> bool
        ensures { result ≡ is_some self.now.posed }
    {
        self.posed.is_some()
    }

    /// A word of the request that the host is asked.
    pub(crate) fn word(&self, place: usize) -> Option<&[u8]>
        ensures { option_map (λ s. s.now) result ≡ word_at place self.now.posed }
    {
        let words = self.posed.as_ref()?;
        Some(words.as_slice().get(place)?.as_slice())
    }

    /// The ticket that the request has which the host is asked.
    pub(crate) fn posed_ticket(&self) -> Option<u64>
        ensures { result ≡ posed_ticket self.now }
    {
        if self.is_posed() && self.next < u64::MAX {
            Some(self.next)
        } else {
            None
        }
    }

    /// The host told what is to be replied, and its request has its ticket.
    pub(crate) fn tell(&mut self)
        requires posed { is_some self.old.posed ≡ true }
        requires next { self.old.next < 2 ^ 64 - 1 }
        ensures heard { (limits : Limits) (asked : List Ask) (stream text : List ℕ)
            → HasHeard limits asked stream self.old
            → HasHeard limits (asked ++ Do (Say (Text text)) ∷ []) stream self.new }
        ensures idle { self.new.posed ≡ None }
    {
        let ticket = self.next;
        self.posed = None;
        self.next = ticket + 1;
    }

    /// Gives a ticket.
    fn give(&mut self, ask: Ask) -> Asked
        requires { self.old.next < 2 ^ 64 - 1 }
        ensures asked { result ≡ record { ticket = self.old.next; ask = ask } }
        ensures next { self.new ≡ record self.old { next = self.old.next + 1 } }
    {
        let ticket = self.next;
        self.next += 1;
        Asked { ticket, ask }
    }

    /// Asks for what words say, if there are any; or asks the host.
    fn asked(&mut self, words: Vec<Vec<u8>>) -> Option<Asked>
        requires { self.old.next < 2 ^ 64 - 1 }
        ensures { WordsAsk self.old (map vec_items words.items) result self.new }
    {
        if words.is_empty() {
            return None;
        }
        if is_for_host(&self.session, words.as_slice()) {
            self.posed = Some(Keys::new(words));
            return None;
        }
        let ask = ask_for(&mut self.session, words, self.most_queued);
        Some(self.give(ask))
    }

    /// Asks for what was found, if it is a request that has words.
    fn found(&mut self, found: Found) -> Option<Asked>
        requires { self.old.next < 2 ^ 64 - 1 }
        ensures { Finds self.old found result self.new }
    {
        match found {
            Found::Part => None,
            Found::Request(words) => self.asked(words),
            Found::TooLarge => {
                let ask = pass_over(&mut self.session, self.alloc);
                Some(self.give(ask))
            }
        }
    }

    /// Takes bytes from the front: up to the end of a line, of a word or of a request, or all.
    fn step(&mut self, bytes: &[u8]) -> Result<Fed, Refusal>
        ensures { (limits : Limits) (asked : List Ask) (stream : List ℕ)
            → HasHeard limits asked stream self.old
            → Feeds (λ asked stream. HasHeard limits asked stream self.new) asked stream bytes.now
            result self.new }
    {
        if self.closed {
            return Ok(Fed {
                count: bytes.len(),
                asked: None,
            });
        }
        if self.is_posed() {
            return Ok(Fed {
                count: 0,
                asked: None,
            });
        }
        if self.next == u64::MAX {
            return Err(Refusal::NoTicket);
        }
        match self.reader.take(bytes) {
            Ok(taken) => Ok(Fed {
                count: taken.count,
                asked: self.found(taken.found),
            }),
            Err(sk_requests::Refusal::Fault(fault)) => {
                self.closed = true;
                Ok(Fed {
                    count: bytes.len(),
                    asked: Some(self.give(Ask::Reject(Rejection::Fault(fault)))),
                })
            }
            Err(sk_requests::Refusal::Memory) => Err(Refusal::Memory),
        }
    }

    /// Whether nothing is to be fed behind this: something was asked for, or the host is asked.
    fn ends(&self, fed: &Fed) -> bool
        ensures { result ≡ (is_some fed.now.asked || is_some self.now.posed) }
    {
        fed.asked.is_some() || self.is_posed()
    }

    /// Takes bytes from the front: up to the end of a request, or all; fewer where there is no memory for more, and none while
    /// the host is asked.
    pub(crate) fn feed(&mut self, bytes: &[u8]) -> Result<Fed, Refusal>
        ensures { (limits : Limits) (asked : List Ask) (stream : List ℕ)
            → HasHeard limits asked stream self.old
            → Feeds (λ asked stream. HasHeard limits asked stream self.new) asked stream bytes.now
            result self.new }
    {
        let mut rest = bytes;
        for _step in 0..bytes.len() {
            if has_none(rest) {
                return Ok(Fed {
                    count: bytes.len(),
                    asked: None,
                });
            }
            let fed = match self.step(rest) {
                Ok(fed) => fed,
                Err(refusal) if rest.len() == bytes.len() => return Err(refusal),
                Err(_) => {
                    return Ok(Fed {
                        count: bytes.len() - rest.len(),
                        asked: None,
                    });
                }
            };
            rest = behind(rest, fed.count);
            if self.ends(&fed) {
                return Ok(Fed {
                    count: bytes.len() - rest.len(),
                    asked: fed.asked,
                });
            }
        }
        Ok(Fed {
            count: bytes.len() - rest.len(),
            asked: None,
        })
    }
}
