//! The works that a payload says.
ghost use Rattle.std.specs.Prelude.{◌≡◌, ◌<◌, ◌≤◌, ℕ, List, flat_map, length, map, IfErr, OnOk};
ghost use Rattle.sk_commands.specs.declared.work.Work.{Work};
ghost use Rattle.sk_commands.specs.Requests.{log_text, requests_of, AreAsked, AreWithin};
ghost use Rattle.sk_replay.specs.Works.{log_limits, refused_at, HasCome, IsAgain, IsRead, IsRefused};

use crate::Refusal;
use crate::channel::Channel;
use sk_commands::Work;
use sk_requests::{Found, Limits, Reader, Refusal as ReaderRefusal};
use std::alloc::Global;

/// How far a payload is read.
#[derive(Drop)]
struct Reading {
    reader: Reader,
    channel: Channel,
    place: usize,
}

/// What a refusal of the reader is, behind so many bytes.
fn refused_at(place: usize, refusal: ReaderRefusal) -> Refusal
    ensures { result ≡ refused_at place refusal }
{
    match refusal {
        ReaderRefusal::Fault(fault) => Refusal::Request(fault, place),
        ReaderRefusal::Memory => Refusal::Memory,
    }
}

impl Reading {
    /// Nothing is read. A request may be larger than any that a frame has room for.
    fn new(alloc: Global) -> Reading
        ensures { (payload : List ℕ) → HasCome payload result }
    {
        let limits = Limits {
            words: 1 << 31,
            bytes: 1 << 62,
            line: 64,
        };
        Reading {
            reader: Reader::new(alloc, limits),
            channel: Channel::new(alloc),
            place: 0,
        }
    }

    /// Reads on, up to the end of a line or of a word.
    fn step(&mut self, payload: &[u8]) -> Result<(), Refusal>
        requires come { HasCome payload.now self.old }
        requires more { self.old.place < length payload.now }
        ensures ok { OnOk result (HasCome payload.now self.new) }
        ensures on { OnOk result (self.old.place < self.new.place) }
        ensures err { IfErr result (λ refusal. IsRefused log_limits payload.now refusal) }
    {
        let taken = match self.reader.take(&payload[self.place..]) {
            Ok(taken) => taken,
            Err(refusal) => return Err(refused_at(self.place, refusal)),
        };
        self.place += taken.count;
        match taken.found {
            Found::Part => Ok(()),
            Found::Request(words) => self.channel.take(words, self.place),
            Found::TooLarge => Err(Refusal::TooLarge(self.place)),
        }
    }

    /// The works, once all of the payload is read; `Cut` where it ends within a request.
    fn end(self, payload: &[u8]) -> Result<Vec<Work>, Refusal>
        requires come { HasCome payload.now self }
        requires all { length payload.now ≤ self.place }
        ensures { IsRead log_limits payload.now result }
    {
        if self.reader.is_inside() {
            return Err(Refusal::Cut);
        }
        if self.channel.is_open() {
            return Err(Refusal::Open);
        }
        Ok(self.channel.into_works())
    }
}

/// The works of a payload, where it is the bytes that a log keeps of works, one behind another.
pub fn works_of(alloc: Global, payload: &[u8]) -> Result<Vec<Work>, Refusal>
    ensures read { IsRead log_limits payload.now result }
    ensures again { (works : List Work) → AreAsked works
        → AreWithin log_limits (flat_map requests_of works)
        → payload.now ≡ flat_map log_text works → IsAgain works result }
{
    read(alloc, payload)
}

/// The works that a payload says, or the first refusal on the way.
fn read(alloc: Global, payload: &[u8]) -> Result<Vec<Work>, Refusal>
    ensures { IsRead log_limits payload.now result }
{
    let mut reading = Reading::new(alloc);
    while reading.place < payload.len() {
        if let Err(refusal) = reading.step(payload) {
            return Err(refusal);
        }
    }
    reading.end(payload)
}
