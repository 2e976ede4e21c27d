//! What a client asks.
ghost use Rattle.std.specs.Prelude.{◌≡◌};
ghost use Rattle.sk_server.specs.Lent.{ask_in, request_in};

use sk_ids::{GuessId, Name, TagSet, Text};

/// What is asked of a file.
#[derive(Clone, Copy, Debug)]
pub enum Ask {
    /// Its content.
    Get(Name),
    /// Whether it has this version.
    Check(Name, u64),
    /// To write these bytes where it has this version.
    Store(Name, u64, Text),
}

/// A request of a client.
#[derive(Drop)]
pub struct Request {
    /// Its number, from 1 in the order in which requests are made.
    pub number: u64,
    /// The undecided guesses of the client on which it depends, its own apart.
    pub rests: TagSet,
    /// Every guess below this number is decided at the client.
    pub settled: u64,
    /// The guess that is decided by the answer.
    pub guess: Option<GuessId>,
    pub ask: Ask,
}

/// What is asked of a file, where it stands.
#[derive(Clone, Copy)]
pub enum AskRef<'a> {
    Get(&'a Name),
    Check(&'a Name, u64),
    Store(&'a Name, u64, &'a Text),
}

/// A request where it stands.
#[derive(Clone, Copy)]
pub struct RequestRef<'a> {
    pub number: u64,
    pub rests: &'a TagSet,
    pub settled: u64,
    pub guess: Option<GuessId>,
    pub ask: AskRef<'a>,
}

impl Ask {
    /// Lends it.
    pub fn lent(&self) -> AskRef<'_>
        ensures { ask_in result ≡ self.now }
    {
        match self {
            Ask::Get(name) => AskRef::Get(name),
            Ask::Check(name, version) => AskRef::Check(name, *version),
            Ask::Store(name, version, bytes) => AskRef::Store(name, *version, bytes),
        }
    }
}

impl Request {
    /// Lends it, with what it asks.
    pub fn lent_with<'a>(&'a self, ask: AskRef<'a>) -> RequestRef<'a>
        ensures { request_in result ≡ record self.now { ask = ask_in ask.entry } }
    {
        RequestRef {
            number: self.number,
            rests: &self.rests,
            settled: self.settled,
            guess: self.guess,
            ask,
        }
    }
}
