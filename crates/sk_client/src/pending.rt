//! Requests without a reply, and kept answers.
ghost use Rattle.std.specs.Prelude.{◌≡◌, ◌∷◌, [], ◌&&◌, ◌==◌, bytes_eq};
ghost use Rattle.sk_server.specs.Lent.{ask_in, request_in};
ghost use Rattle.sk_server.specs.Verdict.{asked_name};
ghost use Rattle.sk_client.specs.Desk.{is_asked, asked_count, sent};
ghost use Rattle.sk_client.specs.Pending.{ask_of};

use sk_ids::{GuessId, Name, Pid, TagSet, Text};
use sk_script::Input;
use sk_server::{Ask, AskRef, Request, RequestRef};
use std::marker::Model;

/// What is asked of a file, with the bytes of a store in a box.
#[derive(Drop)]
pub(crate) enum BoxedAsk {
    Get(Name),
    Check(Name, u64),
    Store(Name, u64, Box<Text>),
}

/// A request without a reply.
#[derive(Drop)]
pub(crate) struct BoxedRequest {
    /// Its number, from 1 in the order in which requests are made.
    pub(crate) number: u64,
    pub(crate) process: Pid,
    pub(crate) ask: BoxedAsk,
    /// The guess that its reply decides; `None` where the process waits for the reply.
    pub(crate) guess: Option<GuessId>,
    /// The guesses that were undecided when it was made, and on which it depends, its own apart.
    pub(crate) rests: TagSet,
    /// Every guess below this number was decided when it was made.
    pub(crate) settled: u64,
}

impl Model for BoxedRequest {
    ghost use Rattle.sk_client.specs.Pending.{PendingRequest, request_code, ask_of};

    ghost Value = { PendingRequest };

    ghost coded = { request_code };

    ghost view = { λ r. record {
      number = r.number;
      process = r.process;
      ask = ask_of r.ask;
      guess = r.guess;
      rests = r.rests;
      settled = r.settled;
    } };
}

/// An answer of the server that a process gets when it asks again.
#[derive(Clone, Copy, Debug)]
pub struct KeptAnswer {
    pub process: Pid,
    pub input: Input,
}

impl BoxedAsk {
    /// The name of the file that is asked about.
    pub(crate) fn name(&self) -> &Name
        ensures { result.now ≡ asked_name (ask_of self.now) }
    {
        match self {
            BoxedAsk::Get(name) | BoxedAsk::Check(name, _) | BoxedAsk::Store(name, _, _) => name,
        }
    }

    /// Lends it.
    fn lent(&self) -> AskRef<'_>
        ensures { ask_in result ≡ ask_of self.now }
    {
        match self {
            BoxedAsk::Get(name) => AskRef::Get(name),
            BoxedAsk::Check(name, version) => AskRef::Check(name, *version),
            BoxedAsk::Store(name, version, bytes) => AskRef::Store(name, *version, bytes),
        }
    }

    /// What is asked, in a copy that can be sent.
    fn sent(&self) -> Ask
        ensures { result ≡ ask_of self.now }
    {
        match self {
            BoxedAsk::Get(name) => Ask::Get(*name),
            BoxedAsk::Check(name, version) => Ask::Check(*name, *version),
            BoxedAsk::Store(name, version, bytes) => Ask::Store(*name, *version, **bytes),
        }
    }
}

impl BoxedRequest {
    /// Whether the process waits for the reply.
    pub(crate) fn is_asked(&self) -> bool
        ensures { result ≡ is_asked self.now }
    {
        self.guess.is_none()
    }

    /// How many places of the trace are kept for the step of it.
    pub(crate) fn places(&self) -> usize
        ensures { result ≡ asked_count (self.now ∷ []) }
    {
        if self.is_asked() { 1 } else { 0 }
    }

    /// Whether this process waits for the reply.
    pub(crate) fn asks_for(&self, pid: Pid) -> bool
        ensures { result ≡ (is_asked self.now && (self.now.process == pid)) }
    {
        self.is_asked() && self.process == pid
    }

    /// Whether a process waits for a reply on this name.
    pub(crate) fn asks_on(&self, name: &Name) -> bool
        ensures { result ≡ (is_asked self.now && bytes_eq (asked_name self.now.ask) name.now) }
    {
        self.is_asked() && self.ask.name() == name
    }

    /// What is asked.
    pub(crate) fn ask(&self) -> AskRef<'_>
        ensures { ask_in result ≡ self.now.ask }
    {
        self.ask.lent()
    }

    /// Lends it as it would be sent, with what it asks.
    pub(crate) fn lent_with<'a>(&'a self, ask: AskRef<'a>) -> RequestRef<'a>
        ensures { request_in result ≡ record (sent self.now) { ask = ask_in ask.entry } }
    {
        RequestRef {
            number: self.number,
            rests: &self.rests,
            settled: self.settled,
            guess: self.guess,
            ask,
        }
    }

    /// A copy of the request that can be sent, with these guesses as what it depends on.
    pub(crate) fn sent(&self, rests: TagSet) -> Request
        requires { rests ≡ self.now.rests }
        ensures { result ≡ sent self.now }
    {
        Request {
            number: self.number,
            rests,
            settled: self.settled,
            guess: self.guess,
            ask: self.ask.sent(),
        }
    }
}
