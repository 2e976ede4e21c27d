//! The server of remote files.
ghost use Rattle.std.specs.Prelude.{◌≡◌, ◌<◌, ◌++◌, ◌∷◌, [], nat_le, length, IfOk, OnOk, OnErr, is_some, true, vec_len, vec_capacity};
ghost use Rattle.std.specs.VecDeque.{deque_capacity};
ghost use Rattle.std.specs.Option.{option_copied};
ghost use Rattle.std.specs.List.Sorted.{IsStrictlySortedBy};
ghost use Rattle.std.specs.FinMap as map;
ghost use Rattle.sk_ids.specs.Name.{name_order};
ghost use Rattle.sk_record.specs.Trace.{marks};
ghost use Rattle.sk_server.specs.Server.{new_server, is_in_turn, remembered, is_dropped, judged, answer_to, answered, adds};
ghost use Rattle.sk_server.specs.Calls.{Answers, AnswersBehind, Edits};
ghost use Rattle.sk_server.specs.Files.{file_of};
ghost use Rattle.sk_server.specs.Lent.{ask_in, request_in};
ghost use Rattle.sk_server.specs.Verdict.{said, asked_name, Decides};

use crate::files::Files;
use crate::verdict::{Verdict, refused_by};
use crate::{Answer, AskRef, Reply, Request, RequestRef};
use sk_ids::{GuessId, Name, Text};
use sk_objects::Content;
use std::alloc::{AllocError, Global};
use std::collections::VecDeque;
use std::marker::Model;
use thiserror::Error;

/// The greatest number of a request, 2^63 - 1.
pub const LAST_REQUEST: u64 = (1 << 63) - 1;

/// Why a request was not answered, in the order in which the causes are tried.
#[derive(Clone, Copy, Debug, PartialEq, Eq, Error)]
pub enum ServerRefusal {
    #[error("request {expected} is next")]
    OutOfTurn { expected: u64 },
    #[error("out of memory")]
    Memory,
}

/// Why a file was not edited, in the order in which the causes are tried.
#[derive(Clone, Copy, Debug, PartialEq, Eq, Error)]
pub enum EditRefusal {
    /// The version that the file has.
    #[error("the file has version {0}")]
    Version(u64),
    #[error("out of memory")]
    Memory,
}

/// A server of files. It answers requests by rising number, and remembers the guesses that it
/// refused as long as a request can depend on them.
#[derive(Drop)]
pub struct Server {
    files: Files,
    next: u64,
    refused: Vec<GuessId>,
}

impl Model for Server {
    ghost use Rattle.sk_server.specs.Server.{ServerView, server_code};

    ghost Value = { ServerView };

    ghost coded = { server_code };

    ghost view = { λ a. record { files = a.files; next = a.next; refused = a.refused.items } };
}

impl Server {
    /// A server without files, whose first request has number 1. This takes no memory.
    pub fn new(alloc: Global) -> Server
        ensures { result ≡ new_server }
    {
        Server {
            files: Files::new(alloc),
            next: 1,
            refused: Vec::new(alloc),
        }
    }

    /// The file of a name; `None` where it was never stored. This takes no memory.
    pub fn file(&self, name: &Name) -> Option<&Content>
        ensures { option_copied result ≡ map.get self.now.files name.now }
    {
        self.files.get(name)
    }

    /// The names of the files that were stored, by rising bytes, each once.
    pub fn names(&self) -> Result<Vec<Name>, AllocError>
        ensures names { IfOk result (λ all. all.items ≡ map.keys self.now.files) }
        ensures rising { IfOk result (λ all. IsStrictlySortedBy name_order all.items) }
    {
        self.files.names()
    }

    /// The number of the next request.
    pub fn next(&self) -> u64
        ensures { result ≡ self.now.next }
    {
        self.next
    }

    /// Sets a file before the first request. Without memory everything is as it was.
    pub fn seed(&mut self, name: Name, content: Content) -> Result<(), AllocError>
        requires { self.old.next ≡ 1 }
        ensures ok { OnOk result
            (self.new ≡ record self.old { files = map.insert self.old.files name content }) }
        ensures err { OnErr result (self.new ≡ self.old) }
        ensures absent { OnErr result (map.get self.old.files name ≡ None) }
    {
        self.files.put(name, content)
    }

    /// Answers the next request, or hands it back. Refusals: `OutOfTurn` where another number is next
    /// or the number is above 2^63 - 1; `Memory` where there is no room for a new file or for a
    /// refused guess. After a refusal everything is as it was.
    pub fn answer(&mut self, request: Request) -> Result<Reply, (Request, ServerRefusal)>
        ensures { Answers self.old request result self.new }
    {
        let ask = request.ask.lent();
        let lent = request.lent_with(ask);
        match self.decide(&lent) {
            Ok(verdict) => {
                let answer = self.answer_of(&lent.ask, verdict);
                let number = lent.number;
                Ok(Reply { number, answer })
            }
            Err(why) => Err((request, why)),
        }
    }

    /// Answers the next request where it stands, with its reply behind these others, for which there is room.
    /// Refusals are those of `answer`; there is no reply then.
    pub fn answer_behind(
        &mut self,
        request: &RequestRef<'_>,
        replies: &mut VecDeque<Reply>,
    ) -> Result<(), ServerRefusal>
        requires { length replies.old.items < deque_capacity replies.old }
        ensures { AnswersBehind self.old replies.old.items (request_in request.now) result self.new
            replies.new.items }
    {
        let verdict = self.decide(request)?;
        // Most requests are answered so, and that reply needs no content.
        if let Verdict::Yes = verdict {
            replies.push_back_reserved(Reply {
                number: request.number,
                answer: Answer::Yes,
            });
            return Ok(());
        }
        self.push_reply(request, verdict, replies);
        Ok(())
    }

    /// Puts the reply of a verdict behind these others, for which there is room. It stands apart, since a content is large.
    #[inline(never)]
    fn push_reply(&self, request: &RequestRef<'_>, verdict: Verdict, replies: &mut VecDeque<Reply>)
        requires { length replies.old.items < deque_capacity replies.old }
        ensures { replies.new.items
            ≡ replies.old.items
            ++ record {
              number = request.now.number;
              answer = said self.now.files (ask_in request.now.ask) verdict;
            } ∷ [] }
    {
        let number = request.number;
        let answer = self.answer_of(&request.ask, verdict);
        replies.push_back_reserved(Reply { number, answer });
    }

    /// Decides how the next request is answered, and does what the answer says; or refuses it.
    fn decide(&mut self, request: &RequestRef<'_>) -> Result<Verdict, ServerRefusal>
        ensures { Decides self.old (request_in request.now) result self.new }
    {
        if !self.is_in_turn(request) {
            let expected = self.next;
            return Err(ServerRefusal::OutOfTurn { expected });
        }
        let verdict = self.verdict(request);
        match self.take(request, verdict) {
            Ok(()) => Ok(verdict),
            Err(_) => Err(ServerRefusal::Memory),
        }
    }

    /// The answer of a verdict.
    fn answer_of(&self, ask: &AskRef<'_>, verdict: Verdict) -> Answer
        ensures { result ≡ said self.now.files (ask_in ask.now) verdict }
    {
        match verdict {
            Verdict::Yes => Answer::Yes,
            Verdict::No => Answer::No(self.content(ask)),
            Verdict::Copy => Answer::Copy(self.content(ask)),
            Verdict::Dropped => Answer::Dropped,
        }
    }

    /// The content of the file that is asked about.
    fn content(&self, ask: &AskRef<'_>) -> Content
        ensures { result ≡ file_of self.now.files (asked_name (ask_in ask.now)) }
    {
        match ask {
            AskRef::Get(name) | AskRef::Check(name, _) | AskRef::Store(name, _, _) => {
                self.files.content(name)
            }
        }
    }

    /// Writes a file as another client does, and answers its new version. Refusals: `Version` where
    /// the file has another version than is expected, or the last one; `Memory` where there is no room
    /// for a new file. After a refusal everything is as it was.
    pub fn edit(&mut self, name: Name, expected: u64, bytes: Text) -> Result<u64, EditRefusal>
        ensures { Edits self.old name expected bytes result self.new }
    {
        if !self.files.is_fitting(&name, expected) {
            let actual = self.files.version(&name);
            return Err(EditRefusal::Version(actual));
        }
        match self.files.write(name, expected, bytes) {
            Ok(()) => Ok(expected + 1),
            Err(_) => Err(EditRefusal::Memory),
        }
    }

    fn is_in_turn(&self, request: &RequestRef<'_>) -> bool
        ensures { result ≡ is_in_turn self.now (request_in request.now) }
    {
        request.number == self.next && request.number <= LAST_REQUEST
    }

    /// Whether a request depends on a guess that was refused and that it can still depend on.
    fn is_dropped(&self, request: &RequestRef<'_>) -> bool
        ensures { result ≡ is_dropped (request_in request.now)
            (remembered (request_in request.now) self.now.refused) }
    {
        self.refused.iter().any(|guess| is_open(*guess, request.settled)
            && request.rests.contains(*guess))
    }

    /// The answer where nothing refused is depended on.
    fn judge(&self, ask: &AskRef<'_>) -> Verdict
        ensures { said self.now.files (ask_in ask.now) result
            ≡ judged self.now.files (ask_in ask.now) }
    {
        match ask {
            AskRef::Get(_) => Verdict::Copy,
            AskRef::Check(name, version) => {
                if self.files.version(name) == *version {
                    return Verdict::Yes;
                }
                Verdict::No
            }
            AskRef::Store(name, expected, _) => {
                if self.files.is_fitting(name, *expected) {
                    return Verdict::Yes;
                }
                Verdict::No
            }
        }
    }

    fn verdict(&self, request: &RequestRef<'_>) -> Verdict
        ensures { said self.now.files (ask_in request.now.ask) result
            ≡ answer_to self.now (request_in request.now) }
    {
        if self.is_dropped(request) {
            return Verdict::Dropped;
        }
        self.judge(&request.ask)
    }

    /// Does what the answer to a request says. Without memory everything is as it was.
    #[tactic(auto, using(crate::proofs::Judged::takes))]
    fn take(&mut self, request: &RequestRef<'_>, verdict: Verdict) -> Result<(), AllocError>
        requires turn { is_in_turn self.old (request_in request.now) ≡ true }
        requires answer { said self.old.files (ask_in request.now.ask) verdict
            ≡ answer_to self.old (request_in request.now) }
        ensures ok { OnOk result
            (self.new ≡ answered self.old (request_in request.now)
            (said self.old.files (ask_in request.now.ask) verdict)) }
        ensures err { OnErr result (self.new ≡ self.old) }
        ensures added { OnErr result
            (adds self.old (request_in request.now)
            (said self.old.files (ask_in request.now.ask) verdict) ≡ true) }
    {
        make_room(&mut self.refused, refused_by(request.guess, verdict))?;
        self.files.take(&request.ask, verdict)?;
        let refused = refused_by(request.guess, verdict);
        remember(&mut self.refused, request, refused);
        self.next += 1;
        Ok(())
    }
}

/// Whether a guess is not below the first that may be undecided.
fn is_open(guess: GuessId, settled: u64) -> bool
    ensures { result ≡ nat_le settled guess }
{
    settled <= guess.number()
}

/// Makes room for the guess that an answer refuses, if there is one.
fn make_room(refused: &mut Vec<GuessId>, guess: Option<GuessId>) -> Result<(), AllocError>
    ensures items { refused.new.items ≡ refused.old.items }
    ensures room { OnOk result
        (is_some guess ≡ true → vec_len refused.new < vec_capacity refused.new) }
    ensures wanted { OnErr result (is_some guess ≡ true) }
{
    if guess.is_some() {
        refused.reserve(1)?;
    }
    Ok(())
}

/// Forgets the refused guesses on which no request can depend from this one on, and remembers the guess
/// that its answer refuses, for which there is room.
fn remember(refused: &mut Vec<GuessId>, request: &RequestRef<'_>, guess: Option<GuessId>)
    requires { is_some guess ≡ true → vec_len refused.old < vec_capacity refused.old }
    ensures { refused.new.items
        ≡ remembered (request_in request.now) refused.old.items ++ marks guess }
{
    refused.retain(|guess| is_open(*guess, request.settled));
    if let Some(guess) = guess {
        refused.push_reserved(guess);
    }
}
