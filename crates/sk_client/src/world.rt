//! A desk and a server, joined.
ghost use Rattle.std.specs.Prelude.{◌≡◌, ◌↔◌, ◌<◌, ◌≤◌, ◌+◌, ◌-◌, [], true, length, IsSome, IfSome, slice_index_or};
ghost use Rattle.sk_client.specs.Base.{request_in, LAST_REQUEST, event_in, is_in_turn};
ghost use Rattle.sk_client.specs.WorldView.{joined, taken_by, told_as, EventPost, NewsPost, RunsTo, Turns, AnswersWith, ServesNext, Replies, EditsFile, WorldEpochPost};
ghost use Rattle.sk_client.specs.declared.world.WorldAnswer.TheVariants as answers;
ghost use Rattle.sk_client.specs.Leasing.{WorldHandInPost};
ghost use Rattle.sk_client.specs.Desk.{first_sent, first_taken};
ghost use Rattle.sk_client.specs.Upcoming.{upcoming};

use crate::desk::{Desk, Given, ReplyRefusal, Turn};
use sk_ids::{Name, Pid, Text};
use sk_kernel::{EpochRefusal, HandIn};
use sk_plain::{Refusal, Trace};
use sk_script::{Input, Lease};
use sk_server::{EditRefusal, Reply, Request, RequestRef, Server, ServerRefusal};
use sk_terminal::Texts;
use sk_trace::{EventRef, WorldEvent};
use std::alloc::Global;
use std::collections::VecDeque;
use std::marker::Model;
use thiserror::Error;

/// What came of an event.
#[derive(Clone, Copy, Debug)]
pub enum WorldAnswer {
    Turn(Turn),
    Served(Reply),
    Given(Given),
    /// The new version.
    Edited(u64),
}

/// What came of an event, in a few words.
#[derive(Clone, Copy, Debug)]
pub enum WorldNews {
    Turn(Turn),
    /// The newest reply is that of the server.
    Served,
    Given(Given),
    /// The new version.
    Edited(u64),
}

/// Why an event was refused.
#[derive(Clone, Copy, Debug, PartialEq, Eq, Error)]
pub enum Cause {
    #[error("the turn is refused: {0}")]
    Turn(Refusal),
    #[error("there is no request, or no reply")]
    Idle,
    #[error("the edit is refused: {0}")]
    Edit(EditRefusal),
    #[error("out of memory")]
    Memory,
}

/// The first event that was refused, counted from 1, and why.
#[derive(Clone, Copy, Debug, PartialEq, Eq, Error)]
#[error("event {at}: {cause}")]
pub struct WorldStop {
    pub at: usize,
    pub cause: Cause,
}

/// A desk, a server, and the replies on their way. It can't be dropped: `abandon` it.
pub struct World {
    desk: Desk,
    server: Server,
    replies: VecDeque<Reply>,
    /// A request that the server handed back for want of memory.
    back: Option<Request>,
}

impl Model for World {
    ghost use Rattle.sk_client.specs.WorldView.{WorldView, world_code, IsJoined};

    ghost Value = { WorldView };

    ghost coded = { world_code };

    ghost view = { λ w. record
        { desk = w.desk; server = w.server; replies = w.replies.items; back = w.back } };

    ghost invariant = { λ w. IsJoined w.desk w.server w.replies.items w.back };
}

/// The server answers a request that is in turn, where there is memory for it.
#[inline(always)]
fn answer_with(
    server: &mut Server,
    replies: &mut VecDeque<Reply>,
    request: &RequestRef<'_>,
) -> Result<(), Cause>
    requires { is_in_turn server.old (request_in request.now) ≡ true }
    ensures { AnswersWith result server.old replies.old.items (request_in request.now) server.new
        replies.new.items }
{
    if replies.reserve(1).is_err() {
        return Err(Cause::Memory);
    }
    match server.answer_behind(request, replies) {
        Ok(()) => Ok(()),
        Err(ServerRefusal::OutOfTurn { expected: _ }) => unreachable!(),
        Err(ServerRefusal::Memory) => Err(Cause::Memory),
    }
}

/// Takes the oldest request that waits, which is kept. It stands apart, since a request is large.
#[inline(never)]
fn take_back(desk: &mut Desk, back: &mut Option<Request>)
    ensures request { back.new ≡ first_sent desk.old.waiting }
    ensures taken { desk.new ≡ first_taken desk.old desk.old.waiting }
{
    *back = desk.take_request();
}

impl World {
    /// Joins a desk that has made no request of its epoch and a server whose next request is the desk's first. This takes no
    /// memory.
    pub fn new(alloc: Global, desk: Desk, server: Server) -> World
        requires taken { desk.taken ≡ [] }
        requires waiting { desk.waiting ≡ [] }
        requires next { desk.next ≡ server.next }
        requires last { server.next ≤ LAST_REQUEST + 1 }
        ensures { result ≡ joined desk server }
    {
        World {
            desk,
            server,
            replies: VecDeque::new(alloc),
            back: None,
        }
    }

    pub fn desk(&self) -> &Desk
        ensures { result.now ≡ self.now.desk }
    {
        &self.desk
    }

    /// Takes a lease of the desk in, as the desk does.
    pub fn hand_in(&mut self, lease: Lease) -> Result<(), (Lease, HandIn)>
        ensures { WorldHandInPost result lease self.old self.new }
    {
        self.desk.hand_in(lease)
    }

    pub fn server(&self) -> &Server
        ensures { result.now ≡ self.now.server }
    {
        &self.server
    }

    /// The process and the input of the step that an event takes, where it takes one. This takes no memory.
    pub fn upcoming(&self, event: EventRef<'_>) -> Option<(Pid, Input)>
        ensures { result ≡ upcoming self.now (event_in event.entry) }
    {
        match event {
            EventRef::Turn(pid) => self.desk.turn_step(*pid),
            EventRef::Reply => self.desk.reply_step(self.replies.front()?),
            EventRef::Serve | EventRef::Edit(..) => None,
        }
    }

    /// Takes an event. After a refusal everything is as it was, but that a request which the server handed back is
    /// kept, and is served next.
    pub fn event(&mut self, event: &WorldEvent) -> Result<WorldAnswer, Cause>
        ensures { EventPost result self.old event.now self.new }
    {
        self.take(event.lent())
    }

    /// As `event`, with an event that is lent.
    pub fn take(&mut self, event: EventRef<'_>) -> Result<WorldAnswer, Cause>
        ensures { EventPost result self.old (event_in event.entry) self.new }
    {
        match self.advance(event)? {
            WorldNews::Turn(turn) => Ok(WorldAnswer::Turn(turn)),
            WorldNews::Served => match self.newest() {
                Some(reply) => Ok(WorldAnswer::Served(*reply)),
                None => unreachable!(),
            },
            WorldNews::Given(given) => Ok(WorldAnswer::Given(given)),
            WorldNews::Edited(version) => Ok(WorldAnswer::Edited(version)),
        }
    }

    /// Takes an event as `event` does, and answers in a few words: what was served is the newest reply.
    #[inline(always)]
    pub fn advance(&mut self, event: EventRef<'_>) -> Result<WorldNews, Cause>
        ensures { NewsPost result self.old (event_in event.entry) self.new }
    {
        match event {
            EventRef::Turn(pid) => Ok(WorldNews::Turn(self.turn(*pid)?)),
            EventRef::Serve => {
                self.serve()?;
                Ok(WorldNews::Served)
            }
            EventRef::Reply => Ok(WorldNews::Given(self.reply()?)),
            EventRef::Edit(name, expected, bytes) => {
                Ok(WorldNews::Edited(self.edit(*name, expected, *bytes)?))
            }
        }
    }

    /// The newest reply on its way.
    pub fn newest(&self) -> Option<&Reply>
        ensures some { IsSome result ↔ (0 < length self.now.replies) }
        ensures last { IfSome result
            (λ reply. reply.now
            ≡ slice_index_or self.now.replies (length self.now.replies - 1) reply.now) }
    {
        self.replies.back()
    }

    /// Takes events in order, up to the first that is refused; those before it stand.
    pub fn run(&mut self, events: &[WorldEvent]) -> Result<(), WorldStop>
        ensures { RunsTo result self.old events.now 1 self.new }
    {
        for (place, event) in events.iter().enumerate() {
            if let Err(cause) = self.event(event) {
                return Err(WorldStop {
                    at: place + 1,
                    cause,
                });
            }
        }
        Ok(())
    }

    #[inline(always)]
    fn turn(&mut self, pid: Pid) -> Result<Turn, Cause>
        ensures { Turns (told_as answers.Turn result) self.old pid self.new }
    {
        let turn = match self.desk.turn(pid) {
            Ok(turn) => turn,
            Err(why) => return Err(Cause::Turn(why)),
        };
        Ok(turn)
    }

    /// The server answers the request that it handed back, or the oldest that waits.
    fn serve(&mut self) -> Result<(), Cause>
        ensures { ServesNext result (taken_by self.old self.old.back) self.new
            (taken_by self.old self.old.back).back }
    {
        if self.back.is_some() {
            return self.answer();
        }
        let Some(waiting) = self.desk.first_waiting() else {
            return Err(Cause::Idle);
        };
        let lent = waiting.lent_with(waiting.ask());
        match answer_with(&mut self.server, &mut self.replies, &lent) {
            Ok(()) => {
                self.desk.take_unsent();
                Ok(())
            }
            Err(why) => {
                take_back(&mut self.desk, &mut self.back);
                Err(why)
            }
        }
    }

    /// The server answers the request that it handed back. Mostly there is none.
    #[inline(never)]
    fn answer(&mut self) -> Result<(), Cause>
        ensures { ServesNext result self.old self.new self.old.back }
    {
        let Some(request) = &self.back else {
            return Err(Cause::Idle);
        };
        let lent = request.lent_with(request.ask.lent());
        answer_with(&mut self.server, &mut self.replies, &lent)?;
        self.back = None;
        Ok(())
    }

    #[inline(always)]
    fn reply(&mut self) -> Result<Given, Cause>
        ensures { Replies (told_as answers.Given result) self.old self.new self.old.replies }
    {
        let Some(reply) = self.replies.front() else {
            return Err(Cause::Idle);
        };
        match self.desk.give_lent(reply) {
            Ok(given) => {
                self.replies.pop_front();
                Ok(given)
            }
            Err(ReplyRefusal::Memory) => Err(Cause::Memory),
            Err(_refusal) => unreachable!(),
        }
    }

    fn edit(&mut self, name: Name, expected: u64, bytes: Text) -> Result<u64, Cause>
        ensures { EditsFile (told_as answers.Edited result) self.old name expected bytes self.new }
    {
        match self.server.edit(name, expected, bytes) {
            Ok(version) => Ok(version),
            Err(why) => Err(Cause::Edit(why)),
        }
    }

    /// Begins a new epoch of the desk where no request is pending; the server keeps its files, and the world begins anew.
    /// Refusals are those of the desk, and nothing has changed.
    pub fn new_epoch(&mut self) -> Result<(Trace, Texts), EpochRefusal>
        ensures { WorldEpochPost result self.old self.new }
    {
        self.desk.new_epoch()
    }

    /// Fails the guess of each pending request, the oldest first, and ends.
    pub fn abandon(self) {
        let World {
            desk,
            server: _,
            replies: _,
            back: _,
        } = self;
        desk.abandon();
    }
}
