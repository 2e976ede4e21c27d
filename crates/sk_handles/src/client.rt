//! A desk whose server is elsewhere: its requests go out as bytes, and replies come as bytes.
ghost use Rattle.std.specs.Prelude.{◌≡◌, IfOk, MatchResult};
ghost use Rattle.sk_handles.specs.Base.{lines, scenario_of, section_view, pid, reply_of, request_bytes};
ghost use Rattle.sk_scenario.specs.Scenario as scenarios;
ghost use Rattle.sk_handles.specs.Asked.{report_shown, tags_shown, terminal_shown, value_shown, CountsKernel, Reads, ShowsText};
ghost use Rattle.sk_handles.specs.DeskCalls.{back_told, client_in, desk_in, desk_kernel, epoch_refused, is_unsent, left_text, taken, turn_told, BeginsEpoch, Gives, GivesReply, GivesTo, SendsRequest, ShowsRequest, TakesTurn, TellsPending};
ghost use Rattle.sk_handles.specs.Handles.{DoesAs};
ghost use Rattle.sk_handles.specs.Opening.{OpenedBy, UnopenedBy};
ghost use Rattle.sk_handles.specs.Leases.{ClientLeases};
ghost use Rattle.sk_handles.specs.OwnCalls.{ShowsBytes};
ghost use Rattle.sk_handles.specs.Told.{told_by, told_of_given};

use crate::asked::{shown, tags, terminal, value};
use crate::codes::{ABSENT, DONE, FAULT, IDLE, MEMORY, REFUSED, SHOWN};
use crate::room::put;
use crate::told::{Told, Unopened, faulty, kind_number};
use sk_client::{Desk, Given, ReplyRefusal, Turn};
use sk_counts::Counts;
use sk_ids::Pid;
use sk_kernel::{EpochRefusal, Kernel};
use sk_messages::{read_reply, write_request};
use sk_plain::Refusal;
use sk_play::{desk_of, lease_at_desk};
use sk_report::{Stop, write_report};
use sk_scenario::{Declarations, KeptEvent, Scenario, Section};
use sk_server::{Reply, Request};
use sk_terminal::Texts;
use sk_words::{FaultKind, Operand};
use std::alloc::{AllocError, Global};

/// A desk whose server is elsewhere. What is let go of ends: the guesses of its requests fail.
pub struct Client {
    pub(crate) desk: Desk,
    /// A request that was taken, and not shown whole.
    pub(crate) back: Option<Request>,
    /// What terminals had released when the last epoch ended.
    pub(crate) left: Option<Texts>,
}

impl Drop for Client {
    fn drop(self) {
        let Client {
            desk,
            back: _,
            left: _,
        } = self;
        desk.abandon();
    }
}

/// A desk over the kernel that is declared, of which nothing has been asked, where no event of a world is.
fn client_with(
    alloc: Global,
    declarations: &Declarations,
    events: &[KeptEvent],
) -> Result<Option<Client>, AllocError>
    ensures { IfOk result
        (λ client. client ≡ client_in declarations.now (scenarios.World events.now)) }
{
    if !events.is_empty() {
        return Ok(None);
    }
    let (desk, _server) = desk_of(alloc, declarations)?;
    Ok(Some(Client {
        desk,
        back: None,
        left: None,
    }))
}

/// A desk as of `client_with`, where a section says no event of a world; nothing where it is none of a world.
fn client_in(
    alloc: Global,
    declarations: &Declarations,
    section: &Section,
) -> Result<Option<Client>, AllocError>
    ensures { IfOk result
        (λ client. client ≡ client_in declarations.now (section_view section.now)) }
{
    match section {
        Section::World(events) => client_with(alloc, declarations, events.as_slice()),
        Section::Steps(_) | Section::Trace(_) => Ok(None),
    }
}

/// What a text declares, as a desk at its start.
pub fn client_of(alloc: Global, text: &[u8]) -> Result<Box<Client>, Unopened>
    ensures { MatchResult result (λ client. OpenedBy desk_in client.value (scenario_of text.now))
        (λ why. UnopenedBy desk_in why (scenario_of text.now) (lines text.now)) }
{
    let scenario = match Scenario::parse(alloc, text) {
        Ok(scenario) => scenario,
        Err(fault) => return Err(Unopened::Fault(fault)),
    };
    let client = match client_in(alloc, &scenario.declarations, &scenario.section) {
        Ok(Some(client)) => client,
        Ok(None) => return Err(Unopened::Section),
        Err(AllocError) => return Err(Unopened::Memory),
    };
    match Box::new(alloc, client) {
        Ok(client) => Ok(client),
        Err(_) => Err(Unopened::Memory),
    }
}

fn of_turn(turn: Result<Turn, Refusal>) -> Told
    ensures { result ≡ turn_told turn }
{
    match turn {
        Ok(turn) => Told::of_turn(turn),
        Err(Refusal::Memory) => Told::of(MEMORY, 0),
        Err(why) => Told::of(REFUSED, u64::from(why.number())),
    }
}

fn of_given(given: Result<Given, (Reply, ReplyRefusal)>) -> Told
    ensures { result ≡ told_by told_of_given (λ back. back_told back.1) given }
{
    match given {
        Ok(given) => Told::of_given(given),
        Err((_, ReplyRefusal::OutOfTurn { expected: _ })) => Told::of(REFUSED, 1),
        Err((_, ReplyRefusal::WrongKind)) => Told::of(REFUSED, 2),
        Err((_, ReplyRefusal::Memory)) => Told::of(MEMORY, 0),
    }
}

fn of_epoch(why: EpochRefusal) -> Told
    ensures { result ≡ epoch_refused why }
{
    match why {
        EpochRefusal::Undecided(_) => Told::of(REFUSED, 1),
        EpochRefusal::Memory => Told::of(MEMORY, 0),
    }
}

/// A request as bytes.
fn bytes_of(alloc: Global, request: &Request) -> Result<Vec<u8>, AllocError>
    ensures { IfOk result (λ bytes. bytes.items ≡ request_bytes request.now) }
{
    let mut bytes = Vec::new(alloc);
    write_request(request, &mut bytes)?;
    Ok(bytes)
}

fn report(alloc: Global, kernel: &Kernel) -> Result<Option<Vec<u8>>, Stop>
    ensures { Reads result (report_shown kernel.now) }
{
    let mut text = Vec::new(alloc);
    write_report(alloc, kernel, &mut text)?;
    Ok(Some(text))
}

impl Client {
    fn take_turn(&mut self, pid: Pid) -> Told
        ensures { TakesTurn pid result self.old self.new }
    {
        of_turn(self.desk.turn(pid))
    }

    /// Takes a turn of the process of this name.
    pub fn turn(&mut self, name: &[u8]) -> Told
        ensures { DoesAs TakesTurn (pid name.now) result self.old self.new }
    {
        let pid: Result<Pid, FaultKind> = Operand::read(name);
        match pid {
            Ok(pid) => self.take_turn(pid),
            Err(kind) => faulty(kind, kind_number(kind)),
        }
    }

    fn run_lease(&mut self, pid: Pid, count: u32) -> Told
        ensures { ClientLeases count pid result self.old self.new }
    {
        match lease_at_desk(&mut self.desk, pid, count) {
            Ok(told) => Told::of_lease(told),
            Err(AllocError) => Told::of(MEMORY, 0),
        }
    }

    /// Has the process of this name do up to so many private instructions away from its kernel.
    pub fn lease(&mut self, name: &[u8], count: u32) -> Told
        ensures { DoesAs (ClientLeases count) (pid name.now) result self.old self.new }
    {
        let pid: Result<Pid, FaultKind> = Operand::read(name);
        match pid {
            Ok(pid) => self.run_lease(pid, count),
            Err(kind) => faulty(kind, kind_number(kind)),
        }
    }

    /// Takes the oldest request that waits, unless one was not shown whole.
    fn take(&mut self)
        ensures { self.new ≡ taken self.old self.old.back }
    {
        if self.back.is_none() {
            self.back = self.desk.take_request();
        }
    }

    /// Shows the request that was taken, which is gone then where the room has all of it.
    fn show(&mut self, alloc: Global, room: &mut [u8]) -> Told
        ensures { ShowsRequest self.old.back result self.old self.new room.old room.new }
    {
        let Some(request) = &self.back else {
            return Told::of(IDLE, 0);
        };
        let Ok(bytes) = bytes_of(alloc, request) else {
            return Told::of(MEMORY, 0);
        };
        put(&bytes, room);
        let told = Told::of(SHOWN, request.number).with_text(bytes.len());
        if bytes.len() <= room.len() {
            self.back = None;
        }
        told
    }

    /// Shows the oldest request that waits, as bytes. It is taken where the room has all of it.
    pub fn request(&mut self, alloc: Global, room: &mut [u8]) -> Told
        ensures { SendsRequest room.old room.new result self.old self.new }
    {
        self.take();
        self.show(alloc, room)
    }

    /// Whether the request of this number was not shown whole.
    fn is_unsent(&self, number: u64) -> bool
        ensures { result ≡ is_unsent number self.now.back }
    {
        match &self.back {
            Some(request) => request.number == number,
            None => false,
        }
    }

    fn give(&mut self, reply: Reply) -> Told
        ensures { GivesReply reply result self.old self.new }
    {
        of_given(self.desk.give_reply(reply))
    }

    /// Gives a reply, unless its request was not shown whole.
    fn give_sent(&mut self, reply: Reply) -> Told
        ensures { GivesTo (is_unsent reply.number self.old.back) reply result self.old self.new }
    {
        if self.is_unsent(reply.number) {
            return Told::of(REFUSED, 1);
        }
        self.give(reply)
    }

    /// Gives the reply that these bytes are.
    pub fn reply(&mut self, bytes: &[u8]) -> Told
        ensures { Gives (reply_of bytes.now) result self.old self.new }
    {
        match read_reply(bytes) {
            Some(reply) => self.give_sent(reply),
            None => Told::of(FAULT, 0),
        }
    }

    /// Tells the request whose reply is next, and how many have none.
    pub fn tell_pending(&self) -> Told
        ensures { TellsPending result self.now }
    {
        Told::of(SHOWN, self.desk.expected()).with_text(self.desk.pending())
    }

    /// Begins a new epoch.
    pub fn begin_epoch(&mut self) -> Told
        ensures { BeginsEpoch result self.old self.new }
    {
        match self.desk.new_epoch() {
            Ok((_trace, texts)) => {
                self.left = Some(texts);
                Told::of(DONE, 0)
            }
            Err(why) => of_epoch(why),
        }
    }

    /// Shows the text at a place among those that a terminal had released when the last epoch ended.
    pub fn tell_left(&self, number: u16, place: usize, room: &mut [u8]) -> Told
        ensures { ShowsBytes result (left_text number place self.now) room.old room.new }
    {
        let Some(texts) = &self.left else {
            return Told::of(ABSENT, 0);
        };
        let Some(text) = texts.of(number).get(place) else {
            return Told::of(ABSENT, 0);
        };
        put(text.as_slice(), room);
        Told::of(SHOWN, 0).with_text(text.len())
    }

    /// Shows the report of the kernel.
    pub fn tell_report(&self, alloc: Global, room: &mut [u8]) -> Told
        ensures { ShowsText result (report_shown self.now.desk.kernel) room.old room.new }
    {
        shown(report(alloc, self.desk.kernel()), room)
    }

    /// Shows what an entity has that the report names so.
    pub fn tell_value(&self, alloc: Global, name: &[u8], room: &mut [u8]) -> Told
        ensures { ShowsText result (value_shown name.now self.now.desk.kernel) room.old room.new }
    {
        shown(value(alloc, self.desk.kernel(), name), room)
    }

    /// Shows the undecided guesses that an entity depends on, which the report names so.
    pub fn tell_tags(&self, alloc: Global, name: &[u8], room: &mut [u8]) -> Told
        ensures { ShowsText result (tags_shown name.now self.now.desk.kernel) room.old room.new }
    {
        shown(tags(alloc, self.desk.kernel(), name), room)
    }

    /// Shows what a terminal has released in this epoch, and how many texts wait.
    pub fn tell_terminal(&self, alloc: Global, number: u16, room: &mut [u8]) -> Told
        ensures { ShowsText result (terminal_shown number self.now.desk.kernel) room.old
            room.new }
    {
        shown(terminal(alloc, self.desk.kernel(), number), room)
    }

    /// Counts the guesses and the steps of this epoch.
    pub fn tell_counts(&self, alloc: Global, counts: &mut Counts) -> Told
        ensures { CountsKernel desk_kernel counts.old counts.new result self.now }
    {
        match Counts::of(alloc, self.desk.kernel()) {
            Ok(counted) => {
                *counts = counted;
                Told::of(SHOWN, 0)
            }
            Err(_) => Told::of(MEMORY, 0),
        }
    }
}
