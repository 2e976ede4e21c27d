//! What calls are told.
ghost use Rattle.std.specs.Prelude.{◌≡◌, Some};
ghost use Rattle.sk_handles.specs.PlayCalls.{epoch_told};
ghost use Rattle.sk_handles.specs.Leases.{lease_told};
ghost use Rattle.sk_handles.specs.Told.{just, kind_number, faulty, told_of_answer, told_of_turn, told_of_reply, told_of_given, told_of_world, told_of_event, told_of_line, opened, unopened};

use crate::codes::{
    ASKED, COMMITTED, COPY, DONE, DROPPED, EDITED, FAILED, FAULT, FORGOTTEN, GONE, GUESSED, IDLE,
    MEMORY, NO, NO_TOKEN, NOTHING, OPENED, OTHER_VERSION, REFUSED, STEPPED, TAKEN, YES,
};
use sk_client::{Given, Turn, WorldAnswer};
use sk_play::{CallAnswer, EpochTold, LeaseTold, WorldTold};
use sk_server::Answer as ServerAnswer;
use sk_talk::LineTold;
use sk_words::{Fault, FaultKind};

/// What a call is told: the number of its answer, that of what the answer names, and how long its text is, of which
/// the room has the first bytes.
#[repr(C)]
#[derive(Clone, Copy)]
pub struct Told {
    pub answer: u32,
    pub number: u64,
    pub bytes: usize,
}

/// Why a text opens nothing.
#[derive(Clone, Copy)]
pub enum Unopened {
    /// Its first faulty line.
    Fault(Fault),
    /// Its section is a trace, or has a line that says something.
    Section,
    Memory,
}

pub(crate) fn kind_number(kind: FaultKind) -> u64
    ensures { result ≡ kind_number kind }
{
    match kind {
        FaultKind::Word => 1,
        FaultKind::Operand => 2,
        FaultKind::Label => 3,
        FaultKind::TooLong => 4,
        FaultKind::Memory => 5,
    }
}

/// A fault with this number; want of memory has none.
pub(crate) fn faulty(kind: FaultKind, number: u64) -> Told
    ensures { result ≡ faulty kind number }
{
    match kind {
        FaultKind::Memory => Told::of(MEMORY, 0),
        _ => Told::of(FAULT, number),
    }
}

impl Told {
    /// An answer without a text.
    pub fn of(answer: u32, number: u64) -> Told
        ensures { result ≡ just answer number }
    {
        Told {
            answer,
            number,
            bytes: 0,
        }
    }

    /// It with a text so long.
    pub fn with_text(self, bytes: usize) -> Told
        ensures { result ≡ record self { bytes = bytes } }
    {
        Told { bytes, ..self }
    }

    /// What was declared is open.
    pub fn opened() -> Told
        ensures { result ≡ opened }
    {
        Told::of(OPENED, 0)
    }

    /// Why nothing is open.
    pub fn unopened(why: Unopened) -> Told
        ensures { result ≡ unopened why }
    {
        match why {
            Unopened::Fault(fault) => faulty(fault.kind, fault.line),
            Unopened::Section => Told::of(FAULT, 0),
            Unopened::Memory => Told::of(MEMORY, 0),
        }
    }

    /// What a line is told, without its text.
    pub fn of_line(told: LineTold) -> Told
        ensures { result ≡ told_of_line told }
    {
        match told {
            LineTold::Answered(answer) => Told::of_answer(answer),
            LineTold::Happened(told) => Told::of_event(told),
            LineTold::Nothing => Told::of(NOTHING, 0),
            LineTold::Fault(kind) => faulty(kind, kind_number(kind)),
        }
    }

    /// What came of a wish for a new epoch.
    pub fn of_epoch(told: EpochTold) -> Told
        ensures { result ≡ epoch_told (Some told) }
    {
        match told {
            EpochTold::Begun(events) => Told::of(DONE, events as u64),
            EpochTold::Undecided(_) => Told::of(REFUSED, 1),
            EpochTold::Pending(_) => Told::of(REFUSED, 2),
        }
    }

    /// What came of private instructions away from the kernel.
    pub fn of_lease(told: LeaseTold) -> Told
        ensures { result ≡ lease_told (Some told) }
    {
        match told {
            LeaseTold::Ran(count) => Told::of(STEPPED, u64::from(count)),
            LeaseTold::Refused(why) => Told::of(REFUSED, u64::from(why.number())),
            LeaseTold::Signalled => Told::of(REFUSED, 10),
        }
    }

    fn of_answer(answer: CallAnswer) -> Told
        ensures { result ≡ told_of_answer answer }
    {
        match answer {
            CallAnswer::Stepped => Told::of(STEPPED, 0),
            CallAnswer::Guessed(id) => Told::of(GUESSED, id.number()),
            CallAnswer::Done => Told::of(DONE, 0),
            CallAnswer::Gone => Told::of(GONE, 0),
            CallAnswer::NoToken => Told::of(NO_TOKEN, 0),
            CallAnswer::Refused(why) => Told::of(REFUSED, u64::from(why.number())),
        }
    }

    fn of_event(told: WorldTold) -> Told
        ensures { result ≡ told_of_event told }
    {
        match told {
            WorldTold::Answered(answer) => Told::of_world(answer),
            WorldTold::Idle => Told::of(IDLE, 0),
            WorldTold::Refused(why) => Told::of(REFUSED, u64::from(why.number())),
            WorldTold::OtherVersion => Told::of(OTHER_VERSION, 0),
        }
    }

    fn of_world(answer: WorldAnswer) -> Told
        ensures { result ≡ told_of_world answer }
    {
        match answer {
            WorldAnswer::Turn(turn) => Told::of_turn(turn),
            WorldAnswer::Served(reply) => Told::of_reply(reply.answer),
            WorldAnswer::Given(given) => Told::of_given(given),
            WorldAnswer::Edited(version) => Told::of(EDITED, version),
        }
    }

    pub(crate) fn of_turn(turn: Turn) -> Told
        ensures { result ≡ told_of_turn turn }
    {
        match turn {
            Turn::Stepped => Told::of(STEPPED, 0),
            Turn::Guessed(id) => Told::of(GUESSED, id.number()),
            Turn::Asked(request) => Told::of(ASKED, request),
        }
    }

    fn of_reply(answer: ServerAnswer) -> Told
        ensures { result ≡ told_of_reply answer }
    {
        match answer {
            ServerAnswer::Yes => Told::of(YES, 0),
            ServerAnswer::No(content) => Told::of(NO, content.version()),
            ServerAnswer::Copy(content) => Told::of(COPY, content.version()),
            ServerAnswer::Dropped => Told::of(DROPPED, 0),
        }
    }

    pub(crate) fn of_given(given: Given) -> Told
        ensures { result ≡ told_of_given given }
    {
        match given {
            Given::Committed(id) => Told::of(COMMITTED, id.number()),
            Given::Failed(id) => Told::of(FAILED, id.number()),
            Given::Gone(id) => Told::of(GONE, id.number()),
            Given::Taken(request) => Told::of(TAKEN, request),
            Given::Forgotten(request) => Told::of(FORGOTTEN, request),
        }
    }
}
