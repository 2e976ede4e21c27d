//! What is told of an event of a world.
ghost use Rattle.std.specs.Prelude.{◌≡◌, Some, OnOk};
ghost use Rattle.std.specs.Io.KnownBytes.{Appends};
ghost use Rattle.sk_play.specs.Told.{turn_text, reply_text, given_text, world_answer_text, told_text, told_line};
ghost use Rattle.sk_client.specs.declared.world.WorldAnswer.TheVariants as answers;
ghost use Rattle.sk_play.specs.declared.told.WorldTold.TheVariants as tells;

use crate::Line;
use crate::answer::refused;
use sk_client::{Given, Turn, WorldAnswer};
use sk_plain::{PrintedRefusal, Refusal};
use sk_server::{Answer, Reply};
use std::io::Write;
use std::{fmt, io};

/// What is told of one event.
#[derive(Clone, Copy)]
pub enum WorldTold {
    Answered(WorldAnswer),
    /// There is no request to serve, or no reply to give.
    Idle,
    /// Why a turn was refused.
    Refused(Refusal),
    /// The file of an edit has another version, or the last one.
    OtherVersion,
}

/// What a turn did.
#[derive(Clone, Copy)]
struct PrintedTurn(Turn);

impl fmt::Display for PrintedTurn {
    ghost output = { λ s. Some (turn_text s.0) };

    fn fmt<W: fmt::Write>(&self, f: &mut fmt::Formatter<W>) -> fmt::Result {
        match self.0 {
            Turn::Stepped => f.write_str("stepped"),
            Turn::Guessed(id) => {
                let number = id.number();
                write!(f, "guessed {number}")
            }
            Turn::Asked(request) => write!(f, "asked {request}"),
        }
    }
}

/// What the server answered: of a content its version.
#[derive(Clone, Copy)]
struct PrintedReply(Answer);

impl fmt::Display for PrintedReply {
    ghost output = { λ s. Some (reply_text s.0) };

    fn fmt<W: fmt::Write>(&self, f: &mut fmt::Formatter<W>) -> fmt::Result {
        match self.0 {
            Answer::Yes => f.write_str("yes"),
            Answer::No(content) => {
                let version = content.version();
                write!(f, "no {version}")
            }
            Answer::Copy(content) => {
                let version = content.version();
                write!(f, "copy {version}")
            }
            Answer::Dropped => f.write_str("dropped"),
        }
    }
}

/// What a reply did.
#[derive(Clone, Copy)]
struct PrintedGiven(Given);

impl fmt::Display for PrintedGiven {
    ghost output = { λ s. Some (given_text s.0) };

    fn fmt<W: fmt::Write>(&self, f: &mut fmt::Formatter<W>) -> fmt::Result {
        match self.0 {
            Given::Committed(id) => {
                let number = id.number();
                write!(f, "committed {number}")
            }
            Given::Failed(id) => {
                let number = id.number();
                write!(f, "failed {number}")
            }
            Given::Gone(id) => {
                let number = id.number();
                write!(f, "gone {number}")
            }
            Given::Taken(request) => write!(f, "taken {request}"),
            Given::Forgotten(request) => write!(f, "forgotten {request}"),
        }
    }
}

/// What came of an event that was not refused.
#[derive(Clone, Copy)]
struct PrintedAnswer(WorldAnswer);

impl fmt::Display for PrintedAnswer {
    ghost output = { λ s. Some (world_answer_text s.0) };

    fn fmt<W: fmt::Write>(&self, f: &mut fmt::Formatter<W>) -> fmt::Result {
        match self.0 {
            WorldAnswer::Turn(turn) => write!(f, "{}", PrintedTurn(turn)),
            WorldAnswer::Served(reply) => write!(f, "{}", PrintedReply(reply.answer)),
            WorldAnswer::Given(given) => write!(f, "{}", PrintedGiven(given)),
            WorldAnswer::Edited(version) => write!(f, "edited {version}"),
        }
    }
}

impl fmt::Display for WorldTold {
    ghost output = { λ told. Some (told_text told) };

    fn fmt<W: fmt::Write>(&self, f: &mut fmt::Formatter<W>) -> fmt::Result {
        match self {
            WorldTold::Answered(answer) => write!(f, "{}", PrintedAnswer(*answer)),
            WorldTold::Idle => f.write_str("idle"),
            WorldTold::Refused(refusal) => {
                let refusal = PrintedRefusal(*refusal);
                write!(f, "refused {refusal}")
            }
            WorldTold::OtherVersion => write!(f, "refused 1 Version"),
        }
    }
}

/// Makes the line of an event that was this turn.
#[inline]
pub(crate) fn put_turn(number: usize, turn: &Turn, line: &mut Line)
    ensures { line.new ≡ told_line number (tells.Answered (answers.Turn turn.now)) }
{
    match turn {
        Turn::Stepped => line.tell(number, b" stepped\n"),
        Turn::Guessed(id) => line.tell_counted(number, b" guessed ", id.number()),
        Turn::Asked(request) => line.tell_counted(number, b" asked ", *request),
    }
}

/// Makes the line of what the server answered: of a content its version.
pub(crate) fn put_reply(number: usize, reply: &Reply, line: &mut Line)
    ensures { line.new ≡ told_line number (tells.Answered (answers.Served reply.now)) }
{
    match &reply.answer {
        Answer::Yes => line.tell(number, b" yes\n"),
        Answer::No(content) => line.tell_counted(number, b" no ", content.version()),
        Answer::Copy(content) => line.tell_counted(number, b" copy ", content.version()),
        Answer::Dropped => line.tell(number, b" dropped\n"),
    }
}

/// Makes the line of what a reply did.
#[inline]
pub(crate) fn put_given(number: usize, given: &Given, line: &mut Line)
    ensures { line.new ≡ told_line number (tells.Answered (answers.Given given.now)) }
{
    match given {
        Given::Committed(id) => line.tell_counted(number, b" committed ", id.number()),
        Given::Failed(id) => line.tell_counted(number, b" failed ", id.number()),
        Given::Gone(id) => line.tell_counted(number, b" gone ", id.number()),
        Given::Taken(request) => line.tell_counted(number, b" taken ", *request),
        Given::Forgotten(request) => line.tell_counted(number, b" forgotten ", *request),
    }
}

/// Makes the line of what is told of the event of this number.
pub(crate) fn put_told(number: usize, told: &WorldTold, line: &mut Line)
    ensures { line.new ≡ told_line number told.now }
{
    match told {
        WorldTold::Answered(WorldAnswer::Turn(turn)) => put_turn(number, turn, line),
        WorldTold::Answered(WorldAnswer::Served(reply)) => put_reply(number, reply, line),
        WorldTold::Answered(WorldAnswer::Given(given)) => put_given(number, given, line),
        WorldTold::Answered(WorldAnswer::Edited(version)) => {
            line.tell_counted(number, b" edited ", *version)
        }
        WorldTold::Idle => line.tell(number, b" idle\n"),
        WorldTold::Refused(why) => line.tell(number, refused(*why)),
        WorldTold::OtherVersion => line.tell(number, b" refused 1 Version\n"),
    }
}

/// Writes what is told of the event of this number.
pub fn write_told<W: Write>(number: usize, told: &WorldTold, out: &mut W) -> io::Result<()>
    ensures { OnOk result
        (Appends (W.contents out.old) (W.contents out.new) (told_line number told.now)) }
{
    let mut line = Line::new();
    put_told(number, told, &mut line);
    out.write_all(line.as_bytes())
}
