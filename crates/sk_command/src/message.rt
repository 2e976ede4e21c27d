//! What is told on the error writer.
ghost use Rattle.std.specs.Prelude.{◌≡◌, ◌++◌, ◌∷◌, [], OnOk};
ghost use Rattle.std.specs.Io.KnownBytes.{Appends};
ghost use Rattle.sk_command.specs.Messages.{kind_word, cause_word, takes, message_text};

use crate::job::Task;
use crate::read_all::ReadFault;
use sk_words::FaultKind;
use std::io::{ErrorKind, Write};
use std::{fmt, io};

/// Why a run does not end well.
#[derive(Clone, Copy)]
pub enum Message<'a> {
    /// A line of the file has a fault of this kind.
    Fault {
        line: u64,
        kind: FaultKind,
    },
    /// The section is not what the command takes.
    WrongSection,
    /// What the task takes, and what the file of this name has in its place.
    Other {
        task: Task,
        file: &'a str,
        has: &'a str,
    },
    /// The entry of this number, from 1, can't stand in the trace.
    Entry(usize),
    /// The input of this name can't be read.
    Unread(&'a str),
    /// Why it can't.
    Cause(&'a str, ReadFault),
}

impl fmt::Display for Message<'_> {
    ghost use Rattle.std.specs.Prelude.{Some};

    ghost output = { λ message. Some (message_text message) };

    fn fmt<W: fmt::Write>(&self, f: &mut fmt::Formatter<W>) -> fmt::Result {
        match *self {
            Message::Fault { line, kind } => {
                let kind = word_of(kind);
                write!(f, "speculate: line {line}: {kind}")
            }
            Message::WrongSection => write!(f, "speculate: wrong section"),
            Message::Other { task, file, has } => {
                let takes = takes_of(task);
                write!(f, "{takes}, {file} has {has}")
            }
            Message::Entry(number) => write!(f, "speculate: trace entry {number} refused"),
            Message::Unread(file) => write!(f, "speculate: cannot read {file}"),
            Message::Cause(file, fault) => {
                let cause = cause_of(fault);
                write!(f, "cannot read {file}: {cause}")
            }
        }
    }
}

/// The name of a kind of fault.
fn word_of(kind: FaultKind) -> &'static str
    ensures { result.now ≡ kind_word kind }
{
    match kind {
        FaultKind::Word => "Word",
        FaultKind::Operand => "Operand",
        FaultKind::Label => "Label",
        FaultKind::TooLong => "TooLong",
        FaultKind::Memory => "Memory",
    }
}

/// What a task takes.
fn takes_of(task: Task) -> &'static str
    ensures { result.now ≡ takes task }
{
    match task {
        Task::Play(_) => "play takes steps or world",
        Task::Talk => "talk takes steps or world without an event",
        Task::Plain => "plain takes trace",
        Task::Replay => "replay takes trace",
        Task::Work { .. } => "work takes any section",
    }
}

/// Why an input can't be read.
fn cause_of(fault: ReadFault) -> &'static str
    ensures { result.now ≡ cause_word fault }
{
    match fault {
        ReadFault::TooLong => "more than 64 MB",
        ReadFault::Failed(ErrorKind::NotFound) => "not there",
        ReadFault::Failed(ErrorKind::IsADirectory) => "a folder",
        ReadFault::Failed(ErrorKind::PermissionDenied) => "no permission",
        ReadFault::Failed(_) => "a read failed",
        ReadFault::NoEnd => "no end",
        ReadFault::Memory => "out of memory",
    }
}

/// Writes a message on a line of its own.
pub fn write_message<E: Write>(message: &Message, err: &mut E) -> io::Result<()>
    ensures { OnOk result (Appends (E.contents err.old) (E.contents err.new)
        (message_text message.now ++ 10 ∷ [])) }
{
    writeln!(err, "{message}")
}
