//! How a run ends, and the messages that go with it.
ghost use Rattle.std.specs.Prelude.{◌≡◌};
ghost use Rattle.std.specs.Io.KnownBytes.{Keeps};
ghost use Rattle.std.specs.Io.Buffered.{writer_buffer, writer_contents};
ghost use Rattle.sk_command.specs.Ends.{status_of, fault_end, with_refusal, IsWritten};

use crate::message::{Message, write_message};
use crate::read_all::ReadFault;
use sk_words::{Fault, FaultKind};
use std::io::{BufWriter, Write};

/// How a run ends.
#[derive(Clone, Copy)]
pub enum End {
    /// The job is done, or the help is printed.
    Done,
    /// The file has a fault.
    Fault,
    /// The words have a fault.
    Usage,
    /// Want of memory, an input that can't be read, or a desk of workers that could not be closed.
    Trouble,
    /// The output refused a write; nothing more is written to it.
    OutputRefused,
    /// All is done, but an event was refused, in a run that is to tell so.
    Refused,
}

impl End {
    /// The status of the program.
    pub fn status(self) -> u8
        ensures { result ≡ status_of self }
    {
        match self {
            End::Done => 0,
            End::Fault => 1,
            End::Usage => 2,
            End::Trouble | End::OutputRefused => 3,
            End::Refused => 4,
        }
    }

    /// This end; but `Refused` where all is done and a refusal is to be told.
    pub fn with_refusal(self, is_refused: bool) -> End
        ensures { result ≡ with_refusal is_refused self }
    {
        match self {
            End::Done if is_refused => End::Refused,
            end => end,
        }
    }
}

/// Writes out what the output buffers.
pub fn flushed<W: Write + Drop>(out: &mut BufWriter<W>) -> End
    ensures end { IsWritten result (writer_buffer out.new) }
    ensures kept { Keeps (writer_contents W.contents out.old) (writer_contents W.contents out.new) }
{
    match out.flush() {
        Ok(()) => End::Done,
        Err(_) => End::OutputRefused,
    }
}

/// Tells a fault of the file.
pub fn tell_fault<E: Write>(fault: &Fault, err: &mut E) -> End
    ensures { result ≡ fault_end fault.now.kind }
{
    let Fault { line, kind } = *fault;
    let _ = write_message(&Message::Fault { line, kind }, err);
    match kind {
        FaultKind::Memory => End::Trouble,
        _ => End::Fault,
    }
}

/// Tells that a section is not what the command takes.
pub fn tell_wrong_section<E: Write>(err: &mut E) -> End
    ensures { result ≡ End.Fault }
{
    let _ = write_message(&Message::WrongSection, err);
    End::Fault
}

/// Tells the number of a trace's entry that can't stand there.
pub fn tell_entry<E: Write>(number: usize, err: &mut E) -> End
    ensures { result ≡ End.Fault }
{
    let _ = write_message(&Message::Entry(number), err);
    End::Fault
}

/// Tells that an input can't be read; of want of memory nothing is told.
pub fn tell_unread<E: Write>(fault: ReadFault, file: &str, err: &mut E) -> End
    ensures { result ≡ End.Trouble }
{
    if fault != ReadFault::Memory {
        let _ = write_message(&Message::Unread(file), err);
        let _ = write_message(&Message::Cause(file, fault), err);
    }
    End::Trouble
}
