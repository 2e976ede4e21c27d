//! What is replied to a command.
ghost use Rattle.std.specs.Prelude.{◌≡◌};
ghost use Rattle.sk_commands.specs.Faults.{said_by};

use crate::{ByteString, Fault, Values};

/// A reply of one word.
#[derive(Clone, Copy, Debug, PartialEq, Eq)]
pub enum Word {
    Ok,
    Pong,
    /// A command waits for EXEC.
    Queued,
}

impl Word {
    /// The text of the word.
    pub fn text(self) -> &'static [u8]
        ensures { result.now ≡ said_by self }
    {
        match self {
            Word::Ok => b"OK",
            Word::Pong => b"PONG",
            Word::Queued => b"QUEUED",
        }
    }
}

/// What is replied to a command.
#[derive(Drop)]
pub enum Reply {
    Simple(Word),
    Error(Fault),
    /// An error in words that no command has, as of a request that can't be read.
    Rejected(ByteString),
    /// These bytes, as they are.
    Text(ByteString),
    Integer(i64),
    Bulk(ByteString),
    Null,
    Array(Values),
}
