//! Why a command is not carried out, in the words that clients know.
ghost use Rattle.std.specs.Prelude.{◌≡◌};
ghost use Rattle.sk_commands.specs.Faults.{words_of};

use crate::Name;

/// Why a command is not carried out.
#[derive(Clone, Copy, Debug, PartialEq, Eq)]
pub enum Fault {
    /// No command has this name.
    Unknown,
    /// The command has too few words, or too many.
    WrongNumber(Name),
    /// An option is not known, or does not go with another.
    Syntax,
    /// A text is not the decimal text of an integer of 64 bits.
    NotInteger,
    /// A sum is not an integer of 64 bits.
    Overflow,
    /// What a key would have is longer than may be.
    TooLong,
    /// A pattern is not the front of keys and a `*` behind it.
    Pattern,
    /// A queue is open already.
    Nested,
    /// EXEC, where no queue is open.
    ExecAlone,
    /// DISCARD, where no queue is open.
    DiscardAlone,
    /// A fault was told of a command that was to be queued, so that the others are not carried out.
    Aborted,
}

impl Fault {
    /// The words of the reply.
    pub fn words(self) -> &'static [u8]
        ensures { result.now ≡ words_of self }
    {
        match self {
            Fault::Unknown => b"ERR unknown command",
            Fault::WrongNumber(name) => name.wrong_number(),
            Fault::Syntax => b"ERR syntax error",
            Fault::NotInteger => b"ERR value is not an integer or out of range",
            Fault::Overflow => b"ERR increment or decrement would overflow",
            Fault::TooLong => b"ERR string exceeds maximum allowed size",
            Fault::Pattern => b"ERR only patterns of a prefix and '*' are known",
            Fault::Nested => b"ERR MULTI calls can not be nested",
            Fault::ExecAlone => b"ERR EXEC without MULTI",
            Fault::DiscardAlone => b"ERR DISCARD without MULTI",
            Fault::Aborted => b"EXECABORT Transaction discarded because of previous errors.",
        }
    }
}
