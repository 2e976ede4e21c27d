//! What a word has to be.
ghost use Rattle.std.specs.Prelude.{◌≡◌};
ghost use Rattle.sk_script.specs.Forms.{is_said, brings_content, is_input, fits};

use crate::Register;
use sk_ids::{GuessId, Name, Pid, Text};
use sk_words::{Index, Label, Natural, Operand};
use std::fmt;

/// A form of words.
#[derive(Clone, Copy, Debug, PartialEq, Eq)]
pub enum Form {
    /// `r0` to `r7`.
    Register,
    /// A number of 64 bits with sign.
    Number,
    /// A label of a script.
    Label,
    /// Bytes between quotes.
    Literal,
    Name,
    /// A number from 1 to 65,535.
    Index,
    /// A number from 0 to 2^63 - 1.
    Natural,
    /// A number from 0 to 2^32 - 1.
    Short,
    /// The number of a guess.
    Guess,
    Process,
    /// The first word of an input.
    Input,
}

/// Whether a word says such an operand.
fn is<A: Operand>(word: &[u8]) -> bool
    ensures { result ≡ is_said (A.said word.now) }
{
    match A::read(word) {
        Ok(_) => true,
        Err(_) => false,
    }
}

/// Whether an input that begins with this word brings a content.
pub fn brings_content(word: &[u8]) -> bool
    ensures { result ≡ brings_content word.now }
{
    matches!(word, b"fresh" | b"stale")
}

/// Whether an input begins with this word.
pub fn is_input(word: &[u8]) -> bool
    ensures { result ≡ is_input word.now }
{
    matches!(word, b"none" | b"good") || brings_content(word)
}

impl Form {
    /// Whether a word has this form.
    pub fn fits(self, word: &[u8]) -> bool
        ensures { result ≡ fits self word.now }
    {
        match self {
            Form::Register => is::<Register>(word),
            Form::Number => is::<i64>(word),
            Form::Label => is::<Label>(word),
            Form::Literal => is::<Text>(word),
            Form::Name => is::<Name>(word),
            Form::Index => is::<Index>(word),
            Form::Natural => is::<Natural>(word),
            Form::Short => is::<u32>(word),
            Form::Guess => is::<GuessId>(word),
            Form::Process => is::<Pid>(word),
            Form::Input => is_input(word),
        }
    }

    /// What a word of this form is called.
    pub fn called(self) -> &'static str {
        match self {
            Form::Register => "register",
            Form::Number | Form::Index | Form::Natural | Form::Short => "number",
            Form::Label => "label",
            Form::Literal => "literal",
            Form::Name => "name",
            Form::Guess => "guess",
            Form::Process => "process",
            Form::Input => "input",
        }
    }
}

/// The words that have this form.
impl fmt::Display for Form {
    fn fmt<W: fmt::Write>(&self, f: &mut fmt::Formatter<W>) -> fmt::Result {
        let text = match *self {
            Form::Register => "r0 to r7",
            Form::Number => "-9223372036854775808 to 9223372036854775807",
            Form::Label => "1 to 32 letters, digits or _",
            Form::Literal => {
                "at most 512 bytes between quotes, with \\\" \\\\ \\n \\xHH for what is not printed"
            }
            Form::Name => "1 to 32 letters, digits, . _ - or /",
            Form::Index => "1 to 65535",
            Form::Natural => "0 to 9223372036854775807",
            Form::Short => "0 to 4294967295",
            Form::Guess => "1 to 9223372036854775807",
            Form::Process => "one to four numbers from 1 to 65535, joined by dots",
            Form::Input => "none, good, fresh V LIT, stale V LIT",
        };
        write!(f, "{text}")
    }
}
