//! The inputs of steps, as words: read, and printed.
ghost use Rattle.std.specs.Prelude.{◌≡◌};
ghost use Rattle.sk_script.specs.StepInput.{content, input, no_input};

use crate::Input;
use sk_ids::Text;
use sk_objects::Content;
use sk_words::{FaultKind, Literal, Natural, Words, next_word, none, two};
use std::fmt;

/// A version and a literal.
#[tactic(auto, unfolding(crate::specs::StepInput::content))]
pub fn content(words: &Words) -> Result<Content, FaultKind>
    ensures { result ≡ content words.now }
{
    let (version, bytes): (Natural, Text) = two(words)?;
    Content::new(version.get(), bytes).ok_or(FaultKind::Operand)
}

/// The input that all these words say: `none`, `good`, `fresh V LIT` or `stale V LIT`.
#[tactic(auto, unfolding(crate::specs::StepInput::input))]
pub fn input(words: &Words) -> Result<Input, FaultKind>
    ensures { result ≡ input words.now }
{
    let mut words = words.again();
    let word = next_word(&mut words)?;
    let Ok(word) = str::from_utf8(word) else {
        return Err(no_input(&words));
    };
    match word {
        "none" => {
            none(&words)?;
            Ok(Input::None)
        }
        "good" => {
            none(&words)?;
            Ok(Input::Good)
        }
        "fresh" => Ok(Input::Fresh(content(&words)?)),
        "stale" => Ok(Input::Stale(content(&words)?)),
        _ => Err(no_input(&words)),
    }
}

/// What is wrong with an unknown input: the word, where these words behind it are as many as those
/// of some input.
fn no_input(words: &Words) -> FaultKind
    ensures { result ≡ no_input words.now }
{
    let mut words = words.again();
    if words.next().is_none() {
        return FaultKind::Operand;
    }
    if words.next().is_none() {
        return FaultKind::Word;
    }
    if words.next().is_none() {
        return FaultKind::Operand;
    }
    FaultKind::Word
}

/// A content: its version, and its bytes as a literal.
#[derive(Clone, Copy)]
struct PrintedContent(Content);

impl fmt::Display for PrintedContent {
    ghost use Rattle.std.specs.Prelude.{Some};
    ghost use Rattle.sk_words.specs.Spelling.{spaced};
    ghost use Rattle.sk_script.specs.StepInput.{content_words};

    ghost output = { λ c. Some (spaced (content_words c.0)) };

    fn fmt<W: fmt::Write>(&self, f: &mut fmt::Formatter<W>) -> fmt::Result {
        let version = self.0.version();
        let bytes = self.0.bytes();
        let literal = Literal(bytes.as_slice());
        write!(f, "{version} {literal}")
    }
}

/// The words that say it, with single spaces.
impl fmt::Display for Input {
    ghost use Rattle.std.specs.Prelude.{Some};
    ghost use Rattle.sk_words.specs.Spelling.{spaced};
    ghost use Rattle.sk_script.specs.StepInput.{input_words};

    ghost output = { λ i. Some (spaced (input_words i)) };

    fn fmt<W: fmt::Write>(&self, f: &mut fmt::Formatter<W>) -> fmt::Result {
        match self {
            Input::None => f.write_str("none"),
            Input::Good => f.write_str("good"),
            Input::Fresh(content) => {
                let content = PrintedContent(*content);
                write!(f, "fresh {content}")
            }
            Input::Stale(content) => {
                let content = PrintedContent(*content);
                write!(f, "stale {content}")
            }
        }
    }
}
