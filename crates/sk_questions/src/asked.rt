//! The lines that ask.
ghost use Rattle.std.specs.Prelude.{◌≡◌};
ghost use Rattle.sk_questions.specs.Questions.{asking, asked_with, asked_by};

use crate::Question;
use crate::named::entity;
use sk_ids::Pid;
use sk_words::{FaultKind, Index, Words, first_word, none, one, two};

/// What a line asks.
#[derive(Clone, Copy)]
pub enum Asked {
    /// A question, which changes nothing.
    Question(Question),
    /// The texts that a terminal has released and that were not handed out before.
    Released(Index),
    /// A new epoch.
    Epoch,
    /// Up to so many private instructions of a process, away from its kernel.
    Lease(Pid, u32),
}

impl Asked {
    /// What a line asks; nothing where it says nothing, or where its first word is none that asks.
    pub fn of(line: &[u8]) -> Result<Option<Asked>, FaultKind>
        ensures { result ≡ asked_by line.now }
    {
        match first_word(line) {
            Some((first, words)) => asked_behind(first, &words),
            None => Ok(None),
        }
    }
}

/// What a line asks whose first word this is.
#[tactic(auto, unfolding(crate::specs::Questions::asked_with))]
fn asked_with(word: &str, words: &Words) -> Result<Option<Asked>, FaultKind>
    ensures { result ≡ asked_with word.now words.now }
{
    match word {
        "value" => Ok(asking(Question::Value(entity(words)?))),
        "tags" => Ok(asking(Question::Tags(entity(words)?))),
        "dependents" => Ok(asking(Question::Dependents(one(words)?))),
        "terminal" => Ok(asking(Question::Terminal(one(words)?))),
        "released" => Ok(Some(Asked::Released(one(words)?))),
        "counts" => {
            none(words)?;
            Ok(asking(Question::Counts))
        }
        "trace" => {
            none(words)?;
            Ok(asking(Question::Trace))
        }
        "report" => {
            none(words)?;
            Ok(asking(Question::Report))
        }
        "epoch" => {
            none(words)?;
            Ok(Some(Asked::Epoch))
        }
        "lease" => {
            let (pid, count): (Pid, u32) = two(words)?;
            Ok(Some(Asked::Lease(pid, count)))
        }
        _ => Ok(None),
    }
}

/// This question is asked.
fn asking(question: Question) -> Option<Asked>
    ensures { result ≡ asking question }
{
    Some(Asked::Question(question))
}

/// What a line asks whose first word these bytes are.
fn asked_behind(word: &[u8], words: &Words) -> Result<Option<Asked>, FaultKind>
    ensures { result ≡ asked_with word.now words.now }
{
    match str::from_utf8(word) {
        Ok(word) => asked_with(word, words),
        Err(_) => Ok(None),
    }
}
