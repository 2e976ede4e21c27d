//! What the kernel answers to a step of a scenario.
ghost use Rattle.std.specs.Prelude.{◌≡◌, ◌≤◌, [], ◌∷◌, ◌++◌, length, Some, OnOk};
ghost use Rattle.std.specs.Io.KnownBytes.{Appends};
ghost use Rattle.sk_play.specs.Played.{answer_text, answer_line};
ghost use Rattle.sk_play.specs.declared.answer.CallAnswer.TheVariants as answers;

use crate::Line;
use sk_ids::GuessId;
use sk_plain::{PrintedRefusal, Refusal};
use std::io::Write;
use std::{fmt, io};

/// The answer to one step.
#[derive(Clone, Copy, PartialEq, Eq)]
pub enum CallAnswer {
    Stepped,
    Guessed(GuessId),
    Done,
    Gone,
    /// The run holds no token of that number.
    NoToken,
    Refused(Refusal),
}

impl fmt::Display for CallAnswer {
    ghost output = { λ answer. Some (answer_text answer) };

    fn fmt<W: fmt::Write>(&self, f: &mut fmt::Formatter<W>) -> fmt::Result {
        match self {
            CallAnswer::Stepped => f.write_str("stepped"),
            CallAnswer::Guessed(id) => {
                let number = id.number();
                write!(f, "guess {number}")
            }
            CallAnswer::Done => f.write_str("done"),
            CallAnswer::Gone => f.write_str("gone"),
            CallAnswer::NoToken => f.write_str("no token"),
            CallAnswer::Refused(refusal) => {
                let refusal = PrintedRefusal(*refusal);
                write!(f, "refused {refusal}")
            }
        }
    }
}

/// A refusal, at the end of its line.
pub(crate) fn refused(why: Refusal) -> &'static [u8]
    ensures words { result.now ≡ 32 ∷ answer_text (answers.Refused why) ++ 10 ∷ [] }
    ensures short { length result.now ≤ 24 }
{
    match why {
        Refusal::NoProcess => b" refused 1 NoProcess\n",
        Refusal::Ended => b" refused 2 Ended\n",
        Refusal::Mismatch => b" refused 3 Mismatch\n",
        Refusal::NeedsReply => b" refused 4 NeedsReply\n",
        Refusal::Blocked => b" refused 5 Blocked\n",
        Refusal::TooMany => b" refused 6 TooMany\n",
        Refusal::TraceFull => b" refused 7 TraceFull\n",
        Refusal::Memory => b" refused 8 Memory\n",
        Refusal::NoRoom => b" refused 9 NoRoom\n",
    }
}

/// Makes the line of a guess, apart from the callers.
#[inline(never)]
fn put_guessed(number: usize, id: GuessId, line: &mut Line)
    ensures { line.new ≡ answer_line number (answers.Guessed id) }
{
    line.tell_counted(number, b" guess ", id.number());
}

/// Makes the line of what the event of this number was answered. It is part of its callers, since most calls are steps.
#[inline(always)]
pub fn put_answer(number: usize, answer: &CallAnswer, line: &mut Line)
    ensures { line.new ≡ answer_line number answer.now }
{
    match answer {
        CallAnswer::Stepped => line.tell(number, b" stepped\n"),
        CallAnswer::Guessed(id) => put_guessed(number, *id, line),
        _ => put_other(number, answer, line),
    }
}

/// Makes the line of any answer, by a call of its own.
#[inline(never)]
fn put_other(number: usize, answer: &CallAnswer, line: &mut Line)
    ensures { line.new ≡ answer_line number answer.now }
{
    match answer {
        CallAnswer::Stepped => line.tell(number, b" stepped\n"),
        CallAnswer::Guessed(id) => put_guessed(number, *id, line),
        CallAnswer::Done => line.tell(number, b" done\n"),
        CallAnswer::Gone => line.tell(number, b" gone\n"),
        CallAnswer::NoToken => line.tell(number, b" no token\n"),
        CallAnswer::Refused(why) => line.tell(number, refused(*why)),
    }
}

/// Writes what the event of this number was answered.
pub fn write_answer<W: Write>(number: usize, answer: &CallAnswer, out: &mut W) -> io::Result<()>
    ensures { OnOk result
        (Appends (W.contents out.old) (W.contents out.new) (answer_line number answer.now)) }
{
    let mut line = Line::new();
    put_answer(number, answer, &mut line);
    out.write_all(line.as_bytes())
}
