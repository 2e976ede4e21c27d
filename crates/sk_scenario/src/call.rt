//! What the lines of a section of steps say.
ghost use Rattle.std.specs.Prelude.{◌≡◌, Some, IfSome, codes};
ghost use Rattle.sk_scenario.specs.Base.{Leaves, with_said, words, first_of};
ghost use Rattle.sk_scenario.specs.Calls.{step_call, guess_call};

use crate::glance;
use crate::glance::{behind_commit, behind_fail, behind_good, behind_none, digit_pid, number_line};
use sk_ids::{GuessId, Pid};
use sk_trace::KeptInput;
use sk_trace::line::kept_step;
use sk_words::{FaultKind, Items, Listed, Rules, Words, first_word, one};
use std::alloc::Global;

/// One call of the kernel, in a few words.
#[derive(Debug, PartialEq, Eq, Drop)]
pub enum Call {
    Step(Pid, KeptInput),
    Guess(Pid, KeptInput),
    Commit(GuessId),
    Fail(GuessId),
}

/// The lines of a section of steps.
#[derive(Drop)]
pub struct StepRules;

/// The steps of a section, in order.
pub type Calls = Items<StepRules>;

/// Adds a step of a process.
fn add_step(calls: &mut Calls, words: &Words) -> Result<(), FaultKind>
    ensures { Leaves result (with_said calls.old (step_call words.now)) calls.old calls.new }
{
    let (pid, input) = kept_step(*calls.allocator(), words)?;
    calls.push(Call::Step(pid, input))
}

fn add_guess(calls: &mut Calls, words: &Words) -> Result<(), FaultKind>
    ensures { Leaves result (with_said calls.old (guess_call words.now)) calls.old calls.new }
{
    let (pid, input) = kept_step(*calls.allocator(), words)?;
    calls.push(Call::Guess(pid, input))
}

/// The words behind `step` and a space at the front of a line, which is found without a search for a word's end.
#[inline(always)]
fn behind_step(line: &[u8]) -> Option<Words<'_>>
    ensures { IfSome result (λ ws. first_of (words line.now) ≡ Some (codes "step", ws)) }
{
    match line {
        [b's', b't', b'e', b'p', b' ', words @ ..] => Some(Words::of(words)),
        _ => None,
    }
}

/// The words behind `guess` and a space at the front of a line, found as those behind `step` are.
#[inline(always)]
fn behind_guess(line: &[u8]) -> Option<Words<'_>>
    ensures { IfSome result (λ ws. first_of (words line.now) ≡ Some (codes "guess", ws)) }
{
    match line {
        [b'g', b'u', b'e', b's', b's', b' ', words @ ..] => Some(Words::of(words)),
        _ => None,
    }
}

impl Listed for StepRules {
    type Item = Call;

    ghost use Rattle.std.specs.Prelude.{⊤};

    ghost fits = { λ _. ⊤ };
}

impl Rules for StepRules {
    ghost use Rattle.sk_scenario.specs.Calls.{call};

    ghost rule = { call };

    #[tactic(auto, unfolding(crate::specs::Calls::call))]
    fn add(calls: &mut Calls, word: &[u8], words: &Words) -> Result<(), FaultKind> {
        match word {
            [b's', b't', b'e', b'p'] => add_step(calls, words),
            [b'g', b'u', b'e', b's', b's'] => add_guess(calls, words),
            [b'c', b'o', b'm', b'm', b'i', b't'] => {
                let id = one(words)?;
                calls.push(Call::Commit(id))
            }
            [b'f', b'a', b'i', b'l'] => {
                let id = one(words)?;
                calls.push(Call::Fail(id))
            }
            _ => Err(FaultKind::Word),
        }
    }

    /// As any line is taken in, but that a step and a guess are told by their first bytes.
    #[tactic(auto, unfolding(crate::specs::Calls::call))]
    fn line(calls: &mut Calls, line: &[u8]) -> Result<(), FaultKind> {
        if let Some(words) = behind_step(line) {
            return add_step(calls, &words);
        }
        if let Some(words) = behind_guess(line) {
            return add_guess(calls, &words);
        }
        match first_word(line) {
            Some((first, words)) => StepRules::add(calls, first, &words),
            None => Ok(()),
        }
    }

    #[inline(always)]
    fn glance(text: &[u8]) -> Option<(Call, &[u8])> {
        if let Some(tail) = glance::behind_step(text) {
            let pid = digit_pid(tail)?;
            let rest = behind_none(tail)?;
            return Some((Call::Step(pid, KeptInput::none()), rest));
        }
        if let Some(tail) = glance::behind_guess(text) {
            let pid = digit_pid(tail)?;
            let rest = behind_good(tail)?;
            return Some((Call::Guess(pid, KeptInput::good()), rest));
        }
        if let Some(tail) = behind_commit(text) {
            return match number_line(tail) {
                Some(line) => Some((Call::Commit(line.0), line.1)),
                None => None,
            };
        }
        let tail = behind_fail(text)?;
        match number_line(tail) {
            Some(line) => Some((Call::Fail(line.0), line.1)),
            None => None,
        }
    }
}
