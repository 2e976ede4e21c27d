//! What the lines of a trace say.
ghost use Rattle.std.specs.Prelude.{◌≡◌, [], ◌∷◌, ◌++◌, Ok, IfSome, IfErr, false};
ghost use Rattle.std.specs.List.{list_any};
ghost use Rattle.sk_script.specs.StepInput.{input};
ghost use Rattle.sk_words.specs.Words.{words, is_open};
ghost use Rattle.sk_words.specs.Reading.{Leaves};
ghost use Rattle.sk_trace.specs.Lines.{step, numbered_step, IsRead, WantsContent};

use crate::{Event, InputRef, KeptInput};
use sk_ids::{GuessId, Pid};
use sk_script::Input;
use sk_script::step_input::input;
use sk_words::{FaultKind, Items, Listed, Operand, Rules, Words, closed, is_open, next_word, one};
use std::alloc::Global;

/// A process and the input of its step.
#[tactic(auto, unfolding(crate::specs::Lines::step))]
pub fn step(words: &Words) -> Result<(Pid, Input), FaultKind>
    ensures { result ≡ step words.now }
{
    let mut words = closed(words)?;
    let pid = next_word(&mut words)?;
    let input = input(&words)?;
    let pid = Operand::read(pid)?;
    Ok((pid, input))
}

/// The input without a content that these bytes say, with one space before it.
#[inline(always)]
#[tactic(auto, unfolding(sk_script::specs::StepInput::input, sk_words::specs::Operands::none_of))]
fn bare_input(bytes: &[u8]) -> Option<KeptInput>
    ensures said { IfSome result (λ kept. input (words bytes.now) ≡ Ok kept) }
    ensures closed { IfSome result (λ kept. list_any is_open (words bytes.now) ≡ false) }
{
    match bytes {
        [b' ', b'n', b'o', b'n', b'e'] => Some(KeptInput::none()),
        [b' ', b'g', b'o', b'o', b'd'] => Some(KeptInput::good()),
        _ => None,
    }
}

/// A process and an input without a content, as they are printed.
#[inline(always)]
#[tactic(auto, unfolding(crate::specs::Lines::step))]
fn bare_step(words: &Words) -> Option<(Pid, KeptInput)>
    ensures { IfSome result (λ x. step words.now ≡ Ok x) }
{
    let mut words = words.again();
    let pid = words.next()?;
    if is_open(pid) {
        return None;
    }
    let input = bare_input(words.bytes())?;
    let pid = Operand::read(pid).ok()?;
    Some((pid, input))
}

/// A process and the input of its step, kept. Want of memory is told last.
pub fn kept_step(alloc: Global, words: &Words) -> Result<(Pid, KeptInput), FaultKind>
    ensures read { IsRead result (step words.now) }
    ensures content { IfErr result (λ e. WantsContent e (step words.now)) }
{
    match bare_step(words) {
        Some(step) => Ok(step),
        None => kept_content(alloc, words),
    }
}

/// As `kept_step`, of any input. It stands by itself, since what it reads is large.
#[inline(never)]
fn kept_content(alloc: Global, words: &Words) -> Result<(Pid, KeptInput), FaultKind>
    ensures read { IsRead result (step words.now) }
    ensures content { IfErr result (λ e. WantsContent e (step words.now)) }
{
    let (pid, input) = step(words)?;
    let input = KeptInput::keep(alloc, InputRef::of(&input))?;
    Ok((pid, input))
}

/// The number of a guess, and the process and the input of its step.
#[tactic(auto, unfolding(crate::specs::Lines::numbered_step))]
fn numbered_step(words: &Words) -> Result<(GuessId, Pid, Input), FaultKind>
    ensures { result ≡ numbered_step words.now }
{
    let mut words = closed(words)?;
    let id = next_word(&mut words)?;
    let (pid, input) = step(&words)?;
    let id = Operand::read(id)?;
    Ok((id, pid, input))
}

/// The lines of a trace.
#[derive(Drop)]
pub(crate) struct EventRules;

/// Adds an event.
fn put(events: &mut Items<EventRules>, event: Event) -> Result<(), FaultKind>
    ensures { Leaves result (Ok (events.old ++ event ∷ [])) events.old events.new }
{
    event.known();
    events.push(event)
}

impl Listed for EventRules {
    type Item = Event;

    ghost use Rattle.sk_trace.specs.Event.{IsEvent};

    ghost fits = { IsEvent };
}

impl Rules for EventRules {
    ghost use Rattle.sk_trace.specs.Lines.{event};

    ghost rule = { event };

    #[tactic(auto, unfolding(crate::specs::Lines::event))]
    fn add(events: &mut Items<EventRules>, word: &[u8], words: &Words) -> Result<(), FaultKind> {
        match word {
            [b's', b't', b'e', b'p'] => {
                let (pid, input) = kept_step(*events.allocator(), words)?;
                put(events, Event::Step { pid, input })
            }
            [b'g', b'u', b'e', b's', b's'] => {
                let (id, pid, input) = numbered_step(words)?;
                let input = KeptInput::keep(*events.allocator(), InputRef::of(&input))?;
                put(events, Event::Guess { id, pid, input })
            }
            [b'c', b'o', b'm', b'm', b'i', b't'] => {
                let id = one(words)?;
                put(events, Event::Commit(id))
            }
            [b'f', b'a', b'i', b'l'] => {
                let id = one(words)?;
                put(events, Event::Fail(id))
            }
            _ => Err(FaultKind::Word),
        }
    }
}
