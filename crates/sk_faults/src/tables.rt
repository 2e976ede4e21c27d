//! What forms the words behind a first word have to have.
ghost use Rattle.std.specs.Prelude.{◌≡◌, ◌∷◌, None, Some, is_some, MatchOption};
ghost use Rattle.sk_faults.specs.Base.{label_in, Guess, Process, forms_in, instruction_forms};
ghost use Rattle.sk_faults.specs.Tables.{script_forms, declaration_forms, step_forms, world_forms, event_forms, input_forms, forms_of};

use crate::part::Part;
use sk_script::Form::{Guess, Index, Input, Literal, Name, Natural, Process, Short};
use sk_script::{Forms, instruction_forms};
use sk_words::{Label, Operand};

/// The label of a word that is a label and a colon.
fn label_in(word: &[u8]) -> Option<Label>
    ensures { result ≡ label_in word.now }
{
    match word {
        [name @ .., b':'] => Operand::read(name).ok(),
        _ => None,
    }
}

/// Whether a word declares a label.
pub(crate) fn is_label(word: &[u8]) -> bool
    ensures { result ≡ is_some (label_in word.now) }
{
    match label_in(word) {
        Some(_) => true,
        None => false,
    }
}

/// Behind the first word of a line of a script.
fn script_forms(word: &[u8]) -> Option<Forms>
    ensures { MatchOption result (script_forms word.now ≡ None)
        (λ forms. script_forms word.now ≡ Some forms.now) }
{
    if word == b"end".as_slice() {
        return Some(&[]);
    }
    if is_label(word) {
        return Some(&[]);
    }
    instruction_forms(word)
}

/// Behind the first word of a declaration.
fn declaration_forms(word: &[u8]) -> Option<Forms>
    ensures { MatchOption result (declaration_forms word.now ≡ None)
        (λ forms. declaration_forms word.now ≡ Some forms.now) }
{
    if b"script".as_slice() == word {
        return Some(&[Name]);
    }
    if b"steps".as_slice() == word {
        return Some(&[]);
    }
    if b"world".as_slice() == word {
        return Some(&[]);
    }
    if b"trace".as_slice() == word {
        return Some(&[]);
    }
    if b"file".as_slice() == word {
        return Some(&[Name, Literal]);
    }
    if b"pipe".as_slice() == word {
        return Some(&[Name, Literal]);
    }
    if b"dir".as_slice() == word {
        return Some(&[Name]);
    }
    if b"copy".as_slice() == word {
        return Some(&[Name, Natural, Literal]);
    }
    if b"remote".as_slice() == word {
        return Some(&[Name, Natural, Literal]);
    }
    if b"process".as_slice() == word {
        return Some(&[Index, Name, Index]);
    }
    if b"limit".as_slice() == word {
        return Some(&[Short]);
    }
    if b"number".as_slice() == word {
        return Some(&[Natural]);
    }
    None
}

/// Behind an event of a world.
fn world_forms(word: &[u8]) -> Option<Forms>
    ensures { MatchOption result (forms_in world_forms None word.now ≡ None)
        (λ forms. forms_in world_forms None word.now ≡ Some forms.now) }
{
    if b"turn".as_slice() == word {
        return Some(&[Process]);
    }
    if b"serve".as_slice() == word {
        return Some(&[]);
    }
    if b"reply".as_slice() == word {
        return Some(&[]);
    }
    if b"edit".as_slice() == word {
        return Some(&[Name, Natural, Literal]);
    }
    None
}

/// Behind the process of a step: an input, which brings a content or not.
fn process_and_input(wide: bool) -> Forms
    ensures { result.now ≡ Process ∷ input_forms wide }
{
    if wide {
        &[Process, Input, Natural, Literal]
    } else {
        &[Process, Input]
    }
}

/// Behind the number of a guess: the process and the input.
fn guess_and_input(wide: bool) -> Forms
    ensures { result.now ≡ Guess ∷ Process ∷ input_forms wide }
{
    if wide {
        &[Guess, Process, Input, Natural, Literal]
    } else {
        &[Guess, Process, Input]
    }
}

/// Behind an event of steps.
fn step_forms(wide: bool, word: &[u8]) -> Option<Forms>
    ensures { MatchOption result (forms_in (step_forms wide) None word.now ≡ None)
        (λ forms. forms_in (step_forms wide) None word.now ≡ Some forms.now) }
{
    if b"step".as_slice() == word {
        return Some(process_and_input(wide));
    }
    if b"guess".as_slice() == word {
        return Some(process_and_input(wide));
    }
    if b"commit".as_slice() == word {
        return Some(&[Guess]);
    }
    if b"fail".as_slice() == word {
        return Some(&[Guess]);
    }
    None
}

/// Behind an event of a trace.
fn event_forms(wide: bool, word: &[u8]) -> Option<Forms>
    ensures { MatchOption result (forms_in (event_forms wide) None word.now ≡ None)
        (λ forms. forms_in (event_forms wide) None word.now ≡ Some forms.now) }
{
    if b"step".as_slice() == word {
        return Some(process_and_input(wide));
    }
    if b"guess".as_slice() == word {
        return Some(guess_and_input(wide));
    }
    if b"commit".as_slice() == word {
        return Some(&[Guess]);
    }
    if b"fail".as_slice() == word {
        return Some(&[Guess]);
    }
    None
}

/// The forms behind a first word in a part, whose input brings a content or not; `None` where the word is unknown.
pub fn forms_of(part: Part, wide: bool, word: &[u8]) -> Option<Forms>
    ensures { MatchOption result (forms_of part wide word.now ≡ None)
        (λ forms. forms_of part wide word.now ≡ Some forms.now) }
{
    match part {
        Part::Declarations => declaration_forms(word),
        Part::Script => script_forms(word),
        Part::Steps => step_forms(wide, word),
        Part::World => world_forms(word),
        Part::Trace => event_forms(wide, word),
    }
}
