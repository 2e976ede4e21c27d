//! The first fault of the words of a line, and what was expected.
ghost use Rattle.std.specs.Prelude.{◌≡◌, Some};
ghost use Rattle.sk_words.specs.Words.{words, first_of};
ghost use Rattle.sk_faults.specs.Found.{open_at, count_at, wrong_at, input_word, second, third, input_of_step, input_of_event, input_in, is_wide, unknown_input, operand_fault, found_behind, found_of};

use crate::part::Part;
use crate::tables::forms_of;
use sk_script::{Form, brings_content, is_input};
use sk_words::{Words, first_word, is_open};

/// Why a word is at fault.
#[derive(Clone, Copy)]
pub enum Why {
    /// The first word is unknown.
    Unknown,
    /// A literal has no closing quote.
    Open,
    /// No input begins with this word.
    Input,
    /// The line has too few words: the next would have this form.
    Missing(Form),
    /// The line has too many words, from this on.
    Surplus,
    /// The word has not this form.
    Malformed(Form),
}

/// The word that is at fault in a line: its index from 0, or the count of words where one is missing.
#[derive(Clone, Copy)]
pub struct Found {
    pub index: usize,
    pub why: Why,
}

/// The first word of an input: its index, whether an input begins with it, and whether that brings a content.
#[derive(Clone, Copy)]
struct InputWord {
    index: usize,
    is_known: bool,
    is_wide: bool,
}

/// The greatest index that is counted on from; no line that is read has as many words.
const INDEX_MOST: usize = 4_294_967_295;

/// The first literal without its closing quote.
pub(crate) fn open_at(words: &Words) -> Option<Found>
    ensures { result ≡ open_at 1 words.now }
{
    let mut words = words.again();
    let mut index = 1;
    while let Some(word) = words.next() {
        if is_open(word) {
            let why = Why::Open;
            return Some(Found { index, why });
        }
        index = index.min(INDEX_MOST) + 1;
    }
    None
}

/// Where the count of words is wrong.
fn count_at(forms: &[Form], words: &Words) -> Option<Found>
    ensures { result ≡ count_at 1 forms.now words.now }
{
    let mut words = words.again();
    let mut forms = forms;
    let mut index = 1;
    while let [form, others @ ..] = forms {
        if words.next().is_none() {
            let why = Why::Missing(*form);
            return Some(Found { index, why });
        }
        forms = others;
        index += 1;
    }
    words.next()?;
    let why = Why::Surplus;
    Some(Found { index, why })
}

/// The first word that has not its form.
fn wrong_at(forms: &[Form], words: &Words) -> Option<Found>
    ensures { result ≡ wrong_at 1 forms.now words.now }
{
    let mut words = words.again();
    let mut forms = forms;
    let mut index = 1;
    while let [form, others @ ..] = forms {
        let word = words.next()?;
        if !form.fits(word) {
            let why = Why::Malformed(*form);
            return Some(Found { index, why });
        }
        forms = others;
        index += 1;
    }
    None
}

fn input_word(index: usize, word: &[u8]) -> InputWord
    ensures { result ≡ input_word index word.now }
{
    InputWord {
        index,
        is_known: is_input(word),
        is_wide: brings_content(word),
    }
}

/// The second of the words behind the first.
fn second(words: &Words) -> Option<InputWord>
    ensures { result ≡ second words.now }
{
    let mut words = words.again();
    words.next()?;
    let word = words.next()?;
    Some(input_word(2, word))
}

/// The third of the words behind the first.
fn third(words: &Words) -> Option<InputWord>
    ensures { result ≡ third words.now }
{
    let mut words = words.again();
    words.next()?;
    words.next()?;
    let word = words.next()?;
    Some(input_word(3, word))
}

/// Where an event of steps has an input.
fn input_of_step(word: &[u8], words: &Words) -> Option<InputWord>
    ensures { result ≡ input_of_step word.now words.now }
{
    match word {
        b"step" | b"guess" => second(words),
        _ => None,
    }
}

/// Where an event of a trace has an input.
fn input_of_event(word: &[u8], words: &Words) -> Option<InputWord>
    ensures { result ≡ input_of_event word.now words.now }
{
    match word {
        b"step" => second(words),
        b"guess" => third(words),
        _ => None,
    }
}

/// Where a line of a part has an input.
fn input_in(part: Part, word: &[u8], words: &Words) -> Option<InputWord>
    ensures { result ≡ input_in part word.now words.now }
{
    match part {
        Part::Steps => input_of_step(word, words),
        Part::Trace => input_of_event(word, words),
        Part::Declarations | Part::Script | Part::World => None,
    }
}

/// Whether an input brings a content.
fn is_wide(input: Option<InputWord>) -> bool
    ensures { result ≡ is_wide input }
{
    match input {
        Some(word) => word.is_wide,
        None => false,
    }
}

/// What is found where a word that should be an input is none.
fn unknown_input(input: Option<InputWord>) -> Option<Found>
    ensures { result ≡ unknown_input input }
{
    let word = input?;
    if word.is_known {
        return None;
    }
    let (index, why) = (word.index, Why::Input);
    Some(Found { index, why })
}

/// The first fault of words that have to have these forms.
fn operand_fault(input: Option<InputWord>, forms: &[Form], words: &Words) -> Option<Found>
    ensures { result ≡ operand_fault input (Some forms.now) words.now }
{
    if let Some(found) = open_at(words) {
        return Some(found);
    }
    if let Some(found) = unknown_input(input) {
        return Some(found);
    }
    if let Some(found) = count_at(forms, words) {
        return Some(found);
    }
    wrong_at(forms, words)
}

/// The first fault of the words behind a first word.
fn found_behind(part: Part, word: &[u8], words: &Words) -> Option<Found>
    ensures { result ≡ found_behind part word.now words.now }
{
    let input = input_in(part, word, words);
    match forms_of(part, is_wide(input), word) {
        Some(forms) => operand_fault(input, forms, words),
        None => {
            let why = Why::Unknown;
            Some(Found { index: 0, why })
        }
    }
}

/// The first fault of the words of a line that stands in this part; `None` where each is as it must be.
pub fn find(part: Part, line: &[u8]) -> Option<Found>
    ensures { result ≡ found_of part (first_of (words line.now)) }
{
    let (first, words) = first_word(line)?;
    found_behind(part, first, &words)
}
