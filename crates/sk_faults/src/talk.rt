//! The place of a fault of a line of a talk, and its reason.
ghost use Rattle.std.specs.Prelude.{◌≡◌, ◌≢◌, ◌<◌, None, Ok, IfSome, MatchOption};
ghost use Rattle.sk_faults.specs.Base.{Memory, words, first_of, asked_by};
ghost use Rattle.sk_faults.specs.Found.{found_of, open_at};
ghost use Rattle.sk_faults.specs.Details.{IsAtAsked, IsAtWord, IsWrong};

use crate::detail::{Detail, first_in, place_at, reason_of};
use crate::found::{Why, find, open_at};
use crate::part::Part;
use crate::reason::Reason;
use crate::wanted::{Wants, wants_of_entity, wants_of_question};
use sk_questions::Asked;
use sk_words::{FaultKind, Words};
use std::io;
use std::io::Write;

/// The index of a word that is at fault, and what is at fault with it.
type Wrong<'a> = (usize, Reason<'a>);

/// Where there are too few words or too many behind the word of this index, which wants so much.
fn count_wrong<'a>(
    index: usize,
    first: &'a [u8],
    wants: Wants,
    words: &Words<'a>,
) -> Option<Wrong<'a>>
    ensures { IfSome result (λ wrong. 0 < wrong.0) }
{
    let mut words = words.again();
    let mut index = index;
    for wanted in wants {
        index = index.saturating_add(1);
        if words.next().is_none() {
            let wanted = *wanted;
            return Some((index, Reason::Missing { first, wanted }));
        }
    }
    let word = words.next()?;
    Some((index.saturating_add(1), Reason::Surplus { word, first }))
}

/// Behind the word of this index, the first word that is not what is wanted at its place.
fn form_wrong<'a>(index: usize, wants: Wants, words: &Words<'a>) -> Option<Wrong<'a>>
    ensures { IfSome result (λ wrong. 0 < wrong.0) }
{
    let mut words = words.again();
    let mut index = index;
    for wanted in wants {
        index = index.saturating_add(1);
        let wanted = *wanted;
        let word = words.next()?;
        if !wanted.fits(word) {
            return Some((index, Reason::Malformed { word, wanted }));
        }
    }
    None
}

/// What is wrong behind the word of this index, which wants so much.
fn wrong_behind<'a>(
    index: usize,
    first: &'a [u8],
    wants: Wants,
    words: &Words<'a>,
) -> Option<Wrong<'a>>
    ensures { IfSome result (λ wrong. 0 < wrong.0) }
{
    if let Some(wrong) = count_wrong(index, first, wants, words) {
        return Some(wrong);
    }
    form_wrong(index, wants, words)
}

/// What is wrong behind the first word of a line that asks for an entity.
fn wrong_entity<'a>(first: &'a [u8], wants: Wants, words: &Words<'a>) -> Option<Wrong<'a>>
    ensures { IfSome result (λ wrong. 0 < wrong.0) }
{
    let mut behind = words.again();
    let Some(kind) = behind.next() else {
        return wrong_behind(0, first, wants, words);
    };
    match wants_of_entity(kind) {
        Some(named) => wrong_behind(1, kind, named, &behind),
        None => form_wrong(0, wants, words),
    }
}

/// What is wrong behind the first word of a line that asks, and wants so much.
fn wrong_question<'a>(first: &'a [u8], wants: Wants, words: &Words<'a>) -> Option<Wrong<'a>>
    ensures { IfSome result (λ wrong. IsWrong (open_at 1 words.now) wrong.0) }
{
    if let Some(found) = open_at(words) {
        return Some((found.index, Reason::Open));
    }
    match first {
        b"value" | b"tags" => wrong_entity(first, wants, words),
        _ => wrong_behind(0, first, wants, words),
    }
}

/// Where the fault of a line that asks stands, and what is at fault there.
fn explain_question(number: u64, line: &[u8]) -> Option<Detail<'_>>
    ensures number { IfSome result (λ detail. detail.line ≡ number) }
    ensures place { IfSome result
        (λ detail. IsAtAsked line.now detail.place.start detail.place.word.now) }
{
    let mut words = Words::of(line);
    let first = words.next()?;
    let wants = wants_of_question(first)?;
    let (index, reason) = wrong_question(first, wants, &words)?;
    let place = place_at(line, index);
    Some(Detail {
        line: number,
        place,
        reason,
    })
}

/// Where the fault of a line that says an event of this part stands, and what is at fault there.
fn explain_event(part: Part, number: u64, line: &[u8]) -> Option<Detail<'_>>
    ensures number { IfSome result (λ detail. detail.line ≡ number) }
    ensures place { MatchOption result (found_of part (first_of (words line.now)) ≡ None)
        (λ detail. IsAtWord (found_of part (first_of (words line.now))) line.now
        detail.place.start detail.place.word.now) }
{
    let found = find(part, line)?;
    let place = place_at(line, found.index);
    let word = place.word;
    let reason = match found.why {
        Why::Unknown => Reason::Unheard { word, part },
        why => reason_of(part, first_in(line), why, word),
    };
    Some(Detail {
        line: number,
        place,
        reason,
    })
}

/// Where a fault that was told of a line of a talk stands, in which the events of this part are talked of, and what is at
/// fault there; `None` for want of memory.
pub fn explain_line(part: Part, number: u64, line: &[u8], kind: FaultKind) -> Option<Detail<'_>>
    ensures number { IfSome result (λ detail. detail.line ≡ number) }
    ensures memory { kind ≡ Memory → result ≡ None }
    ensures asks { asked_by line.now ≢ Ok None
        → IfSome result
        (λ detail. IsAtAsked line.now detail.place.start detail.place.word.now) }
    ensures says { kind ≢ Memory
        → asked_by line.now ≡ Ok None
        → MatchOption result (found_of part (first_of (words line.now)) ≡ None)
        (λ detail. IsAtWord (found_of part (first_of (words line.now))) line.now
        detail.place.start detail.place.word.now) }
{
    if kind == FaultKind::Memory {
        return None;
    }
    match Asked::of(line) {
        Ok(None) => explain_event(part, number, line),
        Ok(Some(_)) | Err(_) => explain_question(number, line),
    }
}

/// Writes where a fault that was told of a line of a talk stands, and what is at fault there, on a line of its own.
pub fn write_line_detail<E: Write>(
    part: Part,
    number: u64,
    line: &[u8],
    kind: FaultKind,
    err: &mut E,
) -> io::Result<()> {
    match explain_line(part, number, line, kind) {
        Some(detail) => writeln!(err, "-:{detail}"),
        None => Ok(()),
    }
}
