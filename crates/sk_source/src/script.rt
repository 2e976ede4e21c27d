//! The line of a script at which a process stands.
ghost use Rattle.std.specs.Prelude.{◌≡◌, ◌+◌, option_map};
ghost use Rattle.sk_words.specs.Words.{words};
ghost use Rattle.sk_source.specs.Script.{has_colon, begins_with, is_heading, is_instruction, is_at, left_behind, at_place, in_script};

use sk_words::{Cursor, Words, first_word};

/// Whether a colon is among these bytes.
fn has_colon(word: &[u8]) -> bool
    ensures { result ≡ has_colon word.now }
{
    let mut rest = word;
    while let [byte, tail @ ..] = rest {
        if *byte == b':' {
            return true;
        }
        rest = tail;
    }
    false
}

/// Whether this word is the first of a line.
pub(crate) fn begins_with(word: &[u8], line: &[u8]) -> bool
    ensures { result ≡ begins_with word.now (words line.now) }
{
    match Words::of(line).next() {
        Some(first) => first == word,
        None => false,
    }
}

/// Whether a line begins the script of this name.
fn is_heading(name: &[u8], line: &[u8]) -> bool
    ensures { result ≡ is_heading name.now (words line.now) }
{
    let mut words = Words::of(line);
    let (Some(first), Some(second)) = (words.next(), words.next()) else {
        return false;
    };
    first == b"script".as_slice() && second == name
}

/// Whether a line of a script is an instruction: it says something, and is no label.
fn is_instruction(line: &[u8]) -> bool
    ensures { result ≡ is_instruction (words line.now) }
{
    match first_word(line) {
        Some((first, _)) => !has_colon(first),
        None => false,
    }
}

/// Whether a process stands at a line of its script that has so many instructions still to pass; behind the last it is at the
/// `end`.
fn is_at(left: u32, line: &[u8]) -> bool
    ensures { result ≡ is_at left (words line.now) }
{
    begins_with(b"end", line) || (left == 0 && is_instruction(line))
}

/// How many instructions there are still to pass behind a line.
fn left_behind(left: u32, line: &[u8]) -> u32
    ensures { result ≡ left_behind left (words line.now) }
{
    if is_instruction(line) {
        left.saturating_sub(1)
    } else {
        left
    }
}

/// The line of a script at a place, of those behind its heading, and its number.
fn at_place<'a>(lines: Cursor<'a>, place: u32) -> Option<(u64, &'a [u8])>
    ensures { option_map (λ x. (x.0, words x.1.now)) result
        ≡ at_place place (lines.entry.line + 1) lines.entry.lines }
{
    let mut lines = lines;
    let mut left = place;
    while let Some(line) = lines.next() {
        if is_at(left, line) {
            return Some((lines.line(), line));
        }
        left = left_behind(left, line);
    }
    None
}

/// The line at a place of the script of a name, and its number.
pub(crate) fn in_script<'a>(lines: Cursor<'a>, name: &[u8], place: u32) -> Option<(u64, &'a [u8])>
    ensures { option_map (λ x. (x.0, words x.1.now)) result
        ≡ in_script name.now place (lines.entry.line + 1) lines.entry.lines }
{
    let mut lines = lines;
    while let Some(line) = lines.next() {
        if is_heading(name, line) {
            return at_place(lines, place);
        }
    }
    None
}
