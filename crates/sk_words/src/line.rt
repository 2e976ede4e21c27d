//! The words of a line.
ghost use Rattle.std.specs.Prelude.{◌≡◌, List, [], ◌∷◌, ◌≢◌, ℕ, length, drop, ◌≤◌, ◌<◌, MatchOption, Some, None, take, slice_index, false};
ghost use Rattle.std.specs.List.{onto_first, list_any};
ghost use Rattle.sk_words.specs.Words.{words, words_from, is_open, is_open_from, is_blank, has_quote, first_of};
ghost use Rattle.sk_words.specs.declared.line.Place.TheVariants.{Between, Word, Literal, Escape};

use std::marker::Model;

/// The reader's state within a line: between two words, in a word, in a literal, or behind a
/// backslash in one.
#[derive(Clone, Copy, Debug, PartialEq, Eq)]
enum Place {
    Between,
    Word,
    Literal,
    Escape,
}

/// The words of what is left of a line. Spaces and tabs part words, but not within a literal; a
/// word that would begin with `#` begins a comment, which ends the line.
#[derive(Drop)]
pub struct Words<'a> {
    rest: &'a [u8],
}

impl<'a> Model for Words<'a> {
    ghost use Rattle.std.specs.Prelude.{List, ℕ};
    ghost use Rattle.sk_words.specs.Words.{words};

    ghost Value = { List (List ℕ) };

    ghost view = { λ w. words w.rest.now };
}

fn is_blank(byte: u8) -> bool
    ensures { result ≡ is_blank byte }
{
    byte == b' ' || byte == b'\t'
}

/// The bytes from the first on that is no blank.
fn trimmed(line: &[u8]) -> &[u8]
    ensures words { words result.now ≡ words line.now }
    ensures first { 0 < length result.now → is_blank (slice_index result.now 0) ≡ false }
{
    let mut rest = line;
    while let [byte, tail @ ..] = rest {
        if !is_blank(*byte) {
            return rest;
        }
        rest = tail;
    }
    rest
}

/// The reader's state after this byte of a word.
fn behind(place: Place, byte: u8) -> Place
    requires inside { place ≢ Between }
    requires no_end { place ≡ Word → is_blank byte ≡ false }
    ensures inside { result ≢ Between }
    ensures stays_open { place ≢ Word → (bs : List ℕ)
        → is_open_from place (byte ∷ bs) ≡ is_open_from result bs }
    ensures goes_on { (bs : List ℕ)
        → words_from place (byte ∷ bs) ≡ onto_first byte (words_from result bs) }
{
    match place {
        Place::Between | Place::Word => Place::Word,
        Place::Literal => match byte {
            b'"' => Place::Word,
            b'\\' => Place::Escape,
            _ => Place::Literal,
        },
        Place::Escape => Place::Literal,
    }
}

/// The number of bytes up to the first blank.
fn bare_len(line: &[u8]) -> usize
    ensures within { result ≤ length line.now }
    ensures cut { words_from Word line.now ≡ take result line.now ∷ words (drop result line.now) }
{
    for (i, byte) in line.iter().enumerate() {
        if is_blank(*byte) {
            return i;
        }
    }
    line.len()
}

/// The number of bytes up to the end of the word that goes on here. It stands apart, since few words are literals.
#[inline(never)]
fn word_len(line: &[u8], from: Place) -> usize
    requires { from ≢ Between }
    ensures within { result ≤ length line.now }
    ensures cut { words_from from line.now ≡ take result line.now ∷ words (drop result line.now) }
{
    let mut place = from;
    for (i, byte) in line.iter().enumerate() {
        if place == Place::Word && is_blank(*byte) {
            return i;
        }
        place = behind(place, *byte);
    }
    line.len()
}

impl<'a> Words<'a> {
    /// The words of a line.
    pub fn of(line: &'a [u8]) -> Words<'a>
        ensures { result ≡ words line.now }
    {
        Words { rest: line }
    }

    /// These words, to be read once more.
    pub fn again(&self) -> Words<'a>
        ensures { result ≡ self.now }
    {
        Words { rest: self.rest }
    }

    /// The bytes in which they stand.
    pub fn bytes(&self) -> &'a [u8]
        ensures { words result.now ≡ self.now }
    {
        self.rest
    }

    /// The next word, which is then no longer among them; `None` where none is left.
    pub fn next(&mut self) -> Option<&'a [u8]>
        ensures { MatchOption result (self.old ≡ [] × self.new ≡ [])
            (λ word. self.old ≡ word.now ∷ self.new) }
    {
        let rest = trimmed(self.rest);
        self.rest = rest;
        let [first, more @ ..] = rest else {
            return None;
        };
        if *first == b'#' {
            return None;
        }
        let len = if *first == b'"' {
            1 + word_len(more, Place::Literal)
        } else {
            1 + bare_len(more)
        };
        let (word, rest) = rest.split_at(len);
        self.rest = rest;
        Some(word)
    }

    /// Whether a literal among them has no closing quote.
    pub fn has_open_literal(&self) -> bool
        ensures { result ≡ list_any is_open self.now }
    {
        if !has_quote(self.rest) {
            return false;
        }
        let mut words = Words { rest: self.rest };
        while let Some(word) = words.next() {
            if is_open(word) {
                return true;
            }
        }
        false
    }
}

/// The first word of a line and the words behind it; `None` where it has no word.
pub fn first_word(line: &[u8]) -> Option<(&[u8], Words<'_>)>
    ensures { MatchOption result (first_of (words line.now) ≡ None)
        (λ x. first_of (words line.now) ≡ Some (x.0.now, x.1)) }
{
    let mut words = Words::of(line);
    let first = words.next()?;
    Some((first, words))
}

/// Whether a quote is among these bytes.
fn has_quote(bytes: &[u8]) -> bool
    ensures { result ≡ has_quote bytes.now }
{
    let mut rest = bytes;
    while let [byte, tail @ ..] = rest {
        if *byte == b'"' {
            return true;
        }
        rest = tail;
    }
    false
}

/// Whether a word is a literal without its closing quote.
#[inline]
pub fn is_open(word: &[u8]) -> bool
    ensures { result ≡ is_open word.now }
{
    match word {
        [b'"', rest @ ..] => has_no_end(rest),
        _ => false,
    }
}

/// Whether no quote closes the literal whose bytes behind the opening quote these are.
#[inline(never)]
fn has_no_end(bytes: &[u8]) -> bool
    ensures { result ≡ is_open_from Literal bytes.now }
{
    let mut place = Place::Literal;
    let mut rest = bytes;
    while let [byte, tail @ ..] = rest {
        if place == Place::Word {
            return false;
        }
        place = behind(place, *byte);
        rest = tail;
    }
    place != Place::Word
}
