//! The lines of a text.
ghost use Rattle.std.specs.Prelude.{◌≡◌, [], ◌∷◌, Some, None, MatchOption, IfSome, length, take, ◌<◌};
ghost use Rattle.std.specs.Str.Lines.{lines, strip_carriage_return};
ghost use Rattle.sk_words.specs.Lines.{parts, at_most};

use std::marker::Model;

/// What is left of a text, line by line. A line ends with LF or CR LF, and the last may end without.
#[derive(Drop)]
pub struct Lines<'a> {
    rest: &'a [u8],
}

impl<'a> Model for Lines<'a> {
    ghost use Rattle.std.specs.Prelude.{List, ℕ};
    ghost use Rattle.std.specs.Str.Lines.{lines};

    ghost Value = { List (List ℕ) };

    ghost view = { λ l. lines l.rest.now };
}

/// The line without the one carriage return at its end.
fn without_return(line: &[u8]) -> &[u8]
    ensures { result.now ≡ strip_carriage_return line.now }
{
    match line {
        [front @ .., b'\r'] => front,
        _ => line,
    }
}

impl<'a> Lines<'a> {
    /// The lines of a text.
    pub fn of(text: &'a [u8]) -> Lines<'a>
        ensures { result ≡ lines text.now }
    {
        Lines { rest: text }
    }

    /// These lines, to be read once more.
    pub fn again(&self) -> Lines<'a>
        ensures { result ≡ self.now }
    {
        Lines { rest: self.rest }
    }

    /// The next line without its end, which is then no longer among them; `None` where none is left.
    pub fn next(&mut self) -> Option<&'a [u8]>
        ensures { MatchOption result (self.old ≡ [] × self.new ≡ [])
            (λ line. self.old ≡ line.now ∷ self.new) }
    {
        let rest = self.rest;
        if rest.is_empty() {
            return None;
        }
        match cut(rest, b'\n') {
            Some((line, rest)) => {
                self.rest = rest;
                Some(without_return(line))
            }
            None => {
                self.rest = &[];
                Some(rest)
            }
        }
    }
}

/// What stands before and behind the first separator.
pub(crate) fn cut(text: &[u8], separator: u8) -> Option<(&[u8], &[u8])>
    ensures parts { MatchOption result (parts separator text.now ≡ text.now ∷ [])
        (λ x. parts separator text.now ≡ x.0.now ∷ parts separator x.1.now) }
    ensures shorter { IfSome result (λ x. length x.1.now < length text.now) }
{
    for (i, byte) in text.iter().enumerate() {
        if *byte == separator {
            return Some((&text[..i], &text[i + 1..]));
        }
    }
    None
}

/// The lines that are left of a text, or so many of them at most.
#[derive(Drop)]
pub(crate) struct Block<'a> {
    lines: Lines<'a>,
    left: Option<u64>,
}

impl<'a> Model for Block<'a> {
    ghost use Rattle.std.specs.Prelude.{List, ℕ};
    ghost use Rattle.sk_words.specs.Lines.{at_most};

    ghost Value = { List (List ℕ) };

    ghost view = { λ b. at_most b.left b.lines };
}

impl<'a> Block<'a> {
    /// All lines of a text.
    pub(crate) fn whole(text: &'a [u8]) -> Block<'a>
        ensures { result ≡ lines text.now }
    {
        Block {
            lines: Lines::of(text),
            left: None,
        }
    }

    /// The text of these lines, where their count is not limited.
    #[inline(always)]
    pub(crate) fn text(&self) -> Option<&'a [u8]>
        ensures { IfSome result (λ text. lines text.now ≡ self.now) }
    {
        match self.left {
            None => Some(self.lines.rest),
            Some(_) => None,
        }
    }

    /// The first of these lines, so many or all that are left.
    pub(crate) fn first(&self, count: u64) -> Block<'a>
        ensures { result ≡ take count self.now }
    {
        let left = match self.left {
            None => count,
            Some(left) => left.min(count),
        };
        Block {
            lines: self.lines.again(),
            left: Some(left),
        }
    }

    /// These lines, to be read once more.
    pub(crate) fn again(&self) -> Block<'a>
        ensures { result ≡ self.now }
    {
        Block {
            lines: self.lines.again(),
            left: self.left,
        }
    }

    /// The next line, which is then no longer among them; `None` where none is left.
    pub(crate) fn next(&mut self) -> Option<&'a [u8]>
        ensures { MatchOption result (self.old ≡ [] × self.new ≡ [])
            (λ line. self.old ≡ line.now ∷ self.new) }
    {
        match self.left {
            None => self.lines.next(),
            Some(0) => None,
            Some(left) => {
                self.left = Some(left - 1);
                self.lines.next()
            }
        }
    }
}
