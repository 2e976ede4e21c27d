//! The lines of a text, counted.
ghost use Rattle.std.specs.Prelude.{◌≡◌, ◌+◌, ◌<◌, ◌^◌, ◌∷◌, [], List, ℕ, MatchOption, IfSome, length, take};
ghost use Rattle.std.specs.Str.Lines.{lines};

use crate::text::Block;
use crate::{Fault, FaultKind};
use std::marker::Model;

/// The lines that are left of a text, and the number of the last line taken from it; 0 before the first.
#[derive(Drop)]
pub struct Cursor<'a> {
    lines: Block<'a>,
    line: u64,
}

impl<'a> Model for Cursor<'a> {
    ghost use Rattle.std.specs.Prelude.{◌+◌, ◌<◌, ◌^◌, length};
    ghost use Rattle.sk_words.specs.Lines.{CursorView, cursor_code};

    ghost Value = { CursorView };

    ghost coded = { cursor_code };

    ghost view = { λ c. record { line = c.line; lines = c.lines } };

    ghost invariant = { λ c. c.line + length c.lines < 2 ^ 63 };
}

impl<'a> Cursor<'a> {
    /// A whole text.
    pub fn of(text: &'a [u8]) -> Cursor<'a>
        ensures { result ≡ record { line = 0; lines = lines text.now } }
    {
        Cursor {
            lines: Block::whole(text),
            line: 0,
        }
    }

    /// A cursor at this line, to read from here once more.
    pub fn again(&self) -> Cursor<'a>
        ensures { result ≡ self.now }
    {
        Cursor {
            lines: self.lines.again(),
            line: self.line,
        }
    }

    /// The first of these lines, so many or all that are left.
    pub fn first(&self, count: u64) -> Cursor<'a>
        ensures { result ≡ record { line = self.now.line; lines = take count self.now.lines } }
    {
        Cursor {
            lines: self.lines.first(count),
            line: self.line,
        }
    }

    /// The next line, without its end; `None` where none is left.
    pub fn next(&mut self) -> Option<&'a [u8]>
        ensures lines { MatchOption result (self.old.lines ≡ [] × self.new.lines ≡ [])
            (λ line. self.old.lines ≡ line.now ∷ self.new.lines) }
        ensures line { MatchOption result (self.new.line ≡ self.old.line)
            (λ line. self.new.line ≡ self.old.line + 1) }
    {
        let line = self.lines.next()?;
        self.line += 1;
        Some(line)
    }

    /// The text of these lines, where their count is not limited.
    #[inline(always)]
    pub fn text(&self) -> Option<&'a [u8]>
        ensures { IfSome result (λ text. lines text.now ≡ self.now.lines) }
    {
        self.lines.text()
    }

    /// Passes the first of these lines, behind which this is left of their text.
    #[inline(always)]
    pub fn pass(&mut self, rest: &'a [u8])
        requires { (line : List ℕ) × (self.old.lines ≡ line ∷ lines rest.now) }
        ensures { self.new ≡ record { line = self.old.line + 1; lines = lines rest.now } }
    {
        *self = Cursor {
            lines: Block::whole(rest),
            line: self.line + 1,
        };
    }

    /// The number of the last line taken.
    pub fn line(&self) -> u64
        ensures value { result ≡ self.now.line }
        ensures limit { result + length self.now.lines < 2 ^ 63 }
    {
        self.line
    }

    /// A fault of the last line taken.
    pub fn fault(&self, kind: FaultKind) -> Fault
        ensures { result ≡ record { line = self.now.line; kind = kind } }
    {
        let line = self.line;
        Fault { line, kind }
    }
}
