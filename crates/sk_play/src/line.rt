//! Lines that begin with the number of an event, written without formatting machinery.
ghost use Rattle.std.specs.Prelude.{◌≡◌, ◌≤◌, ◌<◌, ◌+◌, ◌∷◌, [], ◌++◌, take, drop, length, decimal};
ghost use Rattle.sk_play.specs.declared.line.TheConstants.{DIGITS, LINE};

use itoa::write_digits;
use std::marker::Model;

/// The places of a number's digits, which no number goes past.
const DIGITS: usize = 20;

/// The room for a line, which is made from its end on and written at once.
const LINE: usize = 64;

/// Puts bytes in a line from a place on.
#[inline(always)]
fn place(line: &mut [u8], at: usize, bytes: &[u8])
    requires { at + length bytes.now ≤ length line.old }
    ensures { line.new ≡ take at line.old ++ bytes.now ++ drop (at + length bytes.now) line.old }
{
    line[at..at + bytes.len()].copy_from_slice(bytes);
}

/// Puts a number and words behind it in a line, before a place, and returns where they start.
#[inline(always)]
fn put(number: u64, words: &[u8], line: &mut [u8], end: usize) -> usize
    requires { (DIGITS + length words.now ≤ end) × (end ≤ length line.old) }
    ensures line { drop result line.new ≡ decimal number ++ words.now ++ drop end line.old }
    ensures start { (result ≤ end) × (end ≤ result + DIGITS + length words.now) }
    ensures length { length line.new ≡ length line.old }
{
    let behind = end - words.len();
    place(line, behind, words);
    write_digits(number, line, behind)
}

/// A line that begins with the number of an event, which is made in place from its end on. Contracts see its bytes.
#[derive(Drop)]
pub struct Line {
    bytes: [u8; LINE],
    start: usize,
}

impl Model for Line {
    ghost use Rattle.std.specs.Prelude.{ℕ, List, drop, ◌≤◌};
    ghost use Rattle.sk_play.specs.declared.line.TheConstants.{LINE};

    ghost Value = { List ℕ };

    ghost view = { λ l. drop l.start l.bytes };

    ghost invariant = { λ l. l.start ≤ LINE };
}

impl Line {
    /// An empty line.
    #[inline(always)]
    pub fn new() -> Line
        ensures { result ≡ [] }
    {
        Line {
            bytes: [b'\n'; LINE],
            start: LINE,
        }
    }

    #[inline(always)]
    pub fn as_bytes(&self) -> &[u8]
        ensures { result.now ≡ self.now }
    {
        &self.bytes[self.start..]
    }

    /// Makes it a number, and short words behind it.
    #[inline(always)]
    pub(crate) fn tell(&mut self, number: usize, words: &[u8])
        requires { DIGITS + length words.now ≤ LINE }
        ensures { self.new ≡ decimal number ++ words.now }
    {
        self.start = put(number as u64, words, &mut self.bytes, LINE);
    }

    /// Makes it a number, short words behind it, and another number at its end.
    #[inline(always)]
    pub(crate) fn tell_counted(&mut self, number: usize, words: &[u8], other: u64)
        requires { DIGITS + length words.now + DIGITS < LINE }
        ensures { self.new ≡ decimal number ++ words.now ++ decimal other ++ 10 ∷ [] }
    {
        let end = put(other, b"\n", &mut self.bytes, LINE);
        self.start = put(number as u64, words, &mut self.bytes, end);
    }
}
