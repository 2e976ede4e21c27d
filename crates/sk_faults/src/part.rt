//! In which part of a scenario a line stands.
ghost use Rattle.std.specs.Prelude.{◌≡◌, None, Some, MatchOption};
ghost use Rattle.sk_faults.specs.Base.{lines, is_end, Declarations};
ghost use Rattle.sk_faults.specs.Parts.{begun_by, part_behind, line_at};

use sk_words::{Lines, Words, first_word};

/// The parts of a scenario.
#[derive(Clone, Copy)]
pub enum Part {
    Declarations,
    /// Between `script` and `end`.
    Script,
    Steps,
    World,
    Trace,
}

/// Whether a line ends a script.
fn is_end(line: &[u8]) -> bool
    ensures { result ≡ is_end line.now }
{
    match Words::of(line).next() {
        Some(word) => word == b"end".as_slice(),
        None => false,
    }
}

/// The part that a line among the declarations begins, by its first word.
fn begun_by(word: &[u8]) -> Part
    ensures { result ≡ begun_by word.now }
{
    match word {
        b"script" => Part::Script,
        b"steps" => Part::Steps,
        b"world" => Part::World,
        b"trace" => Part::Trace,
        _ => Part::Declarations,
    }
}

impl Part {
    /// The part in which the line behind this one stands.
    fn behind(self, line: &[u8]) -> Part
        ensures { result ≡ part_behind self line.now }
    {
        match self {
            Part::Declarations => match first_word(line) {
                Some((word, _)) => begun_by(word),
                None => Part::Declarations,
            },
            Part::Script => {
                if is_end(line) {
                    Part::Declarations
                } else {
                    Part::Script
                }
            }
            Part::Steps | Part::World | Part::Trace => self,
        }
    }
}

/// The line of this number, from 1 on, and the part in which it stands.
pub fn line_at(text: &[u8], number: u64) -> Option<(Part, &[u8])>
    ensures { MatchOption result (line_at Declarations number (lines text.now) ≡ None)
        (λ x. line_at Declarations number (lines text.now) ≡ Some (x.0, x.1.now)) }
{
    let mut lines = Lines::of(text);
    let mut part = Part::Declarations;
    let mut number = number;
    while let Some(line) = lines.next() {
        if number <= 1 {
            return Some((part, line));
        }
        number -= 1;
        part = part.behind(line);
    }
    None
}
