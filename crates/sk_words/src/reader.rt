//! Reading a text line by line.
ghost use Rattle.std.specs.Prelude.{◌≡◌, ◌≤◌, ◌↔◌, ◌+◌, ℕ, List, Err};
ghost use Rattle.sk_words.specs.Lines.{last_line};
ghost use Rattle.sk_words.specs.Reading.{read_from, Reads, IsFirstFault};
ghost use Rattle.sk_words.specs.declared.fault.Fault.{Fault};

use crate::{Cursor, Fault, FaultKind};

/// What is known of a text so far, which each line adds to.
pub trait Reader: Sized + Drop {
    ghost use Rattle.std.specs.Prelude.{◌≡◌, List, ℕ, Result, MatchOption};
    ghost use Rattle.sk_words.specs.declared.fault.FaultKind.{FaultKind};
    ghost use Rattle.sk_words.specs.Lines.{last_line};
    ghost use Rattle.sk_words.specs.Reading.{Leaves, TakesIn};

    ghost said: { Self → List ℕ → Result Self FaultKind };

    /// Takes in one line, or says what is wrong with it; nothing has changed then.
    fn line(&mut self, line: &[u8]) -> Result<(), FaultKind>
        ensures { Leaves result (said self.old line.now) self.old self.new };

    /// Takes in the first line of a text where its bytes tell at once what it says, and returns what is behind it;
    /// otherwise nothing has changed. This takes no memory.
    #[inline(always)]
    fn glance<'a>(&mut self, _text: &'a [u8]) -> Option<&'a [u8]>
        ensures { MatchOption result (self.new ≡ self.old)
            (λ rest. TakesIn said self.old self.new _text.now rest.now) }
    {
        None
    }
}

/// Takes in the lines that are told at a glance, up to the first that is not.
fn take_glances<R: Reader>(reader: &mut R, lines: &mut Cursor<'_>)
    ensures same { read_from R.said reader.new (lines.new.line + 1) lines.new.lines
        ≡ read_from R.said reader.old (lines.old.line + 1) lines.old.lines }
    ensures first { lines.old.line ≤ lines.new.line }
    ensures last { last_line lines.new ≡ last_line lines.old }
{
    while let Some(text) = lines.text() {
        match reader.glance(text) {
            Some(rest) => lines.pass(rest),
            None => return,
        }
    }
}

/// Takes in lines up to the first that has a fault.
pub fn read<R: Reader>(reader: R, lines: &Cursor) -> Result<R, Fault>
    ensures { Reads result (read_from R.said reader (lines.now.line + 1) lines.now.lines)
        (lines.now.line + 1) (last_line lines.now) }
{
    let mut reader = reader;
    let mut lines = lines.again();
    take_glances(&mut reader, &mut lines);
    while let Some(line) = lines.next() {
        if let Err(kind) = reader.line(line) {
            return Err(lines.fault(kind));
        }
        take_glances(&mut reader, &mut lines);
    }
    Ok(reader)
}

/// The fault that is told of a text is that of its first faulty line, and one is told exactly where
/// there is such a line.
pub fn first_fault_is_told<R: Reader>()
    ensures { (s : R) (first : ℕ) (ls : List (List ℕ)) (f : Fault)
        → (read_from R.said s first ls ≡ Err f) ↔ IsFirstFault R.said s first ls f }
{}
