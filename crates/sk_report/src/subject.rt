//! The kernels of which a report is written.
ghost use Rattle.std.specs.Prelude.{◌≡◌, ◌∷◌, ◌++◌, true, OnOk, []};
ghost use Rattle.sk_report.specs.Base.{Appends, state_at, tags_at, TEXT_ROOM, spelled};
ghost use Rattle.std.specs.FinMap as map;
ghost use Rattle.sk_report.specs.Report.{counts_line, terminal_lines, terminal_said, texts_lines, tags_end, plain_terminal_said};

use crate::placed::{put_literal, put_words};
use crate::tags::write_tags;
use sk_ids::{GuessId, Text};
use sk_kernel::Kernel;
use sk_plain::Plain;
use sk_script::words::Literal;
use sk_terminal::Terminal;
use std::io;
use std::io::Write;

/// The places of the end of a line where its entity depends on no guess.
pub const END: usize = 9;

/// A kernel of which a report is written.
pub trait Subject {
    ghost use Rattle.std.specs.Prelude.{◌≡◌, ◌≤◌, ◌+◌, ◌∷◌, ◌++◌, ℕ, List, Option, drop, length, IfSome, OnOk};
    ghost use Rattle.sk_report.specs.declared.subject.TheConstants.{END};
    ghost use Rattle.std.specs.Io.KnownBytes.{Appends};
    ghost use Rattle.sk_ids.specs.declared.entity.Entity.{Entity};
    ghost use Rattle.sk_store.specs.declared.entity_state.EntityState.{EntityState};

    /// What each entity has.
    ghost look: { Self → Entity → Option EntityState };

    /// The lines of a terminal.
    ghost terminal_lines: { Self → ℕ → List ℕ };

    /// The guesses that each entity depends on.
    ghost tags: { Self → Entity → List ℕ };

    /// What stands at the end of the line of an entity that depends on these guesses.
    ghost end_with: { List ℕ → List ℕ };

    /// Writes how many texts a terminal has, and those that are out.
    fn write_terminal<W: Write>(&self, number: u16, out: &mut W) -> io::Result<()>
        ensures { OnOk result (Appends (W.contents out.old) (W.contents out.new)
            (terminal_lines self.now number)) };

    /// Puts the end of the line of an entity that depends on these guesses in a line, before a place, and returns where it
    /// starts; `None` for a longer one.
    fn put_end(ids: &[GuessId], line: &mut [u8], end: usize) -> Option<usize>
        requires { (END ≤ end) × (end ≤ length line.old) }
        ensures line { IfSome result (λ start.
            drop start line.new ≡ end_with ids.now ++ 10 ∷ drop end line.old) }
        ensures start { IfSome result (λ start. (start ≤ end) × (end ≤ start + END)) }
        ensures length { length line.new ≡ length line.old };

    /// Writes the end of the line of an entity that depends on these guesses.
    fn write_end<W: Write>(ids: &[GuessId], out: &mut W) -> io::Result<()>
        ensures { OnOk result (Appends (W.contents out.old) (W.contents out.new)
            (end_with ids.now)) };
}

impl Subject for Kernel {
    ghost look = { λ k. map.get (state_at k) };

    ghost terminal_lines = { terminal_said };

    ghost tags = { tags_at };

    ghost end_with = { tags_end };

    fn write_terminal<W: Write>(&self, number: u16, out: &mut W) -> io::Result<()> {
        match self.terminal(number) {
            Some(terminal) => write_shown(number, terminal, out),
            None => write_counts(number, 0, 0, out),
        }
    }

    fn put_end(ids: &[GuessId], line: &mut [u8], end: usize) -> Option<usize> {
        match ids {
            [] => Some(put_words(b" tags -\n", line, end)),
            _ => None,
        }
    }

    fn write_end<W: Write>(ids: &[GuessId], out: &mut W) -> io::Result<()> {
        write_tags(ids, out)
    }
}

impl Subject for Plain {
    ghost look = { λ k. map.get k.state };

    ghost terminal_lines = { plain_terminal_said };

    ghost tags = { λ k e. [] };

    ghost end_with = { λ tags. [] };

    fn write_terminal<W: Write>(&self, number: u16, out: &mut W) -> io::Result<()> {
        let texts = self.said(number);
        let said = texts.len();
        writeln!(out, "terminal {number} said {said}")?;
        write_texts(texts, out)
    }

    fn put_end(_ids: &[GuessId], line: &mut [u8], end: usize) -> Option<usize> {
        Some(put_words(b"\n", line, end))
    }

    fn write_end<W: Write>(_ids: &[GuessId], _out: &mut W) -> io::Result<()> {
        Ok(())
    }
}

/// Writes how many texts a terminal has released and how many wait.
fn write_counts<W: Write>(
    number: u16,
    released: usize,
    waiting: usize,
    out: &mut W,
) -> io::Result<()>
    ensures { OnOk result (Appends (W.contents out.old) (W.contents out.new)
        (counts_line number released waiting)) }
{
    writeln!(
        out,
        "terminal {number} released {released} waiting {waiting}"
    )
}

/// Writes the counts of a terminal, and its released texts.
fn write_shown<W: Write>(number: u16, terminal: &Terminal, out: &mut W) -> io::Result<()>
    ensures { OnOk result (Appends (W.contents out.old) (W.contents out.new)
        (terminal_lines number terminal.now)) }
{
    let released = terminal.released();
    write_counts(number, released.len(), terminal.waiting(), out)?;
    write_texts(released, out)
}

/// The room for the line of a text.
const TEXT_ROOM: usize = 515;

/// Writes a text, as a literal.
fn write_text<W: Write>(text: &Text, room: &mut [u8; TEXT_ROOM], out: &mut W) -> io::Result<()>
    ensures { OnOk result (Appends (W.contents out.old) (W.contents out.new)
        (spelled text.now ++ 10 ∷ [])) }
{
    let bytes = text.as_slice();
    match put_literal(bytes, b"\n", room, TEXT_ROOM) {
        Some(start) => out.write_all(&room[start..]),
        None => writeln!(out, "{}", Literal(bytes)),
    }
}

/// Writes texts, a literal a line.
fn write_texts<W: Write>(texts: &[Text], out: &mut W) -> io::Result<()>
    ensures { OnOk result
        (Appends (W.contents out.old) (W.contents out.new) (texts_lines texts.now)) }
{
    let mut room = [0; TEXT_ROOM];
    for text in texts {
        write_text(text, &mut room, out)?;
    }
    Ok(())
}
