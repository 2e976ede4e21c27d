//! How a line of a file is told.
ghost use Rattle.std.specs.Prelude.{◌≡◌, ◌++◌, ◌∷◌, [], IfOk, OnOk};
ghost use Rattle.std.specs.Io.KnownBytes.{Appends};
ghost use Rattle.sk_words.specs.Words.{words};
ghost use Rattle.sk_source.specs.Told.{spelled, line_told};

use sk_words::Words;
use std::alloc::{AllocError, Global};
use std::io;
use std::io::Write;

/// Writes a word behind a space.
fn write_word<W: Write>(word: &[u8], out: &mut W) -> io::Result<()>
    ensures { OnOk result (Appends (W.contents out.old) (W.contents out.new) (32 ∷ word.now)) }
{
    out.write_all(b" ")?;
    out.write_all(word)
}

/// Writes the words of a line, each behind a space.
fn write_words<W: Write>(line: &[u8], out: &mut W) -> io::Result<()>
    ensures { OnOk result
        (Appends (W.contents out.old) (W.contents out.new) (spelled (words line.now))) }
{
    let mut words = Words::of(line);
    while let Some(word) = words.next() {
        write_word(word, out)?;
    }
    Ok(())
}

/// Writes the words of a line, each behind a space, and its end.
fn write_rest<W: Write>(line: &[u8], out: &mut W) -> io::Result<()>
    ensures { OnOk result (Appends (W.contents out.old) (W.contents out.new)
        (spelled (words line.now) ++ 10 ∷ [])) }
{
    write_words(line, out)?;
    out.write_all(b"\n")
}

/// Writes a line with its number.
pub(crate) fn write_line<W: Write>(number: u64, line: &[u8], out: &mut W) -> io::Result<()>
    ensures { OnOk result (Appends (W.contents out.old) (W.contents out.new)
        (line_told number (words line.now))) }
{
    write!(out, "line {number}")?;
    write_rest(line, out)
}

/// The text that `write_line` writes.
pub(crate) fn line_text(alloc: Global, number: u64, line: &[u8]) -> Result<Vec<u8>, AllocError>
    ensures { IfOk result (λ text. text.items ≡ line_told number (words line.now)) }
{
    let mut text = Vec::new(alloc);
    match write_line(number, line, &mut text) {
        Ok(()) => Ok(text),
        Err(_) => Err(AllocError),
    }
}
