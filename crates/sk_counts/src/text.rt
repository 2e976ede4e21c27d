//! The text of counts.
ghost use Rattle.std.specs.Prelude.{OnOk};
ghost use Rattle.std.specs.Io.KnownBytes.{Appends};
ghost use Rattle.sk_counts.specs.Text.{counts_text, guesses_text, notes_text, steps_text};

use crate::Counts;
use std::io;
use std::io::Write;

#[tactic(auto, unfolding(crate::specs::Text::guesses_text))]
fn write_guesses<W: Write>(counts: &Counts, out: &mut W) -> io::Result<()>
    ensures { OnOk result
        (Appends (W.contents out.old) (W.contents out.new) (guesses_text counts.now)) }
{
    let guesses = counts.guesses;
    let committed = counts.committed;
    let failed = counts.failed;
    let struck = counts.struck;
    writeln!(
        out,
        "guesses {guesses} committed {committed} failed {failed} struck {struck}"
    )
}

#[tactic(auto, unfolding(crate::specs::Text::steps_text))]
fn write_steps<W: Write>(counts: &Counts, out: &mut W) -> io::Result<()>
    ensures { OnOk result
        (Appends (W.contents out.old) (W.contents out.new) (steps_text counts.now)) }
{
    let steps = counts.steps;
    let back = counts.taken_back;
    let open = counts.most_open;
    writeln!(out, "steps {steps} back {back} open {open}")
}

#[tactic(auto, unfolding(crate::specs::Text::notes_text))]
fn write_notes<W: Write>(counts: &Counts, out: &mut W) -> io::Result<()>
    ensures { OnOk result
        (Appends (W.contents out.old) (W.contents out.new) (notes_text counts.now)) }
{
    let notes = counts.notes;
    writeln!(out, "notes {notes}")
}

/// Writes the counts: a line of the guesses, one of the steps and one of the notes.
pub fn write_counts<W: Write>(counts: &Counts, out: &mut W) -> io::Result<()>
    ensures { OnOk result
        (Appends (W.contents out.old) (W.contents out.new) (counts_text counts.now)) }
{
    write_guesses(counts, out)?;
    write_steps(counts, out)?;
    write_notes(counts, out)
}
