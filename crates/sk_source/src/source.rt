//! The lines of a file by which answers are explained.
ghost use Rattle.std.specs.Prelude.{◌≡◌, ◌+◌, ◌++◌, ◌<◌, map, vec_items, option_map, IfOk, OnOk};
ghost use Rattle.std.specs.Str.Lines.{lines};
ghost use Rattle.std.specs.Io.KnownBytes.{Appends};
ghost use Rattle.sk_words.specs.Words.{words};
ghost use Rattle.sk_source.specs.Source.{is_section, says, event_told, events_from, events_in, source_of, event_line, behind_place, stand_told, explained};

use crate::script::{begins_with, in_script};
use crate::told::{line_text, write_line};
use sk_ids::Name;
use sk_words::{Cursor, first_word};
use std::alloc::{AllocError, Global};
use std::io;
use std::io::Write;
use std::marker::Model;

/// Where a process stands: at a place of the script of this name.
#[derive(Clone, Copy)]
pub struct Stand {
    pub script: Name,
    pub place: u32,
}

/// The file of a scenario, with the lines of its events as they are told.
#[derive(Drop)]
pub struct Source<'a> {
    text: &'a [u8],
    events: Vec<Vec<u8>>,
}

impl<'a> Model for Source<'a> {
    ghost use Rattle.std.specs.Prelude.{map, vec_items};
    ghost use Rattle.std.specs.Str.Lines.{lines};
    ghost use Rattle.sk_source.specs.View.{SourceView};

    ghost Value = { SourceView };

    ghost view = { λ s. record { lines = lines s.text.now; events = map vec_items s.events.items } };
}

/// Whether a line is the heading of a section of events.
fn is_section(line: &[u8]) -> bool
    ensures { result ≡ is_section (words line.now) }
{
    begins_with(b"steps", line) || begins_with(b"world", line)
}

/// Whether a line says something.
fn says(line: &[u8]) -> bool
    ensures { result ≡ says (words line.now) }
{
    first_word(line).is_some()
}

/// Passes the lines before a section of events, and its heading.
fn pass_heading(lines: &mut Cursor<'_>)
    ensures { events_in (lines.old.line + 1) lines.old.lines
        ≡ events_from (lines.new.line + 1) lines.new.lines }
{
    while let Some(line) = lines.next() {
        if is_section(line) {
            return;
        }
    }
}

/// Adds a line as it is told to these, where it says something.
fn add_line(
    alloc: Global,
    number: u64,
    line: &[u8],
    events: &mut Vec<Vec<u8>>,
) -> Result<(), AllocError>
    ensures { OnOk result (map vec_items events.new.items
        ≡ map vec_items events.old.items ++ event_told number (words line.now)) }
{
    if says(line) {
        events.push(line_text(alloc, number, line)?)?;
    }
    Ok(())
}

/// The lines of the events that a text has, as they are told.
fn events_of(alloc: Global, text: &[u8]) -> Result<Vec<Vec<u8>>, AllocError>
    ensures { IfOk result (λ events. map vec_items events.items ≡ events_in 1 (lines text.now)) }
{
    let mut lines = Cursor::of(text);
    pass_heading(&mut lines);
    let mut events = Vec::new(alloc);
    while let Some(line) = lines.next() {
        add_line(alloc, lines.line(), line, &mut events)?;
    }
    Ok(events)
}

/// Writes the line that stands at a place, or ends that line.
fn write_behind_place<W: Write>(found: Option<(u64, &[u8])>, out: &mut W) -> io::Result<()>
    ensures { OnOk result (Appends (W.contents out.old) (W.contents out.new)
        (behind_place (option_map (λ x. (x.0, words x.1.now)) found.entry))) }
{
    match found {
        Some((number, line)) => {
            out.write_all(b" ")?;
            write_line(number, line, out)
        }
        None => out.write_all(b"\n"),
    }
}

impl<'a> Source<'a> {
    /// The file of this text.
    pub fn of(alloc: Global, text: &'a [u8]) -> Result<Source<'a>, AllocError>
        ensures { IfOk result (λ source. source ≡ source_of (lines text.now)) }
    {
        let events = events_of(alloc, text)?;
        Ok(Source { text, events })
    }

    /// Writes the line of the event of this number, from 1 on.
    fn write_event<W: Write>(&self, number: usize, out: &mut W) -> io::Result<()>
        requires { 0 < number }
        ensures { OnOk result (Appends (W.contents out.old) (W.contents out.new)
            (event_line self.now number)) }
    {
        match self.events.get(number - 1) {
            Some(line) => out.write_all(line),
            None => Ok(()),
        }
    }

    /// Writes the place at which a process stands, and the line of its script there.
    fn write_stand<W: Write>(&self, stand: &Stand, out: &mut W) -> io::Result<()>
        ensures { OnOk result (Appends (W.contents out.old) (W.contents out.new)
            (stand_told self.now.lines stand.now)) }
    {
        let place = stand.place;
        write!(out, "at {place}")?;
        let found = in_script(Cursor::of(self.text), stand.script.as_slice(), place);
        write_behind_place(found, out)
    }

    /// Writes what explains the answer to the event of this number, from 1 on, whose process stood there before it.
    pub fn write_explained<W: Write>(
        &self,
        number: usize,
        stand: Option<Stand>,
        out: &mut W,
    ) -> io::Result<()>
        requires { 0 < number }
        ensures { OnOk result (Appends (W.contents out.old) (W.contents out.new)
            (explained self.now number stand)) }
    {
        self.write_event(number, out)?;
        match stand {
            Some(stand) => self.write_stand(&stand, out),
            None => Ok(()),
        }
    }
}
