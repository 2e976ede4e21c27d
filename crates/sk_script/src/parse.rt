//! Reading a script.
ghost use Rattle.std.specs.Prelude.{◌≡◌, ◌≤◌, ◌<◌, ◌+◌, ◌^◌, length, IfOk, OnErr};
ghost use Rattle.sk_script.specs.Base.{lines, words, last_line, Leaves};
ghost use Rattle.sk_script.specs.Instructions.{instruction};
ghost use Rattle.sk_script.specs.Script.{INSTRUCTIONS};
ghost use Rattle.sk_script.specs.Scripting.{ScriptState, line_of, label_in, labels_of, labels_from, next_place, added, script_line, script_from, script_of, Parses, Marks, seen};

pub mod forms;
pub mod labels;
pub mod table;

use crate::parse::labels::Labels;
use crate::parse::table::instruction_of;
use crate::script::SCRIPT_LIMIT;
use crate::{Instruction, Script};
use sk_words::{Cursor, Fault, FaultKind, Label, Operand, Reader, Words, none, read};
use std::alloc::{AllocError, Global};
use std::marker::Model;

/// What a line is by its first word: ignored, a label, or to be an instruction.
#[derive(Drop)]
enum Line<'a> {
    Ignored,
    Declares(Label, Words<'a>),
    Does(&'a [u8], Words<'a>),
}

/// The label of a word that is a label and a colon.
fn label_in(word: &[u8]) -> Option<Label>
    ensures { result ≡ label_in word.now }
{
    match word {
        [name @ .., b':'] => Operand::read(name).ok(),
        _ => None,
    }
}

fn line_of<'a>(line: &'a [u8]) -> Line<'a>
    ensures { line_of (words line.now) ≡ seen result }
{
    let mut words = Words::of(line);
    let Some(first) = words.next() else {
        return Line::Ignored;
    };
    match label_in(first) {
        Some(label) => Line::Declares(label, words),
        None => Line::Does(first, words),
    }
}

/// Notes the label of a line, and answers the place behind it.
fn mark(labels: &mut Labels, place: u32, line: &[u8]) -> Result<u32, AllocError>
    requires { place ≤ INSTRUCTIONS + 1 }
    ensures { Marks result labels.old labels.new place (line_of (words line.now)) }
{
    match line_of(line) {
        Line::Ignored => Ok(place),
        Line::Declares(name, words) => {
            if none(&words).is_ok() {
                labels.add(name, place)?;
            }
            Ok(place)
        }
        Line::Does(_, _) => Ok((place + 1).min(SCRIPT_LIMIT as u32 + 1)),
    }
}

/// The labels of a script, each with its place.
fn labels_of(alloc: Global, lines: &Cursor) -> Result<Labels, AllocError>
    ensures labels { IfOk result (λ labels. labels ≡ labels_from 0 lines.now.lines) }
    ensures some { OnErr result (0 < length lines.now.lines) }
{
    let mut labels = Labels::new(alloc);
    let mut place = 0;
    let mut lines = lines.again();
    while let Some(line) = lines.next() {
        place = mark(&mut labels, place, line)?;
    }
    Ok(labels)
}

/// What a line says that is to be an instruction.
fn does(labels: &Labels, word: &[u8], words: &Words) -> Result<Instruction, FaultKind>
    ensures { result ≡ instruction labels.now word.now words.now }
{
    match str::from_utf8(word) {
        Ok(word) => instruction_of(labels, word, words),
        Err(_) => Err(FaultKind::Word),
    }
}

/// A script that is being read: all its labels, those declared so far, and the instructions so far.
#[derive(Drop)]
struct Reading {
    all: Labels,
    declared: Labels,
    instructions: Vec<Instruction>,
}

impl Model for Reading {
    ghost use Rattle.std.specs.Prelude.{◌≤◌, length};
    ghost use Rattle.sk_script.specs.Script.{INSTRUCTIONS};
    ghost use Rattle.sk_script.specs.Scripting.{ScriptState};

    ghost Value = { ScriptState };

    ghost view = { λ r. record
        { all = r.all; declared = r.declared; instructions = r.instructions.items } };

    ghost invariant = { λ r. length r.instructions.items ≤ INSTRUCTIONS };
}

impl Reading {
    #[tactic(auto, unfolding(crate::specs::Scripting::added))]
    fn add(&mut self, line: Line) -> Result<(), FaultKind>
        ensures { Leaves result (added self.old (seen line.entry)) self.old self.new }
    {
        match line {
            Line::Ignored => {}
            Line::Declares(name, words) => {
                none(&words)?;
                if self.declared.place_of(&name).is_ok() {
                    return Err(FaultKind::Label);
                }
                let place = self.instructions.len() as u32;
                self.declared.add(name, place)?;
            }
            Line::Does(word, words) => {
                let instruction = does(&self.all, word, &words)?;
                if self.instructions.len() == SCRIPT_LIMIT {
                    return Err(FaultKind::TooLong);
                }
                self.instructions.push(instruction)?;
            }
        }
        Ok(())
    }
}

impl Reader for Reading {
    ghost use Rattle.sk_script.specs.Scripting.{script_line};

    ghost said = { script_line };

    fn line(&mut self, line: &[u8]) -> Result<(), FaultKind> {
        self.add(line_of(line))
    }
}

impl Script {
    /// The script that a text says, or its first faulty line, from 1 on, with what is wrong there.
    pub fn parse(alloc: Global, text: &[u8]) -> Result<Script, Fault>
        ensures { Parses result (script_of text.now) 1 (length (lines text.now)) }
    {
        Script::parse_lines(alloc, &Cursor::of(text))
    }

    /// The script that these lines say, or their first faulty line.
    pub fn parse_lines(alloc: Global, lines: &Cursor) -> Result<Script, Fault>
        ensures { Parses result (script_from (lines.now.line + 1) lines.now.lines)
            (lines.now.line + 1) (last_line lines.now) }
    {
        let Ok(all) = labels_of(alloc, lines) else {
            return Err(Fault {
                line: lines.line() + 1,
                kind: FaultKind::Memory,
            });
        };
        let opening = Reading {
            all,
            declared: Labels::new(alloc),
            instructions: Vec::new(alloc),
        };
        let reading = read(opening, lines)?;
        Ok(Script::of(reading.instructions))
    }
}
