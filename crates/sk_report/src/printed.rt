//! How entities and what they have are printed.
ghost use Rattle.std.specs.Prelude.{◌≡◌, ◌<◌, ◌∷◌, Some, flat_map, decimal};
ghost use Rattle.sk_report.specs.Base.{held, spelled};
ghost use Rattle.sk_report.specs.Printed.{joined, tags_text, option_text, registers_text, held_text, made_text, yes_or_no, process_text, content_text, value_text, view_text, entity_text};

use sk_ids::{Entity, GuessId, TagSet};
use sk_objects::{Content, File, Pipe, Signals, Value};
use sk_plain::View;
use sk_script::words::{Literal, Printed, Unquoted};
use sk_script::{Process, Register, Registers, Val};
use std::fmt;

/// Guesses, each behind a comma.
#[derive(Drop)]
struct MoreTags<'a>(&'a [GuessId]);

impl fmt::Display for MoreTags<'_> {
    ghost output = { λ s. Some (flat_map (λ id. 44 ∷ decimal id) s.0.now) };

    fn fmt<W: fmt::Write>(&self, f: &mut fmt::Formatter<W>) -> fmt::Result {
        for id in self.0 {
            let number = id.number();
            write!(f, ",{number}")?;
        }
        Ok(())
    }
}

/// Guesses by rising number, joined by `,`; `-` where there is none.
#[derive(Drop)]
pub struct PrintedTags<'a>(pub &'a TagSet);

impl fmt::Display for PrintedTags<'_> {
    ghost output = { λ s. Some (tags_text s.0.now) };

    fn fmt<W: fmt::Write>(&self, f: &mut fmt::Formatter<W>) -> fmt::Result {
        write!(f, "{}", PrintedIds(self.0.ids()))
    }
}

/// The guesses of a list, by rising number, printed as `PrintedTags` prints those of a set.
#[derive(Drop)]
pub(crate) struct PrintedIds<'a>(pub(crate) &'a [GuessId]);

impl fmt::Display for PrintedIds<'_> {
    ghost output = { λ s. Some (tags_text s.0.now) };

    fn fmt<W: fmt::Write>(&self, f: &mut fmt::Formatter<W>) -> fmt::Result {
        match self.0 {
            [] => write!(f, "-"),
            [first, others @ ..] => {
                let first = first.number();
                let others = MoreTags(others);
                write!(f, "{first}{others}")
            }
        }
    }
}

/// Signals, each behind a comma.
#[derive(Drop)]
struct MoreSignals<'a>(&'a [u8]);

impl fmt::Display for MoreSignals<'_> {
    ghost output = { λ s. Some (flat_map (λ signal. 44 ∷ decimal signal) s.0.now) };

    fn fmt<W: fmt::Write>(&self, f: &mut fmt::Formatter<W>) -> fmt::Result {
        for signal in self.0 {
            write!(f, ",{signal}")?;
        }
        Ok(())
    }
}

/// Signals from the front, joined by `,`; `-` where there is none.
#[derive(Drop)]
struct PrintedSignals<'a>(&'a Signals);

impl fmt::Display for PrintedSignals<'_> {
    ghost output = { λ s. Some (joined 44 decimal s.0.now) };

    fn fmt<W: fmt::Write>(&self, f: &mut fmt::Formatter<W>) -> fmt::Result {
        match self.0.as_slice() {
            [] => write!(f, "-"),
            [first, others @ ..] => {
                let others = MoreSignals(others);
                write!(f, "{first}{others}")
            }
        }
    }
}

/// A number, or `-`.
#[derive(Clone, Copy)]
struct PrintedOption(Option<u32>);

impl fmt::Display for PrintedOption {
    ghost output = { λ s. Some (option_text s.0) };

    fn fmt<W: fmt::Write>(&self, f: &mut fmt::Formatter<W>) -> fmt::Result {
        match self.0 {
            Some(number) => write!(f, "{number}"),
            None => write!(f, "-"),
        }
    }
}

/// The eight registers, with single spaces between.
#[derive(Clone, Copy)]
struct PrintedRegisters(Registers);

/// A register's value.
pub(crate) fn value_of(registers: &Registers, number: u8) -> Val
    requires { number < 8 }
    ensures { result ≡ held registers.now number }
{
    registers.get(Register::new(number).unwrap())
}

impl fmt::Display for PrintedRegisters {
    ghost output = { λ s. Some (registers_text s.0) };

    #[tactic(auto, unfolding(crate::specs::Printed::registers_text))]
    fn fmt<W: fmt::Write>(&self, f: &mut fmt::Formatter<W>) -> fmt::Result {
        let r0 = value_of(&self.0, 0);
        let r1 = value_of(&self.0, 1);
        let r2 = value_of(&self.0, 2);
        let r3 = value_of(&self.0, 3);
        let r4 = value_of(&self.0, 4);
        let r5 = value_of(&self.0, 5);
        let r6 = value_of(&self.0, 6);
        let r7 = value_of(&self.0, 7);
        write!(f, "{r0} {r1} {r2} {r3} {r4} {r5} {r6} {r7}")
    }
}

fn yes_or_no(yes: bool) -> &'static str
    ensures { result.now ≡ yes_or_no yes }
{
    if yes { "yes" } else { "no" }
}

/// Where a process stands, and what it holds.
#[derive(Clone, Copy)]
struct PrintedHeld<'a>(&'a Process);

impl fmt::Display for PrintedHeld<'_> {
    ghost output = { λ s. Some (held_text s.0.now) };

    #[tactic(auto, unfolding(crate::specs::Printed::held_text))]
    fn fmt<W: fmt::Write>(&self, f: &mut fmt::Formatter<W>) -> fmt::Result {
        let process = self.0;
        let place = process.place;
        let registers = PrintedRegisters(process.registers);
        let buffer = Literal(process.buffer.as_slice());
        write!(f, "at {place} regs {registers} buf {buffer}")
    }
}

/// What a process has made, its handler, and whether it has ended.
#[derive(Clone, Copy)]
struct PrintedMade<'a>(&'a Process);

impl fmt::Display for PrintedMade<'_> {
    ghost output = { λ s. Some (made_text s.0.now) };

    #[tactic(auto, unfolding(crate::specs::Printed::made_text))]
    fn fmt<W: fmt::Write>(&self, f: &mut fmt::Formatter<W>) -> fmt::Result {
        let process = self.0;
        let children = process.children;
        let objects = process.objects;
        let handler = PrintedOption(process.handler);
        let saved = PrintedOption(process.saved);
        let ended = yes_or_no(process.ended);
        write!(
            f,
            "kids {children} objs {objects} handler {handler} saved {saved} ended {ended}"
        )
    }
}

/// A process, behind its identifier.
#[derive(Clone, Copy)]
pub struct PrintedProcess<'a>(pub &'a Process);

impl fmt::Display for PrintedProcess<'_> {
    ghost output = { λ s. Some (process_text s.0.now) };

    fn fmt<W: fmt::Write>(&self, f: &mut fmt::Formatter<W>) -> fmt::Result {
        let held = PrintedHeld(self.0);
        let made = PrintedMade(self.0);
        write!(f, "{held} {made}")
    }
}

/// A version and its bytes.
#[derive(Clone, Copy)]
pub struct PrintedVersion<'a>(pub &'a Content);

impl fmt::Display for PrintedVersion<'_> {
    ghost output = { λ s. Some (content_text s.0.now) };

    fn fmt<W: fmt::Write>(&self, f: &mut fmt::Formatter<W>) -> fmt::Result {
        let version = self.0.version();
        let bytes = self.0.bytes();
        let bytes = Literal(bytes.as_slice());
        write!(f, "{version} {bytes}")
    }
}

/// The bytes of a file, as a literal.
#[derive(Drop)]
struct PrintedFile<'a>(&'a File);

impl fmt::Display for PrintedFile<'_> {
    ghost output = { λ s. Some (spelled s.0.now) };

    fn fmt<W: fmt::Write>(&self, f: &mut fmt::Formatter<W>) -> fmt::Result {
        write!(f, "\"")?;
        for index in 0..self.0.blocks() {
            let block = Unquoted(self.0.block(index));
            write!(f, "{block}")?;
        }
        write!(f, "\"")
    }
}

/// The bytes of a pipe, as a literal.
#[derive(Drop)]
struct PrintedPipe<'a>(&'a Pipe);

impl fmt::Display for PrintedPipe<'_> {
    ghost output = { λ s. Some (spelled s.0.now.bytes) };

    fn fmt<W: fmt::Write>(&self, f: &mut fmt::Formatter<W>) -> fmt::Result {
        let (front, back) = self.0.parts();
        let front = Unquoted(front);
        let back = Unquoted(back);
        write!(f, "\"{front}{back}\"")
    }
}

/// A value, behind its entity. Of a directory its names are entities of their own.
#[derive(Drop)]
pub struct PrintedValue<'a>(pub &'a Value);

impl fmt::Display for PrintedValue<'_> {
    ghost output = { λ s. Some (value_text s.0.now) };

    fn fmt<W: fmt::Write>(&self, f: &mut fmt::Formatter<W>) -> fmt::Result {
        match self.0 {
            Value::File(file) => {
                let size = file.len();
                let bytes = PrintedFile(file);
                write!(f, "file {size} {bytes}")
            }
            Value::Dir => write!(f, "dir"),
            Value::Link(object) => write!(f, "{}", Printed(*object)),
            Value::Pipe(pipe) => {
                let state = if pipe.is_shut() { "shut" } else { "open" };
                let bytes = PrintedPipe(pipe);
                write!(f, "pipe {state} {bytes}")
            }
            Value::Signals(signals) => write!(f, "{}", PrintedSignals(signals)),
            Value::Exit(status) => write!(f, "{}", PrintedOption(status.map(u32::from))),
            Value::Copy(held) => write!(f, "{}", PrintedVersion(held.content())),
        }
    }
}

/// What a kernel shows of an entity, behind its name.
#[derive(Clone, Copy)]
pub struct PrintedView<'a>(pub View<'a>);

impl fmt::Display for PrintedView<'_> {
    ghost output = { λ s. Some (view_text s.0) };

    fn fmt<W: fmt::Write>(&self, f: &mut fmt::Formatter<W>) -> fmt::Result {
        match self.0 {
            View::Process(process) => write!(f, "{}", PrintedProcess(process)),
            View::Value(value) => write!(f, "{}", PrintedValue(value)),
        }
    }
}

/// An entity.
#[derive(Clone, Copy)]
pub struct PrintedEntity(pub Entity);

impl fmt::Display for PrintedEntity {
    ghost output = { λ s. Some (entity_text s.0) };

    fn fmt<W: fmt::Write>(&self, f: &mut fmt::Formatter<W>) -> fmt::Result {
        match self.0 {
            Entity::Proc(pid) => write!(f, "proc {}", Printed(pid)),
            Entity::Sig(pid) => write!(f, "sig {}", Printed(pid)),
            Entity::Exit(pid) => write!(f, "exit {}", Printed(pid)),
            Entity::Obj(id) => write!(f, "obj {}", Printed(id)),
            Entity::Link(directory, name) => {
                let directory = Printed(directory);
                let name = Printed(name);
                write!(f, "link {directory} {name}")
            }
            Entity::Copy(name) => write!(f, "copy {}", Printed(name)),
        }
    }
}
