//! What becomes of a process at a step, told in a few words.
ghost use Rattle.std.specs.Prelude.{◌≡◌, ◌+◌, ◌<◌, ◌^◌, length};
ghost use Rattle.sk_plain.specs.Base.{option_copied, given};
ghost use Rattle.sk_plain.specs.Processes.{handling, returned};
ghost use Rattle.sk_plain.specs.Rows.{answered, failed};
ghost use Rattle.sk_plain.specs.Seen.{text_at};

use crate::Errno;
use crate::step::instruction_at;
use crate::values::file_in;
use sk_ids::text::TEXT_LIMIT;
use sk_ids::{ObjId, Pid, Text};
use sk_script::{Process, Register, Scripts, Val};
use sk_store::{Becoming, BecomingBy, EntityState};

/// What a process becomes.
#[derive(Clone, Copy)]
pub enum Becomes {
    /// It goes on to its next instruction.
    Moves,
    /// It goes on to its next instruction, and has a value in a register.
    Gives(Register, Val),
    /// It goes on to its next instruction, and its handler begins at this place.
    Handler(u32),
    /// It goes on where it was before its handler; the error 22 where it was at none.
    Returns,
    /// It goes to its handler, with a signal in r6.
    Handles(u8, u32),
    /// It goes on, and has made one more object, which is in a register.
    Makes(Register, ObjId),
    /// It ends where it stands.
    Ends,
}

/// The register that holds the signal at a handler.
const SIGNAL_REGISTER: u8 = 6;

/// Goes on at the next instruction, with a value in a register.
fn give(process: &mut Process, register: Register, val: Val)
    requires { process.old.place + 1 < 2 ^ 32 }
    ensures { process.new ≡ given process.old register val }
{
    process.place += 1;
    process.registers.set(register, val);
}

/// Goes on at the next instruction, with an error in r0.
fn fail(process: &mut Process, error: Errno)
    requires { process.old.place + 1 < 2 ^ 32 }
    ensures { process.new ≡ failed process.old error }
{
    give(process, Register::ANSWER, Val::Num(error.answer()));
}

/// Goes on at the next instruction, with the length of its buffer in r0.
fn measure(process: &mut Process)
    requires { process.old.place + 1 < 2 ^ 32 }
    ensures { process.new ≡ answered process.old (length process.old.buffer) }
{
    let len = Val::Num(process.buffer.len() as i64);
    give(process, Register::ANSWER, len);
}

/// Goes back from the handler.
fn go_back(process: &mut Process)
    requires { process.old.place + 1 < 2 ^ 32 }
    ensures { process.new ≡ returned process.old process.old.saved }
{
    match process.saved {
        Some(place) => {
            process.place = place;
            process.saved = None;
        }
        None => fail(process, Errno::Invalid),
    }
}

/// Goes to the handler.
fn handle(process: &mut Process, signal: u8, handler: u32)
    ensures { process.new ≡ handling process.old signal handler }
{
    let register = Register::new(SIGNAL_REGISTER).unwrap();
    process.saved = Some(process.place);
    process.place = handler;
    process.registers.set(register, Val::Num(i64::from(signal)));
}

impl Becoming for Becomes {
    ghost use Rattle.sk_plain.specs.Seen.{CanBecome, process_after};

    ghost can = { λ b p. CanBecome p b };

    ghost after = { λ b p. process_after p b };

    fn change(&self, process: &mut Process) {
        match self {
            Becomes::Moves => process.place += 1,
            Becomes::Gives(register, val) => give(process, *register, *val),
            Becomes::Handler(place) => {
                process.place += 1;
                process.handler = Some(*place);
            }
            Becomes::Returns => go_back(process),
            Becomes::Handles(signal, handler) => handle(process, *signal, *handler),
            Becomes::Makes(register, object) => {
                process.objects += 1;
                give(process, *register, Val::Obj(*object));
            }
            Becomes::Ends => process.ended = true,
        }
    }
}

/// A text that comes to a process's buffer, and the number that it is answered.
#[derive(Clone, Copy)]
pub(crate) struct Filling<'a> {
    pub(crate) text: &'a Text,
    pub(crate) number: u64,
}

impl<'a> Becoming for Filling<'a> {
    ghost use Rattle.std.specs.Prelude.{◌+◌, ◌<◌, ◌^◌};
    ghost use Rattle.sk_plain.specs.Rows.{filled};

    ghost can = { λ f p. (p.place + 1 < 2 ^ 32) × (f.number < 2 ^ 63) };

    ghost after = { λ f p. filled p f.text.now f.number };

    fn change(&self, process: &mut Process) {
        process.buffer.set(self.text.as_slice());
        give(process, Register::ANSWER, Val::Num(self.number as i64));
    }
}

/// Reads bytes of what is there into a text, up to so many from a place on.
#[inline(always)]
pub(crate) fn read_there(there: Option<&EntityState>, from: u64, count: u32, text: &mut Text)
    ensures { text.new ≡ text_at (option_copied there.entry) from count }
{
    match there {
        Some(EntityState::Value(value)) => value.read_into(from, count as usize, text),
        _ => text.set(&[]),
    }
}

/// Bytes of what an entity has that come to a process's buffer, up to so many from a place on; it is answered a
/// number, or how many there are.
#[derive(Clone, Copy)]
pub(crate) struct Reading {
    pub(crate) from: u64,
    pub(crate) count: u32,
    pub(crate) number: Option<u64>,
}

impl BecomingBy for Reading {
    ghost use Rattle.std.specs.Prelude.{◌+◌, ◌<◌, ◌^◌, length, unwrap_or};
    ghost use Rattle.sk_plain.specs.Rows.{filled};
    ghost use Rattle.sk_plain.specs.Seen.{text_at};

    ghost can = { λ r _ p. (p.place + 1 < 2 ^ 32) × (unwrap_or r.number 0 < 2 ^ 63) };

    ghost after = { λ r there p. filled p (text_at there r.from r.count)
        (unwrap_or r.number (length (text_at there r.from r.count))) };

    fn change(&self, there: Option<&EntityState>, process: &mut Process) {
        read_there(there, self.from, self.count, &mut process.buffer);
        let number = self.number.unwrap_or(process.buffer.len() as u64);
        give(process, Register::ANSWER, Val::Num(number as i64));
    }
}

/// What a file has comes to a process's buffer, from a place on; or the process has an error.
#[derive(Clone, Copy)]
pub(crate) struct FileReading {
    pub(crate) from: Option<u64>,
}

impl BecomingBy for FileReading {
    ghost use Rattle.std.specs.Prelude.{◌+◌, ◌<◌, ◌^◌};
    ghost use Rattle.sk_plain.specs.Files.{after_read, file_in};

    ghost can = { λ _ _ p. p.place + 1 < 2 ^ 32 };

    ghost after = { λ r there p. after_read p (file_in there) r.from };

    fn change(&self, there: Option<&EntityState>, process: &mut Process) {
        let file = match file_in(there) {
            Ok(file) => file,
            Err(error) => return fail(process, error),
        };
        let Some(from) = self.from else {
            return fail(process, Errno::Invalid);
        };
        file.part_into(from as usize, TEXT_LIMIT, &mut process.buffer);
        measure(process);
    }
}

/// A process goes on, and is answered the length of its buffer.
#[derive(Clone, Copy)]
pub(crate) struct Measuring;

impl Becoming for Measuring {
    ghost use Rattle.std.specs.Prelude.{◌+◌, ◌<◌, ◌^◌, length};
    ghost use Rattle.sk_plain.specs.Rows.{answered};

    ghost can = { λ _ p. p.place + 1 < 2 ^ 32 };

    ghost after = { λ _ p. answered p (length p.buffer) };

    fn change(&self, process: &mut Process) {
        measure(process);
    }
}

/// A process does its next instruction, which is private.
#[derive(Clone, Copy)]
pub struct Doing<'a> {
    pub scripts: &'a Scripts,
}

impl<'a> Becoming for Doing<'a> {
    ghost use Rattle.std.specs.Prelude.{◌+◌, ◌<◌, ◌^◌, IsSome};
    ghost use Rattle.sk_plain.specs.Act.{next_in};
    ghost use Rattle.sk_plain.specs.Seen.{done_by};

    ghost can = { λ d p. IsSome (next_in d.scripts.now p) × (p.place + 1 < 2 ^ 32) };

    ghost after = { λ d p. done_by p (next_in d.scripts.now p) };

    fn change(&self, process: &mut Process) {
        match instruction_at(self.scripts, process) {
            Some(instruction) => {
                process.does(instruction);
            }
            None => unreachable!(),
        }
    }
}

/// A process has one more child, which is in a register.
#[derive(Clone, Copy)]
pub(crate) struct Forking {
    pub(crate) register: Register,
    pub(crate) child: Pid,
}

impl Becoming for Forking {
    ghost use Rattle.sk_plain.specs.Writing.{CanFork, forked};

    ghost can = { CanFork };

    ghost after = { forked };

    fn change(&self, process: &mut Process) {
        process.children += 1;
        give(process, self.register, Val::Who(self.child));
    }
}
