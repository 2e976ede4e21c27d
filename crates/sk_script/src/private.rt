//! The private instructions, which read and write nothing but the process.
ghost use Rattle.std.specs.Prelude.{◌≡◌, ◌+◌, ◌+ℤ◌, ◌<◌, ◌^◌};
ghost use Rattle.sk_script.specs.Private.{given, buffered, invalid, at_place_if, is_zero, is_negative, integer_in, fitting, sum_of, number_given, process_given, private_step, private_next, Becomes};

use crate::{Instruction, Process, Register, Script, Val};
use sk_ids::{Pid, Text};

/// What r0 holds after the error EINVAL, 22.
const INVALID: i64 = -22;

fn is_zero(val: &Val) -> bool
    ensures { result ≡ is_zero val.now }
{
    match val {
        Val::Num(number) => *number == 0,
        Val::Obj(_) | Val::Who(_) => false,
    }
}

fn is_negative(val: &Val) -> bool
    ensures { result ≡ is_negative val.now }
{
    match val {
        Val::Num(number) => *number < 0,
        Val::Obj(_) | Val::Who(_) => false,
    }
}

/// The number that a value is.
fn integer_in(val: &Val) -> Option<i64>
    ensures { result ≡ integer_in val.now }
{
    match val {
        Val::Num(number) => Some(*number),
        Val::Obj(_) | Val::Who(_) => None,
    }
}

/// The sum of two numbers, where 64 bits hold it.
fn sum(a: i64, b: i64) -> Option<i64>
    ensures { result ≡ fitting (a +ℤ b) }
{
    a.checked_add(b)
}

/// The sum of two values, where they are numbers and 64 bits hold it.
fn sum_of(a: &Val, b: &Val) -> Option<i64>
    ensures { result ≡ sum_of (integer_in a.now) (integer_in b.now) }
{
    sum(integer_in(a)?, integer_in(b)?)
}

impl Process {
    fn give(&mut self, register: Register, val: Val)
        requires { self.old.place + 1 < 2 ^ 32 }
        ensures { self.new ≡ given self.old register val }
    {
        self.place += 1;
        self.registers.set(register, val);
    }

    fn fail(&mut self)
        requires { self.old.place + 1 < 2 ^ 32 }
        ensures { self.new ≡ invalid self.old }
    {
        self.give(Register::ANSWER, Val::Num(INVALID));
    }

    fn give_number(&mut self, register: Register, number: Option<i64>)
        requires { self.old.place + 1 < 2 ^ 32 }
        ensures { self.new ≡ number_given self.old register number }
    {
        match number {
            Some(number) => self.give(register, Val::Num(number)),
            None => self.fail(),
        }
    }

    fn give_process(&mut self, register: Register, pid: Option<Pid>)
        requires { self.old.place + 1 < 2 ^ 32 }
        ensures { self.new ≡ process_given self.old register pid }
    {
        match pid {
            Some(pid) => self.give(register, Val::Who(pid)),
            None => self.fail(),
        }
    }

    fn fill(&mut self, text: &Text)
        requires { self.old.place + 1 < 2 ^ 32 }
        ensures { self.new ≡ buffered self.old text.now }
    {
        self.place += 1;
        self.buffer = *text;
    }

    fn go_if(&mut self, holds: bool, place: u32)
        requires { self.old.place + 1 < 2 ^ 32 }
        ensures { self.new ≡ at_place_if holds self.old place }
    {
        self.place = if holds { place } else { self.place + 1 };
    }

    /// Does a private instruction in place; answers false, and changes nothing, where it is not
    /// private. The place must have a next one.
    #[inline(always)]
    pub fn does(&mut self, instruction: &Instruction) -> bool
        requires { self.old.place + 1 < 2 ^ 32 }
        ensures { Becomes result (private_step self.old instruction.now) self.old self.new }
    {
        match instruction {
            Instruction::Set(to, number) => self.give(*to, Val::Num(*number)),
            Instruction::Move(to, from) => {
                let val = self.registers.get(*from);
                self.give(*to, val);
            }
            Instruction::Add(to, from) => {
                let sum = sum_of(&self.registers.get(*to), &self.registers.get(*from));
                self.give_number(*to, sum);
            }
            Instruction::Text(text) => self.fill(text),
            Instruction::Len(to) => {
                let len = self.buffer.len() as i64;
                self.give(*to, Val::Num(len));
            }
            Instruction::SelfPid(to) => {
                let pid = self.pid;
                self.give(*to, Val::Who(pid));
            }
            Instruction::BootPid(to, number) => self.give_process(*to, Pid::boot(*number)),
            Instruction::Jump(place) => self.place = *place,
            Instruction::Zero(register, place) => {
                let holds = is_zero(&self.registers.get(*register));
                self.go_if(holds, *place);
            }
            Instruction::Negative(register, place) => {
                let holds = is_negative(&self.registers.get(*register));
                self.go_if(holds, *place);
            }
            _ => return false,
        }
        true
    }

    /// Does the next instruction of the process's script where it is private, in place; answers
    /// false, and changes nothing, where the process has ended, stands at the script's end, or the
    /// instruction is not private.
    pub fn private(&mut self, script: &Script) -> bool
        ensures { Becomes result (private_next self.old script.now) self.old self.new }
    {
        if self.ended || self.place >= script.len() {
            return false;
        }
        match script.get(self.place) {
            Some(instruction) => self.does(instruction),
            None => false,
        }
    }
}
