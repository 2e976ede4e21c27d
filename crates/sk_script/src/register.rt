//! Registers, what they hold, and how that is printed.
ghost use Rattle.std.specs.Prelude.{◌≡◌, ◌↔◌, ◌<◌, IsSome, IfSome, replicate, slice_set};
ghost use Rattle.sk_script.specs.Registers.{held};
ghost use Rattle.sk_script.specs.declared.register.Val.{Val};

use sk_ids::{ObjId, Pid};
use sk_words::{FaultKind, Operand, Printed};
use std::fmt;
use std::marker::Model;

/// What a register holds: a number, an object or a process.
#[derive(Clone, Copy, Debug, PartialEq, Eq)]
pub enum Val {
    Num(i64),
    Obj(ObjId),
    Who(Pid),
}

/// A number as such, an object, or a process behind `@`.
impl fmt::Display for Val {
    ghost use Rattle.std.specs.Prelude.{Some};
    ghost use Rattle.sk_script.specs.Registers.{val_word};

    ghost output = { λ v. Some (val_word v) };

    fn fmt<W: fmt::Write>(&self, f: &mut fmt::Formatter<W>) -> fmt::Result {
        match self {
            Val::Num(number) => write!(f, "{number}"),
            Val::Obj(object) => {
                let object = Printed(*object);
                write!(f, "{object}")
            }
            Val::Who(pid) => {
                let pid = Printed(*pid);
                write!(f, "@{pid}")
            }
        }
    }
}

/// How many registers a process has.
pub const REGISTER_COUNT: u8 = 8;

/// The name of a register, from 0 to 7, which contracts see as its number.
#[derive(Clone, Copy, Debug, PartialEq, Eq)]
pub struct Register {
    number: u8,
}

impl Model for Register {
    ghost use Rattle.std.specs.Prelude.{ℕ, ◌<◌};

    ghost Value = { ℕ };

    ghost view = { λ r. r.number };

    ghost invariant = { λ r. r.number < 8 };

    ghost inverse = { λ n. record { number = n } };
}

impl Register {
    /// r0, where answers go.
    pub const ANSWER: Register = Register { number: 0 };

    /// r7, which holds the root at first.
    pub const LAST: Register = Register { number: 7 };

    /// The register of this number; `None` from 8 on.
    pub fn new(number: u8) -> Option<Register>
        ensures some { IsSome result ↔ (number < 8) }
        ensures value { IfSome result (λ r. r ≡ number) }
    {
        if number >= REGISTER_COUNT {
            return None;
        }
        Some(Register { number })
    }

    /// Its number, below 8.
    pub fn number(self) -> u8
        ensures value { result ≡ self }
        ensures limit { result < 8 }
    {
        self.number
    }
}

impl Operand for Register {
    ghost use Rattle.sk_script.specs.Registers.{register};

    ghost said = { register };

    fn read(word: &[u8]) -> Result<Register, FaultKind> {
        match word {
            [b'r', digit @ b'0'..=b'7'] => Register::new(*digit - b'0').ok_or(FaultKind::Operand),
            _ => Err(FaultKind::Operand),
        }
    }
}

/// The eight registers of a process, which contracts see as a list.
#[derive(Clone, Copy, Debug, PartialEq, Eq)]
pub struct Registers {
    cells: [Val; 8],
}

impl Model for Registers {
    ghost use Rattle.std.specs.Prelude.{◌≡◌, List, length};
    ghost use Rattle.sk_script.specs.declared.register.Val.{Val};

    ghost Value = { List Val };

    ghost view = { λ r. r.cells };

    ghost invariant = { λ r. length r.cells ≡ 8 };

    ghost inverse = { λ vals. record { cells = vals } };
}

impl Registers {
    /// Registers that all hold this.
    pub fn all(val: Val) -> Registers
        ensures { result ≡ replicate 8 val }
    {
        Registers { cells: [val; 8] }
    }

    /// What a register holds.
    pub fn get(&self, register: Register) -> Val
        ensures { result ≡ held self.now register }
    {
        self.cells[register.number as usize]
    }

    /// Puts a value into a register.
    pub fn set(&mut self, register: Register, val: Val)
        ensures { self.new ≡ slice_set self.old register val }
    {
        let place = usize::from(register.number);
        self.cells[place] = val;
    }

    /// The registers with another value in one of them.
    pub fn with(self, register: Register, val: Val) -> Registers
        ensures { result ≡ slice_set self register val }
    {
        let mut registers = self;
        registers.set(register, val);
        registers
    }
}
