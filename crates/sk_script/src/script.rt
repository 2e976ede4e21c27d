//! Scripts.
ghost use Rattle.std.specs.Prelude.{◌≡◌, ◌≤◌, ◌↔◌, [], IsTrue, length, IfOk, slice_get};
ghost use Rattle.std.specs.Option.{option_copied};
ghost use Rattle.sk_script.specs.Script.{INSTRUCTIONS};

use crate::Instruction;
use std::alloc::{AllocError, Global};
use std::marker::Model;

/// The greatest number of instructions of a script.
pub const SCRIPT_LIMIT: usize = 4_096;

/// At most 4,096 instructions, which contracts see as a list.
#[derive(Drop)]
pub struct Script {
    instructions: Vec<Instruction>,
}

impl Model for Script {
    ghost use Rattle.std.specs.Prelude.{◌≤◌, List, length};
    ghost use Rattle.sk_script.specs.declared.instruction.Instruction.{Instruction};
    ghost use Rattle.sk_script.specs.Script.{INSTRUCTIONS};

    ghost Value = { List Instruction };

    ghost view = { λ s. s.instructions.items };

    ghost invariant = { λ s. length s.instructions.items ≤ INSTRUCTIONS };
}

impl PartialEq for Script {
    ghost use Rattle.std.specs.Cmp.{decided, partial_equiv_from_equiv};
    ghost use Rattle.sk_script.specs.Same.{same_script};
    ghost use Rattle.sk_script.specs.SameLemma.{exact_script};

    ghost eq = { same_script };

    ghost laws = { partial_equiv_from_equiv (decided same_script exact_script) };

    /// True exactly for the same instructions.
    fn eq(&self, other: &Script) -> bool
        ensures computed { result ≡ same_script self.now other.now }
        ensures exact { IsTrue result ↔ (self.now ≡ other.now) }
    {
        self.instructions.as_slice() == other.instructions.as_slice()
    }
}

impl Eq for Script {
    ghost use Rattle.std.specs.Cmp.{decided};
    ghost use Rattle.sk_script.specs.Same.{same_script};
    ghost use Rattle.sk_script.specs.SameLemma.{exact_script};

    ghost laws = { decided same_script exact_script };
}

impl Script {
    /// The script of these instructions.
    pub(crate) fn of(instructions: Vec<Instruction>) -> Script
        requires { length instructions.items ≤ INSTRUCTIONS }
        ensures { result ≡ instructions.items }
    {
        Script { instructions }
    }

    /// A script without instructions.
    pub(crate) fn empty(alloc: Global) -> Script
        ensures { result ≡ [] }
    {
        Script::of(Vec::new(alloc))
    }

    /// The instruction at a place, from 0 on; `None` past the last one.
    pub fn at(&self, place: u32) -> Option<Instruction>
        ensures { result ≡ slice_get self.now place }
    {
        self.instructions.get(place as usize).copied()
    }

    /// The instruction at a place, from 0 on, where it stands; `None` past the last one.
    pub fn get(&self, place: u32) -> Option<&Instruction>
        ensures { option_copied result ≡ slice_get self.now place }
    {
        self.instructions.get(place as usize)
    }

    /// The number of instructions, at most 4,096.
    pub fn len(&self) -> u32
        ensures value { result ≡ length self.now }
        ensures limit { result ≤ INSTRUCTIONS }
    {
        self.instructions.len() as u32
    }

    /// Whether there is no instruction.
    pub fn is_empty(&self) -> bool
        ensures { IsTrue result ↔ (self.now ≡ []) }
    {
        self.instructions.is_empty()
    }

    /// A copy of the script, with instructions of its own.
    pub fn copy(&self) -> Result<Script, AllocError>
        ensures { IfOk result (λ copy. copy ≡ self.now) }
    {
        let instructions = Vec::from_slice(*self.instructions.allocator(), &self.instructions)?;
        Ok(Script { instructions })
    }
}

impl Clone for Script {
    ghost is_clone = { λ copy script. copy ≡ script };

    fn clone(&self) -> Result<Script, AllocError> {
        self.copy()
    }
}
