//! What an entity has.
ghost use Rattle.std.specs.Prelude.{◌≡◌, IfOk, OnOk, OnErr, Some};
ghost use Rattle.sk_changes.specs.declared.change.Change.TheVariants as changes;

use crate::{Becoming, HeldProcess};
use sk_changes::{Change, Invertible, Undo, change_alone, change_noted};
use sk_ids::Text;
use sk_objects::{Content, Value};
use sk_script::Process;
use std::alloc::{AllocError, Global};

/// What an entity has: a process, or a value of a kernel object.
#[derive(Drop, PartialEq, Eq)]
pub enum EntityState {
    Process(HeldProcess),
    Value(Value),
}

impl EntityState {
    ghost use Rattle.sk_store.specs.Changed.{FitsAt, changed, StateFits, state_undone};
    ghost use Rattle.sk_store.specs.Processes.{CanBecome, became};

    /// What an entity has that is a process.
    #[inline(always)]
    pub fn process(alloc: Global, process: Process) -> Result<EntityState, AllocError>
        ensures { IfOk result (λ state. state ≡ EntityState.Process process) }
    {
        Ok(EntityState::Process(HeldProcess::new(alloc, process)?))
    }

    /// A cached copy of a content.
    #[inline(always)]
    pub fn content(alloc: Global, content: Content) -> Result<EntityState, AllocError>
        ensures { IfOk result (λ state. state ≡ EntityState.Value (Value.Copy content)) }
    {
        Ok(EntityState::Value(Value::content(alloc, content)?))
    }

    /// A copy of what an entity has.
    pub fn copy(&self) -> Result<EntityState, AllocError>
        ensures { IfOk result (λ copy. copy ≡ self.now) }
    {
        match self {
            EntityState::Process(held) => Ok(EntityState::Process(held.copy()?)),
            EntityState::Value(value) => Ok(EntityState::Value(value.copy()?)),
        }
    }

    /// Changes the value that it is, where it stands, with memory for the undo from `alloc`. Without
    /// memory nothing has changed.
    #[inline(always)]
    pub fn change(&mut self, alloc: Global, change: &Change) -> Result<Undo, AllocError>
        requires { FitsAt (Some self.old) change.now }
        ensures ok { OnOk result (self.new ≡ changed (Some self.old) change.now) }
        ensures can { IfOk result (λ undo. StateFits self.new undo) }
        ensures back { IfOk result (λ undo. state_undone self.new undo ≡ self.old) }
        ensures err { OnErr result (self.new ≡ self.old) }
    {
        match self {
            EntityState::Value(value) => {
                let undo = change_noted(value, alloc, change)?;
                Ok(undo)
            }
            EntityState::Process(_) => unreachable!(),
        }
    }

    /// Changes the value that it is, where it stands, and keeps nothing that takes that back. Without
    /// memory nothing has changed.
    pub fn change_alone(&mut self, alloc: Global, change: &Change) -> Result<(), AllocError>
        requires { FitsAt (Some self.old) change.now }
        ensures ok { OnOk result (self.new ≡ changed (Some self.old) change.now) }
        ensures err { OnErr result (self.new ≡ self.old) }
    {
        match self {
            EntityState::Value(value) => {
                change_alone(value, alloc, change)?;
                Ok(())
            }
            EntityState::Process(_) => unreachable!(),
        }
    }

    /// Writes bytes at a place of the file that it is, and keeps nothing that takes that back. Without memory nothing
    /// has changed.
    pub fn overwrite(&mut self, at: u32, bytes: &Text) -> Result<(), AllocError>
        requires { FitsAt (Some self.old) (changes.WriteAt at bytes.now) }
        ensures ok { OnOk result (self.new ≡ changed (Some self.old) (changes.WriteAt at bytes.now)) }
        ensures err { OnErr result (self.new ≡ self.old) }
    {
        match self {
            EntityState::Value(Value::File(file)) => file.write_at(at as usize, bytes.as_slice()),
            _ => unreachable!(),
        }
    }

    /// Changes the process that it is, where it stands, which takes no memory.
    pub fn become_by<C: Becoming>(&mut self, by: &C)
        requires { CanBecome (C.can by.now) (Some self.old) }
        ensures { self.new ≡ became (C.after by.now) (Some self.old) }
    {
        match self {
            EntityState::Process(held) => held.become_by(by),
            EntityState::Value(_) => unreachable!(),
        }
    }

    /// Takes back a change of the value that it is, which takes no memory.
    #[inline(always)]
    pub fn undo(&mut self, undo: Undo)
        requires { StateFits self.old undo }
        ensures { self.new ≡ state_undone self.old undo }
    {
        match self {
            EntityState::Value(value) => value.undo(undo),
            EntityState::Process(_) => unreachable!(),
        }
    }
}

impl Clone for EntityState {
    ghost is_clone = { λ copy stored. copy ≡ stored };

    fn clone(&self) -> Result<EntityState, AllocError> {
        self.copy()
    }
}
