//! A process on the heap, so that what an entity has is a few words.
ghost use Rattle.std.specs.Prelude.{◌≡◌, IfOk};

use crate::Becoming;
use sk_script::Process;
use std::alloc::{AllocError, Global};
use std::marker::Model;

/// A process in a box of its own; contracts see the process.
#[derive(Drop)]
pub struct HeldProcess {
    process: Box<Process>,
}

impl Model for HeldProcess {
    ghost use Rattle.sk_script.specs.declared.process.Process.{Process};
    ghost use Rattle.sk_script.specs.contracts.process.Process as process_row;

    ghost Value = { Process };

    ghost coded = { process_row.the_row.coded };

    ghost view = { λ h. h.process.value };
}

impl PartialEq for HeldProcess {
    ghost use Rattle.std.specs.Cmp.{partial_equiv_from_equiv};
    ghost use Rattle.sk_script.specs.contracts.process.ProcessEq.TheImpl.Laws.{laws-law as process_laws};
    ghost use Rattle.sk_script.specs.contracts.process.ProcessPartialEq.TheImpl as process;

    ghost eq = { (process.ghosts).eq };

    ghost laws = { partial_equiv_from_equiv process_laws };

    fn eq(&self, other: &HeldProcess) -> bool {
        self.process() == other.process()
    }
}

impl Eq for HeldProcess {
    ghost use Rattle.sk_script.specs.contracts.process.ProcessEq.TheImpl.Laws.{laws-law as process_laws};

    ghost laws = { process_laws };
}

impl HeldProcess {
    /// Takes a process in. Inlined, so that it is not copied on its way into its box.
    #[inline(always)]
    pub fn new(alloc: Global, process: Process) -> Result<HeldProcess, AllocError>
        ensures { IfOk result (λ held. held ≡ process) }
    {
        let process = Box::new(alloc, process)?;
        Ok(HeldProcess { process })
    }

    #[inline(always)]
    pub fn process(&self) -> &Process
        ensures { result.now ≡ self.now }
    {
        &self.process
    }

    /// Another of the same process, in a box of its own.
    pub fn copy(&self) -> Result<HeldProcess, AllocError>
        ensures { IfOk result (λ copy. copy ≡ self.now) }
    {
        let process = Box::new(*Box::allocator(&self.process), *self.process)?;
        Ok(HeldProcess { process })
    }

    /// Changes the process where it stands, which takes no memory.
    #[inline(always)]
    pub fn become_by<C: Becoming>(&mut self, by: &C)
        requires { C.can by.now self.old }
        ensures { self.new ≡ C.after by.now self.old }
    {
        by.change(&mut self.process);
    }
}
