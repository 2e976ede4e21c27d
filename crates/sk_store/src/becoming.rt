//! What a process becomes.
use crate::EntityState;
use sk_script::{Instruction, Process};

/// What a process becomes, by a change where it stands.
pub trait Becoming {
    ghost use Rattle.std.specs.Prelude.{◌≡◌};
    ghost use Rattle.sk_script.specs.declared.process.Process.{Process};

    /// Whether a process can be changed so.
    ghost can: { Self → Process → Type 0 };

    /// The process after the change.
    ghost after: { Self → Process → Process };

    /// Changes a process, which takes no memory.
    fn change(&self, process: &mut Process)
        requires { can self.now process.old }
        ensures { process.new ≡ after self.now process.old };
}

/// What a process becomes by what an entity has, by a change where it stands.
pub trait BecomingBy {
    ghost use Rattle.std.specs.Prelude.{◌≡◌, Option};
    ghost use Rattle.std.specs.Option.{option_copied};
    ghost use Rattle.sk_script.specs.declared.process.Process.{Process};
    ghost use Rattle.sk_store.specs.declared.entity_state.EntityState.{EntityState};

    /// Whether a process can be changed so.
    ghost can: { Self → Option EntityState → Process → Type 0 };

    /// The process after the change.
    ghost after: { Self → Option EntityState → Process → Process };

    /// Changes a process by what is there, which takes no memory.
    fn change(&self, there: Option<&EntityState>, process: &mut Process)
        requires { can self.now (option_copied there) process.old }
        ensures { process.new ≡ after self.now (option_copied there.entry) process.old };
}

/// A change of a process by what an entity has, with what it has.
#[derive(Drop)]
pub struct Seeing<'a, 'b, C> {
    pub by: &'a C,
    pub there: Option<&'b EntityState>,
}

impl<'a, 'b, C: BecomingBy> Becoming for Seeing<'a, 'b, C> {
    ghost use Rattle.std.specs.Option.{option_copied};

    ghost can = { λ s. C.can s.by.now (option_copied s.there) };

    ghost after = { λ s. C.after s.by.now (option_copied s.there) };

    #[inline(always)]
    fn change(&self, process: &mut Process) {
        self.by.change(self.there, process);
    }
}

/// A process becomes another.
impl Becoming for Process {
    ghost can = { λ _ _. Unit {0} };

    ghost after = { λ other _. other };

    fn change(&self, process: &mut Process) {
        *process = *self;
    }
}

/// A private instruction is done.
impl Becoming for Instruction {
    ghost use Rattle.sk_store.specs.Processes.{CanDo, done};

    ghost can = { CanDo };

    ghost after = { done };

    fn change(&self, process: &mut Process) {
        process.does(self);
    }
}
