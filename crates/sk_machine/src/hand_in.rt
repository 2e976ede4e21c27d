//! Many private instructions of one process at once.
ghost use Rattle.std.specs.Prelude.{◌≡◌, ◌∷◌, [], IfOk, OnOk, OnErr, Some};
ghost use Rattle.sk_machine.specs.Base.{alone_tags, Proc, IsProcess, look_at, Scripts, plain, alone_reads};
ghost use Rattle.sk_store.specs.declared.entity_state.EntityState.TheVariants as stored;
ghost use Rattle.sk_machine.specs.Dependents.{Covers, IsOrdered, tags_in};
ghost use Rattle.sk_machine.specs.Parts.{machine_of, undo_state_of};
ghost use Rattle.sk_machine.specs.Performed.{IsClean, Performed};
ghost use Rattle.sk_machine.specs.Taken.{HandsInProcess};

use crate::Machine;
use crate::lists::{depend_all, relieve_all};
use sk_ids::{Entity, Pid, TagSet};
use sk_script::Process;
use sk_store::Keeper;
use sk_undo::Logs;
use std::alloc::AllocError;
use std::slice;

/// Sets what a process has become, where it stands, which depends on these guesses. Without memory nothing has changed.
#[tactic(auto, using(crate::proofs::Writes::performed))]
fn set_process(logs: &mut Logs, tags: TagSet, pid: Pid, process: &Process) -> Result<(), AllocError>
    requires there { IsProcess (look_at logs.old.slots (Proc pid)) }
    requires clean { IsClean logs.old.slots tags (Proc pid ∷ []) }
    ensures ok { OnOk result
        (Performed logs.old.slots tags ((Proc pid, Some (stored.Process process.now)) ∷ [])
        logs.new.slots) }
    ensures err { OnErr result (logs.new.slots ≡ logs.old.slots) }
{
    logs.set_tags(tags);
    logs.change_process(pid, process)
}

impl Machine {
    /// The guesses that private instructions of a process depend on: those of the process and of its signals, of which there
    /// are none where no guess is open.
    fn alone_tags(&self, pid: Pid) -> Result<TagSet, AllocError>
        requires { IsOrdered (undo_state_of self.now) }
        ensures alone { IfOk result (λ tags. (scripts : Scripts) → tags
            ≡ alone_tags (plain scripts) (machine_of self.now) (Proc pid) (alone_reads pid)) }
        ensures covers { IfOk result
            (λ tags. Covers tags (Proc pid ∷ []) (tags_in self.now.slots)) }
    {
        let none = TagSet::new(self.alloc);
        if self.open_count() == 0 {
            let _rising = none.ids();
            return Ok(none);
        }
        let touched = [Entity::Proc(pid), Entity::Sig(pid)];
        self.add_tags(none, touched.as_slice())
    }

    /// Sets what a process that is there has become by private instructions, where it stands: one write, with one note.
    /// Without memory nothing has changed.
    pub fn hand_in(&mut self, pid: Pid, process: &Process) -> Result<(), AllocError>
        requires there { IsProcess (look_at self.old.slots (Proc pid)) }
        requires order { IsOrdered (undo_state_of self.old) }
        ensures ok { OnOk result (HandsInProcess self.old pid process.now self.new) }
        ensures guesses { self.new.guesses ≡ self.old.guesses }
        ensures err { OnErr result (self.new ≡ self.old) }
    {
        let tags = self.alone_tags(pid)?;
        let own = Entity::Proc(pid);
        let entities = slice::from_ref(&own);
        depend_all(
            &mut self.guesses,
            &self.logs,
            &self.untagged,
            &tags,
            entities,
        )?;
        if set_process(&mut self.logs, tags, pid, process).is_err() {
            relieve_all(&mut self.guesses, &self.logs, &self.untagged, entities);
            return Err(AllocError);
        }
        Ok(())
    }
}
