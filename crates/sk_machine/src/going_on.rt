//! Private steps of a process that depends on all that its step reads depends on: it is changed where it stands, and neither
//! notes nor lists change.
ghost use Rattle.std.specs.Prelude.{◌≡◌, IfSome, None, true, false};
ghost use Rattle.sk_machine.specs.Base.{MergedTakes, input_in, plain, DoesNext, look_at};
ghost use Rattle.sk_machine.specs.Dependents.{IsEnough, IsOrdered};
ghost use Rattle.sk_machine.specs.Parts.{machine_of, undo_state_of};
ghost use Rattle.sk_machine.specs.Taken.{CanTake};

use crate::Machine;
use crate::lists::tags_of;
use crate::machine::is_none;
use sk_ids::{Entity, Pid};
use sk_plain::{InputRef, Plan};
use sk_script::{Instruction, Scripts};

impl Machine {
    /// So many guesses a process has to depend on at least, for its signals to depend on no others: all that are undecided, or
    /// none where the signals depend on none. The last step tells which is looked for. `None` where neither is known.
    fn least_tags(&self, pid: Pid) -> Option<usize>
        requires { IsOrdered (undo_state_of self.now) }
        ensures { IfSome result (λ least. IsEnough least pid self.now.slots) }
    {
        let all = self.open_count();
        if all == 0 {
            return Some(all);
        }
        if self.logs.next_tags().ids().len() == all {
            return Some(all);
        }
        if is_none(tags_of(&self.logs, &self.untagged, &Entity::Sig(pid))) {
            return Some(0);
        }
        None
    }

    /// Does a planned private instruction where its process goes on with the guesses that it depends on. Answers whether; else
    /// nothing has changed. This takes no memory.
    pub(crate) fn go_on(
        &mut self,
        scripts: &Scripts,
        pid: Pid,
        input: InputRef<'_>,
        plan: &Plan,
        instruction: &Instruction,
    ) -> bool
        requires step { CanTake self.old scripts.now pid (input_in input) plan.now }
        requires next { DoesNext (look_at self.old.slots) scripts.now pid plan.now instruction.now }
        ensures takes { result ≡ true
            → MergedTakes (plain scripts.now) (machine_of self.old)
            (record { pid = pid; input = (input_in input.entry); guess = None })
            (machine_of self.new) }
        ensures guesses { self.new.guesses ≡ self.old.guesses }
        ensures same { result ≡ false → self.new ≡ self.old }
    {
        let Some(least) = self.least_tags(pid) else {
            return false;
        };
        self.logs.go_on(pid, least, instruction)
    }
}
