//! Changes of queues of signals.
ghost use Rattle.std.specs.Prelude.{false, ◌≡◌, ◌≤◌, length, All};
ghost use Rattle.sk_changes.specs.Base.{IsSignal, SIGNALS_LIMIT};
ghost use Rattle.sk_changes.specs.Queues.{queue_fits, queue_after, queue_undo, CanUndoQueue, queue_undone};

use crate::{Change, Invertible, NotApplied, Undo};
use sk_objects::Signals;
use sk_objects::signals::{LAST_SIGNAL, SIGNALS_LIMIT};
use std::alloc::Global;

impl Invertible for Signals {
    ghost valid = { λ s. (length s ≤ SIGNALS_LIMIT) × All IsSignal s };

    ghost fits = { queue_fits };

    ghost grows = { λ v c. false };

    ghost applied = { queue_after };

    ghost undo_of = { queue_undo };

    ghost can_undo = { CanUndoQueue };

    ghost undone = { queue_undone };

    fn apply(&mut self, _alloc: Global, change: Change) -> Result<Undo, NotApplied> {
        let len = self.len();
        match change {
            Change::PushSignal(signal) => {
                if len >= SIGNALS_LIMIT || signal < 1 || signal > LAST_SIGNAL {
                    return Err(NotApplied::Unfit);
                }
                self.push(signal);
                Ok(Undo::Unpush)
            }
            Change::TakeSignal => {
                if len == 0 {
                    return Err(NotApplied::Unfit);
                }
                Ok(Undo::Requeue(self.take()))
            }
            _ => Err(NotApplied::Unfit),
        }
    }

    fn undo(&mut self, undo: Undo) {
        match undo {
            Undo::Unpush => self.drop_newest(),
            Undo::Requeue(signal) => self.put_back(signal),
            _ => {}
        }
    }

    ghost use Rattle.sk_objects.specs.declared.signals.TheConstants.{SIGNALS_LIMIT};
    ghost use Rattle.sk_changes.specs.QueuesLaw.{queue_restores};

    ghost restores = { queue_restores };
}
