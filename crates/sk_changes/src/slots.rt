//! Changes of exit slots and of cached copies.
ghost use Rattle.std.specs.Prelude.{false, ◌≡◌};
ghost use Rattle.sk_changes.specs.Base.{IsStatus, IsContent, ClearExit, Recopy};
ghost use Rattle.sk_changes.specs.Slots.{exit_fits, exit_after, exit_undone, copy_fits, copy_after, copy_undone};

use crate::{Change, Invertible, NotApplied, Undo};
use sk_objects::HeldContent;
use std::alloc::Global;

/// What holds of every exit slot, for proofs.
fn known(slot: Option<u8>)
    ensures { IsStatus slot }
{
    if let Some(_status) = slot {}
}

/// An exit slot.
impl Invertible for Option<u8> {
    ghost valid = { IsStatus };

    ghost fits = { exit_fits };

    ghost grows = { λ v c. false };

    ghost applied = { exit_after };

    ghost undo_of = { λ v c. ClearExit };

    ghost can_undo = { λ v u. Unit {0} };

    ghost undone = { exit_undone };

    fn apply(&mut self, _alloc: Global, change: Change) -> Result<Undo, NotApplied> {
        known(*self);
        let Change::SetExit(status) = change else {
            return Err(NotApplied::Unfit);
        };
        if self.is_some() {
            return Err(NotApplied::Unfit);
        }
        *self = Some(status);
        Ok(Undo::ClearExit)
    }

    fn undo(&mut self, undo: Undo) {
        if let Undo::ClearExit = undo {
            *self = None;
        }
    }

    ghost use Rattle.sk_objects.specs.Value.{IsStatus, IsContent};
    ghost use Rattle.sk_changes.specs.SlotsLaw.{exit_restores};

    ghost restores = { exit_restores };
}

impl Invertible for HeldContent {
    ghost valid = { IsContent };

    ghost fits = { copy_fits };

    ghost grows = { copy_fits };

    ghost applied = { copy_after };

    ghost undo_of = { λ v c. Recopy v };

    ghost can_undo = { λ v u. Unit {0} };

    ghost undone = { copy_undone };

    fn apply(&mut self, alloc: Global, change: Change) -> Result<Undo, NotApplied> {
        self.content().known();
        let Change::SetCopy(content) = change else {
            return Err(NotApplied::Unfit);
        };
        let new = HeldContent::new(alloc, content)?;
        let old = std::mem::replace(self, new);
        Ok(Undo::Recopy(old))
    }

    fn undo(&mut self, undo: Undo) {
        if let Undo::Recopy(old) = undo {
            *self = old;
        }
    }

    ghost use Rattle.sk_objects.specs.Value.{IsStatus, IsContent};
    ghost use Rattle.sk_changes.specs.SlotsLaw.{copy_restores};

    ghost restores = { copy_restores };
}
