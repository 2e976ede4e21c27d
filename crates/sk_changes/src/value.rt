//! Changes of values of any kind.
ghost use Rattle.std.specs.Prelude.{◌≡◌};
ghost use Rattle.sk_objects.specs.Value.{IsValue};
ghost use Rattle.sk_changes.specs.Changes.{value_fits, value_grows, value_after, value_undo, CanUndo, value_undone};

use crate::{Change, Invertible, NotApplied, Undo};
use sk_objects::Value;
use std::alloc::Global;

impl Invertible for Value {
    ghost valid = { IsValue };

    ghost fits = { value_fits };

    ghost grows = { value_grows };

    ghost applied = { value_after };

    ghost undo_of = { value_undo };

    ghost can_undo = { CanUndo };

    ghost undone = { value_undone };

    fn apply(&mut self, alloc: Global, change: Change) -> Result<Undo, NotApplied> {
        match self {
            Value::File(file) => file.apply(alloc, change),
            Value::Dir | Value::Link(_) => Err(NotApplied::Unfit),
            Value::Pipe(pipe) => pipe.apply(alloc, change),
            Value::Signals(signals) => signals.apply(alloc, change),
            Value::Exit(status) => status.apply(alloc, change),
            Value::Copy(content) => content.apply(alloc, change),
        }
    }

    fn undo(&mut self, undo: Undo) {
        match self {
            Value::File(file) => file.undo(undo),
            Value::Dir | Value::Link(_) => {}
            Value::Pipe(pipe) => pipe.undo(undo),
            Value::Signals(signals) => signals.undo(undo),
            Value::Exit(status) => status.undo(undo),
            Value::Copy(content) => content.undo(undo),
        }
    }

    ghost use Rattle.sk_changes.specs.ChangesLaw.{value_restores};

    ghost restores = { value_restores };
}
