//! Values that are only ever set.
use crate::{Before, Inversion};
use std::mem;

/// Nothing: what was there before is put back whole.
#[derive(Drop)]
pub struct NoUndo;

/// Values are only ever set.
pub struct Whole;

impl<V> Inversion<V> for Whole {
    ghost use Rattle.std.specs.Prelude.{⊤};

    type Write = Option<V>;

    type Undo = NoUndo;

    ghost written = { λ value _. value };

    ghost undone = { λ _ v. v };

    ghost fits = { λ _ _. ⊤ };

    fn write(value: &mut Option<V>, write: Option<V>) -> Before<V, NoUndo> {
        Before::Was(mem::replace(value, write))
    }

    fn undo(_value: &mut V, _undo: NoUndo) {}

    fn join(later: NoUndo, _earlier: NoUndo) -> NoUndo {
        later
    }
}
