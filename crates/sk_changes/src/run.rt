//! Changes made in turn, and taken back.
ghost use Rattle.std.specs.Prelude.{◌≡◌, true, false, [], Err, OnOk, fold};
ghost use Rattle.sk_changes.specs.Back.{back, CanGoBack};
ghost use Rattle.sk_changes.specs.InTurn.{all_fit};

use crate::{Change, Invertible, NotApplied, Undo};
use std::alloc::Global;

/// Makes changes in turn until one is refused, and notes an undo for each that was made.
pub fn apply_all<V: Invertible>(
    value: &mut V,
    changes: &[Change],
    undos: &mut Vec<Undo>,
) -> Result<(), NotApplied>
    ensures fit { OnOk result (all_fit V.fits V.applied value.old changes.now ≡ true) }
    ensures ok { OnOk result (value.new ≡ fold V.applied value.old changes.now) }
    ensures unfit { result ≡ Err NotApplied.Unfit
        → all_fit V.fits V.applied value.old changes.now ≡ false }
    ensures back { back V.undone value.new undos.new.items
        ≡ back V.undone value.old undos.old.items }
    ensures can { CanGoBack V.undone V.can_undo value.old undos.old.items
        → CanGoBack V.undone V.can_undo value.new undos.new.items }
{
    let alloc = *undos.allocator();
    for change in changes {
        if undos.reserve(1).is_err() {
            return Err(NotApplied::Memory);
        }
        let undo = value.apply(alloc, *change)?;
        undos.push_reserved(undo);
    }
    Ok(())
}

/// Takes changes back, the last first.
pub fn undo_all<V: Invertible>(value: &mut V, undos: &mut Vec<Undo>)
    requires { CanGoBack V.undone V.can_undo value.old undos.old.items }
    ensures value { value.new ≡ back V.undone value.old undos.old.items }
    ensures none { undos.new.items ≡ [] }
{
    while let Some(undo) = undos.pop() {
        value.undo(undo);
    }
}

/// Makes changes in turn until one is refused, and takes back all that were made: the value is as it
/// was.
pub fn try_all<V: Invertible>(
    alloc: Global,
    value: &mut V,
    changes: &[Change],
) -> Result<(), NotApplied>
    ensures value { value.new ≡ value.old }
    ensures fit { OnOk result (all_fit V.fits V.applied value.old changes.now ≡ true) }
    ensures unfit { result ≡ Err NotApplied.Unfit
        → all_fit V.fits V.applied value.old changes.now ≡ false }
{
    let mut undos = Vec::new(alloc);
    let outcome = apply_all(value, changes, &mut undos);
    undo_all(value, &mut undos);
    outcome
}
