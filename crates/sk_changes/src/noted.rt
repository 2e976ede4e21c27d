//! Changes that fit, lent and not handed over, each with what takes it back.
ghost use Rattle.std.specs.Prelude.{◌≡◌, true, IfOk, OnOk, OnErr};
ghost use Rattle.sk_changes.specs.Files.{file_fits, file_grows, file_after, CanUndoFile, file_undone};
ghost use Rattle.sk_changes.specs.Pipes.{pipe_fits, pipe_grows, pipe_after, CanUndoPipe, pipe_undone};
ghost use Rattle.sk_changes.specs.Changes.{value_fits, value_grows, value_after, CanUndo, value_undone};

use crate::{Change, Invertible, NotApplied, Undo};
use sk_objects::{File, Pipe, Value};
use std::alloc::{AllocError, Global};

/// Makes a change that fits.
fn note_one<V: Invertible>(
    value: &mut V,
    alloc: Global,
    change: &Change,
) -> Result<Undo, AllocError>
    requires { V.fits value.old change.now ≡ true }
    ensures ok { OnOk result (value.new ≡ V.applied value.old change.now) }
    ensures can { IfOk result (λ undo. V.can_undo value.new undo) }
    ensures back { IfOk result (λ undo. V.undone value.new undo ≡ value.old) }
    ensures err { OnErr result (value.new ≡ value.old) }
    ensures memory { OnErr result (V.grows value.old change.now ≡ true) }
{
    match value.apply(alloc, *change) {
        Ok(undo) => Ok(undo),
        Err(NotApplied::Memory) => Err(AllocError),
        Err(NotApplied::Unfit) => unreachable!(),
    }
}

/// Makes a change of a file that fits. The bytes of a write are read where they stand.
fn note_file(file: &mut File, alloc: Global, change: &Change) -> Result<Undo, AllocError>
    requires { file_fits file.old change.now ≡ true }
    ensures ok { OnOk result (file.new ≡ file_after file.old change.now) }
    ensures can { IfOk result (λ undo. CanUndoFile file.new undo) }
    ensures back { IfOk result (λ undo. file_undone file.new undo ≡ file.old) }
    ensures err { OnErr result (file.new ≡ file.old) }
    ensures memory { OnErr result (file_grows file.old change.now ≡ true) }
{
    match change {
        Change::WriteAt { offset, bytes } => {
            let old = file.copy()?;
            file.write_at(*offset as usize, bytes.as_slice())?;
            Ok(Undo::Restore(old))
        }
        _ => note_one(file, alloc, change),
    }
}

/// Makes a change of a pipe that fits. The bytes that are put are read where they stand.
fn note_pipe(pipe: &mut Pipe, alloc: Global, change: &Change) -> Result<Undo, AllocError>
    requires { pipe_fits pipe.old change.now ≡ true }
    ensures ok { OnOk result (pipe.new ≡ pipe_after pipe.old change.now) }
    ensures can { IfOk result (λ undo. CanUndoPipe pipe.new undo) }
    ensures back { IfOk result (λ undo. pipe_undone pipe.new undo ≡ pipe.old) }
    ensures err { OnErr result (pipe.new ≡ pipe.old) }
    ensures memory { OnErr result (pipe_grows pipe.old change.now ≡ true) }
{
    let held = pipe.len();
    match change {
        Change::Put(bytes) => {
            pipe.put(bytes.as_slice());
            Ok(Undo::Unput(held as u32))
        }
        _ => note_one(pipe, alloc, change),
    }
}

/// Makes a change that fits, and answers what takes it back. Without memory nothing has changed; only a change that can
/// want memory does.
pub fn change_noted(value: &mut Value, alloc: Global, change: &Change) -> Result<Undo, AllocError>
    requires { value_fits value.old change.now ≡ true }
    ensures ok { OnOk result (value.new ≡ value_after value.old change.now) }
    ensures can { IfOk result (λ undo. CanUndo value.new undo) }
    ensures back { IfOk result (λ undo. value_undone value.new undo ≡ value.old) }
    ensures err { OnErr result (value.new ≡ value.old) }
    ensures memory { OnErr result (value_grows value.old change.now ≡ true) }
{
    match value {
        Value::File(file) => note_file(file, alloc, change),
        Value::Pipe(pipe) => note_pipe(pipe, alloc, change),
        Value::Signals(signals) => note_one(signals, alloc, change),
        Value::Exit(status) => note_one(status, alloc, change),
        Value::Copy(content) => note_one(content, alloc, change),
        Value::Dir | Value::Link(_) => unreachable!(),
    }
}
