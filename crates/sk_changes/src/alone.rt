//! Changes that nobody takes back, so that nothing is kept of what they change.
ghost use Rattle.std.specs.Prelude.{◌≡◌, true, OnOk, OnErr};
ghost use Rattle.sk_changes.specs.Files.{file_fits, file_after};
ghost use Rattle.sk_changes.specs.Pipes.{pipe_fits, pipe_after};
ghost use Rattle.sk_changes.specs.Changes.{value_fits, value_after};

use crate::{Change, Invertible};
use sk_objects::{File, Pipe, Value};
use std::alloc::{AllocError, Global};

/// Makes a change that fits, and drops its undo.
fn change_one<V: Invertible>(
    value: &mut V,
    alloc: Global,
    change: &Change,
) -> Result<(), AllocError>
    requires { V.fits value.old change.now ≡ true }
    ensures ok { OnOk result (value.new ≡ V.applied value.old change.now) }
    ensures err { OnErr result (value.new ≡ value.old) }
{
    match value.apply(alloc, *change) {
        Ok(_) => Ok(()),
        Err(_) => Err(AllocError),
    }
}

/// Makes a change of a file that fits.
fn change_file(file: &mut File, change: &Change) -> Result<(), AllocError>
    requires { file_fits file.old change.now ≡ true }
    ensures ok { OnOk result (file.new ≡ file_after file.old change.now) }
    ensures err { OnErr result (file.new ≡ file.old) }
{
    match change {
        Change::WriteAt { offset, bytes } => file.write_at(*offset as usize, bytes.as_slice()),
        Change::CutTo(count) => file.cut_to(*count as usize),
        _ => unreachable!(),
    }
}

/// Makes a change of a pipe that fits. Bytes that are taken are not kept.
fn change_pipe(pipe: &mut Pipe, alloc: Global, change: &Change) -> Result<(), AllocError>
    requires { pipe_fits pipe.old change.now ≡ true }
    ensures ok { OnOk result (pipe.new ≡ pipe_after pipe.old change.now) }
    ensures err { OnErr result (pipe.new ≡ pipe.old) }
{
    match change {
        Change::Take(count) => {
            pipe.advance(*count as usize);
            Ok(())
        }
        _ => change_one(pipe, alloc, change),
    }
}

/// Makes a change that fits, and keeps nothing that takes it back. Without memory nothing has
/// changed.
pub fn change_alone(value: &mut Value, alloc: Global, change: &Change) -> Result<(), AllocError>
    requires { value_fits value.old change.now ≡ true }
    ensures ok { OnOk result (value.new ≡ value_after value.old change.now) }
    ensures err { OnErr result (value.new ≡ value.old) }
{
    match value {
        Value::File(file) => change_file(file, change),
        Value::Pipe(pipe) => change_pipe(pipe, alloc, change),
        Value::Signals(signals) => change_one(signals, alloc, change),
        Value::Exit(status) => change_one(status, alloc, change),
        Value::Copy(content) => change_one(content, alloc, change),
        Value::Dir | Value::Link(_) => unreachable!(),
    }
}
