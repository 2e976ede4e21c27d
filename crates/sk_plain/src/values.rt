//! What a register's value stands for, and what the object is that a row is about.
ghost use Rattle.std.specs.Prelude.{◌≡◌, ◌≤◌, IfSome, IfOk, IfErr, Some, Err};
ghost use Rattle.sk_plain.specs.Base.{option_copied, Obj, Link, held};
ghost use Rattle.sk_objects.specs.declared.value.Value.TheVariants as values;
ghost use Rattle.sk_store.specs.declared.entity_state.EntityState.TheVariants as stored;
ghost use Rattle.sk_plain.specs.Rows.{object_in, number_in, number_to, who_in};
ghost use Rattle.sk_plain.specs.Files.{file_in};
ghost use Rattle.sk_plain.specs.Names.{no_directory, target_at};
ghost use Rattle.sk_plain.specs.Pipes.{pipe_in};

use crate::Errno;
use sk_ids::{Entity, Name, ObjId, Pid};
use sk_objects::{File, Pipe, Value};
use sk_script::{Process, Register, Val};
use sk_store::{EntityState, Look};

/// The object that a register holds.
pub(crate) fn object_at(process: &Process, register: Register) -> Option<ObjId>
    ensures { result ≡ object_in (held process.now.registers register) }
{
    match process.registers.get(register) {
        Val::Obj(object) => Some(object),
        Val::Num(_) | Val::Who(_) => None,
    }
}

/// The number from 0 on that a register holds.
pub(crate) fn number_at(process: &Process, register: Register) -> Option<u64>
    ensures { result ≡ number_in (held process.now.registers register) }
{
    match process.registers.get(register) {
        Val::Num(number) => u64::try_from(number).ok(),
        Val::Obj(_) | Val::Who(_) => None,
    }
}

/// The number from 1 up to a greatest one that a register holds.
pub(crate) fn number_up_to(process: &Process, register: Register, greatest: u16) -> Option<u16>
    ensures value { result ≡ number_to greatest (held process.now.registers register) }
    ensures some { IfSome result (λ n. (1 ≤ n) × (n ≤ greatest)) }
{
    match process.registers.get(register) {
        Val::Num(number) if number >= 1 && number <= i64::from(greatest) => Some(number as u16),
        _ => None,
    }
}

/// The process that a register holds.
pub(crate) fn who_at(process: &Process, register: Register) -> Option<Pid>
    ensures { result ≡ who_in (held process.now.registers register) }
{
    match process.registers.get(register) {
        Val::Who(pid) => Some(pid),
        Val::Num(_) | Val::Obj(_) => None,
    }
}

/// The file that an object is, or the error of a row that is about one.
#[inline(always)]
pub(crate) fn file_at<'a, S: Look>(store: &'a S, object: &ObjId) -> Result<&'a File, Errno>
    ensures ok { IfOk result
        (λ file. S.look store.now (Obj object.now) ≡ Some (stored.Value (values.File file.now))) }
    ensures err { IfErr result (λ error. file_in (S.look store.now (Obj object.now)) ≡ Err error) }
{
    file_in(store.value(Entity::Obj(*object)))
}

/// The file that is there, or the error of a row that is about one.
#[inline(always)]
pub(crate) fn file_in(there: Option<&EntityState>) -> Result<&File, Errno>
    ensures ok { IfOk result
        (λ file. option_copied there.entry ≡ Some (stored.Value (values.File file.now))) }
    ensures err { IfErr result (λ error. file_in (option_copied there.entry) ≡ Err error) }
{
    match there {
        Some(EntityState::Value(Value::File(file))) => Ok(file),
        Some(EntityState::Value(Value::Dir)) => Err(Errno::IsDirectory),
        Some(EntityState::Value(Value::Pipe(_))) => Err(Errno::Invalid),
        _ => Err(Errno::BadObject),
    }
}

/// Why an object is no directory.
pub(crate) fn no_directory<S: Look>(store: &S, object: &ObjId) -> Option<Errno>
    ensures { result ≡ no_directory (S.look store.now (Obj object.now)) }
{
    match store.value(Entity::Obj(*object)) {
        Some(EntityState::Value(Value::Dir)) => None,
        Some(EntityState::Value(Value::File(_) | Value::Pipe(_))) => Some(Errno::NotDirectory),
        _ => Some(Errno::BadObject),
    }
}

/// The object that a name of a directory is linked to.
pub(crate) fn target_at<S: Look>(store: &S, directory: &ObjId, name: &Name) -> Option<ObjId>
    ensures { result ≡ target_at (S.look store.now (Link directory.now name.now)) }
{
    match store.value(Entity::Link(*directory, *name)) {
        Some(EntityState::Value(value)) => value.target(),
        _ => None,
    }
}

/// The pipe that an object is, or the error of a row that is about one.
pub(crate) fn pipe_at<'a, S: Look>(store: &'a S, object: &ObjId) -> Result<&'a Pipe, Errno>
    ensures ok { IfOk result
        (λ pipe. S.look store.now (Obj object.now) ≡ Some (stored.Value (values.Pipe pipe.now))) }
    ensures err { IfErr result (λ error. pipe_in (S.look store.now (Obj object.now)) ≡ Err error) }
{
    match store.value(Entity::Obj(*object)) {
        Some(EntityState::Value(Value::Pipe(pipe))) => Ok(pipe),
        Some(EntityState::Value(Value::File(_) | Value::Dir)) => Err(Errno::Invalid),
        _ => Err(Errno::BadObject),
    }
}
