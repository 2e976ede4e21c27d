//! What the instructions on new objects and on files will do.
ghost use Rattle.std.specs.Prelude.{◌≡◌, ◌≢◌, ◌+◌, ◌<◌, ◌^◌, Some, Ok, pos, neg_ℤ};
ghost use Rattle.sk_plain.specs.Base.{Ask, Obj, held};
ghost use Rattle.sk_objects.specs.declared.value.Value.TheVariants as values;
ghost use Rattle.sk_store.specs.declared.entity_state.EntityState.TheVariants as stored;
ghost use Rattle.sk_script.specs.declared.register.Val.TheVariants as vals;
ghost use Rattle.sk_plain.specs.Refusal.{error_number};
ghost use Rattle.sk_plain.specs.Rows.{object_in, number_in};
ghost use Rattle.sk_plain.specs.Files.{made as made_row, size as size_row, read as read_row, written_at, write as write_row, cut_to, cut as cut_row};
ghost use Rattle.sk_plain.specs.declared.plan.Beside.TheVariants as Beside;
ghost use Rattle.sk_plain.specs.declared.plan.Looks.TheVariants as Looks;
ghost use Rattle.sk_plain.specs.Seen.{PlansAny, PlansRow, row_of};

use crate::shapes::{alone, answered, changed, failed, given, looked, wrote};
use crate::values::{file_at, number_at, object_at};
use crate::{Becomes, Errno, Plan, ProcessChange, Row, Writes};
use sk_ids::{Entity, ObjId, Pid};
use sk_objects::file::FILE_LIMIT;
use sk_objects::{File, Kind};
use sk_script::{Process, Register, Val};
use sk_store::Look;

/// `mkfile rA`, `mkdir rA`, `mkpipe rA`
pub(crate) fn made<S: Look>(
    _store: &S,
    pid: Pid,
    process: &Process,
    register: Register,
    kind: Kind,
) -> Row
    requires place { process.now.place + 1 < 2 ^ 32 }
    requires kind { kind ≢ Kind.Link }
    ensures { PlansRow (S.look _store.now) process.now pid (made_row pid process.now register kind)
        (Ok result) }
{
    if process.objects >= u32::MAX {
        return alone(failed(Errno::NoSpace));
    }
    let object = ObjId {
        maker: Some(pid),
        count: process.objects + 1,
    };
    let change = ProcessChange::Does(Becomes::Makes(register, object));
    let object = ObjId {
        maker: Some(pid),
        count: process.objects + 1,
    };
    wrote(change, Entity::Obj(object), Writes::Empty(kind))
}

/// Puts the row of `made` into a plan. It is frequent and so stands by itself: no other row has a place in its frame.
#[inline(never)]
#[tactic(auto, using(crate::proofs::Plans::rows))]
pub(crate) fn put_made<S: Look>(
    store: &S,
    pid: Pid,
    process: &Process,
    register: Register,
    kind: Kind,
    plan: &mut Plan,
)
    requires place { process.now.place + 1 < 2 ^ 32 }
    requires kind { kind ≢ Kind.Link }
    ensures { PlansAny (S.look store.now) process.now pid
        (made_row pid process.now register kind) plan.new }
{
    *plan = Plan::Acts(made(store, pid, process, register, kind));
}

/// `size rF`
pub(crate) fn size<S: Look>(store: &S, pid: Pid, process: &Process, file: Register) -> Row
    requires { process.now.place + 1 < 2 ^ 32 }
    ensures { PlansRow (S.look store.now) process.now pid
        (size_row pid process.now (object_in (held process.now.registers file))) (Ok result) }
{
    let held = object_at(process, file);
    let Some(object) = &held else {
        return alone(failed(Errno::BadObject));
    };
    let change = match file_at(store, object) {
        Ok(file) => answered(file.len() as u64),
        Err(error) => failed(error),
    };
    looked(change, Entity::Obj(*object))
}

/// An object was looked at, and a number is in r0 then. It stands by itself, so that a frequent plan has no place of a whole row
/// in its frame.
#[inline(never)]
fn put_answer(plan: &mut Plan, answer: i64, object: ObjId)
    ensures { plan.new ≡ Plan.Acts (row_of (ProcessChange.Does (Becomes.Gives 0 (vals.Num answer)))
        (Looks.At (Obj object)) Beside.Nothing) }
{
    let change = given(Register::ANSWER, Val::Num(answer));
    *plan = Plan::Acts(looked(change, Entity::Obj(object)));
}

/// Plans the error 9, where no object was there to look at.
#[inline(never)]
fn put_missing(plan: &mut Plan)
    ensures { plan.new ≡ Plan.Acts (row_of (ProcessChange.Does (Becomes.Gives 0 (vals.Num (neg_ℤ
        (pos (error_number Errno.BadObject)))))) Looks.Nowhere Beside.Nothing) }
{
    *plan = Plan::Acts(alone(failed(Errno::BadObject)));
}

/// `read rF rO`. What the object is is told when it is read.
#[inline(always)]
pub(crate) fn put_read<S: Look>(
    _store: &S,
    pid: Pid,
    process: &Process,
    file: Register,
    at: Register,
    plan: &mut Plan,
)
    requires { process.now.place + 1 < 2 ^ 32 }
    ensures { PlansAny (S.look _store.now) process.now pid (read_row pid process.now (object_in
        (held process.now.registers file)) (number_in (held process.now.registers at))) plan.new }
{
    match object_at(process, file) {
        Some(object) => *plan = Plan::ReadsFile(object, number_at(process, at)),
        None => put_missing(plan),
    }
}

/// The buffer written at a place of a file.
#[inline(always)]
fn put_written<S: Look>(
    _store: &S,
    pid: Pid,
    process: &Process,
    object: ObjId,
    file: &File,
    at: u64,
    plan: &mut Plan,
)
    requires place { process.now.place + 1 < 2 ^ 32 }
    requires there { S.look _store.now (Obj object) ≡ Some (stored.Value (values.File file.now)) }
    ensures { PlansAny (S.look _store.now) process.now pid
        (Ask (Obj object) (λ v. written_at pid process.now object file.now at)) plan.new }
{
    let len = process.buffer.len() as u64;
    if at > FILE_LIMIT as u64 - len {
        return put_answer(plan, Errno::TooBig.answer(), object);
    }
    if len == 0 {
        return put_answer(plan, 0, object);
    }
    *plan = Plan::WritesFile(object, at as u32);
}

/// `write rF rO`
#[inline(always)]
pub(crate) fn put_write<S: Look>(
    store: &S,
    pid: Pid,
    process: &Process,
    file: Register,
    at: Register,
    plan: &mut Plan,
)
    requires { process.now.place + 1 < 2 ^ 32 }
    ensures { PlansAny (S.look store.now) process.now pid (write_row pid process.now (object_in
        (held process.now.registers file)) (number_in (held process.now.registers at))) plan.new }
{
    let Some(object) = object_at(process, file) else {
        return put_missing(plan);
    };
    match file_at(store, &object) {
        Ok(file) => match number_at(process, at) {
            Some(at) => put_written(store, pid, process, object, file, at, plan),
            None => put_answer(plan, Errno::Invalid.answer(), object),
        },
        Err(error) => put_answer(plan, error.answer(), object),
    }
}

/// A file of this length cut to a size.
fn cut_to<S: Look>(
    _store: &S,
    pid: Pid,
    process: &Process,
    object: &ObjId,
    file: &File,
    size: u64,
) -> Row
    requires place { process.now.place + 1 < 2 ^ 32 }
    requires there { S.look _store.now (Obj object.now)
        ≡ Some (stored.Value (values.File file.now)) }
    ensures { PlansRow (S.look _store.now) process.now pid
        (Ask (Obj object.now) (λ v. cut_to pid process.now object.now file.now size)) (Ok result) }
{
    if size > FILE_LIMIT as u64 {
        return looked(failed(Errno::TooBig), Entity::Obj(*object));
    }
    let change = answered(0);
    if size == file.len() as u64 {
        return looked(change, Entity::Obj(*object));
    }
    changed(change, &Entity::Obj(*object), Writes::Cut(size as u32))
}

/// `cut rF rN`
pub(crate) fn cut<S: Look>(
    store: &S,
    pid: Pid,
    process: &Process,
    file: Register,
    size: Register,
) -> Row
    requires { process.now.place + 1 < 2 ^ 32 }
    ensures { PlansRow (S.look store.now) process.now pid
        (cut_row pid process.now (object_in (held process.now.registers file))
        (number_in (held process.now.registers size))) (Ok result) }
{
    let Some(object) = object_at(process, file) else {
        return alone(failed(Errno::BadObject));
    };
    let error = match file_at(store, &object) {
        Ok(file) => match number_at(process, size) {
            Some(size) => return cut_to(store, pid, process, &object, file, size),
            None => Errno::Invalid,
        },
        Err(error) => error,
    };
    looked(failed(error), Entity::Obj(object))
}
