//! What the instructions on pipes will do.
ghost use Rattle.std.specs.Prelude.{◌≡◌, ◌+◌, ◌<◌, ◌≤◌, ◌^◌, Some, Ok};
ghost use Rattle.sk_plain.specs.Base.{Ask, Obj, held, TEXT_LIMIT};
ghost use Rattle.sk_objects.specs.declared.value.Value.TheVariants as values;
ghost use Rattle.sk_store.specs.declared.entity_state.EntityState.TheVariants as stored;
ghost use Rattle.sk_plain.specs.Rows.{object_in, number_to};
ghost use Rattle.sk_plain.specs.Pipes.{put_in, put as put_row, take_from, take_out as take_row, shut as shut_row};
ghost use Rattle.sk_plain.specs.Seen.{PlansRow};

use crate::shapes::{alone, answered, changed, failed, looked};
use crate::values::{number_up_to, object_at, pipe_at};
use crate::{Errno, ProcessChange, Refusal, Row, Writes};
use sk_ids::{Entity, ObjId, Pid};
use sk_objects::Pipe;
use sk_objects::pipe::PIPE_LIMIT;
use sk_script::{Process, Register};
use sk_store::Look;

/// The greatest number of bytes that are taken at once.
const TAKE_LIMIT: u16 = 512;

/// The buffer appended to a pipe.
fn put_in<S: Look>(
    _store: &S,
    pid: Pid,
    process: &Process,
    object: &ObjId,
    pipe: &Pipe,
) -> Result<Row, Refusal>
    requires place { process.now.place + 1 < 2 ^ 32 }
    requires there { S.look _store.now (Obj object.now)
        ≡ Some (stored.Value (values.Pipe pipe.now)) }
    ensures { PlansRow (S.look _store.now) process.now pid
        (Ask (Obj object.now) (λ v. put_in pid process.now object.now pipe.now)) result }
{
    if pipe.is_shut() {
        return Ok(looked(failed(Errno::BrokenPipe), Entity::Obj(*object)));
    }
    let len = process.buffer.len();
    let change = answered(len as u64);
    if len == 0 {
        return Ok(looked(change, Entity::Obj(*object)));
    }
    if pipe.len() + len > PIPE_LIMIT {
        return Err(Refusal::Blocked);
    }
    Ok(changed(change, &Entity::Obj(*object), Writes::Put))
}

/// `put rP`
pub(crate) fn put<S: Look>(
    store: &S,
    pid: Pid,
    process: &Process,
    pipe: Register,
) -> Result<Row, Refusal>
    requires { process.now.place + 1 < 2 ^ 32 }
    ensures { PlansRow (S.look store.now) process.now pid
        (put_row pid process.now (object_in (held process.now.registers pipe))) result }
{
    let Some(object) = object_at(process, pipe) else {
        return Ok(alone(failed(Errno::BadObject)));
    };
    match pipe_at(store, &object) {
        Ok(pipe) => put_in(store, pid, process, &object, pipe),
        Err(error) => Ok(looked(failed(error), Entity::Obj(object))),
    }
}

/// So many bytes of the front of a pipe come to the buffer.
fn taken(count: u32) -> ProcessChange
    ensures { result ≡ ProcessChange.Fills 0 count (Some count) }
{
    ProcessChange::Fills {
        from: 0,
        count,
        number: Some(u64::from(count)),
    }
}

/// The first bytes of a pipe taken out, at most so many.
fn take_from<S: Look>(
    _store: &S,
    pid: Pid,
    process: &Process,
    object: &ObjId,
    pipe: &Pipe,
    most: u16,
) -> Result<Row, Refusal>
    requires place { process.now.place + 1 < 2 ^ 32 }
    requires there { S.look _store.now (Obj object.now)
        ≡ Some (stored.Value (values.Pipe pipe.now)) }
    requires most { (1 ≤ most) × (most ≤ 512) }
    ensures { PlansRow (S.look _store.now) process.now pid
        (Ask (Obj object.now) (λ v. take_from pid process.now object.now pipe.now most)) result }
{
    let held = pipe.len();
    if held == 0 {
        if !pipe.is_shut() {
            return Err(Refusal::Blocked);
        }
        return Ok(looked(taken(0), Entity::Obj(*object)));
    }
    let count = (most as usize).min(held) as u32;
    Ok(changed(taken(count), &Entity::Obj(*object), Writes::Take(count)))
}

/// `take rP rN`
pub(crate) fn take<S: Look>(
    store: &S,
    pid: Pid,
    process: &Process,
    pipe: Register,
    most: Register,
) -> Result<Row, Refusal>
    requires { process.now.place + 1 < 2 ^ 32 }
    ensures { PlansRow (S.look store.now) process.now pid
        (take_row pid process.now (object_in (held process.now.registers pipe))
        (number_to TEXT_LIMIT (held process.now.registers most))) result }
{
    let Some(object) = object_at(process, pipe) else {
        return Ok(alone(failed(Errno::BadObject)));
    };
    let error = match pipe_at(store, &object) {
        Ok(pipe) => match number_up_to(process, most, TAKE_LIMIT) {
            Some(most) => return take_from(store, pid, process, &object, pipe, most),
            None => Errno::Invalid,
        },
        Err(error) => error,
    };
    Ok(looked(failed(error), Entity::Obj(object)))
}

/// `shut rP`
pub(crate) fn shut<S: Look>(store: &S, pid: Pid, process: &Process, pipe: Register) -> Row
    requires { process.now.place + 1 < 2 ^ 32 }
    ensures { PlansRow (S.look store.now) process.now pid
        (shut_row pid process.now (object_in (held process.now.registers pipe))) (Ok result) }
{
    let held = object_at(process, pipe);
    let Some(object) = &held else {
        return alone(failed(Errno::BadObject));
    };
    match pipe_at(store, object) {
        Ok(pipe) if pipe.is_shut() => looked(answered(0), Entity::Obj(*object)),
        Ok(_) => changed(answered(0), &Entity::Obj(*object), Writes::Shut),
        Err(error) => looked(failed(error), Entity::Obj(*object)),
    }
}
