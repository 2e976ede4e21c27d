//! What the instructions on names of directories will do.
ghost use Rattle.std.specs.Prelude.{◌+◌, ◌<◌, ◌^◌, IfSome, Ok};
ghost use Rattle.sk_plain.specs.Base.{Ask, Obj, Link};
ghost use Rattle.sk_plain.specs.Act.{row};
ghost use Rattle.sk_plain.specs.Names.{link_to};
ghost use Rattle.sk_plain.specs.Seen.{PlansAny, PlansRow};
ghost use Rattle.sk_script.specs.declared.instruction.Instruction.TheVariants as Instruction;

use crate::shapes::{alone, answered, failed, given, linked, looked, looked_up, unlinked};
use crate::values::{no_directory, object_at, target_at};
use crate::{Errno, Plan, Row};
use sk_ids::{Entity, Name, ObjId, Pid};
use sk_script::{Process, Register, Val};
use sk_store::Look;

/// The row of a name that is there, which is the frequent one.
#[inline(always)]
fn look_found<S: Look>(
    store: &S,
    pid: Pid,
    process: &Process,
    register: Register,
    directory: Register,
    name: &Name,
) -> Option<Row>
    requires { process.now.place + 1 < 2 ^ 32 }
    ensures { IfSome result (λ found. PlansRow (S.look store.now) process.now pid
        (row pid process.now (Instruction.Look register directory name.now)) (Ok found)) }
{
    let at = object_at(process, directory)?;
    if no_directory(store, &at).is_some() {
        return None;
    }
    let object = target_at(store, &at, name)?;
    Some(looked_up(given(register, Val::Obj(object)), &at, name))
}

/// `look rA rD NAME`
#[inline(never)]
#[tactic(auto, using(crate::proofs::Plans::rows))]
fn put_any_look<S: Look>(
    store: &S,
    pid: Pid,
    process: &Process,
    register: Register,
    directory: Register,
    name: &Name,
    plan: &mut Plan,
)
    requires { process.now.place + 1 < 2 ^ 32 }
    ensures { PlansAny (S.look store.now) process.now pid
        (row pid process.now (Instruction.Look register directory name.now)) plan.new }
{
    let held = object_at(process, directory);
    *plan = Plan::Acts(match &held {
        Some(at) => match no_directory(store, at) {
            Some(error) => looked(failed(error), Entity::Obj(*at)),
            None => match target_at(store, at, name) {
                Some(object) => looked_up(given(register, Val::Obj(object)), at, name),
                None => looked_up(failed(Errno::NotLinked), at, name),
            },
        },
        None => alone(failed(Errno::BadObject)),
    });
}

/// Puts the row of `look rA rD NAME` into a plan. The frequent one is made here, with no place of the others in its frame.
#[inline(never)]
#[tactic(auto, using(crate::proofs::Plans::rows))]
pub(crate) fn put_look<S: Look>(
    store: &S,
    pid: Pid,
    process: &Process,
    register: Register,
    directory: Register,
    name: &Name,
    plan: &mut Plan,
)
    requires { process.now.place + 1 < 2 ^ 32 }
    ensures { PlansAny (S.look store.now) process.now pid
        (row pid process.now (Instruction.Look register directory name.now)) plan.new }
{
    match look_found(store, pid, process, register, directory, name) {
        Some(row) => *plan = Plan::Acts(row),
        None => put_any_look(store, pid, process, register, directory, name, plan),
    }
}

/// A name linked in a directory.
fn link_to<S: Look>(
    store: &S,
    pid: Pid,
    process: &Process,
    at: &ObjId,
    name: &Name,
    object: &ObjId,
) -> Row
    requires { process.now.place + 1 < 2 ^ 32 }
    ensures { PlansRow (S.look store.now) process.now pid (Ask (Obj at.now) (λ v. Ask
        (Link at.now name.now) (link_to pid process.now at.now name.now object.now))) (Ok result) }
{
    if store.value(Entity::Link(*at, *name)).is_some() {
        return looked_up(failed(Errno::Exists), at, name);
    }
    linked(answered(0), at, name, object)
}

/// The row of a name that is free, which is the frequent one.
#[inline(always)]
fn link_free<S: Look>(
    store: &S,
    pid: Pid,
    process: &Process,
    directory: Register,
    name: &Name,
    object: Register,
) -> Option<Row>
    requires { process.now.place + 1 < 2 ^ 32 }
    ensures { IfSome result (λ found. PlansRow (S.look store.now) process.now pid
        (row pid process.now (Instruction.Link directory name.now object)) (Ok found)) }
{
    let at = object_at(process, directory)?;
    let object = object_at(process, object)?;
    if no_directory(store, &at).is_some() || store.value(Entity::Link(at, *name)).is_some() {
        return None;
    }
    Some(linked(answered(0), &at, name, &object))
}

/// `link rD NAME rA`
#[inline(never)]
#[tactic(auto, using(crate::proofs::Plans::rows))]
fn put_any_link<S: Look>(
    store: &S,
    pid: Pid,
    process: &Process,
    directory: Register,
    name: &Name,
    object: Register,
    plan: &mut Plan,
)
    requires { process.now.place + 1 < 2 ^ 32 }
    ensures { PlansAny (S.look store.now) process.now pid
        (row pid process.now (Instruction.Link directory name.now object)) plan.new }
{
    let held = object_at(process, directory);
    *plan = Plan::Acts(match (&held, object_at(process, object)) {
        (Some(at), Some(object)) => match no_directory(store, at) {
            Some(error) => looked(failed(error), Entity::Obj(*at)),
            None => link_to(store, pid, process, at, name, &object),
        },
        (Some(at), None) => looked(failed(Errno::BadObject), Entity::Obj(*at)),
        (None, _) => alone(failed(Errno::BadObject)),
    });
}

/// Puts the row of `link rD NAME rA` into a plan. The frequent one is made here, with no place of the others in its frame.
#[inline(never)]
#[tactic(auto, using(crate::proofs::Plans::rows))]
pub(crate) fn put_link<S: Look>(
    store: &S,
    pid: Pid,
    process: &Process,
    directory: Register,
    name: &Name,
    object: Register,
    plan: &mut Plan,
)
    requires { process.now.place + 1 < 2 ^ 32 }
    ensures { PlansAny (S.look store.now) process.now pid
        (row pid process.now (Instruction.Link directory name.now object)) plan.new }
{
    match link_free(store, pid, process, directory, name, object) {
        Some(row) => *plan = Plan::Acts(row),
        None => put_any_link(store, pid, process, directory, name, object, plan),
    }
}

/// The row of a name that is there, which is the frequent one.
#[inline(always)]
fn unlink_found<S: Look>(
    store: &S,
    pid: Pid,
    process: &Process,
    directory: Register,
    name: &Name,
) -> Option<Row>
    requires { process.now.place + 1 < 2 ^ 32 }
    ensures { IfSome result (λ found. PlansRow (S.look store.now) process.now pid
        (row pid process.now (Instruction.Unlink directory name.now)) (Ok found)) }
{
    let at = object_at(process, directory)?;
    if no_directory(store, &at).is_some() || store.value(Entity::Link(at, *name)).is_none() {
        return None;
    }
    Some(unlinked(answered(0), &at, name))
}

/// `unlink rD NAME`
#[inline(never)]
#[tactic(auto, using(crate::proofs::Plans::rows))]
fn put_any_unlink<S: Look>(
    store: &S,
    pid: Pid,
    process: &Process,
    directory: Register,
    name: &Name,
    plan: &mut Plan,
)
    requires { process.now.place + 1 < 2 ^ 32 }
    ensures { PlansAny (S.look store.now) process.now pid
        (row pid process.now (Instruction.Unlink directory name.now)) plan.new }
{
    let held = object_at(process, directory);
    *plan = Plan::Acts(match &held {
        Some(at) => match no_directory(store, at) {
            Some(error) => looked(failed(error), Entity::Obj(*at)),
            None if store.value(Entity::Link(*at, *name)).is_none() => {
                looked_up(failed(Errno::NotLinked), at, name)
            }
            None => unlinked(answered(0), at, name),
        },
        None => alone(failed(Errno::BadObject)),
    });
}

/// Puts the row of `unlink rD NAME` into a plan. The frequent one is made here, with no place of the others in its frame.
#[inline(never)]
#[tactic(auto, using(crate::proofs::Plans::rows))]
pub(crate) fn put_unlink<S: Look>(
    store: &S,
    pid: Pid,
    process: &Process,
    directory: Register,
    name: &Name,
    plan: &mut Plan,
)
    requires { process.now.place + 1 < 2 ^ 32 }
    ensures { PlansAny (S.look store.now) process.now pid
        (row pid process.now (Instruction.Unlink directory name.now)) plan.new }
{
    match unlink_found(store, pid, process, directory, name) {
        Some(row) => *plan = Plan::Acts(row),
        None => put_any_unlink(store, pid, process, directory, name, plan),
    }
}
