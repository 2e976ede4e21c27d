//! What the instructions with a reply of the server will do.
ghost use Rattle.std.specs.Prelude.{◌≡◌, ◌+◌, ◌<◌, ◌^◌, [], true, Ok, Some, Option, IfOk, IsSome};
ghost use Rattle.sk_plain.specs.Base.{option_copied, Ask, Copy, TEXT_LIMIT, Instruction};
ghost use Rattle.sk_script.specs.declared.instruction.Input.TheVariants as Input;
ghost use Rattle.sk_plain.specs.Replies.{from_copy, over_copy, good as good_row};
ghost use Rattle.sk_plain.specs.Seen.{IsQuiet, PlansAfter, PlansReply, PlansRow, told};

use crate::shapes::{answered, changed, looked};
use crate::{Plan, ProcessChange, Refusal, Row, Writes};
use sk_ids::text::TEXT_LIMIT;
use sk_ids::{Entity, Name, Pid};
use sk_objects::content::LAST_VERSION;
use sk_objects::{Content, Value};
use sk_script::{Instruction, Process};
use sk_store::{EntityState, Look};

/// The bytes of a cached copy come to the buffer, and its version to r0.
fn fetched(version: u64) -> ProcessChange
    ensures { result ≡ ProcessChange.Fills 0 TEXT_LIMIT (Some version) }
{
    ProcessChange::Fills {
        from: 0,
        count: TEXT_LIMIT as u32,
        number: Some(version),
    }
}

/// A fetch from the cached copy.
#[inline(always)]
fn from_copy<S: Look>(store: &S, pid: Pid, process: &Process, name: Name) -> Result<Row, Refusal>
    requires { process.now.place + 1 < 2 ^ 32 }
    ensures { PlansRow (S.look store.now) process.now pid
        (Ask (Copy name) (from_copy pid process.now)) result }
{
    match store.value(Entity::Copy(name)) {
        Some(EntityState::Value(Value::Copy(held))) => {
            let content = held.content();
            content.known();
            Ok(looked(fetched(content.version()), Entity::Copy(name)))
        }
        _ => Err(Refusal::Mismatch),
    }
}

/// A store over the cached copy, or over none.
fn over_copy<S: Look>(store: &S, pid: Pid, process: &Process, name: Name) -> Result<Row, Refusal>
    requires { process.now.place + 1 < 2 ^ 32 }
    ensures { PlansRow (S.look store.now) process.now pid
        (Ask (Copy name) (over_copy pid process.now name)) result }
{
    match store.value(Entity::Copy(name)) {
        None => Ok(changed(answered(1), &Entity::Copy(name), Writes::First)),
        Some(EntityState::Value(Value::Copy(old))) => {
            let version = old.content().version() + 1;
            if version > LAST_VERSION {
                return Err(Refusal::Mismatch);
            }
            Ok(changed(
                answered(version),
                &Entity::Copy(name),
                Writes::Over(version),
            ))
        }
        _ => Err(Refusal::Mismatch),
    }
}

/// A step whose cached copy is said to be good.
fn good<S: Look>(
    store: &S,
    pid: Pid,
    process: &Process,
    instruction: Option<&Instruction>,
) -> Result<Row, Refusal>
    requires { IsSome instruction → process.now.place + 1 < 2 ^ 32 }
    ensures { PlansRow (S.look store.now) process.now pid
        (good_row pid process.now (option_copied instruction.entry)) result }
{
    match instruction {
        Some(Instruction::Fetch(name)) => from_copy(store, pid, process, *name),
        Some(Instruction::Store(name)) => over_copy(store, pid, process, *name),
        _ => Err(Refusal::Mismatch),
    }
}

/// Puts a fetch of a copy that is there into a plan, and answers whether there is one. It is the frequent row.
#[inline(always)]
fn puts_fetch<S: Look>(store: &S, pid: Pid, process: &Process, name: &Name, plan: &mut Plan) -> bool
    requires { process.now.place + 1 < 2 ^ 32 }
    ensures row { result ≡ true → (i : Option Instruction) → PlansAfter
        (S.look store.now) i Input.Good process.now [] pid (Ask (Copy name.now)
        (from_copy pid process.now)) (Ok plan.new) }
    ensures quiet { result ≡ true → (i : Option Instruction) → IsQuiet
        (S.look store.now) i Input.Good process.now plan.new }
{
    match store.value(Entity::Copy(*name)) {
        Some(EntityState::Value(Value::Copy(held))) => {
            let content = held.content();
            content.known();
            *plan = Plan::Acts(looked(fetched(content.version()), Entity::Copy(*name)));
            true
        }
        _ => false,
    }
}

/// Any step whose cached copy is said to be good, put into a plan.
#[inline(never)]
#[tactic(auto, using(crate::proofs::Plans::rows))]
fn put_any_good<S: Look>(
    store: &S,
    pid: Pid,
    process: &Process,
    instruction: Option<&Instruction>,
    plan: &mut Plan,
) -> Result<(), Refusal>
    requires { IsSome instruction → process.now.place + 1 < 2 ^ 32 }
    ensures row { PlansReply (S.look store.now) (option_copied instruction.entry) Input.Good
        process.now pid (told result plan.new) }
    ensures quiet { IfOk (told result plan.new)
        (IsQuiet (S.look store.now) (option_copied instruction.entry) Input.Good process.now) }
{
    *plan = Plan::Acts(good(store, pid, process, instruction)?);
    Ok(())
}

/// Puts a step whose cached copy is said to be good into a plan. The frequent row, of a fetch, is made here, with no place of
/// the others in its frame.
#[inline(always)]
#[tactic(auto, using(crate::proofs::Plans::rows))]
pub(crate) fn put_good<S: Look>(
    store: &S,
    pid: Pid,
    process: &Process,
    instruction: Option<&Instruction>,
    plan: &mut Plan,
) -> Result<(), Refusal>
    requires { IsSome instruction → process.now.place + 1 < 2 ^ 32 }
    ensures row { PlansReply (S.look store.now) (option_copied instruction.entry) Input.Good
        process.now pid (told result plan.new) }
    ensures quiet { IfOk (told result plan.new)
        (IsQuiet (S.look store.now) (option_copied instruction.entry) Input.Good process.now) }
{
    if let Some(Instruction::Fetch(name)) = instruction {
        if puts_fetch(store, pid, process, name, plan) {
            return Ok(());
        }
    }
    put_any_good(store, pid, process, instruction, plan)
}

/// A fetch of the server's content.
pub(crate) fn fresh<S: Look>(
    _store: &S,
    pid: Pid,
    process: &Process,
    instruction: Option<&Instruction>,
    content: &Content,
) -> Result<Plan, Refusal>
    requires { IsSome instruction → process.now.place + 1 < 2 ^ 32 }
    ensures row { PlansReply (S.look _store.now) (option_copied instruction.entry)
        (Input.Fresh content.now) process.now pid result }
    ensures quiet { IfOk result (IsQuiet (S.look _store.now) (option_copied instruction.entry)
        (Input.Fresh content.now) process.now) }
{
    match instruction {
        Some(Instruction::Fetch(name)) => Ok(Plan::Received(*name)),
        _ => Err(Refusal::Mismatch),
    }
}

/// A store that the server refused, with the server's content.
pub(crate) fn stale<S: Look>(
    _store: &S,
    pid: Pid,
    process: &Process,
    instruction: Option<&Instruction>,
    content: &Content,
) -> Result<Plan, Refusal>
    requires { IsSome instruction → process.now.place + 1 < 2 ^ 32 }
    ensures row { PlansReply (S.look _store.now) (option_copied instruction.entry)
        (Input.Stale content.now) process.now pid result }
    ensures quiet { IfOk result (IsQuiet (S.look _store.now) (option_copied instruction.entry)
        (Input.Stale content.now) process.now) }
{
    match instruction {
        Some(Instruction::Store(name)) => Ok(Plan::Received(*name)),
        _ => Err(Refusal::Mismatch),
    }
}
