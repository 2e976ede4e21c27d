//! What the instructions on processes and signals will do.
ghost use Rattle.std.specs.Prelude.{◌≡◌, ◌+◌, ◌<◌, ◌^◌, true, [], Some, Ok, ◌==◌};
ghost use Rattle.sk_plain.specs.Base.{list_any, held, LAST_SIGNAL};
ghost use Rattle.sk_plain.specs.Rows.{number_to, who_in};
ghost use Rattle.sk_plain.specs.Processes.{KILL, status_of, kill as kill_row, fork as fork_row, wait as wait_row};
ghost use Rattle.sk_plain.specs.declared.plan.Beside.TheVariants as Beside;
ghost use Rattle.sk_plain.specs.declared.plan.Looks.TheVariants as Looks;
ghost use Rattle.sk_plain.specs.Seen.{PlansAfter, PlansRow, row_of};
ghost use Rattle.sk_script.specs.declared.instruction.Input.TheVariants as Input;

use crate::shapes::{alone, answered, changed, failed, given, looked, wrote};
use crate::values::{number_up_to, who_at};
use crate::{Becomes, Errno, Plan, ProcessChange, Refusal, Row, Writes};
use sk_ids::{Entity, Pid};
use sk_objects::Value;
use sk_objects::signals::{LAST_SIGNAL, SIGNALS_LIMIT};
use sk_objects::value::LAST_STATUS;
use sk_script::{Instruction, Process, Register, Val};
use sk_store::{EntityState, Look};

/// The signal that ends a process.
const KILL: u8 = 9;

/// A process's path is its parent's times this, and its number.
const LEVEL: u64 = 65_536;

/// Whether the signal that ends a process is among these.
pub(crate) fn is_killed(signals: &[u8]) -> bool
    ensures { result ≡ list_any (λ n. n == KILL) signals.now }
{
    signals.iter().any(|signal| *signal == KILL)
}

/// The status that a value stands for: itself from 0 to 255, else 255.
pub(crate) fn status_of(val: &Val) -> u8
    ensures { result ≡ status_of val.now }
{
    match val {
        Val::Num(number) => u8::try_from(*number).unwrap_or(LAST_STATUS),
        Val::Obj(_) | Val::Who(_) => LAST_STATUS,
    }
}

/// The process ends where it stands.
pub(crate) fn ends(pid: Pid, status: u8) -> Row
    ensures { result ≡ row_of (ProcessChange.Does Becomes.Ends) Looks.Nowhere
        (Beside.One (Entity.Exit pid) (Writes.Exited status)) }
{
    let change = ProcessChange::Does(Becomes::Ends);
    wrote(change, Entity::Exit(pid), Writes::Exited(status))
}

/// `kill rW rN`
pub(crate) fn kill<S: Look>(
    store: &S,
    pid: Pid,
    process: &Process,
    who: Register,
    signal: Register,
) -> Row
    requires { process.now.place + 1 < 2 ^ 32 }
    ensures { PlansRow (S.look store.now) process.now pid
        (kill_row pid process.now (who_in (held process.now.registers who))
        (number_to LAST_SIGNAL (held process.now.registers signal))) (Ok result) }
{
    let Some(who) = who_at(process, who) else {
        return alone(failed(Errno::Invalid));
    };
    let Some(signal) = number_up_to(process, signal, u16::from(LAST_SIGNAL)) else {
        return alone(failed(Errno::Invalid));
    };
    let error = match store.value(Entity::Sig(who)) {
        Some(EntityState::Value(Value::Signals(queue))) => {
            if queue.len() < SIGNALS_LIMIT {
                return changed(answered(0), &Entity::Sig(who), Writes::Signal(signal as u8));
            }
            Errno::Again
        }
        _ => Errno::NoSuchProcess,
    };
    looked(failed(error), Entity::Sig(who))
}

/// `fork rA L`
pub(crate) fn fork<S: Look>(
    _store: &S,
    pid: Pid,
    process: &Process,
    register: Register,
    place: u32,
    _instruction: &Instruction,
) -> Plan
    requires { process.now.place + 1 < 2 ^ 32 }
    ensures { PlansAfter (S.look _store.now) (Some _instruction.now) Input.None process.now [] pid
        (fork_row pid process.now register place) (Ok result) }
{
    if process.children >= u16::MAX {
        return Plan::Acts(alone(failed(Errno::Again)));
    }
    let children = process.children + 1;
    let Some(child) = pid.child(children) else {
        return Plan::Acts(alone(failed(Errno::Again)));
    };
    Plan::Forks(register, child, place)
}

/// `wait rA rB`
pub(crate) fn wait<S: Look>(
    store: &S,
    pid: Pid,
    process: &Process,
    register: Register,
    who: Register,
) -> Result<Row, Refusal>
    requires { process.now.place + 1 < 2 ^ 32 }
    ensures { PlansRow (S.look store.now) process.now pid
        (wait_row pid process.now register (who_in (held process.now.registers who))) result }
{
    let Some(who) = who_at(process, who) else {
        return Ok(alone(failed(Errno::Invalid)));
    };
    if who.path() / LEVEL != pid.path() {
        return Ok(alone(failed(Errno::NoChild)));
    }
    let change = match store.value(Entity::Exit(who)) {
        Some(EntityState::Value(Value::Exit(Some(status)))) => {
            given(register, Val::Num(i64::from(*status)))
        }
        Some(EntityState::Value(Value::Exit(None))) => return Err(Refusal::Blocked),
        _ => failed(Errno::NoChild),
    };
    Ok(looked(change, Entity::Exit(who)))
}
