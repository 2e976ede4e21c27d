//! What a process does next, told without a step.
ghost use Rattle.std.specs.Prelude.{◌≡◌, Some};
ghost use Rattle.sk_ids.specs.declared.entity.Entity.TheVariants.{Sig};
ghost use Rattle.sk_plain.specs.Act.{next_in};
ghost use Rattle.sk_plain.specs.Next.{takes_signal, is_due, is_private, waits, next_instruction, next_of, heading, unplanned};

use crate::processes::is_killed;
use crate::step::{instruction_at, plan_step};
use crate::{InputRef, Refusal, step};
use sk_ids::{Entity, Name, Pid};
use sk_objects::{Signals, Value};
use sk_script::{Instruction, Process, Scripts};
use sk_store::{EntityState, Look};

/// What a process does next.
#[derive(Clone, Copy)]
pub enum Next {
    /// A signal is due: a step without input is killed by it, or goes to the handler.
    Signal,
    Fetch(Name),
    Store(Name),
    /// A private instruction: it reads and writes the process alone.
    Private,
    /// A step without input would be blocked.
    Waits,
    /// A step without input would add a name to a directory that is full. This a kernel alone tells.
    Full,
    /// Anything else.
    Other,
}

/// Whether a step without input takes a signal of this queue.
fn takes_signal(process: &Process, signals: &Signals) -> bool
    ensures { result ≡ takes_signal process.now signals.now }
{
    let queue = signals.as_slice();
    is_killed(queue) || !queue.is_empty() && process.handler.is_some() && process.saved.is_none()
}

/// Whether a signal is due.
pub(crate) fn is_due<S: Look>(store: &S, pid: Pid, process: &Process) -> bool
    ensures { result ≡ is_due process.now (S.look store.now (Sig pid)) }
{
    match store.value(Entity::Sig(pid)) {
        Some(EntityState::Value(Value::Signals(signals))) => takes_signal(process, signals),
        _ => false,
    }
}

/// Whether the next instruction is private.
fn is_private(scripts: &Scripts, process: &Process) -> bool
    ensures { result ≡ is_private process.now (next_in scripts.now process.now) }
{
    match instruction_at(scripts, process) {
        Some(instruction) => step::is_private(process, instruction),
        None => false,
    }
}

/// Whether a step without input would be blocked.
fn waits<S: Look>(store: &S, scripts: &Scripts, pid: Pid) -> bool
    ensures { result ≡ waits (S.look store.now) scripts.now pid }
{
    matches!(
        plan_step(store, scripts, pid, InputRef::None),
        Err(Refusal::Blocked)
    )
}

/// What a process does next where no signal is due.
fn next_instruction<S: Look>(store: &S, scripts: &Scripts, pid: Pid, process: &Process) -> Next
    ensures { result ≡ next_instruction (S.look store.now) scripts.now pid process.now
        (next_in scripts.now process.now) }
{
    match instruction_at(scripts, process) {
        Some(Instruction::Fetch(name)) => return Next::Fetch(*name),
        Some(Instruction::Store(name)) => return Next::Store(*name),
        _ => {}
    }
    if is_private(scripts, process) {
        return Next::Private;
    }
    if waits(store, scripts, pid) {
        return Next::Waits;
    }
    Next::Other
}

/// What a process does next. Refused with `NoProcess` or `Ended`. This takes no memory.
pub fn next_of<S: Look>(store: &S, scripts: &Scripts, pid: Pid) -> Result<Next, Refusal>
    ensures { result ≡ next_of (S.look store.now) scripts.now pid }
{
    let process = match store.value(Entity::Proc(pid)) {
        Some(EntityState::Process(held)) => held.process(),
        _ => return Err(Refusal::NoProcess),
    };
    if process.ended {
        return Err(Refusal::Ended);
    }
    if is_due(store, pid, process) {
        return Ok(Next::Signal);
    }
    Ok(next_instruction(store, scripts, pid, process))
}

/// What an instruction tells of it without a plan.
fn heading(scripts: &Scripts, process: &Process) -> Next
    ensures { result ≡ heading (next_in scripts.now process.now) }
{
    match instruction_at(scripts, process) {
        Some(Instruction::Fetch(name)) => Next::Fetch(*name),
        Some(Instruction::Store(name)) => Next::Store(*name),
        _ => Next::Other,
    }
}

/// What a process does next, without a plan: a signal, a fetch and a store are told apart, and all else is `Other`. Refused
/// with `NoProcess` or `Ended`. This takes no memory.
#[tactic(auto, using(crate::proofs::Headings::unplanned_is))]
pub fn heading_of<S: Look>(store: &S, scripts: &Scripts, pid: Pid) -> Result<Next, Refusal>
    ensures { result ≡ unplanned (next_of (S.look store.now) scripts.now pid) }
{
    let process = match store.value(Entity::Proc(pid)) {
        Some(EntityState::Process(held)) => held.process(),
        _ => return Err(Refusal::NoProcess),
    };
    if process.ended {
        return Err(Refusal::Ended);
    }
    let signalled = is_due(store, pid, process);
    if signalled {
        return Ok(Next::Signal);
    }
    Ok(heading(scripts, process))
}
