//! What a step will do, before it does it. A plan takes no memory.
ghost use Rattle.std.specs.Prelude.{◌≡◌, ◌+◌, ◌<◌, ◌^◌, [], true, false, is_some, IsSome, IfOk, IfSome, Some, None, Ok, Option};
ghost use Rattle.sk_plain.specs.Base.{option_copied, Sig, private_step, Instruction, Process, input_in};
ghost use Rattle.sk_objects.specs.declared.value.Value.TheVariants as values;
ghost use Rattle.sk_store.specs.declared.entity_state.EntityState.TheVariants as stored;
ghost use Rattle.sk_script.specs.declared.instruction.Input.TheVariants as Input;
ghost use Rattle.sk_plain.specs.Act.{row, does, next_in, is_frequent, due, handled as handled_row, with_signals, with_input};
ghost use Rattle.sk_plain.specs.Planned.{signals_read, IsReply, or_refused, said_by};
ghost use Rattle.sk_plain.specs.declared.plan.Beside.TheVariants as Beside;
ghost use Rattle.sk_plain.specs.declared.plan.Looks.TheVariants as Looks;
ghost use Rattle.sk_plain.specs.Seen.{DoesNext, IsNext, IsQuiet, PlansAfter, PlansReply, PlansStep, row_of, seen_with, told};

use crate::processes::{ends, fork, is_killed, kill, status_of, wait};
use crate::shapes::{alone, wrote};
use crate::{
    Becomes, InputRef, Plan, ProcessChange, Refusal, Row, Writes, files, names, pipes, replies,
};
use sk_ids::{Entity, Pid};
use sk_objects::{Kind, Signals, Value};
use sk_script::{Instruction, Process, Scripts};
use sk_store::{EntityState, Look};

/// The status of a process that a signal ended.
const KILLED: u8 = 137;

/// The process alone becomes this.
fn alone_does(becomes: Becomes) -> Plan
    ensures { result
        ≡ Plan.Acts (row_of (ProcessChange.Does becomes) Looks.Nowhere Beside.Nothing) }
{
    Plan::Acts(alone(ProcessChange::Does(becomes)))
}

/// The plan that is a row's.
fn plan_of(row: Result<Row, Refusal>) -> Result<Plan, Refusal>
    ensures { result ≡ or_refused Plan.Acts row }
{
    Ok(Plan::Acts(row?))
}

/// Whether an instruction is private.
pub(crate) fn is_private(_process: &Process, instruction: &Instruction) -> bool
    ensures { result ≡ is_some (private_step _process.now instruction.now) }
{
    match instruction {
        Instruction::Set(..)
        | Instruction::Move(..)
        | Instruction::Add(..)
        | Instruction::Text(_)
        | Instruction::Len(_)
        | Instruction::SelfPid(_)
        | Instruction::BootPid(..)
        | Instruction::Jump(_)
        | Instruction::Zero(..)
        | Instruction::Negative(..) => true,
        _ => false,
    }
}

/// Whether an instruction is one of the frequent ones that are not private.
fn is_frequent(instruction: &Instruction) -> bool
    ensures { result ≡ is_frequent instruction.now }
{
    matches!(
        instruction,
        Instruction::Read(..)
            | Instruction::Write(..)
            | Instruction::Say
            | Instruction::MakeFile(_)
            | Instruction::Look(..)
            | Instruction::Link(..)
            | Instruction::Unlink(..)
    )
}

/// What a frequent instruction will do, put into a plan.
#[inline(always)]
#[tactic(auto, using(crate::proofs::Plans::rows))]
fn frequent<S: Look>(
    store: &S,
    pid: Pid,
    process: &Process,
    instruction: &Instruction,
    plan: &mut Plan,
)
    requires place { process.now.place + 1 < 2 ^ 32 }
    requires frequent { is_frequent instruction.now ≡ true }
    ensures { PlansAfter (S.look store.now) (Some instruction.now) Input.None process.now [] pid
        (row pid process.now instruction.now) (Ok plan.new) }
{
    match instruction {
        Instruction::Read(file, at) => files::put_read(store, pid, process, *file, *at, plan),
        Instruction::Write(file, at) => files::put_write(store, pid, process, *file, *at, plan),
        Instruction::Say => *plan = Plan::Speaks,
        Instruction::MakeFile(to) => files::put_made(store, pid, process, *to, Kind::File, plan),
        Instruction::Look(to, at, name) => {
            names::put_look(store, pid, process, *to, *at, name, plan);
        }
        Instruction::Link(at, name, object) => {
            names::put_link(store, pid, process, *at, name, *object, plan);
        }
        Instruction::Unlink(at, name) => names::put_unlink(store, pid, process, *at, name, plan),
        _ => unreachable!(),
    }
}

/// What an instruction will do that is neither private nor frequent, without input.
#[tactic(auto, using(crate::proofs::Plans::rows))]
fn tabled<S: Look>(
    store: &S,
    pid: Pid,
    process: &Process,
    instruction: &Instruction,
) -> Result<Plan, Refusal>
    requires place { process.now.place + 1 < 2 ^ 32 }
    requires other { is_some (private_step process.now instruction.now) ≡ false }
    requires frequent { is_frequent instruction.now ≡ false }
    ensures { PlansAfter (S.look store.now) (Some instruction.now) Input.None process.now [] pid
        (row pid process.now instruction.now) result }
{
    Ok(match instruction {
        Instruction::Handler(place) => alone_does(Becomes::Handler(*place)),
        Instruction::Return => alone_does(Becomes::Returns),
        Instruction::MakeDir(to) => Plan::Acts(files::made(store, pid, process, *to, Kind::Dir)),
        Instruction::MakePipe(to) => Plan::Acts(files::made(store, pid, process, *to, Kind::Pipe)),
        Instruction::Size(file) => Plan::Acts(files::size(store, pid, process, *file)),
        Instruction::Cut(file, size) => Plan::Acts(files::cut(store, pid, process, *file, *size)),
        Instruction::Put(pipe) => return plan_of(pipes::put(store, pid, process, *pipe)),
        Instruction::Take(pipe, most) => {
            return plan_of(pipes::take(store, pid, process, *pipe, *most));
        }
        Instruction::Shut(pipe) => Plan::Acts(pipes::shut(store, pid, process, *pipe)),
        Instruction::Fork(to, place) => fork(store, pid, process, *to, *place, instruction),
        Instruction::Wait(to, who) => return plan_of(wait(store, pid, process, *to, *who)),
        Instruction::Kill(who, signal) => Plan::Acts(kill(store, pid, process, *who, *signal)),
        Instruction::Exit(from) => {
            Plan::Acts(ends(pid, status_of(&process.registers.get(*from))))
        }
        Instruction::Fetch(_) | Instruction::Store(_) => return Err(Refusal::NeedsReply),
        _ => unreachable!(),
    })
}

/// Puts what was planned into a plan.
fn keep(plan: &mut Plan, planned: Result<Plan, Refusal>) -> Result<(), Refusal>
    ensures { told result plan.new ≡ planned }
{
    match planned {
        Ok(next) => {
            *plan = next;
            Ok(())
        }
        Err(why) => Err(why),
    }
}

/// Puts the plan of `tabled` into a plan. It stands by itself, since each plan of the table has a place of its own
/// in its frame.
#[inline(never)]
fn put_tabled<S: Look>(
    store: &S,
    pid: Pid,
    process: &Process,
    instruction: &Instruction,
    plan: &mut Plan,
) -> Result<(), Refusal>
    requires place { process.now.place + 1 < 2 ^ 32 }
    requires other { is_some (private_step process.now instruction.now) ≡ false }
    requires frequent { is_frequent instruction.now ≡ false }
    ensures { PlansAfter (S.look store.now) (Some instruction.now) Input.None process.now [] pid
        (row pid process.now instruction.now) (told result plan.new) }
{
    keep(plan, tabled(store, pid, process, instruction))
}

/// What an instruction will do that is not private, without input.
#[inline(always)]
#[tactic(auto, using(crate::proofs::Plans::rows))]
fn acted<S: Look>(
    store: &S,
    pid: Pid,
    process: &Process,
    instruction: &Instruction,
    plan: &mut Plan,
) -> Result<(), Refusal>
    requires place { process.now.place + 1 < 2 ^ 32 }
    requires other { is_some (private_step process.now instruction.now) ≡ false }
    ensures { PlansAfter (S.look store.now) (Some instruction.now) Input.None process.now [] pid
        (row pid process.now instruction.now) (told result plan.new) }
{
    if is_frequent(instruction) {
        frequent(store, pid, process, instruction, plan);
        return Ok(());
    }
    put_tabled(store, pid, process, instruction, plan)
}

/// A step without input. A private instruction is answered.
#[inline(always)]
fn does<'a, S: Look>(
    store: &S,
    pid: Pid,
    process: &Process,
    instruction: Option<&'a Instruction>,
    plan: &mut Plan,
) -> Result<Option<&'a Instruction>, Refusal>
    requires { IsSome instruction → process.now.place + 1 < 2 ^ 32 }
    ensures row { PlansAfter (S.look store.now) (option_copied instruction.entry) Input.None
        process.now [] pid (does pid process.now (option_copied instruction.entry))
        (told result plan.new) }
    ensures next { IfOk result (λ found. IfSome found
        (λ i. IsNext plan.new (option_copied instruction.entry) i.now)) }
{
    let Some(next) = instruction else {
        *plan = Plan::Acts(ends(pid, 0));
        return Ok(None);
    };
    if is_private(process, next) {
        plan.set_private();
        return Ok(Some(next));
    }
    acted(store, pid, process, next, plan)?;
    Ok(None)
}

/// The front signal goes to the handler, where one is set and no place is saved.
fn handled<S: Look>(
    store: &S,
    pid: Pid,
    process: &Process,
    instruction: Option<&Instruction>,
    signals: &Signals,
    plan: &mut Plan,
) -> Result<(), Refusal>
    requires queue { S.look store.now (Sig pid) ≡ Some (stored.Value (values.Signals signals.now)) }
    requires small { IsSome instruction → process.now.place + 1 < 2 ^ 32 }
    ensures { PlansAfter (S.look store.now) (option_copied instruction.entry) Input.None process.now
        [] pid (handled_row pid process.now (option_copied instruction.entry) signals.now
        process.now.handler process.now.saved) (told result plan.new) }
{
    match (signals.as_slice(), process.handler, process.saved) {
        ([signal, ..], Some(handler), None) => {
            *plan = Plan::Acts(wrote(
                ProcessChange::Does(Becomes::Handles(*signal, handler)),
                Entity::Sig(pid),
                Writes::TakeSignal,
            ));
            Ok(())
        }
        _ => {
            does(store, pid, process, instruction, plan)?;
            Ok(())
        }
    }
}

/// What a process with signals does next without input.
#[inline(never)]
fn signalled<S: Look>(
    store: &S,
    pid: Pid,
    process: &Process,
    instruction: Option<&Instruction>,
    signals: &Signals,
    plan: &mut Plan,
) -> Result<(), Refusal>
    requires queue { S.look store.now (Sig pid) ≡ Some (stored.Value (values.Signals signals.now)) }
    requires small { IsSome instruction → process.now.place + 1 < 2 ^ 32 }
    ensures { PlansAfter (S.look store.now) (option_copied instruction.entry) Input.None process.now
        [] pid (due pid process.now (option_copied instruction.entry) signals.now)
        (told result plan.new) }
{
    if is_killed(signals.as_slice()) {
        *plan = Plan::Acts(ends(pid, KILLED));
        return Ok(());
    }
    handled(store, pid, process, instruction, signals, plan)
}

/// The signals of a process, where there are some.
#[inline(always)]
fn signals_of<S: Look>(store: &S, pid: Pid) -> Option<&Signals>
    ensures some { IfSome result (λ signals.
        S.look store.now (Sig pid) ≡ Some (stored.Value (values.Signals signals.now))) }
    ensures none { result ≡ None → (p : Process) (i : Option Instruction)
        → with_signals pid p i (S.look store.now (Sig pid)) ≡ does pid p i }
{
    match store.value(Entity::Sig(pid)) {
        Some(EntityState::Value(Value::Signals(signals))) => match signals.as_slice() {
            [] => None,
            _ => Some(signals),
        },
        _ => None,
    }
}

/// What a process does next without input. Mostly it has no signals, and then a private instruction is answered.
#[inline(always)]
fn with_signals<'a, S: Look>(
    store: &S,
    pid: Pid,
    process: &Process,
    instruction: Option<&'a Instruction>,
    plan: &mut Plan,
) -> Result<Option<&'a Instruction>, Refusal>
    requires { IsSome instruction → process.now.place + 1 < 2 ^ 32 }
    ensures row { PlansAfter (S.look store.now) (option_copied instruction.entry) Input.None
        process.now [] pid (with_signals pid process.now (option_copied instruction.entry)
        (S.look store.now (Sig pid))) (told result plan.new) }
    ensures next { IfOk result (λ found. IfSome found
        (λ i. IsNext plan.new (option_copied instruction.entry) i.now)) }
{
    match signals_of(store, pid) {
        Some(signals) => {
            signalled(store, pid, process, instruction, signals, plan)?;
            Ok(None)
        }
        None => does(store, pid, process, instruction, plan),
    }
}

/// The next step of a process whose input is a reply.
#[inline(never)]
#[tactic(auto, using(crate::proofs::Plans::rows))]
fn replied<S: Look>(
    store: &S,
    pid: Pid,
    process: &Process,
    instruction: Option<&Instruction>,
    input: InputRef<'_>,
    plan: &mut Plan,
) -> Result<(), Refusal>
    requires reply { IsReply (input_in input) }
    requires small { IsSome instruction → process.now.place + 1 < 2 ^ 32 }
    ensures row { PlansReply (S.look store.now) (option_copied instruction.entry)
        (input_in input.entry) process.now pid (told result plan.new) }
    ensures quiet { IfOk (told result plan.new) (IsQuiet (S.look store.now)
        (option_copied instruction.entry) (input_in input.entry) process.now) }
{
    match input {
        InputRef::Good => replies::put_good(store, pid, process, instruction, plan),
        InputRef::Fresh(content) => {
            let planned = replies::fresh(store, pid, process, instruction, content);
            keep(plan, planned)
        }
        InputRef::Stale(content) => {
            let planned = replies::stale(store, pid, process, instruction, content);
            keep(plan, planned)
        }
        InputRef::None => unreachable!(),
    }
}

/// The next step of a process that goes on.
#[inline(always)]
fn with_input<'a, S: Look>(
    store: &S,
    pid: Pid,
    process: &Process,
    instruction: Option<&'a Instruction>,
    input: InputRef<'_>,
    plan: &mut Plan,
) -> Result<Option<&'a Instruction>, Refusal>
    requires { IsSome instruction → process.now.place + 1 < 2 ^ 32 }
    ensures row { PlansAfter (S.look store.now) (option_copied instruction.entry)
        (input_in input.entry) process.now (signals_read pid (input_in input.entry)) pid
        (with_input pid process.now (option_copied instruction.entry) (input_in input.entry))
        (told result plan.new) }
    ensures quiet { IsReply (input_in input.entry) → IfOk (told result plan.new) (IsQuiet
        (S.look store.now) (option_copied instruction.entry) (input_in input.entry) process.now) }
    ensures next { IfOk result (λ found. IfSome found
        (λ i. IsNext plan.new (option_copied instruction.entry) i.now)) }
{
    if let InputRef::None = input {
        return with_signals(store, pid, process, instruction, plan);
    }
    replied(store, pid, process, instruction, input, plan)?;
    Ok(None)
}

/// The next instruction of a process, where it stands; `None` past the end of its script.
#[inline(always)]
pub(crate) fn instruction_at<'a>(scripts: &'a Scripts, process: &Process) -> Option<&'a Instruction>
    ensures value { option_copied result ≡ next_in scripts.now process.now }
    ensures small { IsSome result → process.now.place + 1 < 2 ^ 32 }
{
    match scripts.get(&process.script) {
        Some(script) if process.place < script.len() => script.get(process.place),
        _ => None,
    }
}

/// Puts what the next step of a process will do with an input into a plan; or answers the first refusal that applies. A
/// private step that takes no signal is answered with its instruction. This takes no memory.
#[inline(always)]
pub fn plan_into<'a, S: Look>(
    store: &S,
    scripts: &'a Scripts,
    pid: Pid,
    input: InputRef<'_>,
    plan: &mut Plan,
) -> Result<Option<&'a Instruction>, Refusal>
    ensures step { PlansStep (S.look store.now) scripts.now pid (input_in input.entry)
        (told result plan.new) }
    ensures quiet { IsReply (input_in input.entry)
        → IfOk (told result plan.new)
        (λ plan. said_by
        (seen_with (S.look store.now) scripts.now pid (input_in input.entry) plan) ≡ None) }
    ensures next { IfOk result (λ found. IfSome found
        (λ i. DoesNext (S.look store.now) scripts.now pid plan.new i.now)) }
{
    let process = match store.value(Entity::Proc(pid)) {
        Some(EntityState::Process(held)) => held.process(),
        _ => return Err(Refusal::NoProcess),
    };
    if process.ended {
        return Err(Refusal::Ended);
    }
    let instruction = instruction_at(scripts, process);
    with_input(store, pid, process, instruction, input, plan)
}

/// As `plan_into`, by a call of its own, for `plan_step`, which takes no step at once.
#[inline(never)]
fn plan_apart<S: Look>(
    store: &S,
    scripts: &Scripts,
    pid: Pid,
    input: InputRef<'_>,
    plan: &mut Plan,
) -> Result<(), Refusal>
    ensures step { PlansStep (S.look store.now) scripts.now pid (input_in input.entry)
        (told result plan.new) }
    ensures quiet { IsReply (input_in input.entry) → IfOk (told result plan.new) (λ plan. said_by
        (seen_with (S.look store.now) scripts.now pid (input_in input.entry) plan) ≡ None) }
{
    plan_into(store, scripts, pid, input, plan)?;
    Ok(())
}

/// What the next step of a process will do with an input, or the first refusal that applies. This
/// takes no memory.
pub fn plan_step<S: Look>(
    store: &S,
    scripts: &Scripts,
    pid: Pid,
    input: InputRef<'_>,
) -> Result<Plan, Refusal>
    ensures step { PlansStep (S.look store.now) scripts.now pid (input_in input.entry) result }
    ensures quiet { IsReply (input_in input.entry)
        → IfOk result
        (λ plan. said_by
        (seen_with (S.look store.now) scripts.now pid (input_in input.entry) plan) ≡ None) }
{
    let mut plan = Plan::Private;
    plan_apart(store, scripts, pid, input, &mut plan)?;
    Ok(plan)
}
