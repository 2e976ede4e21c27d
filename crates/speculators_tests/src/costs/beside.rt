//! Steps and guesses beside open guesses of others.
use crate::costs::plan::{KEYS, Plan, read_plan};
use crate::wrong::{Wrong, holds};
use sk_guesses::Guess;
use sk_speculator::{Speculator, Step};
use std::alloc::AllocError;
use std::num::NonZeroU16;
use std::process::Abort;

/// What a key has.
type Row = (u64, u64);

type Kernel = Speculator<u64, Row, u64>;

type KernelStep = Step<u64, Row, u64>;

/// Puts a look at a key and a write of it into a step's buffers.
fn fill(kernel: &Kernel, step: &mut KernelStep, key: u64) -> Result<(), AllocError> {
    let (times, sum) = kernel.value(&key).copied().unwrap_or((0, 0));
    step.looked.push(key)?;
    let row = (times.wrapping_add(1), sum.wrapping_add(key));
    step.written.push((key, Some(row)))?;
    Ok(())
}

/// So many steps, of one key after another.
fn take_all(
    kernel: &mut Kernel,
    step: &mut KernelStep,
    first: u64,
    steps: u64,
    keys: u64,
) -> Result<(), Wrong> {
    for turn in 0..steps {
        fill(kernel, step, first.wrapping_add(turn) % keys.max(1))?;
        kernel.take(step)?;
    }
    Ok(())
}

/// Decides a guess.
fn decide(rt: &impl Abort, kernel: &mut Kernel, guess: Guess, is_right: bool) {
    if is_right {
        match kernel.commit(guess) {
            Ok(_committed) => {}
            Err(_stranger) => panic!(rt; "a stranger"),
        }
    } else {
        match kernel.fail(guess) {
            Ok(_failed) => {}
            Err(_stranger) => panic!(rt; "a stranger"),
        }
    }
}

/// A guess with its steps and its decision.
fn round(
    rt: &impl Abort,
    kernel: &mut Kernel,
    step: &mut KernelStep,
    turn: u64,
    plan: Plan,
) -> Result<(), Wrong> {
    let first = turn.wrapping_mul(plan.steps.wrapping_add(1));
    fill(kernel, step, first % KEYS)?;
    let guess = kernel.guess(step)?;
    let went = take_all(kernel, step, first.wrapping_add(1), plan.steps, KEYS);
    decide(rt, kernel, guess, turn % 2 == 0);
    went
}

/// Draws the guesses of others.
fn draw_others(
    kernel: &mut Kernel,
    step: &mut KernelStep,
    others: &mut Vec<Guess>,
    plan: Plan,
) -> Result<(), Wrong> {
    for turn in 0..plan.others {
        fill(kernel, step, KEYS.wrapping_add(turn))?;
        others.reserve(1)?;
        others.push_reserved(kernel.guess(step)?);
    }
    Ok(())
}

/// So many steps, each of which writes a key of its own, behind those of others, and looks at what two guesses wrote.
fn take_under(kernel: &mut Kernel, step: &mut KernelStep, plan: Plan) -> Result<(), Wrong> {
    let first = KEYS.wrapping_add(plan.others);
    for turn in 0..plan.steps {
        step.looked.push(0)?;
        step.looked.push(1)?;
        fill(kernel, step, first.wrapping_add(turn))?;
        kernel.take(step)?;
    }
    Ok(())
}

/// A failure of so many keys that depend on another guess too.
fn fail_under(
    rt: &impl Abort,
    kernel: &mut Kernel,
    step: &mut KernelStep,
    plan: Plan,
) -> Result<(), Wrong> {
    fill(kernel, step, 0)?;
    let kept = kernel.guess(step)?;
    let went = fail_inner(rt, kernel, step, plan);
    decide(rt, kernel, kept, true);
    went
}

/// The same under a guess that stays.
fn fail_inner(
    rt: &impl Abort,
    kernel: &mut Kernel,
    step: &mut KernelStep,
    plan: Plan,
) -> Result<(), Wrong> {
    fill(kernel, step, 1)?;
    let failed = kernel.guess(step)?;
    let went = take_under(kernel, step, plan);
    decide(rt, kernel, failed, false);
    went
}

/// All of it.
fn run(
    rt: &impl Abort,
    kernel: &mut Kernel,
    step: &mut KernelStep,
    others: &mut Vec<Guess>,
    plan: Plan,
) -> Result<(), Wrong> {
    take_all(kernel, step, 0, plan.present, plan.present)?;
    draw_others(kernel, step, others, plan)?;
    if plan.guesses == 0 {
        take_all(kernel, step, 0, plan.steps, KEYS)?;
    }
    for turn in 0..plan.guesses {
        round(rt, kernel, step, turn, plan)?;
    }
    holds(kernel.undecided() == others.len(), Wrong::Keys)
}

/// Commits the guesses of others.
fn end(rt: &impl Abort, kernel: &mut Kernel, others: Vec<Guess>) {
    let mut others = others;
    while let Some(guess) = others.pop() {
        decide(rt, kernel, guess, true);
    }
    others.destroy_empty();
}

/// Steps, or guesses with their steps, while guesses of others are open.
#[test]
fn beside_others(rt: HostRuntime) -> Result<(), Wrong> {
    let plan = read_plan(&rt);
    let mut kernel = Speculator::new(rt.alloc(), 7, NonZeroU16::MAX);
    let mut step = Step::new(rt.alloc());
    let mut others = Vec::new(rt.alloc());
    let went = run(&rt, &mut kernel, &mut step, &mut others, plan);
    end(&rt, &mut kernel, others);
    drop(kernel);
    drop(step);
    went
}

/// A failure of keys that depend on another guess too, while guesses of others are open.
#[test]
fn failure_beside_others(rt: HostRuntime) -> Result<(), Wrong> {
    let plan = read_plan(&rt);
    let mut kernel = Speculator::new(rt.alloc(), 7, NonZeroU16::MAX);
    let mut step = Step::new(rt.alloc());
    let mut others = Vec::new(rt.alloc());
    let mut went = draw_others(&mut kernel, &mut step, &mut others, plan);
    if went.is_ok() {
        went = fail_under(&rt, &mut kernel, &mut step, plan);
    }
    end(&rt, &mut kernel, others);
    drop(kernel);
    drop(step);
    went
}
