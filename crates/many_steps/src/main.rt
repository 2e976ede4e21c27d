//! A kernel over own keys that takes as many steps under as many guesses as it is asked for.
#![tactic(auto)]

ghost use Rattle.std.specs.Prelude.{◌≡◌, IfOk};
ghost use Rattle.hidewillow.specs.UndoState.{numbers};
ghost use Rattle.many_steps.specs.Own.{IsOwn};

mod plan;

use hidewillow::Guess;
use hidewillow::own::{Refusal, Speculator, Step};
use plan::{Deed, StepPlan, read_plan};
use std::alloc::{AllocError, AllocFailed, Global};
use std::num::NonZeroU16;
use thiserror::Error;

/// How many channels are written to.
const CHANNELS: u64 = 3;

/// What a key has.
type Row = (u64, u64);

type Kernel = Speculator<u64, Row, u64>;

/// Why a run stops.
#[derive(Debug, Drop, Error)]
enum RunStop {
    #[error("out of memory")]
    Memory,
    #[error("a guess is refused: {0}")]
    Guess(#[from] Refusal),
}

impl From<AllocError> for RunStop {
    fn from(_: AllocError) -> RunStop {
        RunStop::Memory
    }
}

impl<T: Drop> From<AllocFailed<T>> for RunStop {
    fn from(_: AllocFailed<T>) -> RunStop {
        RunStop::Memory
    }
}

/// A number that a number leads to.
fn next(number: u64) -> u64 {
    number
        .wrapping_mul(6_364_136_223_846_793_005)
        .wrapping_add(1_442_695_040_888_963_407)
}

/// Some of the keys.
fn key_of(number: u64, keys: u16) -> u64 {
    let key = (number >> 48) as u16;
    u64::from(if keys == 0 { key } else { key % keys })
}

/// What a step says: a number, to a channel that follows from it.
fn said(number: u64) -> Option<(u16, u64)> {
    Some(((number % CHANNELS) as u16, number))
}

/// Puts a look at a key and a write of it into a step's buffers.
fn fill_one(
    kernel: &Kernel,
    step: &mut Step<u64, Row, u64>,
    key: u64,
    number: u64,
) -> Result<(), AllocError> {
    let (times, sum) = kernel.value(&key).copied().unwrap_or((0, 0));
    step.looked.push(key)?;
    let row = (times.wrapping_add(1), sum.wrapping_add(number));
    step.written.push((key, Some(row)))?;
    Ok(())
}

/// Puts the step of a number into its buffers.
fn fill(
    kernel: &Kernel,
    step: &mut Step<u64, Row, u64>,
    number: u64,
    plan: StepPlan,
) -> Result<(), AllocError> {
    let own = next(number);
    fill_one(kernel, step, key_of(own, plan.keys), number)?;
    step.said = match plan.deed {
        Deed::Mixed if number % 4 == 0 => said(number),
        Deed::Mixed | Deed::Write => None,
        Deed::Say => said(number),
    };
    if plan.deed == Deed::Mixed {
        let other = next(own);
        let row = if other % 8 < 2 {
            None
        } else {
            Some((1, number))
        };
        step.written.push((key_of(other, plan.keys), row))?;
    }
    Ok(())
}

/// Decides a guess of this kernel, which is undecided. It stays a function of its own, so that what it takes can be counted
/// alone.
#[inline(never)]
fn decide(kernel: &mut Kernel, guess: Guess, is_right: bool)
    requires { IsOwn kernel.old guess }
{
    if is_right {
        match kernel.commit(guess) {
            Ok(_committed) => {}
            Err(_stranger) => unreachable!(),
        }
    } else {
        match kernel.fail(guess) {
            Ok(_failed) => {}
            Err(_stranger) => unreachable!(),
        }
    }
}

/// So many steps, by these numbers from a first one on. No guess is drawn or decided.
fn take_all(
    kernel: &mut Kernel,
    step: &mut Step<u64, Row, u64>,
    first: u64,
    plan: StepPlan,
) -> Result<(), RunStop>
    ensures guesses { kernel.new.guesses ≡ kernel.old.guesses }
    ensures opens { numbers kernel.new.opens ≡ numbers kernel.old.opens }
{
    for turn in 0..plan.steps {
        fill(kernel, step, first.wrapping_add(turn), plan)?;
        kernel.take(step)?;
    }
    Ok(())
}

/// Draws a guess with a step.
fn guess(
    kernel: &mut Kernel,
    step: &mut Step<u64, Row, u64>,
    number: u64,
    plan: StepPlan,
) -> Result<Guess, RunStop>
    ensures { IfOk result (λ guess. IsOwn kernel.new guess) }
{
    fill(kernel, step, number, plan)?;
    Ok(kernel.guess(step)?)
}

/// A guess with its steps and its decision. A token can't be let go, so that it is spent before any `?`.
fn round(
    kernel: &mut Kernel,
    step: &mut Step<u64, Row, u64>,
    first: u64,
    plan: StepPlan,
    is_right: bool,
) -> Result<(), RunStop> {
    let token = guess(kernel, step, first, plan)?;
    let went = take_all(kernel, step, first.wrapping_add(1), plan);
    decide(kernel, token, is_right);
    went
}

/// Takes out what has come out: how many outputs these are.
fn take_out(kernel: &mut Kernel, most: u64) -> u64 {
    let mut count = 0u64;
    for turn in 0..most {
        if kernel.released((turn % CHANNELS) as u16).is_some() {
            count = count.wrapping_add(1);
        }
    }
    count
}

/// Makes the first keys present.
fn make_present(
    kernel: &mut Kernel,
    step: &mut Step<u64, Row, u64>,
    plan: StepPlan,
) -> Result<(), RunStop> {
    for key in 0..plan.present {
        step.written.push((key, Some((0, 0))))?;
        kernel.take(step)?;
    }
    Ok(())
}

/// The steps without a guess, behind each of which what it said is taken out: how many outputs these are.
fn take_alone(
    kernel: &mut Kernel,
    step: &mut Step<u64, Row, u64>,
    plan: StepPlan,
) -> Result<u64, RunStop> {
    let mut told = 0u64;
    for turn in 0..plan.steps {
        fill(kernel, step, turn, plan)?;
        kernel.take(step)?;
        if plan.deed.says() && kernel.released((turn % CHANNELS) as u16).is_some() {
            told = told.wrapping_add(1);
        }
    }
    Ok(told)
}

/// All of it: how many outputs came out.
fn run(kernel: &mut Kernel, alloc: Global, plan: StepPlan) -> Result<u64, RunStop> {
    let mut step = Step::new(alloc);
    make_present(kernel, &mut step, plan)?;
    if plan.guesses == 0 {
        return take_alone(kernel, &mut step, plan);
    }
    let mut told = 0u64;
    for turn in 0..plan.guesses {
        let first = turn.wrapping_mul(plan.steps.wrapping_add(1));
        round(kernel, &mut step, first, plan, plan.ends.is_right(turn))?;
        if plan.deed.says() {
            told = told.wrapping_add(take_out(kernel, plan.steps.saturating_add(3)));
        }
    }
    Ok(told)
}

/// Runs a plan, and writes what came of it.
fn show(rt: &HostRuntime, kernel: &mut Kernel, plan: StepPlan) -> anyhow::Result<()> {
    let told = run(kernel, rt.alloc(), plan)?;
    println!(rt; "guesses {}, outputs {told}", plan.guesses)?;
    Ok(())
}

fn main(rt: HostRuntime) -> anyhow::Result<()> {
    let plan = read_plan(&rt)?;
    let mut kernel = Speculator::new(rt.alloc(), 1, NonZeroU16::MAX);
    show(&rt, &mut kernel, plan)
}
