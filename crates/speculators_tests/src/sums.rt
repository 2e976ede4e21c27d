//! Numbers that are added to: what is added, and what a decision leaves of it.
use crate::wrong::{Wrong, holds};
use sk_guesses::Guess;
use sk_inversion::{Sum, Write};
use sk_speculator::{Speculator, Step};
use std::alloc::AllocError;
use std::num::NonZeroU16;
use std::process::Abort;

/// A kernel whose numbers are added to.
type Sums = Speculator<u32, u64, u64, Sum>;

/// A step for it.
type SumStep = Step<u32, u64, u64, Sum>;

/// The key that is there.
const KEY: u32 = 0;

/// One that is not.
const ABSENT: u32 = 1;

/// Adds a write to a step.
fn add(step: &mut SumStep, key: u32, write: Write<u64, u64>) -> Result<(), AllocError> {
    step.written.reserve(1)?;
    step.written.push_reserved((key, write));
    Ok(())
}

/// What the key has, after a step that writes it.
fn take(
    sums: &mut Sums,
    step: &mut SumStep,
    write: Write<u64, u64>,
) -> Result<Option<u64>, AllocError> {
    add(step, KEY, write)?;
    sums.take(step)?;
    Ok(sums.value(&KEY).copied())
}

/// A guess whose step adds to the key.
fn guess(sums: &mut Sums, step: &mut SumStep, amount: u64) -> Result<Guess, Wrong> {
    add(step, KEY, Write::Change(amount))?;
    Ok(sums.guess(step)?)
}

/// Spends a token by a commit; answers what the key has then.
fn commit(rt: &impl Abort, sums: &mut Sums, token: Guess) -> Option<u64> {
    match sums.commit(token) {
        Ok(_committed) => sums.value(&KEY).copied(),
        Err(_token) => panic!(rt; "a stranger"),
    }
}

/// Spends a token by a failure; answers what the key has then.
fn fail(rt: &impl Abort, sums: &mut Sums, token: Guess) -> Option<u64> {
    match sums.fail(token) {
        Ok(_failed) => sums.value(&KEY).copied(),
        Err(_token) => panic!(rt; "a stranger"),
    }
}

/// Of two writes of one key the later adds to what the earlier left, and what is absent stays so.
fn judge_adding(sums: &mut Sums, step: &mut SumStep) -> Result<(), Wrong> {
    add(step, ABSENT, Write::Change(5))?;
    add(step, KEY, Write::Set(Some(40)))?;
    let both = take(sums, step, Write::Change(2))?;
    holds(both == Some(42), Wrong::Value)?;
    holds(sums.keys().count() == 1, Wrong::Keys)
}

/// A failure takes back what was added under the guess and what was added behind it, though this went past the end of numbers.
fn judge_failing(rt: &impl Abort, sums: &mut Sums, step: &mut SumStep) -> Result<(), Wrong> {
    take(sums, step, Write::Set(Some(42)))?;
    let token = guess(sums, step, u64::MAX)?;
    let more = take(sums, step, Write::Change(10));
    let left = fail(rt, sums, token);
    holds(more? == Some(51) && left == Some(42), Wrong::Value)
}

/// The second guess fails after the first is committed: what the first added stays.
fn judge_both(rt: &impl Abort, sums: &mut Sums, step: &mut SumStep) -> Result<(), Wrong> {
    take(sums, step, Write::Set(Some(42)))?;
    let first = guess(sums, step, 1)?;
    match guess(sums, step, 2) {
        Ok(second) => {
            let both = commit(rt, sums, first);
            let left = fail(rt, sums, second);
            holds(both == Some(45) && left == Some(43), Wrong::Value)
        }
        Err(why) => {
            commit(rt, sums, first);
            Err(why)
        }
    }
}

/// Numbers are set and added to.
#[test]
fn adds(rt: HostRuntime) -> Result<(), Wrong> {
    let mut sums = Sums::new(rt.alloc(), 7, NonZeroU16::MIN);
    judge_adding(&mut sums, &mut SumStep::new(rt.alloc()))
}

/// What was added is taken back.
#[test]
fn takes_back(rt: HostRuntime) -> Result<(), Wrong> {
    let mut sums = Sums::new(rt.alloc(), 7, NonZeroU16::MIN);
    judge_failing(&rt, &mut sums, &mut SumStep::new(rt.alloc()))
}

/// What depends on a committed guess alone stays.
#[test]
fn keeps_what_is_committed(rt: HostRuntime) -> Result<(), Wrong> {
    let mut sums = Sums::new(rt.alloc(), 7, NonZeroU16::MAX);
    judge_both(&rt, &mut sums, &mut SumStep::new(rt.alloc()))
}
