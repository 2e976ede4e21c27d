//! Steps over keys of 16 bytes with values of 100.
use crate::costs::plan::{KEYS, read_plan};
use crate::wrong::{Wrong, holds};
use sk_bytes::{ByteStep, Bytes};
use sk_speculator::Step;
use std::alloc::{AllocError, Global};
use std::num::NonZeroU16;

/// How long a value is.
const VALUE: usize = 100;

/// The key of a number.
fn key_of(alloc: Global, number: u64) -> Result<Vec<u8>, AllocError> {
    Vec::from_slice(alloc, &u128::from(number).to_be_bytes())
}

/// How often a key was written, up to 255: what each byte of its value says.
fn times(bytes: &Bytes<Vec<u8>, Vec<u8>>, key: &[u8]) -> u8 {
    match bytes.value(key) {
        Some(value) => value.first().copied().unwrap_or(0),
        None => 0,
    }
}

/// Puts a look at a key into a step's buffers: how often it was written.
fn fill_look(
    bytes: &Bytes<Vec<u8>, Vec<u8>>,
    step: &mut ByteStep<Vec<u8>, Vec<u8>>,
    alloc: Global,
    number: u64,
) -> Result<u8, AllocError> {
    let key = key_of(alloc, number)?;
    let times = times(bytes, key.as_slice());
    step.looked.push(key)?;
    Ok(times)
}

/// Puts a write of a key into them.
fn fill_write(
    step: &mut ByteStep<Vec<u8>, Vec<u8>>,
    alloc: Global,
    number: u64,
    times: u8,
) -> Result<(), AllocError> {
    let key = key_of(alloc, number)?;
    let value = Vec::from_slice(alloc, &[times; VALUE])?;
    step.written.push((key, Some(value)))?;
    Ok(())
}

/// Puts a look at a key and a write of it into a step's buffers.
fn fill(
    bytes: &Bytes<Vec<u8>, Vec<u8>>,
    step: &mut ByteStep<Vec<u8>, Vec<u8>>,
    alloc: Global,
    number: u64,
) -> Result<(), AllocError> {
    let times = fill_look(bytes, step, alloc, number)?;
    fill_write(step, alloc, number, times.saturating_add(1))
}

/// So many steps, of one key after another.
fn take_all(
    bytes: &mut Bytes<Vec<u8>, Vec<u8>>,
    step: &mut ByteStep<Vec<u8>, Vec<u8>>,
    alloc: Global,
    steps: u64,
) -> Result<(), Wrong> {
    for turn in 0..steps {
        fill(bytes, step, alloc, turn % KEYS)?;
        holds(bytes.take(step).is_ok(), Wrong::Refused)?;
    }
    holds(bytes.len() as u64 == steps.min(KEYS), Wrong::Keys)
}

/// Steps of one key after another.
#[test]
fn byte_steps(rt: HostRuntime) -> Result<(), Wrong> {
    let plan = read_plan(&rt);
    let mut bytes = Bytes::new(rt.alloc(), 7, NonZeroU16::MIN, 1);
    let mut step = Step::new(rt.alloc());
    let taken = take_all(&mut bytes, &mut step, rt.alloc(), plan.steps);
    drop(bytes);
    drop(step);
    taken
}
