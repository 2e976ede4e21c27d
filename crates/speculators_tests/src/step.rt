//! Steps that are handed to a kernel.
use crate::job::{Deed, Written};
use sk_inversion::{Sum, Write};
use sk_speculator::Step;
use std::alloc::AllocError;

/// A step over numbers, which has numbers and says them; to what a key has an amount may be added.
pub type OwnStep = Step<u32, u64, u64, Sum>;

/// A write.
fn write_of(written: Written) -> Write<u64, u64> {
    match written {
        Written::Set(value) => Write::Set(value),
        Written::Add(amount) => Write::Change(amount),
    }
}

/// Whether it is this write.
fn is_write(write: &Write<u64, u64>, written: Written) -> bool {
    match (write, written) {
        (Write::Set(value), Written::Set(other)) => *value == other,
        (Write::Change(amount), Written::Add(other)) => *amount == other,
        _ => false,
    }
}

/// Adds a key to those that a step looked at.
pub fn add_look(step: &mut OwnStep, key: u32) -> Result<(), AllocError> {
    step.looked.push(key)?;
    Ok(())
}

/// Adds a write of a key to a step.
pub fn add_write(step: &mut OwnStep, key: u32, written: Written) -> Result<(), AllocError> {
    step.written.push((key, write_of(written)))?;
    Ok(())
}

/// Puts a deed into a step's buffers, and nothing else.
pub fn fill(step: &mut OwnStep, deed: &Deed) -> Result<(), AllocError> {
    step.looked.clear();
    step.written.clear();
    for key in deed.looked {
        if let Some(key) = key {
            add_look(step, key)?;
        }
    }
    for (key, written) in deed.written {
        if let Some(key) = key {
            add_write(step, key, written)?;
        }
    }
    step.said = deed.said;
    Ok(())
}

/// Whether these are the keys that a deed looks at.
fn is_looked(keys: &[u32], deed: &Deed) -> bool {
    let mut keys = keys.iter();
    for key in deed.looked {
        if key.is_some() && keys.next().copied() != key {
            return false;
        }
    }
    keys.next().is_none()
}

/// Whether these are a deed's writes.
fn is_written(writes: &[(u32, Write<u64, u64>)], deed: &Deed) -> bool {
    let mut writes = writes.iter();
    for (key, written) in deed.written {
        if let Some(key) = key {
            match writes.next() {
                Some(write) if write.0 == key && is_write(&write.1, written) => {}
                _ => return false,
            }
        }
    }
    writes.next().is_none()
}

/// Whether a step's buffers have a deed, and nothing else.
pub fn is_step(step: &OwnStep, deed: &Deed) -> bool {
    is_looked(step.looked.as_slice(), deed)
        && is_written(step.written.as_slice(), deed)
        && step.said == deed.said
}
