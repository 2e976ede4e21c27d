//! Grows what no door asks for past 70,000, with ample memory: the entities and the opening of a kernel, and what its trace leaves.
use crate::start::{BARE, Start, kernel_of, passes};
use sk_kernel::Kernel;
use sk_plain::strike_from;
use sk_script::Input;
use std::alloc::Global;
use tests_support::plain::pid;
use tests_support::wrong::{Wrong, holds};

/// How many files are made: past each number at which a body could give up.
const MANY: usize = 70_001;

/// Makes files for ever.
const FILES: &Start<'static> = &Start {
    scripts: &[&[(b"a:\nmkfile r1\njump a\n", 1)]],
    limit: 4_000_000,
    ..BARE
};

/// The files are made, in two steps each.
fn makes(kernel: &mut Kernel) -> Result<(), Wrong> {
    let pid = pid(1)?;
    for _ in 0..2 * MANY {
        kernel.step(pid, Input::None)?;
    }
    Ok(())
}

/// The trace leaves each step.
fn leaves(alloc: Global, kernel: &Kernel) -> Result<(), Wrong> {
    let entries = strike_from(alloc, kernel.opening().start(), kernel.trace())?;
    holds(0, entries.len() == 2 * MANY)
}

/// The kernel has all files.
fn has_all(kernel: &Kernel) -> Result<(), Wrong> {
    let entities = kernel.entities()?;
    holds(1, entities.len() > MANY)
}

/// The next epoch's opening is copied.
fn is_copied(kernel: &mut Kernel) -> Result<(), Wrong> {
    holds(2, kernel.new_epoch().is_ok())?;
    let copy = kernel.opening().copy()?;
    let is_same = *kernel.opening() == copy;
    drop(copy);
    holds(3, is_same)
}

fn grows_in(alloc: Global, kernel: &mut Kernel) -> Result<(), Wrong> {
    makes(kernel)?;
    leaves(alloc, kernel)?;
    has_all(kernel)?;
    is_copied(kernel)
}

fn grows(alloc: Global) -> Result<(), Wrong> {
    let mut kernel = kernel_of(alloc, FILES)?;
    let grown = grows_in(alloc, &mut kernel);
    drop(kernel);
    grown
}

#[test]
fn files_of_an_opening(rt: HostRuntime) {
    passes(&rt, grows(rt.alloc()));
}
