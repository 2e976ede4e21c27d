//! Plain kernels and openings, compared.
use crate::start::{BARE, Lines, Start, Version, declares_all, kernel_of, passes};
use sk_kernel::{Kernel, Opening};
use sk_plain::Plain;
use sk_script::{Boot, Input};
use std::alloc::Global;
use tests_support::plain::pid;
use tests_support::wrong::{Wrong, holds};

/// A process that says nothing again and again.
const AGAIN: Lines<'static> = &[(b"again:\nsay\njump again\n", 1)];

const COPY: Version<'static> = (b"/01", 3, b"old");

/// A kernel of number 1 with one such process and a copy.
const SAYING: Start<'static> = Start {
    number: 1,
    scripts: &[AGAIN],
    copies: &[COPY],
    ..BARE
};

const START: &Start<'static> = &SAYING;

/// Kernels that begin otherwise: of another number, with another limit, with a process and a copy more, and with another
/// script.
const OTHERS: &[Start<'static>] = &[
    Start {
        number: 2,
        ..SAYING
    },
    Start {
        limit: 101,
        ..SAYING
    },
    Start {
        scripts: &[AGAIN, AGAIN],
        copies: &[COPY, (b"/02", 3, b"old")],
        ..SAYING
    },
    Start {
        scripts: &[&[(b"again:\nsay\njump again\nsay\n", 1)]],
        ..SAYING
    },
];

/// Takes so many steps.
fn says(kernel: &mut Kernel, steps: usize) -> Result<(), Wrong> {
    let pid = pid(1)?;
    for _ in 0..steps {
        kernel.step(pid, Input::None)?;
    }
    Ok(())
}

/// The opening of a kernel after so many steps.
fn said(kernel: &mut Kernel, steps: usize) -> Result<Opening, Wrong> {
    says(kernel, steps)?;
    Ok(kernel.opening().copy()?)
}

/// The opening of a new kernel after so many steps.
fn opening_after(alloc: Global, start: &Start<'_>, steps: usize) -> Result<Opening, Wrong> {
    let mut kernel = kernel_of(alloc, start)?;
    let opening = said(&mut kernel, steps);
    drop(kernel);
    opening
}

/// Whether it is that of another kernel after so many steps.
fn is_opening(
    alloc: Global,
    opening: &Opening,
    start: &Start<'_>,
    steps: usize,
) -> Result<bool, Wrong> {
    let other = opening_after(alloc, start, steps)?;
    let is_same = *opening == other;
    drop(other);
    Ok(is_same)
}

/// What an opening has is as a kernel of this start has it.
fn begins(opening: &Opening) -> bool {
    opening.number() == 1
        && opening.limit() == 100
        && opening.guess() == 1
        && opening.start().said(1).is_empty()
}

fn is_same_later(alloc: Global) -> Result<(), Wrong> {
    let first = opening_after(alloc, START, 0)?;
    let is_same = is_opening(alloc, &first, START, 5);
    let is_first = holds(1, begins(&first));
    drop(first);
    holds(0, is_same == Ok(true)).and(is_first)
}

#[test]
fn openings_after_the_same_boot(rt: HostRuntime) {
    passes(&rt, is_same_later(rt.alloc()));
}

/// An opening is none of these kernels'.
fn is_none_of(alloc: Global, opening: &Opening, table: &[Start<'_>]) -> Result<(), Wrong> {
    for (place, start) in table.iter().enumerate() {
        holds(place, !is_opening(alloc, opening, start, 0)?)?;
    }
    Ok(())
}

fn all_differ(alloc: Global) -> Result<(), Wrong> {
    let first = opening_after(alloc, START, 0)?;
    let differ = is_none_of(alloc, &first, OTHERS);
    drop(first);
    differ
}

#[test]
fn openings_that_differ(rt: HostRuntime) {
    passes(&rt, all_differ(rt.alloc()));
}

/// Takes so many steps.
fn steps(plain: &mut Plain, count: usize) -> Result<(), Wrong> {
    let pid = pid(1)?;
    for _ in 0..count {
        plain.step(pid, &Input::None)?;
    }
    Ok(())
}

/// The plain kernel of a boot that has nothing yet.
fn boots(alloc: Global, boot: &mut Boot) -> Result<Plain, Wrong> {
    declares_all(alloc, boot, START)?;
    Ok(Plain::boot(alloc, boot)?)
}

/// A plain kernel at its start.
fn plain_at_start(alloc: Global) -> Result<Plain, Wrong> {
    let mut boot = Boot::new(alloc);
    let plain = boots(alloc, &mut boot);
    drop(boot);
    plain
}

/// The plain kernel after so many steps.
fn plain_after(alloc: Global, count: usize) -> Result<Plain, Wrong> {
    let mut plain = plain_at_start(alloc)?;
    match steps(&mut plain, count) {
        Ok(()) => Ok(plain),
        Err(wrong) => {
            drop(plain);
            Err(wrong)
        }
    }
}

/// Whether it is the plain kernel after so many steps.
fn is_after(alloc: Global, plain: &Plain, count: usize) -> Result<bool, Wrong> {
    let other = plain_after(alloc, count)?;
    let is_same = *plain == other;
    drop(other);
    Ok(is_same)
}

/// Whether it is the one after so many steps, after one more and after two more.
fn compared(alloc: Global, plain: &Plain, count: usize) -> Result<[bool; 3], Wrong> {
    let same = is_after(alloc, plain, count)?;
    let next = is_after(alloc, plain, count.saturating_add(1))?;
    let later = is_after(alloc, plain, count.saturating_add(2))?;
    Ok([same, next, later])
}

/// The plain kernel after so many steps is no other.
fn is_itself(alloc: Global, count: usize) -> Result<(), Wrong> {
    let plain = plain_after(alloc, count)?;
    let compared = compared(alloc, &plain, count);
    drop(plain);
    holds(count, compared == Ok([true, false, false]))
}

fn all_are_themselves(alloc: Global) -> Result<(), Wrong> {
    for count in 0..=3 {
        is_itself(alloc, count)?;
    }
    Ok(())
}

/// Every second step leaves the process where it was, with one text more.
#[test]
fn plain_kernels_that_differ_in_one_text(rt: HostRuntime) {
    passes(&rt, all_are_themselves(rt.alloc()));
}
