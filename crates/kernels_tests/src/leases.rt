//! A process is leased, and handed in.
use crate::start::{BARE, Start, kernel_of, passes};
use sk_ids::{Entity, Pid};
use sk_kernel::{HandIn, Kernel};
use sk_plain::{Refusal, View};
use sk_script::{Input, Lease};
use std::alloc::Global;
use tests_support::plain::pid;
use tests_support::wrong::{Wrong, holds};

/// What a hand-in comes to.
#[derive(Clone, Copy, PartialEq, Eq)]
struct HandedIn {
    /// The instructions that the lease had done.
    done: u32,
    is_as_lent: bool,
    answer: Result<(), HandIn>,
    /// The kernel's events then.
    events: usize,
    /// Where the process stands then, if it is there.
    place: Option<u32>,
}

/// A process with two private instructions and one that is not, and one that ends it by a signal.
const START: &Start<'static> = &Start {
    scripts: &[
        &[(b"set r1 1\nset r2 2\nsay\n", 1)],
        &[(b"boot r1 1\nset r2 9\nkill r1 r2\n", 1)],
    ],
    limit: 1_000,
    ..BARE
};

/// Where a process stands, if it is there.
fn place_of(kernel: &Kernel, pid: Pid) -> Option<u32> {
    match kernel.value(&Entity::Proc(pid)) {
        Some(View::Process(process)) => Some(process.place),
        _ => None,
    }
}

/// What the hand-in of a lease is answered.
fn answered(kernel: &mut Kernel, lease: Lease) -> Result<(), HandIn> {
    match kernel.hand_in(lease) {
        Ok(()) => Ok(()),
        Err((lease, why)) => {
            lease.give_up();
            Err(why)
        }
    }
}

/// What the hand-in of a process comes to.
fn outcome(kernel: &mut Kernel, leased: Pid, lease: Lease) -> HandedIn {
    let done = lease.count();
    let is_as_lent = kernel.as_lent(&lease);
    let answer = answered(kernel, lease);
    HandedIn {
        done,
        is_as_lent,
        answer,
        events: kernel.trace().events().len(),
        place: place_of(kernel, leased),
    }
}

/// Takes so many steps of a process.
fn steps(kernel: &mut Kernel, pid: Pid, count: u32) -> Result<(), Refusal> {
    for _ in 0..count {
        kernel.step(pid, Input::None)?;
    }
    Ok(())
}

/// Process 1 is leased and runs its private instructions; then so many steps of a process are
/// taken, and it is handed in.
fn hands_in(kernel: &mut Kernel, between: Pid, count: u32) -> Result<HandedIn, Wrong> {
    let leased = pid(1)?;
    let mut lease = kernel.lease(leased)?;
    lease.run(10);
    let stepped = steps(kernel, between, count);
    let handed_in = outcome(kernel, leased, lease);
    match stepped {
        Ok(()) => Ok(handed_in),
        Err(_) => Err(Wrong::Refused),
    }
}

/// In a new kernel process 1 is leased, and handed in with so many steps of a process between.
fn handed_in(alloc: Global, between: u16, steps: u32) -> Result<HandedIn, Wrong> {
    let between = pid(between)?;
    let mut kernel = kernel_of(alloc, START)?;
    let handed_in = hands_in(&mut kernel, between, steps);
    drop(kernel);
    handed_in
}

/// Both private instructions are done, and handed in.
const BOTH: HandedIn = HandedIn {
    done: 2,
    is_as_lent: true,
    answer: Ok(()),
    events: 2,
    place: Some(2),
};

/// A lease is stale, since its process made a step, or was ended by a signal.
const STALE: HandedIn = HandedIn {
    done: 2,
    is_as_lent: false,
    answer: Err(HandIn::Stale),
    events: 1,
    place: Some(1),
};

/// Whose steps are taken, and how many, before the lease is handed in.
const ROWS: [(u16, u32, HandedIn); 3] = [
    (2, 0, BOTH),
    (
        2,
        3,
        HandedIn {
            events: 3,
            place: Some(0),
            ..STALE
        },
    ),
    (1, 1, STALE),
];

fn all_are_handed_in(alloc: Global) -> Result<(), Wrong> {
    for (place, (between, steps, want)) in ROWS.iter().enumerate() {
        holds(place, handed_in(alloc, *between, *steps)? == *want)?;
    }
    Ok(())
}

#[test]
fn lease_and_hand_in(rt: HostRuntime) {
    passes(&rt, all_are_handed_in(rt.alloc()));
}

/// The first instruction alone is done, and handed in.
const FIRST: HandedIn = HandedIn {
    done: 1,
    events: 1,
    place: Some(1),
    ..BOTH
};

/// How many instructions each lease of process 1 may run, one after the other.
const IN_TURN: [(u32, HandedIn); 3] = [
    (1, FIRST),
    (10, HandedIn { done: 1, ..BOTH }),
    (10, HandedIn { done: 0, ..BOTH }),
];

/// Process 1 is leased, runs so many private instructions and is handed in.
fn counted(kernel: &mut Kernel, count: u32) -> Result<HandedIn, Wrong> {
    let leased = pid(1)?;
    let mut lease = kernel.lease(leased)?;
    lease.run(count);
    Ok(outcome(kernel, leased, lease))
}

/// A lease is spent by its hand-in, so that the next one of the process has just what is done from there on.
fn count_once(kernel: &mut Kernel) -> Result<(), Wrong> {
    for (place, (count, want)) in IN_TURN.iter().enumerate() {
        holds(place, counted(kernel, *count)? == *want)?;
    }
    Ok(())
}

fn none_counts_twice(alloc: Global) -> Result<(), Wrong> {
    let mut kernel = kernel_of(alloc, START)?;
    let counted = count_once(&mut kernel);
    drop(kernel);
    counted
}

#[test]
fn leases_in_turn(rt: HostRuntime) {
    passes(&rt, none_counts_twice(rt.alloc()));
}
