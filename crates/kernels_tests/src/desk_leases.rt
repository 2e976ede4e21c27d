//! A process of a desk is leased, and handed in.
use crate::start::{BARE, Start, kernel_of, passes};
use sk_client::{Desk, Turn};
use sk_ids::Pid;
use sk_kernel::HandIn;
use sk_plain::Refusal;
use sk_script::Lease;
use std::alloc::Global;
use tests_support::plain::pid;
use tests_support::wrong::{Wrong, holds};

/// A process with two private instructions and one that is not, and one that ends it by a signal.
const START: &Start<'static> = &Start {
    scripts: &[
        &[(b"set r1 1\nset r2 2\nsay\n", 1)],
        &[(b"boot r1 1\nset r2 9\nkill r1 r2\n", 1)],
    ],
    limit: 1_000,
    ..BARE
};

/// A process, how many turns of it are taken between, what the hand-in is answered, and how many events there are then.
type Row = (u16, u32, Result<(), HandIn>, usize);

const ROWS: [Row; 3] = [
    (2, 0, Ok(()), 2),
    (2, 3, Err(HandIn::Stale), 3),
    (1, 1, Err(HandIn::Stale), 1),
];

/// What the hand-in of a lease is answered.
fn answered(desk: &mut Desk, lease: Lease) -> Result<(), HandIn> {
    match desk.hand_in(lease) {
        Ok(()) => Ok(()),
        Err((lease, why)) => {
            lease.give_up();
            Err(why)
        }
    }
}

/// Takes so many turns of a process, of which each is a step.
fn steps(desk: &mut Desk, pid: Pid, count: u32) -> Result<bool, Refusal> {
    for _ in 0..count {
        if desk.turn(pid)? != Turn::Stepped {
            return Ok(false);
        }
    }
    Ok(true)
}

/// Process 1 is leased and runs its private instructions; then so many turns of a process are taken, and it is
/// handed in, which is answered so.
fn hands_in(
    desk: &mut Desk,
    between: Pid,
    turns: u32,
    want: Result<(), HandIn>,
) -> Result<(), Wrong> {
    let mut lease = desk.lease(pid(1)?)?;
    lease.run(10);
    let done = lease.count();
    let stepped = steps(desk, between, turns);
    let answer = answered(desk, lease);
    holds(0, done == 2)?;
    holds(1, stepped == Ok(true))?;
    holds(2, answer == want)
}

/// A new desk leases and hands in as in `hands_in`, and its trace has so many events then.
fn leaves(
    alloc: Global,
    between: Pid,
    turns: u32,
    want: Result<(), HandIn>,
    events: usize,
) -> Result<(), Wrong> {
    let mut desk = Desk::new(alloc, kernel_of(alloc, START)?);
    let handed_in = hands_in(&mut desk, between, turns, want);
    let steps = desk.kernel().trace().events().len();
    desk.abandon();
    handed_in.and(holds(3, steps == events))
}

fn all_are_handed_in(alloc: Global) -> Result<(), Wrong> {
    for (between, turns, want, events) in &ROWS {
        leaves(alloc, pid(*between)?, *turns, *want, *events)?;
    }
    Ok(())
}

#[test]
fn lease_and_hand_in(rt: HostRuntime) {
    passes(&rt, all_are_handed_in(rt.alloc()));
}
