//! A desk that has a request without a reply does not shut.
use crate::start::{BARE, Start, kernel_of, passes};
use sk_client::{Desk, Turn};
use std::alloc::Global;
use tests_support::plain::{guess, pid};
use tests_support::wrong::{Wrong, holds};

/// A process that fetches `/x` once, of which there is a copy.
const FETCHING: &Start<'static> = &Start {
    scripts: &[&[(b"fetch /x\n", 1)]],
    copies: &[(b"/x", 3, b"old")],
    ..BARE
};

/// A desk with a pending request comes back.
fn stays(desk: Desk) -> Result<Desk, Wrong> {
    match desk.shut() {
        Ok((_trace, _texts)) => Err(Wrong::At(1)),
        Err((back, pending)) => {
            if pending.0 == 1 {
                Ok(back)
            } else {
                back.abandon();
                Err(Wrong::At(2))
            }
        }
    }
}

/// A desk guesses, and stays with its request.
fn guesses_and_stays(alloc: Global) -> Result<(), Wrong> {
    let (first, wanted) = (pid(1)?, Turn::Guessed(guess(1)?));
    let mut desk = Desk::new(alloc, kernel_of(alloc, FETCHING)?);
    let turned = desk.turn(first);
    let desk = stays(desk)?;
    desk.abandon();
    holds(0, turned == Ok(wanted))
}

#[test]
fn shut_with_pending(rt: HostRuntime) {
    passes(&rt, guesses_and_stays(rt.alloc()));
}
