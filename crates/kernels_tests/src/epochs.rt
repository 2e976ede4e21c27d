//! Epochs: what is handed out, and what is known of the guesses of earlier ones.
use crate::plays::{Count, Decision, KernelPlay, Player, does_all, plays};
use crate::start::{BARE, Start, kernel_of, passes};
use sk_guesses::Status;
use sk_kernel::{EpochRefusal, Kernel, Outcome};
use sk_plain::{Refusal, strike_from};
use std::alloc::Global;
use std::process::Abort;
use tests_support::wrong::{Wrong, holds};

/// A kernel of number 1 with a copy to guess at.
const ALONE: Start<'static> = Start {
    number: 1,
    copies: &[(b"/01", 3, b"old")],
    ..BARE
};

/// The trace leaves so many entries where it begins at the opening's state.
fn leaves(alloc: Global, kernel: &Kernel, want: usize) -> Result<(), Wrong> {
    let entries = strike_from(alloc, kernel.opening().start(), kernel.trace())?;
    holds(0, entries.len() == want)
}

/// Plays with a new kernel, whose trace leaves one entry in the end.
fn plays_to_one(
    rt: &impl Abort,
    alloc: Global,
    start: &Start<'_>,
    table: &[KernelPlay],
) -> Result<(), Wrong> {
    let mut player = Player::new(alloc, start)?;
    let done = does_all(rt, &mut player, table);
    let kernel = player.end(rt);
    let left = leaves(alloc, &kernel, 1);
    drop(kernel);
    done.and(left)
}

const COMMITS: KernelPlay = KernelPlay::Decides(Decision::Commit, Outcome::Done);

const FAILS: KernelPlay = KernelPlay::Decides(Decision::Fail, Outcome::Done);

const GONE: KernelPlay = KernelPlay::Decides(Decision::Commit, Outcome::Gone);

const FULL: &Start<'static> = &Start {
    scripts: &[&[(b"fetch /01\n", 2)]],
    limit: 3,
    ..ALONE
};

/// A full trace is handed out, and there is room again.
const HANDED_OUT: &[KernelPlay] = &[
    KernelPlay::Guesses(1, 1, 1),
    KernelPlay::Good(1),
    KernelPlay::Steps(1, 1, Err(Refusal::TraceFull)),
    KernelPlay::Epoch(Err(EpochRefusal::Undecided(1))),
    COMMITS,
    KernelPlay::Has(Count::Room, 0),
    KernelPlay::Epoch(Ok((3, 0))),
    KernelPlay::Has(Count::Events, 0),
    KernelPlay::Has(Count::Room, 3),
    KernelPlay::Became(1, Some(Status::Committed)),
    KernelPlay::Steps(1, 1, Ok(())),
    KernelPlay::Has(Count::Events, 1),
    KernelPlay::Has(Count::Place(1), 2),
    KernelPlay::Steps(1, 1, Err(Refusal::Ended)),
];

#[test]
fn epoch_hands_out(rt: HostRuntime) {
    passes(&rt, plays_to_one(&rt, rt.alloc(), FULL, HANDED_OUT));
}

const TWO_FETCHES: &Start<'static> = &Start {
    scripts: &[&[(b"fetch /01\n", 2), (b"say\n", 1)]],
    ..ALONE
};

/// A guess that was struck in an earlier epoch has nothing to decide.
const OLD_TOKENS: &[KernelPlay] = &[
    KernelPlay::Guesses(1, 1, 2),
    KernelPlay::Steps(1, 1, Ok(())),
    FAILS,
    KernelPlay::Epoch(Ok((4, 0))),
    GONE,
    KernelPlay::Has(Count::Events, 0),
    KernelPlay::Became(1, Some(Status::Failed)),
    KernelPlay::Became(2, Some(Status::Struck)),
    KernelPlay::Became(3, None),
    KernelPlay::Guesses(1, 3, 3),
    KernelPlay::Became(3, Some(Status::Undecided)),
];

#[test]
fn epoch_and_old_tokens(rt: HostRuntime) {
    passes(&rt, plays_to_one(&rt, rt.alloc(), TWO_FETCHES, OLD_TOKENS));
}

const THREE_TEXTS: &Start<'static> = &Start {
    scripts: &[&[(b"say\n", 3)]],
    limit: 2,
    ..ALONE
};

/// Texts go with the epoch in which they were said.
const TEXTS: &[KernelPlay] = &[
    KernelPlay::Steps(1, 2, Ok(())),
    KernelPlay::Has(Count::Released(1), 2),
    KernelPlay::Epoch(Ok((2, 2))),
    KernelPlay::Epoch(Ok((0, 0))),
    KernelPlay::Has(Count::Place(1), 2),
    KernelPlay::Steps(1, 1, Ok(())),
    KernelPlay::Has(Count::Released(1), 1),
    KernelPlay::Epoch(Ok((1, 1))),
];

#[test]
fn texts_of_two_epochs(rt: HostRuntime) {
    passes(&rt, plays(&rt, rt.alloc(), THREE_TEXTS, TEXTS));
}

/// Begins an epoch whose opening is that of before.
fn begins_as_before(kernel: &mut Kernel) -> Result<(), Wrong> {
    let before = kernel.opening().copy()?;
    let begun = kernel.new_epoch().is_ok();
    let is_same = *kernel.opening() == before;
    drop(before);
    holds(0, begun && is_same && kernel.trace().events().is_empty())
}

const ONE_TEXT: &Start<'static> = &Start {
    scripts: &[&[(b"say\n", 1)]],
    limit: 10,
    ..ALONE
};

fn begins_after_the_boot(alloc: Global) -> Result<(), Wrong> {
    let mut kernel = kernel_of(alloc, ONE_TEXT)?;
    let begun = begins_as_before(&mut kernel);
    drop(kernel);
    begun
}

/// An epoch directly after the boot changes nothing.
#[test]
fn epoch_after_the_boot(rt: HostRuntime) {
    passes(&rt, begins_after_the_boot(rt.alloc()));
}

/// A guess, its decision and a new epoch.
fn one_epoch(rt: &impl Abort, player: &mut Player, number: u64) -> Result<(), Wrong> {
    let decides = if number % 3 == 0 { FAILS } else { COMMITS };
    let guess = KernelPlay::Guesses(1, number, number);
    does_all(rt, player, &[guess, decides, KernelPlay::Epoch(Ok((2, 0)))])
}

/// What became of the guess of an epoch.
fn told(rt: &impl Abort, player: &mut Player, number: u64) -> Result<(), Wrong> {
    let status = if number % 3 == 0 {
        Status::Failed
    } else {
        Status::Committed
    };
    does_all(rt, player, &[KernelPlay::Became(number, Some(status))])
}

fn epochs(rt: &impl Abort, player: &mut Player, count: u64) -> Result<(), Wrong> {
    for number in 1..=count {
        one_epoch(rt, player, number)?;
    }
    for number in 1..=count {
        told(rt, player, number)?;
    }
    Ok(())
}

const MANY_FETCHES: &Start<'static> = &Start {
    scripts: &[&[(b"fetch /01\n", 201)]],
    limit: 2,
    ..ALONE
};

fn plays_epochs(rt: &impl Abort, alloc: Global, count: u64) -> Result<(), Wrong> {
    let mut player = Player::new(alloc, MANY_FETCHES)?;
    let done = epochs(rt, &mut player, count);
    player.abandon(rt);
    done
}

#[test]
fn three_hundred_epochs(rt: HostRuntime) {
    passes(&rt, plays_epochs(&rt, rt.alloc(), 300));
}
