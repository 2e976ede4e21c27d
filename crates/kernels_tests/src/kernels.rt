//! The calls of the kernel that a scenario can't make: those with another kernel's token.
ghost use Rattle.std.specs.Prelude.{◌≡◌};

use crate::plays::{Decision, KernelPlay, Player, does, does_all};
use crate::start::{BARE, Start, comes, passes};
use sk_guesses::Guess;
use sk_kernel::{FailRefusal, Kernel, Outcome, Stranger};
use sk_plain::Trace;
use sk_terminal::Texts;
use std::alloc::Global;
use std::process::Abort;
use tests_support::plain::text;
use tests_support::wrong::{Wrong, holds};

/// The two steps before the fetch, or behind it.
const STEPS: KernelPlay = KernelPlay::Steps(1, 2, Ok(()));

/// The guess at the fetch.
const GUESS: KernelPlay = KernelPlay::Guesses(1, 1, 1);

/// Its commit.
const COMMIT: KernelPlay = KernelPlay::Decides(Decision::Commit, Outcome::Done);

/// A kernel of number 1 with one process, which says `a`, fetches and says `b`.
const SAYING: Start<'static> = Start {
    number: 1,
    scripts: &[&[(b"text \"a\"\nsay\nfetch /01\ntext \"b\"\nsay\n", 1)]],
    copies: &[(b"/01", 3, b"old")],
    ..BARE
};

const ONE: &Start<'static> = &SAYING;

/// One of number 2.
const TWO: &Start<'static> = &Start {
    number: 2,
    ..SAYING
};

/// Something that is done with two kernels.
#[derive(Clone, Copy)]
enum PairTurn {
    One(KernelPlay),
    Two(KernelPlay),
    /// The first kernel's token is given to the second kernel's commit and to its failure, each of
    /// which hands it back.
    Lends,
    /// Both have the same events.
    Alike,
}

/// Gives a token to the commit and to the failure of a kernel to which it is strange, and takes it
/// back from both.
fn refused_twice(rt: &impl Abort, kernel: &mut Kernel, token: Guess) -> Guess
    ensures token { result ≡ token }
    ensures kept { kernel.new ≡ kernel.old }
{
    let token = match kernel.commit_speculation(token) {
        Ok(_) => panic!(rt; "committed"),
        Err(Stranger { guess }) => guess,
    };
    match kernel.fail_speculation(token) {
        Ok(_) => panic!(rt; "failed"),
        Err(FailRefusal::Stranger(guess)) => guess,
    }
}

/// Lends the newest of these tokens to a kernel to which it is strange: whether there is one.
fn lends(rt: &impl Abort, tokens: &mut Vec<Guess>, kernel: &mut Kernel) -> bool {
    match tokens.pop() {
        Some(token) => {
            tokens.push_reserved(refused_twice(rt, kernel, token));
            true
        }
        None => false,
    }
}

/// Whether both kernels have the same events.
fn are_alike(one: &Kernel, two: &Kernel) -> bool {
    one.trace().events() == two.trace().events()
}

/// Takes a turn: whether it comes to what is wanted.
fn takes(
    rt: &impl Abort,
    one: &mut Player,
    two: &mut Player,
    turn: PairTurn,
) -> Result<bool, Wrong> {
    match turn {
        PairTurn::One(play) => does(rt, one, play),
        PairTurn::Two(play) => does(rt, two, play),
        PairTurn::Lends => Ok(lends(rt, &mut one.tokens, &mut two.kernel)),
        PairTurn::Alike => Ok(are_alike(&one.kernel, &two.kernel)),
    }
}

/// Takes one turn after the other.
fn takes_all(
    rt: &impl Abort,
    one: &mut Player,
    two: &mut Player,
    turns: &[PairTurn],
) -> Result<(), Wrong> {
    for (place, turn) in turns.iter().enumerate() {
        comes(place, takes(rt, one, two, *turn))?;
    }
    Ok(())
}

/// Takes turns with a player and a new kernel.
fn meets(
    rt: &impl Abort,
    alloc: Global,
    one: &mut Player,
    other: &Start<'_>,
    turns: &[PairTurn],
) -> Result<(), Wrong> {
    let mut two = Player::new(alloc, other)?;
    let done = takes_all(rt, one, &mut two, turns);
    two.abandon(rt);
    done
}

/// Takes turns with two new kernels, the first of which has number 1.
fn meet(
    rt: &impl Abort,
    alloc: Global,
    other: &Start<'_>,
    turns: &[PairTurn],
) -> Result<(), Wrong> {
    let mut one = Player::new(alloc, ONE)?;
    let done = meets(rt, alloc, &mut one, other, turns);
    one.abandon(rt);
    done
}

const LENT: &[PairTurn] = &[
    PairTurn::One(STEPS),
    PairTurn::One(GUESS),
    PairTurn::Two(STEPS),
    PairTurn::Two(GUESS),
    PairTurn::Lends,
    PairTurn::One(COMMIT),
    PairTurn::Two(COMMIT),
    PairTurn::Alike,
];

#[test]
fn tokens_of_two_kernels(rt: HostRuntime) {
    passes(&rt, meet(&rt, rt.alloc(), TWO, LENT));
}

/// A token is lent to a kernel of the same number that has drawn no guess, and again after that has
/// committed its first.
const LENT_TWICE: &[PairTurn] = &[
    PairTurn::One(STEPS),
    PairTurn::One(GUESS),
    PairTurn::Lends,
    PairTurn::Two(STEPS),
    PairTurn::Two(GUESS),
    PairTurn::Two(COMMIT),
    PairTurn::Lends,
    PairTurn::One(COMMIT),
];

#[test]
fn tokens_of_guesses_that_are_not_undecided(rt: HostRuntime) {
    passes(&rt, meet(&rt, rt.alloc(), ONE, LENT_TWICE));
}

/// The trace and the texts of a kernel of which no guess is undecided.
fn shut(rt: &impl Abort, kernel: Kernel) -> (Trace, Texts) {
    if kernel.undecided() > 0 {
        panic!(rt; "a guess is undecided");
    }
    kernel.shut()
}

const COMMITTED: &[KernelPlay] = &[STEPS, GUESS, STEPS, COMMIT];

const PRINTED: &[u8] =
    b"step 1 none\nstep 1 none\nguess 1 1 good\nstep 1 none\nstep 1 none\ncommit 1\n";

/// A trace is printed as that of the commit.
fn prints(alloc: Global, trace: &Trace) -> Result<(), Wrong> {
    let printed = trace.print(alloc)?;
    holds(0, printed.as_slice() == PRINTED)
}

/// Terminal 1 has released both texts, and terminal 2 none.
fn has_released(texts: &Texts) -> Result<(), Wrong> {
    let said = [text(b"a")?, text(b"b")?];
    holds(1, texts.of(1) == said.as_slice())?;
    holds(2, texts.of(2).is_empty())
}

/// A kernel commits its guess, and is shut.
fn shuts(rt: &impl Abort, alloc: Global) -> Result<(), Wrong> {
    let mut one = Player::new(alloc, ONE)?;
    let done = does_all(rt, &mut one, COMMITTED);
    let (trace, texts) = shut(rt, one.end(rt));
    let printed = prints(alloc, &trace);
    let released = has_released(&texts);
    drop(trace);
    drop(texts);
    done.and(printed).and(released)
}

#[test]
fn shut_after_a_commit(rt: HostRuntime) {
    passes(&rt, shuts(&rt, rt.alloc()));
}
