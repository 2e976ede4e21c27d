//! Random runs over few keys.
ghost use Rattle.std.specs.Prelude.{◌<◌};

use crate::job::{ACTORS, CHANNELS, Job};
use crate::kernel::Numbers;
use crate::session::Session;
use crate::wrong::Wrong;
use rand_core::Rng;
use rand_pcg::Pcg32;
use std::alloc::Global;
use std::num::NonZeroU16;
use std::process::Abort;

/// How many runs there are, and how many calls each has.
const RUNS: u64 = 10_000;

const CALLS: u32 = 24;

/// How many guesses may be undecided at once.
const LIMIT: u16 = 4;

/// How many runs are made with growths refused.
const REFUSED_RUNS: u64 = 10;

/// A number below a limit.
fn below(rng: &mut Pcg32, limit: u32) -> u32
    requires { 0 < limit }
    ensures { result < limit }
{
    rng.next_u32() % limit
}

/// A key that is no actor's, or none.
fn any_key(rng: &mut Pcg32, others: u32) -> Option<u32> {
    let key = below(rng, ACTORS.saturating_add(others).max(1));
    if key < ACTORS { Some(key) } else { None }
}

/// Whether one thing is done rather than another.
fn any(rng: &mut Pcg32) -> bool {
    below(rng, 2) == 0
}

/// A step of one of two actors, or of nobody.
fn any_job(rng: &mut Pcg32) -> Job {
    let actor = below(rng, 4);
    let says = below(rng, 6) as u16;
    Job {
        actor: if actor < 2 {
            Some(ACTORS + actor)
        } else {
            None
        },
        looks: any_key(rng, 4),
        writes: any_key(rng, 2),
        also: any_key(rng, 10),
        adds: [any(rng), any(rng)],
        says: if says < CHANNELS { Some(says) } else { None },
        number: u64::from(rng.next_u32()),
    }
}

/// One call, judged.
fn call(rt: &impl Abort, rng: &mut Pcg32, session: &mut Session) -> Result<(), Wrong> {
    match below(rng, 8) {
        0..=2 => session.take(&any_job(rng))?,
        3 | 4 => session.guess(&any_job(rng))?,
        5 => session.decide(rt, below(rng, 4) as usize, false)?,
        6 => session.decide(rt, below(rng, 4) as usize, true)?,
        _ => session.release(below(rng, CHANNELS as u32) as u16)?,
    }
    session.judge()
}

/// The calls of a run.
fn plays(rt: &impl Abort, number: u64, session: &mut Session) -> Result<(), Wrong> {
    let mut rng = Pcg32::new(number, 11);
    for _ in 0..CALLS {
        call(rt, &mut rng, session)?;
    }
    Ok(())
}

/// How many guesses may be undecided at once.
fn limit() -> NonZeroU16 {
    match NonZeroU16::new(LIMIT) {
        Some(limit) => limit,
        None => unreachable!(),
    }
}

/// A run of a kernel to its end, where a growth may be refused or not.
fn run(rt: &impl Abort, alloc: Global, number: u64, may_lack: bool) -> Result<(), (u64, Wrong)> {
    let mut session = Session::new(alloc, Numbers::new(alloc, 7, limit()), may_lack);
    let played = plays(rt, number, &mut session);
    match played.and(session.end(rt)) {
        Ok(()) => Ok(()),
        Err(wrong) => Err((number, wrong)),
    }
}

#[test]
fn as_a_plain_run(rt: HostRuntime) -> Result<(), (u64, Wrong)> {
    for number in 0..RUNS {
        run(&rt, rt.alloc(), number, false)?;
    }
    Ok(())
}

/// Growths may be refused to it: what wants memory is then as it was before, and is done once more.
#[test]
fn once_more(rt: HostRuntime) -> Result<(), (u64, Wrong)> {
    for number in RUNS..RUNS + REFUSED_RUNS {
        run(&rt, rt.alloc(), number, true)?;
    }
    Ok(())
}
