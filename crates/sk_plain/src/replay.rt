//! A whole trace, replayed by the plain kernel.
ghost use Rattle.std.specs.Prelude.{◌≡◌, [], List, map, OnOk, IfOk, IfErr};
ghost use Rattle.sk_record.specs.Trace.{Event as Happens};
ghost use Rattle.sk_plain.specs.Base.{IsSound, record_of, run, EntryView, State};
ghost use Rattle.sk_store.specs.Start.{start_of};
ghost use Rattle.sk_plain.specs.Act.{Scripts, plain};
ghost use Rattle.sk_plain.specs.Standing.{image};
ghost use Rattle.sk_plain.specs.Replay.{is_above, IsReplay, HasTaken, StepFault, HasDecided, DecisionFault, Goes, FaultIn, Replays};

use crate::standing::{add, commit as commit_in, fail as fail_in, is_among};
use crate::{Entry, Event, InputRef, Plain, Standing, Trace, apply_plan, plan_step};
use sk_ids::GuessId;
use sk_script::{Boot, Scripts};
use sk_store::Store;
use std::alloc::{AllocError, AllocFailed, Global};
use thiserror::Error;

/// Why a trace is not sound, told of its first faulty event, which is counted from 1.
#[derive(Clone, Copy, Debug, PartialEq, Eq, Error)]
pub enum TraceFault {
    /// The plain kernel refuses the step.
    #[error("step {0} is refused")]
    Refused(usize),
    /// A decision of a guess that is not undecided there, or a new guess whose number is not above
    /// all before.
    #[error("event {0} names a guess that cannot stand there")]
    UnknownGuess(usize),
    /// No memory for the start, before the first event.
    #[error("out of memory before the first event")]
    NoStart,
    /// No memory at an event that has no fault itself, nor one before it.
    #[error("out of memory")]
    Memory,
}

impl From<AllocError> for TraceFault {
    ghost use Rattle.sk_plain.specs.declared.replay.TraceFault.TheVariants.{Memory};

    ghost from_gives = { λ _ fault. fault ≡ Memory };

    fn from(_error: AllocError) -> TraceFault {
        TraceFault::Memory
    }
}

/// Why an event is not taken.
#[derive(Clone, Copy)]
enum EventFault {
    Refused,
    Unknown,
    Memory,
}

impl From<AllocError> for EventFault {
    ghost use Rattle.sk_plain.specs.declared.replay.EventFault.TheVariants.{Memory};

    ghost from_gives = { λ _ fault. fault ≡ Memory };

    fn from(_error: AllocError) -> EventFault {
        EventFault::Memory
    }
}

impl<T: Drop> From<AllocFailed<T>> for EventFault {
    ghost use Rattle.sk_plain.specs.declared.replay.EventFault.TheVariants.{Memory};

    ghost from_gives = { λ _ fault. fault ≡ Memory };

    fn from(_error: AllocFailed<T>) -> EventFault {
        EventFault::Memory
    }
}

/// The record so far with its undecided guesses, what entities have after it, and the greatest number of a guess.
#[derive(Drop)]
struct Replay {
    standing: Standing,
    now: Store,
    greatest: Option<GuessId>,
}

/// Whether the number of a new guess is above the greatest before.
fn is_above(greatest: Option<GuessId>, guess: Option<GuessId>) -> bool
    ensures { result ≡ is_above greatest guess }
{
    match (greatest, guess) {
        (Some(before), Some(new)) => before < new,
        _ => true,
    }
}

/// Takes the step of an entry.
fn take_entry(replay: &mut Replay, scripts: &Scripts, entry: &Entry) -> Result<(), EventFault>
    ensures ok { OnOk result (HasTaken scripts.now replay.old entry.now replay.new) }
    ensures err { IfErr result (StepFault scripts.now replay.old entry.now) }
{
    let input = InputRef::of(&entry.input);
    let Ok(plan) = plan_step(&replay.now, scripts, entry.pid, input) else {
        return Err(EventFault::Refused);
    };
    if !is_above(replay.greatest, entry.guess) {
        return Err(EventFault::Unknown);
    }
    apply_plan(&mut replay.now, scripts, entry.pid, input, &plan)?;
    add(&mut replay.standing, *entry)?;
    if let Some(guess) = entry.guess {
        replay.greatest = Some(guess);
    }
    Ok(())
}

/// Commits a guess.
fn commit(replay: &mut Replay, guess: GuessId) -> Result<(), EventFault>
    ensures ok { (scripts : Scripts) → OnOk result (HasDecided scripts replay.old guess
        (Event.Commit guess) replay.old.now replay.new) }
    ensures err { IfErr result (DecisionFault replay.old guess) }
{
    if !is_among(&replay.standing.undecided, guess) {
        return Err(EventFault::Unknown);
    }
    commit_in(&mut replay.standing, guess);
    Ok(())
}

/// Fails a guess: the record loses what depends on it.
fn fail(
    alloc: Global,
    replay: &mut Replay,
    scripts: &Scripts,
    guess: GuessId,
) -> Result<(), EventFault>
    ensures ok { OnOk result (HasDecided scripts.now replay.old guess (Event.Fail guess)
        (run (plain scripts.now) replay.new.standing.after replay.new.standing.behind.items)
        replay.new) }
    ensures err { IfErr result (DecisionFault replay.old guess) }
{
    if !is_among(&replay.standing.undecided, guess) {
        return Err(EventFault::Unknown);
    }
    fail_in(alloc, scripts, &mut replay.standing, guess)?;
    replay.now = replay.standing.now(scripts)?;
    Ok(())
}

/// Goes on with an event.
fn take_event(
    alloc: Global,
    replay: &mut Replay,
    scripts: &Scripts,
    event: &Event,
) -> Result<(), EventFault>
    ensures { (start : State) (es : List (Happens EntryView))
        → IsReplay scripts.now start es replay.old
        → Goes scripts.now start es (image event.now) replay.new result }
{
    match event {
        Event::Step { pid, input } => {
            let (pid, input, guess) = (*pid, input.input(), None);
            take_entry(replay, scripts, &Entry { pid, input, guess })
        }
        Event::Guess { id, pid, input } => {
            let (pid, input, guess) = (*pid, input.input(), Some(*id));
            take_entry(replay, scripts, &Entry { pid, input, guess })
        }
        Event::Commit(id) => commit(replay, *id),
        Event::Fail(id) => fail(alloc, replay, scripts, *id),
    }
}

/// Goes on with all these events, or tells the first fault.
fn take_events(
    alloc: Global,
    replay: &mut Replay,
    scripts: &Scripts,
    events: &[Event],
) -> Result<(), TraceFault>
    ensures { (start : State) → IsReplay scripts.now start [] replay.old
        → Replays scripts.now start (map image events.now) replay.new result }
{
    let mut at = 0;
    for event in events {
        at += 1;
        match take_event(alloc, replay, scripts, event) {
            Ok(()) => {}
            Err(EventFault::Refused) => return Err(TraceFault::Refused(at)),
            Err(EventFault::Unknown) => return Err(TraceFault::UnknownGuess(at)),
            Err(EventFault::Memory) => return Err(TraceFault::Memory),
        }
    }
    Ok(())
}

/// The entries that a trace leaves from a start.
fn strike_at(
    alloc: Global,
    start: Store,
    scripts: &Scripts,
    trace: &Trace,
) -> Result<Vec<Entry>, TraceFault>
    ensures sound { OnOk result (IsSound (plain scripts.now) start (map image trace.now.events)) }
    ensures left { IfOk result
        (λ entries. entries.items
        ≡ record_of (plain scripts.now) start (map image trace.now.events)) }
    ensures fault { IfErr result (FaultIn scripts.now start (map image trace.now.events)) }
{
    let Ok(now) = start.copy() else {
        return Err(TraceFault::NoStart);
    };
    let mut replay = Replay {
        standing: Standing::new(alloc, start),
        now,
        greatest: None,
    };
    take_events(alloc, &mut replay, scripts, trace.events())?;
    match replay.standing.into_entries() {
        Ok(entries) => Ok(entries),
        Err(_) => Err(TraceFault::Memory),
    }
}

/// The entries that a trace leaves: its steps and guesses, without those that depend on a guess that
/// failed. Of a trace that is not sound, the first fault.
pub fn strike(alloc: Global, boot: &Boot, trace: &Trace) -> Result<Vec<Entry>, TraceFault>
    ensures sound { OnOk result
        (IsSound (plain boot.now.scripts) (start_of boot.now) (map image trace.now.events)) }
    ensures left { IfOk result
        (λ entries. entries.items
        ≡ record_of (plain boot.now.scripts) (start_of boot.now) (map image trace.now.events)) }
    ensures fault { IfErr result
        (FaultIn boot.now.scripts (start_of boot.now) (map image trace.now.events)) }
{
    let Ok(start) = Store::start(alloc, boot) else {
        return Err(TraceFault::NoStart);
    };
    strike_at(alloc, start, boot.scripts(), trace)
}

/// As `strike`, where the trace begins at the state of a plain kernel, with its scripts.
pub fn strike_from(alloc: Global, from: &Plain, trace: &Trace) -> Result<Vec<Entry>, TraceFault>
    ensures sound { OnOk result
        (IsSound (plain from.now.scripts) from.now.state (map image trace.now.events)) }
    ensures left { IfOk result
        (λ entries. entries.items
        ≡ record_of (plain from.now.scripts) from.now.state (map image trace.now.events)) }
    ensures fault { IfErr result
        (FaultIn from.now.scripts from.now.state (map image trace.now.events)) }
{
    let Ok(start) = from.state().copy() else {
        return Err(TraceFault::NoStart);
    };
    strike_at(alloc, start, from.scripts(), trace)
}
