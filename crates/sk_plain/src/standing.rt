//! The record of a trace and its undecided guesses, read event by event: a failure runs no more than what stands
//! behind the oldest guess that was undecided before it.
ghost use Rattle.std.specs.Prelude.{◌≡◌, ◌≤◌, ◌∷◌, ◌++◌, [], List, length, take, drop, OnOk, IfOk, IfErr};
ghost use Rattle.sk_plain.specs.Base.{prefix_len, run, has, marks, EntryView};
ghost use Rattle.sk_record.specs.Strike.{strike};
ghost use Rattle.sk_trace.specs.declared.event.Event.TheVariants as events;
ghost use Rattle.sk_plain.specs.Act.{Scripts, plain};
ghost use Rattle.sk_plain.specs.Standing.{is_made, is_settled, seen, GoesOn, Settles};

use crate::record::{is_guess, strike_guess};
use crate::{Entry, Event, InputRef, Refusal, apply_plan, plan_step};
use sk_ids::GuessId;
use sk_script::Scripts;
use sk_store::Store;
use std::alloc::{AllocError, Global};

/// The entries that count so far: the settled ones, which no undecided guess is among, with what entities have after
/// them, and those behind; and the guesses that are undecided.
#[derive(Drop)]
pub struct Standing {
    pub settled: Vec<Entry>,
    pub after: Store,
    pub behind: Vec<Entry>,
    pub undecided: Vec<GuessId>,
}

/// Whether one of these entries made the guess.
fn is_made(entries: &[Entry], guess: GuessId) -> bool
    ensures { result ≡ is_made entries.now guess }
{
    entries.iter().any(|entry| is_guess(entry, guess))
}

/// Whether a guess is one of these.
pub(crate) fn is_among(guesses: &[GuessId], guess: GuessId) -> bool
    ensures { result ≡ has guess guesses.now }
{
    guesses.iter().any(|id| *id == guess)
}

/// Whether an entry made none of these guesses.
fn is_settled(undecided: &[GuessId], entry: &Entry) -> bool
    ensures { result ≡ is_settled undecided.now entry.now }
{
    match entry.guess {
        Some(guess) => !is_among(undecided, guess),
        None => true,
    }
}

/// How many entries stand before the first that made one of these guesses.
fn settled_in(entries: &[Entry], undecided: &[GuessId]) -> usize
    ensures count { result ≡ prefix_len (is_settled undecided.now) entries.now }
    ensures bound { result ≤ length entries.now }
{
    entries
        .iter()
        .take_while(|entry| is_settled(undecided, *entry))
        .count()
}

/// Takes the step of an entry.
fn take_step(store: &mut Store, scripts: &Scripts, entry: &Entry) -> Result<(), Refusal>
    ensures { OnOk result ((rest : List EntryView) → run (plain scripts.now) store.new rest ≡ run
        (plain scripts.now) store.old (entry.now ∷ rest)) }
{
    let input = InputRef::of(&entry.input);
    let plan = match plan_step(store, scripts, entry.pid, input) {
        Ok(plan) => plan,
        Err(why) => return Err(why),
    };
    apply_plan(store, scripts, entry.pid, input, &plan)?;
    Ok(())
}

/// Takes the steps of a record.
fn run_on(store: &mut Store, scripts: &Scripts, entries: &[Entry]) -> Result<(), Refusal>
    ensures { OnOk result (store.new ≡ run (plain scripts.now) store.old entries.now) }
{
    for entry in entries {
        take_step(store, scripts, entry)?;
    }
    Ok(())
}

/// Moves the first entries over to the settled ones.
fn move_over(
    settled: &mut Vec<Entry>,
    behind: &mut Vec<Entry>,
    count: usize,
) -> Result<(), AllocError>
    requires { count ≤ length behind.old.items }
    ensures settled { OnOk result
        (settled.new.items ≡ settled.old.items ++ take count behind.old.items) }
    ensures behind { OnOk result (behind.new.items ≡ drop count behind.old.items) }
{
    settled.extend_from_slice(&behind[..count])?;
    behind.drain(..count);
    Ok(())
}

/// Settles the entries that stand before the first undecided guess.
fn settle(scripts: &Scripts, standing: &mut Standing) -> Result<(), AllocError>
    ensures { OnOk result (Settles scripts.now standing.old standing.new) }
{
    let count = settled_in(&standing.behind, &standing.undecided);
    // The steps were taken before: only memory can be wanting.
    if run_on(&mut standing.after, scripts, &standing.behind[..count]).is_err() {
        return Err(AllocError);
    }
    move_over(&mut standing.settled, &mut standing.behind, count)
}

/// Takes an entry in.
pub(crate) fn add(standing: &mut Standing, entry: Entry) -> Result<(), AllocError>
    ensures behind { OnOk result
        (standing.new.behind.items ≡ standing.old.behind.items ++ entry ∷ []) }
    ensures undecided { OnOk result
        (standing.new.undecided.items ≡ standing.old.undecided.items ++ marks entry.guess) }
    ensures settled { standing.new.settled.items ≡ standing.old.settled.items }
    ensures after { standing.new.after ≡ standing.old.after }
{
    standing.behind.push(entry)?;
    if let Some(guess) = entry.guess {
        standing.undecided.push(guess)?;
    }
    Ok(())
}

/// What a failure leaves of the entries that are not settled.
fn left_behind(
    alloc: Global,
    scripts: &Scripts,
    standing: &Standing,
    guess: GuessId,
) -> Result<Vec<Entry>, AllocError>
    ensures { IfOk result (λ left. left.items ≡ strike
        (plain scripts.now) standing.now.after standing.now.behind.items guess) }
{
    let mut store = standing.after.copy()?;
    // The steps were taken before: only memory can be wanting.
    match strike_guess(alloc, &mut store, scripts, &standing.behind, guess) {
        Ok(left) => Ok(left),
        Err(_) => Err(AllocError),
    }
}

/// Strikes out what depends on a guess. None of that is settled.
fn strike_out(
    alloc: Global,
    scripts: &Scripts,
    standing: &mut Standing,
    guess: GuessId,
) -> Result<(), AllocError>
    ensures { OnOk result (GoesOn scripts.now (events.Fail guess) standing.old standing.new) }
{
    let left = left_behind(alloc, scripts, standing, guess)?;
    standing.undecided.retain(|id| is_made(&left, *id));
    standing.behind = left;
    Ok(())
}

/// Takes a failure. What no failure can strike is settled first, so that it is run once.
pub(crate) fn fail(
    alloc: Global,
    scripts: &Scripts,
    standing: &mut Standing,
    guess: GuessId,
) -> Result<(), AllocError>
    ensures { OnOk result (GoesOn scripts.now (events.Fail guess) standing.old standing.new) }
{
    settle(scripts, standing)?;
    strike_out(alloc, scripts, standing, guess)
}

/// Takes a commit.
pub(crate) fn commit(standing: &mut Standing, guess: GuessId)
    ensures { (scripts : Scripts) → GoesOn scripts (events.Commit guess) standing.old standing.new }
{
    standing.undecided.retain(|id| *id != guess);
}

impl Standing {
    /// Where nothing has happened yet.
    pub fn new(alloc: Global, start: Store) -> Standing
        ensures start { result.after ≡ start }
        ensures settled { result.settled.items ≡ [] }
        ensures behind { result.behind.items ≡ [] }
        ensures undecided { result.undecided.items ≡ [] }
    {
        let (settled, behind, undecided) = (Vec::new(alloc), Vec::new(alloc), Vec::new(alloc));
        Standing {
            settled,
            after: start,
            behind,
            undecided,
        }
    }

    /// Goes on with an event. Refused only for want of memory.
    pub fn go_on(
        &mut self,
        alloc: Global,
        scripts: &Scripts,
        event: &Event,
    ) -> Result<(), AllocError>
        ensures { OnOk result (GoesOn scripts.now event.now self.old self.new) }
    {
        match event {
            Event::Step { pid, input } => {
                let (pid, input, guess) = (*pid, input.input(), None);
                add(self, Entry { pid, input, guess })
            }
            Event::Guess { id, pid, input } => {
                let (pid, input, guess) = (*pid, input.input(), Some(*id));
                add(self, Entry { pid, input, guess })
            }
            Event::Commit(id) => {
                commit(self, *id);
                Ok(())
            }
            Event::Fail(id) => fail(alloc, scripts, self, *id),
        }
    }

    /// What entities have after all entries.
    pub(crate) fn now(&self, scripts: &Scripts) -> Result<Store, AllocError>
        ensures { IfOk result
            (λ now. now ≡ run (plain scripts.now) self.now.after self.now.behind.items) }
    {
        let mut now = self.after.copy()?;
        // The steps were taken before: only memory can be wanting.
        match run_on(&mut now, scripts, &self.behind) {
            Ok(()) => Ok(now),
            Err(_) => Err(AllocError),
        }
    }

    /// The entries. Memory is wanted only where some are settled.
    pub(crate) fn into_entries(self) -> Result<Vec<Entry>, AllocError>
        ensures entries { IfOk result (λ entries. entries.items ≡ (seen self).entries) }
        ensures memory { IfErr result (λ _. ¬ (self.settled.items ≡ [])) }
    {
        let Standing {
            mut settled,
            behind,
            ..
        } = self;
        if settled.is_empty() {
            return Ok(behind);
        }
        settled.extend_from_slice(&behind)?;
        Ok(settled)
    }
}
