//! The record without what depends on a guess, read from left to right.
ghost use Rattle.std.specs.Prelude.{◌≡◌, ◌∷◌, ◌++◌, [], List, IsSome, IsOk, OnOk, IfOk, IfErr, if◌then◌else◌};
ghost use Rattle.sk_plain.specs.Base.{list_any, is_in, is_marked, IsLegal, outcome, run, put_all, entity_cmp};
ghost use Rattle.sk_plain.specs.Base.{EntryView, Memory};
ghost use Rattle.std.specs.FinMap as map;
ghost use Rattle.sk_record.specs.Strike.{strike};
ghost use Rattle.sk_plain.specs.Act.{plain};
ghost use Rattle.sk_plain.specs.Planned.{writes_of};
ghost use Rattle.sk_plain.specs.Seen.{CanPerform, seen_with, written_in};
ghost use Rattle.sk_plain.specs.Remaining.{AreAlike, depends, remaining, refusal_in, EndsBy, BeginsWell};

use crate::{Entry, InputRef, Plan, Refusal, apply_plan, plan_step};
use sk_ids::{Entity, GuessId, Pid};
use sk_script::Scripts;
use sk_store::Store;
use std::alloc::{AllocError, Global};
use std::cmp::Ordering;

/// Whether an entity is dirty.
fn is_dirty(dirty: &[Entity], entity: Entity) -> bool
    ensures { result ≡ is_in entity_cmp dirty.now entity }
{
    dirty
        .iter()
        .any(|other| entity.cmp(other) == Ordering::Equal)
}

/// Whether some entity is dirty.
fn touches(dirty: &[Entity], entities: &[Entity]) -> bool
    ensures { result ≡ list_any (is_in entity_cmp dirty.now) entities.now }
{
    entities.iter().any(|entity| is_dirty(dirty, *entity))
}

/// Adds an entity to what is dirty, where it is not there.
fn mark_one(dirty: &mut Vec<Entity>, entity: &Entity) -> Result<(), AllocError>
    ensures { OnOk result (AreAlike dirty.new.items (entity.now ∷ dirty.old.items)) }
{
    if is_dirty(dirty, *entity) {
        return Ok(());
    }
    dirty.push(*entity)?;
    Ok(())
}

/// Adds entities to what is dirty, each of which may be there.
fn mark(dirty: &mut Vec<Entity>, entities: &[Entity]) -> Result<(), AllocError>
    ensures { OnOk result (AreAlike dirty.new.items (entities.now ++ dirty.old.items)) }
{
    let Some((entity, more)) = entities.split_first() else {
        return Ok(());
    };
    mark(dirty, more)?;
    mark_one(dirty, entity)
}

/// Whether an entry made this guess.
pub(crate) fn is_guess(entry: &Entry, guess: GuessId) -> bool
    ensures { result ≡ is_marked entry.now.guess guess }
{
    match entry.guess {
        Some(number) => number == guess,
        None => false,
    }
}

/// Whether a planned step depends on the guess.
fn depends(dirty: &[Entity], guess: GuessId, entry: &Entry, plan: &Plan) -> bool
    ensures { result ≡ depends guess dirty.now entry.now plan.now }
{
    if is_guess(entry, guess) {
        return true;
    }
    let read = plan.reads(entry.pid, InputRef::of(&entry.input));
    let written = plan.writes(entry.pid);
    touches(dirty, read.as_slice()) || touches(dirty, written.as_slice())
}

/// Takes a planned step, and keeps its entry or adds what it writes to what is dirty, in any order.
fn take(
    store: &mut Store,
    scripts: &Scripts,
    dirty: &mut Vec<Entity>,
    kept: &mut Vec<Entry>,
    guess: GuessId,
    entry: &Entry,
    plan: &Plan,
) -> Result<(), Refusal>
    requires { CanPerform (map.get store.old) scripts.now entry.now.pid entry.now.input plan.now }
    ensures store { OnOk result (store.new ≡ put_all (writes_of (map.get store.old) entry.now.pid
        (seen_with
        (map.get store.old) scripts.now entry.now.pid entry.now.input plan.now)) store.old) }
    ensures dirty { OnOk result (AreAlike dirty.new.items
        (if depends guess dirty.old.items entry.now plan.now
        then written_in entry.now.pid plan.now ++ dirty.old.items else dirty.old.items)) }
    ensures memory { IfErr result (λ why. why ≡ Memory) }
    ensures kept { OnOk result (kept.new.items ≡
        (if depends guess dirty.old.items entry.now plan.now then kept.old.items else kept.old.items
        ++ entry.now ∷ [])) }
{
    apply_plan(store, scripts, entry.pid, InputRef::of(&entry.input), plan)?;
    if depends(dirty, guess, entry, plan) {
        let written = plan.writes(entry.pid);
        mark(dirty, written.as_slice())?;
    } else {
        kept.push(*entry)?;
    }
    Ok(())
}

/// One entry of the record. What is left then gives what this entry and the rest gave before it.
fn one_entry(
    store: &mut Store,
    scripts: &Scripts,
    guess: GuessId,
    dirty: &mut Vec<Entity>,
    kept: &mut Vec<Entry>,
    entry: &Entry,
) -> Result<(), Refusal>
    ensures kept { OnOk result ((rest : List EntryView) → kept.new.items
        ++ remaining scripts.now guess dirty.new.items store.new rest ≡ kept.old.items
        ++ remaining scripts.now guess dirty.old.items store.old (entry.now ∷ rest)) }
    ensures legal { OnOk result
        ((rest : List EntryView) → IsLegal (plain scripts.now) store.new rest
        → IsLegal (plain scripts.now) store.old (entry.now ∷ rest)) }
    ensures run { OnOk result ((rest : List EntryView) → run (plain scripts.now) store.new rest
        ≡ run (plain scripts.now) store.old (entry.now ∷ rest)) }
    ensures passed { OnOk result ((rest : List EntryView) → refusal_in scripts.now store.new rest
        ≡ refusal_in scripts.now store.old (entry.now ∷ rest)) }
    ensures refused { IfErr result (λ why. (rest : List EntryView) → EndsBy
        (refusal_in scripts.now store.old (entry.now ∷ rest)) why) }
    ensures memory { IfErr result
        (λ why. why ≡ Memory → IsOk (outcome (plain scripts.now) store.old entry.now)) }
{
    let input = InputRef::of(&entry.input);
    let plan = match plan_step(store, scripts, entry.pid, input) {
        Ok(plan) => plan,
        Err(why) => return Err(why),
    };
    take(store, scripts, dirty, kept, guess, entry, &plan)
}

/// Takes a record's steps in a store, and answers the record without what depends on a guess. The
/// first refusal of a step is told, or want of memory; the steps before are taken then.
pub fn strike_guess(
    alloc: Global,
    store: &mut Store,
    scripts: &Scripts,
    entries: &[Entry],
    guess: GuessId,
) -> Result<Vec<Entry>, Refusal>
    ensures kept { IfOk result
        (λ kept. kept.items ≡ strike (plain scripts.now) store.old entries.now guess) }
    ensures legal { OnOk result (IsLegal (plain scripts.now) store.old entries.now) }
    ensures run { OnOk result (store.new ≡ run (plain scripts.now) store.old entries.now) }
    ensures refused { IfErr result
        (λ why. EndsBy (refusal_in scripts.now store.old entries.now) why) }
    ensures memory { IfErr result
        (λ why. why ≡ Memory → BeginsWell scripts.now store.old entries.now) }
{
    let mut dirty: Vec<Entity> = Vec::new(alloc);
    let mut kept: Vec<Entry> = Vec::new(alloc);
    for entry in entries {
        one_entry(store, scripts, guess, &mut dirty, &mut kept, entry)?;
    }
    Ok(kept)
}
