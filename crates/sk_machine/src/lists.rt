//! The lists of what depends on each undecided guess, as steps and failures change them.
ghost use Rattle.std.specs.Prelude.{◌≡◌, ◌∷◌, ℕ, true, OnOk, OnErr, []};
ghost use Rattle.sk_machine.specs.Base.{IsStrictlySortedBy, nat_cmp, has, numbers, undo_state, dependents_of, opens_of};
ghost use Rattle.sk_machine.specs.Base.{entity_cmp};
ghost use Rattle.sk_guesses.specs.Dependents as listing;
ghost use Rattle.sk_machine.specs.Dependents.{AllAlmostExact, AllExact, Covers, HasListed, IsOrdered, tags_in};

use crate::as_process::are_all;
use crate::machine::is_none;
use sk_guesses::Guesses;
use sk_ids::{Entity, GuessId, TagSet};
use sk_undo::Logs;
use std::alloc::AllocError;

/// The guesses that an entity depends on, where this is the set of none.
#[inline(always)]
pub(crate) fn tags_of<'a>(logs: &'a Logs, untagged: &'a TagSet, entity: &Entity) -> &'a TagSet
    requires { untagged.now ≡ [] }
    ensures { result.now ≡ tags_in logs.now.slots entity.now }
{
    match logs.tags(*entity) {
        Some(tags) => tags,
        None => untagged,
    }
}

/// Adds an entity to the lists of these guesses. Most entities depend on all that are open, or on just these, and are there.
fn depend(
    guesses: &mut Guesses<Entity>,
    own: &TagSet,
    tags: &TagSet,
    entity: &Entity,
) -> Result<(), AllocError>
    requires known { (g : ℕ) → has g own.now ≡ true
        → has g (numbers (opens_of guesses.old.opens)) ≡ true }
    requires rising { IsStrictlySortedBy nat_cmp (numbers (opens_of guesses.old.opens)) }
    ensures view { guesses.new.view ≡ guesses.old.view }
    ensures ok { OnOk result
        (listing.Depends entity_cmp own.now tags.now entity.now guesses.old.opens
        guesses.new.opens) }
    ensures err { OnErr result (guesses.new.opens ≡ guesses.old.opens) }
{
    if are_all(guesses, own) {
        return Ok(());
    }
    if own.covers(tags) {
        return Ok(());
    }
    if is_none(own) {
        return guesses.depend(tags, entity);
    }
    let added = tags.beyond(own)?;
    guesses.depend(&added, entity)
}

/// Adds entities to the lists of guesses, whether or not these are undecided. Without memory the lists have what they had.
#[inline(never)]
fn depend_each(
    guesses: &mut Guesses<Entity>,
    logs: &Logs,
    untagged: &TagSet,
    tags: &TagSet,
    entities: &[Entity],
) -> Result<(), AllocError>
    requires order { IsOrdered (undo_state logs.now.slots (opens_of guesses.old.opens)) }
    requires exact { AllExact (tags_in logs.now.slots) guesses.old.opens }
    requires covers { Covers tags.now entities.now (tags_in logs.now.slots) }
    requires untagged { untagged.now ≡ [] }
    ensures { HasListed result logs.now.slots tags.now entities.now guesses.old guesses.new }
{
    for entity in entities {
        let own = tags_of(logs, untagged, entity);
        if depend(guesses, own, tags, entity).is_err() {
            relieve_all(guesses, logs, untagged, entities);
            return Err(AllocError);
        }
    }
    Ok(())
}

/// Adds what a step writes to the lists of the guesses that the step depends on. Without memory the lists
/// have what they had.
#[inline(always)]
pub(crate) fn depend_all(
    guesses: &mut Guesses<Entity>,
    logs: &Logs,
    untagged: &TagSet,
    tags: &TagSet,
    entities: &[Entity],
) -> Result<(), AllocError>
    requires order { IsOrdered (undo_state logs.now.slots (opens_of guesses.old.opens)) }
    requires exact { AllExact (tags_in logs.now.slots) guesses.old.opens }
    requires covers { Covers tags.now entities.now (tags_in logs.now.slots) }
    requires untagged { untagged.now ≡ [] }
    ensures { HasListed result logs.now.slots tags.now entities.now guesses.old guesses.new }
{
    if guesses.are_later(tags) {
        return Ok(());
    }
    depend_each(guesses, logs, untagged, tags, entities)
}

/// Takes entities out of the lists of the guesses that they do not depend on.
pub(crate) fn relieve_all(
    guesses: &mut Guesses<Entity>,
    logs: &Logs,
    untagged: &TagSet,
    entities: &[Entity],
)
    requires almost { AllAlmostExact (tags_in logs.now.slots) entities.now guesses.old.opens }
    requires untagged { untagged.now ≡ [] }
    ensures view { guesses.new.view ≡ guesses.old.view }
    ensures opens { opens_of guesses.new.opens ≡ opens_of guesses.old.opens }
    ensures exact { AllExact (tags_in logs.now.slots) guesses.new.opens }
{
    for entity in entities {
        guesses.leave_to(tags_of(logs, untagged, entity), entity);
    }
}

/// Whether an entity depends on one guess, and on no other.
fn rests_alone(logs: &Logs, untagged: &TagSet, id: GuessId, entity: &Entity) -> bool
    requires { untagged.now ≡ [] }
    ensures { result ≡ true → Covers (id ∷ []) (entity.now ∷ []) (tags_in logs.now.slots) }
{
    match tags_of(logs, untagged, entity).ids() {
        [one] => *one == id,
        _ => false,
    }
}

/// Whether each of these entities does.
fn rest_alone(logs: &Logs, untagged: &TagSet, id: GuessId, entities: &[Entity]) -> bool
    requires { untagged.now ≡ [] }
    ensures { result ≡ true → Covers (id ∷ []) entities.now (tags_in logs.now.slots) }
{
    for entity in entities {
        if !rests_alone(logs, untagged, id, entity) {
            return false;
        }
    }
    true
}

/// Whether all that depends on a guess depends on no other. Where no other is open nobody asks.
pub(crate) fn is_alone(
    guesses: &Guesses<Entity>,
    logs: &Logs,
    untagged: &TagSet,
    id: GuessId,
) -> bool
    requires { untagged.now ≡ [] }
    ensures { result ≡ true
        → Covers (id ∷ []) (dependents_of id guesses.now.opens) (tags_in logs.now.slots) }
{
    if guesses.undecided() < 2 {
        return false;
    }
    rest_alone(logs, untagged, id, guesses.dependents(id))
}

/// Takes what depended on a failed guess out of the lists of the others on which it does not depend. Mostly it is in none of
/// these.
pub(crate) fn relieve_freed(
    guesses: &mut Guesses<Entity>,
    logs: &Logs,
    untagged: &TagSet,
    alone: bool,
    entities: &[Entity],
)
    requires almost { AllAlmostExact (tags_in logs.now.slots) entities.now guesses.old.opens }
    requires alone { alone ≡ true → AllExact (tags_in logs.now.slots) guesses.old.opens }
    requires untagged { untagged.now ≡ [] }
    ensures view { guesses.new.view ≡ guesses.old.view }
    ensures opens { opens_of guesses.new.opens ≡ opens_of guesses.old.opens }
    ensures exact { AllExact (tags_in logs.now.slots) guesses.new.opens }
{
    if alone {
        return;
    }
    if guesses.undecided() == 0 {
        return;
    }
    relieve_all(guesses, logs, untagged, entities);
}
