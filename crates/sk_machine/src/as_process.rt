//! Steps that depend on just what their process depends on, and write nothing that depends on other guesses: the lists of what
//! depends on each guess stay as they are.
ghost use Rattle.std.specs.Prelude.{◌≡◌, ◌∷◌, [], ℕ, true, IfOk};
ghost use Rattle.sk_machine.specs.Base.{IsStrictlySortedBy, nat_cmp, has, numbers, opens_of, Exit, Proc, Sig};
ghost use Rattle.sk_machine.specs.Base.{undo_state, input_in, looked_at, read_by, signals_read, looked, looks_of};
ghost use Rattle.sk_machine.specs.Base.{written_in, written_row};
ghost use Rattle.sk_machine.specs.Dependents.{Covers, IsOrdered, RestAlike, RestsAsProcess, tags_in};

use crate::lists::tags_of;
use crate::machine::is_none;
use sk_guesses::Guesses;
use sk_ids::{Entity, Pid, TagSet};
use sk_plain::{Beside, InputRef, Looks, Plan};
use sk_store::Keeper;
use sk_undo::Logs;
use std::alloc::AllocError;

/// Whether these guesses are all that are undecided.
pub(crate) fn are_all(guesses: &Guesses<Entity>, tags: &TagSet) -> bool
    requires known { (g : ℕ) → has g tags.now ≡ true
        → has g (numbers (opens_of guesses.now.opens)) ≡ true }
    requires rising { IsStrictlySortedBy nat_cmp (numbers (opens_of guesses.now.opens)) }
    ensures { result ≡ true → tags.now ≡ numbers (opens_of guesses.now.opens) }
{
    tags.ids().len() == guesses.undecided()
}

/// Whether an entity depends on none but the guesses of the next step.
fn is_within(logs: &Logs, untagged: &TagSet, entity: &Entity) -> bool
    requires { untagged.now ≡ [] }
    ensures { result ≡ true → Covers logs.now.tags (entity.now ∷ []) (tags_in logs.now.slots) }
{
    let tags = tags_of(logs, untagged, entity);
    if is_none(tags) {
        return true;
    }
    logs.next_tags().covers(tags)
}

/// Whether the signals of a process do, where a step with this input reads them.
#[tactic(auto, using(crate::proofs::AsProcess::covers_none))]
fn signals_within(logs: &Logs, untagged: &TagSet, pid: Pid, input: InputRef<'_>) -> bool
    requires { untagged.now ≡ [] }
    ensures { result ≡ true
        → Covers logs.now.tags (signals_read pid (input_in input.entry)) (tags_in logs.now.slots) }
{
    match input {
        InputRef::None => is_within(logs, untagged, &Entity::Sig(pid)),
        InputRef::Good | InputRef::Fresh(_) | InputRef::Stale(_) => true,
    }
}

/// Whether what is looked at does.
#[tactic(auto, using(crate::proofs::AsProcess::covers_none, crate::proofs::AsProcess::covers_two))]
fn looks_within(logs: &Logs, untagged: &TagSet, looks: &Looks) -> bool
    requires { untagged.now ≡ [] }
    ensures { result ≡ true
        → Covers logs.now.tags (looked_at (looked looks.now)) (tags_in logs.now.slots) }
{
    match looks {
        Looks::Nowhere => true,
        Looks::At(entity) => is_within(logs, untagged, entity),
        Looks::AtName(directory, name) => {
            if !is_within(logs, untagged, &Entity::Obj(*directory)) {
                return false;
            }
            is_within(logs, untagged, &Entity::Link(*directory, *name))
        }
    }
}

/// Whether all that a plan looks at does.
fn plan_within(logs: &Logs, untagged: &TagSet, plan: &Plan) -> bool
    requires { untagged.now ≡ [] }
    ensures { result ≡ true
        → Covers logs.now.tags (looked_at (looked (looks_of plan.now))) (tags_in logs.now.slots) }
{
    match plan {
        Plan::Private | Plan::Speaks | Plan::Received(_) | Plan::Forks(..) => {
            looks_within(logs, untagged, &Looks::Nowhere)
        }
        Plan::ReadsFile(object, _) | Plan::WritesFile(object, _) => {
            is_within(logs, untagged, &Entity::Obj(*object))
        }
        Plan::Acts(row) => looks_within(logs, untagged, &row.looks),
    }
}

/// Whether all that a plan reads does, beside its process. It stands by itself, so that a step whose process depends on all
/// that is open has no place for entities in its frame.
#[inline(never)]
fn reads_within(logs: &Logs, untagged: &TagSet, pid: Pid, input: InputRef<'_>, plan: &Plan) -> bool
    requires untagged { untagged.now ≡ [] }
    requires own { tags_in logs.now.slots (Proc pid) ≡ logs.now.tags }
    ensures { result ≡ true
        → Covers logs.now.tags (read_by pid (input_in input.entry) (looked (looks_of plan.now)))
        (tags_in logs.now.slots) }
{
    if !signals_within(logs, untagged, pid, input) {
        return false;
    }
    plan_within(logs, untagged, plan)
}

/// Whether an entity depends on just the guesses of the next step.
#[inline(always)]
fn is_alike(logs: &Logs, untagged: &TagSet, entity: &Entity) -> bool
    requires { untagged.now ≡ [] }
    ensures { result ≡ true → tags_in logs.now.slots entity.now ≡ logs.now.tags }
{
    tags_of(logs, untagged, entity).is_same(logs.next_tags())
}

/// Whether a child does, of which a process may have been that failed.
#[inline(never)]
#[tactic(auto, using(crate::proofs::AsProcess::alike_four))]
fn child_alike(logs: &Logs, untagged: &TagSet, pid: Pid, child: Pid) -> bool
    requires untagged { untagged.now ≡ [] }
    requires own { tags_in logs.now.slots (Proc pid) ≡ logs.now.tags }
    ensures { result ≡ true
        → RestAlike logs.now.tags (Proc child ∷ Sig child ∷ Exit child ∷ Proc pid ∷ [])
        (tags_in logs.now.slots) }
{
    if !is_alike(logs, untagged, &Entity::Proc(child)) {
        return false;
    }
    if !is_alike(logs, untagged, &Entity::Sig(child)) {
        return false;
    }
    is_alike(logs, untagged, &Entity::Exit(child))
}

/// Whether what a row writes does.
#[inline(never)]
#[tactic(auto, using(crate::proofs::AsProcess::alike_one, crate::proofs::AsProcess::alike_two))]
fn beside_alike(logs: &Logs, untagged: &TagSet, pid: Pid, beside: &Beside) -> bool
    requires untagged { untagged.now ≡ [] }
    requires own { tags_in logs.now.slots (Proc pid) ≡ logs.now.tags }
    ensures { result ≡ true
        → RestAlike logs.now.tags (written_row pid beside.now) (tags_in logs.now.slots) }
{
    match beside {
        Beside::Nothing => true,
        Beside::One(entity, _) => is_alike(logs, untagged, entity),
        Beside::Gone(entity) => is_alike(logs, untagged, entity),
    }
}

/// Whether all that a plan writes does, with its process.
#[tactic(auto, using(crate::proofs::AsProcess::alike_one, crate::proofs::AsProcess::alike_two))]
fn writes_alike(logs: &Logs, untagged: &TagSet, pid: Pid, plan: &Plan) -> bool
    requires untagged { untagged.now ≡ [] }
    requires own { tags_in logs.now.slots (Proc pid) ≡ logs.now.tags }
    ensures { result ≡ true
        → RestAlike logs.now.tags (written_in pid plan.now) (tags_in logs.now.slots) }
{
    match plan {
        Plan::Private | Plan::Speaks | Plan::ReadsFile(..) => true,
        Plan::WritesFile(object, _) => is_alike(logs, untagged, &Entity::Obj(*object)),
        Plan::Received(name) => is_alike(logs, untagged, &Entity::Copy(*name)),
        Plan::Forks(_, child, _) => child_alike(logs, untagged, pid, *child),
        Plan::Acts(row) => beside_alike(logs, untagged, pid, &row.beside),
    }
}

/// The next step depends on no guess. Mostly the last one did not either.
fn set_untagged(logs: &mut Logs)
    ensures { logs.new ≡ record { slots = logs.old.slots; tags = [] } }
{
    if is_none(logs.next_tags()) {
        return;
    }
    logs.set_tags(TagSet::new(logs.memory()));
}

/// Makes the guesses of a process those of its next step, and answers whether they are: it reads nothing that depends on
/// others, and all that it writes depends on just these. Without memory nothing has changed.
pub(crate) fn set_alike(
    logs: &mut Logs,
    guesses: &Guesses<Entity>,
    untagged: &TagSet,
    pid: Pid,
    input: InputRef<'_>,
    plan: &Plan,
) -> Result<bool, AllocError>
    requires order { IsOrdered (undo_state logs.old.slots (opens_of guesses.now.opens)) }
    requires untagged { untagged.now ≡ [] }
    ensures slots { logs.new.slots ≡ logs.old.slots }
    ensures alike { IfOk result
        (λ alike. alike ≡ true
        → RestsAsProcess logs.new.slots logs.new.tags pid (input_in input.entry) plan.now) }
{
    if guesses.undecided() == 0 {
        set_untagged(logs);
        let _rising = logs.next_tags().ids();
        return Ok(true);
    }
    logs.set_tags_of(Entity::Proc(pid))?;
    let _rising = logs.next_tags().ids();
    if !writes_alike(logs, untagged, pid, plan) {
        return Ok(false);
    }
    if are_all(guesses, logs.next_tags()) {
        return Ok(true);
    }
    let within = reads_within(logs, untagged, pid, input, plan);
    Ok(within)
}
