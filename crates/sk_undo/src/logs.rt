//! What performs the writes of steps, and notes what takes them back with the guesses that they depend on.
ghost use Rattle.std.specs.Prelude.{◌≡◌, ◌↔◌, [], min, ◌-◌, ◌^◌, true, false, Some, None, is_some, IfOk, OnOk, OnErr};
ghost use Rattle.sk_undo.specs.Base.{All, IsStrictlySortedBy, entity_cmp, Entity, Proc, IsPresent, entities_of};
ghost use Rattle.sk_undo.specs.Base.{CanBecome, became, option_copied, unwrap_or, eq_by_cmp, nat_cmp, is_in, last_tags};
ghost use Rattle.sk_undo.specs.Base.{IsCount, name_there};
ghost use Rattle.std.specs.FinMap as map;
ghost use Rattle.sk_undo.specs.Logs.{look_at, log_at, moved, slot_in, slots_wrote, taken_back, wrote, CanTakeBack};
ghost use Rattle.sk_undo.specs.Names.{link_there};
ghost use Rattle.sk_undo.specs.Slot.{goes_on};
ghost use Rattle.sk_undo.specs.Count.{AreUnnoted, notes_in};
ghost use Rattle.sk_undo.specs.Log.{is_empty};
ghost use Rattle.sk_undo.specs.Decisions.{ChangedAt, SlotUnwound, Unwound, Lightened, AreListed, AllRest, AllGrow, NoneBare};

use crate::{Names, Slots, TakeBack, Written};
use sk_changes::Change;
use sk_ids::{Entity, GuessId, ObjId, Pid, TagSet};
use sk_script::Process;
use sk_store::{Becoming, BecomingBy, EntityState, Keeper, Look, Present, Store};
use std::alloc::{AllocError, Global};
use std::marker::Model;

/// An entity that was written, and what takes that back.
#[derive(Drop)]
pub struct EntityUndo {
    entity: Entity,
    how: TakeBack,
}

impl Model for EntityUndo {
    ghost use Rattle.sk_undo.specs.Logs.{BackView, back_code};

    ghost Value = { BackView };

    ghost coded = { back_code };

    ghost view = { λ n. record { entity = n.entity; how = n.how } };
}

/// Makes a set one of the same guesses. Most are so already.
fn set_same(kept: &mut TagSet, tags: &TagSet) -> Result<(), AllocError>
    ensures ok { OnOk result (kept.new ≡ tags.now) }
    ensures err { OnErr result (kept.new ≡ kept.old) }
{
    if !kept.is_same(tags) {
        *kept = tags.copy()?;
    }
    Ok(())
}

/// The slots, with how many names each directory has, and the tags of the step that is performed.
#[derive(Drop)]
pub struct Logs {
    slots: Slots,
    names: Names,
    tags: TagSet,
}

impl Model for Logs {
    ghost use Rattle.sk_undo.specs.Logs.{LogsView, logs_code};
    ghost use Rattle.sk_undo.specs.Names.{IsCounted};

    ghost Value = { LogsView };

    ghost coded = { logs_code };

    ghost view = { λ l. record { slots = l.slots; tags = l.tags } };

    ghost invariant = { λ l. IsCounted l.slots l.names };
}

/// Whether an entity is a name that is there.
fn link_there(slots: &Slots, entity: &Entity) -> bool
    ensures { result ≡ link_there slots.now entity.now }
{
    match entity {
        Entity::Link(..) => slots.value(*entity).is_some(),
        Entity::Proc(_) | Entity::Sig(_) | Entity::Exit(_) | Entity::Obj(_) | Entity::Copy(_) => {
            false
        }
    }
}

/// Moves what an entity has out of the store, into a slot of which nothing is noted.
fn move_over(store: &mut Store, logs: &mut Logs, entity: &Entity) -> Result<(), AllocError>
    requires { logs.old.tags ≡ [] }
    ensures here { OnOk result
        (logs.new.slots ≡ moved logs.old.slots entity.now (map.get store.old entity.now)) }
    ensures tags { logs.new.tags ≡ [] }
    ensures others { (e : Entity) → eq_by_cmp entity_cmp e entity.now ≡ false
        → map.get store.new e ≡ map.get store.old e }
{
    let Some(state) = store.remove(*entity) else {
        return Ok(());
    };
    logs.set(entity, state)?;
    Ok(())
}

/// Moves what these entities have, which are all that there are, into slots of which nothing is noted.
fn move_all(store: &mut Store, logs: &mut Logs, entities: &[Entity]) -> Result<(), AllocError>
    requires none { logs.old ≡ record { slots = map.empty; tags = [] } }
    requires rising { IsStrictlySortedBy entity_cmp entities.now }
    requires all { (e : Entity) → is_in entity_cmp entities.now e ≡ is_some (map.get store.old e) }
    ensures values { OnOk result ((e : Entity) → look_at logs.new.slots e ≡ map.get store.old e) }
    ensures logs { OnOk result ((e : Entity) → log_at logs.new.slots e ≡ []) }
    ensures bare { OnOk result (NoneBare logs.new.slots) }
    ensures tags { logs.new.tags ≡ [] }
{
    for entity in entities {
        move_over(store, logs, entity)?;
    }
    Ok(())
}

impl Logs {
    /// No entity has anything.
    pub fn new(alloc: Global) -> Logs
        ensures { result ≡ record { slots = map.empty; tags = [] } }
    {
        Logs {
            slots: Slots::new(alloc),
            names: Names::new(alloc),
            tags: TagSet::new(alloc),
        }
    }

    /// What a store has, with nothing noted.
    pub fn open(mut store: Store) -> Result<Logs, AllocError>
        ensures values { IfOk result
            (λ logs. (e : Entity) → look_at logs.slots e ≡ map.get store e) }
        ensures logs { IfOk result (λ logs. (e : Entity) → log_at logs.slots e ≡ []) }
        ensures bare { IfOk result (λ logs. NoneBare logs.slots) }
        ensures tags { IfOk result (λ logs. logs.tags ≡ []) }
    {
        let mut logs = Logs::new(store.alloc());
        let entities = store.entities()?;
        move_all(&mut store, &mut logs, entities.as_slice())?;
        Ok(logs)
    }

    /// The tags of an entity; `None` is as none.
    #[inline(always)]
    pub fn tags(&self, entity: Entity) -> Option<&TagSet>
        ensures { unwrap_or (option_copied result) []
            ≡ last_tags [] (log_at self.now.slots entity) }
    {
        self.slots.tags(entity)
    }

    /// The entities that are present, by their order, each once.
    pub fn entities(&self) -> Result<Vec<Entity>, AllocError>
        ensures rising { IfOk result (λ all. IsStrictlySortedBy entity_cmp all.items) }
        ensures present { IfOk result
            (λ all. (e : Entity)
            → is_in entity_cmp all.items e ≡ is_some (look_at self.now.slots e)) }
    {
        self.slots.entities()
    }

    /// The entities that are present, by their order, each once, with what they have and the guesses of their newest notes.
    pub fn entries(&self) -> Result<Vec<Present<'_>>, AllocError>
        ensures rising { IfOk result
            (λ all. IsStrictlySortedBy entity_cmp (entities_of all.items)) }
        ensures present { IfOk result (λ all. (e : Entity)
            → is_in entity_cmp (entities_of all.items) e ≡ is_some (look_at self.now.slots e)) }
        ensures each { IfOk result (λ all. All
            (IsPresent (look_at self.now.slots) (λ e. last_tags [] (log_at self.now.slots e)))
            all.items) }
    {
        self.slots.entries()
    }

    /// How many names of a directory are there. This takes no memory.
    pub fn names(&self, directory: &ObjId) -> usize
        ensures { IsCount (name_there (look_at self.now.slots)) directory.now result }
    {
        self.names.count(directory)
    }

    /// How many notes all entities have, or the largest number where there are more. This takes no memory.
    pub fn notes(&self) -> usize
        ensures count { result ≡ min (notes_in self.now.slots) (2 ^ 64 - 1) }
        ensures none { (result ≡ 0) ↔ AreUnnoted self.now.slots }
    {
        self.slots.notes()
    }

    /// A copy of what entities have now.
    pub fn present(&self) -> Result<Store, AllocError>
        ensures { IfOk result (λ store. (e : Entity) → map.get store e ≡ look_at self.now.slots e) }
    {
        self.slots.present()
    }

    /// The tags of the next step.
    pub fn set_tags(&mut self, tags: TagSet)
        ensures { self.new ≡ record { slots = self.old.slots; tags = tags } }
    {
        self.tags = tags;
    }

    /// The tags of the next step become those of an entity. Without memory nothing has changed.
    pub fn set_tags_of(&mut self, entity: Entity) -> Result<(), AllocError>
        ensures ok { OnOk result
            (self.new ≡ record
            { slots = self.old.slots; tags = last_tags [] (log_at self.old.slots entity) }) }
        ensures err { OnErr result (self.new ≡ self.old) }
    {
        match self.slots.tags(entity) {
            Some(tags) => set_same(&mut self.tags, tags),
            None => {
                self.tags = TagSet::new(self.slots.alloc());
                Ok(())
            }
        }
    }

    /// Changes a process where it stands, if it depends on at least so many guesses and nothing need be noted of a write that
    /// depends on just these. Answers whether; else nothing has changed. This takes no memory.
    pub fn go_on<C: Becoming>(&mut self, pid: Pid, least: usize, by: &C) -> bool
        requires { CanBecome (C.can by.now) (look_at self.old.slots (Proc pid)) }
        ensures exact { result ≡ goes_on least (slot_in (map.get self.old.slots (Proc pid))).log }
        ensures wrote { result ≡ true
            → self.new.slots
            ≡ slots_wrote (last_tags [] (log_at self.old.slots (Proc pid))) self.old.slots (Proc pid)
            (Some (became (C.after by.now) (look_at self.old.slots (Proc pid)))) }
        ensures tags { self.new.tags ≡ self.old.tags }
        ensures rising { IsStrictlySortedBy nat_cmp
            (last_tags [] (log_at self.old.slots (Proc pid))) }
        ensures same { result ≡ false → self.new.slots ≡ self.old.slots }
    {
        self.slots.go_on(pid, least, by)
    }

    /// The tags of the next step.
    pub fn next_tags(&self) -> &TagSet
        ensures { result.now ≡ self.now.tags }
    {
        &self.tags
    }

    /// Sets what an entity has. Without memory nothing has changed.
    fn set(&mut self, entity: &Entity, value: EntityState) -> Result<TakeBack, AllocError>
        ensures ok { OnOk result (self.new ≡ wrote self.old entity.now (Some value)) }
        ensures can { IfOk result (λ how. CanTakeBack self.new.slots entity.now how) }
        ensures back { IfOk result
            (λ how. taken_back self.new (record { entity = entity.now; how = how }) ≡ self.old) }
        ensures err { OnErr result (self.new ≡ self.old) }
    {
        let _most = self.slots.most_names();
        self.names.put(entity)?;
        match self.slots.set(entity, &self.tags, value) {
            Ok(Written { was: false, back }) => Ok(back),
            Ok(Written { was: true, back }) => {
                self.names.take(entity);
                Ok(back)
            }
            Err(why) => {
                self.names.take(entity);
                Err(why)
            }
        }
    }

    /// As `set`, but answers nothing that takes it back.
    fn set_alone(&mut self, entity: &Entity, value: EntityState) -> Result<(), AllocError>
        ensures ok { OnOk result (self.new ≡ wrote self.old entity.now (Some value)) }
        ensures err { OnErr result (self.new ≡ self.old) }
    {
        let _most = self.slots.most_names();
        self.names.put(entity)?;
        match self.slots.set_alone(entity, &self.tags, value) {
            Ok(false) => Ok(()),
            Ok(true) => {
                self.names.take(entity);
                Ok(())
            }
            Err(why) => {
                self.names.take(entity);
                Err(why)
            }
        }
    }

    /// Makes an entity absent. Without memory nothing has changed.
    fn clear(&mut self, entity: &Entity) -> Result<(), AllocError>
        ensures ok { OnOk result (self.new ≡ wrote self.old entity.now None) }
        ensures err { OnErr result (self.new ≡ self.old) }
    {
        if self.tags.ids().is_empty() {
            return self.clear_untagged(entity);
        }
        self.names.make_for(entity)?;
        let _most = self.slots.most_names();
        let was = self.slots.clear(entity, &self.tags)?;
        self.names.recount(entity, was, false);
        Ok(())
    }

    /// As `clear`, in a step that depends on no guess: then what has no slot gets none, and needs no number.
    fn clear_untagged(&mut self, entity: &Entity) -> Result<(), AllocError>
        requires { self.old.tags ≡ [] }
        ensures ok { OnOk result (self.new ≡ wrote self.old entity.now None) }
        ensures err { OnErr result (self.new ≡ self.old) }
    {
        let _most = self.slots.most_names();
        let was = self.slots.clear(entity, &self.tags)?;
        self.names.recount(entity, was, false);
        Ok(())
    }

    /// Takes back what depends on a guess at one entity, in place and without memory.
    fn unwind_at(&mut self, entity: &Entity, guess: GuessId)
        ensures slots { ChangedAt (SlotUnwound guess) self.old.slots entity.now self.new.slots }
        ensures tags { self.new.tags ≡ self.old.tags }
    {
        let was = link_there(&self.slots, entity);
        let _most = self.slots.most_names();
        self.slots.unwind_at(entity, guess);
        let is = link_there(&self.slots, entity);
        self.names.recount(entity, was, is);
    }

    /// Takes back what depends on a guess, at the entities of which a note does, in place and without
    /// memory.
    pub fn unwind(&mut self, guess: GuessId, entities: &[Entity])
        requires listed { AreListed guess self.old.slots entities.now }
        requires grow { AllGrow self.old.slots }
        ensures slots { Unwound self.old.slots guess self.new.slots }
        ensures bare { NoneBare self.old.slots → NoneBare self.new.slots }
        ensures tags { self.new.tags ≡ self.old.tags }
    {
        for entity in entities {
            self.unwind_at(entity, guess);
        }
    }

    /// Takes a guess out of all notes, at the entities of which a note depends on it, and leaves out those for
    /// which then an older one stands. It takes no memory.
    pub fn commit(&mut self, guess: GuessId, entities: &[Entity])
        requires listed { AreListed guess self.old.slots entities.now }
        requires rest { AllRest self.old.slots }
        requires grow { AllGrow self.old.slots }
        ensures slots { Lightened self.old.slots guess self.new.slots }
        ensures bare { NoneBare self.old.slots → NoneBare self.new.slots }
        ensures tags { self.new.tags ≡ self.old.tags }
    {
        self.slots.commit(guess, entities);
    }
}

impl Look for Logs {
    ghost use Rattle.sk_undo.specs.Logs.{look_at};

    ghost look = { λ l. look_at l.slots };

    #[inline(always)]
    fn value(&self, entity: Entity) -> Option<&EntityState> {
        self.slots.value(entity)
    }
}

impl Keeper for Logs {
    ghost use Rattle.sk_ids.specs.declared.entity.Entity.TheVariants.{Proc};
    ghost use Rattle.sk_undo.specs.Logs.{wrote, is_unnoted, CanTakeBack, taken_back};

    type Back = EntityUndo;

    ghost wrote = { wrote };

    ghost can_take_back = { λ l b. CanTakeBack l.slots b.entity b.how };

    ghost taken_back = { taken_back };

    ghost step_tags = { λ l. l.tags };

    ghost goes_unnoted = { λ l pid. is_unnoted l.tags l.slots (Proc pid) };

    fn memory(&self) -> Global {
        self.slots.alloc()
    }

    fn step_tags(&self) -> Result<TagSet, AllocError> {
        self.tags.copy()
    }

    #[inline(always)]
    fn write(&mut self, entity: Entity, stored: EntityState) -> Result<EntityUndo, AllocError> {
        let how = self.set(&entity, stored)?;
        Ok(EntityUndo { entity, how })
    }

    fn change(&mut self, entity: Entity, change: Change) -> Result<EntityUndo, AllocError> {
        let how = self.slots.change(&entity, &self.tags, &change)?;
        Ok(EntityUndo { entity, how })
    }

    #[inline(always)]
    fn change_process<C: Becoming>(&mut self, pid: Pid, by: &C) -> Result<(), AllocError> {
        self.slots.change_process(pid, &self.tags, by)
    }

    #[inline(always)]
    fn change_by<C: BecomingBy>(
        &mut self,
        pid: Pid,
        entity: &Entity,
        by: &C,
    ) -> Result<(), AllocError> {
        self.slots.change_by(pid, entity, &self.tags, by)
    }

    #[inline(always)]
    fn write_buffer<C: Becoming>(
        &mut self,
        object: &ObjId,
        at: u32,
        pid: Pid,
        by: &C,
    ) -> Result<(), AllocError> {
        self.slots.write_buffer(object, at, pid, &self.tags, by)
    }

    #[inline(always)]
    fn goes_unnoted(&self, pid: Pid) -> bool {
        self.slots.goes_unnoted(pid, &self.tags)
    }

    fn unnoted(&self, pid: Pid) -> Option<&Process> {
        self.slots.unnoted(pid, &self.tags)
    }

    fn become_unnoted<C: Becoming>(&mut self, pid: Pid, by: &C) {
        self.slots.become_unnoted(pid, &self.tags, by);
    }

    fn change_both<C: Becoming>(
        &mut self,
        entity: &Entity,
        change: &Change,
        pid: Pid,
        by: &C,
    ) -> Result<(), AllocError> {
        self.slots.change_both(entity, &self.tags, change, pid, by)
    }

    #[inline(always)]
    fn write_beside<C: Becoming>(
        &mut self,
        entity: &Entity,
        stored: EntityState,
        pid: Pid,
        by: &C,
    ) -> Result<(), AllocError> {
        self.set_alone(entity, stored)?;
        self.become_unnoted::<C>(pid, by);
        Ok(())
    }

    fn remove_beside<C: Becoming>(
        &mut self,
        entity: &Entity,
        pid: Pid,
        by: &C,
    ) -> Result<(), AllocError> {
        self.clear(entity)?;
        self.become_unnoted(pid, by);
        Ok(())
    }

    fn remove(&mut self, entity: Entity) -> Result<(), AllocError> {
        self.clear(&entity)
    }

    fn take_back(&mut self, back: EntityUndo) {
        let EntityUndo { entity, how } = back;
        let was = link_there(&self.slots, &entity);
        let _most = self.slots.most_names();
        self.slots.take_back(&entity, how);
        let is = link_there(&self.slots, &entity);
        self.names.recount(&entity, was, is);
    }

    ghost use Rattle.sk_undo.specs.OthersLaw.{wrote_others};

    ghost others = { wrote_others };
}
