//! All entities with their undo logs, in one map.
ghost use Rattle.std.specs.Prelude.{◌≡◌, ◌<◌, ◌+◌, ◌&&◌, [], min, ◌-◌, ◌^◌, true, false, OnOk, OnErr, IfOk, IfSome, OnSome, Some, None, is_some};
ghost use Rattle.sk_undo.specs.Base.{option_copied, option_copied_mut, unwrap_or, IsStrictlySortedBy, LendsSo, sem};
ghost use Rattle.sk_undo.specs.Base.{eq_by_cmp, nat_cmp, entity_cmp, Entity, Proc, Obj, is_in, put, last_tags, FitsAt};
ghost use Rattle.sk_undo.specs.Base.{changed, CanBecome, IsProcess, IsReadable, became, process_in, IsPresent};
ghost use Rattle.sk_undo.specs.Base.{entities_of, All, list_all, sum_by};
ghost use Rattle.std.specs.FinMap as map;
ghost use Rattle.sk_changes.specs.declared.change.Change.TheVariants as changes;
ghost use Rattle.sk_undo.specs.Count.{note_count, notes_in};
ghost use Rattle.sk_undo.specs.Kinds.{HasAtMost};
ghost use Rattle.sk_undo.specs.Log.{is_empty};
ghost use Rattle.sk_undo.specs.Slot.{is_bare, slot_of, slot_wrote, goes_on};
ghost use Rattle.sk_undo.specs.Logs.{look_at, log_at, slot_in, is_unnoted, slots_wrote, slots_back, CanTakeBack};
ghost use Rattle.sk_undo.specs.Decisions.{ChangedAt, SlotUnwound, SlotCommitted, Lightened, AreListed, AllRest, AllGrow, NoneBare};
ghost use Rattle.sk_undo.specs.contracts.slots.Slots.{the_row as slots_row};
ghost use Rattle.sk_undo.specs.contracts.slot.Slot.{the_row as slot_row};

use crate::Slot;
use crate::entity_map::{self, EntityMap};
use crate::entries::present;
use sk_changes::Change;
use sk_ids::{Entity, GuessId, ObjId, Pid, TagSet};
use sk_script::Process;
use sk_store::{Becoming, BecomingBy, EntityState, Present, PutBack, Store};
use std::alloc::{AllocError, Global};
use std::collections::btree_map::Values;
use std::marker::Model;

/// What takes a write back, at its entity.
#[derive(Drop)]
pub enum TakeBack {
    /// The entity had no slot.
    DropSlot,
    UndoLast(Option<PutBack<EntityState>>),
}

/// What takes a write back, and whether there was something before it.
#[derive(Drop)]
pub struct Written {
    pub was: bool,
    pub back: TakeBack,
}

/// The slots of entities. One without a slot is absent, and nothing is noted of it.
#[derive(Drop)]
pub struct Slots {
    slots: EntityMap<Slot>,
}

impl Model for Slots {
    ghost use Rattle.sk_undo.specs.Logs.{SlotMap, slot_map_code};

    ghost Value = { SlotMap };

    ghost coded = { slot_map_code };

    ghost view = { λ a. a.slots };
}

/// The slot of an entity that had none.
fn born(alloc: Global, tags: &TagSet, value: Option<EntityState>) -> Result<Slot, AllocError>
    ensures { IfOk result (λ slot. slot ≡ slot_wrote tags.now (slot_of None) value) }
{
    if tags.ids().is_empty() {
        return Ok(Slot::new(alloc, value));
    }
    let mut slot = Slot::new(alloc, None);
    slot.set(tags, value)?;
    Ok(slot)
}

/// So many notes and those of slots, or the largest number where there are more.
fn notes_among<K: Ord>(counted: usize, slots: Values<'_, K, Slot>) -> usize
    ensures { result ≡ min (counted + sum_by note_count slots.entry) (2 ^ 64 - 1) }
{
    let mut total = counted;
    for slot in slots {
        total = total.saturating_add(slot.notes());
    }
    total
}

/// Whether each of these slots has a value.
fn have_values<K: Ord>(mut slots: Values<'_, K, Slot>) -> bool
    ensures { result ≡ list_all (λ s. is_some s.now) slots.entry }
{
    slots.all(|slot: &Slot| slot.value().is_some())
}

/// Whether this holds and each of these slots has a value.
fn are_present<K: Ord>(before: bool, slots: Values<'_, K, Slot>) -> bool
    ensures { result ≡ (before && list_all (λ s. is_some s.now) slots.entry) }
{
    before && have_values(slots)
}

/// Copies what an entity has now into a store.
fn copy_over(slots: &Slots, store: &mut Store, entity: &Entity) -> Result<(), AllocError>
    ensures { OnOk result (store.new ≡ put store.old entity.now (look_at slots.now entity.now)) }
{
    match slots.value(*entity) {
        Some(state) => store.put(*entity, state.copy()?),
        None => {
            store.remove(*entity);
            Ok(())
        }
    }
}

impl Slots {
    pub fn new(alloc: Global) -> Slots
        ensures { result ≡ map.empty }
    {
        Slots {
            slots: EntityMap::new(alloc),
        }
    }

    pub fn alloc(&self) -> Global {
        self.slots.alloc()
    }

    /// A copy of what entities have now.
    pub fn present(&self) -> Result<Store, AllocError>
        ensures { IfOk result (λ store. (e : Entity) → map.get store e ≡ look_at self.now e) }
    {
        let mut store = Store::new(self.alloc());
        let entities = self.entities()?;
        for entity in &entities {
            copy_over(self, &mut store, entity)?;
        }
        Ok(store)
    }

    /// A number that no directory has more names with a slot than.
    pub fn most_names(&self) -> usize
        ensures most { HasAtMost self.now result }
        ensures small { result < 2 ^ 63 }
    {
        self.slots.most_names()
    }

    #[inline(always)]
    pub fn value(&self, entity: Entity) -> Option<&EntityState>
        ensures { option_copied result ≡ look_at self.now entity }
    {
        match self.slots.get(&entity) {
            Some(slot) => slot.value(),
            None => None,
        }
    }

    /// The tags of an entity, where it has a slot.
    #[inline(always)]
    pub fn tags(&self, entity: Entity) -> Option<&TagSet>
        ensures { unwrap_or (option_copied result) [] ≡ last_tags [] (log_at self.now entity) }
    {
        match self.slots.get_late(&entity) {
            Some(slot) => slot.tags(),
            None => None,
        }
    }

    /// Whether each slot has a value.
    fn all_present(&self) -> bool
        ensures { result ≡ list_all (λ s. is_some s.now) (map.values self.now) }
    {
        let values = self.slots.values();
        let own = are_present(true, values.processes);
        let queued = are_present(own, values.signals);
        let left = are_present(queued, values.exits);
        let objects = are_present(left, values.objects);
        let links = are_present(objects, values.links);
        are_present(links, values.copies)
    }

    /// Those of the entities with a slot that are present.
    fn present_among(&self, mut all: Vec<Entity>) -> Vec<Entity>
        requires keys { all.items ≡ map.keys self.now }
        requires rising { IsStrictlySortedBy entity_cmp all.items }
        ensures rising { IsStrictlySortedBy entity_cmp result.items }
        ensures present { (e : Entity)
            → is_in entity_cmp result.items e ≡ is_some (look_at self.now e) }
    {
        all.retain(|entity: &Entity| self.value(*entity).is_some());
        all
    }

    /// The entities that are present, by their order, each once. Where each slot has a value none is looked up.
    pub fn entities(&self) -> Result<Vec<Entity>, AllocError>
        ensures rising { IfOk result (λ all. IsStrictlySortedBy entity_cmp all.items) }
        ensures present { IfOk result
            (λ all. (e : Entity) → is_in entity_cmp all.items e ≡ is_some (look_at self.now e)) }
    {
        let all = self.slots.entities()?;
        if self.all_present() {
            return Ok(all);
        }
        Ok(self.present_among(all))
    }

    /// The entities that are present, by their order, each once, with what they have and the guesses of their newest notes.
    pub fn entries(&self) -> Result<Vec<Present<'_>>, AllocError>
        ensures rising { IfOk result
            (λ all. IsStrictlySortedBy entity_cmp (entities_of all.items)) }
        ensures present { IfOk result (λ all. (e : Entity)
            → is_in entity_cmp (entities_of all.items) e ≡ is_some (look_at self.now e)) }
        ensures each { IfOk result (λ all. All
            (IsPresent (look_at self.now) (λ e. last_tags [] (log_at self.now e)))
            all.items) }
    {
        present(&self.slots)
    }

    /// How many notes there are, or the largest number where there are more. This takes no memory.
    pub fn notes(&self) -> usize
        ensures { result ≡ min (notes_in self.now) (2 ^ 64 - 1) }
    {
        let values = self.slots.values();
        let own = notes_among(0, values.processes);
        let queued = notes_among(own, values.signals);
        let left = notes_among(queued, values.exits);
        let objects = notes_among(left, values.objects);
        let links = notes_among(objects, values.links);
        notes_among(links, values.copies)
    }

    #[inline(always)]
    fn slot_mut(&mut self, entity: &Entity) -> Option<&mut Slot>
        ensures* writes_back { sem 𝓛 (LendsSo slots_row slot_row self.entry result
            (λ n w. OnSome result (n ≡ map.insert self.old entity.now w)) (λ n. n ≡ self.old)) }
        ensures value { option_copied_mut result ≡ map.get self.old entity.now }
    {
        self.slots.get_mut(entity)
    }

    /// The slot of an entity that is mostly about to be born.
    fn late_slot_mut(&mut self, entity: &Entity) -> Option<&mut Slot>
        ensures* writes_back { sem 𝓛 (LendsSo slots_row slot_row self.entry result
            (λ n w. OnSome result (n ≡ map.insert self.old entity.now w)) (λ n. n ≡ self.old)) }
        ensures value { option_copied_mut result ≡ map.get self.old entity.now }
    {
        if self.slots.get_late(entity).is_none() {
            return None;
        }
        self.slots.get_mut(entity)
    }

    fn put(&mut self, entity: Entity, slot: Slot) -> Result<(), AllocError>
        ensures ok { OnOk result (self.new ≡ map.insert self.old entity slot) }
        ensures err { OnErr result (self.new ≡ self.old) }
    {
        self.slots.put(&entity, slot)
    }

    fn remove(&mut self, entity: &Entity)
        ensures { self.new ≡ map.remove self.old entity.now }
    {
        self.slots.remove(entity);
    }

    /// Whether an entity was there of which nothing is left when it is made absent.
    fn leaves_nothing(&self, entity: &Entity, tags: &TagSet) -> Option<bool>
        ensures was { IfSome result (λ was. was ≡ is_some (look_at self.now entity.now)) }
        ensures bare { OnSome result
            (is_bare (slot_wrote tags.now (slot_in (map.get self.now entity.now)) None) ≡ true) }
    {
        let slot = self.slots.get(entity)?;
        if !tags.ids().is_empty() || !slot.is_unnoted() {
            return None;
        }
        Some(slot.value().is_some())
    }

    /// Sets what an entity has. Without memory nothing has changed.
    #[inline(always)]
    pub fn set(
        &mut self,
        entity: &Entity,
        tags: &TagSet,
        value: EntityState,
    ) -> Result<Written, AllocError>
        ensures ok { OnOk result
            (self.new ≡ slots_wrote tags.now self.old entity.now (Some value)) }
        ensures can { IfOk result (λ w. CanTakeBack self.new entity.now w.back) }
        ensures back { IfOk result (λ w. slots_back self.new entity.now w.back ≡ self.old) }
        ensures was { IfOk result (λ w. w.was ≡ is_some (look_at self.old entity.now)) }
        ensures err { OnErr result (self.new ≡ self.old) }
    {
        if let Some(slot) = self.late_slot_mut(entity) {
            let was = slot.value().is_some();
            let back = slot.set(tags, Some(value))?;
            return Ok(Written {
                was,
                back: TakeBack::UndoLast(back),
            });
        }
        let slot = born(self.alloc(), tags, Some(value))?;
        self.put(*entity, slot)?;
        Ok(Written {
            was: false,
            back: TakeBack::DropSlot,
        })
    }

    /// Sets what an entity has, and answers just whether there was something before. What is born of a step that depends on no
    /// guess is put at once. Without memory nothing has changed.
    pub fn set_alone(
        &mut self,
        entity: &Entity,
        tags: &TagSet,
        value: EntityState,
    ) -> Result<bool, AllocError>
        ensures ok { OnOk result
            (self.new ≡ slots_wrote tags.now self.old entity.now (Some value)) }
        ensures was { IfOk result (λ was. was ≡ is_some (look_at self.old entity.now)) }
        ensures err { OnErr result (self.new ≡ self.old) }
    {
        if tags.ids().is_empty() && self.slots.get_late(entity).is_none() {
            let slot = Slot::new(self.alloc(), Some(value));
            self.slots.put(entity, slot)?;
            return Ok(false);
        }
        self.set_apart(entity, tags, value)
    }

    /// As `set_alone`, where something may be there, or a note is kept.
    #[inline(never)]
    fn set_apart(
        &mut self,
        entity: &Entity,
        tags: &TagSet,
        value: EntityState,
    ) -> Result<bool, AllocError>
        ensures ok { OnOk result
            (self.new ≡ slots_wrote tags.now self.old entity.now (Some value)) }
        ensures was { IfOk result (λ was. was ≡ is_some (look_at self.old entity.now)) }
        ensures err { OnErr result (self.new ≡ self.old) }
    {
        Ok(self.set(entity, tags, value)?.was)
    }

    /// Changes a process where it stands. Without memory nothing has changed.
    #[inline(always)]
    pub fn change_process<C: Becoming>(
        &mut self,
        pid: Pid,
        tags: &TagSet,
        by: &C,
    ) -> Result<(), AllocError>
        requires { CanBecome (C.can by.now) (look_at self.old (Proc pid)) }
        ensures ok { OnOk result
            (self.new ≡ slots_wrote tags.now self.old (Proc pid)
            (Some (became (C.after by.now) (look_at self.old (Proc pid))))) }
        ensures err { OnErr result (self.new ≡ self.old) }
    {
        let alloc = self.alloc();
        match self.slot_mut(&Entity::Proc(pid)) {
            Some(slot) => {
                slot.change_process(alloc, tags, by)?;
                Ok(())
            }
            None => unreachable!(),
        }
    }

    /// Changes a process where it stands by what an object or a copy has. Without memory nothing has changed.
    #[inline(always)]
    pub fn change_by<C: BecomingBy>(
        &mut self,
        pid: Pid,
        entity: &Entity,
        tags: &TagSet,
        by: &C,
    ) -> Result<(), AllocError>
        requires readable { IsReadable entity.now }
        requires can { CanBecome (C.can by.now (look_at self.old entity.now))
            (look_at self.old (Proc pid)) }
        ensures ok { OnOk result
            (self.new ≡ slots_wrote tags.now self.old (Proc pid)
            (Some (became (C.after by.now (look_at self.old entity.now))
            (look_at self.old (Proc pid))))) }
        ensures err { OnErr result (self.new ≡ self.old) }
    {
        entity_map::change_by(&mut self.slots, pid, entity, tags, by)
    }

    /// Writes the buffer of a process at a place of a file, and then changes the process. Without memory nothing has
    /// changed.
    #[inline(always)]
    pub fn write_buffer<C: Becoming>(
        &mut self,
        object: &ObjId,
        at: u32,
        pid: Pid,
        tags: &TagSet,
        by: &C,
    ) -> Result<(), AllocError>
        requires fits { FitsAt (look_at self.old (Obj object.now))
            (changes.WriteAt at (process_in (look_at self.old (Proc pid))).buffer) }
        requires can { CanBecome (C.can by.now) (look_at self.old (Proc pid)) }
        ensures ok { OnOk result
            (self.new ≡ slots_wrote tags.now
            (slots_wrote tags.now self.old (Obj object.now)
            (Some (changed (look_at self.old (Obj object.now))
            (changes.WriteAt at (process_in (look_at self.old (Proc pid))).buffer)))) (Proc pid)
            (Some (became (C.after by.now) (look_at self.old (Proc pid))))) }
        ensures err { OnErr result (self.new ≡ self.old) }
    {
        entity_map::write_buffer(&mut self.slots, object, at, pid, tags, by)
    }

    /// Makes an entity absent, and answers whether it was there. Without memory nothing has changed.
    #[inline(always)]
    pub fn clear(&mut self, entity: &Entity, tags: &TagSet) -> Result<bool, AllocError>
        ensures ok { OnOk result (self.new ≡ slots_wrote tags.now self.old entity.now None) }
        ensures was { IfOk result (λ was. was ≡ is_some (look_at self.old entity.now)) }
        ensures err { OnErr result (self.new ≡ self.old) }
    {
        if let Some(was) = self.leaves_nothing(entity, tags) {
            self.remove(entity);
            return Ok(was);
        }
        self.clear_apart(entity, tags)
    }

    /// As `clear`, where something may be left of the entity.
    #[inline(never)]
    fn clear_apart(&mut self, entity: &Entity, tags: &TagSet) -> Result<bool, AllocError>
        ensures ok { OnOk result (self.new ≡ slots_wrote tags.now self.old entity.now None) }
        ensures was { IfOk result (λ was. was ≡ is_some (look_at self.old entity.now)) }
        ensures err { OnErr result (self.new ≡ self.old) }
    {
        if let Some(slot) = self.slot_mut(entity) {
            let was = slot.value().is_some();
            slot.clear(tags)?;
            if slot.is_bare() {
                self.remove(entity);
            }
            return Ok(was);
        }
        if tags.ids().is_empty() {
            return Ok(false);
        }
        let slot = born(self.alloc(), tags, None)?;
        self.put(*entity, slot)?;
        Ok(false)
    }

    /// Changes the value of an entity. Without memory nothing has changed.
    pub fn change(
        &mut self,
        entity: &Entity,
        tags: &TagSet,
        change: &Change,
    ) -> Result<TakeBack, AllocError>
        requires { FitsAt (look_at self.old entity.now) change.now }
        ensures ok { OnOk result
            (self.new ≡ slots_wrote tags.now self.old entity.now
            (Some (changed (look_at self.old entity.now) change.now))) }
        ensures can { IfOk result (λ how. CanTakeBack self.new entity.now how) }
        ensures back { IfOk result (λ how. slots_back self.new entity.now how ≡ self.old) }
        ensures err { OnErr result (self.new ≡ self.old) }
    {
        match self.slot_mut(entity) {
            Some(slot) => {
                let back = slot.change(tags, change)?;
                Ok(TakeBack::UndoLast(back))
            }
            None => unreachable!(),
        }
    }

    /// Whether nothing is noted of a write of a process with these tags.
    #[inline(always)]
    pub fn goes_unnoted(&self, pid: Pid, tags: &TagSet) -> bool
        ensures { result ≡ is_unnoted tags.now self.now (Proc pid) }
    {
        match self.slots.get(&Entity::Proc(pid)) {
            Some(slot) => slot.goes_unnoted(tags),
            None => tags.ids().is_empty(),
        }
    }

    /// A process, if nothing is noted of a write of it with these tags.
    pub fn unnoted(&self, pid: Pid, tags: &TagSet) -> Option<&Process>
        requires { IsProcess (look_at self.now (Proc pid)) }
        ensures exact { is_some result ≡ is_unnoted tags.now self.now (Proc pid) }
        ensures process { IfSome result
            (λ process. process.now ≡ process_in (look_at self.now (Proc pid))) }
    {
        match self.slots.get(&Entity::Proc(pid)) {
            Some(slot) => slot.unnoted(tags),
            None => unreachable!(),
        }
    }

    /// Changes the value of an entity, and answers nothing that takes it back. Without memory nothing has
    /// changed.
    #[inline(always)]
    fn change_alone(
        &mut self,
        entity: &Entity,
        tags: &TagSet,
        change: &Change,
    ) -> Result<(), AllocError>
        requires { FitsAt (look_at self.old entity.now) change.now }
        ensures ok { OnOk result
            (self.new ≡ slots_wrote tags.now self.old entity.now
            (Some (changed (look_at self.old entity.now) change.now))) }
        ensures err { OnErr result (self.new ≡ self.old) }
    {
        match self.slot_mut(entity) {
            Some(slot) => {
                slot.change_alone(tags, change)?;
                Ok(())
            }
            None => unreachable!(),
        }
    }

    /// Changes a process where it stands, of which nothing is noted.
    pub fn become_unnoted<C: Becoming>(&mut self, pid: Pid, tags: &TagSet, by: &C)
        requires unnoted { is_unnoted tags.now self.old (Proc pid) ≡ true }
        requires can { CanBecome (C.can by.now) (look_at self.old (Proc pid)) }
        ensures { self.new ≡ slots_wrote tags.now self.old (Proc pid)
            (Some (became (C.after by.now) (look_at self.old (Proc pid)))) }
    {
        match self.slot_mut(&Entity::Proc(pid)) {
            Some(slot) => slot.become_unnoted(tags, by),
            None => unreachable!(),
        }
    }

    /// Changes the value of an entity and then a process, of which nothing is noted. Without memory nothing
    /// has changed.
    pub fn change_both<C: Becoming>(
        &mut self,
        entity: &Entity,
        tags: &TagSet,
        change: &Change,
        pid: Pid,
        by: &C,
    ) -> Result<(), AllocError>
        requires unnoted { is_unnoted tags.now self.old (Proc pid) ≡ true }
        requires fits { FitsAt (look_at self.old entity.now) change.now }
        requires can { CanBecome (C.can by.now) (look_at self.old (Proc pid)) }
        requires apart { eq_by_cmp entity_cmp (Proc pid) entity.now ≡ false }
        ensures ok { OnOk result
            (self.new ≡ slots_wrote tags.now
            (slots_wrote tags.now self.old entity.now
            (Some (changed (look_at self.old entity.now) change.now))) (Proc pid)
            (Some (became (C.after by.now) (look_at self.old (Proc pid))))) }
        ensures err { OnErr result (self.new ≡ self.old) }
    {
        self.change_alone(entity, tags, change)?;
        self.become_unnoted(pid, tags, by);
        Ok(())
    }

    /// Changes a process where it stands, if it depends on at least so many guesses and nothing need be noted of a write that
    /// depends on just these. Answers whether; else nothing has changed. This takes no memory.
    pub fn go_on<C: Becoming>(&mut self, pid: Pid, least: usize, by: &C) -> bool
        requires { CanBecome (C.can by.now) (look_at self.old (Proc pid)) }
        ensures exact { result ≡ goes_on least (slot_in (map.get self.old (Proc pid))).log }
        ensures wrote { result ≡ true
            → self.new ≡ slots_wrote (last_tags [] (log_at self.old (Proc pid))) self.old
            (Proc pid) (Some (became (C.after by.now) (look_at self.old (Proc pid)))) }
        ensures rising { IsStrictlySortedBy nat_cmp (last_tags [] (log_at self.old (Proc pid))) }
        ensures same { result ≡ false → self.new ≡ self.old }
    {
        match self.slot_mut(&Entity::Proc(pid)) {
            Some(slot) => slot.go_on(least, by),
            None => unreachable!(),
        }
    }

    /// Takes the newest write back, which takes no memory.
    pub fn take_back(&mut self, entity: &Entity, how: TakeBack)
        requires { CanTakeBack self.old entity.now how }
        ensures { self.new ≡ slots_back self.old entity.now how }
    {
        match how {
            TakeBack::DropSlot => self.remove(entity),
            TakeBack::UndoLast(back) => match self.slot_mut(entity) {
                Some(slot) => slot.take_back(back),
                None => unreachable!(),
            },
        }
    }

    /// Takes back what depends on a guess at one entity, in place and without memory.
    pub fn unwind_at(&mut self, entity: &Entity, guess: GuessId)
        ensures { ChangedAt (SlotUnwound guess) self.old entity.now self.new }
    {
        let Some(slot) = self.slot_mut(entity) else {
            return;
        };
        slot.unwind(guess);
        if slot.is_bare() {
            self.remove(entity);
        }
    }

    /// Takes a guess out of the notes of one entity, without memory.
    fn commit_at(&mut self, entity: &Entity, guess: GuessId)
        ensures { ChangedAt (SlotCommitted guess) self.old entity.now self.new }
    {
        let Some(slot) = self.slot_mut(entity) else {
            return;
        };
        slot.commit(guess);
        if slot.is_bare() {
            self.remove(entity);
        }
    }

    /// Takes a guess out of all notes, at the entities of which a note depends on it, and leaves out those for
    /// which then an older one stands. It takes no memory.
    pub fn commit(&mut self, guess: GuessId, entities: &[Entity])
        requires listed { AreListed guess self.old entities.now }
        requires rest { AllRest self.old }
        requires grow { AllGrow self.old }
        ensures slots { Lightened self.old guess self.new }
        ensures bare { NoneBare self.old → NoneBare self.new }
        ensures kept { (e : Entity) → map.contains_key self.new e ≡ true
            → map.contains_key self.old e ≡ true }
    {
        for entity in entities {
            self.commit_at(entity, guess);
        }
    }
}
