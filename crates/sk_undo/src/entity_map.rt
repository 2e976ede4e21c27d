//! A finite map by entities.
ghost use Rattle.std.specs.Prelude.{◌≡◌, ◌<◌, ◌^◌, ◌++◌, [], OnOk, OnErr, OnSome, IfOk, Some};
ghost use Rattle.sk_undo.specs.Base.{option_copied, option_copied_mut, LendsSo, sem, IsStrictlySortedBy, nat_cmp};
ghost use Rattle.sk_undo.specs.Base.{entity_cmp, object_cmp, Proc, Sig, Exit, Obj, Copy, seen, FitsAt, changed};
ghost use Rattle.sk_undo.specs.Base.{CanBecome, IsReadable, became, process_in, name_order};
ghost use Rattle.std.specs.FinMap as map;
ghost use Rattle.sk_changes.specs.declared.change.Change.TheVariants as changes;
ghost use Rattle.sk_undo.specs.Kinds.{joined, link_cmp, link_of, lifted, HasAtMost};
ghost use Rattle.sk_undo.specs.Logs.{look_at, slot_in, slots_wrote};
ghost use Rattle.sk_undo.specs.Slot.{SlotView};
ghost use Rattle.sk_undo.specs.contracts.entity_map.EntityMap.{the_row};

use crate::Slot;
use crate::keys::{LinkKey, ObjectKey, ProcessKey};
use sk_ids::{Entity, Name, ObjId, Pid, TagSet};
use sk_map::{Key, Map};
use sk_store::{Becoming, BecomingBy, EntityState, Seeing};
use std::alloc::{AllocError, Global};
use std::collections::btree_map::{Iter, Values};
use std::marker::Model;

/// Values by entities: a map for each kind. Contracts see one finite map.
#[derive(Drop)]
pub(crate) struct EntityMap<V> {
    processes: Map<ProcessKey, V>,
    signals: Map<ProcessKey, V>,
    exits: Map<ProcessKey, V>,
    objects: Map<ObjectKey, V>,
    links: Map<LinkKey, V>,
    copies: Map<Name, V>,
}

impl<V> Model for EntityMap<V> {
    ghost use Rattle.std.specs.Ordering.{nat_cmp};
    ghost use Rattle.std.specs.FinMap as map;
    ghost use Rattle.sk_ids.specs.Entity.{entity_cmp, object_cmp};
    ghost use Rattle.sk_ids.specs.Name.{name_order};
    ghost use Rattle.sk_ids.specs.contracts.entity.Entity as shown;
    ghost use Rattle.sk_map.specs.Seen.{seen};
    ghost use Rattle.sk_undo.specs.Kinds.{joined, link_cmp};

    ghost Value = { map.FinMap entity_cmp V };

    ghost coded = { map.code shown.the_row.coded V.code };

    ghost view = { λ a. joined (seen nat_cmp a.processes) (seen nat_cmp a.signals)
        (seen nat_cmp a.exits) (seen object_cmp a.objects) (seen link_cmp a.links)
        (seen name_order a.copies) };
}

/// The values of a map, kind by kind.
#[derive(Drop)]
pub(crate) struct ValuesByKind<'a, V> {
    pub(crate) processes: Values<'a, ProcessKey, V>,
    pub(crate) signals: Values<'a, ProcessKey, V>,
    pub(crate) exits: Values<'a, ProcessKey, V>,
    pub(crate) objects: Values<'a, ObjectKey, V>,
    pub(crate) links: Values<'a, LinkKey, V>,
    pub(crate) copies: Values<'a, Name, V>,
}

/// The entries of a map, kind by kind.
#[derive(Drop)]
pub(crate) struct EntriesByKind<'a, V> {
    pub(crate) processes: Iter<'a, ProcessKey, V>,
    pub(crate) signals: Iter<'a, ProcessKey, V>,
    pub(crate) exits: Iter<'a, ProcessKey, V>,
    pub(crate) objects: Iter<'a, ObjectKey, V>,
    pub(crate) links: Iter<'a, LinkKey, V>,
    pub(crate) copies: Iter<'a, Name, V>,
}

#[inline(always)]
fn process(pid: Pid) -> ProcessKey
    ensures { result ≡ pid }
{
    ProcessKey { pid }
}

#[inline(always)]
fn object(id: &ObjId) -> ObjectKey
    ensures { result ≡ id.now }
{
    ObjectKey { id: *id }
}

#[inline(always)]
fn link(directory: &ObjId, name: &Name) -> LinkKey
    ensures { result ≡ record { directory = directory.now; name = name.now } }
{
    LinkKey {
        directory: object(directory),
        name: *name,
    }
}

/// The value of a key in the map of a kind. It stands by itself, so that where the kind is known just this is called.
#[inline(never)]
fn found<'a, K: Key, V>(values: &'a Map<K, V>, key: &K) -> Option<&'a V>
    ensures { option_copied result ≡ map.get (seen K.order values.now) key.now }
{
    values.get(key)
}

/// What a process has in the map of processes, signals or exit slots. Each step looks its process and its signals up, so this
/// is inlined.
#[inline(always)]
fn own<'a, V>(values: &'a Map<ProcessKey, V>, pid: Pid) -> Option<&'a V>
    ensures { option_copied result ≡ map.get (seen nat_cmp values.now) pid }
{
    values.get(&process(pid))
}

/// As `found`, for a key that stands late.
#[inline(never)]
fn found_late<'a, K: Key, V>(values: &'a Map<K, V>, key: &K) -> Option<&'a V>
    ensures { option_copied result ≡ map.get (seen K.order values.now) key.now }
{
    values.get_late(key)
}

/// Sets the value of a key. It stands by itself, so that what is put pays for the map of its kind alone.
#[inline(never)]
fn put<K: Key, V: Drop>(values: &mut Map<K, V>, key: K, value: V) -> Result<(), AllocError>
    ensures ok { OnOk result
        (seen K.order values.new ≡ map.insert (seen K.order values.old) key value) }
    ensures err { OnErr result (values.new ≡ values.old) }
{
    values.put(key, value)
}

/// Makes a key absent. It stands by itself for the same reason.
#[inline(never)]
fn remove<K: Key, V: Drop>(values: &mut Map<K, V>, key: &K)
    ensures { seen K.order values.new ≡ map.remove (seen K.order values.old) key.now }
{
    let _gone = values.remove(key);
}

impl<V> EntityMap<V> {
    /// The map in which every entity is absent.
    pub(crate) fn new(alloc: Global) -> EntityMap<V>
        ensures { result ≡ map.empty }
    {
        EntityMap {
            processes: Map::new(alloc),
            signals: Map::new(alloc),
            exits: Map::new(alloc),
            objects: Map::new(alloc),
            links: Map::new(alloc),
            copies: Map::new(alloc),
        }
    }

    /// What it takes its memory from.
    pub(crate) fn alloc(&self) -> Global {
        self.processes.alloc()
    }

    /// The value of an entity, `None` where it is absent.
    #[inline(always)]
    pub(crate) fn get(&self, entity: &Entity) -> Option<&V>
        ensures { option_copied result ≡ map.get self.now entity.now }
    {
        match entity {
            Entity::Proc(pid) => own(&self.processes, *pid),
            Entity::Sig(pid) => own(&self.signals, *pid),
            Entity::Exit(pid) => own(&self.exits, *pid),
            Entity::Obj(id) => found(&self.objects, &object(id)),
            Entity::Link(directory, name) => found(&self.links, &link(directory, name)),
            Entity::Copy(name) => found(&self.copies, name),
        }
    }

    /// As `get`, for an entity that is about to be born, or just was: it mostly stands behind all others of its kind.
    #[inline(always)]
    pub(crate) fn get_late(&self, entity: &Entity) -> Option<&V>
        ensures { option_copied result ≡ map.get self.now entity.now }
    {
        match entity {
            Entity::Proc(pid) => found_late(&self.processes, &process(*pid)),
            Entity::Sig(pid) => found_late(&self.signals, &process(*pid)),
            Entity::Exit(pid) => found_late(&self.exits, &process(*pid)),
            Entity::Obj(id) => found_late(&self.objects, &object(id)),
            Entity::Link(directory, name) => found(&self.links, &link(directory, name)),
            Entity::Copy(name) => found(&self.copies, name),
        }
    }

    /// Lends the value of an entity; what it then becomes is the value of the entity.
    #[inline(always)]
    pub(crate) fn get_mut(&mut self, entity: &Entity) -> Option<&mut V>
        ensures* writes_back { sem 𝓛 (LendsSo (the_row V.row) V.row self.entry result
            (λ n w. OnSome result (n ≡ map.insert self.old entity.now w)) (λ n. n ≡ self.old)) }
        ensures value { option_copied_mut result ≡ map.get self.old entity.now }
    {
        match entity {
            Entity::Proc(pid) => self.processes.get_mut(&process(*pid)),
            Entity::Sig(pid) => self.signals.get_mut(&process(*pid)),
            Entity::Exit(pid) => self.exits.get_mut(&process(*pid)),
            Entity::Obj(id) => self.objects.get_mut(&object(id)),
            Entity::Link(directory, name) => self.links.get_mut(&link(directory, name)),
            Entity::Copy(name) => self.copies.get_mut(name),
        }
    }

    /// Sets the value of an entity. Without memory nothing has changed.
    #[inline(always)]
    pub(crate) fn put(&mut self, entity: &Entity, value: V) -> Result<(), AllocError>
    where
        V: Drop,
        ensures ok { OnOk result (self.new ≡ map.insert self.old entity.now value) }
        ensures err { OnErr result (self.new ≡ self.old) }
    {
        match entity {
            Entity::Proc(pid) => put(&mut self.processes, process(*pid), value),
            Entity::Sig(pid) => put(&mut self.signals, process(*pid), value),
            Entity::Exit(pid) => put(&mut self.exits, process(*pid), value),
            Entity::Obj(id) => put(&mut self.objects, object(id), value),
            Entity::Link(directory, name) => put(&mut self.links, link(directory, name), value),
            Entity::Copy(name) => put(&mut self.copies, *name, value),
        }
    }

    /// Makes an entity absent, which takes no memory.
    #[inline(always)]
    pub(crate) fn remove(&mut self, entity: &Entity)
    where
        V: Drop,
        ensures { self.new ≡ map.remove self.old entity.now }
    {
        match entity {
            Entity::Proc(pid) => remove(&mut self.processes, &process(*pid)),
            Entity::Sig(pid) => remove(&mut self.signals, &process(*pid)),
            Entity::Exit(pid) => remove(&mut self.exits, &process(*pid)),
            Entity::Obj(id) => remove(&mut self.objects, &object(id)),
            Entity::Link(directory, name) => remove(&mut self.links, &link(directory, name)),
            Entity::Copy(name) => remove(&mut self.copies, name),
        }
    }

    /// A number that no directory has more names with a value than.
    #[inline]
    pub(crate) fn most_names(&self) -> usize
        ensures most { HasAtMost self.now result }
        ensures small { result < 2 ^ 63 }
    {
        self.links.len()
    }

    /// How many entities have a value, or the largest number where there are more.
    pub(crate) fn len(&self) -> usize {
        let own = self.processes.len().saturating_add(self.signals.len());
        let left = own.saturating_add(self.exits.len());
        let objects = left.saturating_add(self.objects.len());
        let links = objects.saturating_add(self.links.len());
        links.saturating_add(self.copies.len())
    }

    /// Lists the entities that have a value, by their order, each once.
    fn list(&self, all: &mut Vec<Entity>) -> Result<(), AllocError>
        requires { all.old.items ≡ [] }
        ensures { OnOk result (all.new.items ≡ map.keys self.now) }
    {
        for process in self.processes.keys() {
            all.push(Entity::Proc(process.pid))?;
        }
        for signals in self.signals.keys() {
            all.push(Entity::Sig(signals.pid))?;
        }
        for exit in self.exits.keys() {
            all.push(Entity::Exit(exit.pid))?;
        }
        for object in self.objects.keys() {
            all.push(Entity::Obj(object.id))?;
        }
        for link in self.links.keys() {
            all.push(Entity::Link(link.directory.id, link.name))?;
        }
        for copy in self.copies.keys() {
            all.push(Entity::Copy(*copy))?;
        }
        Ok(())
    }

    /// The entities that have a value, by their order, each once.
    pub(crate) fn entities(&self) -> Result<Vec<Entity>, AllocError>
        ensures rest { IfOk result (λ all. all.items ≡ map.keys self.now) }
        ensures rising { IfOk result (λ all. IsStrictlySortedBy entity_cmp all.items) }
    {
        let mut all = Vec::with_capacity(self.alloc(), self.len())?;
        self.list(&mut all)?;
        Ok(all)
    }

    /// The values, by the order of their entities.
    pub(crate) fn values(&self) -> ValuesByKind<'_, V>
        ensures { result.processes ++ (result.signals ++ (result.exits ++ (result.objects
            ++ (result.links ++ result.copies)))) ≡ map.values self.now }
    {
        ValuesByKind {
            processes: self.processes.values(),
            signals: self.signals.values(),
            exits: self.exits.values(),
            objects: self.objects.values(),
            links: self.links.values(),
            copies: self.copies.values(),
        }
    }

    /// The entities that have a value, with their values, by their order.
    pub(crate) fn iter(&self) -> EntriesByKind<'_, V>
        ensures { lifted Proc result.processes ++ (lifted Sig result.signals
            ++ (lifted Exit result.exits ++ (lifted Obj result.objects
            ++ (lifted link_of result.links ++ lifted Copy result.copies)))) ≡ map.entries self.now }
    {
        EntriesByKind {
            processes: self.processes.iter(),
            signals: self.signals.iter(),
            exits: self.exits.iter(),
            objects: self.objects.iter(),
            links: self.links.iter(),
            copies: self.copies.iter(),
        }
    }
}

/// What the entity of a key has.
#[inline(always)]
fn held<'a, K: Key>(slots: &'a Map<K, Slot>, key: &K) -> Option<&'a EntityState>
    ensures { option_copied result ≡ (slot_in (map.get (seen K.order slots.now) key.now)).now }
{
    match slots.get(key) {
        Some(slot) => slot.value(),
        None => None,
    }
}

/// What an object or a copy has, whatever stands at the other kinds.
#[inline(always)]
fn readable<'a>(
    objects: &'a Map<ObjectKey, Slot>,
    copies: &'a Map<Name, Slot>,
    entity: &Entity,
) -> Option<&'a EntityState>
    requires { IsReadable entity.now }
    ensures { (ps ss xs : map.FinMap nat_cmp SlotView) (ls : map.FinMap link_cmp SlotView)
        → option_copied result ≡ look_at (joined ps ss xs (seen object_cmp objects.now) ls
        (seen name_order copies.now)) entity.now }
{
    match entity {
        Entity::Obj(id) => held(objects, &object(id)),
        Entity::Copy(name) => held(copies, name),
        _ => unreachable!(),
    }
}

/// Changes a process where it stands by what an object or a copy has. Without memory nothing has changed.
#[inline(always)]
pub(crate) fn change_by<C: BecomingBy>(
    slots: &mut EntityMap<Slot>,
    pid: Pid,
    entity: &Entity,
    tags: &TagSet,
    by: &C,
) -> Result<(), AllocError>
    requires readable { IsReadable entity.now }
    requires can { CanBecome (C.can by.now (look_at slots.old entity.now))
        (look_at slots.old (Proc pid)) }
    ensures ok { OnOk result
        (slots.new ≡ slots_wrote tags.now slots.old (Proc pid)
        (Some (became (C.after by.now (look_at slots.old entity.now))
        (look_at slots.old (Proc pid))))) }
    ensures err { OnErr result (slots.new ≡ slots.old) }
{
    let alloc = slots.alloc();
    let there = readable(&slots.objects, &slots.copies, entity);
    match slots.processes.get_mut(&process(pid)) {
        Some(slot) => slot.change_process(alloc, tags, &Seeing { by, there }),
        None => unreachable!(),
    }
}

/// Writes the buffer of a process at a place of a file, and then changes the process. Without memory nothing has
/// changed.
#[inline(always)]
pub(crate) fn write_buffer<C: Becoming>(
    slots: &mut EntityMap<Slot>,
    id: &ObjId,
    at: u32,
    pid: Pid,
    tags: &TagSet,
    by: &C,
) -> Result<(), AllocError>
    requires fits { FitsAt (look_at slots.old (Obj id.now))
        (changes.WriteAt at (process_in (look_at slots.old (Proc pid))).buffer) }
    requires can { CanBecome (C.can by.now) (look_at slots.old (Proc pid)) }
    ensures ok { OnOk result
        (slots.new ≡ slots_wrote tags.now
        (slots_wrote tags.now slots.old (Obj id.now)
        (Some (changed (look_at slots.old (Obj id.now))
        (changes.WriteAt at (process_in (look_at slots.old (Proc pid))).buffer)))) (Proc pid)
        (Some (became (C.after by.now) (look_at slots.old (Proc pid))))) }
    ensures err { OnErr result (slots.new ≡ slots.old) }
{
    match slots.processes.get_mut(&process(pid)) {
        Some(slot) => match slots.objects.get_mut(&object(id)) {
            Some(file) => slot.write_buffer(file, tags, at, by),
            None => unreachable!(),
        },
        None => unreachable!(),
    }
}
