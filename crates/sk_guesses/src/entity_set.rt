//! Sets of keys.
ghost use Rattle.std.specs.Prelude.{◌≡◌, ◌<◌, ◌≤◌, ◌+◌, ◌++◌, ◌∷◌, [], true, length, OnOk, OnErr, IsOk, vec_capacity};
ghost use Rattle.sk_guesses.specs.Base.{insert, IsStrictlySortedBy, IsSearchInRange, IsBinarySearchResult};
ghost use Rattle.sk_guesses.specs.EntitySet.{with_entity, with_entities, without_entity};

use sk_map::Key;
use std::alloc::{AllocError, Global};
use std::cmp::Ordering;
use std::marker::Model;
use std::mem;

/// Entities by rising order, each once.
#[derive(Drop)]
pub struct EntitySet<E: Key> {
    entities: Vec<E>,
}

impl<E: Key> Model for EntitySet<E> {
    ghost use Rattle.std.specs.Prelude.{◌-◌, vec_len, vec_capacity};
    ghost use Rattle.std.specs.List.Sorted.{IsStrictlySortedBy};
    ghost use Rattle.sk_guesses.specs.EntitySet.{SetView};

    ghost Value = { SetView E };

    ghost view = { λ s. record
        { entities = s.entities.items; room = vec_capacity s.entities - vec_len s.entities } };

    ghost invariant = { λ s. IsStrictlySortedBy E.order s.entities.items };
}

/// Where an entity is, or where it would stand. Behind all others it is found at once, as most new ones are.
fn find<E: Key>(entities: &[E], entity: &E) -> Result<usize, usize>
    ensures bound { IsSearchInRange result (length entities.now) }
    ensures position { IsBinarySearchResult (λ y. E.order y entity.now) entities.now result }
{
    if let Some(last) = entities.last() {
        if let Ordering::Less = last.cmp(entity) {
            return Err(entities.len());
        }
    }
    entities.binary_search(entity)
}

/// Puts an entity at a place, for which there is room. Mostly that is behind all others.
#[inline(always)]
fn put_at<E: Key>(entities: &mut Vec<E>, place: usize, entity: &E)
    requires place { place ≤ length entities.old.items }
    requires room { length entities.old.items < vec_capacity entities.old }
    ensures items { entities.new.items ≡ insert entities.old.items place entity.now }
    ensures capacity { vec_capacity entities.new ≡ vec_capacity entities.old }
{
    if place == entities.len() {
        entities.push_reserved(*entity);
        return;
    }
    let Ok(()) = entities.insert(place, *entity) else {
        unreachable!();
    };
}

/// Adds entities behind those of a list, in which there is room for them.
fn extend<E: Key>(list: &mut Vec<E>, entities: &[E])
    requires { length list.old.items + length entities.now ≤ vec_capacity list.old }
    ensures items { list.new.items ≡ list.old.items ++ entities.now }
    ensures capacity { vec_capacity list.old ≤ vec_capacity list.new }
{
    let Ok(()) = list.extend_from_slice(entities) else {
        unreachable!();
    };
}

/// No more entities than these are added in the order in which a step writes them.
pub(crate) const FEW: usize = 8;

/// So many entities are copied at once. A longer run is copied byte by byte.
const PART: usize = 56;

/// Adds entities behind those of a list, as `extend` does, part by part.
fn extend_by_parts<E: Key>(list: &mut Vec<E>, entities: &[E])
    requires { length list.old.items + length entities.now ≤ vec_capacity list.old }
    ensures items { list.new.items ≡ list.old.items ++ entities.now }
    ensures capacity { vec_capacity list.old ≤ vec_capacity list.new }
{
    let mut left = entities;
    while left.len() > PART {
        let (part, behind) = left.split_at(PART);
        extend(list, part);
        left = behind;
    }
    extend(list, left);
}

/// Fills an empty list, in which there is room, with an entity between others.
fn fill_around<E: Key>(list: &mut Vec<E>, before: &[E], entity: &E, behind: &[E])
    requires empty { list.old.items ≡ [] }
    requires room { length before.now + 1 + length behind.now ≤ vec_capacity list.old }
    ensures { list.new.items ≡ before.now ++ entity.now ∷ behind.now }
{
    extend_by_parts(list, before);
    list.push_reserved(*entity);
    extend_by_parts(list, behind);
}

/// Whether more than half of a list stand behind a place, and not just a few. Then all are copied more quickly than these
/// move up one by one.
fn is_far(place: usize, count: usize) -> bool {
    place < count / 2 && count > PART
}

/// Puts an entity at a place, for which there is room. Where many stand behind it, all are copied into an empty list, if
/// that has room, and the two lists change places.
fn put_over<E: Key>(entities: &mut Vec<E>, spare: &mut Vec<E>, place: usize, entity: &E)
    requires place { place ≤ length entities.old.items }
    requires room { length entities.old.items < vec_capacity entities.old }
    requires empty { spare.old.items ≡ [] }
    ensures items { entities.new.items ≡ insert entities.old.items place entity.now }
    ensures empty { spare.new.items ≡ [] }
{
    let count = entities.len();
    if count >= spare.capacity() || !is_far(place, count) {
        put_at(entities, place, entity);
        return;
    }
    let (before, behind) = entities.as_slice().split_at(place);
    fill_around(spare, before, entity, behind);
    entities.clear();
    mem::swap(entities, spare);
}

/// Whether two lists have the same entities.
fn are_same<E: Key>(entities: &[E], others: &[E]) -> bool
    ensures { result ≡ true → entities.now ≡ others.now }
{
    if entities.len() != others.len() {
        return false;
    }
    for place in 0..entities.len() {
        if entities[place].cmp(&others[place]) != Ordering::Equal {
            return false;
        }
    }
    true
}

impl<E: Key> EntitySet<E> {
    /// No entity.
    pub fn new(alloc: Global) -> EntitySet<E>
        ensures { result.entities ≡ [] }
    {
        EntitySet {
            entities: Vec::new(alloc),
        }
    }

    /// The entities by rising order, each once.
    pub fn as_slice(&self) -> &[E]
        ensures entities { result.now ≡ self.now.entities }
        ensures rising { IsStrictlySortedBy E.order result.now }
    {
        self.entities.as_slice()
    }

    /// Whether the set has just these entities.
    pub(crate) fn is_just(&self, entities: &[E]) -> bool
        ensures { result ≡ true → self.now.entities ≡ entities.now }
    {
        are_same(self.entities.as_slice(), entities)
    }

    /// For how many entities there is memory.
    pub(crate) fn places(&self) -> usize
        ensures { result ≡ length self.now.entities + self.now.room }
    {
        self.entities.capacity()
    }

    /// Makes room for so many, where there is none; what the room has is not moved.
    pub(crate) fn replace_room(&mut self, places: usize) -> Result<(), AllocError>
        requires { self.old.entities ≡ [] }
        ensures entities { self.new.entities ≡ [] }
        ensures ok { OnOk result (places ≤ self.new.room) }
        ensures err { OnErr result (self.new.room ≡ self.old.room) }
    {
        self.entities = Vec::with_capacity(*self.entities.allocator(), places)?;
        Ok(())
    }

    /// Lets all go; their room stays.
    pub(crate) fn clear(&mut self)
        ensures entities { self.new.entities ≡ [] }
        ensures room { self.new.room ≡ length self.old.entities + self.old.room }
    {
        self.entities.clear();
    }

    /// Fills an empty set with these entities, for which there is room.
    pub(crate) fn fill(&mut self, entities: &[E])
        requires empty { self.old.entities ≡ [] }
        requires rising { IsStrictlySortedBy E.order entities.now }
        requires room { length entities.now ≤ self.old.room }
        ensures { self.new.entities ≡ entities.now }
    {
        extend_by_parts(&mut self.entities, entities);
    }

    /// Makes room for so many more.
    pub fn reserve(&mut self, more: usize) -> Result<(), AllocError>
        ensures entities { self.new.entities ≡ self.old.entities }
        ensures ok { OnOk result (more ≤ self.new.room) }
        ensures room { more ≤ self.old.room → IsOk result }
    {
        self.entities.reserve(more)
    }

    /// Adds an entity, which may be there, into room that is there.
    pub fn add(&mut self, entity: &E)
        requires { 0 < self.old.room }
        ensures entities { self.new.entities ≡ with_entity E.order self.old.entities entity.now }
        ensures room { self.old.room ≤ self.new.room + 1 }
    {
        if let Err(place) = find(self.entities.as_slice(), entity) {
            put_at(&mut self.entities, place, entity);
        }
    }

    /// As `add`; but this list and an empty one may change places.
    pub(crate) fn add_over(&mut self, entity: &E, spare: &mut EntitySet<E>)
        requires room { 0 < self.old.room }
        requires empty { spare.old.entities ≡ [] }
        ensures entities { self.new.entities ≡ with_entity E.order self.old.entities entity.now }
        ensures empty { spare.new.entities ≡ [] }
    {
        if let Err(place) = find(self.entities.as_slice(), entity) {
            put_over(&mut self.entities, &mut spare.entities, place, entity);
        }
    }

    /// Adds entities, each of which may be there, into room that is there.
    pub fn add_all(&mut self, entities: &[E])
        requires { length entities.now ≤ self.old.room }
        ensures { self.new.entities ≡ with_entities E.order self.old.entities entities.now }
    {
        for entity in entities {
            self.add(entity);
        }
    }

    /// Takes an entity out, which need not be there.
    pub fn remove(&mut self, entity: &E)
        ensures { self.new.entities ≡ without_entity E.order self.old.entities entity.now }
    {
        if let Ok(place) = find(self.entities.as_slice(), entity) {
            self.entities.remove(place);
        }
    }

    /// The set of these, in any order, each of which may be there more than once. It takes their room.
    pub(crate) fn of(entities: Vec<E>) -> EntitySet<E>
        ensures { result.entities ≡ with_entities E.order [] entities.items }
    {
        let mut entities = entities;
        entities.sort_unstable();
        entities.dedup();
        EntitySet { entities }
    }

    /// The set of these, in the room of an empty one. Many are sorted where they stand.
    pub(crate) fn set_of(self, entities: &[E]) -> EntitySet<E>
        requires empty { self.entities ≡ [] }
        requires room { length entities.now ≤ self.room }
        ensures { result.entities ≡ with_entities E.order [] entities.now }
    {
        if entities.len() <= FEW {
            let mut few = self;
            few.add_all(entities);
            return few;
        }
        let mut list = self.into_vec();
        extend_by_parts(&mut list, entities);
        EntitySet::of(list)
    }

    /// The entities as a list.
    pub fn into_vec(self) -> Vec<E>
        ensures items { result.items ≡ self.entities }
        ensures room { vec_capacity result ≡ length self.entities + self.room }
        ensures rising { IsStrictlySortedBy E.order result.items }
    {
        self.entities
    }
}
