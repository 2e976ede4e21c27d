//! Values under small keys, in an order that is kept beside them.
ghost use Rattle.std.specs.Prelude.{◌≡◌, ◌<◌, ◌≤◌, ◌+◌, ◌∷◌, ◌++◌, [], length, slice_index_or, slice_set, OnOk, IsOk, vec_capacity};
ghost use Rattle.sk_guesses.specs.Base.{remove, Lends, sem};
ghost use Rattle.sk_guesses.specs.contracts.row.Row.{the_row};

use slab::Slab;
use std::alloc::{AllocError, Global};
use std::marker::Model;

/// Values in a slab, and the order of their keys. A key is given anew only once its value is gone.
#[derive(Drop)]
pub(crate) struct Row<T> {
    values: Slab<T>,
    keys: Vec<usize>,
}

impl<T> Model for Row<T> {
    ghost use Rattle.std.specs.Prelude.{min, vec_capacity};
    ghost use Rattle.sk_guesses.specs.Row.{InOrder, in_order, AreKeys};

    ghost Value = { InOrder T };

    ghost view = { λ r. record {
      items = in_order r.values.slots r.keys.items;
      places = min r.values.capacity (vec_capacity r.keys);
    } };

    ghost invariant = { λ r. AreKeys r.values r.keys.items };
}

/// Takes the key at a place out. Mostly it is the last.
#[tactic(auto, using(std::proofs::lemmas::List::drop_all))]
fn take_key(keys: &mut Vec<usize>, place: usize) -> usize
    requires { place < length keys.old.items }
    ensures value { result ≡ slice_index_or keys.old.items place result }
    ensures items { keys.new.items ≡ remove keys.old.items place }
    ensures len { length keys.new.items + 1 ≡ length keys.old.items }
    ensures capacity { vec_capacity keys.new ≡ vec_capacity keys.old }
{
    if place + 1 < keys.len() {
        return keys.remove(place);
    }
    match keys.pop() {
        Some(key) => key,
        None => unreachable!(),
    }
}

impl<T> Row<T> {
    pub(crate) fn new(alloc: Global) -> Row<T>
        ensures { result.items ≡ [] }
    {
        Row {
            values: Slab::new(alloc),
            keys: Vec::new(alloc),
        }
    }

    pub(crate) fn len(&self) -> usize
        ensures { result ≡ length self.now.items }
    {
        self.keys.len()
    }

    pub(crate) fn at(&self, place: usize) -> &T
        requires { place < length self.now.items }
        ensures { result.now ≡ slice_index_or self.now.items place result.now }
    {
        &self.values[self.keys[place]]
    }

    /// Lends the value at a place; what it then becomes stands there.
    pub(crate) fn at_mut(&mut self, place: usize) -> &mut T
        requires { place < length self.old.items }
        ensures* writes_back { sem 𝓛 (Lends (the_row T.row) T.row self.entry result
            (λ x. record self.old { items = slice_set self.old.items place x })) }
        ensures value { result.now ≡ slice_index_or self.old.items place result.now }
    {
        &mut self.values[self.keys[place]]
    }

    /// Makes room for so many more.
    pub(crate) fn reserve(&mut self, more: usize) -> Result<(), AllocError>
        ensures items { self.new.items ≡ self.old.items }
        ensures ok { OnOk result (length self.new.items + more ≤ self.new.places) }
        ensures room { length self.old.items + more ≤ self.old.places → IsOk result }
    {
        self.values.reserve(more)?;
        self.keys.reserve(more)
    }

    /// Puts a value behind the others, for which there is room.
    pub(crate) fn push_reserved(&mut self, value: T)
        requires { length self.old.items < self.old.places }
        ensures items { self.new.items ≡ self.old.items ++ value ∷ [] }
        ensures places { self.new.places ≡ self.old.places }
    {
        let key = self.values.insert_reserved(value);
        self.keys.push_reserved(key);
    }

    /// Takes the value at a place out; those behind it move up.
    #[inline(always)]
    pub(crate) fn remove(&mut self, place: usize) -> T
        requires { place < length self.old.items }
        ensures value { result ≡ slice_index_or self.old.items place result }
        ensures items { self.new.items ≡ remove self.old.items place }
        ensures places { self.new.places ≡ self.old.places }
    {
        let key = take_key(&mut self.keys, place);
        self.values.remove(key)
    }
}
