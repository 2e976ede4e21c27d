//! Values by keys, which are found by their hashes.
ghost use Rattle.std.specs.Prelude.{◌≡◌, OnOk, OnErr, OnSome, None, Some, length, slice_get, position, true};
ghost use Rattle.std.specs.Option.{option_copied, option_copied_mut};
ghost use Rattle.std.specs.Borrow.{LendsSo, sem};
ghost use Rattle.std.specs.Ordering.{eq_by_cmp};
ghost use Rattle.std.specs.List.{IsDistinct};
ghost use Rattle.std.specs.Map.{keys_of, values_of};
ghost use Rattle.std.specs.Map.Iter.{ShowsInOrder, deref};
ghost use Rattle.std.specs.FinMap as map;
ghost use Rattle.sk_map.specs.Seen.{seen};
ghost use Rattle.sk_slots.specs.contracts.table.Table.{the_row};

use indexmap::IndexMap;
use indexmap::map::Keys;
use sk_map::Key;
use std::alloc::{AllocError, Global};
use std::hash::Hash;
use std::marker::Model;

/// Values by keys. A key stands at its place until some key is removed. Contracts see the entries, and the finite map that they
/// make.
#[derive(Drop)]
pub(crate) struct Table<K: Eq + Hash, V> {
    alloc: Global,
    entries: IndexMap<K, V>,
}

impl<K: Eq + Hash, V> Model for Table<K, V> {
    ghost use Rattle.std.specs.Prelude.{List};
    ghost use Rattle.std.specs.Coded.{coded_list, coded×};

    ghost Value = { List (K × V) };

    ghost coded = { coded_list (coded× K.code V.code) };

    ghost view = { λ a. a.entries.entries };
}

impl<K: Key + Hash, V> Table<K, V> {
    /// The table in which every key is absent.
    pub(crate) fn new(alloc: Global) -> Table<K, V>
        ensures { seen K.order result ≡ map.empty }
    {
        Table {
            alloc,
            entries: IndexMap::new(alloc),
        }
    }

    /// What it takes its memory from.
    pub(crate) fn alloc(&self) -> Global {
        self.alloc
    }

    /// How many keys have a value.
    pub(crate) fn len(&self) -> usize
        ensures { result ≡ length self.now }
    {
        self.entries.len()
    }

    /// The value of a key, `None` where it is absent.
    pub(crate) fn get(&self, key: &K) -> Option<&V>
        ensures { option_copied result ≡ map.get (seen K.order self.now) key.now }
    {
        self.entries.get(key)
    }

    /// The place of a key.
    #[inline(always)]
    pub(crate) fn find(&self, key: &K) -> Option<usize>
        ensures { result ≡ position (eq_by_cmp K.order key.now) (keys_of self.now) }
    {
        self.entries.get_index_of(key)
    }

    /// Whether a key stands at a place.
    #[inline(always)]
    fn is_at(&self, place: usize, key: &K) -> bool
        ensures key { result ≡ true → slice_get (keys_of self.now) place ≡ Some key.now }
        ensures value { result ≡ true
            → slice_get (values_of self.now) place ≡ map.get (seen K.order self.now) key.now }
    {
        match self.entries.get_index(place) {
            Some((own, _)) => own == key,
            None => false,
        }
    }

    /// The value of a key, which is looked for at a place first.
    #[inline(always)]
    pub(crate) fn get_near(&self, place: usize, key: &K) -> Option<&V>
        ensures { option_copied result ≡ map.get (seen K.order self.now) key.now }
    {
        if let Some((own, value)) = self.entries.get_index(place) {
            if own == key {
                return Some(value);
            }
        }
        self.entries.get(key)
    }

    /// Lends the value of a key; what it then becomes is the value of the key.
    pub(crate) fn get_mut(&mut self, key: &K) -> Option<&mut V>
        ensures* writes_back { sem 𝓛 (LendsSo
            (the_row K.row V.row (record { eq = K.eq }) (record { hash_input = K.hash_input }))
            V.row self.entry result
            (λ n w. OnSome result (seen K.order n ≡ map.insert (seen K.order self.old) key.now w))
            (λ n. n ≡ self.old)) }
        ensures value { option_copied_mut result ≡ map.get (seen K.order self.old) key.now }
    {
        self.entries.get_mut(key)
    }

    /// As `get_mut`, for a key that is looked for at a place first.
    #[inline(always)]
    pub(crate) fn get_mut_near(&mut self, place: usize, key: &K) -> Option<&mut V>
        ensures* writes_back { sem 𝓛 (LendsSo
            (the_row K.row V.row (record { eq = K.eq }) (record { hash_input = K.hash_input }))
            V.row self.entry result
            (λ n w. OnSome result (seen K.order n ≡ map.insert (seen K.order self.old) key.now w))
            (λ n. n ≡ self.old)) }
        ensures value { option_copied_mut result ≡ map.get (seen K.order self.old) key.now }
    {
        if self.is_at(place, key) {
            return self.entries.get_index_mut(place);
        }
        self.entries.get_mut(key)
    }

    /// Sets the value of a key. Only an absent one can want memory; then nothing has changed.
    pub(crate) fn put(&mut self, key: K, value: V) -> Result<(), AllocError>
    where
        V: Drop,
        ensures ok { OnOk result
            (seen K.order self.new ≡ map.insert (seen K.order self.old) key value) }
        ensures err { OnErr result (self.new ≡ self.old) }
        ensures absent { OnErr result (map.get (seen K.order self.old) key ≡ None) }
    {
        self.entries.insert(key, value)?;
        Ok(())
    }

    /// Makes a key absent, which takes no memory, and answers the value that it had.
    pub(crate) fn remove(&mut self, key: &K) -> Option<V>
        ensures old { result ≡ map.get (seen K.order self.old) key.now }
        ensures new { seen K.order self.new ≡ map.remove (seen K.order self.old) key.now }
    {
        self.entries.swap_remove(key)
    }

    /// The keys that have a value, each once.
    pub(crate) fn keys(&self) -> Keys<'_, K, V>
        ensures rest { result ≡ keys_of self.now }
        ensures once { IsDistinct (eq_by_cmp K.order) result }
        ensures runs { ShowsInOrder (deref {X = K}) }
    {
        self.entries.keys()
    }
}
