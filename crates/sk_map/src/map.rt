//! A finite map.
ghost use Rattle.std.specs.Prelude.{◌≡◌, ◌↔◌, ◌<◌, ◌^◌, IsTrue, OnOk, OnErr, OnSome, None};
ghost use Rattle.std.specs.Option.{option_copied, option_copied_mut};
ghost use Rattle.std.specs.Borrow.{LendsSo, sem};
ghost use Rattle.std.specs.List.Sorted.{IsStrictlySortedBy};
ghost use Rattle.std.specs.Map.Iter.{ShowsInOrder, deref, deref_pair};
ghost use Rattle.std.specs.FinMap as map;
ghost use Rattle.sk_ids.specs.Same.{IsExact, same_map};
ghost use Rattle.sk_map.specs.Seen.{seen};
ghost use Rattle.sk_map.specs.contracts.map.Map.{the_row};

use crate::Key;
use std::alloc::{AllocError, Global};
use std::cmp::Ordering;
use std::collections::BTreeMap;
use std::collections::btree_map::{Iter, Keys, Values};
use std::marker::Model;

/// Values by keys. Contracts see the entries, and the finite map that they make (`seen`).
#[derive(Drop)]
pub struct Map<K: Ord, V> {
    alloc: Global,
    entries: BTreeMap<K, V>,
}

impl<K: Ord, V> Model for Map<K, V> {
    ghost use Rattle.std.specs.Prelude.{List};
    ghost use Rattle.std.specs.Coded.{coded_list, coded×};

    ghost Value = { List (K × V) };

    ghost coded = { coded_list (coded× K.code V.code) };

    ghost view = { λ a. a.entries.entries };
}

impl<K: Key, V: PartialEq> PartialEq for Map<K, V> {
    ghost use Rattle.std.specs.FinMap as map;
    ghost use Rattle.std.specs.Cmp.{on_per, and_per};
    ghost use Rattle.std.specs.Cmp.Lexicographic.{lists_per};
    ghost use Rattle.sk_ids.specs.Same.{same_map};
    ghost use Rattle.sk_map.specs.Seen.{seen};

    ghost eq = { λ m n. same_map K.eq V.eq (seen K.order m) (seen K.order n) };

    ghost laws = { on_per
        (λ m. map.entries (seen K.order m))
        (lists_per (and_per (on_per (λ p. p.0) K.PartialEq.laws) (on_per (λ p. p.1) V.laws))) };

    /// True exactly where the same keys have the same values, if the test of the values is exact.
    fn eq(&self, other: &Map<K, V>) -> bool
        ensures computed { result
            ≡ same_map K.eq V.eq (seen K.order self.now) (seen K.order other.now) }
        ensures exact { IsExact V.eq
            → (IsTrue result ↔ (seen K.order self.now ≡ seen K.order other.now)) }
    {
        let _rising = (self.entries.len(), other.entries.len());
        self.entries == other.entries
    }
}

impl<K: Key, V: Clone> Clone for Map<K, V> {
    ghost use Rattle.std.specs.List.{AllZip};

    ghost is_clone = { λ copy m. AllZip (λ p q. K.is_clone p.0 q.0 × V.is_clone p.1 q.1) copy m };

    fn clone(&self) -> Result<Map<K, V>, AllocError> {
        Ok(Map {
            alloc: self.alloc,
            entries: self.entries.clone()?,
        })
    }
}

impl<K: Key, V> Map<K, V> {
    /// The map in which every key is absent.
    pub fn new(alloc: Global) -> Map<K, V>
        ensures { seen K.order result ≡ map.empty }
    {
        Map {
            alloc,
            entries: BTreeMap::new(alloc),
        }
    }

    /// What it takes its memory from.
    pub fn alloc(&self) -> Global {
        self.alloc
    }

    /// The value of a key, `None` where it is absent. Many maps are empty, and are not searched.
    #[inline(always)]
    pub fn get(&self, key: &K) -> Option<&V>
        ensures { option_copied result ≡ map.get (seen K.order self.now) key.now }
    {
        if self.entries.is_empty() {
            return None;
        }
        self.entries.get(key)
    }

    /// As `get`, for a key that is mostly the first one, at which nothing is searched.
    #[inline(always)]
    pub fn get_first(&self, key: &K) -> Option<&V>
        ensures { option_copied result ≡ map.get (seen K.order self.now) key.now }
    {
        if let Some((first, value)) = self.entries.first_key_value() {
            if let Ordering::Equal = key.cmp(first) {
                return Some(value);
            }
        }
        self.entries.get(key)
    }

    /// As `get`, for a key that stands late: at the last one and behind it nothing is searched.
    pub fn get_late(&self, key: &K) -> Option<&V>
        ensures { option_copied result ≡ map.get (seen K.order self.now) key.now }
    {
        if let Some((last, value)) = self.entries.last_key_value() {
            match key.cmp(last) {
                Ordering::Greater => return None,
                Ordering::Equal => return Some(value),
                Ordering::Less => (),
            }
        }
        self.entries.get(key)
    }

    /// Lends the value of a key; what it then becomes is the value of the key.
    #[inline(always)]
    pub fn get_mut(&mut self, key: &K) -> Option<&mut V>
        ensures* writes_back { sem 𝓛 (LendsSo
            (the_row K.row V.row
            (record { cmp = K.cmp })
            (record { eq = K.eq })
            (record { partial_cmp = K.partial_cmp }))
            V.row self.entry result
            (λ n w. OnSome result (seen K.order n ≡ map.insert (seen K.order self.old) key.now w))
            (λ n. n ≡ self.old)) }
        ensures value { option_copied_mut result ≡ map.get (seen K.order self.old) key.now }
    {
        self.entries.get_mut(key)
    }

    /// Sets the value of a key. Only an absent one can want memory; then nothing has changed.
    pub fn put(&mut self, key: K, value: V) -> Result<(), AllocError>
    where
        V: Drop,
        ensures ok { OnOk result
            (seen K.order self.new ≡ map.insert (seen K.order self.old) key value) }
        ensures err { OnErr result (self.new ≡ self.old) }
        ensures absent { OnErr result (map.get (seen K.order self.old) key ≡ None) }
    {
        self.entries.insert(key, value)?;
        Ok(())
    }

    /// Makes a key absent, which takes no memory, and answers the value that it had.
    pub fn remove(&mut self, key: &K) -> Option<V>
        ensures old { result ≡ map.get (seen K.order self.old) key.now }
        ensures new { seen K.order self.new ≡ map.remove (seen K.order self.old) key.now }
    {
        self.entries.remove(key)
    }

    /// How many keys have a value.
    pub fn len(&self) -> usize
        ensures len { result ≡ map.len (seen K.order self.now) }
        ensures small { result < 2 ^ 63 }
    {
        self.entries.len()
    }

    /// The keys that have a value, by their order, each once.
    pub fn keys(&self) -> Keys<'_, K, V>
        ensures rest { result ≡ map.keys (seen K.order self.now) }
        ensures rising { IsStrictlySortedBy K.order result }
        ensures runs { ShowsInOrder (deref {X = K}) }
    {
        self.entries.keys()
    }

    /// The values, by the order of their keys.
    pub fn values(&self) -> Values<'_, K, V>
        ensures rest { result ≡ map.values (seen K.order self.now) }
        ensures runs { ShowsInOrder (deref {X = V}) }
    {
        self.entries.values()
    }

    /// The keys that have a value, with their values, by their order.
    pub fn iter(&self) -> Iter<'_, K, V>
        ensures rest { result ≡ map.entries (seen K.order self.now) }
        ensures runs { ShowsInOrder (deref_pair {K = K} {X = V}) }
    {
        self.entries.iter()
    }
}
