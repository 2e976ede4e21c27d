//! The places of byte strings, by their hashes.
ghost use Rattle.std.specs.Prelude.{◌≡◌, ℕ, true, OnOk};
ghost use Rattle.sk_index.specs.Inside.{first_under, is_place, is_under};

use std::alloc::AllocError;
use std::collections::{BTreeSet, HashMap};

/// A place for each hash, and in a set the further places of hashes that have several.
#[derive(Drop)]
pub(crate) struct Places {
    pub(crate) firsts: HashMap<u64, usize>,
    pub(crate) others: BTreeSet<(u64, usize)>,
}

impl Places {
    /// The place of a hash that is found first.
    pub(crate) fn first(&self, hash: u64) -> Option<usize>
        ensures { result ≡ first_under self.now.firsts hash }
    {
        match self.firsts.get(&hash) {
            Some(place) => Some(*place),
            None => None,
        }
    }

    /// Whether a place is the one of its hash that is found first.
    fn is_first(&self, hash: u64, place: usize) -> bool
        ensures { result ≡ is_place (first_under self.now.firsts hash) place }
    {
        match self.first(hash) {
            Some(first) => first == place,
            None => false,
        }
    }

    /// A place comes under a hash.
    pub(crate) fn insert(&mut self, hash: u64, place: usize) -> Result<(), AllocError>
        ensures there { OnOk result (is_under self.new.firsts self.new.others (hash, place) ≡ true) }
        ensures kept { (q : ℕ × ℕ) → is_under self.old.firsts self.old.others q ≡ true
            → is_under self.new.firsts self.new.others q ≡ true }
    {
        if self.first(hash).is_some() {
            self.others.insert((hash, place))?;
            return Ok(());
        }
        self.firsts.insert(hash, place)?;
        Ok(())
    }

    /// A place goes from under a hash. This takes no memory.
    pub(crate) fn remove(&mut self, hash: u64, place: usize)
        ensures { (q : ℕ × ℕ) → (q ≡ (hash, place) → ⊥)
            → is_under self.old.firsts self.old.others q ≡ true
            → is_under self.new.firsts self.new.others q ≡ true }
    {
        if self.is_first(hash, place) {
            self.firsts.remove(&hash);
        } else {
            self.others.remove(&(hash, place));
        }
    }
}
