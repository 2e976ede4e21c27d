//! Byte strings by their numbers, and back.
ghost use Rattle.std.specs.Prelude.{◌≡◌, ◌≤◌, ℕ, true, false, [], None, Some, IfOk, IfSome, OnErr, OnSome, length};
ghost use Rattle.std.specs.Option.{option_map};
ghost use Rattle.std.specs.Hash.DefaultHasher.{finish, write};
ghost use Rattle.std.specs.List.Sorted.{IsStrictlySortedBy};
ghost use Rattle.std.specs.Ordering.{nat_cmp};
ghost use Rattle.sk_index.specs.Index.{number_of, numbers_in, string_of, Adds, AreApart, Removes};

use crate::Number;
use crate::hints::Hints;
use crate::places::Places;
use slab::Slab;
use std::alloc::{AllocError, Global};
use std::collections::{BTreeSet, HashMap};
use std::hash::{DefaultHasher, Hasher};
use std::marker::Model;

/// Byte strings, each kept once, with a number for each. Contracts see them with their numbers.
#[derive(Drop)]
pub struct Index {
    alloc: Global,
    /// What each string is hashed from.
    seed: DefaultHasher,
    strings: Slab<Vec<u8>>,
    /// The place of each string under its hash.
    places: Places,
    hints: Hints,
}

impl Model for Index {
    ghost use Rattle.std.specs.Prelude.{ℕ, List};
    ghost use Rattle.std.specs.Coded.{coded_list, coded×, coded_ℕ};
    ghost use Rattle.std.specs.Hash.DefaultHasher.{finish, write};
    ghost use Rattle.sk_index.specs.Inside.{is_under, numbered, IsIndex};

    ghost Value = { List (List ℕ × ℕ) };

    ghost coded = { coded_list (coded× (coded_list coded_ℕ) coded_ℕ) };

    ghost view = { λ a. numbered 0 a.strings.slots };

    ghost invariant = { λ a. IsIndex (λ s. finish (write a.seed s)) a.strings
        (is_under a.places.firsts a.places.others) };
}

/// What a string comes to under a hash.
fn hash_of(seed: DefaultHasher, bytes: &[u8]) -> u64
    ensures { result ≡ finish (write seed bytes.now) }
{
    let mut hasher = seed;
    hasher.write(bytes);
    hasher.finish()
}

impl Index {
    /// No string. A seed that users of the strings don't know keeps them from choosing strings that are found slowly.
    pub fn new(alloc: Global, seed: u64) -> Index
        ensures { result ≡ [] }
    {
        let mut hasher = DefaultHasher::new();
        hasher.write_u64(seed);
        Index {
            alloc,
            seed: hasher,
            strings: Slab::new(alloc),
            places: Places {
                firsts: HashMap::new(alloc),
                others: BTreeSet::new(alloc),
            },
            hints: Hints::new(alloc),
        }
    }

    /// The number of a string, if it has one.
    pub fn find(&self, bytes: &[u8]) -> Option<Number>
        ensures { result ≡ number_of self.now bytes.now }
    {
        if let Some(number) = self.number_at(self.hints.place(bytes), bytes) {
            return Some(number);
        }
        self.search(bytes)
    }

    /// The number of a string, by its hash.
    #[inline(never)]
    fn search(&self, bytes: &[u8]) -> Option<Number>
        ensures { result ≡ number_of self.now bytes.now }
    {
        let hash = hash_of(self.seed, bytes);
        if let Some(number) = self.number_at(self.places.first(hash), bytes) {
            return Some(number);
        }
        for place in self.places.others.range((hash, 0)..=(hash, usize::MAX)) {
            if self.is_at(place.1, bytes) {
                return Some(Number::new(place.1));
            }
        }
        None
    }

    /// The string that has a number.
    pub fn string(&self, number: Number) -> Option<&[u8]>
        ensures { option_map (λ s. s.now) result ≡ string_of self.now number }
    {
        match self.strings.get(number.place()) {
            Some(string) => Some(string.as_slice()),
            None => None,
        }
    }

    /// Keeps a copy of a string that has no number, and gives it one. Without memory nothing has changed.
    pub fn add(&mut self, bytes: &[u8]) -> Result<Number, AllocError>
        requires { number_of self.old bytes.now ≡ None }
        ensures ok { IfOk result (λ n. Adds self.old bytes.now n self.new) }
        ensures err { OnErr result (self.new ≡ self.old) }
    {
        let string = Vec::from_slice(self.alloc, bytes)?;
        let hash = hash_of(self.seed, bytes);
        self.strings.reserve(1)?;
        let place = self.strings.vacant_key();
        self.places.insert(hash, place)?;
        let number = Number::new(self.strings.insert_reserved(string));
        self.hints.add(&self.strings, bytes, place);
        Ok(number)
    }

    /// Lets go of the string that has a number, and hands it out. This takes no memory.
    pub fn remove(&mut self, number: Number) -> Option<Vec<u8>>
        ensures some { IfSome result (λ s. Removes self.old s.items number self.new) }
        ensures none { result ≡ None → (string_of self.old number ≡ None) }
        ensures same { result ≡ None → self.new ≡ self.old }
    {
        let string = self.strings.try_remove(number.place())?;
        let hash = hash_of(self.seed, string.as_slice());
        self.places.remove(hash, number.place());
        Some(string)
    }

    /// What it takes its memory from.
    pub fn alloc(&self) -> Global {
        self.alloc
    }

    /// How many strings there are.
    pub fn len(&self) -> usize
        ensures many { result ≡ length self.now }
        ensures apart { AreApart self.now }
    {
        self.strings.len()
    }

    /// A place behind all that strings have: each number is below it. They are told by their numbers, which rise.
    pub fn places(&self) -> usize
        ensures behind { (n : ℕ) → result ≤ n → string_of self.now n ≡ None }
        ensures rising { IsStrictlySortedBy nat_cmp (numbers_in self.now) }
    {
        self.strings.capacity()
    }

    /// The number of a string, if it stands in a place that may have it.
    fn number_at(&self, place: Option<usize>, bytes: &[u8]) -> Option<Number>
        ensures some { IfSome result (λ n. string_of self.now n ≡ Some bytes.now) }
        ensures none { result ≡ None
            → (n : ℕ) → place ≡ Some n → string_of self.now n ≡ Some bytes.now → ⊥ }
    {
        let place = place?;
        if self.is_at(place, bytes) {
            Some(Number::new(place))
        } else {
            None
        }
    }

    /// Whether this string stands in a place.
    fn is_at(&self, place: usize, bytes: &[u8]) -> bool
        ensures yes { result ≡ true → string_of self.now place ≡ Some bytes.now }
        ensures no { result ≡ false → string_of self.now place ≡ Some bytes.now → ⊥ }
    {
        match self.strings.get(place) {
            Some(string) => string.as_slice() == bytes,
            None => false,
        }
    }
}
