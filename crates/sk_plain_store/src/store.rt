//! A map of byte strings that carries out commands at once.
ghost use Rattle.std.specs.Prelude.{◌≡◌, [], true, map, IfOk};
ghost use Rattle.std.specs.FinMap.{is_sorted};
ghost use Rattle.std.specs.Vec.{vec_items};
ghost use Rattle.sk_commands.specs.Work.{comes_to};
ghost use Rattle.sk_plain_store.specs.Plain.{bytes_cmp, held, keys_of, Runs};

use crate::places::{Places, write};
use sk_commands::{Answer, ByteString, Look, Work};
use std::alloc::{AllocError, Global};
use std::marker::Model;

/// A map of byte strings, in the order of its keys.
#[derive(Drop)]
pub struct PlainStore {
    alloc: Global,
    places: Places,
}

impl Model for PlainStore {
    ghost use Rattle.std.specs.Coded.{coded_list, coded×, coded_ℕ};
    ghost use Rattle.sk_plain_store.specs.Plain.{Entries};
    ghost use Rattle.sk_plain_store.specs.Places.{entries_of};

    ghost Value = { Entries };

    ghost coded = { coded_list (coded× (coded_list coded_ℕ) (coded_list coded_ℕ)) };

    ghost view = { λ s. entries_of s.places.entries };
}

impl Look for PlainStore {
    ghost use Rattle.sk_plain_store.specs.Plain.{held};

    ghost look = { held };

    fn value(&self, key: &[u8]) -> Option<&ByteString> {
        let _rising = self.places.len();
        match self.places.get(key) {
            Some(has) => has.as_ref(),
            None => None,
        }
    }
}

impl PlainStore {
    /// No key is there.
    pub fn new(alloc: Global) -> PlainStore
        ensures { result ≡ [] }
    {
        PlainStore {
            alloc,
            places: Places::new(alloc),
        }
    }

    /// The keys with what they have, in the order of their bytes. Neither is copied.
    pub fn into_entries(self) -> Result<Vec<(ByteString, ByteString)>, AllocError>
        ensures all { IfOk result (λ entries. entries.items ≡ self) }
        ensures rising { is_sorted bytes_cmp self ≡ true }
    {
        let mut entries = Vec::new(self.alloc);
        for (key, value) in self.places {
            if let Some(value) = value {
                entries.push((ByteString::new(key), value))?;
            }
        }
        Ok(entries)
    }

    /// Copies of the keys, in the order of their bytes.
    pub fn keys(&self) -> Result<Vec<Vec<u8>>, AllocError>
        ensures { IfOk result (λ keys. map vec_items keys.items ≡ keys_of self.now) }
    {
        let mut keys = Vec::new(self.alloc);
        for (key, value) in &self.places {
            if value.is_some() {
                keys.push(Vec::from_slice(self.alloc, key.as_slice())?)?;
            }
        }
        Ok(keys)
    }

    /// Copies of all keys, where some of the work is told of these; else no keys, as the work comes to the same without.
    fn known_to(&self, work: &Work) -> Result<Vec<Vec<u8>>, AllocError>
        ensures { IfOk result (λ known. comes_to (map vec_items known.items) work.now (held self.now)
            ≡ comes_to (keys_of self.now) work.now (held self.now)) }
    {
        if work.is_told_of_all() {
            return self.keys();
        }
        Ok(Vec::new(self.alloc))
    }

    /// Carries out a command, or the commands of a queue, and answers. Without memory nothing has changed.
    pub fn run(&mut self, work: Work) -> Result<Answer, AllocError>
        ensures { Runs work self.old result self.new }
    {
        let known = self.known_to(&work)?;
        let mut written = Vec::new(self.alloc);
        let answer = work.run(self.alloc, &*self, known.as_slice(), &mut written)?;
        write(self.alloc, &mut self.places, written)?;
        Ok(answer)
    }
}
