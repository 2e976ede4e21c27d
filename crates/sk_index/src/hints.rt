//! Where byte strings may stand.

use slab::Slab;
use std::alloc::Global;
use std::hash::{FoldHasher, Hasher};

/// How many hints there are at first.
const FEW: usize = 64;

/// How many hints there are for each string, or more: most strings have one of their own then.
const EACH: usize = 4;

/// The places of strings, by a fast hash that anyone may know. Of strings with one hint the newest has it, so a hint may be wrong:
/// who has it looks whether the string stands there.
#[derive(Drop)]
pub(crate) struct Hints {
    /// As many as a power of two.
    places: Vec<u32>,
}

/// Which of so many hints is a string's.
fn turn_of(bytes: &[u8], hints: usize) -> usize {
    let mut hasher = FoldHasher::default();
    hasher.write(bytes);
    hasher.finish() as usize & hints.saturating_sub(1)
}

impl Hints {
    pub(crate) fn new(alloc: Global) -> Hints {
        Hints {
            places: Vec::new(alloc),
        }
    }

    /// The place where a string may stand.
    pub(crate) fn place(&self, bytes: &[u8]) -> Option<usize> {
        match self.places.get(turn_of(bytes, self.places.len())) {
            Some(place) => Some(*place as usize),
            None => None,
        }
    }

    /// One more of these strings came to a place.
    pub(crate) fn add(&mut self, strings: &Slab<Vec<u8>>, bytes: &[u8], place: usize) {
        if self.places.len() / EACH < strings.len() {
            self.grow(strings);
        }
        self.keep(bytes, place);
    }

    fn keep(&mut self, bytes: &[u8], place: usize) {
        let Ok(place) = u32::try_from(place) else {
            return;
        };
        let turn = turn_of(bytes, self.places.len());
        if let Some(kept) = self.places.get_mut(turn) {
            *kept = place;
        }
    }

    /// Twice as many hints. Without memory there are as many as before.
    fn grow(&mut self, strings: &Slab<Vec<u8>>) {
        let more = self.places.len().saturating_mul(2).max(FEW);
        if self.places.resize(more, 0).is_err() {
            return;
        }
        for place in 0..strings.capacity() {
            if let Some(string) = strings.get(place) {
                self.keep(string.as_slice(), place);
            }
        }
    }
}
