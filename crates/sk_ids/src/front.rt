//! A list of guesses whose front goes without moving the rest.
ghost use Rattle.std.specs.Prelude.{◌≡◌, ◌<◌, ◌∷◌, [], length, IfOk};
ghost use Rattle.std.specs.List.{remove};

use crate::GuessId;
use smallvec::SmallVec;
use std::alloc::{AllocError, Global};
use std::marker::Model;

/// Room for so many guesses stays, however few there are.
const FEW: usize = 16;

/// Guesses in a list, of which those at the front that went keep their places. Up to four take no memory.
#[derive(Drop)]
pub(crate) struct Fronted {
    list: SmallVec<GuessId, 4>,
    gone: usize,
}

impl Model for Fronted {
    ghost use Rattle.std.specs.Prelude.{◌≤◌, ℕ, List, drop, length};

    ghost Value = { List ℕ };

    ghost view = { λ a. drop a.gone a.list.items };

    ghost invariant = { λ a. a.gone ≤ length a.list.items };
}

impl Fronted {
    pub(crate) fn new(alloc: Global) -> Fronted
        ensures { result ≡ [] }
    {
        Fronted::of(SmallVec::new(alloc))
    }

    /// All of a list.
    pub(crate) fn of(list: SmallVec<GuessId, 4>) -> Fronted
        ensures { result ≡ list.items }
    {
        Fronted { list, gone: 0 }
    }

    pub(crate) fn alloc(&self) -> Global {
        *self.list.allocator()
    }

    pub(crate) fn as_slice(&self) -> &[GuessId]
        ensures { result.now ≡ self.now }
    {
        &self.list.as_slice()[self.gone..]
    }

    /// Another list of the same.
    pub(crate) fn copied(&self) -> Result<SmallVec<GuessId, 4>, AllocError>
        ensures { IfOk result (λ list. list.items ≡ self.now) }
    {
        SmallVec::from_slice(self.alloc(), self.as_slice())
    }

    /// Lets go of most of the room, where less than a quarter of it is taken and there is memory for the new list.
    fn trim(&mut self)
        ensures { self.new ≡ self.old }
    {
        let room = self.list.capacity();
        if room <= FEW || self.as_slice().len() >= room / 4 {
            return;
        }
        if let Ok(list) = self.copied() {
            *self = Fronted::of(list);
        }
    }

    /// Takes out the one at a place, which wants no memory. Below a quarter of its room it lets most of that go.
    pub(crate) fn remove(&mut self, place: usize)
        requires { place < length self.old }
        ensures { self.new ≡ remove self.old place }
    {
        self.take_out(place);
        self.trim();
    }

    /// Takes out the one at a place.
    #[tactic(auto, using(crate::proofs::Fronts::removed))]
    fn take_out(&mut self, place: usize)
        requires { place < length self.old }
        ensures { self.new ≡ remove self.old place }
    {
        let _len = self.list.len();
        if place == 0 {
            self.gone += 1;
        } else {
            self.list.remove(self.gone + place);
        }
    }
}
