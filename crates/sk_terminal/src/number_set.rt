//! Numbers of terminals.
ghost use Rattle.std.specs.Prelude.{◌≡◌, ◌==◌, ◌||◌, ◌∷◌, ℕ, [], IfOk, OnOk, OnErr};
ghost use Rattle.std.specs.Ordering.{nat_cmp};
ghost use Rattle.std.specs.List.Sorted.{IsStrictlySortedBy};
ghost use Rattle.sk_record.specs.Notes.{has, without};

use std::alloc::{AllocError, Global};
use std::marker::Model;

/// Numbers of terminals by rising order, each once; contracts see the list.
#[derive(Drop)]
pub(crate) struct NumberSet {
    numbers: Vec<u16>,
}

impl Model for NumberSet {
    ghost use Rattle.std.specs.Prelude.{ℕ, List};
    ghost use Rattle.std.specs.Ordering.{nat_cmp};
    ghost use Rattle.std.specs.List.Sorted.{IsStrictlySortedBy};

    ghost Value = { List ℕ };

    ghost view = { λ a. a.numbers.items };

    ghost invariant = { λ a. IsStrictlySortedBy nat_cmp a.numbers.items };
}

impl NumberSet {
    /// One number.
    pub(crate) fn of(alloc: Global, number: u16) -> Result<NumberSet, AllocError>
        ensures { IfOk result (λ set. set ≡ number ∷ []) }
    {
        let numbers = Vec::from_slice(alloc, &[number])?;
        Ok(NumberSet { numbers })
    }

    /// The numbers by rising order, each once.
    pub(crate) fn as_slice(&self) -> &[u16]
        ensures numbers { result.now ≡ self.now }
        ensures rising { IsStrictlySortedBy nat_cmp result.now }
    {
        self.numbers.as_slice()
    }

    /// Whether a number is there.
    pub(crate) fn contains(&self, number: u16) -> bool
        ensures { result ≡ has number self.now }
    {
        self.numbers.as_slice().binary_search(&number).is_ok()
    }

    /// Adds a number, which may be there. Without memory nothing has changed.
    pub(crate) fn add(&mut self, number: u16) -> Result<(), AllocError>
        ensures ok { OnOk result ((q : ℕ) → has q self.new ≡ (has q self.old || (number == q))) }
        ensures err { OnErr result (self.new ≡ self.old) }
    {
        if let Err(place) = self.numbers.as_slice().binary_search(&number) {
            self.numbers.insert(place, number)?;
        }
        Ok(())
    }

    /// Takes a number out, which need not be there. This takes no memory.
    pub(crate) fn without(&mut self, number: u16)
        ensures { self.new ≡ without number self.old }
    {
        if let Ok(place) = self.numbers.as_slice().binary_search(&number) {
            self.numbers.remove(place);
        }
    }
}
