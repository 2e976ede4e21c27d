//! The number of a byte string.
ghost use Rattle.std.specs.Prelude.{◌≡◌};

use sk_map::Key;
use std::marker::Model;

/// The number that a byte string has while it is kept. It is given to another once the string is gone.
#[derive(Clone, Copy, Debug, PartialEq, Eq, PartialOrd, Ord, Hash)]
pub struct Number(usize);

impl Model for Number {
    ghost use Rattle.std.specs.Prelude.{ℕ};

    ghost Value = { ℕ };

    ghost view = { λ a. a.0 };

    ghost inverse = { λ n. record { 0 = n } };
}

impl Key for Number {
    ghost use Rattle.std.specs.Prelude.{refl};
    ghost use Rattle.std.specs.Ordering.{nat_cmp};
    ghost use Rattle.std.specs.FinMap.{nat_cmp-IsAntisymmetric};

    ghost order = { nat_cmp };

    ghost same = { refl };

    ghost exact = { nat_cmp-IsAntisymmetric };
}

impl Number {
    /// The number of a place.
    pub fn new(place: usize) -> Number
        ensures { result ≡ place }
    {
        Number(place)
    }

    /// The place of a number.
    pub(crate) fn place(self) -> usize
        ensures { result ≡ self }
    {
        self.0
    }
}
