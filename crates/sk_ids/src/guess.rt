//! The number of a guess.
ghost use Rattle.std.specs.Prelude.{◌≡◌, ◌↔◌, IsSome, IfSome};
ghost use Rattle.sk_ids.specs.Guess.{IsGuessNumber};

use std::marker::Model;

/// The greatest number of a guess, 2^63 - 1.
pub const LAST_GUESS: u64 = (1 << 63) - 1;

/// A guess, which contracts see as its number, from 1 to 2^63 - 1.
#[derive(Clone, Copy, Debug, PartialEq, Eq, PartialOrd, Ord)]
pub struct GuessId(u64);

impl Model for GuessId {
    ghost use Rattle.std.specs.Prelude.{ℕ};
    ghost use Rattle.sk_ids.specs.Guess.{IsGuessNumber};

    ghost Value = { ℕ };

    ghost view = { λ a. a.0 };

    ghost invariant = { λ a. IsGuessNumber a.0 };

    ghost inverse = { λ n. record { 0 = n } };
}

/// The first guess, with which a set fills the places that hold none.
impl Default for GuessId {
    fn default() -> GuessId {
        GuessId(1)
    }
}

impl GuessId {
    /// The guess of this number; `None` for 0 and above 2^63 - 1.
    pub fn new(number: u64) -> Option<GuessId>
        ensures some { IsSome result ↔ IsGuessNumber number }
        ensures value { IfSome result (λ id. id ≡ number) }
    {
        if number == 0 || number > LAST_GUESS {
            return None;
        }
        Some(GuessId(number))
    }

    /// Its number, from 1 to 2^63 - 1.
    pub fn number(self) -> u64
        ensures value { result ≡ self }
        ensures limits { IsGuessNumber result }
    {
        self.0
    }
}
