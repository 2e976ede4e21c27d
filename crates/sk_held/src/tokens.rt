//! The tokens of guesses, by rising number.
ghost use Rattle.std.specs.Prelude.{◌≡◌, is_some, IfSome, Some};
ghost use Rattle.std.specs.List.{slice_get};
ghost use Rattle.std.specs.List.Sorted.{IsStrictlySortedBy};
ghost use Rattle.std.specs.Ordering.{nat_cmp};
ghost use Rattle.sk_record.specs.Notes.{has};
ghost use Rattle.sk_held.specs.Tokens.{ids};

use sk_guesses::Guess;

/// The place of the token of the guess of this number.
pub(crate) fn place_of(tokens: &[Guess], guess: u64) -> Option<usize>
    requires { IsStrictlySortedBy nat_cmp (ids tokens.now) }
    ensures there { IfSome result (λ place. slice_get (ids tokens.now) place ≡ Some guess) }
    ensures held { is_some result ≡ has guess (ids tokens.now) }
{
    tokens
        .binary_search_by_key(&guess, |token| token.id().number())
        .ok()
}
