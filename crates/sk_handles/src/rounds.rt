//! What calls of rounds are told. The host has the rounds, and no handle: each call is one of `sk_engine`.
ghost use Rattle.std.specs.Prelude.{◌≡◌};
ghost use Rattle.sk_handles.specs.RoundCalls.{round_refused, SaysStill, TakesRound};
ghost use Rattle.sk_handles.specs.Told.{just, told_by};

use crate::codes::{DONE, REFUSED};
use crate::told::Told;
use sk_engine::{RoundRefusal, Rounds};

/// What a refused call of rounds is told.
fn round_refused(why: RoundRefusal) -> Told
    ensures { result ≡ round_refused why }
{
    match why {
        RoundRefusal::Over => Told::of(REFUSED, 1),
        RoundRefusal::Nothing => Told::of(REFUSED, 2),
        RoundRefusal::NoNumber => Told::of(REFUSED, 3),
        RoundRefusal::Unknown => Told::of(REFUSED, 4),
    }
}

fn of_taken(did: Result<u64, RoundRefusal>) -> Told
    ensures { result ≡ told_by (just DONE) round_refused did }
{
    match did {
        Ok(round) => Told::of(DONE, round),
        Err(why) => round_refused(why),
    }
}

fn of_still(did: Result<(), RoundRefusal>) -> Told
    ensures { result ≡ told_by (λ _. just DONE 0) round_refused did }
{
    match did {
        Ok(()) => Told::of(DONE, 0),
        Err(why) => round_refused(why),
    }
}

/// Takes the next round.
pub fn take(rounds: &mut Rounds) -> Told
    ensures { TakesRound result rounds.old rounds.new }
{
    of_taken(rounds.take())
}

/// The host led after this round was taken.
pub fn still(rounds: &mut Rounds, round: u64) -> Told
    ensures { SaysStill round result rounds.old rounds.new }
{
    of_still(rounds.still(round))
}
