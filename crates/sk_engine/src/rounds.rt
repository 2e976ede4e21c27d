//! Rounds, by which a host knows that it still leads before it tells what it carried out.
ghost use Rattle.std.specs.Prelude.{◌≡◌};
ghost use Rattle.sk_engine.specs.Rounds.{StillPost, TakePost, lost, may_tell, no_rounds, waits};

use std::marker::Model;
use thiserror::Error;

/// No round has a number past this one.
pub const ROUND_LIMIT: u64 = u64::MAX;

/// Why a call of rounds was refused. Nothing has changed then.
#[derive(Clone, Copy, Debug, PartialEq, Eq, Error)]
pub enum RoundRefusal {
    /// The host leads no more.
    #[error("the host leads no more")]
    Over,
    /// Nothing waits for a round.
    #[error("nothing waits for a round")]
    Nothing,
    /// The last round was taken.
    #[error("the last round was taken")]
    NoNumber,
    /// This round was not taken.
    #[error("no such round was taken")]
    Unknown,
}

/// The rounds of one leadership, by rising numbers. What was carried out has a mark; it may be told once the host is known to
/// have led at some moment after a round that was taken later. A batch that is sent is as good as a round, where one was taken
/// just before.
#[repr(C)]
#[derive(Drop)]
pub struct Rounds {
    taken: u64,
    held: u64,
    is_waiting: bool,
    is_over: bool,
}

impl Model for Rounds {
    ghost use Rattle.sk_engine.specs.Rounds.{RoundsView};

    ghost Value = { RoundsView };

    ghost view = { λ r. record {
      taken = r.taken;
      held = r.held;
      is_waiting = r.is_waiting;
      is_over = r.is_over;
    } };

    ghost inverse = { λ v. record {
      taken = v.taken;
      held = v.held;
      is_waiting = v.is_waiting;
      is_over = v.is_over;
    } };
}

impl Rounds {
    /// No round was taken, and nothing waits.
    pub fn new() -> Rounds
        ensures { result ≡ no_rounds }
    {
        Rounds {
            taken: 0,
            held: 0,
            is_waiting: false,
            is_over: false,
        }
    }

    /// Something was carried out, and waits for a round that is taken later. This is its mark.
    pub fn carried_out(&mut self) -> u64
        ensures mark { result ≡ self.old.taken }
        ensures waits { self.new ≡ waits self.old }
    {
        self.is_waiting = !self.is_over;
        self.taken
    }

    /// The next round, where something waits for one. It is begun later, or a batch is sent then for the first time.
    pub fn take(&mut self) -> Result<u64, RoundRefusal>
        ensures { TakePost result self.old self.new }
    {
        if self.is_over {
            return Err(RoundRefusal::Over);
        }
        if !self.is_waiting {
            return Err(RoundRefusal::Nothing);
        }
        if self.taken == ROUND_LIMIT {
            return Err(RoundRefusal::NoNumber);
        }
        self.is_waiting = false;
        self.taken += 1;
        Ok(self.taken)
    }

    /// The host led at some moment after this round was taken, and so after each one before it.
    pub fn still(&mut self, round: u64) -> Result<(), RoundRefusal>
        ensures { StillPost result round self.old self.new }
    {
        if round > self.taken {
            return Err(RoundRefusal::Unknown);
        }
        if round > self.held {
            self.held = round;
        }
        Ok(())
    }

    /// The host leads no more: no round is taken, and nothing begins to wait. What is known of rounds that were taken may still
    /// be said.
    pub fn lost(&mut self)
        ensures { self.new ≡ lost self.old }
    {
        self.is_waiting = false;
        self.is_over = true;
    }

    /// Whether what has this mark may be told.
    pub fn may_tell(&self, mark: u64) -> bool
        ensures { result ≡ may_tell mark self.now }
    {
        mark < self.held
    }
}
