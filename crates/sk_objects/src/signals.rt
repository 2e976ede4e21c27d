//! Queues of signals.
ghost use Rattle.std.specs.Prelude.{◌≡◌, ◌≤◌, ◌<◌, ◌-◌, ◌++◌, ◌∷◌, ◌↔◌, IsTrue, [], length, take, drop, IfOk, IfSome, IsSome, All, slice_index};
ghost use Rattle.sk_objects.specs.Signals.{IsSignal};
ghost use Rattle.sk_objects.specs.declared.signals.TheConstants.{SIGNALS_LIMIT};

use std::alloc::{AllocError, Global};
use std::marker::Model;

/// The greatest number of signals in a queue.
pub const SIGNALS_LIMIT: usize = 32;

/// The last number of a signal; the first is 1.
pub const LAST_SIGNAL: u8 = 31;

/// At most 32 signals, each from 1 to 31, in the order in which they came. The room for all of them
/// is made with the queue.
#[derive(Drop)]
pub struct Signals {
    signals: Vec<u8>,
}

impl Model for Signals {
    ghost use Rattle.std.specs.Prelude.{ℕ, List, vec_capacity};
    ghost use Rattle.sk_objects.specs.Invariants.{IsTidyQueue};

    ghost Value = { List ℕ };

    ghost view = { λ s. s.signals.items };

    ghost invariant = { λ s. IsTidyQueue s.signals.items (vec_capacity s.signals) };
}

impl PartialEq for Signals {
    ghost use Rattle.std.specs.Cmp.{decided, partial_equiv_from_equiv};
    ghost use Rattle.sk_objects.specs.Same.{same_bytes};
    ghost use Rattle.sk_objects.specs.SameLemma.{exact_bytes};

    ghost eq = { same_bytes };

    ghost laws = { partial_equiv_from_equiv (decided same_bytes exact_bytes) };

    /// True exactly where both hold the same.
    fn eq(&self, other: &Signals) -> bool
        ensures computed { result ≡ same_bytes self.now other.now }
        ensures exact { IsTrue result ↔ (self.now ≡ other.now) }
    {
        self.signals.as_slice() == other.signals.as_slice()
    }
}

impl Eq for Signals {
    ghost use Rattle.std.specs.Cmp.{decided};
    ghost use Rattle.sk_objects.specs.Same.{same_bytes};
    ghost use Rattle.sk_objects.specs.SameLemma.{exact_bytes};

    ghost laws = { decided same_bytes exact_bytes };
}

impl Signals {
    /// The empty queue.
    pub fn new(alloc: Global) -> Result<Signals, AllocError>
        ensures { IfOk result (λ signals. signals ≡ []) }
    {
        Ok(Signals {
            signals: Vec::with_capacity(alloc, SIGNALS_LIMIT)?,
        })
    }

    /// Another queue of the same signals.
    pub fn copy(&self) -> Result<Signals, AllocError>
        ensures { IfOk result (λ copy. copy ≡ self.now) }
    {
        let mut signals = Vec::with_capacity(*self.signals.allocator(), SIGNALS_LIMIT)?;
        signals.extend_from_slice(self.signals.as_slice())?;
        Ok(Signals { signals })
    }

    /// The signals, the oldest first, each from 1 to 31.
    pub fn as_slice(&self) -> &[u8]
        ensures value { result.now ≡ self.now }
        ensures limit { length result.now ≤ SIGNALS_LIMIT }
        ensures signals { All IsSignal result.now }
    {
        self.signals.as_slice()
    }

    /// The number of signals.
    pub fn len(&self) -> usize
        ensures value { result ≡ length self.now }
        ensures limit { result ≤ SIGNALS_LIMIT }
        ensures signals { All IsSignal self.now }
    {
        self.signals.len()
    }

    /// Puts a signal, from 1 to 31, at the back, for which there must be room. This takes no memory.
    pub fn push(&mut self, signal: u8)
        requires room { length self.old < SIGNALS_LIMIT }
        requires signal { IsSignal signal }
        ensures { self.new ≡ self.old ++ signal ∷ [] }
    {
        self.signals.push_reserved(signal);
    }

    /// Takes out the signal at the front.
    pub fn take(&mut self) -> u8
        requires { 0 < length self.old }
        ensures taken { result ≡ slice_index self.old 0 }
        ensures left { self.new ≡ drop 1 self.old }
    {
        self.signals.remove(0)
    }

    /// Puts a signal back at the front, for which there must be room. This takes no memory.
    pub fn put_back(&mut self, signal: u8)
        requires room { length self.old < SIGNALS_LIMIT }
        requires signal { IsSignal signal }
        ensures { self.new ≡ signal ∷ self.old }
    {
        self.signals.insert(0, signal).unwrap();
    }

    /// Drops the signal at the back, where there is one.
    pub fn drop_newest(&mut self)
        ensures { self.new ≡ take (length self.old - 1) self.old }
    {
        self.signals.truncate(self.signals.len().saturating_sub(1));
    }
}
