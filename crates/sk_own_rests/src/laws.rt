//! The law of what is logged along the calls of a kernel over own keys. It is the contract of a function that does nothing.
ghost use Rattle.std.specs.Prelude.{ℕ};
ghost use Rattle.sk_record.specs.Run.{System};
ghost use Rattle.sk_own_rests.specs.OwnLogs.{OwnStandsAsLogged};

/// A log that has of each step what it depended on when it was taken tells, after any calls of the kernel, which steps stand,
/// what each of them depends on, and that what went out of a channel depends on committed guesses alone.
pub fn own_logged<K: Ord, V, O, F, N>()
    ensures { (own : System K V (ℕ × O) F N) → OwnStandsAsLogged own }
{}
