//! The laws of what is logged along calls. Each is the contract of a function that does nothing.
ghost use Rattle.std.specs.Prelude.{ℕ};
ghost use Rattle.sk_record.specs.Run.{System};
ghost use Rattle.sk_rests.specs.Laws.{StandsAsLogged, RangeIsStruck};
ghost use Rattle.sk_rests.specs.Idle.{IdleMayGo, PartIsKept};

/// A log that has of each step what it depended on when it was taken tells, after any calls, which steps stand, what each of
/// them depends on, and that what went out of a channel depends on committed guesses alone.
pub fn as_logged<K: Ord, V, O, F, N>()
    ensures { (own : System K V (ℕ × O) F N) → StandsAsLogged own }
{}

/// Where just the guesses of a range fail, what is left loses just what depended on one of the range.
pub fn range_struck<N, O>()
    ensures { RangeIsStruck N O }
{}

/// Of a part of a log of steps just those are left that are left of it in the whole log.
pub fn part_kept<N, O>()
    ensures { PartIsKept N O }
{}

/// Steps that change nothing may be left out: the others do the same without them, and come to the same values.
pub fn idle_steps<K, V, W, F, N>()
    ensures { (own : System K V W F N) → IdleMayGo own }
{}
