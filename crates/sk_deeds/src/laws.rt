//! The law of a kernel over steps that are taken outside. It is the contract of a function that does nothing.
ghost use Rattle.std.specs.Prelude.{ℕ};
ghost use Rattle.sk_record.specs.Run.{System};
ghost use Rattle.sk_deeds.specs.Moves.{RunsAsPlain};
ghost use Rattle.sk_deeds.specs.Told.{TellsAsPlain};

/// For whatever step function the steps are those of: after any list of steps, guesses, commits and failures all is as in
/// a plain run of the steps that depend on no failed guess.
pub fn plain_run<K: Ord, V, O, F, N>()
    ensures { (own : System K V (ℕ × O) F N) → RunsAsPlain own }
{}

/// As `plain_run`, where outputs may be taken out of their channels between the calls: in the plain run's channels what was
/// taken out stands before what is there.
pub fn told_run<K: Ord, V, O, F, N>()
    ensures { (own : System K V (ℕ × O) F N) → TellsAsPlain own }
{}
