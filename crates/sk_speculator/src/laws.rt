//! The law of the kernel. It is the contract of a function that does nothing.
ghost use Rattle.std.specs.Prelude.{ℕ};
ghost use Rattle.sk_record.specs.Run.{System};
ghost use Rattle.sk_speculator.specs.Law.{OwnRunsAsPlain};

/// For whatever step function of the user: if what is handed in is what the function asked for, wrote and said on the values
/// that are there, then, after any list of steps, guesses, commits, failures and takings of output, the values, tags,
/// statuses, open guesses and outputs are those of the plain run of the steps that depend on no failed guess.
pub fn own_run<K: Ord, V, O, F, N>()
    ensures { (own : System K V (ℕ × O) F N) → OwnRunsAsPlain own }
{}
