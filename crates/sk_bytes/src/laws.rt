//! The law of the kernel over byte strings. It is the contract of a function that does nothing.
ghost use Rattle.std.specs.Prelude.{◌≡◌, ℕ, List};
ghost use Rattle.sk_bytes.specs.Base.{System, bytes_cmp, OwnRunsAsPlain};

/// For whatever step function over byte strings: if what is handed in is what the function asked for, wrote and said on the
/// values that are there, then, after any list of steps, guesses, commits, failures and takings of output, all is as in the
/// plain run of the steps that depend on no failed guess.
pub fn byte_run<V, O, F, N>()
    ensures { (own : System (List ℕ) V (ℕ × O) F N) → OwnRunsAsPlain own }
{}
