//! The law of a kernel whose guesses are batches. It is the contract of a function that does nothing.
ghost use Rattle.std.specs.Prelude.{ℕ, List};
ghost use Rattle.sk_record.specs.Run.{System};
ghost use Rattle.sk_batched.specs.Runs.{BatchesAsPlain};

/// For whatever step function over byte strings: after any list of steps, logged and not, of frames, words of the host, cuts,
/// decisions and takings of output, and of calls that were refused, all is as in the plain run of the steps that depend on no
/// refused batch. A guess is committed just where its batch was told as logged, and has failed just where that was told as
/// refused.
pub fn batches_run<V, O, F, N>()
    ensures { (own : System (List ℕ) V (ℕ × O) F N) → BatchesAsPlain own }
{}
