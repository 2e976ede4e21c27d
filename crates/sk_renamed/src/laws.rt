//! A machine whose keys have other names is the same machine. Each law is the contract of a function that does nothing.
ghost use Rattle.sk_renamed.specs.Laws.{TakesRenamed, CommitsRenamed, FailsRenamed};

/// A step that is taken over keys is taken over their names. Of the names that it looked at, one that stands for no key need
/// not be told.
pub fn renamed_step<B: Ord, K: Ord, V, O>()
    ensures { TakesRenamed B K V O }
{}

/// A commit over keys is one over their names.
pub fn renamed_commit<B: Ord, K: Ord, V, O>()
    ensures { CommitsRenamed B K V O }
{}

/// A failure over keys is one over their names.
pub fn renamed_failure<B: Ord, K: Ord, V, O>()
    ensures { FailsRenamed B K V O }
{}
