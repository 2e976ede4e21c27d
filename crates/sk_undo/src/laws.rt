//! What the logs are for, and how long they get. A law is the contract of a function that does nothing.
ghost use Rattle.sk_undo.specs.Laws.{GivesBack, JoinsRuns};

/// A write is noted with the value that stood there. So, whatever is written to all entities while each write to one
/// depends on a guess, `unwind` of the guess gives that entity the value that it had before, and its notes.
pub fn given_back()
    ensures { GivesBack }
{}

/// A commit joins runs: of notes that put back a process, or none, it leaves one for each run of neighbours that then depend on
/// the same guesses.
pub fn joins_runs()
    ensures { JoinsRuns }
{}
