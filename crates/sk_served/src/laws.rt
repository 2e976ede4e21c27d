//! What is known of the store's steps. Each law is the contract of a function that does nothing.
ghost use Rattle.sk_served.specs.Calls.{CallsArePlain};
ghost use Rattle.sk_served.specs.Known.{MoreMayBeKnown, PlainStoreKnows};
ghost use Rattle.sk_served.specs.Laws.{
  EntriesAct,
  PlainStoresDo,
  RestsOnItsBatch,
  RunsAsPlainStore,
  StaysTold,
  StoreRunsAsPlain,
  WritingIsAll,
};

/// For whatever keys have: the step of an entry does just what its deed says, which is what `Work::asks` and `Work::run` give,
/// with the key of the batch asked first.
pub fn entries_act()
    ensures { EntriesAct }
{}

/// What a batch logs goes with it: work that looked at the key of its batch depends on the guess.
pub fn batch_law()
    ensures { RestsOnItsBatch }
{}

/// What is said here of a plain store is what its calls do.
pub fn plain_stores_do()
    ensures { PlainStoresDo }
{}

/// Work that is told of all keys comes to the same whichever absent keys are known too.
pub fn known_law()
    ensures more { MoreMayBeKnown }
    ensures plain { PlainStoreKnows }
{}

/// The plain run of any entries is a plain store's.
pub fn run_law()
    ensures { RunsAsPlainStore }
{}

/// Entries leave what those of their works leave that may write; just these are what a log keeps.
pub fn writing_law()
    ensures { WritingIsAll }
{}

/// An entry that was told of all keys stays told of all, whatever guesses fail later.
pub fn told_law()
    ensures { StaysTold }
{}

/// After any calls the store is as a plain store after the works that depend on no failed batch.
pub fn store_law()
    ensures { StoreRunsAsPlain }
{}

/// As `store_law`, told of the calls themselves, each of whose steps is taken by what the kernel shows then.
pub fn calls_law()
    ensures { CallsArePlain }
{}
