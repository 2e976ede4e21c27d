//! What holds of recovery. Each law is the contract of a function that does nothing.
ghost use Rattle.sk_recovered.specs.Laws.{CountedIsJoined, CountedIsRestored};
ghost use Rattle.sk_recovered.specs.Crash.{CrashesAreRecovered};
ghost use Rattle.sk_recovered.specs.Snapshots.{SnapshotsAreRead};

/// What counts of segments is what `sk_log` joins of them, one with all that are later.
pub fn joined_law()
    ensures { CountedIsJoined }
{}

/// Where what counts is a front part of what was logged, with all that was told as synced, the store is that behind the works of
/// these frames.
pub fn restored_law()
    ensures { CountedIsRestored }
{}

/// Whatever a crash leaves of the segments of a log, what is found is the store behind the first frames, all at least that were
/// told as synced, and none that was cut off.
pub fn crash_law()
    ensures { CrashesAreRecovered }
{}

/// What is found of the pieces of a snapshot, one behind another with none left, is the entries that they were written of.
pub fn snapshot_law()
    ensures { SnapshotsAreRead }
{}
