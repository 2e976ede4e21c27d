//! What holds of disks after a crash. Each law is the contract of a function that does nothing.
ghost use Rattle.sk_crashed.specs.Laws.{DisksAreRecovered, FramesAreBehind, LivesAreRecovered, PlacesAreBehind, SnapshotsAreRecovered, SnapshotsStandFor};

/// Each frame is to be written just behind those that were written in its segment, with the next number.
pub fn places_law()
    ensures places { PlacesAreBehind }
    ensures frames { FramesAreBehind }
{}

/// Whatever a crash leaves of the segments of a store, at whatever moment, is read without damage, and what is found is what
/// the first of the logged commands leave: among these is all of each batch that was told as logged.
pub fn recovery_law()
    ensures { DisksAreRecovered }
{}

/// A store that goes on behind what was found of earlier ones is recovered as well, as long as their segments are kept.
pub fn lives_law()
    ensures { LivesAreRecovered }
{}

/// What is found of a snapshot and the later segments is what is found of all; so a store whose first segments a snapshot stands
/// for is recovered as one that has them all.
pub fn snapshots_law()
    ensures same { SnapshotsStandFor }
    ensures lives { SnapshotsAreRecovered }
{}
