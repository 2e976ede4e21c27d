//! What holds of frames that are read again, and of snapshots. Each law is the contract of a function that does nothing.
ghost use Rattle.sk_replay.specs.Frames.{FramesRestore, ShortIsWithin};
ghost use Rattle.sk_replay.specs.Snapshot.{SnapshotsRestore};

/// Works that set the entries of a plain store make it again.
pub fn snapshots_restore()
    ensures { SnapshotsRestore }
{}

/// However many first frames are read again, a plain store behind what their payloads say is the one behind the works that were
/// logged in them.
pub fn frames_restore()
    ensures { FramesRestore }
{}

/// Works whose bytes have room in a frame are within the limits of a log.
pub fn short_law()
    ensures { ShortIsWithin }
{}
