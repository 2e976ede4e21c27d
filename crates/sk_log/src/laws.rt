//! Laws of logs. Each is the contract of a function that does nothing.
ghost use Rattle.sk_log.specs.Crash.{CrashKeepsPrefix, CrashesAgain, BlankingKeeps, GoesOn, CrashesAreShort, WholeBytesFade, SomeBitsFade};
ghost use Rattle.sk_log.specs.Segments.{SegmentsJoin};

/// Whatever a crash leaves, the frames that are read are the first ones, at least those that were told as synced.
pub fn crash_law()
    ensures { CrashKeepsPrefix }
{}

/// What a crash leaves of a start that reads or blanks is what a crash of the writing may leave: so starts may crash, however
/// often.
pub fn again_law()
    ensures { CrashesAgain }
{}

/// A crash while zeros are written behind the frames that were read changes nothing of what is read.
pub fn blank_law()
    ensures { BlankingKeeps }
{}

/// Frames that are written on behind those that were read, over zeros that were told as synced, are one log with these: what
/// a crash leaves of them is what the crash law is about.
pub fn on_law()
    ensures { GoesOn }
{}

/// No crash leaves more behind the frames that are read than may have been in flight.
pub fn damage_law()
    ensures { CrashesAreShort }
{}

/// What counts of two segments, the frames of the earlier up to where the later goes on, and those of the later, is a front
/// part of what was written so, and has all of it that was told as synced.
pub fn segments_law()
    ensures { SegmentsJoin }
{}

/// The crash law holds for a disk that tears at bytes, and for one that tears at bits.
pub fn fade_law()
    ensures bytes { WholeBytesFade }
    ensures bits { SomeBitsFade }
{}
