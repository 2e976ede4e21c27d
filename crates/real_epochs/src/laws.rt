//! The law of epochs. It is the contract of a function that does nothing.
ghost use Rattle.real_epochs.specs.Law.{EpochsStand};

/// After any calls and replies, what was shown on a stream is the front part of what a plain run says of what counts: of what
/// happened in epochs that are accepted, and of what the server told.
pub fn told_law()
    ensures { EpochsStand }
{}
