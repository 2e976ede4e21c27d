//! The theorem: what holds after any calls of a store. Each law is the contract of a function that does nothing.
ghost use Rattle.sk_durable.specs.Laws.{
  AnswersArePlain,
  ChannelsLetGoJustWhatMay,
  CrashesAreRecovered,
  LoggedIsOnDisk,
  MapIsPlain,
  TicketsAreToldRight,
};

/// All is as in a plain store that carries out the commands that came, in order, without those that depend on a failed batch:
/// what keys have, and each answer at its place.
pub fn plain_law()
    ensures map { MapIsPlain }
    ensures answers { AnswersArePlain }
{}

/// A ticket was told the answer of its command, which is the plain store's at its place; or that nothing of it was done, and then
/// the command is not among those that stand.
pub fn tickets_law()
    ensures { TicketsAreToldRight }
{}

/// A channel lets go of just the longest front part of its replies whose commands depend on nothing undecided.
pub fn output_law()
    ensures { ChannelsLetGoJustWhatMay }
{}

/// What a batch logged that was told as logged lies in a frame that the host told as synced, with all frames before it. A reply
/// that went out depends on such batches alone.
pub fn synced_law()
    ensures { LoggedIsOnDisk }
{}

/// Whatever a crash leaves, what is read again is the plain store after the first of the logged commands: among these is all
/// on which a reply that went out depends, and nothing that was refused.
pub fn crash_law()
    ensures { CrashesAreRecovered }
{}
