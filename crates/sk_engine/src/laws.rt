//! What holds of any number of hosts beside an engine. Each law is the contract of a function that does nothing.
ghost use Rattle.sk_engine.specs.Claims.{LeadershipIsOne};
ghost use Rattle.sk_engine.specs.Laws.{DecidedIsRead, DecidedIsSent, DecidedStays, LostIsNeverFound, StillHasAll};
ghost use Rattle.sk_engine.specs.Newest.{ToldIsNewest};
ghost use Rattle.sk_engine.specs.Rounds.{ToldBehindARound};

/// What was decided under a number stays the same bytes for ever, in the log or in the snapshot; from the gap on these are the
/// bytes that were sent.
pub fn decided_law()
    ensures stays { DecidedStays }
    ensures sent { DecidedIsSent }
{}

/// Each later leadership finds all that was decided as it begins.
pub fn read_law()
    ensures { DecidedIsRead }
{}

/// What was told as lost, and what was sent behind it, is in no leader's log.
pub fn lost_law()
    ensures { LostIsNeverFound }
{}

/// A leadership that still holds after a read was carried out has all that any other decided before.
pub fn still_law()
    ensures { StillHasAll }
{}

/// What was carried out may be told only once a round that was taken later has held.
pub fn rounds_law()
    ensures { ToldBehindARound }
{}

/// Where what was carried out may be told, the host had found all that any other leadership decided before that was carried
/// out.
pub fn newest_law()
    ensures { ToldIsNewest }
{}

/// No two hosts take the same leadership for their own.
pub fn claims_law()
    ensures { LeadershipIsOne }
{}
