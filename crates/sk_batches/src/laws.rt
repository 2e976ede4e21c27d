//! Laws of all runs of a queue. Each is the contract of a function that does nothing.
ghost use Rattle.sk_batches.specs.Dense.{CutsARange, FramesAreDense};
ghost use Rattle.sk_batches.specs.Runs.{DecidesInOrder, KeepsTheRest, LogsWhatIsSynced, LosesNothing, NoneIsKept};

/// Batches are decided in the order of their numbers, each once.
pub fn order_law()
    ensures { DecidesInOrder }
{}

/// A batch that is decided as logged is in a front part of the log whose frames the host all said are synced.
pub fn synced_law()
    ensures { LogsWhatIsSynced }
{}

/// Each record that was appended is logged, refused, taken back or undecided, once.
pub fn nothing_lost_law()
    ensures { LosesNothing }
{}

/// Behind a cut just the records are logged anew that don't depend on what was cut off, in their order.
pub fn kept_law()
    ensures { KeepsTheRest }
{}

/// Where a cut is due no batch is to be sent again from an earlier one.
pub fn none_kept_law()
    ensures { NoneIsKept }
{}

/// Batches stand in the log one behind another, with their numbers in a row, and those that are to be sent again last.
pub fn dense_law()
    ensures { FramesAreDense }
{}

/// A cut takes away just the batches of one frame, which are those from its first number to its last.
pub fn range_law()
    ensures { CutsARange }
{}
