//! The counts of a kernel.
ghost use Rattle.std.specs.Prelude.{IfOk};
ghost use Rattle.sk_counts.specs.Counts.{AreCounts};

use crate::kinds::{commits_in, failures_in, guesses_in, steps_in, struck_in};
use crate::reading::read_trace;
use sk_kernel::Kernel;
use std::alloc::{AllocError, Global};

/// What is counted of a kernel since its boot, or since the last epoch ended.
#[repr(C)]
#[derive(Clone, Copy, Debug, PartialEq, Eq)]
pub struct Counts {
    /// The guesses that were made.
    pub guesses: usize,
    pub committed: usize,
    pub failed: usize,
    /// Those whose own step the failure of another took away.
    pub struck: usize,
    /// The steps that were taken, those of guesses among them.
    pub steps: usize,
    /// The steps that failures took back.
    pub taken_back: usize,
    /// The most guesses that were undecided at once.
    pub most_open: usize,
    /// The notes that are held now for what may be taken back.
    pub notes: usize,
}

impl Counts {
    /// The counts of a kernel, in one pass over its trace, and the notes that it holds. Each failure costs a run of the steps
    /// behind the oldest guess that was undecided there, and no other. Refused only for want of memory.
    pub fn of(alloc: Global, kernel: &Kernel) -> Result<Counts, AllocError>
        ensures { IfOk result (λ counts. AreCounts kernel.now counts) }
    {
        let (left, most_open) = read_trace(alloc, kernel)?;
        let events = kernel.trace().events();
        let steps = steps_in(events);
        Ok(Counts {
            guesses: guesses_in(events),
            committed: commits_in(events),
            failed: failures_in(events),
            struck: struck_in(kernel),
            steps,
            taken_back: steps.saturating_sub(left),
            most_open,
            notes: kernel.notes(),
        })
    }
}
