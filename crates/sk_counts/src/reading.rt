//! A kernel's trace, read event by event.
ghost use Rattle.std.specs.Prelude.{◌≡◌, length, max, IfOk};
ghost use Rattle.sk_kernel.specs.Kernel.{record_at};
ghost use Rattle.sk_counts.specs.Counts.{most_up_to};

use sk_kernel::Kernel;
use sk_plain::Standing;
use std::alloc::{AllocError, Global};

/// The larger of two numbers.
fn larger(one: usize, other: usize) -> usize
    ensures { result ≡ max one other }
{
    if one < other { other } else { one }
}

/// Reads a kernel's trace to its end: how many entries its record has, and how many guesses were undecided at most.
/// Refused only for want of memory.
pub(crate) fn read_trace(alloc: Global, kernel: &Kernel) -> Result<(usize, usize), AllocError>
    ensures left { IfOk result (λ read. read.0 ≡ length (record_at kernel.now)) }
    ensures most { IfOk result (λ read. read.1 ≡ most_up_to kernel.now (length kernel.now.trace)) }
{
    let start = kernel.opening().start();
    let mut standing = Standing::new(alloc, start.state().copy()?);
    let mut most = 0;
    for event in kernel.trace().events() {
        standing.go_on(alloc, start.scripts(), event)?;
        most = larger(most, standing.undecided.len());
    }
    Ok((standing.settled.len() + standing.behind.len(), most))
}
