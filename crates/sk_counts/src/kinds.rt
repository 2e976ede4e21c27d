//! The kinds of events that are counted.
ghost use Rattle.std.specs.Prelude.{◌≡◌, count_by};
ghost use Rattle.sk_counts.specs.Counts.{is_step, is_guess, is_commit, is_failure, is_struck, is_struck_status, makes_struck};

use sk_ids::GuessId;
use sk_kernel::Kernel;
use sk_record::Status;
use sk_trace::Event;

/// Whether an event takes a step, which may be a guess's.
pub(crate) fn is_step(event: &Event) -> bool
    ensures { result ≡ is_step event.now }
{
    match event {
        Event::Step { .. } | Event::Guess { .. } => true,
        Event::Commit(_) | Event::Fail(_) => false,
    }
}

/// Whether an event makes a guess.
pub(crate) fn is_guess(event: &Event) -> bool
    ensures { result ≡ is_guess event.now }
{
    match event {
        Event::Guess { .. } => true,
        Event::Step { .. } | Event::Commit(_) | Event::Fail(_) => false,
    }
}

/// Whether an event commits a guess.
pub(crate) fn is_commit(event: &Event) -> bool
    ensures { result ≡ is_commit event.now }
{
    match event {
        Event::Commit(_) => true,
        Event::Step { .. } | Event::Guess { .. } | Event::Fail(_) => false,
    }
}

/// Whether an event fails a guess.
pub(crate) fn is_failure(event: &Event) -> bool
    ensures { result ≡ is_failure event.now }
{
    match event {
        Event::Fail(_) => true,
        Event::Step { .. } | Event::Guess { .. } | Event::Commit(_) => false,
    }
}

/// Whether a guess was struck.
fn is_struck(status: Option<Status>) -> bool
    ensures { result ≡ is_struck_status status }
{
    match status {
        Some(Status::Struck) => true,
        Some(Status::Undecided | Status::Committed | Status::Failed) | None => false,
    }
}

/// Whether a guess of the trace was struck; false of one that an earlier epoch made.
fn is_struck_here(kernel: &Kernel, id: GuessId) -> bool
    ensures { result ≡ is_struck kernel.now id }
{
    let _sound = kernel.trace();
    if id.number() < kernel.opening().guess() {
        return false;
    }
    is_struck(kernel.status(id))
}

/// Whether it makes a guess that was struck later.
pub(crate) fn makes_struck(kernel: &Kernel, event: &Event) -> bool
    ensures { result ≡ makes_struck kernel.now event.now }
{
    match event {
        Event::Guess { id, .. } => is_struck_here(kernel, *id),
        Event::Step { .. } | Event::Commit(_) | Event::Fail(_) => false,
    }
}

/// How many steps that are taken among these events.
pub(crate) fn steps_in(events: &[Event]) -> usize
    ensures { result ≡ count_by is_step events.now }
{
    events.iter().filter(|event| is_step(event)).count()
}

/// How many guesses that are made among these events.
pub(crate) fn guesses_in(events: &[Event]) -> usize
    ensures { result ≡ count_by is_guess events.now }
{
    events.iter().filter(|event| is_guess(event)).count()
}

/// How many commits among these events.
pub(crate) fn commits_in(events: &[Event]) -> usize
    ensures { result ≡ count_by is_commit events.now }
{
    events.iter().filter(|event| is_commit(event)).count()
}

/// How many failures among these events.
pub(crate) fn failures_in(events: &[Event]) -> usize
    ensures { result ≡ count_by is_failure events.now }
{
    events.iter().filter(|event| is_failure(event)).count()
}

/// How many guesses of a kernel were struck.
pub(crate) fn struck_in(kernel: &Kernel) -> usize
    ensures { result ≡ count_by (makes_struck kernel.now) kernel.now.trace }
{
    kernel
        .trace()
        .events()
        .iter()
        .filter(|event| makes_struck(kernel, event))
        .count()
}
