//! What is seen of a kernel and of a world, as text.
use sk_client::World;
use sk_kernel::Kernel;
use sk_play::write_world_report;
use sk_report::{Stop, write_report};
use sk_trace::Trace;
use std::alloc::{AllocError, Global};
use std::io::Write;
use tests_support::finding::Finding;

/// How much is reserved for what is seen, in bytes.
const SIGHT: usize = 65_536;

/// What has a report and a trace.
pub trait Seen {
    /// Writes the report.
    fn report(&self, alloc: Global, text: &mut Vec<u8>) -> Result<(), Stop>;

    fn trace(&self) -> &Trace;

    /// The number of the request whose reply is next, where there are requests.
    fn expected(&self) -> u64;
}

impl Seen for Kernel {
    fn report(&self, alloc: Global, text: &mut Vec<u8>) -> Result<(), Stop> {
        write_report(alloc, self, text)
    }

    fn trace(&self) -> &Trace {
        Kernel::trace(self)
    }

    fn expected(&self) -> u64 {
        0
    }
}

impl Seen for World {
    fn report(&self, alloc: Global, text: &mut Vec<u8>) -> Result<(), Stop> {
        write_world_report(alloc, self, text)
    }

    fn trace(&self) -> &Trace {
        self.desk().kernel().trace()
    }

    fn expected(&self) -> u64 {
        self.desk().expected()
    }
}

/// What is seen: the report, the line `trace` and the trace, and the request whose reply is next.
#[derive(Drop)]
pub struct Sight {
    text: Vec<u8>,
    expected: u64,
}

/// Writes the line `trace`, and a trace.
fn write_trace(alloc: Global, trace: &Trace, text: &mut Vec<u8>) -> Result<(), Stop> {
    text.extend_from_slice(b"trace\n")?;
    let printed = trace.print(alloc)?;
    Ok(text.extend_from_slice(&printed)?)
}

fn write_seen<S: Seen>(alloc: Global, seen: &S, text: &mut Vec<u8>) -> Result<(), Stop> {
    seen.report(alloc, text)?;
    write_trace(alloc, seen.trace(), text)
}

fn try_text<S: Seen>(alloc: Global, seen: &S) -> Result<Vec<u8>, Stop> {
    let mut text = Vec::with_capacity(alloc, SIGHT)?;
    write_seen(alloc, seen, &mut text)?;
    Ok(text)
}

fn text_of<S: Seen>(alloc: Global, seen: &S) -> Result<Vec<u8>, Stop> {
    match try_text(alloc, seen) {
        Ok(text) => Ok(text),
        Err(_) => try_text(alloc, seen),
    }
}

impl Sight {
    /// What is seen now.
    pub fn of<S: Seen>(alloc: Global, seen: &S) -> Result<Sight, Finding> {
        let expected = seen.expected();
        match text_of(alloc, seen) {
            Ok(text) => Ok(Sight { text, expected }),
            Err(_) => Err(Finding::Memory(AllocError)),
        }
    }

    /// Fine where the same is seen.
    fn same(&self, other: &Sight) -> Result<(), Finding> {
        if self.text.as_slice() == other.text.as_slice() && self.expected == other.expected {
            Ok(())
        } else {
            Err(Finding::Changed)
        }
    }

    /// Fine where the same is still seen.
    pub fn stands<S: Seen>(&self, alloc: Global, seen: &S) -> Result<(), Finding> {
        let now = Sight::of(alloc, seen)?;
        self.same(&now)
    }

    /// Writes it.
    fn shows<W: Write>(&self, out: &mut W) -> Result<(), Finding> {
        Ok(out.write_all(&self.text)?)
    }
}

/// Writes what is seen now.
pub fn shows<S: Seen, W: Write>(alloc: Global, seen: &S, out: &mut W) -> Result<(), Finding> {
    let sight = Sight::of(alloc, seen)?;
    sight.shows(out)
}

/// Tells by an empty write, which leaves the output as it is, that a call begins.
pub fn begins<W: Write>(out: &mut W) -> Result<(), Finding> {
    let _ = out.write(b"")?;
    Ok(())
}
