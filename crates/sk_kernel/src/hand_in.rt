//! Private instructions away from the kernel: a process is lent, and handed in with what it did.
ghost use Rattle.std.specs.Prelude.{◌≡◌, ◌↔◌, ◌+◌, ◌<◌, ◌≤◌, ◌++◌, IsTrue, replicate};
ghost use Rattle.std.specs.FinMap as map;
ghost use Rattle.sk_plain.specs.Leased.{Lends, lease_of};
ghost use Rattle.sk_kernel.specs.Kernel.{state_at, room};
ghost use Rattle.sk_kernel.specs.HandIn.{alone_step, IsAsLent, TakesIn, HandInPost};

use crate::Kernel;
use sk_ids::Pid;
use sk_plain::{Event, KeptInput, Refusal, Trace, is_as_lent, lease_of};
use sk_script::Lease;
use thiserror::Error;

/// Why a lease came back, in the order in which the causes are tried; nothing has changed.
#[derive(Clone, Copy, Debug, PartialEq, Eq, Error)]
pub enum HandIn {
    /// The process or its script is not as it was lent, or a signal is due.
    #[error("the process or its script is not as it was lent, or a signal is due")]
    Stale,
    /// The trace has fewer places left than instructions were done.
    #[error("the trace is full")]
    TraceFull,
    /// A growth was refused.
    #[error("out of memory")]
    Memory,
}

/// Adds so many steps of a process without input to a trace, for which there is room.
fn append(trace: &mut Trace, pid: Pid, count: u32)
    requires { count ≤ trace.old.room }
    ensures events { trace.new.events ≡ trace.old.events ++ replicate count (alone_step pid) }
    ensures room { trace.new.room + count ≡ trace.old.room }
{
    for _ in 0..count {
        let input = KeptInput::none();
        trace.push(Event::Step { pid, input });
    }
}

impl Kernel {
    /// Lends a process with its script, for private instructions away from the kernel. Refused with `NoProcess` or
    /// `Ended`, and with `Memory` last.
    pub fn lease(&self, pid: Pid) -> Result<Lease, Refusal>
        ensures { Lends result (lease_of (map.get (state_at self.now)) self.now.scripts pid) }
    {
        lease_of(&self.machine, self.opening.scripts(), pid)
    }

    /// Whether a lease's process and its script are as they were lent, and no signal is due: false exactly where
    /// `hand_in` would answer `Stale`. This takes no memory.
    pub fn as_lent(&self, lease: &Lease) -> bool
        ensures { IsTrue result ↔ IsAsLent self.now lease.now }
    {
        is_as_lent(&self.machine, self.opening.scripts(), lease)
    }

    /// Takes a lease in: its instructions are steps of its process, one after another. After a refusal it comes back
    /// and the kernel is as it was; with no instruction done there is nothing to do.
    pub fn hand_in(&mut self, lease: Lease) -> Result<(), (Lease, HandIn)>
        ensures { HandInPost result lease self.old self.new }
    {
        match self.take_in(&lease) {
            Ok(()) => {
                lease.give_up();
                Ok(())
            }
            Err(why) => Err((lease, why)),
        }
    }

    /// The instructions of a lease become steps of its process, or the kernel is as it was.
    fn take_in(&mut self, lease: &Lease) -> Result<(), HandIn>
        ensures { TakesIn result lease.now self.old self.new }
    {
        if !self.as_lent(lease) {
            return Err(HandIn::Stale);
        }
        let count = lease.count();
        if self.room() < count as usize {
            return Err(HandIn::TraceFull);
        }
        if count == 0 {
            return Ok(());
        }
        self.do_steps(lease, count)
    }

    /// Does the steps of a lease, one or more, for which the trace has places.
    fn do_steps(&mut self, lease: &Lease, count: u32) -> Result<(), HandIn>
        requires as_lent { IsAsLent self.old lease.now }
        requires count { count ≡ lease.now.count }
        requires some { 0 < count }
        requires places { count ≤ room self.old }
        ensures { TakesIn result lease.now self.old self.new }
    {
        let pid = lease.lent().pid;
        let process = lease.now();
        let _limit = self.opening.limit();
        let places = self.machine.open_count() + count as usize;
        if self.trace.reserve(places).is_err() {
            return Err(HandIn::Memory);
        }
        if self.machine.hand_in(pid, process).is_err() {
            return Err(HandIn::Memory);
        }
        append(&mut self.trace, pid, count);
        Ok(())
    }
}
