//! Private instructions that a process does away from its kernel, in one call.
ghost use Rattle.std.specs.Prelude.{◌≡◌, Some, None, MatchResult};
ghost use Rattle.sk_plain.specs.declared.refusal.Refusal.TheVariants as refusals;
ghost use Rattle.sk_play.specs.declared.leasing.LeaseTold.TheVariants as tells;
ghost use Rattle.sk_play.specs.Leases.{alone, handed_told, lease_text, refused_told, DeskLeases, KernelLeases, WorldLeases};

use crate::Session;
use sk_client::{Desk, World};
use sk_ids::Pid;
use sk_kernel::HandIn;
use sk_plain::{PrintedRefusal, Refusal};
use sk_script::Lease;
use std::alloc::AllocError;
use std::fmt;

/// What came of private instructions away from the kernel.
#[derive(Clone, Copy, PartialEq, Eq)]
pub enum LeaseTold {
    /// So many were done, each a step of the process without input.
    Ran(u32),
    Refused(Refusal),
    /// A signal is due, which the next step of the process takes.
    Signalled,
}

impl fmt::Display for LeaseTold {
    ghost output = { λ told. Some (lease_text told) };

    fn fmt<W: fmt::Write>(&self, f: &mut fmt::Formatter<W>) -> fmt::Result {
        match self {
            LeaseTold::Ran(count) => write!(f, "{count}"),
            LeaseTold::Refused(refusal) => {
                let refusal = PrintedRefusal(*refusal);
                write!(f, "refused {refusal}")
            }
            LeaseTold::Signalled => f.write_str("refused signal"),
        }
    }
}

/// What is told of a process that is not lent; of want of memory nothing.
fn unlent(why: Refusal) -> Result<LeaseTold, AllocError>
    ensures { MatchResult result
        (λ told. (told ≡ tells.Refused why) × (why ≡ refusals.Memory → ⊥))
        (λ _. why ≡ refusals.Memory) }
{
    match why {
        Refusal::Memory => Err(AllocError),
        _ => Ok(LeaseTold::Refused(why)),
    }
}

/// What is told of a lease that came back for this; of want of memory nothing.
fn refused(why: HandIn) -> Option<LeaseTold>
    ensures { result ≡ refused_told why }
{
    match why {
        HandIn::Stale => Some(LeaseTold::Signalled),
        HandIn::TraceFull => Some(LeaseTold::Refused(Refusal::TraceFull)),
        HandIn::Memory => None,
    }
}

/// What is told of the hand-in of a lease of so many instructions, which is given up where it came back.
fn told_of(count: u32, handed: Result<(), (Lease, HandIn)>) -> Option<LeaseTold>
    ensures { result ≡ handed_told count (alone handed) }
{
    match handed {
        Ok(()) => Some(LeaseTold::Ran(count)),
        Err((lease, why)) => {
            lease.give_up();
            refused(why)
        }
    }
}

impl Session {
    /// Lends a process, has it do up to so many private instructions, and hands it in. Only where it did some a thing has
    /// changed.
    pub fn lease(&mut self, pid: Pid, count: u32) -> Result<LeaseTold, AllocError>
        ensures held { self.new.holder.held ≡ self.old.holder.held }
        ensures told { MatchResult result
            (λ told. KernelLeases (Some told) pid count self.old.holder.kernel
            self.new.holder.kernel)
            (λ _. KernelLeases None pid count self.old.holder.kernel self.new.holder.kernel) }
    {
        let mut lease = match self.kernel().lease(pid) {
            Ok(lease) => lease,
            Err(why) => return unlent(why),
        };
        lease.run(count);
        let done = lease.count();
        match told_of(done, self.hand_in(lease)) {
            Some(told) => Ok(told),
            None => Err(AllocError),
        }
    }
}

/// Leases a process of a desk, has it do up to so many private instructions, and hands it in.
pub fn lease_at_desk(desk: &mut Desk, pid: Pid, count: u32) -> Result<LeaseTold, AllocError>
    ensures { MatchResult result (λ told. DeskLeases (Some told) pid count desk.old desk.new)
        (λ _. DeskLeases None pid count desk.old desk.new) }
{
    let mut lease = match desk.lease(pid) {
        Ok(lease) => lease,
        Err(why) => return unlent(why),
    };
    lease.run(count);
    let done = lease.count();
    match told_of(done, desk.hand_in(lease)) {
        Some(told) => Ok(told),
        None => Err(AllocError),
    }
}

/// Leases a process of a world's desk, has it do up to so many private instructions, and hands it in.
pub fn lease_in_world(world: &mut World, pid: Pid, count: u32) -> Result<LeaseTold, AllocError>
    ensures { MatchResult result (λ told. WorldLeases (Some told) pid count world.old world.new)
        (λ _. WorldLeases None pid count world.old world.new) }
{
    let mut lease = match world.desk().lease(pid) {
        Ok(lease) => lease,
        Err(why) => return unlent(why),
    };
    lease.run(count);
    let done = lease.count();
    match told_of(done, world.hand_in(lease)) {
        Some(told) => Ok(told),
        None => Err(AllocError),
    }
}
