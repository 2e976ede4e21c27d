//! Leases of a desk.
ghost use Rattle.std.specs.Prelude.{◌≡◌};
ghost use Rattle.sk_client.specs.Base.{state_at, Lends, lease_of};
ghost use Rattle.std.specs.FinMap as map;
ghost use Rattle.sk_client.specs.Leasing.{blocked_why, desk_lease, WhyShort, DeskHandInPost};

use crate::Desk;
use sk_ids::{Entity, Pid};
use sk_kernel::HandIn;
use sk_plain::{Refusal, View};
use sk_script::Lease;

impl Desk {
    /// Lends a process with its script, for private instructions away from the desk. Refusals: `NoProcess`, `Ended`,
    /// `Blocked` where the process waits for a reply, and `Memory` last.
    pub fn lease(&self, pid: Pid) -> Result<Lease, Refusal>
        ensures { Lends result (desk_lease self.now pid) }
    {
        if self.asks_for(pid) {
            return Err(self.blocked_why(pid));
        }
        self.kernel().lease(pid)
    }

    /// Why a process that waits for a reply is not lent.
    fn blocked_why(&self, pid: Pid) -> Refusal
        ensures { result ≡ blocked_why
            (lease_of (map.get (state_at self.now.kernel)) self.now.kernel.scripts pid) }
    {
        match self.kernel().value(&Entity::Proc(pid)) {
            Some(View::Process(process)) if process.ended => Refusal::Ended,
            Some(View::Process(_)) => Refusal::Blocked,
            _ => Refusal::NoProcess,
        }
    }

    /// Takes a lease in, as the kernel does, with one place of the trace kept for the step of each asked request. After
    /// a refusal the lease comes back, and everything is as it was.
    pub fn hand_in(&mut self, lease: Lease) -> Result<(), (Lease, HandIn)>
        ensures { DeskHandInPost result lease self.old self.new }
    {
        if self.free_places() < lease.count() as usize {
            let why = self.why_short(&lease);
            return Err((lease, why));
        }
        self.holder.hand_in(lease)
    }

    /// Why a lease comes back for whose steps there are no places.
    fn why_short(&self, lease: &Lease) -> HandIn
        ensures { WhyShort result self.now lease.now }
    {
        if self.kernel().as_lent(lease) {
            return HandIn::TraceFull;
        }
        HandIn::Stale
    }
}
