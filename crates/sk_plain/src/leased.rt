//! Processes that are lent, which do private instructions away from their kernel.
ghost use Rattle.std.specs.Prelude.{◌≡◌, ◌↔◌, IsTrue};
ghost use Rattle.sk_script.specs.Scripts.{script_at};
ghost use Rattle.sk_plain.specs.Leased.{IsAsLent, Lends, lease_of};

use crate::Refusal;
use crate::next::is_due;
use sk_ids::{Entity, Pid};
use sk_script::{Lease, Process, Scripts};
use sk_store::{EntityState, Look};

/// Whether two processes are the same.
fn is_same(process: &Process, other: &Process) -> bool
    ensures { IsTrue result ↔ (process.now ≡ other.now) }
{
    *process == *other
}

/// Whether a lease can be handed in: the process stands at its place as it was lent, its script is the lease's, and
/// no signal is due. This takes no memory.
pub fn is_as_lent<S: Look>(store: &S, scripts: &Scripts, lease: &Lease) -> bool
    ensures { IsTrue result ↔ IsAsLent (S.look store.now) scripts.now lease.now }
{
    let lent = lease.lent();
    let Some(EntityState::Process(held)) = store.value(Entity::Proc(lent.pid)) else {
        return false;
    };
    let process = held.process();
    if !is_same(process, lent) {
        return false;
    }
    if is_due(store, lent.pid, lent) {
        return false;
    }
    has_script(scripts, lease)
}

/// Whether the script of a lease is the one under its process's script name.
fn has_script(scripts: &Scripts, lease: &Lease) -> bool
    ensures { IsTrue result ↔ (script_at scripts.now lease.now.lent.script ≡ lease.now.script) }
{
    match scripts.get(&lease.lent().script) {
        Some(script) => *script == *lease.script(),
        None => lease.script().is_empty(),
    }
}

/// Lends a process, with its script. Refused with `NoProcess` or `Ended`, and with `Memory` last.
pub fn lease_of<S: Look>(store: &S, scripts: &Scripts, pid: Pid) -> Result<Lease, Refusal>
    ensures { Lends result (lease_of (S.look store.now) scripts.now pid) }
{
    let process = match store.value(Entity::Proc(pid)) {
        Some(EntityState::Process(held)) => held.process(),
        _ => return Err(Refusal::NoProcess),
    };
    if process.ended {
        return Err(Refusal::Ended);
    }
    match scripts.share(&process.script) {
        Ok(script) => Ok(Lease::of(*process, script)),
        Err(_wanting) => Err(Refusal::Memory),
    }
}
