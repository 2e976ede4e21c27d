//! What workers start from: processes by number, a desk on which nothing was done, those who share it, and a gate that is open.
ghost use Rattle.std.specs.Prelude.{◌≡◌, ◌<◌, ◌≤◌, [], IfOk, Some};
ghost use Rattle.sk_ids.specs.Pid.{boot_pid};
ghost use Rattle.sk_client.specs.Desk.{opened_at};
ghost use Rattle.sk_workers.specs.History.{AreFresh};

use sk_client::Desk;
use sk_ids::Pid;
use sk_scenario::Scenario;
use sk_workers::{Gate, Shared, Worker};
use std::alloc::Global;
use std::process::Abort;
use std::sync::ledger::{Blank, Ledger};
use tests_support::wrong::Wrong;

/// Waits for nothing.
#[derive(Drop)]
pub struct FreeGate;

impl Gate for FreeGate {
    fn before(&self, _worker: u8, _turn: u64) {}
}

/// The boot process of a number.
pub fn process(number: u16) -> Pid
    requires { 0 < number }
    ensures { boot_pid number ≡ Some result }
{
    match Pid::boot(number) {
        Some(pid) => pid,
        None => unreachable!(),
    }
}

fn declared(alloc: Global, text: &[u8]) -> Result<Desk, Wrong>
    ensures opened { IfOk result (λ desk. desk ≡ opened_at desk.kernel desk.first) }
    ensures trace { IfOk result (λ desk. desk.kernel.trace ≡ []) }
{
    let scenario = Scenario::parse(alloc, text)?;
    let (desk, _server) = sk_play::desk_of(alloc, &scenario.declarations)?;
    Ok(desk)
}

/// The desk that a scenario's text declares, on which nothing was done.
pub fn desk_of(rt: &impl Abort, alloc: Global, text: &[u8]) -> Desk
    ensures opened { result ≡ opened_at result.kernel result.first }
    ensures trace { result.kernel.trace ≡ [] }
{
    declared(alloc, text).expect(rt, "a desk")
}

/// A desk that so many workers share, and the workers.
pub fn shared_by<L: Ledger>(
    rt: &impl Abort,
    alloc: Global,
    blank: Blank,
    desk: Desk,
    n: u8,
) -> (Shared<L>, Vec<Worker<L>>)
    requires ledger { (blank.name ≡ L.name) × (blank.parts ≡ L.parts) × (L.parts ≡ n) }
    requires count { (1 ≤ n) × (n ≤ 8) }
    requires opened { desk ≡ opened_at desk.kernel desk.first }
    requires trace { desk.kernel.trace ≡ [] }
    ensures { AreFresh n result.1.items }
{
    match Shared::<L>::new(alloc, blank, desk, n) {
        Ok(made) => made,
        Err((_blank, desk, _error)) => {
            desk.abandon();
            panic!(rt; "out of memory")
        }
    }
}
