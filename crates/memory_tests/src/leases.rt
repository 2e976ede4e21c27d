//! Leases between the steps of a scenario, on a kernel and on a desk.
ghost use Rattle.std.specs.Prelude.{◌≡◌, IfOk};
ghost use Rattle.sk_play.specs.Plays.{declared_kernel};

use crate::sights::{Sight, shows};
use sk_client::Desk;
use sk_ids::Pid;
use sk_kernel::{HandIn, Holder, Kernel};
use sk_plain::Refusal;
use sk_scenario::{Call, Declarations};
use sk_script::{Boot, Lease};
use std::alloc::{AllocError, Global};
use std::io::Write;
use tests_support::finding::Finding;

/// How many private instructions a lease is to run at most.
const AHEAD: u32 = 2;

/// What lends processes and takes them in again.
trait Lender {
    fn kernel(&self) -> &Kernel;

    fn lease(&self, pid: Pid) -> Result<Lease, Refusal>;

    fn hand_in(&mut self, lease: Lease) -> Result<(), (Lease, HandIn)>;
    /// Makes a call, or takes the turn of its process.
    fn call(&mut self, call: &Call) -> Result<(), Refusal>;
}

impl Lender for Holder {
    fn kernel(&self) -> &Kernel {
        Holder::kernel(self)
    }

    fn lease(&self, pid: Pid) -> Result<Lease, Refusal> {
        Holder::kernel(self).lease(pid)
    }

    fn hand_in(&mut self, lease: Lease) -> Result<(), (Lease, HandIn)> {
        Holder::hand_in(self, lease)
    }

    fn call(&mut self, call: &Call) -> Result<(), Refusal> {
        match call {
            Call::Step(pid, input) => return self.step(*pid, input.lend()),
            Call::Guess(pid, input) => {
                self.guess(*pid, input.lend())?;
            }
            Call::Commit(id) => {
                self.commit(*id);
            }
            Call::Fail(id) => {
                self.fail(*id);
            }
        }
        Ok(())
    }
}

impl Lender for Desk {
    fn kernel(&self) -> &Kernel {
        Desk::kernel(self)
    }

    fn lease(&self, pid: Pid) -> Result<Lease, Refusal> {
        Desk::lease(self, pid)
    }

    fn hand_in(&mut self, lease: Lease) -> Result<(), (Lease, HandIn)> {
        Desk::hand_in(self, lease)
    }

    fn call(&mut self, call: &Call) -> Result<(), Refusal> {
        match call {
            Call::Step(pid, _) | Call::Guess(pid, _) => {
                self.turn(*pid)?;
            }
            Call::Commit(_) | Call::Fail(_) => {}
        }
        Ok(())
    }
}

/// Puts a lease out.
fn put(out: &mut Option<Lease>, lease: Lease) {
    if let Some(before) = out.replace(lease) {
        before.give_up();
    }
}

/// Leases a process, once more where memory was wanted.
fn lease<L: Lender>(lender: &L, pid: Pid) -> Result<Lease, Refusal> {
    match lender.lease(pid) {
        Err(Refusal::Memory) => lender.lease(pid),
        told => told,
    }
}

/// Leases a process, and runs its private instructions.
fn lends<L: Lender>(lender: &L, pid: Pid, out: &mut Option<Lease>) -> Result<(), Finding> {
    match lease(lender, pid) {
        Ok(mut lease) => {
            lease.run(AHEAD);
            put(out, lease);
            Ok(())
        }
        Err(Refusal::Memory) => Err(Finding::Memory(AllocError)),
        Err(_) => Ok(()),
    }
}

/// Makes a call again, for which memory was wanted, where nothing has changed.
fn calls_again<L: Lender>(
    alloc: Global,
    lender: &mut L,
    call: &Call,
    before: &Sight,
) -> Result<(), Finding> {
    before.stands(alloc, lender.kernel())?;
    match lender.call(call) {
        Err(Refusal::Memory) => Err(Finding::Memory(AllocError)),
        _ => Ok(()),
    }
}

/// Makes a call, once more where memory was wanted and nothing has changed.
fn calls<L: Lender>(alloc: Global, lender: &mut L, call: &Call) -> Result<(), Finding> {
    let before = Sight::of(alloc, lender.kernel())?;
    match lender.call(call) {
        Err(Refusal::Memory) => calls_again(alloc, lender, call, &before),
        _ => Ok(()),
    }
}

/// Hands in the lease that is out. It stays out where memory was wanted, and is given up where it
/// comes back otherwise.
fn tries<L: Lender>(lender: &mut L, out: &mut Option<Lease>) -> Result<(), HandIn> {
    let Some(lease) = out.take() else {
        return Ok(());
    };
    match lender.hand_in(lease) {
        Ok(()) => Ok(()),
        Err((lease, HandIn::Memory)) => {
            put(out, lease);
            Err(HandIn::Memory)
        }
        Err((lease, why)) => {
            lease.give_up();
            Err(why)
        }
    }
}

/// Hands in the lease that is out again, for which memory was wanted, where nothing has changed.
fn hands_in_again<L: Lender>(
    alloc: Global,
    lender: &mut L,
    out: &mut Option<Lease>,
    before: &Sight,
) -> Result<Result<(), HandIn>, Finding> {
    before.stands(alloc, lender.kernel())?;
    match tries(lender, out) {
        Err(HandIn::Memory) => Err(Finding::Memory(AllocError)),
        told => Ok(told),
    }
}

/// Hands in the lease that is out, once more where memory was wanted and nothing has changed.
fn hands_in<L: Lender>(
    alloc: Global,
    lender: &mut L,
    out: &mut Option<Lease>,
) -> Result<Result<(), HandIn>, Finding> {
    let before = Sight::of(alloc, lender.kernel())?;
    match tries(lender, out) {
        Err(HandIn::Memory) => hands_in_again(alloc, lender, out, &before),
        told => Ok(told),
    }
}

/// How many instructions the lease that is out has run.
fn count_of(out: &Option<Lease>) -> u32 {
    match out {
        Some(lease) => lease.count(),
        None => 0,
    }
}

/// Tells what a hand-in is answered.
fn tells<W: Write>(count: u32, answer: Result<(), HandIn>, to: &mut W) -> Result<(), Finding> {
    Ok(writeln!(to, "leased {count}, {answer:?}")?)
}

/// Makes a call with a process leased before it, which is handed in after it.
fn lends_once<L: Lender, W: Write>(
    alloc: Global,
    lender: &mut L,
    pid: Pid,
    call: &Call,
    out: &mut Option<Lease>,
    to: &mut W,
) -> Result<(), Finding> {
    lends(lender, pid, out)?;
    let count = count_of(out);
    calls(alloc, lender, call)?;
    let answer = hands_in(alloc, lender, out)?;
    tells(count, answer, to)
}

/// Makes the calls. Before each of them a process is leased, one after the other, and handed in
/// after it.
fn lends_all<L: Lender, W: Write>(
    alloc: Global,
    lender: &mut L,
    pids: &[Pid],
    steps: &[Call],
    out: &mut Option<Lease>,
    to: &mut W,
) -> Result<(), Finding> {
    for (pid, call) in pids.iter().cycle().zip(steps.iter()) {
        lends_once(alloc, lender, *pid, call, out, to)?;
    }
    shows(alloc, lender.kernel(), to)
}

/// Makes the calls with leases between them, and gives up the lease that is out at the end.
fn lends_between<L: Lender, W: Write>(
    alloc: Global,
    lender: &mut L,
    pids: &[Pid],
    steps: &[Call],
    to: &mut W,
) -> Result<(), Finding> {
    let mut out = None;
    let told = lends_all(alloc, lender, pids, steps, &mut out, to);
    if let Some(lease) = out {
        lease.give_up();
    }
    told
}

fn try_kernel(alloc: Global, declarations: &Declarations) -> Result<Kernel, AllocError>
    ensures { IfOk result (λ kernel. kernel ≡ declared_kernel declarations.now) }
{
    let boot = declarations.boot();
    Kernel::boot(alloc, declarations.number(), boot, declarations.limit())
}

fn kernel_of(alloc: Global, declarations: &Declarations) -> Result<Kernel, AllocError>
    ensures { IfOk result (λ kernel. kernel ≡ declared_kernel declarations.now) }
{
    match try_kernel(alloc, declarations) {
        Ok(kernel) => Ok(kernel),
        Err(AllocError) => try_kernel(alloc, declarations),
    }
}

/// Adds the processes of a boot.
fn adds_pids(pids: &mut Vec<Pid>, boot: &Boot) -> Result<(), AllocError> {
    for process in boot.processes() {
        if let Some(pid) = Pid::boot(process.number) {
            pids.push(pid)?;
        }
    }
    Ok(())
}

fn try_pids(alloc: Global, declarations: &Declarations) -> Result<Vec<Pid>, AllocError> {
    let mut pids = Vec::new(alloc);
    adds_pids(&mut pids, declarations.boot())?;
    Ok(pids)
}

fn pids_of(alloc: Global, declarations: &Declarations) -> Result<Vec<Pid>, AllocError> {
    match try_pids(alloc, declarations) {
        Ok(pids) => Ok(pids),
        Err(AllocError) => try_pids(alloc, declarations),
    }
}

/// Plays steps with leases between them on a kernel.
fn plays_on_a_kernel<W: Write>(
    alloc: Global,
    declarations: &Declarations,
    pids: &[Pid],
    steps: &[Call],
    out: &mut W,
) -> Result<(), Finding> {
    let mut holder = Holder::new(alloc, kernel_of(alloc, declarations)?);
    let played = lends_between(alloc, &mut holder, pids, steps, out);
    holder.abandon();
    played
}

/// Plays the turns of their processes with leases between them on a desk.
fn plays_on_a_desk<W: Write>(
    alloc: Global,
    declarations: &Declarations,
    pids: &[Pid],
    steps: &[Call],
    out: &mut W,
) -> Result<(), Finding> {
    let mut desk = Desk::new(alloc, kernel_of(alloc, declarations)?);
    let played = lends_between(alloc, &mut desk, pids, steps, out);
    desk.abandon();
    played
}

/// Plays the turns with leases between them on a kernel, and then on a desk.
fn plays_on_both<W: Write>(
    alloc: Global,
    declarations: &Declarations,
    pids: &[Pid],
    steps: &[Call],
    out: &mut W,
) -> Result<(), Finding> {
    plays_on_a_kernel(alloc, declarations, pids, steps, out)?;
    plays_on_a_desk(alloc, declarations, pids, steps, out)
}

/// Plays steps with leases between them on a kernel, and the turns of their processes on a desk.
pub fn plays_leases<W: Write>(
    alloc: Global,
    declarations: &Declarations,
    steps: &[Call],
    out: &mut W,
) -> Result<(), Finding> {
    let pids = pids_of(alloc, declarations)?;
    plays_on_both(alloc, declarations, &pids, steps, out)
}
