//! A first use: a process goes on from a guessed reply, what it says waits, and then the guess is decided.
#![tactic(auto)]

ghost use Rattle.std.specs.Prelude.{◌≡◌, [], length, IfOk};
ghost use Rattle.hidewillow.specs.Kernel.{texts_at};
ghost use Rattle.hidewillow.specs.Holder.{holding};
ghost use Rattle.hidewillow.specs.Machine.{released};

use hidewillow::{Fault, FaultKind, Holder, InputRef, Kernel, Pid, Refusal, Scenario};
use std::alloc::Global;

/// Process 1 reads a remote file, of which it has a copy, and says what it read to terminal 1.
const START: &[u8] =
    b"script main\nfetch /x\nsay\nend\ncopy /x 3 \"old\"\nprocess 1 main 1\nsteps\n";

/// The kernel that a text declares; no guess is made, and nothing has happened.
pub fn boot(alloc: Global, text: &[u8]) -> Result<Holder, Fault>
    ensures no_guess { IfOk result (λ holder. holder ≡ holding holder.kernel) }
    ensures no_event { IfOk result (λ holder. holder.kernel.trace ≡ []) }
{
    let scenario = Scenario::parse(alloc, text)?;
    let said = &scenario.declarations;
    match Kernel::boot(alloc, said.number(), said.boot(), said.limit()) {
        Ok(kernel) => Ok(Holder::new(alloc, kernel)),
        Err(_) => Err(Fault {
            line: 1,
            kind: FaultKind::Memory,
        }),
    }
}

/// How many texts terminal 1 shows: those that depend on no undecided guess, up to the first that does.
pub fn shown(kernel: &Kernel) -> usize
    ensures { result ≡ length (released (texts_at kernel.now 1)) }
{
    match kernel.terminal(1) {
        Some(terminal) => terminal.released().len(),
        None => 0,
    }
}

/// A process goes on from its copy, and the guess is decided. Answers what terminal 1 shows in between, and
/// at the end.
pub fn go_on(holder: &mut Holder, pid: Pid, is_right: bool) -> Result<(usize, usize), Refusal>
    ensures shown { IfOk result
        (λ seen. seen.1 ≡ length (released (texts_at holder.new.kernel 1))) }
{
    let guess = holder.guess(pid, InputRef::Good)?;
    holder.step(pid, InputRef::None)?;
    let on_the_guess = shown(holder.kernel());
    if is_right {
        holder.commit(guess);
    } else {
        holder.fail(guess);
    }
    Ok((on_the_guess, shown(holder.kernel())))
}

fn main(rt: HostRuntime) -> anyhow::Result<()> {
    let Some(pid) = Pid::boot(1) else {
        return Ok(());
    };
    for is_right in [true, false] {
        let mut holder = boot(rt.alloc(), START)?;
        // A holder has the tokens of its guesses, which can't be lost: it is ended before any `?`. `abandon` fails
        // what is left; where no guess is held, `shut` would hand out the trace and the texts.
        let seen = go_on(&mut holder, pid, is_right);
        holder.abandon();
        let (on_the_guess, decided) = seen?;
        println!(rt; "shown on the guess: {on_the_guess}, once it is decided: {decided}")?;
    }
    Ok(())
}
