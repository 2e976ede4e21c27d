//! What explains the answer to an event: its line in the file, and the place at which its process stood.
ghost use Rattle.std.specs.Prelude.{◌≡◌, ◌<◌, OnOk, Err, IfOk};
ghost use Rattle.sk_run.specs.Base.{event_in, lines};
ghost use Rattle.sk_report.specs.declared.stop.Stop.TheVariants as stops;
ghost use Rattle.sk_run.specs.InTurn.{Lists, Writes};
ghost use Rattle.sk_run.specs.Explained.{beside_answers, process_of_call, process_of_event, stand_of, Explains, Shown};

use crate::player::Player;
use sk_command::job::Shows;
use sk_ids::{Entity, Pid};
use sk_kernel::Kernel;
use sk_plain::View;
use sk_report::Stop;
use sk_scenario::{Call, KeptEvent};
use sk_source::{Source, Stand};
use sk_trace::EventRef;
use std::alloc::{AllocError, Global};
use std::io::Write;

/// What is told beside answers: what each step touched, and by the lines of this file what explains each.
#[derive(Drop)]
pub struct Beside<'a> {
    pub steps: bool,
    pub source: Option<Source<'a>>,
}

impl<'a> Beside<'a> {
    /// What is wanted beside the answers to the events of this file.
    pub fn of(alloc: Global, shows: Shows, text: &'a [u8]) -> Result<Beside<'a>, AllocError>
        ensures { IfOk result (λ beside. beside ≡ beside_answers shows (lines text.now)) }
    {
        let steps = shows.steps;
        if !shows.explains {
            return Ok(Beside {
                steps,
                source: None,
            });
        }
        let source = Source::of(alloc, text)?;
        Ok(Beside {
            steps,
            source: Some(source),
        })
    }
}

/// The process of a call; a decision is of none.
pub(crate) fn process_of_call(call: &Call) -> Option<Pid>
    ensures { result ≡ process_of_call call.now }
{
    match call {
        Call::Step(pid, _) | Call::Guess(pid, _) => Some(*pid),
        Call::Commit(_) | Call::Fail(_) => None,
    }
}

/// The process of an event of a world: that of a turn.
pub(crate) fn process_of_event(event: &KeptEvent) -> Option<Pid>
    ensures { result ≡ process_of_event event.now }
{
    process_in(event.lend())
}

/// The process of an event that is lent.
fn process_in(event: EventRef<'_>) -> Option<Pid>
    ensures { result ≡ process_of_event (event_in event.entry) }
{
    match event {
        EventRef::Turn(pid) => Some(*pid),
        EventRef::Serve | EventRef::Reply | EventRef::Edit(..) => None,
    }
}

/// The script of a process and the place of its next instruction, if it is there.
fn stand_of(kernel: &Kernel, pid: Option<Pid>) -> Option<Stand>
    ensures { result ≡ stand_of kernel.now pid }
{
    match kernel.value(&Entity::Proc(pid?)) {
        Some(View::Process(process)) => Some(Stand {
            script: process.script,
            place: process.place,
        }),
        _ => None,
    }
}

/// Takes an item, and writes what is told of it, with what it touched where that is wanted.
fn answer_one<P: Player, W: Write>(
    player: &mut P,
    number: usize,
    item: &P::Item,
    is_listed: bool,
    out: &mut W,
) -> Result<(), Stop>
    ensures told { OnOk result
        (Writes (Lists P.kernel_of P.takes is_listed) number item.now player.old player.new
        (W.contents out.old) (W.contents out.new)) }
    ensures memory { result ≡ Err stops.Memory → out.new ≡ out.old }
{
    if is_listed {
        player.list(number, item, out)
    } else {
        player.take(number, item, out)
    }
}

/// Takes an item as `answer_one` does, and writes what explains it below that.
fn explain_one<P: Player, W: Write>(
    player: &mut P,
    number: usize,
    item: &P::Item,
    is_listed: bool,
    source: &Source,
    out: &mut W,
) -> Result<(), Stop>
    requires { 0 < number }
    ensures told { OnOk result
        (Writes (Explains P.kernel_of P.process_of P.takes is_listed source.now) number item.now
        player.old player.new (W.contents out.old) (W.contents out.new)) }
    ensures memory { result ≡ Err stops.Memory → out.new ≡ out.old }
{
    let stand = stand_of(player.inner_kernel(), P::process(item));
    answer_one(player, number, item, is_listed, out)?;
    source.write_explained(number, stand, out)?;
    Ok(())
}

/// Takes an item, and writes what is told of it, with what is wanted beside that.
pub(crate) fn tell_one<P: Player, W: Write>(
    player: &mut P,
    number: usize,
    item: &P::Item,
    beside: &Beside,
    out: &mut W,
) -> Result<(), Stop>
    requires { 0 < number }
    ensures told { OnOk result
        (Writes (Shown P.kernel_of P.process_of P.takes beside.now) number item.now player.old
        player.new (W.contents out.old) (W.contents out.new)) }
    ensures memory { result ≡ Err stops.Memory → out.new ≡ out.old }
{
    match &beside.source {
        Some(source) => explain_one(player, number, item, beside.steps, source, out),
        None => answer_one(player, number, item, beside.steps, out),
    }
}
