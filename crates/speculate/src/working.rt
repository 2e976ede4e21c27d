//! Work: a crew takes turns of the processes that a scenario declares.
ghost use Rattle.std.specs.Prelude.{◌≡◌, ◌++◌, IfOk, IfSome, OnErr, OnOk};
ghost use Rattle.std.specs.Int.{IsInRange};
ghost use Rattle.std.specs.Io.KnownBytes.{Appends};
ghost use Rattle.std.specs.Io.Buffered.{writer_buffer, writer_contents};
ghost use Rattle.sk_command.specs.Ends.{IsFlushed};
ghost use Rattle.sk_play.specs.WorldReport.{desk_report_text, workers_line};
ghost use Rattle.speculate.specs.Work.{AppendsFront, CanLeave, EndsWork, IsTold};

use sk_client::Desk;
use sk_command::end::{End, flushed};
use sk_crew::{CrewPlan, run_crew};
use sk_play::{desk_of, write_desk_report, write_workers};
use sk_report::Stop;
use sk_scenario::Declarations;
use sk_server::Server;
use sk_workers::{Gate, History};
use std::alloc::Global;
use std::io::{BufWriter, ErrorKind, Write};
use std::marker::Brand;
use std::sync::Wait;
use std::sync::ledger::Blank;
use std::thread::Threads;

/// How many private instructions a worker runs at most before each of its turns.
const AHEAD: u32 = 64;

/// A gate that lets every worker pass at once.
#[derive(Drop)]
struct Unguarded;

impl Gate for Unguarded {
    fn before(&self, _worker: u8, _turn: u64) {}
}

/// What a crew leaves: its desk and its server, and how many calls of the desk its workers made.
struct Worked {
    desk: Desk,
    server: Server,
    calls: usize,
}

/// Lets 1 to 8 workers take so many turns at most each of the processes that are declared, writes the report of the desk that
/// they leave, and their number and that of their calls, and writes out what the output buffers.
pub(crate) fn run_work<R: Threads + Wait + Sync, W: Write + Drop>(
    rt: &R,
    alloc: Global,
    workers: u8,
    turns: u32,
    declarations: &Declarations,
    out: &mut BufWriter<W>,
) -> End
    requires { IsInRange 1 8 workers }
    ensures end { EndsWork workers turns declarations.now result
        (writer_contents W.contents out.old) (writer_contents W.contents out.new) }
    ensures flushed { IsFlushed result (writer_buffer out.new) }
{
    let Some(worked) = work(rt, alloc, workers, turns, declarations) else {
        return End::Trouble;
    };
    tell_worked(alloc, workers, worked, out)
}

/// Lets a crew work that has a ledger of its own: each worker has a thread of its own, and the server has another. `None` where
/// memory ran out, or the desk could not be closed.
fn work<R: Threads + Wait + Sync>(
    rt: &R,
    alloc: Global,
    workers: u8,
    turns: u32,
    declarations: &Declarations,
) -> Option<Worked>
    requires { IsInRange 1 8 workers }
    ensures { IfSome result (λ worked. CanLeave workers turns declarations.now
        worked.calls worked.desk) }
{
    let Ok((desk, server)) = desk_of(alloc, declarations) else {
        return None;
    };
    let plan = CrewPlan {
        workers,
        turns,
        ahead: AHEAD,
    };
    let blank = Blank::new(u64::from(workers));
    let Ok((history, server)) = run_crew::<Brand, R, Unguarded>(
        rt, alloc, blank, desk, server, plan, &Unguarded,
    ) else {
        return None;
    };
    let History { entries, desk } = history;
    let calls = entries.len();
    Some(Worked {
        desk,
        server,
        calls,
    })
}

/// Writes out the report of what a crew left, and the line of workers; nothing of them where memory runs out.
fn tell_worked<W: Write + Drop>(
    alloc: Global,
    workers: u8,
    worked: Worked,
    out: &mut BufWriter<W>,
) -> End
    ensures end { IsTold
        (desk_report_text worked.desk worked.server ++ workers_line workers worked.calls) result
        (writer_contents W.contents out.old) (writer_contents W.contents out.new) }
    ensures flushed { IsFlushed result (writer_buffer out.new) }
{
    let Worked {
        desk,
        server,
        calls,
    } = worked;
    let text = worked_text(alloc, workers, &desk, &server, calls);
    desk.abandon();
    match text {
        Ok(text) => tell(text.as_slice(), out),
        Err(_) => End::Trouble,
    }
}

/// The report of a desk and a server, and the line of workers.
fn worked_text(
    alloc: Global,
    workers: u8,
    desk: &Desk,
    server: &Server,
    calls: usize,
) -> Result<Vec<u8>, Stop>
    ensures { IfOk result (λ text. text.items
        ≡ desk_report_text desk.now server.now ++ workers_line workers calls) }
{
    let mut text = Vec::new(alloc);
    write_desk_report(alloc, desk, server, &mut text)?;
    write_workers(workers, calls, &mut text)?;
    Ok(text)
}

/// Writes out a text.
fn tell<W: Write + Drop>(text: &[u8], out: &mut BufWriter<W>) -> End
    ensures end { IsTold text.now result
        (writer_contents W.contents out.old) (writer_contents W.contents out.new) }
    ensures flushed { IsFlushed result (writer_buffer out.new) }
{
    match put(text, out) {
        Ok(()) => flushed(out),
        Err(_) => End::OutputRefused,
    }
}

/// Writes a text, of which a beginning stands there where the output refuses the rest.
fn put<W: Write>(text: &[u8], out: &mut W) -> Result<(), Stop>
    ensures ok { OnOk result (Appends (W.contents out.old) (W.contents out.new) text.now) }
    ensures err { OnErr result
        (AppendsFront (W.contents out.old) (W.contents out.new) text.now) }
{
    let mut rest = text;
    for _ in 0..u64::MAX {
        if rest.is_empty() {
            return Ok(());
        }
        match out.write(rest) {
            Ok(0) => return Err(Stop::Output),
            Ok(count) => rest = &rest[count..],
            Err(error) => {
                if error.kind() != ErrorKind::Interrupted {
                    return Err(Stop::Output);
                }
            }
        }
    }
    Err(Stop::Output)
}
