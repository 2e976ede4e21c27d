//! The run of the program, from its words to its end.
ghost use Rattle.std.specs.Prelude.{◌≡◌, map, codes, string_bytes};
ghost use Rattle.std.specs.Str.Lines.{lines};
ghost use Rattle.std.specs.Io.Buffered.{writer_buffer, writer_contents};
ghost use Rattle.sk_command.specs.CommandLine.{wish_of, IsWithinBounds};
ghost use Rattle.sk_command.specs.Ends.{IsFlushed};
ghost use Rattle.sk_command.specs.Messages.{message_text};
ghost use Rattle.sk_scenario.specs.Scenario.{section_view};
ghost use Rattle.speculate.specs.Program.{EndsRead, EndsText, EndsFile, EndsWords, section_told};

use crate::working::run_work;
use sk_command::end::{End, tell_fault, tell_wrong_section};
use sk_command::job::{Job, Task, asked, explain};
use sk_command::message::{Message, write_message};
use sk_command::open_input::{OpenInput, input};
use sk_faults::write_detail;
use sk_run::plain_run::run_trace;
use sk_run::playing::{run_steps, run_world};
use sk_run::replaying::run_replay;
use sk_run::talking::talk_declared;
use sk_scenario::{Scenario, Section};
use sk_words::Fault;
use std::alloc::Global;
use std::io::{BufWriter, Write};
use std::sync::Wait;
use std::thread::Threads;

/// Runs the program on its words, of which the first is its own name. Of `work` each worker has a thread of its own, and
/// the server has another. After a refused write of the output nothing more is written to it.
pub fn run<R: Threads + Wait + Sync, O: OpenInput, W: Write + Drop, E: Write>(
    rt: &R,
    alloc: Global,
    words: &[String],
    inputs: &O,
    out: &mut BufWriter<W>,
    err: &mut E,
) -> End
    ensures end { EndsWords (map string_bytes words.now) (O.bytes_of inputs.now) result
        (writer_contents W.contents out.old) (writer_contents W.contents out.new) }
    ensures flushed { IsFlushed result (writer_buffer out.new) }
{
    match asked(alloc, words) {
        Ok(Some(job)) => run_file(rt, alloc, job, inputs, out, err),
        Ok(None) => End::Usage,
        Err(error) => explain(alloc, &error, out, err),
    }
}

/// Does a job with the file that it names.
fn run_file<R: Threads + Wait + Sync, O: OpenInput, W: Write + Drop, E: Write>(
    rt: &R,
    alloc: Global,
    job: Job,
    inputs: &O,
    out: &mut BufWriter<W>,
    err: &mut E,
) -> End
    requires { IsWithinBounds job.task }
    ensures end { let wish = wish_of job.entry in
        EndsFile wish.task (O.bytes_of inputs.now (codes "-"))
        (O.bytes_of inputs.now wish.file) result
        (writer_contents W.contents out.old) (writer_contents W.contents out.new) }
    ensures flushed { IsFlushed result (writer_buffer out.new) }
{
    match input(alloc, inputs, job.file, err) {
        Ok(text) => run_text(rt, alloc, job, &text, inputs, out, err),
        Err(end) => end,
    }
}

/// Does a job with a scenario's text, and with the standard input where it talks, or tells its first fault.
fn run_text<R: Threads + Wait + Sync, O: OpenInput, W: Write + Drop, E: Write>(
    rt: &R,
    alloc: Global,
    job: Job,
    text: &[u8],
    inputs: &O,
    out: &mut BufWriter<W>,
    err: &mut E,
) -> End
    requires { IsWithinBounds job.task }
    ensures end { EndsText job.entry.task (O.bytes_of inputs.now (codes "-")) text.now result
        (writer_contents W.contents out.old) (writer_contents W.contents out.new) }
    ensures flushed { IsFlushed result (writer_buffer out.new) }
{
    let read = Scenario::parse(alloc, text);
    let end = run_read(rt, alloc, job, text, &read, inputs, out, err);
    if let Err(fault) = &read {
        let _ = write_detail(job.file, text, fault, err);
    }
    end
}

/// What a job takes, and what its file has in its place.
fn other_section<'a>(job: Job<'a>, section: &Section) -> Message<'a>
    ensures { message_text result
        ≡ section_told (wish_of job.entry) (section_view section.now) }
{
    let Job { file, task } = job;
    let has = match (task, section) {
        (_, Section::Trace(_)) => "trace",
        (Task::Talk, _) => "events",
        (_, Section::Steps(_)) => "steps",
        (_, Section::World(_)) => "world",
    };
    Message::Other { task, file, has }
}

/// Does a job with what was read of a text, or tells its fault.
fn run_read<R: Threads + Wait + Sync, O: OpenInput, W: Write + Drop, E: Write>(
    rt: &R,
    alloc: Global,
    job: Job,
    text: &[u8],
    read: &Result<Scenario, Fault>,
    inputs: &O,
    out: &mut BufWriter<W>,
    err: &mut E,
) -> End
    requires { IsWithinBounds job.task }
    ensures end { EndsRead job.entry.task (O.bytes_of inputs.now (codes "-")) (lines text.now) read.now result
        (writer_contents W.contents out.old) (writer_contents W.contents out.new) }
    ensures flushed { IsFlushed result (writer_buffer out.new) }
{
    let Scenario {
        declarations,
        section,
    } = match read {
        Ok(scenario) => scenario,
        Err(fault) => return tell_fault(fault, err),
    };
    let other = other_section(job, section);
    match (job.task, section) {
        (Task::Play(shows), Section::Steps(steps)) => {
            run_steps(alloc, text, declarations, steps.as_slice(), shows, out)
        }
        (Task::Play(shows), Section::World(events)) => {
            run_world(alloc, text, declarations, events.as_slice(), shows, out)
        }
        (Task::Talk, section) => {
            let end = talk_declared(alloc, declarations, section, inputs, out, err);
            if end == End::Fault {
                let _ = write_message(&other, err);
            }
            end
        }
        (Task::Plain, Section::Trace(trace)) => {
            run_trace(alloc, declarations.boot(), trace, out, err)
        }
        (Task::Replay, Section::Trace(trace)) => {
            run_replay(alloc, declarations, trace, out, err)
        }
        (Task::Work { workers, turns }, _) => {
            run_work(rt, alloc, workers, turns, declarations, out)
        }
        _ => {
            let end = tell_wrong_section(err);
            let _ = write_message(&other, err);
            end
        }
    }
}
