//! The report of a kernel, and that of a plain kernel.
ghost use Rattle.std.specs.Prelude.{◌≡◌, ◌≤◌, ◌++◌, List, flat_map, drop, OnOk, IfSome};
ghost use Rattle.sk_report.specs.Base.{Appends, insert_key, IsStrictlySortedBy, nat_cmp, entity_cmp, All, IsPresent};
ghost use Rattle.sk_report.specs.Base.{entities_of, Present, ROOM};
ghost use Rattle.sk_report.specs.Listed.{line_said, lines_said, terminals_said};
ghost use Rattle.sk_report.specs.Report.{last_line, steps_line, body_text, kernel_text, report_text, plain_report_text};

use crate::directories::write_held;
use crate::line::{ROOM, put_with_process, put_with_value};
use crate::{PrintedEntity, Stop, Subject};
use sk_kernel::Kernel;
use sk_plain::Plain;
use sk_store::{EntityState, Present};
use std::alloc::{AllocError, Global};
use std::collections::BTreeSet;
use std::io;
use std::io::Write;

/// Writes the terminals, the entities and the last line.
pub fn write_report<W: Write>(alloc: Global, kernel: &Kernel, out: &mut W) -> Result<(), Stop>
    ensures { OnOk result
        (Appends (W.contents out.old) (W.contents out.new) (report_text kernel.now)) }
{
    write_kernel(alloc, kernel, out)?;
    write_last(kernel, out)?;
    Ok(())
}

/// Writes the terminals and the entities.
pub fn write_kernel<W: Write>(alloc: Global, kernel: &Kernel, out: &mut W) -> Result<(), Stop>
    ensures { OnOk result
        (Appends (W.contents out.old) (W.contents out.new) (kernel_text kernel.now)) }
{
    let all = kernel.entries()?;
    write_body(alloc, kernel, &all, out)
}

/// Writes the terminals and the entities of a plain kernel, and how many steps were run.
pub fn write_plain_report<W: Write>(
    alloc: Global,
    plain: &Plain,
    steps: usize,
    out: &mut W,
) -> Result<(), Stop>
    ensures { OnOk result (Appends (W.contents out.old) (W.contents out.new)
        (plain_report_text plain.now steps)) }
{
    let all = plain.entries()?;
    write_body(alloc, plain, &all, out)?;
    writeln!(out, "steps {steps}")?;
    Ok(())
}

/// Writes the terminals of the processes among these entities, and the entities.
fn write_body<S: Subject, W: Write>(
    alloc: Global,
    subject: &S,
    all: &[Present<'_>],
    out: &mut W,
) -> Result<(), Stop>
    requires sorted { IsStrictlySortedBy entity_cmp (entities_of all.now) }
    requires present { All (IsPresent (S.look subject.now) (S.tags subject.now)) all.now }
    ensures { OnOk result (Appends (W.contents out.old) (W.contents out.new)
        (body_text (S.look subject.now) (S.terminal_lines subject.now)
        (λ e. S.end_with (S.tags subject.now e)) (entities_of all.now))) }
{
    let mut numbers = BTreeSet::new(alloc);
    let mut lines = Vec::new(alloc);
    gather::<S>(all, &mut numbers, &mut lines)?;
    let terminals: Vec<u16> = numbers.iter().copied().collect(alloc)?;
    write_terminals(subject, &terminals, out)?;
    out.write_all(&lines)?;
    Ok(())
}

fn write_terminals<S: Subject, W: Write>(
    subject: &S,
    terminals: &[u16],
    out: &mut W,
) -> io::Result<()>
    ensures { OnOk result (Appends (W.contents out.old) (W.contents out.new)
        (flat_map (S.terminal_lines subject.now) terminals.now)) }
{
    for terminal in terminals {
        subject.write_terminal(*terminal, out)?;
    }
    Ok(())
}

/// Adds the terminal of a process to numbers; that of the process before it is there.
#[tactic(auto, using(crate::proofs::Numbers::again))]
fn add_terminal(
    numbers: &mut BTreeSet<u16>,
    last: &mut Option<u16>,
    terminal: u16,
) -> Result<(), AllocError>
    requires { IfSome last.old
        (λ number. insert_key nat_cmp numbers.old.keys number ≡ numbers.old.keys) }
    ensures added { OnOk result
        (numbers.new.keys ≡ insert_key nat_cmp numbers.old.keys terminal) }
    ensures last { OnOk result (IfSome last.new
        (λ number. insert_key nat_cmp numbers.new.keys number ≡ numbers.new.keys)) }
{
    if *last == Some(terminal) {
        return Ok(());
    }
    numbers.insert(terminal)?;
    *last = Some(terminal);
    Ok(())
}

/// Adds the terminals of the processes among these entities to numbers, and the lines of these entities to lines. No entity
/// is looked up.
fn gather<S: Subject>(
    all: &[Present<'_>],
    numbers: &mut BTreeSet<u16>,
    lines: &mut Vec<u8>,
) -> Result<(), AllocError>
    requires { IsStrictlySortedBy entity_cmp (entities_of all.now) }
    ensures terminals { OnOk result
        (numbers.new.keys ≡ terminals_said numbers.old.keys all.now) }
    ensures lines { OnOk result
        (lines.new.items ≡ lines.old.items ++ lines_said S.end_with all.now) }
{
    let mut room = [0; ROOM];
    let mut last = None;
    for one in all {
        if let EntityState::Process(process) = one.state {
            add_terminal(numbers, &mut last, process.process().terminal)?;
        }
        add_line::<S>(all, one, &mut room, lines)?;
    }
    Ok(())
}

/// Adds the line of one of these entities.
fn add_line<S: Subject>(
    all: &[Present<'_>],
    one: &Present<'_>,
    room: &mut [u8; ROOM],
    lines: &mut Vec<u8>,
) -> Result<(), AllocError>
    requires { IsStrictlySortedBy entity_cmp (entities_of all.now) }
    ensures { OnOk result
        (lines.new.items ≡ lines.old.items ++ line_said S.end_with all.now one.now) }
{
    if let Some(start) = put_line::<S>(one, room) {
        return lines.extend_from_slice(&room[start..]);
    }
    match write_entity::<S, _>(all, one, lines) {
        Ok(()) => Ok(()),
        Err(_) => Err(AllocError),
    }
}

/// Puts the line of an entity at the end of a room, and returns where it starts; `None` where it may be longer than the room.
fn put_line<S: Subject>(one: &Present<'_>, room: &mut [u8; ROOM]) -> Option<usize>
    ensures start { IfSome result (λ start. start ≤ ROOM) }
    ensures line { IfSome result (λ start. (all : List Present)
        → drop start room.new ≡ line_said S.end_with all one.now) }
{
    let end = S::put_end(one.tags, room, ROOM)?;
    match one.state {
        EntityState::Process(process) => {
            put_with_process(&one.entity, process.process(), room, end)
        }
        EntityState::Value(value) => put_with_value(&one.entity, value, room, end),
    }
}

/// Writes the line of one of these entities.
fn write_entity<S: Subject, W: Write>(
    all: &[Present<'_>],
    one: &Present<'_>,
    out: &mut W,
) -> io::Result<()>
    requires { IsStrictlySortedBy entity_cmp (entities_of all.now) }
    ensures { OnOk result (Appends (W.contents out.old) (W.contents out.new)
        (line_said S.end_with all.now one.now)) }
{
    let printed = PrintedEntity(one.entity);
    write!(out, "{printed} ")?;
    write_held(all, one, out)?;
    S::write_end(one.tags, out)?;
    writeln!(out)
}

/// Writes the number of events and of undecided guesses.
fn write_last<W: Write>(kernel: &Kernel, out: &mut W) -> io::Result<()>
    ensures { OnOk result
        (Appends (W.contents out.old) (W.contents out.new) (last_line kernel.now)) }
{
    let events = kernel.trace().events().len();
    let undecided = kernel.undecided();
    writeln!(out, "trace {events} undecided {undecided}")
}
