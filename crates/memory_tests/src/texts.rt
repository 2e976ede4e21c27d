//! Texts that are read, and what is left of a trace.
use sk_plain::{Entry, TraceFault, strike};
use sk_scenario::Scenario;
use sk_script::{Boot, Script};
use sk_trace::Trace;
use sk_words::{Fault, FaultKind};
use std::alloc::{AllocError, Global};
use std::io::Write;
use tests_support::finding::Finding;

/// Fine where a text was not read for want of memory.
fn wanted(fault: Fault) -> Result<(), Finding> {
    match fault.kind {
        FaultKind::Memory => Ok(()),
        _ => Err(Finding::Scenario(fault)),
    }
}

/// The scenario of a text.
pub fn scenario_of(alloc: Global, text: &[u8]) -> Result<Scenario, Finding> {
    match Scenario::parse(alloc, text) {
        Ok(scenario) => return Ok(scenario),
        Err(fault) => wanted(fault)?,
    }
    Ok(Scenario::parse(alloc, text)?)
}

fn script_of(alloc: Global, text: &[u8]) -> Result<Script, Finding> {
    match Script::parse(alloc, text) {
        Ok(script) => return Ok(script),
        Err(fault) => wanted(fault)?,
    }
    Ok(Script::parse(alloc, text)?)
}

fn trace_of(alloc: Global, text: &[u8]) -> Result<Trace, Finding> {
    match Trace::parse(alloc, text) {
        Ok(trace) => return Ok(trace),
        Err(fault) => wanted(fault)?,
    }
    Ok(Trace::parse(alloc, text)?)
}

fn left_of(alloc: Global, boot: &Boot, trace: &Trace) -> Result<Vec<Entry>, Finding> {
    match strike(alloc, boot, trace) {
        Err(TraceFault::NoStart | TraceFault::Memory) => Ok(strike(alloc, boot, trace)?),
        struck => Ok(struck?),
    }
}

/// A trace's text.
fn printed(alloc: Global, trace: &Trace) -> Result<Vec<u8>, AllocError> {
    match trace.print(alloc) {
        Ok(text) => Ok(text),
        Err(AllocError) => trace.print(alloc),
    }
}

/// Where these bytes begin in a text, from a place on.
fn found(text: &[u8], from: usize, part: &[u8]) -> Option<usize> {
    (from..text.len()).find(|place| match text.get(*place..) {
        Some(rest) => rest.starts_with(part),
        None => false,
    })
}

/// The lines of the first script of a scenario.
fn first_script(text: &[u8]) -> Option<&[u8]> {
    let heading = found(text, 0, b"script ")?;
    let start = found(text, heading, b"\n")?;
    let end = found(text, start, b"\nend\n")?;
    text.get(start..end)
}

/// Fine where a trace that was read has these events and this text.
fn same_trace(alloc: Global, again: &Trace, trace: &Trace, text: &[u8]) -> Result<(), Finding> {
    if again.events() == trace.events() && printed(alloc, again)?.as_slice() == text {
        Ok(())
    } else {
        Err(Finding::Trace)
    }
}

/// How many entries are left of a trace.
fn len_left(alloc: Global, boot: &Boot, trace: &Trace) -> Result<usize, Finding> {
    let left = left_of(alloc, boot, trace)?;
    Ok(left.len())
}

/// How many entries are left of a trace that was read, which has these events and this text.
fn len_of_same(
    alloc: Global,
    boot: &Boot,
    again: &Trace,
    trace: &Trace,
    text: &[u8],
) -> Result<usize, Finding> {
    same_trace(alloc, again, trace, text)?;
    len_left(alloc, boot, again)
}

/// Reads the text of a trace: how many entries are left of it.
fn count_left(alloc: Global, boot: &Boot, trace: &Trace, text: &[u8]) -> Result<usize, Finding> {
    let again = trace_of(alloc, text)?;
    let len = len_of_same(alloc, boot, &again, trace, text);
    drop(again);
    len
}

/// How many instructions the first script of a scenario has.
fn count_instructions(alloc: Global, text: &[u8]) -> Result<u32, Finding> {
    let lines = first_script(text).ok_or(Finding::Script)?;
    let script = script_of(alloc, lines)?;
    Ok(script.len())
}

/// How many entries are left of a trace's own text.
fn count_printed(alloc: Global, boot: &Boot, trace: &Trace) -> Result<usize, Finding> {
    let shown = printed(alloc, trace)?;
    count_left(alloc, boot, trace, &shown)
}

/// Reads a trace's own text and the first script of a scenario, and tells how many entries are left of the one and how many
/// instructions the other has.
pub fn tells<W: Write>(
    alloc: Global,
    text: &[u8],
    boot: &Boot,
    trace: &Trace,
    out: &mut W,
) -> Result<(), Finding> {
    let left = count_printed(alloc, boot, trace)?;
    let instructions = count_instructions(alloc, text)?;
    writeln!(out, "left {left} instructions {instructions}")?;
    Ok(())
}
