//! `memory_tests < SCENARIO`: plays the steps or the world of a scenario, and prints what
//! `speculate play - --trace` prints. Growths may be refused to it: whatever answers want of memory
//! has then to be as it was before, and is done once more. At the end the first script, the printed
//! trace and what is left of it go through the same. `memory_tests leases < SCENARIO`: plays steps,
//! on a kernel and on a desk, with a process leased during each. In place of a scenario the input may
//! be the one line `blocks_restored`: then changes of a large file are taken back.
#![tactic(auto)]

mod blocks;
mod kernels;
mod leases;
mod sights;
mod texts;
mod worlds;

use crate::blocks::plays_blocks;
use crate::kernels::plays_steps;
use crate::leases::plays_leases;
use crate::texts::scenario_of;
use crate::worlds::plays_world;
use sk_scenario::{Scenario, Section};
use std::alloc::Global;
use std::env;
use std::io::{Read, Write};
use std::process::ExitCode;
use tests_support::finding::Finding;

/// The greatest length of a scenario, in bytes.
const ROOM: usize = 16_384;

/// The line that stands in place of a scenario.
const BLOCKS: &[u8] = b"blocks_restored\n";

/// Reads what the input has left to an array, since what was read can't be read again: how much it was.
fn fills<R: Read>(reader: &mut R, room: &mut [u8; ROOM]) -> Result<usize, Finding> {
    let mut count = 0usize;
    for _ in 0..ROOM {
        let rest = room.get_mut(count..).ok_or(Finding::Input)?;
        let read = reader.read(rest)?;
        if read == 0 {
            return Ok(count);
        }
        count = count.saturating_add(read);
    }
    Err(Finding::Input)
}

/// Plays a scenario of this text, and prints what comes of it.
fn plays<W: Write>(
    alloc: Global,
    text: &[u8],
    scenario: &Scenario,
    out: &mut W,
) -> Result<(), Finding> {
    let declarations = &scenario.declarations;
    match &scenario.section {
        Section::Steps(steps) => plays_steps(alloc, text, declarations, steps.as_slice(), out),
        Section::World(events) => plays_world(alloc, text, declarations, events.as_slice(), out),
        Section::Trace(_) => Err(Finding::Section),
    }
}

/// Plays the steps of a scenario with leases.
fn lends<W: Write>(alloc: Global, scenario: &Scenario, out: &mut W) -> Result<(), Finding> {
    match &scenario.section {
        Section::Steps(steps) => plays_leases(alloc, &scenario.declarations, steps.as_slice(), out),
        Section::World(_) | Section::Trace(_) => Err(Finding::Section),
    }
}

/// Plays the scenario of a text, with leases or without.
fn plays_text<W: Write>(
    alloc: Global,
    text: &[u8],
    leases: bool,
    out: &mut W,
) -> Result<(), Finding> {
    let scenario = scenario_of(alloc, text)?;
    let played = if leases {
        lends(alloc, &scenario, out)
    } else {
        plays(alloc, text, &scenario, out)
    };
    drop(scenario);
    played
}

/// Whether the only word is `leases`.
fn has_leases(rt: &HostRuntime) -> Result<bool, Finding> {
    let words = env::args(rt)?.collect::<Vec<String>>(rt.alloc())?;
    Ok(words.get(1).is_some_and(|word| word.as_str() == "leases"))
}

/// Plays what was read.
fn plays_read(rt: &HostRuntime, leases: bool, text: &[u8]) -> Result<(), Finding> {
    if !leases && text == BLOCKS {
        plays_blocks(rt.alloc(), &mut rt.stdout())
    } else {
        plays_text(rt.alloc(), text, leases, &mut rt.stdout())
    }
}

/// Plays the scenario on the standard input.
fn plays_input(rt: &HostRuntime) -> Result<(), Finding> {
    let leases = has_leases(rt).or_else(|_| has_leases(rt))?;
    let mut room = [0u8; ROOM];
    let count = fills(&mut rt.reader(), &mut room)?;
    let text = room.get(..count).ok_or(Finding::Input)?;
    plays_read(rt, leases, text)
}

fn main(rt: HostRuntime) -> ExitCode {
    match plays_input(&rt) {
        Ok(()) => ExitCode::SUCCESS,
        Err(finding) => {
            let _ = writeln!(rt.stderr(), "{finding}");
            ExitCode::FAILURE
        }
    }
}
