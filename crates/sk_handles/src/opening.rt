//! What a text opens, and what its lines are told.
ghost use Rattle.std.specs.Prelude.{MatchResult};
ghost use Rattle.sk_handles.specs.Base.{lines, scenario_of, pid};
ghost use Rattle.sk_handles.specs.Opening.{opening, OpenedBy, UnopenedBy};
ghost use Rattle.sk_handles.specs.PlayCalls.{EndsEpoch, TakesLine, TellsLine};
ghost use Rattle.sk_handles.specs.Handles.{DoesAs};
ghost use Rattle.sk_handles.specs.Leases.{PlayLeases};

use crate::codes::MEMORY;
use crate::room::put;
use crate::told::{Told, Unopened, faulty, kind_number};
use sk_ids::Pid;
use sk_scenario::Scenario;
use sk_talk::{LineTold, Play};
use sk_words::{FaultKind, Operand};
use std::alloc::{AllocError, Global};
use std::io::Write;

/// What a text declares, at its start.
pub fn play_of(alloc: Global, text: &[u8]) -> Result<Box<Play>, Unopened>
    ensures { MatchResult result (λ play. OpenedBy opening play.value (scenario_of text.now))
        (λ why. UnopenedBy opening why (scenario_of text.now) (lines text.now)) }
{
    let scenario = match Scenario::parse(alloc, text) {
        Ok(scenario) => scenario,
        Err(fault) => return Err(Unopened::Fault(fault)),
    };
    let play = match Play::of(alloc, &scenario.declarations, &scenario.section) {
        Ok(Some(play)) => play,
        Ok(None) => return Err(Unopened::Section),
        Err(AllocError) => return Err(Unopened::Memory),
    };
    match Box::new(alloc, play) {
        Ok(play) => Ok(play),
        Err(_) => Err(Unopened::Memory),
    }
}

/// Makes the call that a line says, and shows its text in the room.
pub fn tell_line(play: &mut Play, alloc: Global, line: &[u8], room: &mut [u8]) -> Told
    ensures { TakesLine line.now room.old room.new result play.old play.new }
{
    let told = play.line(alloc, line);
    tell(alloc, told, room)
}

/// What a line is told, with its text in the room; without memory for the text it has none.
fn tell(alloc: Global, told: LineTold, room: &mut [u8]) -> Told
    ensures { TellsLine result told room.old room.new }
{
    let mut text = Vec::new(alloc);
    if write!(text, "{told}").is_err() {
        return Told::of_line(told);
    }
    put(&text, room);
    Told::of_line(told).with_text(text.len())
}

/// Begins a new epoch.
pub fn tell_epoch(play: &mut Play) -> Told
    ensures { EndsEpoch result play.old play.new }
{
    match play.new_epoch() {
        Ok(told) => Told::of_epoch(told),
        Err(AllocError) => Told::of(MEMORY, 0),
    }
}

fn lease(play: &mut Play, pid: Pid, count: u32) -> Told
    ensures { PlayLeases count pid result play.old play.new }
{
    match play.lease(pid, count) {
        Ok(told) => Told::of_lease(told),
        Err(AllocError) => Told::of(MEMORY, 0),
    }
}

/// Has the process of this name do up to so many private instructions away from its kernel.
pub fn tell_lease(play: &mut Play, name: &[u8], count: u32) -> Told
    ensures { DoesAs (PlayLeases count) (pid name.now) result play.old play.new }
{
    let pid: Result<Pid, FaultKind> = Operand::read(name);
    match pid {
        Ok(pid) => lease(play, pid, count),
        Err(kind) => faulty(kind, kind_number(kind)),
    }
}
