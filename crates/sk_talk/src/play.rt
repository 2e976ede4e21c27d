//! A kernel or a world at play, from its start on.
ghost use Rattle.std.specs.Prelude.{◌≡◌, [], IfOk, IsSome, MatchResult};
ghost use Rattle.sk_talk.specs.Base.{section_view, step_line, world_line};
ghost use Rattle.sk_scenario.specs.Scenario as scenarios;
ghost use Rattle.sk_talk.specs.Played.{opened_in, kernel_of, report_of};
ghost use Rattle.sk_talk.specs.Lines.{only, StepsTake, WorldTakes, LineTaken};

use crate::line::LineTold;
use sk_client::World;
use sk_kernel::Kernel;
use sk_play::{Session, happen, world_of, write_world_report};
use sk_report::{Stop, write_report};
use sk_scenario::{Call, Calls, Declarations, KeptEvent, Section, WorldEvents};
use sk_words::{FaultKind, Reader};
use std::alloc::{AllocError, Global};

/// What is at play. What is let go of ends: its guesses that are left fail.
pub enum Play {
    Steps(Session),
    World(World),
}

impl Drop for Play {
    fn drop(self) {
        match self {
            Play::Steps(session) => session.end(),
            Play::World(world) => world.abandon(),
        }
    }
}

fn begin_steps(
    alloc: Global,
    declarations: &Declarations,
    steps: &[Call],
) -> Result<Option<Play>, AllocError>
    ensures { MatchResult result
        (λ play. play ≡ opened_in declarations.now (scenarios.Steps steps.now))
        (λ _. IsSome (opened_in declarations.now (scenarios.Steps steps.now))) }
{
    if !steps.is_empty() {
        return Ok(None);
    }
    let session = Session::new(alloc, declarations)?;
    Ok(Some(Play::Steps(session)))
}

fn begin_world(
    alloc: Global,
    declarations: &Declarations,
    events: &[KeptEvent],
) -> Result<Option<Play>, AllocError>
    ensures { MatchResult result
        (λ play. play ≡ opened_in declarations.now (scenarios.World events.now))
        (λ _. IsSome (opened_in declarations.now (scenarios.World events.now))) }
{
    if !events.is_empty() {
        return Ok(None);
    }
    let world = world_of(alloc, declarations)?;
    Ok(Some(Play::World(world)))
}

/// Makes the call that a line of a section of steps says.
fn take_step(alloc: Global, session: &mut Session, line: &[u8]) -> LineTold
    ensures { StepsTake result (only (step_line [] line.now)) session.old session.new }
{
    let mut calls = Calls::new(alloc);
    if let Err(kind) = calls.line(line) {
        return LineTold::Fault(kind);
    }
    match calls.as_slice().first() {
        Some(call) => match session.execute(call) {
            Ok(answer) => LineTold::Answered(answer),
            Err(_) => LineTold::Fault(FaultKind::Memory),
        },
        None => LineTold::Nothing,
    }
}

/// Lets the event happen that a line of a section of a world says.
fn take_event(alloc: Global, world: &mut World, line: &[u8]) -> LineTold
    ensures { WorldTakes result (only (world_line [] line.now)) world.old world.new }
{
    let mut events = WorldEvents::new(alloc);
    if let Err(kind) = events.line(line) {
        return LineTold::Fault(kind);
    }
    match events.as_slice().first() {
        Some(event) => match happen(world, event.lend()) {
            Ok(told) => LineTold::Happened(told),
            Err(_) => LineTold::Fault(FaultKind::Memory),
        },
        None => LineTold::Nothing,
    }
}

impl Play {
    /// What a scenario declares, at its start; nothing where its section is a trace, or has a line that says something.
    pub fn of(
        alloc: Global,
        declarations: &Declarations,
        section: &Section,
    ) -> Result<Option<Play>, AllocError>
        ensures { MatchResult result
            (λ play. play ≡ opened_in declarations.now (section_view section.now))
            (λ _. IsSome (opened_in declarations.now (section_view section.now))) }
    {
        match section {
            Section::Steps(steps) => begin_steps(alloc, declarations, steps.as_slice()),
            Section::World(events) => begin_world(alloc, declarations, events.as_slice()),
            Section::Trace(_) => Ok(None),
        }
    }

    /// Makes the call that a line says.
    pub fn line(&mut self, alloc: Global, line: &[u8]) -> LineTold
        ensures { LineTaken result line.now self.old self.new }
    {
        match self {
            Play::Steps(session) => take_step(alloc, session, line),
            Play::World(world) => take_event(alloc, world, line),
        }
    }

    /// The kernel, or that of the world.
    pub fn kernel(&self) -> &Kernel
        ensures { result.now ≡ kernel_of self.now }
    {
        match self {
            Play::Steps(session) => session.kernel(),
            Play::World(world) => world.desk().kernel(),
        }
    }

    pub fn report(&self, alloc: Global) -> Result<Vec<u8>, AllocError>
        ensures { IfOk result (λ text. text.items ≡ report_of self.now) }
    {
        let mut text = Vec::new(alloc);
        let written: Result<(), Stop> = match self {
            Play::Steps(session) => write_report(alloc, session.kernel(), &mut text),
            Play::World(world) => write_world_report(alloc, world, &mut text),
        };
        match written {
            Ok(()) => Ok(text),
            Err(_) => Err(AllocError),
        }
    }
}
