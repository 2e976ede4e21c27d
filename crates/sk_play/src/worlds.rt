//! The world that a scenario declares, and what is told of its events.
ghost use Rattle.std.specs.Prelude.{◌≡◌, IfOk, MatchResult, Some, None};
ghost use Rattle.sk_play.specs.Base.{new_server, opened, event_in, WorldTold};
ghost use Rattle.sk_client.specs.declared.world.WorldAnswer.TheVariants as answers;
ghost use Rattle.sk_play.specs.Plays.{declared_kernel};
ghost use Rattle.sk_play.specs.Told.{told_line};
ghost use Rattle.sk_play.specs.declared.told.WorldTold.TheVariants as tells;
ghost use Rattle.sk_play.specs.Worlds.{seeded, declared_world, turn_told, edit_told, cause_told, Happens};

use crate::Line;
use crate::session::declared_kernel;
use crate::told::{WorldTold, put_given, put_reply, put_told, put_turn};
use sk_client::{Cause, Desk, EventRef, World, WorldAnswer, WorldNews};
use sk_plain::Refusal;
use sk_scenario::{Declarations, Remote};
use sk_server::{EditRefusal, Server};
use std::alloc::{AllocError, Global};

/// The world that a scenario declares, at its start: its kernel, and a server of its remote files.
pub fn world_of(alloc: Global, declarations: &Declarations) -> Result<World, AllocError>
    ensures { IfOk result (λ world. world ≡ declared_world declarations.now) }
{
    let (desk, server) = desk_of(alloc, declarations)?;
    Ok(World::new(alloc, desk, server))
}

/// The desk and the server of that world, before they are joined: no request is made, and none is answered.
pub fn desk_of(alloc: Global, declarations: &Declarations) -> Result<(Desk, Server), AllocError>
    ensures desk { IfOk result (λ parts. parts.0 ≡ opened (declared_kernel declarations.now)) }
    ensures server { IfOk result (λ parts. parts.1 ≡ seeded new_server declarations.now.remotes) }
    ensures first { IfOk result (λ parts. parts.1.next ≡ 1) }
{
    let server = seeded(alloc, declarations.remotes())?;
    let kernel = declared_kernel(alloc, declarations)?;
    Ok((Desk::new(alloc, kernel), server))
}

/// A server of these files; of two of one name the later one stands.
fn seeded(alloc: Global, remotes: &[Remote]) -> Result<Server, AllocError>
    ensures files { IfOk result (λ server. server ≡ seeded new_server remotes.now) }
    ensures first { IfOk result (λ server. server.next ≡ 1) }
{
    let mut server = Server::new(alloc);
    for remote in remotes {
        server.seed(remote.name, remote.content)?;
    }
    Ok(server)
}

/// Lets an event happen. A refusal is told, but want of memory.
pub fn happen(world: &mut World, event: EventRef<'_>) -> Result<WorldTold, AllocError>
    ensures { MatchResult result
        (λ told. Happens (Some told) world.old (event_in event.entry) world.new)
        (λ _. Happens None world.old (event_in event.entry) world.new) }
{
    match world.take(event) {
        Ok(answer) => Ok(WorldTold::Answered(answer)),
        Err(cause) => told_of_cause(cause),
    }
}

/// Lets an event happen, refused or not, and makes the line of it; of want of memory none.
pub fn happen_line(
    world: &mut World,
    number: usize,
    event: EventRef<'_>,
    line: &mut Line,
) -> Result<(), AllocError>
    ensures { MatchResult result
        (λ _. (t : WorldTold) × Happens (Some t) world.old (event_in event.entry) world.new
        × (line.new ≡ told_line number t))
        (λ _. Happens None world.old (event_in event.entry) world.new) }
{
    match world.advance(event) {
        Ok(WorldNews::Turn(turn)) => put_turn(number, &turn, line),
        Ok(WorldNews::Served) => match world.newest() {
            Some(reply) => put_reply(number, reply, line),
            None => unreachable!(),
        },
        Ok(WorldNews::Given(given)) => put_given(number, &given, line),
        Ok(WorldNews::Edited(version)) => put_edited(number, version, line),
        Err(cause) => return put_cause(number, cause, line),
    }
    Ok(())
}

/// Makes the line of an edit that made this version.
fn put_edited(number: usize, version: u64, line: &mut Line)
    ensures { line.new ≡ told_line number (tells.Answered (answers.Edited version)) }
{
    let told = WorldTold::Answered(WorldAnswer::Edited(version));
    put_told(number, &told, line);
}

/// Makes the line of why an event was refused; of want of memory none.
fn put_cause(number: usize, cause: Cause, line: &mut Line) -> Result<(), AllocError>
    ensures { MatchResult result
        (λ _. (t : WorldTold) × (cause_told cause ≡ Some t) × (line.new ≡ told_line number t))
        (λ _. cause_told cause ≡ None) }
{
    match told_of_cause(cause) {
        Ok(told) => {
            put_told(number, &told, line);
            Ok(())
        }
        Err(error) => Err(error),
    }
}

/// What is told of a refused event.
fn told_of_cause(cause: Cause) -> Result<WorldTold, AllocError>
    ensures { MatchResult result (λ told. cause_told cause ≡ Some told)
        (λ _. cause_told cause ≡ None) }
{
    match cause {
        Cause::Turn(refusal) => told_of_turn(refusal),
        Cause::Idle => Ok(WorldTold::Idle),
        Cause::Edit(refusal) => told_of_edit(refusal),
        Cause::Memory => Err(AllocError),
    }
}

/// What is told of a refused turn.
fn told_of_turn(refusal: Refusal) -> Result<WorldTold, AllocError>
    ensures { MatchResult result (λ told. turn_told refusal ≡ Some told)
        (λ _. turn_told refusal ≡ None) }
{
    match refusal {
        Refusal::Memory => Err(AllocError),
        _ => Ok(WorldTold::Refused(refusal)),
    }
}

/// What is told of a refused edit.
fn told_of_edit(refusal: EditRefusal) -> Result<WorldTold, AllocError>
    ensures { MatchResult result (λ told. edit_told refusal ≡ Some told)
        (λ _. edit_told refusal ≡ None) }
{
    match refusal {
        EditRefusal::Version(_) => Ok(WorldTold::OtherVersion),
        EditRefusal::Memory => Err(AllocError),
    }
}
