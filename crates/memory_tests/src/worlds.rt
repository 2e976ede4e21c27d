//! Events of a world.
use crate::sights::{Sight, begins, shows};
use crate::texts::tells;
use sk_client::World;
use sk_play::{WorldTold, happen, world_of, write_told};
use sk_scenario::{Declarations, KeptEvent};
use std::alloc::{AllocError, Global};
use std::io::Write;
use tests_support::finding::Finding;

fn starts(alloc: Global, declarations: &Declarations) -> Result<World, AllocError> {
    match world_of(alloc, declarations) {
        Ok(world) => Ok(world),
        Err(AllocError) => world_of(alloc, declarations),
    }
}

/// Lets an event happen, once more where memory was wanted and nothing has changed.
fn tries(
    alloc: Global,
    world: &mut World,
    event: &KeptEvent,
    before: &Sight,
) -> Result<WorldTold, Finding> {
    if let Ok(told) = happen(world, event.lend()) {
        return Ok(told);
    }
    before.stands(alloc, &*world)?;
    Ok(happen(world, event.lend())?)
}

fn happens<W: Write>(
    alloc: Global,
    world: &mut World,
    event: &KeptEvent,
    out: &mut W,
) -> Result<WorldTold, Finding> {
    let before = Sight::of(alloc, &*world)?;
    begins(out)?;
    tries(alloc, world, event, &before)
}

/// Lets an event happen, twice where memory was wanted, and tells what comes of it.
fn happens_and_tells<W: Write>(
    alloc: Global,
    world: &mut World,
    number: usize,
    event: &KeptEvent,
    out: &mut W,
) -> Result<(), Finding> {
    let told = happens(alloc, world, event, out)?;
    Ok(write_told(number, &told, out)?)
}

fn happens_all<W: Write>(
    alloc: Global,
    world: &mut World,
    events: &[KeptEvent],
    out: &mut W,
) -> Result<(), Finding> {
    for (place, event) in events.iter().enumerate() {
        happens_and_tells(alloc, world, place + 1, event, out)?;
    }
    shows(alloc, &*world, out)
}

/// Lets the events happen, and prints what comes of them.
fn plays_all<W: Write>(
    alloc: Global,
    text: &[u8],
    declarations: &Declarations,
    world: &mut World,
    events: &[KeptEvent],
    out: &mut W,
) -> Result<(), Finding> {
    happens_all(alloc, world, events, out)?;
    let trace = world.desk().kernel().trace();
    tells(alloc, text, declarations.boot(), trace, out)
}

/// Plays the events of a world, and prints what comes of them.
pub fn plays_world<W: Write>(
    alloc: Global,
    text: &[u8],
    declarations: &Declarations,
    events: &[KeptEvent],
    out: &mut W,
) -> Result<(), Finding> {
    let mut world = starts(alloc, declarations)?;
    let played = plays_all(alloc, text, declarations, &mut world, events, out);
    world.abandon();
    played
}
