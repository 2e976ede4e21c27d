//! What is asked of what is at play, which changes nothing.
ghost use Rattle.std.specs.Prelude.{option_and_then, Some};
ghost use Rattle.sk_handles.specs.Base.{terminal_said, named, kernel_of, report_of};
ghost use Rattle.sk_handles.specs.Asked.{value_text, tags_text_of, released_text, value_shown, tags_shown, terminal_shown, Reads, ShowsText, ShowsRead, CountsKernel};
ghost use Rattle.sk_handles.specs.OwnCalls.{ShowsBytes};

use crate::codes::{ABSENT, MEMORY, SHOWN};
use crate::room::put;
use crate::told::Told;
use sk_counts::Counts;
use sk_ids::Entity;
use sk_kernel::Kernel;
use sk_report::{PrintedTags, Stop, Subject};
use sk_talk::{Play, named, released, write_value};
use std::alloc::Global;
use std::io::Write;

/// Shows the report in the room.
pub fn tell_report(play: &Play, alloc: Global, room: &mut [u8]) -> Told
    ensures { ShowsText result (Some (report_of play.now)) room.old room.new }
{
    shown(report(play, alloc), room)
}

fn report(play: &Play, alloc: Global) -> Result<Option<Vec<u8>>, Stop>
    ensures { Reads result (Some (report_of play.now)) }
{
    let text = play.report(alloc)?;
    Ok(Some(text))
}

/// Shows what an entity has that the report names so.
pub fn tell_value(play: &Play, alloc: Global, name: &[u8], room: &mut [u8]) -> Told
    ensures { ShowsText result (value_shown name.now (kernel_of play.now)) room.old room.new }
{
    shown(value(alloc, play.kernel(), name), room)
}

/// Shows the undecided guesses that an entity depends on, which the report names so.
pub fn tell_tags(play: &Play, alloc: Global, name: &[u8], room: &mut [u8]) -> Told
    ensures { ShowsText result (tags_shown name.now (kernel_of play.now)) room.old room.new }
{
    shown(tags(alloc, play.kernel(), name), room)
}

/// Shows what a terminal has released, and how many texts wait.
pub fn tell_terminal(play: &Play, alloc: Global, number: u16, room: &mut [u8]) -> Told
    ensures { ShowsText result (terminal_shown number (kernel_of play.now)) room.old room.new }
{
    shown(terminal(alloc, play.kernel(), number), room)
}

/// Shows in the room the text at a place among those that a terminal has released.
pub fn tell_released(play: &Play, number: u16, place: usize, room: &mut [u8]) -> Told
    ensures { ShowsBytes result (released_text number place play.now) room.old room.new }
{
    let Some(text) = released(play.kernel(), number).get(place) else {
        return Told::of(ABSENT, 0);
    };
    put(text.as_slice(), room);
    Told::of(SHOWN, 0).with_text(text.len())
}

/// Counts the guesses and the steps so far.
pub fn tell_counts(play: &Play, alloc: Global, counts: &mut Counts) -> Told
    ensures { CountsKernel kernel_of counts.old counts.new result play.now }
{
    match Counts::of(alloc, play.kernel()) {
        Ok(counted) => {
            *counts = counted;
            Told::of(SHOWN, 0)
        }
        Err(_) => Told::of(MEMORY, 0),
    }
}

pub(crate) fn value(alloc: Global, kernel: &Kernel, name: &[u8]) -> Result<Option<Vec<u8>>, Stop>
    ensures { Reads result (option_and_then (value_text kernel.now) (named kernel.now name.now)) }
{
    match named(alloc, kernel, name) {
        Ok(Some(entity)) => value_of(alloc, kernel, entity),
        Ok(None) => Ok(None),
        Err(why) => Err(why),
    }
}

/// What an entity has.
fn value_of(alloc: Global, kernel: &Kernel, entity: Entity) -> Result<Option<Vec<u8>>, Stop>
    ensures { Reads result (value_text kernel.now entity) }
{
    if kernel.value(&entity).is_none() {
        return Ok(None);
    }
    let mut text = Vec::new(alloc);
    write_value(kernel, &entity, &mut text)?;
    Ok(Some(text))
}

pub(crate) fn tags(alloc: Global, kernel: &Kernel, name: &[u8]) -> Result<Option<Vec<u8>>, Stop>
    ensures { Reads result (option_and_then (tags_text_of kernel.now) (named kernel.now name.now)) }
{
    match named(alloc, kernel, name) {
        Ok(Some(entity)) => tags_of(alloc, kernel, entity),
        Ok(None) => Ok(None),
        Err(why) => Err(why),
    }
}

/// The undecided guesses that an entity depends on.
fn tags_of(alloc: Global, kernel: &Kernel, entity: Entity) -> Result<Option<Vec<u8>>, Stop>
    ensures { Reads result (tags_text_of kernel.now entity) }
{
    let mut text = Vec::new(alloc);
    let tags = PrintedTags(kernel.tags_of(&entity));
    write!(text, "{tags}")?;
    Ok(Some(text))
}

pub(crate) fn terminal(alloc: Global, kernel: &Kernel, number: u16) -> Result<Option<Vec<u8>>, Stop>
    ensures { Reads result (Some (terminal_said kernel.now number)) }
{
    let mut text = Vec::new(alloc);
    kernel.write_terminal(number, &mut text)?;
    Ok(Some(text))
}

/// A text in the room, where there is one.
pub(crate) fn shown(text: Result<Option<Vec<u8>>, Stop>, room: &mut [u8]) -> Told
    ensures { ShowsRead result text room.old room.new }
{
    match text {
        Ok(Some(text)) => {
            put(&text, room);
            Told::of(SHOWN, 0).with_text(text.len())
        }
        Ok(None) => Told::of(ABSENT, 0),
        Err(_) => Told::of(MEMORY, 0),
    }
}
