//! What grows in the kernel over own keys.
use crate::job::{Written, bit_of};
use crate::kernel::{Numbers, counted, fail, names_one_of};
use crate::own::Own;
use crate::step::{add_look, add_write};
use crate::wrong::{Wrong, holds};
use sk_speculator::Refusal;
use std::alloc::{AllocError, Global};
use std::num::NonZeroU16;
use std::process::Abort;

/// How often what grows is grown: past each number at which a body could give up.
const MANY: u32 = 70_001;

/// How many guesses depend on each other, each of which has the numbers of all before it.
const NESTED: u32 = 1_500;

/// How many guesses are drawn where as many as may be open are struck: they are more than `MANY` together.
const MORE: u16 = 5_000;

/// The channel that is written to where there is one.
const CHANNEL: u16 = 0;

/// What is grown.
#[derive(Clone, Copy)]
enum Row {
    /// Many keys and outputs depend on one guess, which fails.
    Keys,
    /// As many guesses are open as may be.
    Guesses,
    /// More guesses are struck than may be open, and their tokens are out.
    Struck,
    /// A key has a note for each of many guesses.
    Notes,
    /// Each channel has an output, which its guess frees.
    Channels,
}

/// Puts into the step writes of so many keys, from a first one on.
fn writes(own: &mut Own, first: u32, count: u32) -> Result<(), AllocError> {
    for turn in 0..count {
        add_write(
            &mut own.step,
            first.wrapping_add(turn),
            Written::Set(Some(1)),
        )?;
    }
    Ok(())
}

/// A guess whose step writes so many keys.
fn guesses(own: &mut Own, count: u32) -> Result<(), Wrong> {
    writes(own, 0, count)?;
    own.draw()?;
    Ok(())
}

/// A guess that depends on the first key.
fn guesses_behind(own: &mut Own) -> Result<(), Wrong> {
    add_look(&mut own.step, 0)?;
    own.draw()?;
    Ok(())
}

/// A step that depends on the first key, with an output.
fn says(own: &mut Own, channel: u16) -> Result<(), Wrong> {
    add_look(&mut own.step, 0)?;
    own.step.said = Some((channel, 1));
    own.kernel.take(&mut own.step)?;
    Ok(())
}

/// The token at a place is spent by a failure.
fn fails_at(rt: &impl Abort, own: &mut Own, place: usize) {
    if place < own.tokens.len() {
        let token = own.tokens.remove(place);
        fail(rt, &mut own.kernel, token);
    }
}

fn grows_keys(rt: &impl Abort, own: &mut Own) -> Result<(), Wrong> {
    guesses(own, MANY)?;
    for turn in 0..MANY {
        writes(own, MANY + turn, 1)?;
        says(own, CHANNEL)?;
    }
    let waiting = own.kernel.waiting(CHANNEL);
    fails_at(rt, own, 0);
    let left = own.kernel.waiting(CHANNEL);
    holds(waiting == MANY as usize && left == 0, Wrong::Output)
}

/// So many guesses, each of which but the first depends on the first.
fn fills(own: &mut Own, count: u16) -> Result<(), Wrong> {
    guesses(own, 1)?;
    for _ in 1..count {
        guesses_behind(own)?;
    }
    Ok(())
}

fn grows_guesses(own: &mut Own) -> Result<(), Wrong> {
    fills(own, u16::MAX)?;
    let is_full = own.draw() == Err(Refusal::TooMany);
    holds(is_full, Wrong::Refused)
}

/// Draws so many guesses, of which the failure of the first strikes all others; so many are struck then whose tokens are out.
fn strikes(rt: &impl Abort, own: &mut Own, count: u16, struck: usize) -> Result<(), Wrong> {
    let first = own.tokens.len();
    fills(own, count)?;
    fails_at(rt, own, first);
    let counts = counted(&own.kernel);
    let is_so = counts.undecided == 0 && counts.struck == struck;
    holds(is_so, Wrong::Status)
}

fn grows_struck(rt: &impl Abort, own: &mut Own) -> Result<(), Wrong> {
    let most = u16::MAX as usize - 1;
    strikes(rt, own, u16::MAX, most)?;
    strikes(rt, own, MORE, most + MORE as usize - 1)
}

fn grows_notes(own: &mut Own) -> Result<(), Wrong> {
    for _ in 0..NESTED {
        guesses(own, 1)?;
    }
    let count = own.kernel.tags_of(&0).ids().len();
    holds(count == NESTED as usize, Wrong::Tags)
}

fn grows_channels(rt: &impl Abort, own: &mut Own) -> Result<(), Wrong> {
    guesses(own, 1)?;
    for channel in 0..u16::MAX {
        says(own, channel)?;
    }
    holds(names_one_of(&own.kernel, 0), Wrong::Channel)?;
    own.spend(rt);
    for channel in 0..64 {
        let is_named = names_one_of(&own.kernel, bit_of(channel as usize));
        let is_out = own.kernel.released(channel) == Some(1);
        holds(is_named && is_out, Wrong::Channel)?;
    }
    Ok(())
}

/// A kernel grows, and ends.
fn grows(rt: &impl Abort, alloc: Global, row: Row) -> Result<(), Wrong> {
    let mut own = Own::new(alloc, Numbers::new(alloc, 7, NonZeroU16::MAX));
    let grown = match row {
        Row::Keys => grows_keys(rt, &mut own),
        Row::Guesses => grows_guesses(&mut own),
        Row::Struck => grows_struck(rt, &mut own),
        Row::Notes => grows_notes(&mut own),
        Row::Channels => grows_channels(rt, &mut own),
    };
    grown.and(own.end(rt))
}

#[test]
fn own_keys_and_outputs(rt: HostRuntime) -> Result<(), Wrong> {
    grows(&rt, rt.alloc(), Row::Keys)
}

#[test]
fn own_guesses_up_to_their_limit(rt: HostRuntime) -> Result<(), Wrong> {
    grows(&rt, rt.alloc(), Row::Guesses)
}

#[test]
fn own_guesses_that_are_struck(rt: HostRuntime) -> Result<(), Wrong> {
    grows(&rt, rt.alloc(), Row::Struck)
}

#[test]
fn own_notes_of_a_key(rt: HostRuntime) -> Result<(), Wrong> {
    grows(&rt, rt.alloc(), Row::Notes)
}

#[test]
fn own_channels(rt: HostRuntime) -> Result<(), Wrong> {
    grows(&rt, rt.alloc(), Row::Channels)
}
