//! The library for C of epochs: what of the work of real processes may be shown, and what is taken back.
#![tactic(auto)]

ghost use Rattle.std.specs.Prelude.{◌≡◌, Some, None};
ghost use Rattle.real_epochs.specs.declared.event.Event.TheVariants.{Changes, Told as Learns, Says};
ghost use Rattle.hidewillow_epochs.specs.Calls.{AcceptsTold, Asks, AsksAct, AsksChanged, AsksNeeds, AsksUndone, AsksVersion, BeginsTold, CountsWaiting, Does, HappensTold, Opens, RefusesTold, ShowsTold};

mod handle;
mod session;
mod told;

use crate::handle::Handle;
use crate::session::Session;
use crate::told::{CLOSED, DONE, HELD, MEMORY, REFUSED, Told};
use real_epochs::Event;
use sk_cells::holds::{put_in, take_out};
use std::alloc::Global;
use std::num::NonZeroU16;

/// Does this with what a handle holds, which it holds again then. Where it holds nothing that is told.
macro_rules! with {
    ($handle:ident, $alloc:ident, $held:ident => $told:expr) => {{
        let Some(mut $held) = take_out($handle, $alloc) else {
            return Told::of(CLOSED, 0);
        };
        let told = $told;
        put_in($handle, $held);
        told
    }};
}

/// Epochs of which nothing has happened, for a handle that holds nothing; so many may wait for their replies at once.
#[unsafe(no_mangle)]
pub extern "C" fn hidewillow_epochs_open(alloc: Global, epochs: &mut Handle, limit: u16) -> Told
    ensures { Opens limit result epochs.old.held epochs.new.held }
{
    if let Some(held) = take_out(epochs, alloc) {
        put_in(epochs, held);
        return Told::of(HELD, 0);
    }
    let Some(limit) = NonZeroU16::new(limit) else {
        return Told::of(REFUSED, 5);
    };
    match Box::new(alloc, Session::new(alloc, limit)) {
        Ok(held) => {
            put_in(epochs, held);
            Told::of(DONE, 0)
        }
        Err(_) => Told::of(MEMORY, 0),
    }
}

/// All stands at a checkpoint, and an epoch begins, whose number is told.
#[unsafe(no_mangle)]
pub extern "C" fn hidewillow_epochs_begin(
    alloc: Global,
    epochs: &mut Handle,
    checkpoint: u64,
) -> Told
    ensures { Does (BeginsTold checkpoint) result epochs.old.held epochs.new.held }
{
    with!(epochs, alloc, held => held.begin(checkpoint))
}

/// The processes change what is known of a name, to a version.
#[unsafe(no_mangle)]
pub extern "C" fn hidewillow_epochs_changed(
    alloc: Global,
    epochs: &mut Handle,
    name: u64,
    version: u64,
) -> Told
    ensures { Does (HappensTold (Changes name (Some version))) result epochs.old.held
        epochs.new.held }
{
    with!(epochs, alloc, held => held.happens(Event::Changes { name, version: Some(version) }))
}

/// The processes change it to nothing.
#[unsafe(no_mangle)]
pub extern "C" fn hidewillow_epochs_forgot(alloc: Global, epochs: &mut Handle, name: u64) -> Told
    ensures { Does (HappensTold (Changes name None)) result epochs.old.held epochs.new.held }
{
    with!(epochs, alloc, held => held.happens(Event::Changes { name, version: None }))
}

/// The server tells a version of a name, whatever the processes do.
#[unsafe(no_mangle)]
pub extern "C" fn hidewillow_epochs_told(
    alloc: Global,
    epochs: &mut Handle,
    name: u64,
    version: u64,
) -> Told
    ensures { Does (HappensTold (Learns name (Some version))) result epochs.old.held
        epochs.new.held }
{
    with!(epochs, alloc, held => held.happens(Event::Told { name, version: Some(version) }))
}

/// The server tells that a name is gone.
#[unsafe(no_mangle)]
pub extern "C" fn hidewillow_epochs_lost(alloc: Global, epochs: &mut Handle, name: u64) -> Told
    ensures { Does (HappensTold (Learns name None)) result epochs.old.held epochs.new.held }
{
    with!(epochs, alloc, held => held.happens(Event::Told { name, version: None }))
}

/// The processes say an output on a stream.
#[unsafe(no_mangle)]
pub extern "C" fn hidewillow_epochs_said(
    alloc: Global,
    epochs: &mut Handle,
    stream: u16,
    output: u64,
) -> Told
    ensures { Does (HappensTold (Says stream output)) result epochs.old.held epochs.new.held }
{
    with!(epochs, alloc, held => held.happens(Event::Says { stream, output }))
}

/// The next output of a stream that may be shown is told, each once.
#[unsafe(no_mangle)]
pub extern "C" fn hidewillow_epochs_shown(alloc: Global, epochs: &mut Handle, stream: u16) -> Told
    ensures { Does (ShowsTold stream) result epochs.old.held epochs.new.held }
{
    with!(epochs, alloc, held => held.shown(stream))
}

/// The server accepted the oldest epoch. Its checkpoint is told, to which nothing goes back any more.
#[unsafe(no_mangle)]
pub extern "C" fn hidewillow_epochs_accepted(alloc: Global, epochs: &mut Handle) -> Told
    ensures { Does AcceptsTold result epochs.old.held epochs.new.held }
{
    with!(epochs, alloc, held => held.accepted())
}

/// The server refused the oldest epoch, and with it all others. The checkpoint that all goes back to is told, and how many names
/// are undone.
#[unsafe(no_mangle)]
pub extern "C" fn hidewillow_epochs_refused(alloc: Global, epochs: &mut Handle) -> Told
    ensures { Does RefusesTold result epochs.old.held epochs.new.held }
{
    with!(epochs, alloc, held => held.refused())
}

/// One of the names that the last refusal has undone, by its place from 0 on.
#[unsafe(no_mangle)]
pub extern "C" fn hidewillow_epochs_undone(alloc: Global, epochs: &mut Handle, place: usize) -> Told
    ensures { Asks (AsksUndone place) result epochs.old.held epochs.new.held }
{
    with!(epochs, alloc, held => held.undone(place))
}

/// The version that is known of a name now.
#[unsafe(no_mangle)]
pub extern "C" fn hidewillow_epochs_version(alloc: Global, epochs: &mut Handle, name: u64) -> Told
    ensures { Asks (AsksVersion name) result epochs.old.held epochs.new.held }
{
    with!(epochs, alloc, held => held.version(name))
}

/// Whether an epoch without its reply has changed a name: what the server tells of it is refused then.
#[unsafe(no_mangle)]
pub extern "C" fn hidewillow_epochs_has_changed(
    alloc: Global,
    epochs: &mut Handle,
    name: u64,
) -> Told
    ensures { Asks (AsksChanged name) result epochs.old.held epochs.new.held }
{
    with!(epochs, alloc, held => held.has_changed(name))
}

/// Whether an epoch without its reply goes back to a checkpoint: else it may be let go of.
#[unsafe(no_mangle)]
pub extern "C" fn hidewillow_epochs_needs(
    alloc: Global,
    epochs: &mut Handle,
    checkpoint: u64,
) -> Told
    ensures { Asks (AsksNeeds checkpoint) result epochs.old.held epochs.new.held }
{
    with!(epochs, alloc, held => held.needs(checkpoint))
}

/// Whether what can't be taken back may be done now: no epoch waits for its reply.
#[unsafe(no_mangle)]
pub extern "C" fn hidewillow_epochs_may_act(alloc: Global, epochs: &mut Handle) -> Told
    ensures { Asks AsksAct result epochs.old.held epochs.new.held }
{
    with!(epochs, alloc, held => held.may_act())
}

/// How many epochs wait for their replies.
#[unsafe(no_mangle)]
pub extern "C" fn hidewillow_epochs_undecided(alloc: Global, epochs: &mut Handle) -> Told
    ensures { Asks CountsWaiting result epochs.old.held epochs.new.held }
{
    with!(epochs, alloc, held => held.waiting())
}

/// Ends what the handle holds, where epochs that still wait are refused. The handle holds nothing then.
#[unsafe(no_mangle)]
pub extern "C" fn hidewillow_epochs_close(alloc: Global, epochs: &mut Handle)
    ensures { epochs.new.held ≡ None }
{
    let _session = take_out(epochs, alloc);
}
