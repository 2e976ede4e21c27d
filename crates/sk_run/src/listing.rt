//! What is listed beside the answer to an event: what its step read and wrote, and the guesses that it depends on.
ghost use Rattle.std.specs.Prelude.{◌≡◌, OnOk};
ghost use Rattle.std.specs.Io.KnownBytes.{Appends};
ghost use Rattle.sk_run.specs.Listing.{foreseen, foreseen_lines};

use sk_ids::{Entity, Pid};
use sk_kernel::{Footprint, Kernel};
use sk_report::write_footprint;
use sk_script::Input;
use sk_trace::{Event, InputRef};
use std::io;
use std::io::Write;

/// The place of the trace where the next event goes, and what its step would touch.
#[derive(Drop)]
pub(crate) struct Foreseen {
    place: usize,
    footprint: Option<Footprint>,
}

/// What an event would touch, before it happens: the place of the trace where it goes, and the footprint of its step, if it
/// takes one.
pub(crate) fn foresee(kernel: &Kernel, upcoming: Option<(Pid, Input)>) -> Foreseen
    ensures { result ≡ foreseen kernel.now upcoming }
{
    let place = kernel.trace().events().len();
    let footprint = match upcoming {
        Some((pid, input)) => kernel.footprint(pid, InputRef::of(&input)).ok(),
        None => None,
    };
    Foreseen { place, footprint }
}

/// Writes what was foreseen of a step, and what its process depends on now, where the step was taken.
pub(crate) fn write_foreseen<W: Write>(
    kernel: &Kernel,
    foreseen: &Foreseen,
    out: &mut W,
) -> io::Result<()>
    ensures { OnOk result (Appends (W.contents out.old) (W.contents out.new)
        (foreseen_lines foreseen.now kernel.now)) }
{
    let Some(footprint) = &foreseen.footprint else {
        return Ok(());
    };
    match kernel.trace().events().get(foreseen.place) {
        Some(Event::Step { pid, .. } | Event::Guess { pid, .. }) => {
            let tags = kernel.tags_of(&Entity::Proc(*pid));
            write_footprint(footprint, tags, out)
        }
        _ => Ok(()),
    }
}
