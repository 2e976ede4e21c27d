//! Where the fault of a text stands.
ghost use Rattle.std.specs.Prelude.{◌≡◌, ℕ, List, length};
ghost use Rattle.sk_handles.specs.Base.{lines, scenario_of};
ghost use Rattle.sk_handles.specs.Faults.{placed, TellsFault, TellsFound};
ghost use Rattle.sk_handles.specs.Told.{put};

use crate::codes::{ABSENT, FAULT, MEMORY};
use crate::room::put;
use crate::told::{Told, kind_number};
use sk_faults::{Detail, explain};
use sk_scenario::Scenario;
use sk_words::{Fault, FaultKind};
use std::alloc::Global;
use std::io::Write;

/// The word that is at fault in a text: its line and its first byte there, both from 1 on, how many bytes it has, and the
/// number of the fault's kind. Where a word is missing it has none, and stands behind the line's last byte.
#[repr(C)]
#[derive(Clone, Copy)]
pub struct FaultPlace {
    pub line: u64,
    pub column: usize,
    pub len: usize,
    pub kind: u64,
}

impl FaultPlace {
    /// The place of a word with so many bytes, which has so many before it.
    fn of(fault: &Fault, start: usize, len: usize) -> FaultPlace
        ensures { result ≡ placed fault.now start len }
    {
        FaultPlace {
            line: fault.line,
            column: start.saturating_add(1),
            len,
            kind: kind_number(fault.kind),
        }
    }
}

/// Shows in the room what is wrong at a place and what was expected there: how long that is, or 0 without memory for it.
fn show(alloc: Global, detail: &Detail, room: &mut [u8]) -> usize
    ensures { (text : List ℕ) × (result ≡ length text) × (room.new ≡ put text room.old) }
{
    let mut text = Vec::new(alloc);
    let reason = detail.reason;
    if write!(text, "{reason}").is_err() {
        text.clear();
    }
    put(&text, room);
    text.len()
}

/// Tells a fault that was found in a text.
fn tell_found(
    alloc: Global,
    text: &[u8],
    fault: &Fault,
    place: &mut FaultPlace,
    room: &mut [u8],
) -> Told
    ensures { TellsFound fault.now (lines text.now) result place.old place.new room.old room.new }
{
    if fault.kind == FaultKind::Memory {
        return Told::of(MEMORY, 0);
    }
    let Some(detail) = explain(text, fault) else {
        *place = FaultPlace::of(fault, 0, 0);
        return Told::of(FAULT, fault.line);
    };
    *place = FaultPlace::of(fault, detail.place.start, detail.place.word.len());
    Told::of(FAULT, fault.line).with_text(show(alloc, &detail, room))
}

/// Tells the first fault of a text, where it stands, and in the room what is wrong there and what was expected.
pub fn tell_fault(alloc: Global, text: &[u8], place: &mut FaultPlace, room: &mut [u8]) -> Told
    ensures { TellsFault (scenario_of text.now) (lines text.now) result place.old place.new room.old room.new }
{
    match Scenario::parse(alloc, text) {
        Ok(_) => Told::of(ABSENT, 0),
        Err(fault) => tell_found(alloc, text, &fault, place, room),
    }
}
