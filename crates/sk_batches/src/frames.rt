//! The next frame of a queue, whole, and where it is to be written.
ghost use Rattle.std.specs.Prelude.{◌≡◌, ◌-◌, ◌≤◌, length, true, None, Some, IfErr, OnOk};
ghost use Rattle.sk_batches.specs.Calls.{cause_of, take_refused};
ghost use Rattle.sk_batches.specs.Frames.{frame_refused, next_payload, FramePost};
ghost use Rattle.sk_batches.specs.Places.{has_room};

use crate::Refusal;
use crate::places::Places;
use crate::queue::Queue;
use sk_log::{HEAD, seal};

/// A frame that was taken whole.
#[derive(Clone, Copy, Debug, PartialEq, Eq)]
pub struct Sealed {
    /// Its number in the log.
    pub frame: u64,
    /// The number of its segment.
    pub segment: u64,
    /// The place of its first byte there.
    pub offset: u64,
    /// How many bytes it has.
    pub len: usize,
}

/// Why the next frame of a queue is not taken into so much room, whatever memory there is.
pub fn may_take_frame(queue: &Queue, places: &Places, room: usize) -> Result<(), Refusal>
    ensures ok { OnOk result (frame_refused queue.now places.now room ≡ None) }
    ensures err { IfErr result
        (λ why. (frame_refused queue.now places.now room ≡ Some why) × (cause_of why ≡ Some why)) }
    ensures free { OnOk result (take_refused queue.now (room - 24) ≡ None) }
    ensures head { OnOk result (24 ≤ room) }
    ensures fits { OnOk result (has_room places.now (length (next_payload queue.now)) ≡ true) }
{
    queue.may_take(room.saturating_sub(HEAD))?;
    if room < HEAD {
        return Err(Refusal::Short);
    }
    if !places.has_room(queue.next_len()) {
        return Err(Refusal::Full);
    }
    Ok(())
}

/// Takes the next frame of a queue whole into a room, and says where it is to be written.
pub fn take_frame(
    queue: &mut Queue,
    places: &mut Places,
    room: &mut [u8],
) -> Result<Sealed, Refusal>
    ensures { FramePost result queue.old places.old room.old queue.new places.new room.new }
{
    may_take_frame(queue, places, room.len())?;
    let len = queue.next_len();
    let taken = queue.take(&mut room[HEAD..])?;
    let place = places.advance(len);
    seal(&mut room[..HEAD + len], place.segment, taken.frame);
    Ok(Sealed {
        frame: taken.frame,
        segment: place.segment,
        offset: place.offset,
        len: HEAD + len,
    })
}
