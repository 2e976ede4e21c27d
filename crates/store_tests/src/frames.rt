//! What a frame looks like, what begins with one, and what a blanked log has.
ghost use Rattle.std.specs.Prelude.{◌<◌};

use crate::check::check;
use sk_log::{FrameRefusal, Front, append, blank, first_number, front_of, seal};
use std::process::Abort;

/// The frame of segment 3 with the number 129 and the payload 'hi', reckoned by hand: 129 is 1 and 1 * 128, the bytes of 'hi'
/// sum up to 209, which is 81 and 1 * 128, and those of the front to 2,905, which 5,632 exceeds by 2,727 = 39 + 21 * 128.
const HI: [u8; 26] = [
    131, 128, 128, 128, 129, 129, 128, 128, 128, 128, 128, 128, 130, 128, 128, 128, 209, 129, 128,
    128, 128, 128, 167, 149, 104, 105,
];

/// Room for a frame of this payload is sealed.
fn seals(rt: &impl Abort) {
    let mut room = [0; 26];
    room[24] = b'h';
    room[25] = b'i';
    seal(&mut room, 3, 129);
    assert!(rt; room == HI);
}

#[test]
fn frame_is_the_one_reckoned_by_hand(rt: HostRuntime) {
    let mut log = Vec::from_slice(rt.alloc(), b"x").expect(&rt, "memory");
    check(&rt, 1, append(&mut log, 3, 129, b"hi") == Ok(()));
    check(&rt, 2, log.as_slice().get(1..) == Some(HI.as_slice()));
    seals(&rt);
}

/// What so many bytes of the frame are told to be.
fn told_of(len: usize) -> Option<Front> {
    let part = HI.as_slice().get(..len)?;
    Some(front_of(part, 3, 129))
}

fn expected_of(len: usize) -> Front {
    match len {
        0..24 => Front::Short(24),
        24..26 => Front::Short(26),
        _ => Front::Whole(2),
    }
}

/// The frame is none of this number in this segment.
fn is_other(rt: &impl Abort, segment: u64, number: u64) {
    assert!(rt;
        front_of(&HI, segment, number) == Front::Other,
        "{segment} {number}"
    );
}

#[test]
fn front_is_told_of_each_part_of_a_frame(rt: HostRuntime) {
    for len in 0..=26 {
        assert!(rt; told_of(len) == Some(expected_of(len)), "{len}");
    }
    for (segment, number) in [(2, 129), (3, 128), (3, 130), (1 << 28, 129), (3, 1 << 56)] {
        is_other(&rt, segment, number);
    }
}

/// A byte of the frame loses all bits but these, which is told where it changes anything.
fn loses(rt: &impl Abort, place: usize, left: u8)
    requires { place < 26 }
{
    let mut bytes = HI;
    bytes[place] &= left;
    let expected = if bytes == HI {
        Front::Whole(2)
    } else {
        Front::Other
    };
    assert!(rt; front_of(&bytes, 3, 129) == expected, "{place} {left}");
}

#[test]
fn lost_bytes_and_bits_are_told(rt: HostRuntime) {
    for place in 0..26 {
        for left in [0, 1, 127, 128, 254] {
            loses(&rt, place, left);
        }
    }
}

#[test]
fn first_number_is_that_of_the_first_head(rt: HostRuntime) {
    check(&rt, 1, first_number(&HI, 3) == Some(129));
    let rows: [(&[u8], u64); 4] = [(&HI, 2), (&HI, 1 << 28), (&[0; 26], 3), (&HI[..23], 3)];
    for (bytes, segment) in rows {
        check(&rt, 2, first_number(bytes, segment).is_none());
    }
}

/// Where a log is blanked a stale frame stands no more, and all before stays.
#[test]
fn stale_frame_is_blanked(rt: HostRuntime) {
    let mut bytes = [7; 36];
    for (byte, frame) in bytes.iter_mut().skip(10).zip(HI.iter()) {
        *byte = *frame;
    }
    check(&rt, 1, first_number(&bytes[10..], 3) == Some(129));
    blank(&mut bytes, 10);
    check(&rt, 2, bytes[..10] == [7; 10]);
    check(&rt, 3, bytes[10..] == [0; 26]);
}

/// How many frames are appended: past each number at which a body could give up.
const MANY: usize = 70_001;

fn append_all(log: &mut Vec<u8>) -> Result<(), FrameRefusal> {
    for number in 0..MANY {
        append(log, 3, number as u64, b"hi")?;
    }
    Ok(())
}

#[test]
fn appended_frames(rt: HostRuntime) {
    let mut log = Vec::new(rt.alloc());
    check(&rt, 1, append_all(&mut log) == Ok(()));
    check(&rt, 2, log.len() == MANY * HI.len());
}
