//! What the front of some bytes is to a reader who waits for a frame.
ghost use Rattle.std.specs.Prelude.{◌≡◌, ◌<◌, ◌≤◌, ℕ, List, length, IfSome};
ghost use Rattle.sk_log.specs.Frame.{Ends};
ghost use Rattle.sk_log.specs.Front.{BeginsAs, FrontIs, SaysNumber};
ghost use Rattle.sk_log.specs.Crash.{Crashed};

use crate::bytes::{HEAD, are_same, head_bytes, said_len, said_number, said_total, sum_of};
use crate::frame::{NUMBER_LIMIT, SEGMENT_LIMIT};

/// What the front of some bytes is to a reader who waits for a frame.
#[derive(Clone, Copy, Debug, PartialEq, Eq)]
pub enum Front {
    /// The whole frame, with a payload of this length.
    Whole(usize),
    /// Too few bytes: it takes this many.
    Short(usize),
    /// No such frame, whatever follows.
    Other,
}

/// What the bytes begin with: the frame of this segment and number, too little of it to say, or something else.
pub fn front_of(bytes: &[u8], segment: u64, number: u64) -> Front
    ensures { FrontIs segment number bytes.now result }
{
    if segment >= SEGMENT_LIMIT {
        return Front::Other;
    }
    if number >= NUMBER_LIMIT {
        return Front::Other;
    }
    if bytes.len() < HEAD {
        return Front::Short(HEAD);
    }
    let head = &bytes[..HEAD];
    let len = said_len(head);
    let total = said_total(head);
    let whole_head = head_bytes(segment, number, len, total);
    if !are_same(head, &whole_head) {
        return Front::Other;
    }
    if bytes.len() - HEAD < len {
        return Front::Short(HEAD + len);
    }
    if sum_of(&bytes[HEAD..HEAD + len]) != total {
        return Front::Other;
    }
    Front::Whole(len)
}

/// The number of the first frame of a segment, as its head says it: from there on the log goes on in this segment. None
/// where no whole head of this segment stands there. The first 24 bytes of the segment, or all there are, are enough.
pub fn first_number(bytes: &[u8], segment: u64) -> Option<u64>
    ensures some { IfSome result (λ number. SaysNumber segment bytes.now number) }
    ensures none { result ≡ None → (number : ℕ) (left : List ℕ) → BeginsAs left bytes.now
        → Ends segment number left }
    ensures written { (number synced : ℕ) (payloads : List (List ℕ)) (left : List ℕ)
        → BeginsAs left bytes.now → Crashed segment number payloads synced left
        → IfSome result (λ first. first ≡ number) }
    ensures synced { (number synced : ℕ) (payloads : List (List ℕ)) (left : List ℕ)
        → BeginsAs left bytes.now → Crashed segment number payloads synced left → 0 < synced
        → result ≡ Some number }
{
    if segment >= SEGMENT_LIMIT {
        return None;
    }
    if bytes.len() < HEAD {
        return None;
    }
    let head = &bytes[..HEAD];
    let number = said_number(head);
    let whole_head = head_bytes(segment, number, said_len(head), said_total(head));
    if !are_same(head, &whole_head) {
        return None;
    }
    Some(number)
}
