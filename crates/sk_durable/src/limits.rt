//! What a store takes.
ghost use Rattle.std.specs.Prelude.{◌≡◌};
ghost use Rattle.sk_durable.specs.Limits.{are_sound};

use sk_log::HEAD;
use sk_log::frame::PAYLOAD_LIMIT;
use std::num::NonZeroU16;

/// What a store takes.
#[derive(Clone, Copy, Debug)]
pub struct Limits {
    /// How large a request may be.
    pub requests: sk_requests::Limits,
    /// No more of a channel's replies is taken while more bytes than these wait to be handed over.
    pub waiting: usize,
    /// How many frames may be in flight, up to 63.
    pub in_flight: NonZeroU16,
    /// How many bytes may be undecided.
    pub undecided: u32,
    /// How many commands may wait for their answers to be told.
    pub commands: u32,
    /// How many bytes a segment has.
    pub segment: u64,
}

impl Limits {
    /// Whether a store may have them: a line may have 16 bytes at least, and all that is undecided has room in one frame at the
    /// front of a segment, behind the head of a cut.
    pub fn are_sound(&self) -> bool
        ensures { result ≡ are_sound self.now }
    {
        let undecided = u64::from(self.undecided);
        self.requests.line >= 16
            && undecided < (PAYLOAD_LIMIT - HEAD) as u64
            && undecided + 2 * HEAD as u64 <= self.segment
    }
}
