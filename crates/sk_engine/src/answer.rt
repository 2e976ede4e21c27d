//! What the engine answers.
ghost use Rattle.std.specs.Prelude.{◌≡◌};
ghost use Rattle.sk_engine.specs.Told.{held_of};

/// What stands under the key of a batch.
#[derive(Clone, Copy, PartialEq, Eq)]
pub enum Held {
    /// Nothing is known: a time out, a lost connection, any error.
    Absent,
    /// Just the bytes that were to be put there.
    Mine,
    /// Other bytes.
    Another,
}

/// What the engine saw as it did not put a batch: of which leadership the leader is, what stands under the number, and up to
/// where the log was cut.
#[derive(Clone, Copy, PartialEq, Eq)]
pub struct BatchSeen {
    pub leader: Option<u64>,
    pub held: Held,
    pub snap: u64,
}

/// What is known of a try of a batch.
#[derive(Clone, Copy, PartialEq, Eq)]
pub enum BatchAnswer {
    /// The batch was put.
    Done,
    /// The batch was not put, and this was seen at that moment.
    Not(BatchSeen),
    /// Nothing: a time out, a lost connection, any error.
    Unknown,
}

/// What the engine saw as it did not carry a fence out: of which leadership the leader is, and which one fenced last.
#[derive(Clone, Copy, PartialEq, Eq)]
pub struct FenceSeen {
    pub leader: Option<u64>,
    pub fence: u64,
}

/// What is known of a try of a fence.
#[derive(Clone, Copy, PartialEq, Eq)]
pub enum FenceAnswer {
    /// All behind the gap was deleted.
    Done,
    /// Nothing was deleted, and this was seen at that moment.
    Not(FenceSeen),
    /// Nothing is known: a time out, a lost connection, any error.
    Unknown,
}

/// What the engine saw as it did not put a leader: of which leadership the leader was, and whether it had put the same word.
#[derive(Clone, Copy, PartialEq, Eq)]
pub struct LeadSeen {
    pub leadership: u64,
    pub held: Held,
}

/// What is known of a try to lead, by a word that nobody else puts.
#[derive(Clone, Copy, PartialEq, Eq)]
pub enum LeadAnswer {
    /// The word was put: this is its leadership.
    Done(u64),
    /// There was a leader, and this was seen at that moment.
    Not(LeadSeen),
    /// Nothing is known: a time out, a lost connection, any error.
    Unknown,
}

/// What is known of a round: of which leadership the leader was, if there was one.
#[derive(Clone, Copy, PartialEq, Eq)]
pub enum RoundAnswer {
    Seen(Option<u64>),
    /// Nothing is known: a time out, a lost connection, any error.
    Unknown,
}

/// Whether what stands under a number is what was to be put there. The bytes of a batch tell whose they are, so another's are
/// never taken for them.
pub fn held_under(mine: &[u8], there: &[u8]) -> Held
    ensures { result ≡ held_of mine.now (Some there.now) }
{
    if mine == there {
        Held::Mine
    } else {
        Held::Another
    }
}
