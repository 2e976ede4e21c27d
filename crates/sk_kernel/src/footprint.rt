//! What a step touches.
use sk_plain::Entities;

/// The entities that a step reads, in the order in which it looks at them, and those that it writes.
#[derive(Drop)]
pub struct Footprint {
    pub reads: Entities,
    pub writes: Entities,
}
