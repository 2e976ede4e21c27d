//! A step that was taken outside.
ghost use Rattle.std.specs.Prelude.{◌≡◌, [], None};

use sk_inversion::{Inversion, Whole};
use std::alloc::Global;

/// What a step looked at, what it writes, and what it says to which channel. Where values are only ever set a write is the
/// value, and a key is absent after `None`. Of two writes of one key the later sees what the earlier left.
#[derive(Drop)]
pub struct Step<K, V, O, I: Inversion<V> = Whole> {
    pub looked: Vec<K>,
    pub written: Vec<(K, I::Write)>,
    pub said: Option<(u16, O)>,
}

impl<K, V, O, I: Inversion<V>> Step<K, V, O, I> {
    /// A step that looked at nothing, writes nothing and says nothing.
    pub fn new(alloc: Global) -> Step<K, V, O, I>
        ensures looked { result.looked.items ≡ [] }
        ensures written { result.written.items ≡ [] }
        ensures said { result.said ≡ None }
    {
        Step {
            looked: Vec::new(alloc),
            written: Vec::new(alloc),
            said: None,
        }
    }
}
