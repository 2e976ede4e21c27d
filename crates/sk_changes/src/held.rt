//! What undos hold on the heap, so that an undo is a few words.
ghost use Rattle.std.specs.Prelude.{◌≡◌, IfOk};

use sk_ids::Text;
use std::alloc::{AllocError, Global};
use std::marker::Model;

/// Bytes that left a pipe; contracts see the list.
#[derive(Drop)]
pub struct HeldBytes {
    bytes: Vec<u8>,
}

impl Model for HeldBytes {
    ghost use Rattle.std.specs.Prelude.{ℕ, List};

    ghost Value = { List ℕ };

    ghost view = { λ b. b.bytes.items };
}

impl HeldBytes {
    /// The bytes of a text. It takes memory for these alone.
    pub fn new(alloc: Global, text: &Text) -> Result<HeldBytes, AllocError>
        ensures { IfOk result (λ held. held ≡ text.now) }
    {
        let bytes = Vec::from_slice(alloc, text.as_slice())?;
        Ok(HeldBytes { bytes })
    }

    /// The bytes.
    pub fn as_slice(&self) -> &[u8]
        ensures { result.now ≡ self.now }
    {
        self.bytes.as_slice()
    }
}
