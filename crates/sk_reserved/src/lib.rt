//! The keys of batches, which no command may name.
#![tactic(auto)]

ghost use Rattle.std.specs.Prelude.{◌≡◌, IfOk};
ghost use Rattle.sk_reserved.specs.Keys.{batch_key, is_reserved};

use std::alloc::{AllocError, Global};

/// With what the key of each batch begins.
const FRONT: &[u8] = b"\xffbatch";

/// The key of a batch: its guess makes it absent, and each step of the batch looks at it.
pub fn batch_key(alloc: Global, number: u64) -> Result<Vec<u8>, AllocError>
    ensures { IfOk result (λ key. key.items ≡ batch_key number) }
{
    let byte = (number % 128) as u8;
    Vec::from_slice(alloc, &[255, b'b', b'a', b't', b'c', b'h', byte])
}

/// Whether a key begins as those of batches do.
pub fn is_reserved(key: &[u8]) -> bool
    ensures { result ≡ is_reserved key.now }
{
    key.starts_with(FRONT)
}
