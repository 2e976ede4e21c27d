//! All keys, for commands that are told of them.
ghost use Rattle.std.specs.Prelude.{◌≡◌, [], ◌∷◌, ◌++◌, if◌then◌else◌, map, IfOk, OnErr, OnOk};
ghost use Rattle.sk_durable.specs.Base.{vec_items, with_known, is_reserved};
ghost use Rattle.sk_durable.specs.Works.{LacksNone};

use crate::Told;
use sk_bytes::Bytes;
use sk_commands::ByteString;
use sk_reserved::is_reserved;
use std::alloc::{AllocError, Global};

/// Adds a copy of a key, unless it is one of a batch.
fn add_key(alloc: Global, key: &[u8], keys: &mut Vec<Vec<u8>>) -> Result<(), AllocError>
    ensures { OnOk result (map vec_items keys.new.items
        ≡ (if is_reserved key.now then map vec_items keys.old.items
        else map vec_items keys.old.items ++ key.now ∷ [])) }
{
    if !is_reserved(key) {
        keys.push(Vec::from_slice(alloc, key)?)?;
    }
    Ok(())
}

/// Copies of all keys that are there or depend on a guess, but for those of batches, each once, by rising bytes; some that are
/// absent may be among them.
pub(crate) fn known_keys(
    alloc: Global,
    kernel: &Bytes<ByteString, Told>,
) -> Result<Vec<Vec<u8>>, AllocError>
    ensures { IfOk result (λ keys. LacksNone kernel.now (map vec_items keys.items)) }
{
    let mut keys = Vec::new(alloc);
    for place in 0..kernel.places() {
        if let Some(key) = kernel.key_at(place) {
            add_key(alloc, key, &mut keys)?;
        }
    }
    keys.sort_unstable();
    Ok(keys)
}
