//! The parts of a step that is being written: keys, values and outputs, copied from those of a caller.
ghost use Rattle.std.specs.Prelude.{◌≡◌, true, false, IfErr, IfOk, OnOk};
ghost use Rattle.sk_bytes.specs.declared.refusal.Refusal.TheVariants.{LongKey, LongValue, Memory};
ghost use Rattle.sk_held.specs.Held.{is_long_key, is_long_value};

use sk_bytes::{KEY_LIMIT, Refusal};
use std::alloc::{AllocError, Global};

/// The greatest length of a value, and of an output.
pub const VALUE_LIMIT: usize = 16_777_216;

/// Refuses a key that is too long.
pub(crate) fn check_key(key: &[u8]) -> Result<(), Refusal>
    ensures ok { OnOk result (is_long_key key.now ≡ false) }
    ensures err { IfErr result (λ why. (why ≡ LongKey) × (is_long_key key.now ≡ true)) }
{
    if key.len() > KEY_LIMIT {
        return Err(Refusal::LongKey);
    }
    Ok(())
}

/// Refuses a value or an output that is too long.
pub(crate) fn check_value(value: &[u8]) -> Result<(), Refusal>
    ensures ok { OnOk result (is_long_value value.now ≡ false) }
    ensures err { IfErr result (λ why. (why ≡ LongValue) × (is_long_value value.now ≡ true)) }
{
    if value.len() > VALUE_LIMIT {
        return Err(Refusal::LongValue);
    }
    Ok(())
}

pub(crate) fn copy_of(alloc: Global, bytes: &[u8]) -> Result<Vec<u8>, Refusal>
    ensures ok { IfOk result (λ copy. copy.items ≡ bytes.now) }
    ensures err { IfErr result (λ why. why ≡ Memory) }
{
    match Vec::from_slice(alloc, bytes) {
        Ok(copy) => Ok(copy),
        Err(AllocError) => Err(Refusal::Memory),
    }
}
