//! What is against a step, whatever memory there is.
ghost use Rattle.std.specs.Prelude.{◌≡◌, None, Some, IfErr, OnOk};
ghost use Rattle.sk_bytes.specs.Calls.{has_long_key, is_long};
ghost use Rattle.sk_batched.specs.Base.{is_reserved};
ghost use Rattle.sk_batched.specs.Keys.{has_reserved_key};
ghost use Rattle.sk_batched.specs.Refused.{cause_of, step_refused};

use crate::Refusal;
use sk_bytes::{ByteStep, KEY_LIMIT};
use sk_reserved::is_reserved;

/// Why a step is not taken, whatever memory there is.
pub(crate) fn may_take<V, O>(step: &ByteStep<V, O>) -> Result<(), Refusal>
    ensures ok { OnOk result (step_refused step.now ≡ None) }
    ensures err { IfErr result
        (λ why. (step_refused step.now ≡ Some why) × (cause_of why ≡ Some why)) }
{
    if has_long_key(step) {
        return Err(Refusal::LongKey);
    }
    if has_reserved_key(step) {
        return Err(Refusal::Reserved);
    }
    Ok(())
}

/// Whether a key is longer than may be.
fn is_long(key: &Vec<u8>) -> bool
    ensures { result ≡ is_long key.now }
{
    key.len() > KEY_LIMIT
}

/// Whether a key of the step is longer than may be.
fn has_long_key<V, O>(step: &ByteStep<V, O>) -> bool
    ensures { result ≡ has_long_key step.now }
{
    for key in step.looked.as_slice() {
        if is_long(key) {
            return true;
        }
    }
    for write in step.written.as_slice() {
        if is_long(&write.0) {
            return true;
        }
    }
    false
}

/// Whether a key begins as those of batches do.
fn is_batch_key(key: &Vec<u8>) -> bool
    ensures { result ≡ is_reserved key.now.items }
{
    is_reserved(key.as_slice())
}

/// Whether a key of the step begins as those of batches do.
fn has_reserved_key<V, O>(step: &ByteStep<V, O>) -> bool
    ensures { result ≡ has_reserved_key step.now }
{
    for key in step.looked.as_slice() {
        if is_batch_key(key) {
            return true;
        }
    }
    for write in step.written.as_slice() {
        if is_batch_key(&write.0) {
            return true;
        }
    }
    false
}
