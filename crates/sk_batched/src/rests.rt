//! What a step depends on before it is taken, and keys that depend on guesses.
ghost use Rattle.std.specs.Prelude.{◌≡◌, ◌&&◌, ◌||◌, ◌==◌, ◌++◌, ◌∷◌, ℕ, List, [], true, false, None, not, map, IfOk, IfSome, OnOk};
ghost use Rattle.sk_batched.specs.Base.{has, byte_deed, is_reserved, vec_items};
ghost use Rattle.sk_batched.specs.Barred.{guesses_of, is_on, HasNoneBarred, StandFor, WithOneOn};
ghost use Rattle.sk_batched.specs.Batched.{is_touched};

use sk_bytes::{ByteStep, Bytes};
use sk_guesses::Guess;
use sk_ids::GuessId;
use sk_reserved::is_reserved;
use std::alloc::{AllocError, Global};

/// The guesses that the keys depend on which a step looks at or writes, each once, without the batch's own.
pub(crate) fn rests_of<V, O>(
    alloc: Global,
    kernel: &Bytes<V, O>,
    step: &ByteStep<V, O>,
    own: u64,
) -> Result<Vec<u64>, AllocError>
    ensures { IfOk result (λ rests. (g : ℕ) → has g rests.items
        ≡ (is_touched kernel.now.parts (byte_deed step.now) g && not (g == own))) }
{
    let mut rests = Vec::new(alloc);
    for key in step.looked.as_slice() {
        add_all(&mut rests, kernel.tags_of(key.as_slice()).ids(), own)?;
    }
    for write in step.written.as_slice() {
        add_all(&mut rests, kernel.tags_of(write.0.as_slice()).ids(), own)?;
    }
    Ok(rests)
}

/// Adds those of these guesses that are not there, but never the batch's own.
fn add_all(rests: &mut Vec<u64>, ids: &[GuessId], own: u64) -> Result<(), AllocError>
    ensures { OnOk result ((g : ℕ) → has g rests.new.items
        ≡ (has g rests.old.items || (has g ids.now && not (g == own)))) }
{
    for id in ids {
        add(rests, id.number(), own)?;
    }
    Ok(())
}

/// Adds a guess, where it is not there and not the batch's own.
fn add(rests: &mut Vec<u64>, number: u64, own: u64) -> Result<(), AllocError>
    ensures { OnOk result ((g : ℕ) → has g rests.new.items
        ≡ (has g rests.old.items || ((number == g) && not (g == own)))) }
{
    if number == own || rests.as_slice().contains(&number) {
        return Ok(());
    }
    rests.reserve(1)?;
    rests.push_reserved(number);
    Ok(())
}

/// The first key that depends on a guess and is no batch's.
fn first_on<V, O>(kernel: &Bytes<V, O>, id: GuessId) -> Option<&[u8]>
    ensures some { IfSome result
        (λ key. (is_reserved key.now ≡ false) × (is_on kernel.now.parts id key.now ≡ true)) }
    ensures none { result ≡ None → (k : List ℕ) → is_reserved k ≡ false
        → is_on kernel.now.parts id k ≡ false }
{
    let _places = kernel.places();
    for place in 0..kernel.dependents(id) {
        if let Some(key) = kernel.dependent(id, place) {
            if !is_reserved(key) {
                return Some(key);
            }
        }
    }
    None
}

/// One key more that depends on a guess, where one does that is no batch's.
fn add_resting<V, O>(
    alloc: Global,
    kernel: &Bytes<V, O>,
    id: GuessId,
    keys: &mut Vec<Vec<u8>>,
) -> Result<(), AllocError>
    ensures { OnOk result (WithOneOn kernel.now.parts id (map vec_items keys.old.items)
        (map vec_items keys.new.items)) }
{
    if let Some(key) = first_on(kernel, id) {
        keys.push(Vec::from_slice(alloc, key)?)?;
    }
    Ok(())
}

/// For each of these guesses a key that depends on it, where one does that is no batch's.
pub(crate) fn keys_on<V, O>(
    alloc: Global,
    kernel: &Bytes<V, O>,
    tokens: &[Guess],
) -> Result<Vec<Vec<u8>>, AllocError>
    requires { HasNoneBarred kernel.now.parts }
    ensures { IfOk result (λ keys. StandFor kernel.now.parts (guesses_of tokens.now)
        (map vec_items keys.items)) }
{
    let mut keys = Vec::new(alloc);
    for token in tokens {
        add_resting(alloc, kernel, token.id(), &mut keys)?;
    }
    Ok(keys)
}
