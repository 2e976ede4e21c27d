//! The lists of what depends on each undecided guess, as steps and failures change them.
ghost use Rattle.std.specs.Prelude.{◌≡◌, ℕ, [], true, IfOk, OnErr, OnOk, IsSorted};
ghost use Rattle.sk_speculator.specs.Base.{tags_by, with_tags, AllAlmostExact, AllExact, Covers, Depends, keys_of};
ghost use Rattle.sk_speculator.specs.Base.{is_in, opens_of, goes_unnoted, cut, has, last_tags, log_at};

use crate::writes::next_place;
use sk_guesses::OpenGuesses;
use sk_ids::{GuessId, TagSet};
use sk_inversion::Inversion;
use sk_map::Key;
use sk_slots::Slots;
use std::alloc::{AllocError, Global};
use std::hash::Hash;

/// No more keys than these are added to lists in the order in which a step writes them.
const FEW: usize = 8;

/// The guesses that a key depends on, where this is the set of none.
pub(crate) fn tags_of<'a, K: Key + Hash, V, I: Inversion<V>>(
    slots: &'a Slots<K, V, I>,
    no_tags: &'a TagSet,
    key: &K,
) -> &'a TagSet
    requires { no_tags.now ≡ [] }
    ensures { result.now ≡ last_tags [] (log_at K.order slots.now key.now) }
{
    match slots.tags(key) {
        Some(tags) => tags,
        None => no_tags,
    }
}

/// As `tags_of`, for a key that is looked for at a place first.
#[inline(always)]
pub(crate) fn tags_near<'a, K: Key + Hash, V, I: Inversion<V>>(
    slots: &'a Slots<K, V, I>,
    no_tags: &'a TagSet,
    place: usize,
    key: &K,
) -> &'a TagSet
    requires { no_tags.now ≡ [] }
    ensures { result.now ≡ last_tags [] (log_at K.order slots.now key.now) }
{
    match slots.tags_near(place, key) {
        Some(tags) => tags,
        None => no_tags,
    }
}

/// Whether a key is in the lists of all these guesses.
#[inline(always)]
fn is_known_to_rest<K: Key + Hash, V, I: Inversion<V>>(
    slots: &Slots<K, V, I>,
    no_tags: &TagSet,
    tags: &TagSet,
    place: usize,
    key: &K,
) -> bool
    requires { no_tags.now ≡ [] }
    ensures { result ≡ true
        → (g : ℕ) → has g tags.now ≡ true
        → has g (last_tags [] (log_at K.order slots.now key.now)) ≡ true }
{
    if tags.ids().is_empty() {
        return true;
    }
    let own = tags_near(slots, no_tags, place, key);
    own.is_same(tags) || own.covers(tags)
}

/// Adds a key to the lists of these guesses.
#[inline(always)]
fn depend<K: Key + Hash, V, I: Inversion<V>>(
    guesses: &mut OpenGuesses<K>,
    slots: &Slots<K, V, I>,
    no_tags: &TagSet,
    tags: &TagSet,
    place: usize,
    key: &K,
) -> Result<(), AllocError>
    requires { no_tags.now ≡ [] }
    ensures view { guesses.new.view ≡ guesses.old.view }
    ensures ok { OnOk result
        (Depends K.order (last_tags [] (log_at K.order slots.now key.now)) tags.now key.now
        guesses.old.opens guesses.new.opens) }
    ensures err { OnErr result (guesses.new.opens ≡ guesses.old.opens) }
{
    if is_known_to_rest(slots, no_tags, tags, place, key) {
        return Ok(());
    }
    guesses.depend(tags, key)
}

/// Adds what a step writes to the lists of the guesses that the step depends on, in the order of its writes. Without memory the
/// lists have what they had.
#[inline(always)]
fn depend_few<K: Key + Hash, V, I: Inversion<V>>(
    guesses: &mut OpenGuesses<K>,
    slots: &Slots<K, V, I>,
    no_tags: &TagSet,
    tags: &TagSet,
    written: &[(K, I::Write)],
    places: &[usize],
) -> Result<(), AllocError>
    requires exact { AllExact K.order (tags_by (log_at K.order slots.now)) guesses.old.opens }
    requires covers { Covers K.order tags.now (keys_of written.now)
        (tags_by (log_at K.order slots.now)) }
    requires no_tags { no_tags.now ≡ [] }
    ensures view { guesses.new.view ≡ guesses.old.view }
    ensures opens { opens_of guesses.new.opens ≡ opens_of guesses.old.opens }
    ensures ok { OnOk result
        (AllExact K.order
        (with_tags K.order tags.now (keys_of written.now) (tags_by (log_at K.order slots.now)))
        guesses.new.opens) }
    ensures err { OnErr result
        (AllExact K.order (tags_by (log_at K.order slots.now)) guesses.new.opens) }
{
    let mut near = places.iter();
    for write in written {
        if depend(
            guesses,
            slots,
            no_tags,
            tags,
            next_place(&mut near),
            &write.0,
        )
        .is_err()
        {
            relieve_written(guesses, slots, no_tags, written);
            return Err(AllocError);
        }
    }
    Ok(())
}

/// The keys of writes, by rising order.
#[inline(never)]
fn rising_keys<K: Key, W>(alloc: Global, written: &[(K, W)]) -> Result<Vec<K>, AllocError>
    ensures keys { IfOk result
        (λ keys. (k : K) → is_in K.order keys.items k ≡ is_in K.order (keys_of written.now) k) }
    ensures rising { IfOk result (λ keys. IsSorted K.cmp keys.items) }
{
    let mut keys = Vec::new(alloc);
    for write in written {
        keys.push(write.0)?;
    }
    keys.sort_unstable();
    Ok(keys)
}

/// Adds keys to the lists of these guesses. Without memory some of them may be there.
#[inline(never)]
fn depend_each<K: Key + Hash, V, I: Inversion<V>>(
    guesses: &mut OpenGuesses<K>,
    slots: &Slots<K, V, I>,
    no_tags: &TagSet,
    tags: &TagSet,
    keys: &[K],
) -> Result<(), AllocError>
    requires exact { AllExact K.order (tags_by (log_at K.order slots.now)) guesses.old.opens }
    requires covers { Covers K.order tags.now keys.now (tags_by (log_at K.order slots.now)) }
    requires no_tags { no_tags.now ≡ [] }
    ensures view { guesses.new.view ≡ guesses.old.view }
    ensures opens { opens_of guesses.new.opens ≡ opens_of guesses.old.opens }
    ensures ok { OnOk result
        (AllExact K.order
        (with_tags K.order tags.now keys.now (tags_by (log_at K.order slots.now)))
        guesses.new.opens) }
    ensures err { OnErr result
        (AllAlmostExact K.order (tags_by (log_at K.order slots.now)) keys.now
        guesses.new.opens) }
{
    for key in keys {
        depend(guesses, slots, no_tags, tags, usize::MAX, key)?;
    }
    Ok(())
}

/// Adds what a step writes to the lists of the guesses that the step depends on, if it is not there, as all keys have just these
/// tags. Where it writes many keys these are added by rising order: then each stands behind those that were added, and none
/// has to move. Without memory the lists have what they had.
#[inline(always)]
pub(crate) fn depend_all<K: Key + Hash, V, I: Inversion<V>>(
    alloc: Global,
    guesses: &mut OpenGuesses<K>,
    slots: &Slots<K, V, I>,
    no_tags: &TagSet,
    tags: &TagSet,
    written: &[(K, I::Write)],
    places: &[usize],
    same: bool,
) -> Result<(), AllocError>
    requires exact { AllExact K.order (tags_by (log_at K.order slots.now)) guesses.old.opens }
    requires covers { Covers K.order tags.now (keys_of written.now)
        (tags_by (log_at K.order slots.now)) }
    requires no_tags { no_tags.now ≡ [] }
    requires same { same ≡ true → (q : K) → is_in K.order (keys_of written.now) q ≡ true
        → goes_unnoted tags.now (log_at K.order slots.now q) ≡ true }
    ensures view { guesses.new.view ≡ guesses.old.view }
    ensures opens { opens_of guesses.new.opens ≡ opens_of guesses.old.opens }
    ensures ok { OnOk result
        (AllExact K.order
        (with_tags K.order tags.now (keys_of written.now) (tags_by (log_at K.order slots.now)))
        guesses.new.opens) }
    ensures err { OnErr result
        (AllExact K.order (tags_by (log_at K.order slots.now)) guesses.new.opens) }
{
    if same {
        return Ok(());
    }
    if written.len() <= FEW {
        return depend_few(guesses, slots, no_tags, tags, written, places);
    }
    let keys = rising_keys(alloc, written)?;
    if depend_each(guesses, slots, no_tags, tags, keys.as_slice()).is_err() {
        relieve_written(guesses, slots, no_tags, written);
        return Err(AllocError);
    }
    Ok(())
}

/// Takes the keys of writes out of the lists of the guesses that they do not depend on.
#[inline(never)]
pub(crate) fn relieve_written<K: Key + Hash, V, I: Inversion<V>>(
    guesses: &mut OpenGuesses<K>,
    slots: &Slots<K, V, I>,
    no_tags: &TagSet,
    written: &[(K, I::Write)],
)
    requires almost { AllAlmostExact K.order (tags_by (log_at K.order slots.now))
        (keys_of written.now) guesses.old.opens }
    requires no_tags { no_tags.now ≡ [] }
    ensures view { guesses.new.view ≡ guesses.old.view }
    ensures opens { opens_of guesses.new.opens ≡ opens_of guesses.old.opens }
    ensures exact { AllExact K.order (tags_by (log_at K.order slots.now)) guesses.new.opens }
{
    for write in written {
        guesses.leave_to(tags_of(slots, no_tags, &write.0), &write.0);
    }
}

/// The guesses that a key depends on once a guess has failed, where this is the set of none.
fn tags_without<'a, K: Key + Hash, V, I: Inversion<V>>(
    slots: &'a Slots<K, V, I>,
    no_tags: &'a TagSet,
    key: &K,
    id: GuessId,
) -> &'a TagSet
    requires { no_tags.now ≡ [] }
    ensures { result.now ≡ last_tags [] (cut id (log_at K.order slots.now key.now)) }
{
    match slots.tags_without(key, id) {
        Some(tags) => tags,
        None => no_tags,
    }
}

/// Takes keys out of the lists of the guesses that they do not depend on once a guess has failed, and visits those alone on
/// which they depend. The last key comes first: where they rise, each then stands behind those that are left, and none of these
/// has to move.
fn relieve_all<K: Key + Hash, V, I: Inversion<V>>(
    guesses: &mut OpenGuesses<K>,
    slots: &Slots<K, V, I>,
    no_tags: &TagSet,
    id: GuessId,
    keys: &[K],
)
    requires exact { AllExact K.order (tags_by (log_at K.order slots.now)) guesses.old.opens }
    requires almost { AllAlmostExact K.order
        (tags_by (λ k. cut id (log_at K.order slots.now k))) keys.now guesses.old.opens }
    requires no_tags { no_tags.now ≡ [] }
    ensures view { guesses.new.view ≡ guesses.old.view }
    ensures opens { opens_of guesses.new.opens ≡ opens_of guesses.old.opens }
    ensures exact { AllExact K.order (tags_by (λ k. cut id (log_at K.order slots.now k)))
        guesses.new.opens }
{
    for place in (0..keys.len()).rev() {
        let key = &keys[place];
        let tags = tags_of(slots, no_tags, key);
        let left = tags_without(slots, no_tags, key, id);
        guesses.relieve_beyond(tags, left, key);
    }
}

/// As `relieve_all`, of the keys that a failure will take back. Where no other guess is undecided there is no list, and nothing
/// is done.
pub(crate) fn relieve_rest<K: Key + Hash, V, I: Inversion<V>>(
    guesses: &mut OpenGuesses<K>,
    slots: &Slots<K, V, I>,
    no_tags: &TagSet,
    id: GuessId,
    keys: &[K],
)
    requires exact { AllExact K.order (tags_by (log_at K.order slots.now)) guesses.old.opens }
    requires almost { AllAlmostExact K.order
        (tags_by (λ k. cut id (log_at K.order slots.now k))) keys.now guesses.old.opens }
    requires no_tags { no_tags.now ≡ [] }
    ensures view { guesses.new.view ≡ guesses.old.view }
    ensures opens { opens_of guesses.new.opens ≡ opens_of guesses.old.opens }
    ensures exact { AllExact K.order (tags_by (λ k. cut id (log_at K.order slots.now k)))
        guesses.new.opens }
{
    let alone = guesses.undecided() == 0;
    if alone {
        return;
    }
    relieve_all(guesses, slots, no_tags, id, keys);
}
