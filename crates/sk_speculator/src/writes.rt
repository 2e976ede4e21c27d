//! The writes of a step: the guesses that their keys depend on, the room for their notes, and the writes themselves.
ghost use Rattle.std.specs.Prelude.{◌≡◌, ◌||◌, ◌∷◌, ℕ, Option, true, [], None, IfOk, OnOk, is_some};
ghost use Rattle.sk_speculator.specs.Base.{keys_of, is_in, has, goes_unnoted, look_at, log_at, AllSettled, IsReady, SettledBut};
ghost use Rattle.sk_speculator.specs.Base.{found, written_value};
ghost use Rattle.sk_speculator.specs.Parts.{any_rests, first_tags, made_by, Performed};

use crate::lists::tags_near;
use sk_ids::TagSet;
use sk_inversion::Inversion;
use sk_map::Key;
use sk_slots::Slots;
use std::alloc::AllocError;
use std::hash::Hash;
use std::mem;
use std::slice::Iter;

/// The place of a key, or the one behind the last that is taken, where its slot would come.
fn place_of<K: Key + Hash, V, I: Inversion<V>>(
    slots: &Slots<K, V, I>,
    next: &mut usize,
    key: &K,
) -> usize {
    if let Some(place) = slots.find(key) {
        return place;
    }
    let place = *next;
    *next = place.saturating_add(1);
    place
}

/// The places of the keys that a step writes. They save searches: a key is looked for at its place first, and found wherever it
/// is. Without memory there are fewer places.
#[inline(always)]
pub(crate) fn find_all<K: Key + Hash, V, I: Inversion<V>>(
    slots: &Slots<K, V, I>,
    places: &mut Vec<usize>,
    written: &[(K, I::Write)],
) {
    places.clear();
    let mut next = slots.len();
    for write in written {
        if places.reserve(1).is_err() {
            return;
        }
        places.push_reserved(place_of(slots, &mut next, &write.0));
    }
}

/// The next place, or one at which there is no slot.
pub(crate) fn next_place(places: &mut Iter<'_, usize>) -> usize {
    match places.next() {
        Some(place) => *place,
        None => usize::MAX,
    }
}

/// Adds guesses to a set. Most sets are the same.
#[inline(always)]
fn with_tags(all: &mut TagSet, more: &TagSet) -> Result<(), AllocError>
    ensures { OnOk result ((g : ℕ) → has g all.new ≡ (has g all.old || has g more.now)) }
{
    if all.ids().is_empty() {
        *all = more.copy()?;
    } else if !all.is_same(more) && !all.covers(more) {
        *all = all.union(more)?;
    }
    Ok(())
}

/// Adds to a set the guesses that a key depends on.
#[inline(always)]
fn add_tags_at<K: Key + Hash, V, I: Inversion<V>>(
    slots: &Slots<K, V, I>,
    all: &mut TagSet,
    place: usize,
    key: &K,
) -> Result<(), AllocError>
    ensures { OnOk result ((g : ℕ) → has g all.new
        ≡ (has g all.old || any_rests K.order slots.now g (key.now ∷ []))) }
{
    match slots.tags_near(place, key) {
        Some(more) => with_tags(all, more),
        None => Ok(()),
    }
}

/// Adds to a set the guesses that these keys depend on.
#[inline(always)]
pub(crate) fn add_tags<K: Key + Hash, V, I: Inversion<V>>(
    slots: &Slots<K, V, I>,
    all: &mut TagSet,
    keys: &[K],
    places: &[usize],
) -> Result<(), AllocError>
    ensures { OnOk result ((g : ℕ) → has g all.new
        ≡ (has g all.old || any_rests K.order slots.now g keys.now)) }
{
    let mut near = places.iter();
    for key in keys {
        add_tags_at(slots, all, next_place(&mut near), key)?;
    }
    Ok(())
}

/// Whether a key is the one that was looked at in this turn.
#[inline(always)]
fn is_looked<K: Key>(looked: &[K], turn: usize, key: &K) -> bool
    ensures { result ≡ true → is_in K.order looked.now key.now ≡ true }
{
    match looked.get(turn) {
        Some(own) => own == key,
        None => false,
    }
}

/// Adds to a set the guesses that a key depends on which is written. Mostly it was looked at in its turn, and they are there.
#[inline(always)]
fn add_written_tags_at<K: Key + Hash, V, I: Inversion<V>>(
    slots: &Slots<K, V, I>,
    all: &mut TagSet,
    looked: &[K],
    turn: usize,
    place: usize,
    key: &K,
) -> Result<(), AllocError>
    requires { (g : ℕ) → any_rests K.order slots.now g looked.now ≡ true → has g all.old ≡ true }
    ensures { OnOk result ((g : ℕ) → has g all.new
        ≡ (has g all.old || any_rests K.order slots.now g (key.now ∷ []))) }
{
    if is_looked(looked, turn, key) {
        return Ok(());
    }
    add_tags_at(slots, all, place, key)
}

/// Adds to a set the guesses that the keys of writes depend on. Those of the keys that were looked at are in it.
#[inline(always)]
pub(crate) fn add_written_tags<K: Key + Hash, V, I: Inversion<V>>(
    slots: &Slots<K, V, I>,
    all: &mut TagSet,
    looked: &[K],
    written: &[(K, I::Write)],
    places: &[usize],
) -> Result<(), AllocError>
    requires { (g : ℕ) → any_rests K.order slots.now g looked.now ≡ true → has g all.old ≡ true }
    ensures { OnOk result ((g : ℕ) → has g all.new
        ≡ (has g all.old || any_rests K.order slots.now g (keys_of written.now))) }
{
    let mut near = places.iter();
    for (turn, write) in written.iter().enumerate() {
        let place = next_place(&mut near);
        add_written_tags_at(slots, all, looked, turn, place, &write.0)?;
    }
    Ok(())
}

/// The guesses that the first of the keys depends on that a step writes.
#[inline(always)]
pub(crate) fn first_tags<'a, K: Key + Hash, V, I: Inversion<V>>(
    slots: &'a Slots<K, V, I>,
    no_tags: &'a TagSet,
    written: &[(K, I::Write)],
    places: &[usize],
) -> &'a TagSet
    requires { no_tags.now ≡ [] }
    ensures { result.now ≡ first_tags K.order slots.now (keys_of written.now) }
{
    match written.first() {
        Some(write) => tags_near(slots, no_tags, next_place(&mut places.iter()), &write.0),
        None => no_tags,
    }
}

/// Whether all keys of writes have slots, and no write with these tags is noted.
#[inline(always)]
pub(crate) fn go_unnoted<K: Key + Hash, V, I: Inversion<V>>(
    slots: &Slots<K, V, I>,
    tags: &TagSet,
    written: &[(K, I::Write)],
    places: &[usize],
) -> bool
    ensures slots { result ≡ true → (q : K) → is_in K.order (keys_of written.now) q ≡ true
        → is_some (found K.order slots.now q) ≡ true }
    ensures unnoted { result ≡ true → (q : K) → is_in K.order (keys_of written.now) q ≡ true
        → goes_unnoted tags.now (log_at K.order slots.now q) ≡ true }
{
    let mut near = places.iter();
    for write in written {
        if !slots.goes_unnoted(next_place(&mut near), &write.0, tags) {
            return false;
        }
    }
    true
}

/// Whether a key is the one that is written in this turn.
#[inline(always)]
fn is_written<K: Key, W>(written: &[(K, W)], turn: usize, key: &K) -> bool
    ensures { result ≡ true → is_in K.order (keys_of written.now) key.now ≡ true }
{
    match written.get(turn) {
        Some(write) => write.0 == *key,
        None => false,
    }
}

/// Whether a key depends on no guess but these. Mostly it is written in its turn, and its guesses are known.
#[inline(always)]
fn is_within<K: Key + Hash, V, I: Inversion<V>>(
    slots: &Slots<K, V, I>,
    tags: &TagSet,
    written: &[(K, I::Write)],
    turn: usize,
    key: &K,
) -> bool
    requires { (g : ℕ) → any_rests K.order slots.now g (keys_of written.now) ≡ true
        → has g tags.now ≡ true }
    ensures { result ≡ true → (g : ℕ) → any_rests K.order slots.now g (key.now ∷ []) ≡ true
        → has g tags.now ≡ true }
{
    if is_written(written, turn, key) {
        return true;
    }
    match slots.tags(key) {
        Some(own) => tags.covers(own),
        None => true,
    }
}

/// Whether keys that a step looked at depend on no guess but these, as the keys do that it writes.
#[inline(always)]
pub(crate) fn are_within<K: Key + Hash, V, I: Inversion<V>>(
    slots: &Slots<K, V, I>,
    tags: &TagSet,
    looked: &[K],
    written: &[(K, I::Write)],
) -> bool
    requires { (g : ℕ) → any_rests K.order slots.now g (keys_of written.now) ≡ true
        → has g tags.now ≡ true }
    ensures { result ≡ true → (g : ℕ) → any_rests K.order slots.now g looked.now ≡ true
        → has g tags.now ≡ true }
{
    for (turn, key) in looked.iter().enumerate() {
        if !is_within(slots, tags, written, turn, key) {
            return false;
        }
    }
    true
}

/// Makes room for what writes with these tags note, and answers whether none of them is noted, as their keys have just these
/// tags.
#[inline(always)]
pub(crate) fn prepare_all<K: Key + Hash, V: Drop, I: Inversion<V>>(
    slots: &mut Slots<K, V, I>,
    tags: &TagSet,
    written: &[(K, I::Write)],
    places: &[usize],
) -> Result<bool, AllocError>
    ensures look { (q : K) → look_at K.order slots.new q ≡ look_at K.order slots.old q }
    ensures log { (q : K) → log_at K.order slots.new q ≡ log_at K.order slots.old q }
    ensures settled { SettledBut K.order (keys_of written.now) slots.old
        → SettledBut K.order (keys_of written.now) slots.new }
    ensures ready { OnOk result ((q : K) → is_in K.order (keys_of written.now) q ≡ true
        → IsReady K.order tags.now slots.new q) }
    ensures same { IfOk result (λ same. same ≡ true
        → (q : K) → is_in K.order (keys_of written.now) q ≡ true
        → goes_unnoted tags.now (log_at K.order slots.old q) ≡ true) }
{
    let mut same = true;
    let mut near = places.iter();
    for write in written {
        same &= slots.prepare(next_place(&mut near), &write.0, tags)?;
    }
    Ok(same)
}

/// The key of a write, and what is written, which is moved out.
#[inline(always)]
fn take_write<K: Key, W: Default>(write: &mut (K, W)) -> (K, W)
    ensures key { result.0 ≡ write.old.0 }
    ensures value { result.1 ≡ write.old.1 }
    ensures left { write.new.0 ≡ write.old.0 }
{
    (write.0, mem::take(&mut write.1))
}

/// Makes writes that are ready, all with these tags, and answers whether nothing is left to be settled. They are moved out.
#[inline(always)]
pub(crate) fn write_all<K: Key + Hash, V: Drop, I: Inversion<V>>(
    slots: &mut Slots<K, V, I>,
    tags: &TagSet,
    written: &mut [(K, I::Write)],
    places: &[usize],
) -> bool
    requires ready { (q : K) → is_in K.order (keys_of written.old) q ≡ true
        → IsReady K.order tags.now slots.old q }
    requires clean { (q : K) → is_in K.order (keys_of written.old) q ≡ true → tags.now ≡ []
        → log_at K.order slots.old q ≡ [] }
    ensures performed { Performed K.order slots.old tags.now
        (made_by K.order I.written (look_at K.order slots.old) written.old) slots.new }
    ensures keys { keys_of written.new ≡ keys_of written.old }
    ensures settled { SettledBut K.order (keys_of written.old) slots.old
        → SettledBut K.order (keys_of written.old) slots.new }
    ensures done { result ≡ true → SettledBut K.order (keys_of written.old) slots.old
        → AllSettled K.order slots.new }
{
    let mut done = true;
    let mut near = places.iter();
    for place in 0..written.len() {
        let (key, write) = take_write(&mut written[place]);
        done &= slots.write(next_place(&mut near), &key, tags, write);
    }
    done
}

/// Makes writes of which none is noted, and answers whether nothing is left to be settled. They are moved out.
#[inline(always)]
pub(crate) fn write_all_on<K: Key + Hash, V: Drop, I: Inversion<V>>(
    slots: &mut Slots<K, V, I>,
    written: &mut [(K, I::Write)],
    places: &[usize],
) -> bool
    requires { (q : K) → is_in K.order (keys_of written.old) q ≡ true
        → is_some (found K.order slots.old q) ≡ true }
    ensures look { (q : K) → look_at K.order slots.new q
        ≡ written_value K.order
        (made_by K.order I.written (look_at K.order slots.old) written.old) q
        (look_at K.order slots.old q) }
    ensures log { (q : K) → log_at K.order slots.new q ≡ log_at K.order slots.old q }
    ensures keys { keys_of written.new ≡ keys_of written.old }
    ensures settled { SettledBut K.order (keys_of written.old) slots.old
        → SettledBut K.order (keys_of written.old) slots.new }
    ensures done { result ≡ true → SettledBut K.order (keys_of written.old) slots.old
        → AllSettled K.order slots.new }
{
    let mut done = true;
    let mut near = places.iter();
    for place in 0..written.len() {
        let (key, write) = take_write(&mut written[place]);
        done &= slots.write_on(next_place(&mut near), &key, write);
    }
    done
}

/// Lets go of the room that was made for notes of these keys, and of slots of which there is nothing. It takes no memory.
#[inline(never)]
pub(crate) fn settle_all<K: Key + Hash, V: Drop, I: Inversion<V>>(
    slots: &mut Slots<K, V, I>,
    written: &[(K, I::Write)],
)
    ensures look { (q : K) → look_at K.order slots.new q ≡ look_at K.order slots.old q }
    ensures log { (q : K) → log_at K.order slots.new q ≡ log_at K.order slots.old q }
    ensures settled { SettledBut K.order (keys_of written.now) slots.old
        → AllSettled K.order slots.new }
{
    for write in written {
        slots.settle(&write.0);
    }
}

/// As `settle_all`, of keys that were written; nothing is done where the writes left nothing to be settled.
#[inline(always)]
pub(crate) fn settle_rest<K: Key + Hash, V: Drop, I: Inversion<V>>(
    slots: &mut Slots<K, V, I>,
    written: &[(K, I::Write)],
    done: bool,
)
    requires { done ≡ true → AllSettled K.order slots.old }
    ensures look { (q : K) → look_at K.order slots.new q ≡ look_at K.order slots.old q }
    ensures log { (q : K) → log_at K.order slots.new q ≡ log_at K.order slots.old q }
    ensures settled { SettledBut K.order (keys_of written.now) slots.old
        → AllSettled K.order slots.new }
{
    if done {
        return;
    }
    settle_all(slots, written);
}
