//! All keys with their slots.
ghost use Rattle.std.specs.Prelude.{◌≡◌, ◌<◌, ◌+◌, ◌-◌, ◌∷◌, ◌&&◌, [], List, Some, length, true, false, is_some, position, OnOk, IfOk, IsOk, if◌then◌else◌};
ghost use Rattle.std.specs.Option.{option_copied, unwrap_or};
ghost use Rattle.std.specs.Ordering.{eq_by_cmp};
ghost use Rattle.sk_record.specs.Effects.{is_in};
ghost use Rattle.std.specs.List.{IsDistinct};
ghost use Rattle.std.specs.Map.{keys_of};
ghost use Rattle.std.specs.Map.Iter.{ShowsInOrder, deref};
ghost use Rattle.sk_record.specs.Merged.{merged};
ghost use Rattle.sk_record.specs.Notes.{last_tags, unwound, cut, committed};
ghost use Rattle.sk_slots.specs.Counted.{HasPresent};
ghost use Rattle.sk_slots.specs.Slot.{SlotView, goes_unnoted, noted_on};
ghost use Rattle.sk_slots.specs.Slots.{found, look_at, log_at, AllSettled, IsReady, SettledBut};

use crate::Slot;
use crate::left::Left;
use crate::table::Table;
use indexmap::map::Keys;
use sk_ids::{GuessId, TagSet};
use sk_inversion::{Inversion, Whole};
use sk_map::Key;
use std::alloc::{AllocError, Global};
use std::hash::Hash;
use std::marker::Model;

/// What keys have. One without a slot is absent, and nothing is noted of it.
#[derive(Drop)]
pub struct Slots<K: Key + Hash, V, I: Inversion<V> = Whole> {
    slots: Table<K, Slot<V, I>>,
    /// How many keys have a value.
    present: usize,
    /// What commits of many keys left.
    left: Left<V, I::Undo>,
}

/// A commit of so many keys does not drop what it leaves of their notes.
const MANY: usize = 64;

impl<K: Key + Hash, V, I: Inversion<V>> Model for Slots<K, V, I> {
    ghost use Rattle.std.specs.Prelude.{List};
    ghost use Rattle.std.specs.Coded.{coded_list, coded×};
    ghost use Rattle.sk_slots.specs.Counted.{HasPresent};
    ghost use Rattle.sk_slots.specs.Slot.{SlotView, slot_code};
    ghost use Rattle.sk_slots.specs.Slots.{look_at};

    ghost Value = { List (K × SlotView V) };

    ghost coded = { coded_list (coded× K.code (slot_code V.code)) };

    ghost view = { λ a. a.slots };

    ghost invariant = { λ a. HasPresent K.order (look_at K.order a.slots) a.present };
}

/// The count of the keys that have a value, once one of them got a value, lost it, or neither.
#[inline(always)]
fn recounted<K: Key + Hash, V, I: Inversion<V>>(
    slots: &Table<K, Slot<V, I>>,
    count: usize,
    had: bool,
    has: bool,
) -> usize
    requires come { had ≡ false → has ≡ true → count < length slots.now }
    requires gone { had ≡ true → has ≡ false → 0 < count }
    ensures { result ≡ (if had then (if has then count else (count - 1)) else (if has then
        (count + 1) else count)) }
{
    if had == has {
        return count;
    }
    if had {
        return count - 1;
    }
    let _most = slots.len();
    count + 1
}

/// Keeps the notes of a slot of which the commit of a guess leaves none, where many keys are committed.
#[inline(always)]
fn spare<V: Drop, I: Inversion<V>>(
    slot: &mut Slot<V, I>,
    left: &mut Left<V, I::Undo>,
    alloc: Global,
    id: GuessId,
    many: bool,
)
    ensures value { slot.new.value ≡ slot.old.value }
    ensures log { committed id slot.new.log ≡ committed id slot.old.log }
{
    if many {
        left.keep(slot.take_notes(alloc, id));
    }
}

/// Drops as much of what earlier commits left as a commit of so many keys may leave, where they are many: so what is left is at
/// most what one commit left.
#[inline(always)]
fn make_way<V: Drop, U: Drop>(left: &mut Left<V, U>, keys: usize, many: bool) {
    if many {
        left.let_go(keys);
    }
}

impl<K: Key + Hash, V, I: Inversion<V>> Slots<K, V, I> {
    pub fn new(alloc: Global) -> Slots<K, V, I>
        ensures look { (k : K) → look_at K.order result k ≡ None }
        ensures log { (k : K) → log_at K.order result k ≡ [] }
        ensures settled { AllSettled K.order result }
    {
        Slots {
            slots: Table::new(alloc),
            present: 0,
            left: Left::new(alloc),
        }
    }

    pub fn value(&self, key: &K) -> Option<&V>
        ensures { option_copied result ≡ look_at K.order self.now key.now }
    {
        match self.slots.get(key) {
            Some(slot) => slot.value(),
            None => None,
        }
    }

    /// The place of a key that has a slot.
    #[inline(always)]
    pub fn find(&self, key: &K) -> Option<usize>
        ensures { result ≡ position (eq_by_cmp K.order key.now) (keys_of self.now) }
    {
        self.slots.find(key)
    }

    /// How many keys have a value.
    pub fn present(&self) -> usize
        ensures { HasPresent K.order (look_at K.order self.now) result }
    {
        self.present
    }

    /// How many keys have slots. A new one comes to this place.
    pub fn len(&self) -> usize
        ensures { result ≡ length self.now }
    {
        self.slots.len()
    }

    /// The tags of a key, where it has a note.
    pub fn tags(&self, key: &K) -> Option<&TagSet>
        ensures { unwrap_or (option_copied result) [] ≡ last_tags [] (log_at K.order self.now key.now) }
    {
        match self.slots.get(key) {
            Some(slot) => slot.tags(),
            None => None,
        }
    }

    /// As `tags`, for a key that is looked for at a place first.
    #[inline(always)]
    pub fn tags_near(&self, place: usize, key: &K) -> Option<&TagSet>
        ensures { unwrap_or (option_copied result) [] ≡ last_tags [] (log_at K.order self.now key.now) }
    {
        match self.slots.get_near(place, key) {
            Some(slot) => slot.tags(),
            None => None,
        }
    }
}

impl<K: Key + Hash, V, I: Inversion<V>> Slots<K, V, I> {
    /// The tags that a key has once a guess has failed, where it then has a note.
    pub fn tags_without(&self, key: &K, id: GuessId) -> Option<&TagSet>
        ensures { unwrap_or (option_copied result) []
            ≡ last_tags [] (cut id (log_at K.order self.now key.now)) }
    {
        match self.slots.get(key) {
            Some(slot) => slot.tags_without(id),
            None => None,
        }
    }

    /// Whether a key has a slot.
    pub fn has(&self, key: &K) -> bool
        ensures { result ≡ is_some (found K.order self.now key.now) }
    {
        self.slots.get(key).is_some()
    }

    /// Whether a key has a slot, and a write of it with these tags is not noted. The key is looked for at a place first.
    #[inline(always)]
    pub fn goes_unnoted(&self, place: usize, key: &K, tags: &TagSet) -> bool
        ensures { result ≡ (is_some (found K.order self.now key.now)
            && goes_unnoted tags.now (log_at K.order self.now key.now)) }
    {
        match self.slots.get_near(place, key) {
            Some(slot) => slot.goes_unnoted(tags),
            None => false,
        }
    }

    /// The keys that have slots, each once.
    pub fn keys(&self) -> Keys<'_, K, Slot<V, I>>
        ensures all { (q : K) → is_in K.order result q ≡ is_some (found K.order self.now q) }
        ensures once { IsDistinct (eq_by_cmp K.order) result }
        ensures runs { ShowsInOrder (deref {X = K}) }
    {
        self.slots.keys()
    }
}

impl<K: Key + Hash, V: Drop, I: Inversion<V>> Slots<K, V, I> {
    /// Makes room for what a write of a key with these tags notes, and answers whether it is not noted, as the key has just
    /// these tags. The key is looked for at a place first.
    #[inline(always)]
    pub fn prepare(&mut self, place: usize, key: &K, tags: &TagSet) -> Result<bool, AllocError>
        ensures look { (q : K) → look_at K.order self.new q ≡ look_at K.order self.old q }
        ensures log { (q : K) → log_at K.order self.new q ≡ log_at K.order self.old q }
        ensures ok { OnOk result (IsReady K.order tags.now self.new key.now) }
        ensures kept { (q : K) → IsReady K.order tags.now self.old q
            → IsReady K.order tags.now self.new q }
        ensures settled { (keys : List K) → is_in K.order keys key.now ≡ true
            → SettledBut K.order keys self.old → SettledBut K.order keys self.new }
        ensures room { (slot : SlotView V) → found K.order self.old key.now ≡ Some slot
            → goes_unnoted tags.now slot.log ≡ true → IsOk result }
        ensures same { IfOk result
            (λ same. same ≡ goes_unnoted tags.now (log_at K.order self.old key.now)) }
    {
        if let Some(slot) = self.slots.get_mut_near(place, key) {
            return slot.prepare(tags);
        }
        let mut slot = Slot::new(self.slots.alloc());
        let same = slot.prepare(tags)?;
        self.slots.put(*key, slot)?;
        Ok(same)
    }

    /// Sets or changes what a key has, where what is to be noted has room. The key is looked for at a place first. Answers
    /// whether nothing is left to be settled of it.
    #[inline(always)]
    pub fn write(&mut self, place: usize, key: &K, tags: &TagSet, write: I::Write) -> bool
        requires { IsReady K.order tags.now self.old key.now }
        ensures look { (q : K) → look_at K.order self.new q
            ≡ (if eq_by_cmp K.order q key.now then I.written write (look_at K.order self.old q) else
            look_at K.order self.old q) }
        ensures log { (q : K) → log_at K.order self.new q
            ≡ (if eq_by_cmp K.order q key.now then noted_on tags.now (look_at K.order self.old q)
            (log_at K.order self.old q) else log_at K.order self.old q) }
        ensures ready { (q : K) → IsReady K.order tags.now self.old q
            → IsReady K.order tags.now self.new q }
        ensures settled { (keys : List K) → is_in K.order keys key.now ≡ true
            → SettledBut K.order keys self.old → SettledBut K.order keys self.new }
        ensures done { result ≡ true
            → (keys : List K) → SettledBut K.order (key.now ∷ keys) self.old
            → SettledBut K.order keys self.new }
    {
        let Some(slot) = self.slots.get_mut_near(place, key) else {
            unreachable!()
        };
        let had = slot.is_present();
        let is_settled = slot.write(tags, write);
        let has = slot.is_present();
        self.present = recounted(&self.slots, self.present, had, has);
        is_settled
    }

    /// Sets or changes what a key has that has a slot, with the tags of its newest note, so that nothing is noted. The key is
    /// looked for at a place first. Answers as `write` does.
    #[inline(always)]
    pub fn write_on(&mut self, place: usize, key: &K, write: I::Write) -> bool
        requires { is_some (found K.order self.old key.now) ≡ true }
        ensures look { (q : K) → look_at K.order self.new q
            ≡ (if eq_by_cmp K.order q key.now then I.written write (look_at K.order self.old q) else
            look_at K.order self.old q) }
        ensures log { (q : K) → log_at K.order self.new q ≡ log_at K.order self.old q }
        ensures slots { (q : K) → is_some (found K.order self.old q) ≡ true
            → is_some (found K.order self.new q) ≡ true }
        ensures settled { (keys : List K) → is_in K.order keys key.now ≡ true
            → SettledBut K.order keys self.old → SettledBut K.order keys self.new }
        ensures done { result ≡ true
            → (keys : List K) → SettledBut K.order (key.now ∷ keys) self.old
            → SettledBut K.order keys self.new }
    {
        let Some(slot) = self.slots.get_mut_near(place, key) else {
            unreachable!()
        };
        let had = slot.is_present();
        let is_settled = slot.write_on(write);
        let has = slot.is_present();
        self.present = recounted(&self.slots, self.present, had, has);
        is_settled
    }

    /// Lets go of the room that was made for a note of a key, and of its slot where nothing is there and nothing is noted.
    /// It takes no memory.
    #[inline(never)]
    pub fn settle(&mut self, key: &K)
        ensures look { (q : K) → look_at K.order self.new q ≡ look_at K.order self.old q }
        ensures log { (q : K) → log_at K.order self.new q ≡ log_at K.order self.old q }
        ensures settled { (keys : List K) → SettledBut K.order (key.now ∷ keys) self.old
            → SettledBut K.order keys self.new }
    {
        let Some(slot) = self.slots.get_mut(key) else {
            return;
        };
        if slot.settle() {
            return;
        }
        self.slots.remove(key);
    }

    /// Takes a guess out of the notes of one key, and answers whether nothing is left to be settled of it. Where many keys are
    /// committed what is left of their notes is kept.
    #[inline(always)]
    fn commit_at(&mut self, key: &K, id: GuessId, many: bool) -> bool
        ensures look { (q : K) → look_at K.order self.new q ≡ look_at K.order self.old q }
        ensures log { (q : K) → log_at K.order self.new q
            ≡ (if eq_by_cmp K.order q key.now then merged [] (committed id
            (log_at K.order self.old q)) else log_at K.order self.old q) }
        ensures settled { (keys : List K) → is_in K.order keys key.now ≡ true
            → SettledBut K.order keys self.old → SettledBut K.order keys self.new }
        ensures done { result ≡ true
            → (keys : List K) → SettledBut K.order (key.now ∷ keys) self.old
            → SettledBut K.order keys self.new }
    {
        let alloc = self.slots.alloc();
        let Some(slot) = self.slots.get_mut(key) else {
            return false;
        };
        spare(slot, &mut self.left, alloc, id, many);
        slot.commit(id)
    }

    /// Takes a guess out of the notes of one key, and lets go of its slot where nothing is there and nothing is noted.
    #[inline(always)]
    fn commit_one(&mut self, key: &K, id: GuessId, many: bool)
        ensures look { (q : K) → look_at K.order self.new q ≡ look_at K.order self.old q }
        ensures log { (q : K) → log_at K.order self.new q
            ≡ (if eq_by_cmp K.order q key.now then merged [] (committed id
            (log_at K.order self.old q)) else log_at K.order self.old q) }
        ensures settled { AllSettled K.order self.old → AllSettled K.order self.new }
    {
        if self.commit_at(key, id, many) {
            return;
        }
        self.settle(key);
    }

    /// Takes back what depends on a guess at one key. Answers whether nothing is left to be settled of it.
    #[inline(always)]
    fn unwind_at(&mut self, key: &K, id: GuessId) -> bool
        ensures look { (q : K) → look_at K.order self.new q
            ≡ (if eq_by_cmp K.order q key.now then unwound id (log_at K.order self.old q)
            (look_at K.order self.old q) else look_at K.order self.old q) }
        ensures log { (q : K) → log_at K.order self.new q
            ≡ (if eq_by_cmp K.order q key.now then cut id (log_at K.order self.old q) else log_at
            K.order self.old q) }
        ensures settled { (keys : List K) → is_in K.order keys key.now ≡ true
            → SettledBut K.order keys self.old → SettledBut K.order keys self.new }
        ensures done { result ≡ true
            → (keys : List K) → SettledBut K.order (key.now ∷ keys) self.old
            → SettledBut K.order keys self.new }
    {
        let Some(slot) = self.slots.get_mut(key) else {
            return false;
        };
        let had = slot.is_present();
        let is_settled = slot.unwind(id);
        let has = slot.is_present();
        self.present = recounted(&self.slots, self.present, had, has);
        is_settled
    }

    /// Takes back what depends on a guess at one key, and lets go of its slot where nothing is there and nothing is noted.
    #[inline(always)]
    fn unwind_one(&mut self, key: &K, id: GuessId)
        ensures look { (q : K) → look_at K.order self.new q
            ≡ (if eq_by_cmp K.order q key.now then unwound id (log_at K.order self.old q)
            (look_at K.order self.old q) else look_at K.order self.old q) }
        ensures log { (q : K) → log_at K.order self.new q
            ≡ (if eq_by_cmp K.order q key.now then cut id (log_at K.order self.old q) else log_at
            K.order self.old q) }
        ensures settled { AllSettled K.order self.old → AllSettled K.order self.new }
    {
        if self.unwind_at(key, id) {
            return;
        }
        self.settle(key);
    }

    /// Takes a guess out of the notes of these keys, and leaves out those that then depend on just what the note before them
    /// depends on. It wants no memory. What is left of the notes of many keys is kept for `let_go`, where there is memory for it.
    pub fn commit(&mut self, id: GuessId, keys: &[K])
        ensures look { (q : K) → look_at K.order self.new q ≡ look_at K.order self.old q }
        ensures log { (q : K) → log_at K.order self.new q
            ≡ (if is_in K.order keys.now q then merged [] (committed id
            (log_at K.order self.old q)) else log_at K.order self.old q) }
        ensures settled { AllSettled K.order self.old → AllSettled K.order self.new }
    {
        let many = keys.len() >= MANY;
        make_way(&mut self.left, keys.len(), many);
        for key in keys {
            self.commit_one(key, id, many);
        }
    }

    /// Drops what commits of many keys left of the notes of so many of them, and answers of how many there are still some.
    /// Nothing that is seen changes.
    pub fn let_go(&mut self, most: usize) -> usize
        ensures { self.new ≡ self.old }
    {
        self.left.let_go(most)
    }

    /// Takes back what depends on a guess at these keys. It takes no memory.
    pub fn unwind(&mut self, id: GuessId, keys: &[K])
        ensures look { (q : K) → look_at K.order self.new q
            ≡ (if is_in K.order keys.now q then unwound id (log_at K.order self.old q)
            (look_at K.order self.old q) else look_at K.order self.old q) }
        ensures log { (q : K) → log_at K.order self.new q
            ≡ (if is_in K.order keys.now q then cut id (log_at K.order self.old q) else log_at
            K.order self.old q) }
        ensures settled { AllSettled K.order self.old → AllSettled K.order self.new }
    {
        for key in keys {
            self.unwind_one(key, id);
        }
    }
}
