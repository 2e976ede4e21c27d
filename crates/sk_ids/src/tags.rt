//! Sets of guesses.
ghost use Rattle.std.specs.Prelude.{◌≡◌, ◌↔◌, ◌&&◌, ◌||◌, ◌<◌, ◌∷◌, ◌++◌, ℕ, IfOk, IfSome, OnOk, None, [], true, false, not, length, get_or};
ghost use Rattle.std.specs.Ordering.{nat_cmp};
ghost use Rattle.std.specs.List.Sorted.{IsStrictlySortedBy};
ghost use Rattle.sk_record.specs.Notes.{has, without};
ghost use Rattle.sk_record.specs.Merged.{same_tags};
ghost use Rattle.std.specs.List.{filter, list_all};

use crate::GuessId;
use crate::front::Fronted;
use smallvec::SmallVec;
use std::alloc::{AllocError, Global};
use std::marker::Model;

/// A set of guesses, kept as a list that rises strictly; contracts see the list. Up to four take no
/// memory, and the oldest is taken out without moving the others.
#[derive(Drop)]
pub struct TagSet {
    ids: Fronted,
}

impl Model for TagSet {
    ghost use Rattle.std.specs.Prelude.{ℕ, List};
    ghost use Rattle.std.specs.Ordering.{nat_cmp};
    ghost use Rattle.std.specs.List.Sorted.{IsStrictlySortedBy};

    ghost Value = { List ℕ };

    ghost view = { λ a. a.ids };

    ghost invariant = { λ a. IsStrictlySortedBy nat_cmp a.ids };
}

/// Whether two lists that rise have each number from the same oldest to the same newest.
fn is_same_run(ids: &[GuessId], others: &[GuessId]) -> bool
    requires ids { IsStrictlySortedBy nat_cmp ids.now }
    requires others { IsStrictlySortedBy nat_cmp others.now }
    ensures { result ≡ true → ids.now ≡ others.now }
{
    if ids.len() != others.len() {
        return false;
    }
    match (ids, others) {
        ([oldest, .., newest], [first, .., last]) => {
            let from = oldest.number();
            let to = newest.number();
            if first.number() != from {
                return false;
            }
            if last.number() != to {
                return false;
            }
            let span = to.saturating_sub(from);
            span < ids.len() as u64
        }
        _ => false,
    }
}

/// Whether two lists that rise are the same. Most have each number from their oldest to their newest, and then no others are
/// looked at.
fn are_same(ids: &[GuessId], others: &[GuessId]) -> bool
    requires ids { IsStrictlySortedBy nat_cmp ids.now }
    requires others { IsStrictlySortedBy nat_cmp others.now }
    ensures { result ≡ same_tags ids.now others.now }
{
    is_same_run(ids, others) || ids == others
}

/// Whether a guess lies between the oldest and the newest of a list that rises. Most that are asked for do not.
fn spans(ids: &[GuessId], id: GuessId) -> bool
    requires { IsStrictlySortedBy nat_cmp ids.now }
    ensures { result ≡ false → has id ids.now ≡ false }
{
    match ids {
        [oldest, ..] if oldest.number() > id.number() => false,
        [.., newest] => newest.number() >= id.number(),
        [] => false,
    }
}

/// Where a guess stands in a list that rises, if each from the oldest to it is there. In most lists each is.
fn place_in_run(ids: &[GuessId], id: GuessId) -> Option<usize>
    ensures { IfSome result
        (λ place. (place < length ids.now) × (get_or ids.now place 0 ≡ id)) }
{
    let [oldest, ..] = ids else {
        return None;
    };
    let place = id.number().saturating_sub(oldest.number()) as usize;
    match ids.get(place) {
        Some(found) if *found == id => Some(place),
        _ => None,
    }
}

/// Adds a guess at the end of a list, if it is not in a set.
fn push_new(list: &mut SmallVec<GuessId, 4>, set: &TagSet, id: GuessId) -> Result<(), AllocError>
    ensures { OnOk result
        (list.new.items ≡ list.old.items ++ filter (λ g. not (has g set.now)) (id ∷ [])) }
{
    if set.contains(id) {
        return Ok(());
    }
    list.push(id)?;
    Ok(())
}

impl TagSet {
    /// The set of no guess.
    pub fn new(alloc: Global) -> TagSet
        ensures { result ≡ [] }
    {
        TagSet {
            ids: Fronted::new(alloc),
        }
    }

    /// The set of one guess, which takes no memory.
    pub fn of(alloc: Global, id: GuessId) -> TagSet
        ensures { result ≡ id ∷ [] }
    {
        let mut ids = SmallVec::new(alloc);
        ids.push_reserved(id);
        TagSet {
            ids: Fronted::of(ids),
        }
    }

    /// The set of two guesses by rising number, which takes no memory.
    fn pair(alloc: Global, oldest: GuessId, newest: GuessId) -> TagSet
        requires { oldest < newest }
        ensures { result ≡ oldest ∷ newest ∷ [] }
    {
        let mut ids = SmallVec::new(alloc);
        ids.push_reserved(oldest);
        ids.push_reserved(newest);
        TagSet {
            ids: Fronted::of(ids),
        }
    }

    /// The set of two guesses, which may be the same. This takes no memory.
    fn of_both(alloc: Global, one: GuessId, other: GuessId) -> TagSet
        ensures { (id : ℕ) → has id result ≡ (has id (one ∷ []) || has id (other ∷ [])) }
    {
        if one.number() < other.number() {
            return TagSet::pair(alloc, one, other);
        }
        if other.number() < one.number() {
            return TagSet::pair(alloc, other, one);
        }
        TagSet::of(alloc, one)
    }

    /// Where a guess stands in the list. Mostly it is the oldest, or the newest.
    fn place_of(&self, id: GuessId) -> Option<usize>
        ensures there { IfSome result
            (λ place. (place < length self.now) × (get_or self.now place 0 ≡ id)) }
        ensures none { result ≡ None → has id self.now ≡ false }
    {
        let ids = self.ids.as_slice();
        match ids.first() {
            Some(oldest) if *oldest == id => return Some(0),
            _ => {}
        }
        if !spans(ids, id) {
            return None;
        }
        if let Some(place) = place_in_run(ids, id) {
            return Some(place);
        }
        match ids.last() {
            Some(newest) if *newest == id => return Some(ids.len() - 1),
            _ => {}
        }
        ids.binary_search(&id).ok()
    }

    /// Whether a guess is in the set.
    pub fn contains(&self, id: GuessId) -> bool
        ensures { result ≡ has id self.now }
    {
        self.place_of(id).is_some()
    }

    /// Whether both sets have the same guesses. Most have one.
    #[inline(always)]
    pub fn is_same(&self, other: &TagSet) -> bool
        ensures { result ≡ same_tags self.now other.now }
    {
        match (self.ids.as_slice(), other.ids.as_slice()) {
            ([one], [same]) => one.number() == same.number(),
            (ids, others) => are_same(ids, others),
        }
    }

    /// Whether each guess of the other set is in this one. Most that are asked for have no guess, or are the same.
    pub fn covers(&self, other: &TagSet) -> bool
        ensures { (result ≡ true) ↔ ((id : ℕ) → has id other.now ≡ true → has id self.now ≡ true) }
    {
        let ids = self.ids.as_slice();
        let others = other.ids.as_slice();
        if let [] = others {
            return true;
        }
        if others.len() > ids.len() {
            return false;
        }
        if self.is_same(other) {
            return true;
        }
        if ids.starts_with(others) {
            return true;
        }
        self.has_all(other)
    }

    fn has_all(&self, other: &TagSet) -> bool
        ensures { result ≡ list_all (λ id. has id self.now) other.now }
    {
        other.ids.as_slice().iter().all(|id| self.contains(*id))
    }

    /// The guesses by rising number.
    pub fn ids(&self) -> &[GuessId]
        ensures members { result.now ≡ self.now }
        ensures rising { IsStrictlySortedBy nat_cmp result.now }
    {
        self.ids.as_slice()
    }

    /// Takes a guess out, which wants no memory. A set below a quarter of its room lets most of that go.
    #[inline(always)]
    pub fn without(&mut self, id: GuessId)
        ensures { self.new ≡ without id self.old }
    {
        if let Some(place) = self.place_of(id) {
            self.ids.remove(place);
        }
    }

    /// A set of the same guesses. Most have two at most.
    pub fn copy(&self) -> Result<TagSet, AllocError>
        ensures { IfOk result (λ copy. copy ≡ self.now) }
    {
        match self.ids.as_slice() {
            [] => Ok(TagSet::new(self.ids.alloc())),
            [one] => Ok(TagSet::of(self.ids.alloc(), *one)),
            [oldest, newest] => Ok(TagSet::pair(self.ids.alloc(), *oldest, *newest)),
            _ => self.long_copy(),
        }
    }

    /// A set of the same guesses, of any length.
    fn long_copy(&self) -> Result<TagSet, AllocError>
        ensures { IfOk result (λ copy. copy ≡ self.now) }
    {
        let ids = Fronted::of(self.ids.copied()?);
        Ok(TagSet { ids })
    }

    /// The guesses of this set that are not in the other.
    pub fn beyond(&self, other: &TagSet) -> Result<TagSet, AllocError>
        ensures members { IfOk result
            (λ rest. (id : ℕ) → has id rest ≡ (has id self.now && not (has id other.now))) }
    {
        let mut rest = SmallVec::new(self.ids.alloc());
        for id in self.ids.as_slice() {
            push_new(&mut rest, other, *id)?;
        }
        let ids = Fronted::of(rest);
        Ok(TagSet { ids })
    }

    /// The guesses of either set. Most have one.
    pub fn union(&self, other: &TagSet) -> Result<TagSet, AllocError>
        ensures members { IfOk result
            (λ all. (id : ℕ) → has id all ≡ (has id self.now || has id other.now)) }
        ensures rising { IfOk result (λ all. IsStrictlySortedBy nat_cmp all) }
    {
        if let ([one], [two]) = (self.ids.as_slice(), other.ids.as_slice()) {
            let both = TagSet::of_both(self.ids.alloc(), *one, *two);
            let _rising = both.ids();
            return Ok(both);
        }
        self.long_union(other)
    }

    /// The guesses of either set, of any length.
    fn long_union(&self, other: &TagSet) -> Result<TagSet, AllocError>
        ensures members { IfOk result
            (λ all. (id : ℕ) → has id all ≡ (has id self.now || has id other.now)) }
        ensures rising { IfOk result (λ all. IsStrictlySortedBy nat_cmp all) }
    {
        let mut ids = self.ids.copied()?;
        ids.extend_from_slice(other.ids.as_slice())?;
        ids.sort_unstable();
        ids.dedup();
        let ids = Fronted::of(ids);
        Ok(TagSet { ids })
    }
}
