//! The open guesses of a list, by rising number, and what calls make of all of them.
ghost use Rattle.std.specs.Prelude.{◌≡◌, ◌<◌, ◌≤◌, ◌==◌, ℕ, true, false, length, map, not, slice_get, slice_index_or, get_or, OnOk};
ghost use Rattle.sk_guesses.specs.Base.{list_any, prefix_len, IsStrictlySortedBy, unwrap_or, nat_cmp, has, numbers};
ghost use Rattle.sk_guesses.specs.Opens.{opens_of, dependents_of, depending, relieved, relieved_beyond, left_to, without_tag, but, not_resting, after_commit, without_list};
ghost use Rattle.sk_guesses.specs.Room.{Listing};
ghost use Rattle.sk_guesses.specs.Kept.{AreBelow};

use crate::EntitySet;
use crate::open_row::Opens;
use sk_ids::{GuessId, TagSet};
use sk_map::Key;
use std::alloc::Global;

/// Whether none of these guesses is in a set, as where each in it was drawn later.
pub(crate) fn are_earlier<E: Key>(opens: &Opens<E>, tags: &TagSet) -> bool
    requires { IsStrictlySortedBy nat_cmp (numbers (opens_of (map (λ l. l.guess) opens.now.items))) }
    ensures same { result ≡ true → (e : E)
        → map (depending E.order tags.now e) (map (λ l. l.guess) opens.now.items) ≡ map (λ l. l.guess) opens.now.items }
    ensures apart { result ≡ true → (g : ℕ) → has g tags.now ≡ true
        → has g (numbers (opens_of (map (λ l. l.guess) opens.now.items))) ≡ false }
{
    if opens.len() == 0 {
        return true;
    }
    let ids = tags.ids();
    let [oldest, ..] = ids else {
        return true;
    };
    let newest = opens.at(opens.len() - 1);
    newest.id().number() < oldest.number()
}

/// How many undecided guesses stand before one, by halves; all of them, where it is none of them.
fn search<E: Key>(opens: &Opens<E>, id: GuessId) -> usize
    requires { IsStrictlySortedBy nat_cmp
        (numbers (opens_of (map (λ l. l.guess) opens.now.items))) }
    ensures { result ≡ prefix_len (λ l. not (l.guess.id == id)) opens.now.items }
{
    let mut low = 0;
    let mut high = opens.len();
    while low < high {
        let middle = low + (high - low) / 2;
        let other = opens.at(middle).id();
        if other == id {
            return middle;
        }
        if other.number() < id.number() {
            low = middle + 1;
        } else {
            high = middle;
        }
    }
    opens.len()
}

/// How many undecided guesses stand before one. Mostly it is the newest, which is looked at first.
pub(crate) fn place_of<E: Key>(opens: &Opens<E>, id: GuessId) -> usize
    requires { IsStrictlySortedBy nat_cmp
        (numbers (opens_of (map (λ l. l.guess) opens.now.items))) }
    ensures { result ≡ prefix_len (λ l. not (l.guess.id == id)) opens.now.items }
{
    let count = opens.len();
    if count > 0 && opens.at(count - 1).id() == id {
        return count - 1;
    }
    search(opens, id)
}

/// Where the guesses begin whose own steps may depend on one, if no tag of theirs is above their own number.
pub(crate) fn first_resting<E: Key>(opens: &Opens<E>, below: bool, id: GuessId) -> usize
    requires rising { IsStrictlySortedBy nat_cmp
        (numbers (opens_of (map (λ l. l.guess) opens.now.items))) }
    requires below { below ≡ true → AreBelow (opens_of (map (λ l. l.guess) opens.now.items)) }
    ensures none_before { (k : ℕ) (d : Listing E) → k < result
        → has id (slice_index_or opens.now.items k d).guess.tags ≡ false }
    ensures bound { result ≤ length opens.now.items }
{
    let place = place_of(opens, id);
    if below && place < opens.len() {
        return place;
    }
    0
}

/// Moves out the list of a guess.
pub(crate) fn take_list<E: Key>(opens: &mut Opens<E>, alloc: Global, id: GuessId) -> EntitySet<E>
    requires { IsStrictlySortedBy nat_cmp
        (numbers (opens_of (map (λ l. l.guess) opens.old.items))) }
    ensures list { result.entities ≡ dependents_of id (map (λ l. l.guess) opens.old.items) }
    ensures opens { map (λ l. l.guess) opens.new.items
        ≡ without_list id (map (λ l. l.guess) opens.old.items) }
    ensures as_many { length opens.new.items ≡ length opens.old.items }
{
    let place = place_of(opens, id);
    if place >= opens.len() {
        return EntitySet::new(alloc);
    }
    opens.take_dependents(place, alloc)
}

/// Takes a guess out of the undecided ones.
pub(crate) fn close<E: Key>(opens: &mut Opens<E>, id: GuessId)
    requires { IsStrictlySortedBy nat_cmp
        (numbers (opens_of (map (λ l. l.guess) opens.old.items))) }
    ensures opens { map (λ l. l.guess) opens.new.items
        ≡ but id (map (λ l. l.guess) opens.old.items) }
    ensures fewer { length opens.new.items ≤ length opens.old.items }
{
    let place = place_of(opens, id);
    if place < opens.len() {
        opens.remove(place);
    }
}

/// Takes a guess out of what the own steps of these depend on.
fn withdraw<E: Key>(opens: &mut Opens<E>, from: usize, id: GuessId)
    requires none_before { (k : ℕ) (d : Listing E) → k < from
        → has id (slice_index_or opens.old.items k d).guess.tags ≡ false }
    requires bound { from ≤ length opens.old.items }
    ensures opens { map (λ l. l.guess) opens.new.items
        ≡ map (without_tag id) (map (λ l. l.guess) opens.old.items) }
    ensures as_many { length opens.new.items ≡ length opens.old.items }
{
    for place in from..opens.len() {
        opens.without(place, id);
    }
}

/// Takes a guess out of the undecided ones, and out of what the steps of the others depend on.
pub(crate) fn close_committed<E: Key>(opens: &mut Opens<E>, from: usize, id: GuessId)
    requires rising { IsStrictlySortedBy nat_cmp
        (numbers (opens_of (map (λ l. l.guess) opens.old.items))) }
    requires none_before { (k : ℕ) (d : Listing E) → k < from
        → has id (slice_index_or opens.old.items k d).guess.tags ≡ false }
    requires bound { from ≤ length opens.old.items }
    ensures opens { map (λ l. l.guess) opens.new.items
        ≡ after_commit id (map (λ l. l.guess) opens.old.items) }
    ensures fewer { length opens.new.items ≤ length opens.old.items }
{
    withdraw(opens, from, id);
    close(opens, id);
}

/// Takes the guesses out of the undecided ones whose own steps depend on a guess.
pub(crate) fn close_resting<E: Key>(opens: &mut Opens<E>, from: usize, id: GuessId)
    requires none_before { (k : ℕ) (d : Listing E) → k < from
        → has id (slice_index_or opens.old.items k d).guess.tags ≡ false }
    requires bound { from ≤ length opens.old.items }
    ensures opens { map (λ l. l.guess) opens.new.items
        ≡ not_resting id (map (λ l. l.guess) opens.old.items) }
    ensures fewer { length opens.new.items ≤ length opens.old.items }
{
    for back in (from..opens.len()).rev() {
        if opens.at(back).rests_on(id) {
            opens.remove(back);
        }
    }
}

/// Whether all of these guesses were drawn before one and, if no tag of theirs is above their own number, none depends on it.
fn are_older<E: Key>(opens: &Opens<E>, below: bool, id: GuessId) -> bool
    requires rising { IsStrictlySortedBy nat_cmp
        (numbers (opens_of (map (λ l. l.guess) opens.now.items))) }
    requires below { below ≡ true → AreBelow (opens_of (map (λ l. l.guess) opens.now.items)) }
    ensures { result ≡ true → list_any (λ l. has id l.guess.tags) opens.now.items ≡ false }
{
    if !below {
        return false;
    }
    if opens.len() == 0 {
        return false;
    }
    opens.at(opens.len() - 1).id().number() < id.number()
}

/// Whether the own step of one of these guesses depends on a guess.
fn any_rests_on<E: Key>(opens: &Opens<E>, id: GuessId) -> bool
    ensures { result ≡ list_any (λ l. has id l.guess.tags) opens.now.items }
{
    for place in 0..opens.len() {
        if opens.at(place).rests_on(id) {
            return true;
        }
    }
    false
}

/// As `any_rests_on`, where no tag of theirs is above their own number. Mostly all were drawn before that guess, and none is
/// looked at.
pub(crate) fn is_rested_on<E: Key>(opens: &Opens<E>, below: bool, id: GuessId) -> bool
    requires rising { IsStrictlySortedBy nat_cmp
        (numbers (opens_of (map (λ l. l.guess) opens.now.items))) }
    requires below { below ≡ true → AreBelow (opens_of (map (λ l. l.guess) opens.now.items)) }
    ensures { result ≡ list_any (λ l. has id l.guess.tags) opens.now.items }
{
    if are_older(opens, below, id) {
        return false;
    }
    any_rests_on(opens, id)
}

/// The oldest of these guesses.
pub(crate) fn oldest<E: Key>(opens: &Opens<E>) -> Option<GuessId>
    ensures { (g : ℕ) → unwrap_or result g
        ≡ get_or (numbers (opens_of (map (λ l. l.guess) opens.now.items))) 0 g }
{
    if opens.len() == 0 {
        return None;
    }
    Some(opens.at(0).id())
}

/// The guess at a place.
pub(crate) fn id_at<E: Key>(opens: &Opens<E>, place: usize) -> Option<GuessId>
    ensures { result ≡ slice_get (numbers (opens_of (map (λ l. l.guess) opens.now.items))) place }
{
    if place >= opens.len() {
        return None;
    }
    Some(opens.at(place).id())
}

/// Takes an entity out of the lists of the guesses in a set.
pub(crate) fn relieve<E: Key>(opens: &mut Opens<E>, tags: &TagSet, entity: &E)
    requires { IsStrictlySortedBy nat_cmp
        (numbers (opens_of (map (λ l. l.guess) opens.old.items))) }
    ensures opens { map (λ l. l.guess) opens.new.items
        ≡ map (relieved E.order tags.now entity.now) (map (λ l. l.guess) opens.old.items) }
    ensures as_many { length opens.new.items ≡ length opens.old.items }
{
    opens.leave(tags, true, entity);
}

/// Takes an entity out of the lists of the guesses in a set that are not in another.
pub(crate) fn relieve_beyond<E: Key>(opens: &mut Opens<E>, tags: &TagSet, own: &TagSet, entity: &E)
    requires { IsStrictlySortedBy nat_cmp
        (numbers (opens_of (map (λ l. l.guess) opens.old.items))) }
    ensures opens { map (λ l. l.guess) opens.new.items
        ≡ map (relieved_beyond E.order tags.now own.now entity.now)
        (map (λ l. l.guess) opens.old.items) }
    ensures as_many { length opens.new.items ≡ length opens.old.items }
{
    opens.relieve_beyond(tags, own, entity);
}

/// Leaves an entity to the lists of the guesses in a set alone.
pub(crate) fn leave_to<E: Key>(opens: &mut Opens<E>, tags: &TagSet, entity: &E)
    requires { IsStrictlySortedBy nat_cmp
        (numbers (opens_of (map (λ l. l.guess) opens.old.items))) }
    ensures opens { map (λ l. l.guess) opens.new.items
        ≡ map (left_to E.order tags.now entity.now) (map (λ l. l.guess) opens.old.items) }
    ensures as_many { length opens.new.items ≡ length opens.old.items }
{
    opens.leave(tags, false, entity);
}
