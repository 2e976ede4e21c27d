//! The undecided guesses, many of which share one list of what depends on them.
ghost use Rattle.std.specs.Prelude.{◌≡◌, ◌<◌, ◌≤◌, ◌+◌, ◌∷◌, ◌++◌, ℕ, List, [], true, false, length, map, slice_index_or, slice_set, OnOk, OnErr, IsOk, if◌then◌else◌};
ghost use Rattle.sk_guesses.specs.Base.{remove, AllByRecursion, AllZip, IsStrictlySortedBy, nat_cmp, has, numbers};
ghost use Rattle.sk_guesses.specs.EntitySet.{with_entity, without_entity};
ghost use Rattle.sk_guesses.specs.Opens.{depending, opens_of, relieved_beyond, without_tag};
ghost use Rattle.sk_guesses.specs.Room.{Listing};
ghost use Rattle.sk_guesses.specs.Shared.{seen, is_beyond, is_named, changing, IsRelieved, IsReady, AreReady, HasPlace, IsRoomier, IsPlaced, Agrees, IsChanged, WillChange, Sharing, AreRising, AreWithin};

use crate::EntitySet;
use crate::open_guess::OpenGuess;
use crate::row::Row;
use sk_ids::{GuessId, TagSet};
use sk_map::Key;
use std::alloc::{AllocError, Global};
use std::marker::Model;

/// A list with room for no more is short.
pub(crate) const FEW_PLACES: usize = 64;

/// What is seen of an undecided guess.
#[derive(Drop)]
pub(crate) struct Seen<'a, E: Key> {
    id: GuessId,
    tags: &'a TagSet,
    dependents: &'a [E],
}

impl<'a, E: Key> Model for Seen<'a, E> {
    ghost use Rattle.std.specs.List.Sorted.{IsStrictlySortedBy};
    ghost use Rattle.sk_guesses.specs.Room.{Listing};

    ghost Value = { Listing E };

    ghost view = { λ s. record
        { guess = record { id = s.id; tags = s.tags.now; dependents = s.dependents.now } } };

    ghost invariant = { λ s. IsStrictlySortedBy E.order s.dependents.now };
}

impl<'a, E: Key> Seen<'a, E> {
    pub(crate) fn id(&self) -> GuessId
        ensures { result ≡ self.now.guess.id }
    {
        self.id
    }

    /// Whether its own step depends on a guess.
    pub(crate) fn rests_on(&self, id: GuessId) -> bool
        ensures { result ≡ has id self.now.guess.tags }
    {
        self.tags.contains(id)
    }

    /// The guesses that its own step depends on.
    pub(crate) fn tags(&self) -> &'a TagSet
        ensures { result.now ≡ self.now.guess.tags }
    {
        self.tags
    }

    /// The entities that depend on it, by rising order.
    pub(crate) fn dependents(&self) -> &'a [E]
        ensures value { result.now ≡ self.now.guess.dependents }
        ensures rising { IsStrictlySortedBy E.order result.now }
    {
        self.dependents
    }
}

/// The guesses from one number to another.
#[derive(Clone, Copy)]
pub(crate) struct Span {
    oldest: GuessId,
    newest: GuessId,
}

/// A span with one guess more, where that is wanted.
fn spanning(span: Span, id: GuessId, wanted: bool) -> Span
    ensures wider { (result.oldest ≤ span.oldest) × (span.newest ≤ result.newest) }
    ensures one { wanted ≡ true → (result.oldest ≤ id) × (id ≤ result.newest) }
{
    if !wanted {
        return span;
    }
    Span {
        oldest: if id.number() < span.oldest.number() {
            id
        } else {
            span.oldest
        },
        newest: if id.number() > span.newest.number() {
            id
        } else {
            span.newest
        },
    }
}

/// Undecided guesses in their order. Guesses on which the same entities depend share one list.
#[derive(Drop)]
pub(crate) struct Opens<E: Key> {
    row: Row<OpenGuess<E>>,
    shared: EntitySet<E>,
    /// No others share the list, so that a change of it visits these alone.
    sharers: Span,
    /// Room for another list as long as the shared one, as far as there is memory, and no entity.
    spare: EntitySet<E>,
}

impl<E: Key> Model for Opens<E> {
    ghost use Rattle.std.specs.Prelude.{◌≡◌, [], map, length};
    ghost use Rattle.sk_guesses.specs.Room.{Listing};
    ghost use Rattle.sk_guesses.specs.Row.{InOrder};
    ghost use Rattle.sk_guesses.specs.Shared.{seen, AreReady, AreWithin};

    ghost Value = { InOrder (Listing E) };

    ghost view = { λ a. record
        { items = map (seen a.shared.entities) a.row.items; places = a.row.places } };

    ghost invariant = { λ a. AreReady (length a.shared.entities) a.row.items
        × (a.spare.entities ≡ [])
        × AreWithin a.sharers.oldest a.sharers.newest a.row.items };
}

/// How many of a list that rises are below a guess, by halves.
fn count_below(ids: &[GuessId], id: GuessId) -> usize
    requires { IsStrictlySortedBy nat_cmp ids.now }
    ensures below { (k d : ℕ) → k < result → slice_index_or ids.now k d < id }
    ensures others { (k d : ℕ) → result ≤ k → k < length ids.now → id ≤ slice_index_or ids.now k d }
    ensures bound { result ≤ length ids.now }
{
    let mut low = 0;
    let mut high = ids.len();
    while low < high {
        let middle = low + (high - low) / 2;
        if ids[middle].number() < id.number() {
            low = middle + 1;
        } else {
            high = middle;
        }
    }
    low
}

/// The first place from one on whose guess is not below another, by halves. Mostly that is the newest.
fn first_from<E: Key>(row: &Row<OpenGuess<E>>, from: usize, id: GuessId) -> usize
    requires rising { AreRising row.now.items }
    requires bound { from ≤ length row.now.items }
    ensures below { (k : ℕ) (d : Sharing E) → from ≤ k → k < result
        → (slice_index_or row.now.items k d).guess.id < id }
    ensures least { from ≤ result }
    ensures bound { result ≤ length row.now.items }
{
    let mut low = from;
    let mut high = row.len();
    if low < high && row.at(high - 1).id().number() <= id.number() {
        low = high - 1;
    }
    while low < high {
        let middle = low + (high - low) / 2;
        if row.at(middle).id().number() < id.number() {
            low = middle + 1;
        } else {
            high = middle;
        }
    }
    low
}

/// Whether one of these guesses shares the list, where no others do but those of a span.
fn any_shares<E: Key>(row: &Row<OpenGuess<E>>, sharers: Span) -> bool
    requires ids { AreRising row.now.items }
    requires sharers { AreWithin sharers.oldest sharers.newest row.now.items }
    ensures { result ≡ false → AllByRecursion (λ o. o.shares ≡ false) row.now.items }
{
    for place in first_from(row, 0, sharers.oldest)..row.len() {
        let open = row.at(place);
        if open.is_after(sharers.newest) {
            return false;
        }
        if open.shares() {
            return true;
        }
    }
    false
}

/// The first place from one on whose guess may be among some; where those that are not among them are asked for, that place.
fn next_named<E: Key>(row: &Row<OpenGuess<E>>, tags: &TagSet, within: bool, from: usize) -> usize
    requires rising { AreRising row.now.items }
    requires bound { from ≤ length row.now.items }
    ensures none { (k : ℕ) (d : Sharing E) → from ≤ k → k < result
        → is_named within tags.now (slice_index_or row.now.items k d).guess.id ≡ false }
    ensures least { from ≤ result }
    ensures bound { result ≤ length row.now.items }
{
    if !within {
        return from;
    }
    if from >= row.len() {
        return from;
    }
    let ids = tags.ids();
    let passed = count_below(ids, row.at(from).id());
    if passed >= ids.len() {
        return row.len();
    }
    first_from(row, from, ids[passed])
}

/// Whether one that shares the list is among these guesses, or is not.
fn any_named<E: Key>(row: &Row<OpenGuess<E>>, tags: &TagSet, within: bool) -> bool
    requires { AreRising row.now.items }
    ensures { result ≡ false → AllByRecursion
        (λ o. o.shares ≡ true → is_named within tags.now o.guess.id ≡ false) row.now.items }
{
    let mut place = next_named(row, tags, within, 0);
    while place < row.len() {
        if row.at(place).shares_named(tags, within) {
            return true;
        }
        place = next_named(row, tags, within, place + 1);
    }
    false
}

/// Each guess that shares the list and is not named gets a list of its own.
fn part_others<E: Key>(
    row: &mut Row<OpenGuess<E>>,
    shared: &[E],
    sharers: Span,
    tags: &TagSet,
    within: bool,
)
    requires rising { IsStrictlySortedBy E.order shared.now }
    requires ready { AreReady (length shared.now) row.old.items }
    requires ids { AreRising row.old.items }
    requires sharers { AreWithin sharers.oldest sharers.newest row.old.items }
    ensures { AllZip (Agrees shared.now (is_named within tags.now) true) row.old.items
        row.new.items }
{
    for place in first_from(row, 0, sharers.oldest)..row.len() {
        if row.at(place).is_after(sharers.newest) {
            return;
        }
        part_other(row.at_mut(place), shared, tags, within);
    }
}

/// A guess that shares the list and is not named gets a list of its own.
fn part_other<E: Key>(open: &mut OpenGuess<E>, shared: &[E], tags: &TagSet, within: bool)
    requires rising { IsStrictlySortedBy E.order shared.now }
    requires ready { IsReady (length shared.now) open.old }
    ensures { Agrees shared.now (is_named within tags.now) true open.old open.new }
{
    if !open.shares() {
        return;
    }
    if open.is_named(tags, within) {
        return;
    }
    open.part(shared);
}

/// Makes those that share the list change with it, or not change at all, and answers whether they change.
fn agree<E: Key>(
    row: &mut Row<OpenGuess<E>>,
    shared: &[E],
    sharers: Span,
    tags: &TagSet,
    within: bool,
) -> bool
    requires rising { IsStrictlySortedBy E.order shared.now }
    requires ready { AreReady (length shared.now) row.old.items }
    requires ids { AreRising row.old.items }
    requires sharers { AreWithin sharers.oldest sharers.newest row.old.items }
    ensures { AllZip (Agrees shared.now (is_named within tags.now) result) row.old.items
        row.new.items }
{
    if any_named(row, tags, within) {
        part_others(row, shared, sharers, tags, within);
        return true;
    }
    false
}

/// Adds an entity to the own lists of these guesses, where there is room for it.
fn depend_own<E: Key>(row: &mut Row<OpenGuess<E>>, tags: &TagSet, entity: &E)
    requires room { AllByRecursion (λ o. o.shares ≡ false → has o.guess.id tags.now ≡ true
        → 0 < o.room) row.old.items }
    requires ids { AreRising row.old.items }
    ensures { AllZip (IsChanged (λ es. with_entity E.order es entity.now) (λ g. has g tags.now))
        row.old.items row.new.items }
{
    let mut place = next_named(row, tags, true, 0);
    while place < row.len() {
        row.at_mut(place).depend(tags, entity);
        place = next_named(row, tags, true, place + 1);
    }
}

/// Takes an entity out of the own lists of these guesses, or of all others.
fn leave_own<E: Key>(row: &mut Row<OpenGuess<E>>, tags: &TagSet, within: bool, entity: &E)
    requires { AreRising row.old.items }
    ensures { AllZip (IsChanged (λ es. without_entity E.order es entity.now)
        (is_named within tags.now)) row.old.items row.new.items }
{
    let mut place = next_named(row, tags, within, 0);
    while place < row.len() {
        row.at_mut(place).leave(tags, within, entity);
        place = next_named(row, tags, within, place + 1);
    }
}

/// Takes an entity out of the lists of the guesses of a set that are not in another. Each that shared the list gets its own.
fn relieve_seen<E: Key>(
    row: &mut Row<OpenGuess<E>>,
    shared: &[E],
    tags: &TagSet,
    own: &TagSet,
    entity: &E,
)
    requires rising { IsStrictlySortedBy E.order shared.now }
    requires ready { AreReady (length shared.now) row.old.items }
    requires ids { AreRising row.old.items }
    ensures { AllZip (IsRelieved shared.now (λ es. without_entity E.order es entity.now)
        (is_beyond tags.now own.now)) row.old.items row.new.items }
{
    let mut place = next_named(row, tags, true, 0);
    while place < row.len() {
        row.at_mut(place).relieve(shared, tags, own, entity);
        place = next_named(row, tags, true, place + 1);
    }
}

/// Makes room for one entity more in the lists of these guesses. The shared list has so many, and room for more.
fn reserve_own<E: Key>(
    row: &mut Row<OpenGuess<E>>,
    tags: &TagSet,
    shared: usize,
    places: usize,
) -> Result<(), AllocError>
    requires places { shared < places }
    requires ready { AreReady shared row.old.items }
    requires ids { AreRising row.old.items }
    ensures same { AllZip (IsRoomier shared) row.old.items row.new.items }
    ensures ok { OnOk result
        (AllZip (IsPlaced (λ g. has g tags.now) shared) row.old.items row.new.items) }
{
    let mut place = next_named(row, tags, true, 0);
    while place < row.len() {
        row.at_mut(place).reserve(tags, shared, places)?;
        place = next_named(row, tags, true, place + 1);
    }
    Ok(())
}

/// Whether the last shares the list, and that has just these entities.
fn is_shared<E: Key>(row: &Row<OpenGuess<E>>, shared: &EntitySet<E>, entities: &[E]) -> bool
    ensures { result ≡ true → shared.now.entities ≡ entities.now }
{
    if row.len() == 0 {
        return false;
    }
    if !row.at(row.len() - 1).shares() {
        return false;
    }
    shared.is_just(entities)
}

/// A guess that begins with these entities, which are the shared list's where it shares that.
fn begun<E: Key>(id: GuessId, tags: TagSet, dependents: EntitySet<E>, shares: bool) -> OpenGuess<E>
    ensures seen { (es : List E) → (shares ≡ true → es ≡ dependents.entities)
        → seen es result
        ≡ record { guess = record { id = id; tags = tags; dependents = dependents.entities } } }
    ensures ready { (es : List E) → (shares ≡ true → es ≡ dependents.entities)
        → IsReady (length es) result }
    ensures id { result.guess.id ≡ id }
    ensures shares { result.shares ≡ shares }
{
    let mut open = OpenGuess::new(id, tags, dependents);
    if !shares {
        return open;
    }
    open.share();
    open
}

/// Moves out the list of a guess: a copy of the shared one, where it shares that.
fn take_seen<E: Key>(open: &mut OpenGuess<E>, shared: &[E], alloc: Global) -> EntitySet<E>
    requires rising { IsStrictlySortedBy E.order shared.now }
    requires ready { IsReady (length shared.now) open.old }
    ensures list { result.entities ≡ (seen shared.now open.old).guess.dependents }
    ensures guess { open.new.guess ≡ record open.old.guess { dependents = [] } }
    ensures shares { open.new.shares ≡ false }
{
    if open.shares() {
        open.part(shared);
        return open.take_own(alloc);
    }
    open.take_own(alloc)
}

/// Makes room for so many entities, as far as there is memory. For a short list none is needed.
fn reserve_spare<E: Key>(spare: &mut EntitySet<E>, places: usize)
    requires { spare.old.entities ≡ [] }
    ensures { spare.new.entities ≡ [] }
{
    if places > FEW_PLACES && spare.places() < places {
        let _ = spare.replace_room(places);
    }
}

/// Whether each of these guesses shares the list, is in a set, and has room for more than so many entities.
fn all_change<E: Key>(row: &Row<OpenGuess<E>>, tags: &TagSet, shared: usize) -> bool
    ensures { result ≡ true → AllByRecursion (WillChange (λ g. has g tags.now) shared)
        row.now.items }
{
    for place in 0..row.len() {
        if !row.at(place).will_change(tags, shared) {
            return false;
        }
    }
    true
}

/// Adds an entity to the shared list, for which there is room, where that changes.
fn add_if<E: Key>(shared: &mut EntitySet<E>, spare: &mut EntitySet<E>, changes: bool, entity: &E)
    requires room { 0 < shared.old.room }
    requires empty { spare.old.entities ≡ [] }
    ensures entities { shared.new.entities ≡ (if changes then with_entity E.order
        shared.old.entities entity.now else shared.old.entities) }
    ensures empty { spare.new.entities ≡ [] }
{
    if changes {
        shared.add_over(entity, spare);
    }
}

/// Takes an entity out of the shared list, where that changes.
fn remove_if<E: Key>(shared: &mut EntitySet<E>, changes: bool, entity: &E)
    ensures { shared.new.entities ≡ (if changes then without_entity E.order shared.old.entities
        entity.now else shared.old.entities) }
{
    if changes {
        shared.remove(entity);
    }
}

impl<E: Key> Opens<E> {
    pub(crate) fn new(alloc: Global) -> Opens<E>
        ensures { result.items ≡ [] }
    {
        Opens {
            row: Row::new(alloc),
            shared: EntitySet::new(alloc),
            sharers: Span {
                oldest: GuessId::default(),
                newest: GuessId::default(),
            },
            spare: EntitySet::new(alloc),
        }
    }

    pub(crate) fn len(&self) -> usize
        ensures { result ≡ length self.now.items }
    {
        self.row.len()
    }

    pub(crate) fn at(&self, place: usize) -> Seen<'_, E>
        requires { place < length self.now.items }
        ensures { result ≡ slice_index_or self.now.items place result }
    {
        let open = self.row.at(place);
        let dependents = if open.shares() {
            self.shared.as_slice()
        } else {
            open.own()
        };
        Seen {
            id: open.id(),
            tags: open.tags(),
            dependents,
        }
    }

    /// Makes room for so many more.
    pub(crate) fn reserve(&mut self, more: usize) -> Result<(), AllocError>
        ensures items { self.new.items ≡ self.old.items }
        ensures ok { OnOk result (length self.new.items + more ≤ self.new.places) }
        ensures room { length self.old.items + more ≤ self.old.places → IsOk result }
    {
        self.row.reserve(more)
    }

    /// Makes room for a shared list of so many entities, as far as there is memory.
    pub(crate) fn reserve_shared(&mut self, count: usize)
        ensures { self.new ≡ self.old }
    {
        if self.shared.places() < count {
            let _ = self.shared.reserve(count);
        }
    }

    /// The last shares its list from then on, if it has just these entities and no other shares one.
    fn found(&mut self, entities: &[E])
        requires rising { IsStrictlySortedBy E.order entities.now }
        requires ids { IsStrictlySortedBy nat_cmp
            (numbers (opens_of (map (λ l. l.guess) self.old.items))) }
        ensures { self.new ≡ self.old }
    {
        if self.row.len() == 0 {
            return;
        }
        let last = self.row.len() - 1;
        if self.shared.places() < entities.len() {
            return;
        }
        if !self.row.at(last).has_just(entities) {
            return;
        }
        if any_shares(&self.row, self.sharers) {
            return;
        }
        self.shared.clear();
        self.shared.fill(entities);
        let id = self.row.at(last).id();
        self.sharers = Span {
            oldest: id,
            newest: id,
        };
        self.row.at_mut(last).share();
    }

    /// Puts a guess behind the others, for which there is room. It shares the list of the last, where that is the same.
    pub(crate) fn push_reserved(&mut self, id: GuessId, tags: TagSet, dependents: EntitySet<E>)
        requires room { length self.old.items < self.old.places }
        requires ids { IsStrictlySortedBy nat_cmp
            (numbers (opens_of (map (λ l. l.guess) self.old.items))) }
        ensures items { self.new.items
            ≡ self.old.items
            ++ record { guess = record { id = id; tags = tags; dependents = dependents.entities } }
            ∷ [] }
        ensures places { self.new.places ≡ self.old.places }
    {
        self.found(dependents.as_slice());
        let shares = is_shared(&self.row, &self.shared, dependents.as_slice());
        self.sharers = spanning(self.sharers, id, shares);
        self.row.push_reserved(begun(id, tags, dependents, shares));
    }

    /// Takes the guess at a place out; those behind it move up.
    #[inline(always)]
    pub(crate) fn remove(&mut self, place: usize)
        requires { place < length self.old.items }
        ensures items { self.new.items ≡ remove self.old.items place }
        ensures places { self.new.places ≡ self.old.places }
    {
        self.row.remove(place);
    }

    /// Moves out the list of the guess at a place.
    pub(crate) fn take_dependents(&mut self, place: usize, alloc: Global) -> EntitySet<E>
        requires { place < length self.old.items }
        ensures list { (d : Listing E)
            → result.entities ≡ (slice_index_or self.old.items place d).guess.dependents }
        ensures items { (d : Listing E) → self.new.items ≡ slice_set self.old.items place
            (record {
              guess = record (slice_index_or self.old.items place d).guess
                  { dependents = [] };
            }) }
    {
        take_seen(self.row.at_mut(place), self.shared.as_slice(), alloc)
    }

    /// Takes a guess out of what the own step of the one at a place depends on.
    pub(crate) fn without(&mut self, place: usize, id: GuessId)
        requires { place < length self.old.items }
        ensures { (d : Listing E) → self.new.items ≡ slice_set self.old.items place
            (record { guess = without_tag id (slice_index_or self.old.items place d).guess }) }
    {
        self.row.at_mut(place).without(id);
    }

    /// Adds an entity to the lists of these guesses. Without memory everything is as it was.
    pub(crate) fn depend(&mut self, tags: &TagSet, entity: &E) -> Result<(), AllocError>
        requires { IsStrictlySortedBy nat_cmp
            (numbers (opens_of (map (λ l. l.guess) self.old.items))) }
        ensures ok { OnOk result (map (λ l. l.guess) self.new.items
            ≡ map (depending E.order tags.now entity.now) (map (λ l. l.guess) self.old.items)) }
        ensures err { OnErr result (self.new.items ≡ self.old.items) }
    {
        self.shared.reserve(1)?;
        reserve_spare(&mut self.spare, self.shared.places());
        let count = self.shared.as_slice().len();
        if all_change(&self.row, tags, count) {
            self.shared.add_over(entity, &mut self.spare);
            return Ok(());
        }
        reserve_own(&mut self.row, tags, count, self.shared.places())?;
        let changes = agree(
            &mut self.row,
            self.shared.as_slice(),
            self.sharers,
            tags,
            true,
        );
        add_if(&mut self.shared, &mut self.spare, changes, entity);
        depend_own(&mut self.row, tags, entity);
        Ok(())
    }

    /// Takes an entity out of the lists of these guesses, or of all others.
    pub(crate) fn leave(&mut self, tags: &TagSet, within: bool, entity: &E)
        requires { IsStrictlySortedBy nat_cmp
            (numbers (opens_of (map (λ l. l.guess) self.old.items))) }
        ensures { map (λ l. l.guess) self.new.items
            ≡ map (changing (λ es. without_entity E.order es entity.now)
            (is_named within tags.now)) (map (λ l. l.guess) self.old.items) }
    {
        let changes = agree(
            &mut self.row,
            self.shared.as_slice(),
            self.sharers,
            tags,
            within,
        );
        remove_if(&mut self.shared, changes, entity);
        leave_own(&mut self.row, tags, within, entity);
    }

    /// Takes an entity out of the lists of the guesses of a set that are not in another, and visits those of the set alone.
    pub(crate) fn relieve_beyond(&mut self, tags: &TagSet, own: &TagSet, entity: &E)
        requires { IsStrictlySortedBy nat_cmp
            (numbers (opens_of (map (λ l. l.guess) self.old.items))) }
        ensures { map (λ l. l.guess) self.new.items
            ≡ map (relieved_beyond E.order tags.now own.now entity.now)
            (map (λ l. l.guess) self.old.items) }
    {
        relieve_seen(&mut self.row, self.shared.as_slice(), tags, own, entity);
    }
}
