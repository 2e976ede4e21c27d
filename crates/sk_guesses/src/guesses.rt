//! The guesses that a kernel drew.
ghost use Rattle.std.specs.Prelude.{◌≡◌, ◌≢◌, ◌<◌, ◌≤◌, ◌+◌, ◌-◌, ◌==◌, ◌∷◌, ◌++◌, ℕ, [], true, length, map, get_or, slice_index_or, slice_set, if◌then◌else◌, Some, IfSome, IfOk, IsOk, OnOk, OnErr, false, not, is_some};
ghost use Rattle.sk_guesses.specs.Base.{list_any, prefix_len, IsStrictlySortedBy, unwrap_or, nat_cmp, has, rests_on};
ghost use Rattle.sk_guesses.specs.Base.{numbers, not_struck, Status, Undecided, Committed, Failed, Struck, LAST_GUESS};
ghost use Rattle.sk_guesses.specs.Base.{GUESS_LIMIT};
ghost use Rattle.sk_guesses.specs.Guesses.{opened, next_of, undecided_of, is_full, is_undecided, status_of, status_since, decided, drawn, settled};
ghost use Rattle.sk_guesses.specs.EntitySet.{with_entities};
ghost use Rattle.sk_guesses.specs.Opens.{opens_of, dependents_of, depending, relieved, left_to, but, not_resting, after_commit, open_in, struck_by, without_list};
ghost use Rattle.sk_guesses.specs.Room.{HasRoom, Listing, DecidedSo};
ghost use Rattle.sk_guesses.specs.Calls.{Draws, redeemed};

use crate::open_guesses::stays_below;
use crate::open_list::{
    are_earlier, close, close_committed, close_resting, first_resting, is_rested_on, leave_to,
    oldest, place_of, relieve, take_list,
};
use crate::open_row::{FEW_PLACES, Opens, Seen};
use crate::settled::{Settled, status_at};
use crate::{EntitySet, Guess, Redeemed, Status};
use sk_ids::{GuessId, TagSet};
use sk_map::Key;
use std::alloc::{AllocError, Global};
use std::marker::Model;
use thiserror::Error;

/// The greatest number of undecided guesses.
pub const GUESS_LIMIT: usize = 64;

/// Why no guess was drawn.
#[derive(Debug, Drop, PartialEq, Eq, Error)]
pub enum DrawRefusal {
    #[error("too many guesses are undecided, or no number is left")]
    TooMany,
    #[error("out of memory")]
    Memory,
}

/// The guesses of one kernel, numbered from 1 in the order in which they were drawn: what became of those of
/// earlier epochs, and of the others, and what is known of each undecided one. All calls but `reserve`, `draw`,
/// `depend` and `settle` take no memory.
#[derive(Drop)]
pub struct Guesses<E: Key> {
    alloc: Global,
    kernel: u64,
    earlier: Settled,
    statuses: Vec<Status>,
    /// The undecided guesses, by rising number.
    opens: Opens<E>,
    /// Whether no guess is among the tags of an earlier one, so that a decision begins at its own place.
    below: bool,
    /// The list with which the next guess begins: room, and no entity yet.
    next: EntitySet<E>,
}

impl<E: Key> Model for Guesses<E> {
    ghost use Rattle.std.specs.Prelude.{◌≡◌, true, map, vec_capacity};
    ghost use Rattle.sk_guesses.specs.GuessesInvariant.{AreTidy};
    ghost use Rattle.sk_guesses.specs.Kept.{AreBelow};
    ghost use Rattle.sk_guesses.specs.Opens.{opens_of};
    ghost use Rattle.sk_guesses.specs.Room.{Roomy};

    ghost Value = { Roomy E };

    ghost view = { λ a. record {
      view = record {
        kernel = a.kernel;
        earlier = a.earlier.statuses;
        statuses = a.statuses.items;
      };
      opens = map (λ l. l.guess) a.opens.items;
      places = vec_capacity a.statuses;
      keys = a.opens.places;
      next = a.next.room;
    } };

    ghost invariant = { λ a. AreTidy
        (record { kernel = a.kernel; earlier = a.earlier.statuses; statuses = a.statuses.items })
        a.opens.items a.next.entities
        × (a.below ≡ true → AreBelow (opens_of (map (λ l. l.guess) a.opens.items))) };
}

/// Where a guess stands among those that were drawn after so many.
fn place_after(before: usize, id: GuessId) -> usize
    ensures { result ≡ id - before - 1 }
{
    let number = id.number().saturating_sub(before as u64);
    number.saturating_sub(1) as usize
}

/// Strikes an undecided guess, if its own step depends on a guess. So many were drawn before these.
fn strike_one<E: Key>(statuses: &mut Vec<Status>, before: usize, open: &Seen<'_, E>, id: GuessId)
    requires { open.now.guess.id - before - 1 < length statuses.old.items }
    ensures statuses { statuses.new.items
        ≡ (if has id open.now.guess.tags then slice_set statuses.old.items
        (open.now.guess.id - before - 1) Struck else statuses.old.items) }
    ensures drawn { length statuses.new.items ≡ length statuses.old.items }
{
    if open.rests_on(id) {
        statuses[place_after(before, open.id())] = Status::Struck;
    }
}

/// The undecided guesses whose own steps depend on a guess are struck.
fn strike_all<E: Key>(statuses: &mut Vec<Status>, before: usize, opens: &Opens<E>, id: GuessId)
    requires { (k : ℕ) (d : Listing E) → k < length opens.now.items
        → (slice_index_or opens.now.items k d).guess.id - before - 1 < length statuses.old.items }
    ensures { statuses.new.items
        ≡ struck_by before id (map (λ l. l.guess) opens.now.items) statuses.old.items }
{
    for place in 0..opens.len() {
        strike_one(statuses, before, &opens.at(place), id);
    }
}

impl<E: Key> Guesses<E> {
    /// No guess drawn yet, for the kernel of this number.
    pub fn new(alloc: Global, kernel: u64) -> Guesses<E>
        ensures view { result.view ≡ opened kernel }
        ensures opens { result.opens ≡ [] }
    {
        Guesses {
            alloc,
            kernel,
            earlier: Settled::new(alloc),
            statuses: Vec::new(alloc),
            opens: Opens::new(alloc),
            below: true,
            next: EntitySet::new(alloc),
        }
    }

    /// The number of the kernel.
    pub fn kernel(&self) -> u64
        ensures { result ≡ self.now.view.kernel }
    {
        self.kernel
    }

    /// The number of the guess that is drawn next; one above the last where all are drawn.
    pub fn next(&self) -> u64
        ensures value { result ≡ next_of self.now.view }
        ensures limit { result ≤ LAST_GUESS + 1 }
    {
        self.earlier.len() as u64 + self.statuses.len() as u64 + 1
    }

    /// How many guesses are undecided.
    pub fn undecided(&self) -> usize
        ensures value { result ≡ undecided_of self.now.view.statuses }
        ensures opens { result ≡ length self.now.opens }
        ensures limit { result ≤ GUESS_LIMIT }
    {
        self.opens.len()
    }

    /// The oldest undecided guess.
    pub fn oldest(&self) -> Option<GuessId>
        ensures { (g : ℕ) → unwrap_or result g ≡ get_or (numbers (opens_of self.now.opens)) 0 g }
    {
        oldest(&self.opens)
    }

    /// The entities that depend on a guess, by rising order; none where it is not undecided.
    #[inline(always)]
    pub fn dependents(&self, id: GuessId) -> &[E]
        ensures value { result.now ≡ dependents_of id self.now.opens }
        ensures rising { IsStrictlySortedBy E.order result.now }
        ensures known { status_since self.now.view id ≡ Some Undecided
            → has id (numbers (opens_of self.now.opens)) ≡ true }
        ensures none { status_since self.now.view id ≢ Some Undecided → result.now ≡ [] }
    {
        let place = place_of(&self.opens, id);
        if place >= self.opens.len() {
            return &[];
        }
        self.opens.at(place).dependents()
    }

    /// Moves out the list of the entities that depend on a guess, for its decision.
    #[inline(always)]
    pub fn take_dependents(&mut self, id: GuessId) -> EntitySet<E>
        ensures list { result.entities ≡ dependents_of id self.old.opens }
        ensures view { self.new.view ≡ self.old.view }
        ensures opens { self.new.opens ≡ without_list id self.old.opens }
    {
        take_list(&mut self.opens, self.alloc, id)
    }

    /// Whether `draw` would answer `TooMany`.
    pub fn is_full(&self) -> bool
        ensures { result ≡ is_full self.now.view }
    {
        self.free().is_none()
    }

    /// The guess that `draw` would draw; `None` where it would answer `TooMany`.
    pub fn free(&self) -> Option<GuessId>
        ensures some { is_some result ≡ not (is_full self.now.view) }
        ensures value { IfSome result (λ id. id ≡ next_of self.now.view) }
    {
        if self.undecided() >= GUESS_LIMIT {
            return None;
        }
        GuessId::new(self.next())
    }

    /// What became of a guess; `None` where it was never drawn.
    #[inline(always)]
    pub fn status(&self, id: GuessId) -> Option<Status>
        ensures { result ≡ status_of self.now.view id }
    {
        match self.earlier.status(id.number()) {
            Some(status) => Some(status),
            None => self.status_since(id),
        }
    }

    /// What became of a guess that was drawn since the last epoch ended.
    fn status_since(&self, id: GuessId) -> Option<Status>
        ensures { result ≡ status_since self.now.view id }
    {
        let number = id.number().saturating_sub(self.earlier.len() as u64);
        status_at(&self.statuses, number)
    }

    /// Ends an epoch, in which no guess is undecided: each keeps its status. Without memory everything is as
    /// it was.
    pub fn settle(&mut self) -> Result<(), AllocError>
        requires { undecided_of self.old.view.statuses ≡ 0 }
        ensures ok { OnOk result (self.new.view ≡ settled self.old.view) }
        ensures err { OnErr result (self.new.view ≡ self.old.view) }
        ensures opens { self.new.opens ≡ self.old.opens }
    {
        self.earlier.reserve(self.statuses.len())?;
        self.earlier.push_all(&self.statuses);
        self.statuses.clear();
        Ok(())
    }

    /// Makes room for the next draw, with so many entities.
    pub fn reserve(&mut self, count: usize) -> Result<(), AllocError>
        ensures view { self.new.view ≡ self.old.view }
        ensures opens { self.new.opens ≡ self.old.opens }
        ensures ok { OnOk result (HasRoom self.new count) }
        ensures room { HasRoom self.old count → IsOk result }
    {
        self.statuses.reserve(1)?;
        self.opens.reserve(1)?;
        self.opens.reserve_shared(count);
        self.next.reserve(count)
    }

    /// Draws the next number, whose guess is undecided. Its own step depends on these guesses, itself among
    /// them, and the entities depend on it. After a refusal everything is as it was.
    pub fn draw(&mut self, tags: TagSet, entities: &[E]) -> Result<Guess, DrawRefusal>
        requires { is_full self.old.view ≡ false → has (next_of self.old.view) tags ≡ true }
        ensures draws { Draws self.old.view self.new.view result }
        ensures opens { OnOk result
            (self.new.opens
            ≡ self.old.opens
            ++ record {
              id = next_of self.old.view;
              tags = tags;
              dependents = with_entities E.order [] entities.now;
            } ∷ []) }
        ensures same { OnErr result (self.new.opens ≡ self.old.opens) }
        ensures room { is_full self.old.view ≡ false → HasRoom self.old (length entities.now)
            → IsOk result }
    {
        if self.is_full() {
            return Err(DrawRefusal::TooMany);
        }
        if self.reserve(entities.len()).is_err() {
            return Err(DrawRefusal::Memory);
        }
        Ok(self.draw_reserved(tags, entities))
    }

    /// As `draw`, where there is room for the guess, so that nothing is refused.
    pub fn draw_reserved(&mut self, tags: TagSet, entities: &[E]) -> Guess
        requires free { is_full self.old.view ≡ false }
        requires room { HasRoom self.old (length entities.now) }
        requires own { has (next_of self.old.view) tags ≡ true }
        ensures token { result
            ≡ record { kernel = self.old.view.kernel; id = next_of self.old.view } }
        ensures view { self.new.view ≡ drawn self.old.view }
        ensures opens { self.new.opens
            ≡ self.old.opens
            ++ record {
              id = next_of self.old.view;
              tags = tags;
              dependents = with_entities E.order [] entities.now;
            } ∷ [] }
    {
        let Some(id) = self.free() else {
            unreachable!();
        };
        self.below = stays_below(self.below, &tags, id);
        let next = std::mem::replace(&mut self.next, EntitySet::new(self.alloc));
        let dependents = next.set_of(entities);
        self.opens.push_reserved(id, tags, dependents);
        self.statuses.push_reserved(Status::Undecided);
        Guess::new(self.kernel, id)
    }

    /// Keeps the room of a short list for the next guess, where that has less.
    pub fn reuse(&mut self, list: EntitySet<E>)
        ensures view { self.new.view ≡ self.old.view }
        ensures opens { self.new.opens ≡ self.old.opens }
    {
        let places = list.places();
        if places <= FEW_PLACES && self.next.places() < places {
            self.next = list;
            self.next.clear();
        }
    }

    /// Whether each of these guesses was drawn after all undecided ones.
    pub fn are_later(&self, tags: &TagSet) -> bool
        ensures { result ≡ true → (g : ℕ) → has g tags.now ≡ true
            → has g (numbers (opens_of self.now.opens)) ≡ false }
    {
        are_earlier(&self.opens, tags)
    }

    /// Adds an entity to the lists of these guesses; those that are not undecided have none. Without
    /// memory everything is as it was.
    pub fn depend(&mut self, tags: &TagSet, entity: &E) -> Result<(), AllocError>
        ensures view { self.new.view ≡ self.old.view }
        ensures ok { OnOk result
            (self.new.opens ≡ map (depending E.order tags.now entity.now) self.old.opens) }
        ensures err { OnErr result (self.new.opens ≡ self.old.opens) }
    {
        if are_earlier(&self.opens, tags) {
            return Ok(());
        }
        self.opens.depend(tags, entity)?;
        Ok(())
    }

    /// Takes an entity out of the lists of these guesses.
    pub fn relieve(&mut self, tags: &TagSet, entity: &E)
        ensures view { self.new.view ≡ self.old.view }
        ensures opens { self.new.opens ≡ map (relieved E.order tags.now entity.now) self.old.opens }
    {
        relieve(&mut self.opens, tags, entity);
    }

    /// Leaves an entity to the lists of these guesses alone.
    pub fn leave_to(&mut self, tags: &TagSet, entity: &E)
        ensures view { self.new.view ≡ self.old.view }
        ensures opens { self.new.opens ≡ map (left_to E.order tags.now entity.now) self.old.opens }
    {
        leave_to(&mut self.opens, tags, entity);
    }

    /// Takes a token in, or hands it back where it is another kernel's, or its guess is neither
    /// undecided nor struck. The status stays.
    pub fn redeem(&self, guess: Guess) -> Result<Redeemed, Guess>
        ensures { result ≡ redeemed self.now.view guess }
    {
        if guess.kernel() != self.kernel {
            return Err(guess);
        }
        match self.status(guess.id()) {
            Some(Status::Undecided) => Ok(Redeemed::Undecided(guess.spent())),
            Some(Status::Struck) => Ok(Redeemed::Struck(guess.spent())),
            _ => Err(guess),
        }
    }

    /// Whether a guess is undecided.
    fn is_open(&self, id: GuessId) -> bool
        ensures { result ≡ open_in (status_since self.now.view id) }
    {
        self.status_since(id) == Some(Status::Undecided)
    }

    /// Commits a guess, and takes it out of what the steps of undecided ones depend on; one that is not
    /// undecided stays as it is.
    pub fn commit(&mut self, id: GuessId)
        ensures undecided { status_since self.old.view id ≡ Some Undecided
            → DecidedSo self.old self.new id Committed (after_commit id self.old.opens) }
        ensures other { status_since self.old.view id ≢ Some Undecided → self.new ≡ self.old }
        ensures emptied { dependents_of id self.new.opens ≡ [] }
    {
        if !self.is_open(id) {
            return;
        }
        let from = first_resting(&self.opens, self.below, id);
        close_committed(&mut self.opens, from, id);
        self.statuses[place_after(self.earlier.len(), id)] = Status::Committed;
    }

    /// Fails a guess; one that is not undecided stays as it is.
    pub fn fail(&mut self, id: GuessId)
        ensures undecided { status_since self.old.view id ≡ Some Undecided
            → DecidedSo self.old self.new id Failed (but id self.old.opens) }
        ensures other { status_since self.old.view id ≢ Some Undecided → self.new ≡ self.old }
        ensures emptied { dependents_of id self.new.opens ≡ [] }
        ensures resting { opens_of (not_resting id self.new.opens)
            ≡ not_struck id (opens_of self.old.opens) }
    {
        self.decide(id, Status::Failed);
    }

    /// Strikes a guess, whose step another's failure took away; one that is not undecided stays as it
    /// is.
    pub fn strike(&mut self, id: GuessId)
        ensures undecided { status_since self.old.view id ≡ Some Undecided
            → DecidedSo self.old self.new id Struck (but id self.old.opens) }
        ensures other { status_since self.old.view id ≢ Some Undecided → self.new ≡ self.old }
        ensures emptied { dependents_of id self.new.opens ≡ [] }
    {
        self.decide(id, Status::Struck);
    }

    fn decide(&mut self, id: GuessId, to: Status)
        requires { is_undecided to ≡ false }
        ensures undecided { status_since self.old.view id ≡ Some Undecided
            → DecidedSo self.old self.new id to (but id self.old.opens) }
        ensures other { status_since self.old.view id ≢ Some Undecided → self.new ≡ self.old }
        ensures emptied { dependents_of id self.new.opens ≡ [] }
        ensures resting { opens_of (not_resting id self.new.opens)
            ≡ not_struck id (opens_of self.old.opens) }
    {
        if !self.is_open(id) {
            return;
        }
        close(&mut self.opens, id);
        self.statuses[place_after(self.earlier.len(), id)] = to;
    }

    /// Strikes the undecided guesses whose own steps depend on a guess.
    pub fn strike_resting(&mut self, id: GuessId)
        ensures statuses { (g : ℕ) → status_since self.new.view g
            ≡ (if rests_on id (opens_of self.old.opens) g then Some Struck else status_since
            self.old.view g) }
        ensures kernel { self.new.view.kernel ≡ self.old.view.kernel }
        ensures earlier { self.new.view.earlier ≡ self.old.view.earlier }
        ensures drawn { length self.new.view.statuses ≡ length self.old.view.statuses }
        ensures opens { self.new.opens ≡ not_resting id self.old.opens }
    {
        if !is_rested_on(&self.opens, self.below, id) {
            return;
        }
        strike_all(&mut self.statuses, self.earlier.len(), &self.opens, id);
        close_resting(&mut self.opens, 0, id);
    }
}
