//! The guesses of a kernel that keeps nothing of decided ones.
ghost use Rattle.std.specs.Prelude.{◌≡◌, ◌≢◌, ◌<◌, ◌≤◌, ◌+◌, ◌==◌, ◌&&◌, ◌∷◌, ◌++◌, ℕ, [], true, false, not, slice_get, slice_index_or, if◌then◌else◌, length, map, nat_le, get_or, Option, Some, OnOk, OnErr, MatchOption};
ghost use Rattle.sk_guesses.specs.Base.{IsStrictlySortedBy, option_copied, unwrap_or, vec_capacity, LAST_GUESS, with_drawn};
ghost use Rattle.sk_guesses.specs.Base.{with_failure, with_status, has, without, not_struck, numbers, still_open};
ghost use Rattle.sk_guesses.specs.Base.{Status, Committed, Undecided};
ghost use Rattle.sk_guesses.specs.EntitySet.{with_entities};
ghost use Rattle.sk_guesses.specs.Kept.{known, none_drawn, one_drawn, keys_of, forgotten, redeemed_kept, struck_with, with_struck, AreStatuses, HasKeptRoom};
ghost use Rattle.sk_guesses.specs.Room.{Listing};
ghost use Rattle.sk_guesses.specs.Opens.{after_commit, depending, dependents_of, left_to, not_resting, opens_of, relieved_beyond, guess_tags, without_list};

use crate::entity_set::FEW;
use crate::open_list::{
    are_earlier, close_committed, close_resting, first_resting, id_at, leave_to, oldest, place_of,
    relieve_beyond, take_list,
};
use crate::open_row::{Opens, Seen};
use crate::{EntitySet, Guess, Redeemed, Status};
use sk_ids::{GuessId, TagSet};
use sk_map::Key;
use std::alloc::{AllocError, Global};
use std::marker::Model;

/// The guesses of one kernel, numbered from 1 in the order in which they were drawn: what is known of each undecided one,
/// and the number of each struck one whose token has not come back. Of others nothing is kept. All calls but `reserve` and
/// `depend` take no memory.
#[derive(Drop)]
pub struct OpenGuesses<E: Key> {
    alloc: Global,
    kernel: u64,
    limit: u16,
    drawn: u64,
    /// The undecided guesses, by rising number.
    opens: Opens<E>,
    /// Whether no guess is among the tags of an earlier one, so that a decision begins at its own place.
    below: bool,
    /// The list with which the next guess begins: room, and no entity yet.
    next: EntitySet<E>,
    struck: Vec<GuessId>,
}

impl<E: Key> Model for OpenGuesses<E> {
    ghost use Rattle.std.specs.Prelude.{◌≡◌, true, map, vec_capacity};
    ghost use Rattle.sk_guesses.specs.Kept.{Kept, AreBelow, AreKept};
    ghost use Rattle.sk_guesses.specs.Opens.{opens_of};

    ghost Value = { Kept E };

    ghost view = { λ a. record {
      view = record {
        kernel = a.kernel;
        limit = a.limit;
        drawn = a.drawn;
        struck = a.struck.items;
      };
      opens = map (λ l. l.guess) a.opens.items;
      places = a.opens.places;
      strikes = vec_capacity a.struck;
      next = a.next.room;
    } };

    ghost invariant = { λ a. AreKept
        (record {
          kernel = a.kernel;
          limit = a.limit;
          drawn = a.drawn;
          struck = a.struck.items;
        }) a.opens.items a.next.entities (vec_capacity a.struck)
        × (a.below ≡ true → AreBelow (opens_of (map (λ l. l.guess) a.opens.items))) };
}

/// Whether the failure of a guess strikes another.
fn is_struck<E: Key>(open: &Seen<'_, E>, id: GuessId) -> bool
    ensures { result ≡ (has id open.now.guess.tags && not (open.now.guess.id == id)) }
{
    open.rests_on(id) && open.id() != id
}

/// Notes a guess, if the failure of another strikes it. There is room for it.
fn note_struck<E: Key>(struck: &mut Vec<GuessId>, open: &Seen<'_, E>, id: GuessId)
    requires { length struck.old.items < vec_capacity struck.old }
    ensures struck { struck.new.items
        ≡ (if has id open.now.guess.tags && not (open.now.guess.id == id) then struck.old.items
        ++ open.now.guess.id ∷ [] else struck.old.items) }
    ensures more { length struck.new.items ≤ length struck.old.items + 1 }
    ensures room { vec_capacity struck.new ≡ vec_capacity struck.old }
{
    if is_struck(open, id) {
        struck.push_reserved(open.id());
    }
}

/// Notes the guesses that the failure of one strikes, for which there is room. None of them stands before a place.
fn strike_all<E: Key>(struck: &mut Vec<GuessId>, opens: &Opens<E>, from: usize, id: GuessId)
    requires room { length struck.old.items + length opens.now.items ≤ vec_capacity struck.old }
    requires none_before { (k : ℕ) (d : Listing E) → k < from
        → has id (slice_index_or opens.now.items k d).guess.tags ≡ false }
    requires bound { from ≤ length opens.now.items }
    ensures struck { struck.new.items
        ≡ struck.old.items ++ struck_with id (opens_of (map (λ l. l.guess) opens.now.items)) }
    ensures room { vec_capacity struck.new ≡ vec_capacity struck.old }
{
    for place in from..opens.len() {
        note_struck(struck, &opens.at(place), id);
    }
}

/// Whether `below` still holds with one guess more: that the step of no guess depends on a later one.
pub(crate) fn stays_below(below: bool, tags: &TagSet, id: GuessId) -> bool
    ensures before { result ≡ true → below ≡ true }
    ensures drawn { result ≡ true → (g : ℕ) → has g tags.now ≡ true → g ≤ id }
{
    if !below {
        return false;
    }
    let ids = tags.ids();
    let [.., newest] = ids else {
        return true;
    };
    newest.number() <= id.number()
}

/// Takes a guess out of the struck ones.
fn forget(struck: &mut Vec<GuessId>, id: GuessId)
    ensures struck { struck.new.items ≡ without id struck.old.items }
    ensures fewer { length struck.new.items ≤ length struck.old.items }
    ensures room { vec_capacity struck.new ≡ vec_capacity struck.old }
{
    struck.retain(|other: &GuessId| *other != id);
}

/// Adds the entities of what was written to a list, for which there is room.
fn add_written<E: Key, V>(list: &mut EntitySet<E>, written: &[(E, V)])
    requires { length written.now ≤ list.old.room }
    ensures { list.new.entities ≡ with_entities E.order list.old.entities (keys_of written.now) }
{
    for write in written {
        list.add(&write.0);
    }
}

/// The entities of what was written, in its order, in a list with room for them.
fn written_in<E: Key, V>(list: Vec<E>, written: &[(E, V)]) -> Vec<E>
    requires empty { list.items ≡ [] }
    requires room { length written.now ≤ vec_capacity list }
    ensures { result.items ≡ keys_of written.now }
{
    let mut entities = list;
    for write in written {
        entities.push_reserved(write.0);
    }
    entities
}

/// The set of the entities of what was written, in the room of a list. Many are sorted where they stand.
fn set_of_written<E: Key, V>(list: EntitySet<E>, written: &[(E, V)]) -> EntitySet<E>
    requires empty { list.entities ≡ [] }
    requires room { length written.now ≤ list.room }
    ensures { result.entities ≡ with_entities E.order [] (keys_of written.now) }
{
    if written.len() <= FEW {
        let mut set = list;
        add_written(&mut set, written);
        return set;
    }
    EntitySet::of(written_in(list.into_vec(), written))
}

impl<E: Key> OpenGuesses<E> {
    /// No guess drawn yet, for the kernel of this number, of whose guesses so many may be undecided at once.
    pub fn new(alloc: Global, kernel: u64, limit: u16) -> OpenGuesses<E>
        ensures view { result.view ≡ none_drawn kernel limit }
        ensures opens { result.opens ≡ [] }
    {
        OpenGuesses {
            alloc,
            kernel,
            limit,
            drawn: 0,
            opens: Opens::new(alloc),
            below: true,
            next: EntitySet::new(alloc),
            struck: Vec::new(alloc),
        }
    }

    /// The number of the kernel.
    pub fn kernel(&self) -> u64
        ensures { result ≡ self.now.view.kernel }
    {
        self.kernel
    }

    /// How many guesses may be undecided at once.
    pub fn limit(&self) -> u16
        ensures { result ≡ self.now.view.limit }
    {
        self.limit
    }

    /// How many guesses were drawn: their numbers are 1, 2 and so on.
    pub fn drawn(&self) -> u64
        ensures value { result ≡ self.now.view.drawn }
        ensures limit { result ≤ LAST_GUESS }
    {
        self.drawn
    }

    /// How many guesses are undecided.
    pub fn undecided(&self) -> usize
        ensures opens { result ≡ length self.now.opens }
        ensures limit { result ≤ self.now.view.limit }
    {
        self.opens.len()
    }

    /// The oldest undecided guess.
    pub fn oldest(&self) -> Option<GuessId>
        ensures { (g : ℕ) → unwrap_or result g ≡ get_or (numbers (opens_of self.now.opens)) 0 g }
    {
        oldest(&self.opens)
    }

    /// The undecided guess at a place; they stand by rising number.
    pub fn open_at(&self, place: usize) -> Option<GuessId>
        ensures { result ≡ slice_get (numbers (opens_of self.now.opens)) place }
    {
        id_at(&self.opens, place)
    }

    /// The struck guesses whose tokens have not come back, in the order in which they were struck.
    pub fn struck(&self) -> &[GuessId]
        ensures { result.now ≡ self.now.view.struck }
    {
        self.struck.as_slice()
    }

    /// Whether as many guesses are undecided as may be.
    pub fn is_full(&self) -> bool
        ensures { result ≡ nat_le self.now.view.limit (length self.now.opens) }
    {
        self.opens.len() >= self.limit as usize
    }

    /// The number of the next guess; `None` where the last one is drawn.
    pub fn free(&self) -> Option<GuessId>
        ensures { MatchOption result (LAST_GUESS ≤ self.now.view.drawn)
            (λ id. (id ≡ self.now.view.drawn + 1) × (self.now.view.drawn < LAST_GUESS)) }
    {
        GuessId::new(self.drawn + 1)
    }

    /// Whether a guess is undecided.
    fn is_open(&self, id: GuessId) -> bool
        ensures { result ≡ has id (numbers (opens_of self.now.opens)) }
    {
        place_of(&self.opens, id) < self.opens.len()
    }

    /// What is known of a guess: that it is undecided, or that it is struck and its token is out.
    pub fn status(&self, id: GuessId) -> Option<Status>
        ensures { result ≡ known self.now.view (opens_of self.now.opens) id }
    {
        if self.is_open(id) {
            return Some(Status::Undecided);
        }
        if self.struck.contains(&id) {
            return Some(Status::Struck);
        }
        None
    }

    /// The entities that depend on a guess, by rising order; none where it is not undecided.
    pub fn dependents(&self, id: GuessId) -> &[E]
        ensures value { result.now ≡ dependents_of id self.now.opens }
        ensures rising { IsStrictlySortedBy E.order result.now }
        ensures none { known self.now.view (opens_of self.now.opens) id ≢ Some Undecided
            → result.now ≡ [] }
    {
        let place = place_of(&self.opens, id);
        if place >= self.opens.len() {
            return &[];
        }
        self.opens.at(place).dependents()
    }

    /// The guesses that an undecided guess's own step depends on, itself among them: where it is alone, its commit is firm.
    pub fn tags(&self, id: GuessId) -> Option<&TagSet>
        ensures { option_copied result ≡ guess_tags id (opens_of self.now.opens) }
    {
        let place = place_of(&self.opens, id);
        if place >= self.opens.len() {
            return None;
        }
        Some(self.opens.at(place).tags())
    }

    /// Moves out the list of the entities that depend on a guess, for its decision.
    pub fn take_dependents(&mut self, id: GuessId) -> EntitySet<E>
        ensures list { result.entities ≡ dependents_of id self.old.opens }
        ensures view { self.new.view ≡ self.old.view }
        ensures opens { self.new.opens ≡ without_list id self.old.opens }
        ensures resting { not_resting id self.new.opens ≡ not_resting id self.old.opens }
    {
        take_list(&mut self.opens, self.alloc, id)
    }

    /// Makes room for the next draw, with so many entities.
    pub fn reserve(&mut self, count: usize) -> Result<(), AllocError>
        ensures view { self.new.view ≡ self.old.view }
        ensures opens { self.new.opens ≡ self.old.opens }
        ensures ok { OnOk result (HasKeptRoom self.new count) }
    {
        self.opens.reserve(1)?;
        self.opens.reserve_shared(count);
        self.struck.reserve(self.opens.len() + 1)?;
        self.next.reserve(count)
    }

    /// Draws the next number, whose guess is undecided. Its own step depends on these guesses, itself among them, and what was
    /// written depends on it.
    pub fn draw<V>(&mut self, id: GuessId, tags: TagSet, written: &[(E, V)]) -> Guess
        requires number { id ≡ self.old.view.drawn + 1 }
        requires few { length self.old.opens < self.old.view.limit }
        requires own { has id tags ≡ true }
        requires room { HasKeptRoom self.old (length written.now) }
        ensures token { result ≡ record { kernel = self.old.view.kernel; id = id } }
        ensures view { self.new.view ≡ one_drawn self.old.view }
        ensures opens { self.new.opens
            ≡ self.old.opens
            ++ record {
              id = id;
              tags = tags;
              dependents = with_entities E.order [] (keys_of written.now);
            } ∷ [] }
        ensures statuses { (status : ℕ → Option Status)
            → AreStatuses self.old.view (opens_of self.old.opens) status
            → AreStatuses self.new.view (opens_of self.new.opens) (with_drawn (Some id) status) }
    {
        self.below = stays_below(self.below, &tags, id);
        let next = std::mem::replace(&mut self.next, EntitySet::new(self.alloc));
        let dependents = set_of_written(next, written);
        self.opens.push_reserved(id, tags, dependents);
        self.drawn = id.number();
        Guess::new(self.kernel, id)
    }

    /// Adds an entity to the lists of these guesses; those that are not undecided have none. Without memory everything is
    /// as it was.
    pub fn depend(&mut self, tags: &TagSet, entity: &E) -> Result<(), AllocError>
        ensures view { self.new.view ≡ self.old.view }
        ensures ok { OnOk result
            (self.new.opens ≡ map (depending E.order tags.now entity.now) self.old.opens) }
        ensures err { OnErr result (self.new.opens ≡ self.old.opens) }
    {
        if are_earlier(&self.opens, tags) {
            return Ok(());
        }
        self.opens.depend(tags, entity)?;
        Ok(())
    }

    /// Leaves an entity to the lists of these guesses alone.
    pub fn leave_to(&mut self, tags: &TagSet, entity: &E)
        ensures view { self.new.view ≡ self.old.view }
        ensures opens { self.new.opens ≡ map (left_to E.order tags.now entity.now) self.old.opens }
    {
        leave_to(&mut self.opens, tags, entity);
    }

    /// Takes an entity out of the lists of the guesses in a set that are not in another, and visits no others.
    pub fn relieve_beyond(&mut self, tags: &TagSet, own: &TagSet, entity: &E)
        ensures view { self.new.view ≡ self.old.view }
        ensures opens { self.new.opens
            ≡ map (relieved_beyond E.order tags.now own.now entity.now) self.old.opens }
    {
        relieve_beyond(&mut self.opens, tags, own, entity);
    }

    /// Takes a token in, or hands it back where it is another kernel's, or its guess is neither undecided nor struck. A
    /// struck guess is forgotten then.
    pub fn redeem(&mut self, guess: Guess) -> Result<Redeemed, Guess>
        ensures result { result
            ≡ redeemed_kept self.old.view (opens_of self.old.opens) guess }
        ensures view { self.new.view ≡ forgotten self.old.view result }
        ensures opens { self.new.opens ≡ self.old.opens }
        ensures statuses { (status : ℕ → Option Status)
            → AreStatuses self.old.view (opens_of self.old.opens) status
            → AreStatuses self.new.view (opens_of self.new.opens) status }
    {
        if guess.kernel() != self.kernel {
            return Err(guess);
        }
        match self.status(guess.id()) {
            Some(Status::Undecided) => Ok(Redeemed::Undecided(guess.spent())),
            Some(Status::Struck) => {
                let id = guess.spent();
                forget(&mut self.struck, id);
                Ok(Redeemed::Struck(id))
            }
            _ => Err(guess),
        }
    }

    /// Commits a guess: it is undecided no more, and no step of the others depends on it.
    pub fn commit(&mut self, id: GuessId)
        ensures view { self.new.view ≡ self.old.view }
        ensures opens { self.new.opens ≡ after_commit id self.old.opens }
        ensures machine { opens_of self.new.opens ≡ still_open id (opens_of self.old.opens) }
        ensures statuses { (status : ℕ → Option Status)
            → AreStatuses self.old.view (opens_of self.old.opens) status
            → has id (numbers (opens_of self.old.opens)) ≡ true
            → AreStatuses self.new.view (opens_of self.new.opens)
            (with_status id Committed status) }
    {
        let from = first_resting(&self.opens, self.below, id);
        close_committed(&mut self.opens, from, id);
    }

    /// Fails a guess: it is undecided no more, and those whose own steps depend on it are struck. Answers how many these are.
    pub fn fail(&mut self, id: GuessId) -> usize
        ensures count { result ≡ length (struck_with id (opens_of self.old.opens)) }
        ensures view { self.new.view ≡ with_struck id (opens_of self.old.opens) self.old.view }
        ensures opens { self.new.opens ≡ not_resting id self.old.opens }
        ensures machine { opens_of self.new.opens ≡ not_struck id (opens_of self.old.opens) }
        ensures statuses { (status : ℕ → Option Status)
            → AreStatuses self.old.view (opens_of self.old.opens) status
            → has id (numbers (opens_of self.old.opens)) ≡ true
            → AreStatuses self.new.view (opens_of self.new.opens)
            (with_failure id (opens_of self.old.opens) status) }
    {
        let before = self.struck.len();
        let from = first_resting(&self.opens, self.below, id);
        strike_all(&mut self.struck, &self.opens, from, id);
        close_resting(&mut self.opens, from, id);
        self.struck.len() - before
    }
}
