//! The writes of one value, each with the guesses that it depends on and with what puts it back.
ghost use Rattle.std.specs.Prelude.{◌≡◌, ◌≤◌, ◌<◌, ◌+◌, ◌++◌, ◌∷◌, [], Bool, true, false, not, length, take, drop, None, OnOk, Option, IsOk, reverse};
ghost use Rattle.sk_undo.specs.Base.{option_copied, unwrap_or, vec_len, vec_capacity, prefix_len, list_all};
ghost use Rattle.sk_undo.specs.Base.{IsStrictlySortedBy, nat_cmp, has, unwound, cut, IsGrowing, PutBack};
ghost use Rattle.std.specs.List.{remove};
ghost use Rattle.sk_undo.specs.declared.log.Note.{Note};
ghost use Rattle.sk_undo.specs.Log.{is_empty, seen, log_of, CanGoBack, HasNote, HasRoom, before_last, newest_tags, lightened, dropped, Grows, undone_by, FitsBy, restores, stands_for, goes_on_raw, goes_unnoted_raw, joined_from, repeats};

use sk_changes::Undo;
use sk_ids::{GuessId, TagSet};
use sk_objects::Value;
use sk_store::{EntityState, PutBack};
use std::alloc::{AllocError, Global};

/// What is kept with a log of its writes. A note holds some of it whole, and of the rest what takes a change back.
pub trait Logged: Drop {
    ghost use Rattle.std.specs.Prelude.{◌≡◌, Bool};
    ghost use Rattle.sk_changes.specs.declared.change.Undo.{Undo};

    /// Whether a change of it can be undone so.
    ghost fits: { Self → Undo → Type 0 };

    /// What was there before the change.
    ghost undone: { Self → Undo → Self };

    /// Whether a note holds it whole.
    ghost is_whole: { Self → Bool };

    /// What was there before a change stands again, which takes no memory.
    fn change_back(&mut self, undo: Undo)
        requires { fits self.old undo }
        ensures { self.new ≡ undone self.old undo };

    /// Whether a note holds it whole.
    fn is_whole(&self) -> bool
        ensures { result ≡ is_whole self.now };
}

/// Puts back what was there before a write, which takes no memory.
#[inline(always)]
fn put_back<V: Logged>(undo: PutBack<V>, value: &mut Option<V>)
    requires { FitsBy V.fits undo value.old }
    ensures { value.new ≡ undone_by V.undone undo value.old }
{
    match undo {
        PutBack::Was(before) => *value = before,
        PutBack::Changed(undo) => {
            if let Some(inner) = value {
                inner.change_back(undo);
            }
        }
    }
}

/// Whether what was there is put back whatever stands there now: nothing was, or what a note holds whole.
fn restores<V: Logged>(undo: &PutBack<V>) -> bool
    ensures { result ≡ restores V.is_whole undo.now }
{
    match undo {
        PutBack::Was(Some(before)) => before.is_whole(),
        PutBack::Was(None) => true,
        PutBack::Changed(_) => false,
    }
}

impl Logged for EntityState {
    ghost use Rattle.sk_store.specs.Changed.{state_undone};
    ghost use Rattle.sk_undo.specs.Slot.{NoteFits, is_held_whole};

    ghost fits = { NoteFits };

    ghost undone = { state_undone };

    ghost is_whole = { is_held_whole };

    fn change_back(&mut self, undo: Undo) {
        self.undo(undo);
    }

    fn is_whole(&self) -> bool {
        match self {
            EntityState::Process(_) | EntityState::Value(Value::File(_)) => true,
            EntityState::Value(_) => false,
        }
    }
}

/// A write, the guesses that it depends on, and what puts it back.
#[derive(Drop)]
pub struct Note<U> {
    pub tags: TagSet,
    pub undo: U,
}

/// The notes of the writes that can be undone, the newest last.
#[derive(Drop)]
pub struct Log<V> {
    notes: Vec<Note<PutBack<V>>>,
}

/// Takes a guess out of the tags of the newest notes, back to the first that does not depend on it, and
/// answers how many notes stand up to that one.
fn lighten<V: Logged>(notes: &mut Vec<Note<PutBack<V>>>, guess: GuessId) -> usize
    ensures notes { notes.new.items
        ≡ take result notes.old.items ++ lightened guess (drop result notes.old.items) }
    ensures before { has guess (newest_tags (reverse (take result notes.old.items))) ≡ false }
    ensures within { result ≤ length notes.old.items }
    ensures resting { list_all (λ n. has guess n.tags) (drop result notes.old.items) ≡ true }
    ensures len { vec_len notes.new ≡ vec_len notes.old }
    ensures capacity { vec_capacity notes.new ≡ vec_capacity notes.old }
{
    let mut before = notes.as_slice().len();
    while before > 0 && notes[before - 1].tags.contains(guess) {
        before -= 1;
        notes[before].tags.without(guess);
    }
    before
}

/// How many of the oldest notes stand before the first that has tags.
fn bare_count<V: Logged>(notes: &[Note<PutBack<V>>]) -> usize
    ensures { result ≡ prefix_len (λ n. is_empty n.tags) notes.now }
{
    notes.iter().take_while(|note| is_bare(*note)).count()
}

fn is_bare<V: Logged>(note: &Note<PutBack<V>>) -> bool
    ensures { result ≡ is_empty note.now.tags }
{
    note.tags.ids().is_empty()
}

/// Drops the oldest notes, up to the first that has tags.
fn drop_bare<V: Logged>(notes: &mut Vec<Note<PutBack<V>>>)
    ensures notes { notes.new.items ≡ dropped notes.old.items }
    ensures len { vec_len notes.new ≤ vec_len notes.old }
    ensures capacity { vec_capacity notes.new ≡ vec_capacity notes.old }
{
    let bare = bare_count(notes.as_slice());
    if bare > 0 {
        drop_front(notes, bare);
    }
}

/// Drops the oldest notes.
fn drop_front<V: Logged>(notes: &mut Vec<Note<PutBack<V>>>, count: usize)
    requires { count ≤ length notes.old.items }
    ensures notes { notes.new.items ≡ drop count notes.old.items }
    ensures len { vec_len notes.new ≤ vec_len notes.old }
    ensures capacity { vec_capacity notes.new ≡ vec_capacity notes.old }
{
    notes.drain(..count);
}

/// Whether a note puts back what was there before a later write with these tags, too.
fn stands_for<V: Logged>(note: &Note<PutBack<V>>, tags: &TagSet) -> bool
    ensures { result ≡ stands_for V.is_whole note.now tags.now }
{
    restores(&note.undo) && tags.is_same(&note.tags)
}

/// Whether the note at a place is needless, since the one before it stands for it.
fn is_needless<V: Logged>(notes: &[Note<PutBack<V>>], place: usize) -> bool
    requires { place < length notes.now }
    ensures { result ≡ repeats V.is_whole None place notes.now }
{
    if place == 0 {
        return false;
    }
    stands_for(&notes[place - 1], &notes[place].tags)
}

/// Drops the note at a place.
fn drop_at<V: Logged>(notes: &mut Vec<Note<PutBack<V>>>, place: usize)
    requires { place < length notes.old.items }
    ensures items { notes.new.items ≡ remove notes.old.items place }
    ensures len { vec_len notes.new + 1 ≡ vec_len notes.old }
    ensures capacity { vec_capacity notes.new ≡ vec_capacity notes.old }
{
    notes.remove(place);
}

/// Leaves out each note from a place on for which the note before it stands.
fn join_from<V: Logged>(notes: &mut Vec<Note<PutBack<V>>>, first: usize)
    ensures notes { notes.new.items ≡ joined_from V.is_whole None first notes.old.items }
    ensures len { vec_len notes.new ≤ vec_len notes.old }
    ensures capacity { vec_capacity notes.new ≡ vec_capacity notes.old }
{
    let mut place = first;
    while place < notes.len() {
        if is_needless(notes.as_slice(), place) {
            drop_at(notes, place);
        } else {
            place += 1;
        }
    }
}

impl<V: Logged> Log<V> {
    /// Nothing is noted.
    pub fn new(alloc: Global) -> Log<V>
        ensures { result.notes.items ≡ [] }
    {
        Log {
            notes: Vec::new(alloc),
        }
    }

    pub fn alloc(&self) -> Global {
        *self.notes.allocator()
    }

    pub fn is_empty(&self) -> bool
        ensures { result ≡ is_empty self.now.notes.items }
    {
        self.notes.is_empty()
    }

    /// How many notes there are.
    pub fn len(&self) -> usize
        ensures { result ≡ length self.now.notes.items }
    {
        self.notes.len()
    }

    /// Whether a write with these tags is not noted: it has none, and there are no notes; or the newest note
    /// stands for it.
    #[inline(always)]
    pub fn goes_unnoted(&self, tags: &TagSet) -> bool
        ensures { result ≡ goes_unnoted_raw V.is_whole tags.now (reverse self.now.notes.items) }
    {
        match self.notes.last() {
            Some(newest) => stands_for(newest, tags),
            None => tags.ids().is_empty(),
        }
    }

    /// Whether a write with the tags of the newest note is not noted, which are at least so many: that note stands for it, or
    /// there are no notes and no tags.
    pub fn goes_on(&self, least: usize) -> bool
        ensures exact { result
            ≡ goes_on_raw V.is_whole least (reverse self.now.notes.items) }
        ensures rising { IsStrictlySortedBy nat_cmp
            (newest_tags (reverse self.now.notes.items)) }
    {
        let ids = self.ids();
        match self.notes.last() {
            Some(newest) => ids.len() >= least && restores(&newest.undo),
            None => least == 0,
        }
    }

    /// The tags of the newest note; `None` is as none.
    pub fn tags(&self) -> Option<&TagSet>
        ensures { unwrap_or (option_copied result) []
            ≡ newest_tags (reverse self.now.notes.items) }
    {
        match self.notes.last() {
            Some(note) => Some(&note.tags),
            None => None,
        }
    }

    /// The tags of the newest note as a list, which is empty where there is no note.
    #[tactic(auto, using(crate::proofs::SeenNotes::none_rises))]
    fn ids(&self) -> &[GuessId]
        ensures value { result.now ≡ newest_tags (reverse self.now.notes.items) }
        ensures rising { IsStrictlySortedBy nat_cmp result.now }
    {
        match self.tags() {
            Some(tags) => tags.ids(),
            None => &[],
        }
    }

    /// Makes room for the next note.
    pub fn reserve(&mut self) -> Result<(), AllocError>
        ensures notes { self.new.notes.items ≡ self.old.notes.items }
        ensures ok { OnOk result (HasRoom self.new.notes) }
        ensures room { HasRoom self.old.notes → IsOk result }
    {
        self.notes.reserve(1)
    }

    /// Notes a write, for which there is room.
    pub fn note_reserved(&mut self, tags: TagSet, undo: PutBack<V>)
        requires { HasRoom self.old.notes }
        ensures { self.new.notes.items
            ≡ self.old.notes.items ++ record { tags = tags; undo = undo } ∷ [] }
    {
        self.notes.push_reserved(Note { tags, undo });
    }

    /// Undoes the newest write.
    pub fn undo_last(&mut self, value: &mut Option<V>)
        requires can { CanGoBack (FitsBy V.fits) (undone_by V.undone) value.old
            (reverse self.old.notes.items) }
        requires some { HasNote (reverse self.old.notes.items) }
        ensures value { value.new ≡ before_last value.old
            (seen (undone_by V.undone) value.old (reverse self.old.notes.items)) }
        ensures notes { reverse self.new.notes.items ≡ drop 1 (reverse self.old.notes.items) }
        ensures fewer { vec_len self.new.notes + 1 ≡ vec_len self.old.notes }
        ensures capacity { vec_capacity self.new.notes ≡ vec_capacity self.old.notes }
        ensures can { CanGoBack (FitsBy V.fits) (undone_by V.undone) value.new
            (reverse self.new.notes.items) }
    {
        match self.notes.pop() {
            Some(note) => put_back(note.undo, value),
            None => unreachable!(),
        }
    }

    /// Whether the newest write depends on the guess.
    fn rests_last(&self, guess: GuessId) -> bool
        ensures { result ≡ has guess (newest_tags (reverse self.now.notes.items)) }
    {
        match self.notes.last() {
            Some(note) => note.tags.contains(guess),
            None => false,
        }
    }

    /// Undoes the writes that depend on the guess, which are the newest where each note depends on
    /// what those before it depend on. It takes no memory, and leaves the room that was made.
    pub fn unwind(&mut self, value: &mut Option<V>, guess: GuessId)
        requires can { CanGoBack (FitsBy V.fits) (undone_by V.undone) value.old
            (reverse self.old.notes.items) }
        ensures value { IsGrowing (log_of (undone_by V.undone) value.old self.old.notes.items)
            → value.new
            ≡ unwound guess (log_of (undone_by V.undone) value.old self.old.notes.items) value.old }
        ensures log { IsGrowing (log_of (undone_by V.undone) value.old self.old.notes.items)
            → log_of (undone_by V.undone) value.new self.new.notes.items
            ≡ cut guess (log_of (undone_by V.undone) value.old self.old.notes.items) }
        ensures can { CanGoBack (FitsBy V.fits) (undone_by V.undone) value.new
            (reverse self.new.notes.items) }
        ensures left { (p : Note (PutBack V) → Bool) → list_all p self.old.notes.items ≡ true
            → list_all p self.new.notes.items ≡ true }
        ensures room { HasRoom self.old.notes → HasRoom self.new.notes }
    {
        while self.rests_last(guess) {
            self.undo_last(value);
        }
    }

    /// Takes a guess out of all notes, and drops those that then depend on nothing. The first are the
    /// newest, and the others the oldest, where each note depends on what those before it depend on. It takes
    /// no memory, leaves the room that was made, and looks at the notes alone that depend on the guess. Answers
    /// the place of the first of these.
    pub fn commit(&mut self, guess: GuessId) -> usize
        ensures notes { Grows self.old.notes.items
            → self.new.notes.items ≡ dropped (lightened guess self.old.notes.items) }
        ensures first { Grows self.old.notes.items
            → result ≡ prefix_len (λ n. not (has guess n.tags)) self.old.notes.items }
        ensures can { (now : Option V)
            → CanGoBack (FitsBy V.fits) (undone_by V.undone) now (reverse self.old.notes.items)
            → CanGoBack (FitsBy V.fits) (undone_by V.undone) now (reverse self.new.notes.items) }
        ensures room { HasRoom self.old.notes → HasRoom self.new.notes }
    {
        let first = lighten(&mut self.notes, guess);
        drop_bare(&mut self.notes);
        first
    }

    /// Leaves out each note from a place on for which the note before it stands, without memory; the room
    /// that was made stays.
    pub fn join(&mut self, first: usize)
        ensures notes { self.new.notes.items
            ≡ joined_from V.is_whole None first self.old.notes.items }
        ensures room { HasRoom self.old.notes → HasRoom self.new.notes }
    {
        join_from(&mut self.notes, first);
    }
}
