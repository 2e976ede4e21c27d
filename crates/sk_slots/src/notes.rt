//! The notes of what a key has, the newest last.
ghost use Rattle.std.specs.Prelude.{◌≡◌, false, ◌<◌, ◌≤◌, ◌+◌, [], Option, not, length, take, drop, vec_len, vec_capacity};
ghost use Rattle.std.specs.List.{list_all, prefix_len, remove};
ghost use Rattle.std.specs.Option.{option_copied, unwrap_or};
ghost use Rattle.sk_record.specs.Notes.{has, without, committed};
ghost use Rattle.sk_record.specs.Merged.{merged, same_tags};
ghost use Rattle.sk_inversion.specs.Undone.{value_before, CanJoin, FitsBefore};
ghost use Rattle.sk_slots.specs.Kept.{newest_tags, seen, rewound, without_ready, CanGoBack, CanTakeIn, IsLog};
ghost use Rattle.sk_slots.specs.Slot.{are_of, is_empty};

use sk_ids::{GuessId, TagSet};
use sk_inversion::{Before, Inversion, join, put_back};
use std::mem;

/// A write: the guesses that it depends on, and what puts it back.
#[derive(Drop)]
pub struct Kept<V, U> {
    pub(crate) tags: TagSet,
    pub(crate) before: Before<V, U>,
}

/// Room for so many notes stays where none is left.
const FEW: usize = 4;

/// The notes of the writes of one value.
pub(crate) type Notes<V, I> = Vec<Kept<V, <I as Inversion<V>>::Undo>>;

impl<V, U> Kept<V, U> {
    /// Takes a guess out, and answers whether others are left.
    fn without(&mut self, id: GuessId) -> bool
        ensures left { result ≡ not (is_empty (without id self.old.tags)) }
        ensures note { self.new
            ≡ record { tags = without id self.old.tags; before = self.old.before } }
    {
        self.tags.without(id);
        !self.tags.ids().is_empty()
    }
}

/// A note puts back a later write, too.
#[inline(always)]
fn take_in<V: Drop, I: Inversion<V>>(note: &mut Kept<V, I::Undo>, later: Before<V, I::Undo>)
    requires { CanJoin I.fits later note.old.before }
    ensures tags { note.new.tags ≡ note.old.tags }
    ensures fits { (now : Option V) → FitsBefore I.fits later now
        → FitsBefore I.fits note.old.before (value_before I.undone later now)
        → FitsBefore I.fits note.new.before now }
    ensures back { (now : Option V) → FitsBefore I.fits later now
        → FitsBefore I.fits note.old.before (value_before I.undone later now)
        → value_before I.undone note.new.before now
        ≡ value_before I.undone note.old.before (value_before I.undone later now) }
{
    if let Before::Was(_) = &note.before {
        return;
    }
    let earlier = mem::replace(&mut note.before, Before::Was(None));
    note.before = join::<V, I>(later, earlier);
}

/// The notes but the one that is ready, which is the last.
#[inline(always)]
pub(crate) fn noted<V, U>(log: &[Kept<V, U>], has_ready: bool) -> &[Kept<V, U>]
    ensures { result.now ≡ without_ready has_ready log.now }
{
    if has_ready {
        &log[..log.len().saturating_sub(1)]
    } else {
        log
    }
}

/// Lets go of the note that is ready, where there is one.
#[inline(always)]
pub(crate) fn let_go<V: Drop, I: Inversion<V>>(log: &mut Notes<V, I>, has_ready: &mut bool)
    ensures none { has_ready.new ≡ false }
    ensures log { log.new.items ≡ without_ready has_ready.old log.old.items }
    ensures len { vec_len log.new ≤ vec_len log.old }
    ensures capacity { vec_capacity log.new ≡ vec_capacity log.old }
{
    if *has_ready {
        let _ready = log.pop();
        *has_ready = false;
    }
}

/// Puts what puts a write back into the note that is ready for it.
#[inline(always)]
pub(crate) fn fill<V: Drop, U: Drop>(note: &mut Kept<V, U>, before: Before<V, U>)
    ensures { note.new ≡ record { tags = note.old.tags; before = before } }
{
    note.before = before;
}

/// Whether a write with these tags is not noted.
#[inline(always)]
pub(crate) fn goes_unnoted<V, U>(log: &[Kept<V, U>], tags: &TagSet) -> bool
    ensures { result ≡ same_tags tags.now (newest_tags [] log.now) }
{
    match log.last() {
        Some(newest) => tags.is_same(&newest.tags),
        None => tags.ids().is_empty(),
    }
}

/// The tags of the newest note.
pub(crate) fn newest_of<V, U>(log: &[Kept<V, U>]) -> Option<&TagSet>
    ensures { unwrap_or (option_copied result) [] ≡ newest_tags [] log.now }
{
    match log.last() {
        Some(newest) => Some(&newest.tags),
        None => None,
    }
}

/// How many notes stand before the first that depends on a guess.
#[inline(always)]
pub(crate) fn before_first<V, U>(log: &[Kept<V, U>], id: GuessId) -> usize
    ensures { result ≡ prefix_len (λ n. not (has id n.tags)) log.now }
{
    log.iter().take_while(|note| is_apart(*note, id)).count()
}

#[inline(always)]
fn is_apart<V, U>(note: &Kept<V, U>, id: GuessId) -> bool
    ensures { result ≡ not (has id note.now.tags) }
{
    !note.tags.contains(id)
}

/// Whether a note depends on no guess but one.
fn rests_on_no_other<V, U>(note: &Kept<V, U>, id: GuessId) -> bool
    ensures { result ≡ are_of id note.now.tags }
{
    note.tags.ids().iter().all(|tag| *tag == id)
}

/// Whether each of these notes depends on no guess but one.
pub(crate) fn rest_on_no_other<V, U>(log: &[Kept<V, U>], id: GuessId) -> bool
    ensures { result ≡ list_all (λ n. are_of id n.tags) log.now }
{
    log.iter().all(|note| rests_on_no_other(note, id))
}

/// The newest note, where there is one, puts back a later write, too.
#[inline(always)]
pub(crate) fn take_in_newest<V: Drop, I: Inversion<V>>(
    log: &mut Notes<V, I>,
    later: Before<V, I::Undo>,
)
    requires { CanTakeIn I.undone I.fits later log.old.items }
    ensures seen { (now : Option V) → FitsBefore I.fits later now
        → CanGoBack I.undone I.fits (value_before I.undone later now) log.old.items
        → seen I.undone now log.new.items
        ≡ seen I.undone (value_before I.undone later now) log.old.items }
    ensures can { (now : Option V) → FitsBefore I.fits later now
        → CanGoBack I.undone I.fits (value_before I.undone later now) log.old.items
        → CanGoBack I.undone I.fits now log.new.items }
    ensures len { vec_len log.new ≡ vec_len log.old }
    ensures capacity { vec_capacity log.new ≡ vec_capacity log.old }
{
    let len = log.len();
    if len > 0 {
        take_in::<V, I>(&mut log[len - 1], later);
    }
}

/// Leaves out a note, which the one before it then puts back, too.
fn leave_out<V: Drop, I: Inversion<V>>(log: &mut Notes<V, I>, place: usize)
    requires place { place < length log.old.items }
    requires can { IsLog I.undone I.fits log.old.items }
    ensures seen { (now : Option V) → CanGoBack I.undone I.fits now log.old.items
        → seen I.undone now log.new.items ≡ remove (seen I.undone now log.old.items) place }
    ensures can { (now : Option V) → CanGoBack I.undone I.fits now log.old.items
        → CanGoBack I.undone I.fits now log.new.items }
    ensures len { vec_len log.new + 1 ≡ vec_len log.old }
    ensures capacity { vec_capacity log.new ≡ vec_capacity log.old }
{
    let later = log.remove(place);
    if place > 0 {
        take_in::<V, I>(&mut log[place - 1], later.before);
    }
}

/// Takes a guess out of the notes, and leaves out those that then depend on nothing.
pub(crate) fn lighten<V: Drop, I: Inversion<V>>(log: &mut Notes<V, I>, id: GuessId)
    requires { IsLog I.undone I.fits log.old.items }
    ensures seen { (now : Option V) → CanGoBack I.undone I.fits now log.old.items
        → seen I.undone now log.new.items ≡ committed id (seen I.undone now log.old.items) }
    ensures can { (now : Option V) → CanGoBack I.undone I.fits now log.old.items
        → CanGoBack I.undone I.fits now log.new.items }
    ensures len { vec_len log.new ≤ vec_len log.old }
    ensures capacity { vec_capacity log.new ≡ vec_capacity log.old }
{
    let mut place = 0;
    while place < log.len() {
        if log[place].without(id) {
            place += 1;
        } else {
            leave_out::<V, I>(log, place);
        }
    }
}

/// Leaves out each note that has the tags of the note before it.
pub(crate) fn merge<V: Drop, I: Inversion<V>>(log: &mut Notes<V, I>)
    requires { IsLog I.undone I.fits log.old.items }
    ensures seen { (now : Option V) → CanGoBack I.undone I.fits now log.old.items
        → seen I.undone now log.new.items ≡ merged [] (seen I.undone now log.old.items) }
    ensures can { (now : Option V) → CanGoBack I.undone I.fits now log.old.items
        → CanGoBack I.undone I.fits now log.new.items }
    ensures len { vec_len log.new ≤ vec_len log.old }
    ensures capacity { vec_capacity log.new ≡ vec_capacity log.old }
{
    let mut place = 0;
    while place < log.len() {
        if goes_unnoted(&log[..place], &log[place].tags) {
            leave_out::<V, I>(log, place);
        } else {
            place += 1;
        }
    }
}

/// Lets go of the room of notes, where none is left and it is for more than a few.
#[inline(always)]
pub(crate) fn trim<V: Drop, I: Inversion<V>>(log: &mut Notes<V, I>)
    ensures items { log.new.items ≡ log.old.items }
    ensures room { log.new.items ≡ [] → vec_capacity log.new ≤ 4 }
{
    if log.is_empty() && log.capacity() > FEW {
        log.shrink_to_fit();
    }
}

/// Puts back the writes from a place on, the newest first.
pub(crate) fn go_back<V: Drop, I: Inversion<V>>(
    value: &mut Option<V>,
    log: &mut Notes<V, I>,
    place: usize,
)
    requires can { CanGoBack I.undone I.fits value.old log.old.items }
    requires within { place ≤ length log.old.items }
    ensures value { value.new ≡ rewound I.undone value.old (drop place log.old.items) }
    ensures log { log.new.items ≡ take place log.old.items }
    ensures len { vec_len log.new ≤ vec_len log.old }
    ensures capacity { vec_capacity log.new ≡ vec_capacity log.old }
{
    while log.len() > place {
        let Some(note) = log.pop() else {
            unreachable!();
        };
        put_back::<V, I>(value, note.before);
    }
}
