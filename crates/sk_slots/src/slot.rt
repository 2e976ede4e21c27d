//! What a key has, with its undo log.
ghost use Rattle.std.specs.Prelude.{◌≡◌, [], OnOk, IfOk, IsOk, Option, None, Some, true, false, not, is_some};
ghost use Rattle.std.specs.Option.{option_copied, unwrap_or};
ghost use Rattle.sk_record.specs.Notes.{last_tags, unwound, cut, committed};
ghost use Rattle.sk_record.specs.Merged.{merged, same_tags};
ghost use Rattle.sk_inversion.specs.Undone.{value_before, FitsBefore};
ghost use Rattle.sk_slots.specs.Kept.{newest_tags, ready_tags, seen, without_ready, CanGoBack, CanTakeIn};
ghost use Rattle.sk_slots.specs.Slot.{goes_unnoted, noted_on, is_bare, is_settled, IsPrepared};

use crate::notes::{
    Kept, Notes, before_first, fill, go_back, goes_unnoted, let_go, lighten, merge, newest_of,
    noted, rest_on_no_other, take_in_newest, trim,
};
use sk_ids::{GuessId, TagSet};
use sk_inversion::{Before, Inversion, Whole};
use std::alloc::{AllocError, Global};
use std::marker::Model;
use std::mem;

/// What a key has, and the writes that can be undone.
#[derive(Drop)]
pub struct Slot<V, I: Inversion<V> = Whole> {
    value: Option<V>,
    /// The notes. Where one is ready for the next write, it is the last.
    log: Vec<Kept<V, I::Undo>>,
    has_ready: bool,
}

impl<V, I: Inversion<V>> Model for Slot<V, I> {
    ghost use Rattle.sk_slots.specs.Slot.{SlotView, slot_code};
    ghost use Rattle.sk_slots.specs.Kept.{seen, ready_tags, without_ready, CanGoBack};

    ghost Value = { SlotView V };

    ghost coded = { slot_code V.code };

    ghost view = { λ s. record {
      value = s.value;
      log = seen I.undone s.value (without_ready s.has_ready s.log.items);
      ready = ready_tags s.has_ready s.log.items;
    } };

    ghost invariant = { λ s. CanGoBack I.undone I.fits s.value
        (without_ready s.has_ready s.log.items) };
}

/// Notes what puts a write back: in the note that is ready, or in the newest one, where that has these tags.
#[inline(always)]
fn note<V: Drop, I: Inversion<V>>(
    log: &mut Notes<V, I>,
    has_ready: &mut bool,
    tags: &TagSet,
    before: Before<V, I::Undo>,
)
    requires can { CanTakeIn I.undone I.fits before (without_ready has_ready.old log.old.items) }
    requires ready { same_tags tags.now
        (newest_tags [] (without_ready has_ready.old log.old.items)) ≡ false
        → ready_tags has_ready.old log.old.items ≡ Some tags.now }
    ensures none { has_ready.new ≡ false }
    ensures seen { (now : Option V) → FitsBefore I.fits before now
        → CanGoBack I.undone I.fits (value_before I.undone before now)
        (without_ready has_ready.old log.old.items)
        → seen I.undone now log.new.items
        ≡ noted_on tags.now (value_before I.undone before now)
        (seen I.undone (value_before I.undone before now)
        (without_ready has_ready.old log.old.items)) }
    ensures can { (now : Option V) → FitsBefore I.fits before now
        → CanGoBack I.undone I.fits (value_before I.undone before now)
        (without_ready has_ready.old log.old.items)
        → CanGoBack I.undone I.fits now log.new.items }
    ensures again { same_tags tags.now (newest_tags [] log.new.items) ≡ true }
{
    if goes_unnoted(noted(log.as_slice(), *has_ready), tags) {
        let_go::<V, I>(log, has_ready);
        take_in_newest::<V, I>(log, before);
        return;
    }
    let len = log.len();
    fill(&mut log[len - 1], before);
    *has_ready = false;
}

impl<V, I: Inversion<V>> Slot<V, I> {
    /// A slot with neither a value nor a note.
    pub fn new(alloc: Global) -> Slot<V, I>
        ensures { result ≡ record { value = None; log = []; ready = None } }
    {
        Slot {
            value: None,
            log: Vec::new(alloc),
            has_ready: false,
        }
    }

    #[inline(always)]
    pub fn value(&self) -> Option<&V>
        ensures { option_copied result ≡ self.now.value }
    {
        match &self.value {
            Some(value) => Some(value),
            None => None,
        }
    }

    /// Whether a value is there.
    #[inline(always)]
    pub fn is_present(&self) -> bool
        ensures { result ≡ is_some self.now.value }
    {
        self.value.is_some()
    }

    /// The tags of the newest note.
    #[inline(always)]
    pub fn tags(&self) -> Option<&TagSet>
        ensures { unwrap_or (option_copied result) [] ≡ last_tags [] self.now.log }
    {
        match noted(self.log.as_slice(), self.has_ready).last() {
            Some(newest) => Some(&newest.tags),
            None => None,
        }
    }

    /// Whether a write with these tags is not noted.
    #[inline(always)]
    pub fn goes_unnoted(&self, tags: &TagSet) -> bool
        ensures { result ≡ goes_unnoted tags.now self.now.log }
    {
        goes_unnoted(noted(self.log.as_slice(), self.has_ready), tags)
    }

    /// The tags of the note before the first that depends on a guess: of the newest one, where that guess has failed.
    pub fn tags_without(&self, id: GuessId) -> Option<&TagSet>
        ensures { unwrap_or (option_copied result) [] ≡ last_tags [] (cut id self.now.log) }
    {
        let log = noted(self.log.as_slice(), self.has_ready);
        newest_of(&log[..before_first(log, id)])
    }

    /// Whether there is neither a value nor a note.
    #[inline(always)]
    fn is_bare(&self) -> bool
        ensures { result ≡ is_bare self.now }
    {
        self.value.is_none() && noted(self.log.as_slice(), self.has_ready).is_empty()
    }

    /// Whether there is a value or a note, and no room for the next note.
    #[inline(always)]
    fn is_settled(&self) -> bool
        ensures { result ≡ is_settled self.now }
    {
        !self.has_ready && !self.is_bare()
    }
}

impl<V: Drop, I: Inversion<V>> Slot<V, I> {
    /// Lets go of the room that was made for the next note, and answers whether there is a value or a note.
    pub fn settle(&mut self) -> bool
        ensures slot { self.new ≡ record self.old { ready = None } }
        ensures left { result ≡ not (is_bare self.old) }
    {
        let_go::<V, I>(&mut self.log, &mut self.has_ready);
        !self.is_bare()
    }

    /// Makes room for what a write with these tags notes, and answers whether it is not noted.
    pub fn prepare(&mut self, tags: &TagSet) -> Result<bool, AllocError>
        ensures value { self.new.value ≡ self.old.value }
        ensures log { self.new.log ≡ self.old.log }
        ensures ok { OnOk result (IsPrepared tags.now self.new) }
        ensures kept { IsPrepared tags.now self.old → IsPrepared tags.now self.new }
        ensures room { goes_unnoted tags.now self.old.log ≡ true → IsOk result }
        ensures same { IfOk result (λ same. same ≡ goes_unnoted tags.now self.old.log) }
    {
        if goes_unnoted(noted(self.log.as_slice(), self.has_ready), tags) {
            return Ok(true);
        }
        let own = tags.copy()?;
        self.log.reserve(1)?;
        let_go::<V, I>(&mut self.log, &mut self.has_ready);
        self.log.push_reserved(Kept {
            tags: own,
            before: Before::Was(None),
        });
        self.has_ready = true;
        Ok(false)
    }

    /// Sets or changes what is there, where what is to be noted has room. An old value is moved into the note. Answers whether
    /// there is a value or a note now, and no room for the next note.
    #[inline(always)]
    pub fn write(&mut self, tags: &TagSet, write: I::Write) -> bool
        requires { IsPrepared tags.now self.old }
        ensures value { self.new.value ≡ I.written write self.old.value }
        ensures log { self.new.log ≡ noted_on tags.now self.old.value self.old.log }
        ensures again { IsPrepared tags.now self.new }
        ensures settled { result ≡ is_settled self.new }
    {
        let before = I::write(&mut self.value, write);
        note::<V, I>(&mut self.log, &mut self.has_ready, tags, before);
        self.is_settled()
    }

    /// Sets or changes what is there with the tags of the newest note, so that nothing is noted. Answers as `write` does.
    #[inline(always)]
    pub fn write_on(&mut self, write: I::Write) -> bool
        ensures value { self.new.value ≡ I.written write self.old.value }
        ensures log { self.new.log ≡ self.old.log }
        ensures settled { result ≡ is_settled self.new }
    {
        let_go::<V, I>(&mut self.log, &mut self.has_ready);
        let before = I::write(&mut self.value, write);
        take_in_newest::<V, I>(&mut self.log, before);
        self.is_settled()
    }

    /// Moves out the notes, where each depends on no guess but one: its commit leaves none of them.
    pub(crate) fn take_notes(&mut self, alloc: Global, id: GuessId) -> Notes<V, I>
        ensures value { self.new.value ≡ self.old.value }
        ensures log { committed id self.new.log ≡ committed id self.old.log }
    {
        if self.has_ready {
            return Vec::new(alloc);
        }
        if !rest_on_no_other(self.log.as_slice(), id) {
            return Vec::new(alloc);
        }
        mem::replace(&mut self.log, Vec::new(alloc))
    }

    /// Takes a guess out of all notes, and drops those that then depend on nothing, or on just what the note before
    /// them depends on. It takes no memory. Answers as `write` does.
    pub fn commit(&mut self, id: GuessId) -> bool
        ensures value { self.new.value ≡ self.old.value }
        ensures log { self.new.log ≡ merged [] (committed id self.old.log) }
        ensures settled { result ≡ is_settled self.new }
    {
        let_go::<V, I>(&mut self.log, &mut self.has_ready);
        lighten::<V, I>(&mut self.log, id);
        merge::<V, I>(&mut self.log);
        trim::<V, I>(&mut self.log);
        self.is_settled()
    }

    /// Puts back what was there before the first write that depends on the guess. It takes no memory. Answers as `write` does.
    pub fn unwind(&mut self, id: GuessId) -> bool
        ensures value { self.new.value ≡ unwound id self.old.log self.old.value }
        ensures log { self.new.log ≡ cut id self.old.log }
        ensures settled { result ≡ is_settled self.new }
    {
        let_go::<V, I>(&mut self.log, &mut self.has_ready);
        let place = before_first(self.log.as_slice(), id);
        go_back::<V, I>(&mut self.value, &mut self.log, place);
        trim::<V, I>(&mut self.log);
        self.is_settled()
    }
}
