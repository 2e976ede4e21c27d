//! What an entity has, with its undo log.
ghost use Rattle.std.specs.Prelude.{◌≡◌, [], OnOk, OnErr, IfOk, IfSome, Some, None, is_some, true, false, reverse};
ghost use Rattle.sk_undo.specs.Base.{IsStrictlySortedBy, option_copied, unwrap_or, nat_cmp, last_tags, unwound, cut};
ghost use Rattle.sk_undo.specs.Base.{committed, Merges, IsGrowing, FitsAt, StateFits, changed, CanBecome, IsProcess};
ghost use Rattle.sk_undo.specs.Base.{became, process_in};
ghost use Rattle.sk_changes.specs.declared.change.Change.TheVariants as changes;
ghost use Rattle.sk_store.specs.declared.back.PutBack.TheVariants as PutBack;
ghost use Rattle.sk_undo.specs.Count.{note_count};
ghost use Rattle.sk_undo.specs.Log.{is_empty, seen, CanGoBack, EachRests, FitsBy};
ghost use Rattle.sk_undo.specs.Slot.{committed_joined, undone, Fits, is_bare, slot_of, slot_wrote, slot_back, CanGoBackOnce, goes_on, goes_unnoted, own_tags, is_stable_raw};

use crate::{Log, Logged};
use sk_changes::{Change, Undo};
use sk_ids::{GuessId, TagSet, Text};
use sk_script::Process;
use sk_store::{Becoming, EntityState, PutBack};
use std::alloc::{AllocError, Global};
use std::marker::Model;

/// What an entity has, and the writes that can be undone.
#[derive(Drop)]
pub struct Slot {
    value: Option<EntityState>,
    log: Log<EntityState>,
}

impl Model for Slot {
    ghost use Rattle.std.specs.Prelude.{reverse};
    ghost use Rattle.sk_undo.specs.Log.{seen, CanGoBack};
    ghost use Rattle.sk_undo.specs.Slot.{SlotView, slot_code, Fits, undone};

    ghost Value = { SlotView };

    ghost coded = { slot_code };

    ghost view = { λ s. record
        { now = s.value; log = seen undone s.value (reverse s.log.notes.items) } };

    ghost invariant = { λ s. CanGoBack Fits undone s.value (reverse s.log.notes.items) };
}

/// Whether a write is not noted.
#[inline(always)]
fn goes_unnoted(tags: &TagSet, value: &Option<EntityState>, log: &Log<EntityState>) -> bool
    requires { CanGoBack Fits undone value.now (reverse log.now.notes.items) }
    ensures seen { result ≡ goes_unnoted tags.now
        (seen undone value.now (reverse log.now.notes.items)) }
    ensures stable { result ≡ true → is_stable_raw (reverse log.now.notes.items) ≡ true }
{
    log.goes_unnoted(tags)
}

/// Where a write is not noted, the log is the same whatever stands there now; for proofs.
fn stands(tags: &TagSet, value: &Option<EntityState>, log: &Log<EntityState>)
    requires can { CanGoBack Fits undone value.now (reverse log.now.notes.items) }
    requires unnoted { goes_unnoted tags.now
        (seen undone value.now (reverse log.now.notes.items)) ≡ true }
    ensures { is_stable_raw (reverse log.now.notes.items) ≡ true }
{}

/// Whether a write with the tags of the newest note is not noted, which are at least so many.
fn goes_on(least: usize, value: &Option<EntityState>, log: &Log<EntityState>) -> bool
    requires { CanGoBack Fits undone value.now (reverse log.now.notes.items) }
    ensures exact { result
        ≡ goes_on least (seen undone value.now (reverse log.now.notes.items)) }
    ensures stable { result ≡ true → is_stable_raw (reverse log.now.notes.items) ≡ true }
    ensures rising { IsStrictlySortedBy nat_cmp
        (last_tags [] (reverse (seen undone value.now (reverse log.now.notes.items)))) }
{
    log.goes_on(least)
}

/// Changes a value where it stands. Without memory nothing has changed.
fn change_in(
    value: &mut Option<EntityState>,
    alloc: Global,
    change: &Change,
) -> Result<Undo, AllocError>
    requires { FitsAt value.old change.now }
    ensures ok { OnOk result (value.new ≡ Some (changed value.old change.now)) }
    ensures can { IfOk result (λ undo. FitsBy StateFits (PutBack.Changed undo) value.new) }
    ensures back { IfOk result (λ undo. undone (PutBack.Changed undo) value.new ≡ value.old) }
    ensures err { OnErr result (value.new ≡ value.old) }
{
    match value {
        Some(state) => {
            let undo = state.change(alloc, change)?;
            Ok(undo)
        }
        None => unreachable!(),
    }
}

/// Changes a value where it stands, and keeps nothing that takes that back. Without memory nothing has
/// changed.
fn change_alone_in(
    value: &mut Option<EntityState>,
    alloc: Global,
    change: &Change,
) -> Result<(), AllocError>
    requires { FitsAt value.old change.now }
    ensures ok { OnOk result (value.new ≡ Some (changed value.old change.now)) }
    ensures err { OnErr result (value.new ≡ value.old) }
{
    match value {
        Some(state) => {
            state.change_alone(alloc, change)?;
            Ok(())
        }
        None => unreachable!(),
    }
}

/// Writes bytes at a place of the file that is there, and keeps nothing that takes that back. Without memory nothing has
/// changed.
fn overwrite_in(value: &mut Option<EntityState>, at: u32, bytes: &Text) -> Result<(), AllocError>
    requires { FitsAt value.old (changes.WriteAt at bytes.now) }
    ensures ok { OnOk result
        (value.new ≡ Some (changed value.old (changes.WriteAt at bytes.now))) }
    ensures err { OnErr result (value.new ≡ value.old) }
{
    match value {
        Some(state) => {
            state.overwrite(at, bytes)?;
            Ok(())
        }
        None => unreachable!(),
    }
}

/// Changes a value where it stands, and answers what a note keeps: the value whole, or what takes the change back. Without
/// memory nothing has changed.
fn note_in(
    state: &mut EntityState,
    alloc: Global,
    change: &Change,
) -> Result<PutBack<EntityState>, AllocError>
    requires { FitsAt (Some state.old) change.now }
    ensures ok { OnOk result (state.new ≡ changed (Some state.old) change.now) }
    ensures can { IfOk result (λ undo. Fits undo (Some state.new)) }
    ensures back { IfOk result (λ undo. undone undo (Some state.new) ≡ Some state.old) }
    ensures err { OnErr result (state.new ≡ state.old) }
{
    if !state.is_whole() {
        let undo = state.change(alloc, change)?;
        return Ok(PutBack::Changed(undo));
    }
    let before = state.copy()?;
    state.change_alone(alloc, change)?;
    Ok(PutBack::Was(Some(before)))
}

/// As `note_in`, of a value that is there.
fn change_noted_in(
    value: &mut Option<EntityState>,
    alloc: Global,
    change: &Change,
) -> Result<PutBack<EntityState>, AllocError>
    requires { FitsAt value.old change.now }
    ensures ok { OnOk result (value.new ≡ Some (changed value.old change.now)) }
    ensures can { IfOk result (λ undo. Fits undo value.new) }
    ensures back { IfOk result (λ undo. undone undo value.new ≡ value.old) }
    ensures err { OnErr result (value.new ≡ value.old) }
{
    match value {
        Some(state) => note_in(state, alloc, change),
        None => unreachable!(),
    }
}

/// A copy of what an entity has.
fn copy_in(value: &Option<EntityState>) -> Result<Option<EntityState>, AllocError>
    ensures { IfOk result (λ copy. copy ≡ value.now) }
{
    match value {
        Some(state) => Ok(Some(state.copy()?)),
        None => Ok(None),
    }
}

/// Puts back what was there before a change that is not noted, which takes no memory.
fn put_back_in(value: &mut Option<EntityState>, undo: PutBack<EntityState>)
    requires { FitsBy StateFits undo value.old }
    ensures { value.new ≡ undone undo value.old }
{
    match undo {
        PutBack::Was(before) => *value = before,
        PutBack::Changed(undo) => match value {
            Some(state) => state.undo(undo),
            None => unreachable!(),
        },
    }
}

/// Changes the process that is there, where it stands.
fn become_in<C: Becoming>(value: &mut Option<EntityState>, by: &C)
    requires { CanBecome (C.can by.now) value.old }
    ensures { value.new ≡ Some (became (C.after by.now) value.old) }
{
    match value {
        Some(state) => state.become_by(by),
        None => unreachable!(),
    }
}

/// A copy of the process that is there, in a box of its own.
fn process_copy(
    alloc: Global,
    value: &Option<EntityState>,
) -> Result<Option<EntityState>, AllocError>
    requires { IsProcess value.now }
    ensures { IfOk result (λ copy. copy ≡ value.now) }
{
    match value {
        Some(EntityState::Process(held)) => Ok(Some(EntityState::process(alloc, *held.process())?)),
        _ => unreachable!(),
    }
}

/// The process that is there.
fn process_in(value: &Option<EntityState>) -> &Process
    requires { IsProcess value.now }
    ensures { result.now ≡ process_in value.now }
{
    match value {
        Some(EntityState::Process(held)) => held.process(),
        _ => unreachable!(),
    }
}

impl Slot {
    /// The slot of an entity that has this, of which nothing is noted.
    pub fn new(alloc: Global, value: Option<EntityState>) -> Slot
        ensures { result ≡ slot_of value }
    {
        Slot {
            value,
            log: Log::new(alloc),
        }
    }

    pub fn value(&self) -> Option<&EntityState>
        ensures { option_copied result ≡ self.now.now }
    {
        match &self.value {
            Some(state) => Some(state),
            None => None,
        }
    }

    /// Sets what is there, and answers what takes it back where that is not noted.
    pub fn set(
        &mut self,
        tags: &TagSet,
        value: Option<EntityState>,
    ) -> Result<Option<PutBack<EntityState>>, AllocError>
        ensures ok { OnOk result (self.new ≡ slot_wrote tags.now self.old value) }
        ensures can { IfOk result (λ back. CanGoBackOnce self.new back) }
        ensures back { IfOk result (λ back. slot_back self.new back ≡ self.old) }
        ensures err { OnErr result (self.new ≡ self.old) }
    {
        if goes_unnoted(tags, &self.value, &self.log) {
            let before = std::mem::replace(&mut self.value, value);
            return Ok(Some(PutBack::Was(before)));
        }
        let tags = tags.copy()?;
        self.log.reserve()?;
        let before = std::mem::replace(&mut self.value, value);
        let undo = PutBack::Was(before);
        self.log.note_reserved(tags, undo);
        Ok(None)
    }

    /// Changes the process that is there, where it stands.
    #[inline(always)]
    pub fn change_process<C: Becoming>(
        &mut self,
        alloc: Global,
        tags: &TagSet,
        by: &C,
    ) -> Result<(), AllocError>
        requires { CanBecome (C.can by.now) self.old.now }
        ensures ok { OnOk result
            (self.new ≡ slot_wrote tags.now self.old
            (Some (became (C.after by.now) self.old.now))) }
        ensures err { OnErr result (self.new ≡ self.old) }
    {
        if goes_unnoted(tags, &self.value, &self.log) {
            become_in(&mut self.value, by);
            return Ok(());
        }
        self.change_noted(alloc, tags, by)
    }

    /// Changes the process that is there, and notes it as it was. Without memory nothing has changed.
    #[inline(never)]
    fn change_noted<C: Becoming>(
        &mut self,
        alloc: Global,
        tags: &TagSet,
        by: &C,
    ) -> Result<(), AllocError>
        requires can { CanBecome (C.can by.now) self.old.now }
        requires noted { goes_unnoted tags.now self.old.log ≡ false }
        ensures ok { OnOk result
            (self.new ≡ slot_wrote tags.now self.old
            (Some (became (C.after by.now) self.old.now))) }
        ensures err { OnErr result (self.new ≡ self.old) }
    {
        let tags = tags.copy()?;
        self.log.reserve()?;
        let undo = PutBack::Was(process_copy(alloc, &self.value)?);
        become_in(&mut self.value, by);
        self.log.note_reserved(tags, undo);
        Ok(())
    }

    /// Makes the entity absent.
    pub fn clear(&mut self, tags: &TagSet) -> Result<(), AllocError>
        ensures ok { OnOk result (self.new ≡ slot_wrote tags.now self.old None) }
        ensures err { OnErr result (self.new ≡ self.old) }
    {
        self.set(tags, None)?;
        Ok(())
    }

    /// Changes what is there, and answers what takes it back where that is not noted.
    pub fn change(
        &mut self,
        tags: &TagSet,
        change: &Change,
    ) -> Result<Option<PutBack<EntityState>>, AllocError>
        requires { FitsAt self.old.now change.now }
        ensures ok { OnOk result
            (self.new ≡ slot_wrote tags.now self.old (Some (changed self.old.now change.now))) }
        ensures can { IfOk result (λ back. CanGoBackOnce self.new back) }
        ensures back { IfOk result (λ back. slot_back self.new back ≡ self.old) }
        ensures err { OnErr result (self.new ≡ self.old) }
    {
        if goes_unnoted(tags, &self.value, &self.log) {
            let undo = change_in(&mut self.value, self.log.alloc(), change)?;
            return Ok(Some(PutBack::Changed(undo)));
        }
        self.note_change(tags, change)?;
        Ok(None)
    }

    /// Changes what is there, and notes what takes that back. Without memory nothing has changed.
    #[inline(never)]
    fn note_change(&mut self, tags: &TagSet, change: &Change) -> Result<(), AllocError>
        requires fits { FitsAt self.old.now change.now }
        requires noted { goes_unnoted tags.now self.old.log ≡ false }
        ensures ok { OnOk result
            (self.new ≡ slot_wrote tags.now self.old (Some (changed self.old.now change.now))) }
        ensures can { OnOk result (CanGoBackOnce self.new None) }
        ensures back { OnOk result (slot_back self.new None ≡ self.old) }
        ensures err { OnErr result (self.new ≡ self.old) }
    {
        let tags = tags.copy()?;
        self.log.reserve()?;
        let undo = change_noted_in(&mut self.value, self.log.alloc(), change)?;
        self.log.note_reserved(tags, undo);
        Ok(())
    }

    /// Whether a write with these tags is not noted.
    pub fn goes_unnoted(&self, tags: &TagSet) -> bool
        ensures { result ≡ goes_unnoted tags.now self.now.log }
    {
        goes_unnoted(tags, &self.value, &self.log)
    }

    /// The process that is there, if a write with these tags is not noted.
    pub fn unnoted(&self, tags: &TagSet) -> Option<&Process>
        requires { IsProcess self.now.now }
        ensures exact { is_some result ≡ goes_unnoted tags.now self.now.log }
        ensures process { IfSome result (λ process. process.now ≡ process_in self.now.now) }
    {
        if !goes_unnoted(tags, &self.value, &self.log) {
            return None;
        }
        Some(process_in(&self.value))
    }

    /// Changes what is there, and answers nothing that takes it back. Without memory nothing has changed.
    #[inline(always)]
    pub fn change_alone(&mut self, tags: &TagSet, change: &Change) -> Result<(), AllocError>
        requires { FitsAt self.old.now change.now }
        ensures ok { OnOk result
            (self.new ≡ slot_wrote tags.now self.old (Some (changed self.old.now change.now))) }
        ensures err { OnErr result (self.new ≡ self.old) }
    {
        if !goes_unnoted(tags, &self.value, &self.log) {
            return self.note_change(tags, change);
        }
        change_alone_in(&mut self.value, self.log.alloc(), change)?;
        Ok(())
    }

    /// Writes bytes at a place of the file that is there, and answers nothing that takes it back. Without memory nothing
    /// has changed.
    #[inline(always)]
    fn overwrite(&mut self, tags: &TagSet, at: u32, bytes: &Text) -> Result<(), AllocError>
        requires { FitsAt self.old.now (changes.WriteAt at bytes.now) }
        ensures ok { OnOk result
            (self.new ≡ slot_wrote tags.now self.old
            (Some (changed self.old.now (changes.WriteAt at bytes.now)))) }
        ensures err { OnErr result (self.new ≡ self.old) }
    {
        if !goes_unnoted(tags, &self.value, &self.log) {
            return self.note_overwrite(tags, at, bytes);
        }
        overwrite_in(&mut self.value, at, bytes)?;
        Ok(())
    }

    /// Writes bytes at a place of the file that is there, and notes the file as it was.
    #[inline(never)]
    fn note_overwrite(&mut self, tags: &TagSet, at: u32, bytes: &Text) -> Result<(), AllocError>
        requires fits { FitsAt self.old.now (changes.WriteAt at bytes.now) }
        requires noted { goes_unnoted tags.now self.old.log ≡ false }
        ensures ok { OnOk result
            (self.new ≡ slot_wrote tags.now self.old
            (Some (changed self.old.now (changes.WriteAt at bytes.now)))) }
        ensures err { OnErr result (self.new ≡ self.old) }
    {
        let tags = tags.copy()?;
        self.log.reserve()?;
        let undo = PutBack::Was(copy_in(&self.value)?);
        overwrite_in(&mut self.value, at, bytes)?;
        self.log.note_reserved(tags, undo);
        Ok(())
    }

    /// Writes the buffer of the process that is there at a place of a file, and then changes the process. Without memory
    /// nothing has changed.
    #[inline(always)]
    pub fn write_buffer<C: Becoming>(
        &mut self,
        file: &mut Slot,
        tags: &TagSet,
        at: u32,
        by: &C,
    ) -> Result<(), AllocError>
        requires fits { FitsAt file.old.now
            (changes.WriteAt at (process_in self.old.now).buffer) }
        requires can { CanBecome (C.can by.now) self.old.now }
        ensures file { OnOk result
            (file.new ≡ slot_wrote tags.now file.old
            (Some (changed file.old.now (changes.WriteAt at (process_in self.old.now).buffer)))) }
        ensures process { OnOk result
            (self.new ≡ slot_wrote tags.now self.old
            (Some (became (C.after by.now) self.old.now))) }
        ensures same_file { OnErr result (file.new ≡ file.old) }
        ensures same_process { OnErr result (self.new ≡ self.old) }
    {
        if !goes_unnoted(tags, &self.value, &self.log) {
            return self.write_noted(file, tags, at, by);
        }
        file.overwrite(tags, at, &process_in(&self.value).buffer)?;
        become_in(&mut self.value, by);
        Ok(())
    }

    /// As `write_buffer`, where the process is noted: what that wants is taken first.
    #[inline(never)]
    fn write_noted<C: Becoming>(
        &mut self,
        file: &mut Slot,
        tags: &TagSet,
        at: u32,
        by: &C,
    ) -> Result<(), AllocError>
        requires fits { FitsAt file.old.now
            (changes.WriteAt at (process_in self.old.now).buffer) }
        requires can { CanBecome (C.can by.now) self.old.now }
        requires noted { goes_unnoted tags.now self.old.log ≡ false }
        ensures file { OnOk result
            (file.new ≡ slot_wrote tags.now file.old
            (Some (changed file.old.now (changes.WriteAt at (process_in self.old.now).buffer)))) }
        ensures process { OnOk result
            (self.new ≡ slot_wrote tags.now self.old
            (Some (became (C.after by.now) self.old.now))) }
        ensures same_file { OnErr result (file.new ≡ file.old) }
        ensures same_process { OnErr result (self.new ≡ self.old) }
    {
        let noted = tags.copy()?;
        self.log.reserve()?;
        let undo = PutBack::Was(process_copy(self.log.alloc(), &self.value)?);
        file.overwrite(tags, at, &process_in(&self.value).buffer)?;
        become_in(&mut self.value, by);
        self.log.note_reserved(noted, undo);
        Ok(())
    }

    /// Changes the process that is there, where it stands, of which nothing is noted.
    pub fn become_unnoted<C: Becoming>(&mut self, tags: &TagSet, by: &C)
        requires unnoted { goes_unnoted tags.now self.old.log ≡ true }
        requires can { CanBecome (C.can by.now) self.old.now }
        ensures { self.new ≡ slot_wrote tags.now self.old
            (Some (became (C.after by.now) self.old.now)) }
    {
        stands(tags, &self.value, &self.log);
        become_in(&mut self.value, by);
    }

    /// Changes the process that is there, where it stands, if it depends on at least so many guesses and nothing need be noted of
    /// a write that depends on just these. Answers whether; else nothing has changed. This takes no memory.
    pub fn go_on<C: Becoming>(&mut self, least: usize, by: &C) -> bool
        requires { CanBecome (C.can by.now) self.old.now }
        ensures exact { result ≡ goes_on least self.old.log }
        ensures wrote { result ≡ true
            → self.new ≡ slot_wrote (own_tags self.old) self.old
            (Some (became (C.after by.now) self.old.now)) }
        ensures rising { IsStrictlySortedBy nat_cmp (own_tags self.old) }
        ensures same { result ≡ false → self.new ≡ self.old }
    {
        if !goes_on(least, &self.value, &self.log) {
            return false;
        }
        become_in(&mut self.value, by);
        true
    }

    /// Takes the newest write back, which takes no memory.
    pub fn take_back(&mut self, back: Option<PutBack<EntityState>>)
        requires { CanGoBackOnce self.old back }
        ensures { self.new ≡ slot_back self.old back }
    {
        match back {
            Some(undo) => put_back_in(&mut self.value, undo),
            None => self.log.undo_last(&mut self.value),
        }
    }

    /// The tags of the newest note; `None` is as none.
    pub fn tags(&self) -> Option<&TagSet>
        ensures { unwrap_or (option_copied result) [] ≡ last_tags [] (reverse self.now.log) }
    {
        self.log.tags()
    }

    /// How many notes there are.
    pub fn notes(&self) -> usize
        ensures { result ≡ note_count self.now }
    {
        self.log.len()
    }

    /// Whether nothing is noted.
    pub fn is_unnoted(&self) -> bool
        ensures { result ≡ is_empty self.now.log }
    {
        self.log.is_empty()
    }

    /// Whether there is neither a value nor a note.
    pub fn is_bare(&self) -> bool
        ensures { result ≡ is_bare self.now }
    {
        self.value.is_none() && self.is_unnoted()
    }

    /// Takes back what depends on the guess, in place and without memory.
    pub fn unwind(&mut self, guess: GuessId)
        ensures now { IsGrowing (reverse self.old.log)
            → self.new.now ≡ unwound guess (reverse self.old.log) self.old.now }
        ensures log { IsGrowing (reverse self.old.log)
            → reverse self.new.log ≡ cut guess (reverse self.old.log) }
    {
        self.log.unwind(&mut self.value, guess);
    }

    /// Takes a guess out of all notes, drops those that then depend on nothing, and leaves out those for which
    /// then an older one stands. It takes no memory.
    pub fn commit(&mut self, guess: GuessId)
        ensures now { self.new.now ≡ self.old.now }
        ensures log { IsGrowing (reverse self.old.log)
            → Merges [] (committed guess (reverse self.old.log)) (reverse self.new.log) }
        ensures joined { IsGrowing (reverse self.old.log) → EachRests (reverse self.old.log)
            → reverse self.new.log ≡ committed_joined guess None (reverse self.old.log) }
    {
        let first = self.log.commit(guess);
        self.log.join(first);
    }
}
