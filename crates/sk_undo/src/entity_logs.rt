//! The undo logs of kernel objects and of processes.
ghost use Rattle.std.specs.Prelude.{◌≡◌, ◌++◌, ◌∷◌, [], true, false, length, OnOk, OnErr, IsOk, Option, Some, None, reverse};
ghost use Rattle.sk_undo.specs.Base.{unwound, cut, committed, last_tags, merged, Value};
ghost use Rattle.sk_undo.specs.Log.{log_of, CanGoBack, HasRoom, newest_tags, Grows, Covers};
ghost use Rattle.sk_undo.specs.Kept.{ObjectFits, object_undone, runs_of, AllSet, is_apart};
ghost use Rattle.sk_store.specs.declared.back.PutBack.TheVariants as PutBack;

use crate::{Log, Logged};
use sk_changes::{Invertible, Undo};
use sk_ids::{GuessId, TagSet};
use sk_objects::Value;
use sk_script::Process;
use sk_store::PutBack;
use std::alloc::{AllocError, Global};

impl Logged for Value {
    ghost use Rattle.sk_changes.specs.Changes.{CanUndo, value_undone};

    ghost fits = { CanUndo };

    ghost undone = { value_undone };

    ghost is_whole = { λ _. false };

    fn change_back(&mut self, undo: Undo) {
        self.undo(undo);
    }

    fn is_whole(&self) -> bool {
        false
    }
}

impl Logged for Process {
    ghost use Rattle.sk_undo.specs.Kept.{is_process_whole};

    ghost fits = { λ _ _. Unit {0} };

    ghost undone = { λ process _. process };

    ghost is_whole = { is_process_whole };

    fn change_back(&mut self, _undo: Undo) {}

    fn is_whole(&self) -> bool {
        true
    }
}

/// What is lent where a log has no notes.
#[derive(Drop)]
struct Untagged {
    set: TagSet,
    ghost empty: { set ≡ [] },
}

impl Untagged {
    fn new(alloc: Global) -> Untagged {
        Untagged {
            set: TagSet::new(alloc),
        }
    }

    fn lent(&self) -> &TagSet
        ensures { result.now ≡ [] }
    {
        &self.set
    }
}

/// The tags of the newest note.
fn tags_of<'a, V: Logged>(log: &'a Log<V>, untagged: &'a Untagged) -> &'a TagSet
    ensures { result.now ≡ newest_tags (reverse log.now.notes.items) }
{
    match log.tags() {
        Some(tags) => tags,
        None => untagged.lent(),
    }
}

/// The undo log of an object.
#[derive(Drop)]
pub struct ObjectLog {
    log: Log<Value>,
    untagged: Untagged,
    ghost grows: { Grows log.notes.items },
}

impl ObjectLog {
    /// Nothing is noted.
    pub fn new(alloc: Global) -> ObjectLog
        ensures { result.log.notes.items ≡ [] }
    {
        ObjectLog {
            log: Log::new(alloc),
            untagged: Untagged::new(alloc),
        }
    }

    /// The tags of the newest note.
    pub fn tags(&self) -> &TagSet
        ensures { result.now ≡ newest_tags (reverse self.now.log.notes.items) }
    {
        tags_of(&self.log, &self.untagged)
    }

    /// Makes room for the next note.
    pub fn reserve(&mut self) -> Result<(), AllocError>
        ensures notes { self.new.log.notes.items ≡ self.old.log.notes.items }
        ensures ok { OnOk result (HasRoom self.new.log.notes) }
        ensures room { HasRoom self.old.log.notes → IsOk result }
    {
        self.log.reserve()
    }

    /// Notes a write that depends on all that `tags` has.
    fn add(&mut self, tags: TagSet, undo: PutBack<Value>) -> Result<(), AllocError>
        requires { Covers tags (newest_tags (reverse self.old.log.notes.items)) }
        ensures ok { OnOk result
            (self.new.log.notes.items
            ≡ self.old.log.notes.items ++ record { tags = tags; undo = undo } ∷ []) }
        ensures err { OnErr result (self.new.log.notes.items ≡ self.old.log.notes.items) }
        ensures room { HasRoom self.old.log.notes → IsOk result }
    {
        self.log.reserve()?;
        self.log.note_reserved(tags, undo);
        Ok(())
    }

    /// Notes a change that depends on all that `tags` has.
    pub fn note(&mut self, tags: TagSet, undo: Undo) -> Result<(), AllocError>
        requires { Covers tags (newest_tags (reverse self.old.log.notes.items)) }
        ensures ok { OnOk result
            (self.new.log.notes.items
            ≡ self.old.log.notes.items
            ++ record { tags = tags; undo = PutBack.Changed undo } ∷ []) }
        ensures err { OnErr result (self.new.log.notes.items ≡ self.old.log.notes.items) }
        ensures room { HasRoom self.old.log.notes → IsOk result }
    {
        self.add(tags, PutBack::Changed(undo))
    }

    /// Notes that the object appears, which depends on all that `tags` has.
    pub fn note_birth(&mut self, tags: TagSet) -> Result<(), AllocError>
        requires { Covers tags (newest_tags (reverse self.old.log.notes.items)) }
        ensures ok { OnOk result
            (self.new.log.notes.items
            ≡ self.old.log.notes.items ++ record { tags = tags; undo = PutBack.Was None } ∷ []) }
        ensures err { OnErr result (self.new.log.notes.items ≡ self.old.log.notes.items) }
        ensures room { HasRoom self.old.log.notes → IsOk result }
    {
        self.add(tags, PutBack::Was(None))
    }

    /// Notes that the object goes, which depends on all that `tags` has, with the value that it had. Where
    /// room was reserved the note is taken.
    pub fn note_death(&mut self, tags: TagSet, before: Value) -> Result<(), AllocError>
        requires { Covers tags (newest_tags (reverse self.old.log.notes.items)) }
        ensures ok { OnOk result
            (self.new.log.notes.items
            ≡ self.old.log.notes.items
            ++ record { tags = tags; undo = PutBack.Was (Some before) } ∷ []) }
        ensures err { OnErr result (self.new.log.notes.items ≡ self.old.log.notes.items) }
        ensures room { HasRoom self.old.log.notes → IsOk result }
    {
        self.add(tags, PutBack::Was(Some(before)))
    }

    /// Undoes the writes that depend on the guess, without memory; the room that was made stays. The
    /// value is as the last note left it.
    pub fn unwind(&mut self, value: &mut Option<Value>, guess: GuessId)
        requires { CanGoBack ObjectFits object_undone value.old (reverse self.old.log.notes.items) }
        ensures value { value.new ≡ unwound guess
            (log_of object_undone value.old self.old.log.notes.items) value.old }
        ensures log { log_of object_undone value.new self.new.log.notes.items
            ≡ cut guess (log_of object_undone value.old self.old.log.notes.items) }
        ensures can { CanGoBack ObjectFits object_undone value.new
            (reverse self.new.log.notes.items) }
        ensures room { HasRoom self.old.log.notes → HasRoom self.new.log.notes }
    {
        self.log.unwind(value, guess);
    }

    /// Takes a guess out of all notes, and drops those that then depend on nothing, without memory; the
    /// room that was made stays.
    pub fn commit(&mut self, guess: GuessId)
        ensures log { (now : Option Value)
            → log_of object_undone now self.new.log.notes.items
            ≡ committed guess (log_of object_undone now self.old.log.notes.items) }
        ensures can { (now : Option Value)
            → CanGoBack ObjectFits object_undone now (reverse self.old.log.notes.items)
            → CanGoBack ObjectFits object_undone now (reverse self.new.log.notes.items) }
        ensures room { HasRoom self.old.log.notes → HasRoom self.new.log.notes }
    {
        self.log.commit(guess);
    }
}

/// The undo log of a process, which keeps a note for each run of neighbouring writes with equal tags:
/// that of the first.
#[derive(Drop)]
pub struct ProcessLog {
    log: Log<Process>,
    untagged: Untagged,
    ghost grows: { Grows log.notes.items },
    ghost whole: { AllSet log.notes.items },
    ghost apart: { is_apart [] (runs_of log.notes.items) ≡ true },
}

impl ProcessLog {
    /// Nothing is noted.
    pub fn new(alloc: Global) -> ProcessLog
        ensures { runs_of result.log.notes.items ≡ [] }
    {
        ProcessLog {
            log: Log::new(alloc),
            untagged: Untagged::new(alloc),
        }
    }

    /// The tags of the newest run.
    pub fn tags(&self) -> &TagSet
        ensures { result.now ≡ last_tags [] (runs_of self.now.log.notes.items) }
    {
        tags_of(&self.log, &self.untagged)
    }

    /// How many runs there are.
    pub fn kept(&self) -> usize
        ensures { result ≡ length (runs_of self.now.log.notes.items) }
    {
        self.log.len()
    }

    /// Makes room for the next note.
    pub fn reserve(&mut self) -> Result<(), AllocError>
        ensures runs { runs_of self.new.log.notes.items ≡ runs_of self.old.log.notes.items }
        ensures ok { OnOk result (HasRoom self.new.log.notes) }
        ensures room { HasRoom self.old.log.notes → IsOk result }
    {
        self.log.reserve()
    }

    /// Notes a write that depends on all that `tags` has; one of the newest run wants no memory.
    fn add(&mut self, tags: TagSet, before: Option<Process>) -> Result<(), AllocError>
        requires { Covers tags (last_tags [] (runs_of self.old.log.notes.items)) }
        ensures ok { OnOk result
            (runs_of self.new.log.notes.items
            ≡ merged []
            (runs_of self.old.log.notes.items ++ record { tags = tags; before = before } ∷ [])) }
        ensures newest { OnOk result (last_tags [] (runs_of self.new.log.notes.items) ≡ tags) }
        ensures err { OnErr result
            (runs_of self.new.log.notes.items ≡ runs_of self.old.log.notes.items) }
        ensures room { HasRoom self.old.log.notes → IsOk result }
    {
        if self.log.goes_unnoted(&tags) {
            return Ok(());
        }
        self.log.reserve()?;
        self.log.note_reserved(tags, PutBack::Was(before));
        Ok(())
    }

    /// Notes a step of the process, which depends on all that `tags` has, with the process before it. A step of
    /// the newest run wants no memory.
    pub fn note(&mut self, tags: TagSet, before: Process) -> Result<(), AllocError>
        requires { Covers tags (last_tags [] (runs_of self.old.log.notes.items)) }
        ensures ok { OnOk result
            (runs_of self.new.log.notes.items
            ≡ merged []
            (runs_of self.old.log.notes.items
            ++ record { tags = tags; before = Some before } ∷ [])) }
        ensures newest { OnOk result (last_tags [] (runs_of self.new.log.notes.items) ≡ tags) }
        ensures err { OnErr result
            (runs_of self.new.log.notes.items ≡ runs_of self.old.log.notes.items) }
        ensures room { HasRoom self.old.log.notes → IsOk result }
    {
        self.add(tags, Some(before))
    }

    /// Notes that the process appears, which depends on all that `tags` has.
    pub fn note_birth(&mut self, tags: TagSet) -> Result<(), AllocError>
        requires { Covers tags (last_tags [] (runs_of self.old.log.notes.items)) }
        ensures ok { OnOk result
            (runs_of self.new.log.notes.items
            ≡ merged []
            (runs_of self.old.log.notes.items ++ record { tags = tags; before = None } ∷ [])) }
        ensures newest { OnOk result (last_tags [] (runs_of self.new.log.notes.items) ≡ tags) }
        ensures err { OnErr result
            (runs_of self.new.log.notes.items ≡ runs_of self.old.log.notes.items) }
        ensures room { HasRoom self.old.log.notes → IsOk result }
    {
        self.add(tags, None)
    }

    /// Puts back what was there before the first run that depends on the guess, and forgets that run and those
    /// after it, without memory; the room that was made stays.
    pub fn unwind(&mut self, value: &mut Option<Process>, guess: GuessId)
        ensures value { value.new ≡ unwound guess (runs_of self.old.log.notes.items) value.old }
        ensures runs { runs_of self.new.log.notes.items
            ≡ cut guess (runs_of self.old.log.notes.items) }
        ensures room { HasRoom self.old.log.notes → HasRoom self.new.log.notes }
    {
        self.log.unwind(value, guess);
    }

    /// Takes a guess out of all tags, drops the runs that then depend on nothing, and joins those whose tags
    /// became equal, without memory; the room that was made stays.
    pub fn commit(&mut self, guess: GuessId)
        ensures runs { runs_of self.new.log.notes.items
            ≡ merged [] (committed guess (runs_of self.old.log.notes.items)) }
        ensures room { HasRoom self.old.log.notes → HasRoom self.new.log.notes }
    {
        self.log.commit(guess);
        self.log.join(0);
    }
}
