//! The undo logs of an object and of a process: one note, and what two failures make of it; and the runs of a process.
ghost use Rattle.std.specs.Prelude.{◌≡◌, ◌∷◌, [], Some, None, OnOk, IfOk, reverse};
ghost use Rattle.sk_record.specs.Notes.{last_tags};
ghost use Rattle.sk_undo.specs.Kept.{object_undone, ObjectFits, runs_of};
ghost use Rattle.sk_undo.specs.Log.{CanGoBack, Covers};

use crate::start::passes;
use sk_changes::{Change, Invertible};
use sk_ids::{GuessId, TagSet, Text};
use sk_objects::{Kind, Value};
use sk_script::Process;
use sk_undo::{ObjectLog, ProcessLog};
use std::alloc::Global;
use tests_support::plain::{guess, name, pid, tag, text};
use tests_support::wrong::{Wrong, holds};

fn write(offset: u32, bytes: &[u8]) -> Result<Change, Wrong> {
    let bytes = text(bytes)?;
    Ok(Change::WriteAt { offset, bytes })
}

/// A file that has `abcdef`.
fn file(alloc: Global) -> Result<Value, Wrong> {
    let change = write(0, b"abcdef")?;
    let mut file = Value::empty(alloc, Kind::File)?;
    match file.apply(alloc, change) {
        Ok(_undo) => Ok(file),
        Err(_) => Err(Wrong::Refused),
    }
}

/// Writes to a file on guess 1, and notes it in a log that has no notes, and that has made room.
fn writes(alloc: Global, value: &mut Value, log: &mut ObjectLog) -> Result<(), Wrong>
    requires { log.old.log.notes.items ≡ [] }
    ensures { OnOk result
        (CanGoBack ObjectFits object_undone (Some value.new) (reverse log.new.log.notes.items)) }
{
    let change = write(4, b"XYZ")?;
    log.reserve()?;
    let tags = tag(alloc, 1)?;
    match value.apply(alloc, change) {
        Ok(undo) => Ok(log.note(tags, undo)?),
        Err(_) => Err(Wrong::Refused),
    }
}

/// The file after it.
fn written(alloc: Global, log: &mut ObjectLog) -> Result<Value, Wrong>
    requires { log.old.log.notes.items ≡ [] }
    ensures { IfOk result
        (λ value. CanGoBack ObjectFits object_undone (Some value)
        (reverse log.new.log.notes.items)) }
{
    let mut value = file(alloc)?;
    writes(alloc, &mut value, log)?;
    Ok(value)
}

/// The bytes of a file, where there is one.
fn bytes(value: &Option<Value>) -> Option<Text> {
    match value {
        Some(value) => value.bytes_at(0, 512),
        None => None,
    }
}

/// The failure of a guess: whether it leaves these bytes of a file.
fn unwinds(
    log: &mut ObjectLog,
    value: &mut Option<Value>,
    number: u64,
    want: &[u8],
) -> Result<bool, Wrong>
    requires { CanGoBack ObjectFits object_undone value.old (reverse log.old.log.notes.items) }
    ensures { OnOk result
        (CanGoBack ObjectFits object_undone value.new (reverse log.new.log.notes.items)) }
{
    log.unwind(value, guess(number)?);
    Ok(bytes(value) == Text::new(want))
}

/// Whether the newest note of a log depends on these guesses.
fn rests_on(log: &ObjectLog, guesses: &[GuessId]) -> bool {
    log.tags().ids() == guesses
}

/// The failure of guess 2 leaves the write on guess 1, and that of guess 1 takes it back.
fn unwinds_both(log: &mut ObjectLog, value: &mut Option<Value>) -> Result<(), Wrong>
    requires { CanGoBack ObjectFits object_undone value.old (reverse log.old.log.notes.items) }
{
    holds(0, rests_on(log, &[guess(1)?]))?;
    holds(1, unwinds(log, value, 2, b"abcdXYZ")?)?;
    holds(2, unwinds(log, value, 1, b"abcdef")?)?;
    holds(3, rests_on(log, &[]))
}

/// Both of a write in a log that has no notes.
fn unwinds_written(alloc: Global, log: &mut ObjectLog) -> Result<(), Wrong>
    requires { log.old.log.notes.items ≡ [] }
{
    let mut value = Some(written(alloc, log)?);
    unwinds_both(log, &mut value)
}

fn writes_and_unwinds(alloc: Global) -> Result<(), Wrong> {
    let mut log = ObjectLog::new(alloc);
    unwinds_written(alloc, &mut log)
}

#[test]
fn small_calls_of_an_object_log(rt: HostRuntime) {
    passes(&rt, writes_and_unwinds(rt.alloc()));
}

/// Notes on guess 1 that a file goes, in a log that has no notes.
fn goes(alloc: Global, log: &mut ObjectLog) -> Result<(), Wrong>
    requires { log.old.log.notes.items ≡ [] }
    ensures { OnOk result
        (CanGoBack ObjectFits object_undone None (reverse log.new.log.notes.items)) }
{
    log.reserve()?;
    let tags = tag(alloc, 1)?;
    let before = file(alloc)?;
    log.note_death(tags, before)?;
    Ok(())
}

/// The failure of guess 1 brings back what went.
fn comes_back(log: &mut ObjectLog, value: &mut Option<Value>) -> Result<(), Wrong>
    requires { CanGoBack ObjectFits object_undone value.old (reverse log.old.log.notes.items) }
{
    holds(0, rests_on(log, &[guess(1)?]))?;
    holds(1, unwinds(log, value, 1, b"abcdef")?)?;
    holds(2, rests_on(log, &[]))
}

/// A file goes, noted in a log that has no other notes, and comes back.
fn comes_back_when_gone(
    alloc: Global,
    log: &mut ObjectLog,
    gone: &mut Option<Value>,
) -> Result<(), Wrong>
    requires log { log.old.log.notes.items ≡ [] }
    requires gone { gone.old ≡ None }
{
    goes(alloc, log)?;
    comes_back(log, gone)
}

fn goes_and_comes_back(alloc: Global) -> Result<(), Wrong> {
    let (mut log, mut gone) = (ObjectLog::new(alloc), None);
    comes_back_when_gone(alloc, &mut log, &mut gone)
}

#[test]
fn a_death_is_taken_back(rt: HostRuntime) {
    passes(&rt, goes_and_comes_back(rt.alloc()));
}

/// A process at this place.
fn process(place: u32) -> Result<Process, Wrong> {
    Ok(Process {
        place,
        ..Process::new(pid(1)?, name(b"main")?, 1)
    })
}

/// Notes the first step of a process on guess 1 in a log that has no notes, and that has made room:
/// the process after it.
#[tactic(auto, using(crate::proofs::Covered::covers_none, crate::proofs::Covered::covers_same, crate::proofs::Covered::covers_that, crate::proofs::Covered::covered_by))]
fn stepped(alloc: Global, log: &mut ProcessLog) -> Result<Process, Wrong>
    requires { last_tags [] (runs_of log.old.log.notes.items) ≡ [] }
{
    let before = process(3)?;
    log.reserve()?;
    log.note(tag(alloc, 1)?, before)?;
    process(4)
}

/// The place of a process, where it is present.
fn place(process: &Option<Process>) -> Option<u32> {
    match process {
        Some(process) => Some(process.place),
        None => None,
    }
}

/// The failure of a guess: whether it leaves a process at this place.
fn goes_back(
    log: &mut ProcessLog,
    value: &mut Option<Process>,
    number: u64,
    want: u32,
) -> Result<bool, Wrong> {
    log.unwind(value, guess(number)?);
    Ok(place(value) == Some(want))
}

/// The failure of guess 2 leaves the step on guess 1, and that of guess 1 takes it back.
fn goes_back_twice(log: &mut ProcessLog, value: &mut Option<Process>) -> Result<(), Wrong> {
    holds(0, goes_back(log, value, 2, 4)?)?;
    holds(1, goes_back(log, value, 1, 3)?)
}

/// Both of a step in a log that has no notes.
fn goes_back_from_step(alloc: Global, log: &mut ProcessLog) -> Result<(), Wrong>
    requires { last_tags [] (runs_of log.old.log.notes.items) ≡ [] }
{
    let mut value = Some(stepped(alloc, log)?);
    goes_back_twice(log, &mut value)
}

fn steps_and_goes_back(alloc: Global) -> Result<(), Wrong> {
    let mut log = ProcessLog::new(alloc);
    goes_back_from_step(alloc, &mut log)
}

#[test]
fn small_calls_of_a_process_log(rt: HostRuntime) {
    passes(&rt, steps_and_goes_back(rt.alloc()));
}

/// The set of the guesses 1 and 2.
fn both(alloc: Global) -> Result<TagSet, Wrong>
    ensures { IfOk result (λ tags. Covers tags (1 ∷ [])) }
{
    let (first, second) = (guess(1)?, guess(2)?);
    let (one, two) = (TagSet::of(alloc, first), TagSet::of(alloc, second));
    match one.union(&two) {
        Ok(tags) => Ok(tags),
        Err(_) => Err(Wrong::Memory),
    }
}

/// Notes a step on guess 1, of a process at this place, where nothing depends on another guess.
#[tactic(auto, using(crate::proofs::Covered::covers_none, crate::proofs::Covered::covers_same, crate::proofs::Covered::covers_that, crate::proofs::Covered::covered_by))]
fn note_one(alloc: Global, log: &mut ProcessLog, at: u32) -> Result<(), Wrong>
    requires { Covers (1 ∷ []) (last_tags [] (runs_of log.old.log.notes.items)) }
    ensures { OnOk result (last_tags [] (runs_of log.new.log.notes.items) ≡ 1 ∷ []) }
{
    let before = process(at)?;
    log.note(tag(alloc, 1)?, before)?;
    Ok(())
}

/// Notes a hundred steps on guess 1, the first of a process at place 3.
#[tactic(auto, using(crate::proofs::Covered::covers_none, crate::proofs::Covered::covers_same, crate::proofs::Covered::covers_that, crate::proofs::Covered::covered_by))]
fn note_hundred(alloc: Global, log: &mut ProcessLog) -> Result<(), Wrong>
    requires { last_tags [] (runs_of log.old.log.notes.items) ≡ [] }
    ensures { OnOk result (last_tags [] (runs_of log.new.log.notes.items) ≡ 1 ∷ []) }
{
    note_one(alloc, log, 3)?;
    for at in 4..103 {
        note_one(alloc, log, at)?;
    }
    Ok(())
}

/// A step on guesses 1 and 2 behind the hundred has a run of its own, until guess 2 is committed.
#[tactic(auto, using(crate::proofs::Covered::covers_none, crate::proofs::Covered::covers_same, crate::proofs::Covered::covers_that, crate::proofs::Covered::covered_by))]
fn keeps_runs(alloc: Global, log: &mut ProcessLog) -> Result<(), Wrong>
    requires { last_tags [] (runs_of log.old.log.notes.items) ≡ [] }
{
    note_hundred(alloc, log)?;
    holds(0, log.kept() == 1)?;
    let before = process(103)?;
    log.note(both(alloc)?, before)?;
    holds(1, log.kept() == 2)?;
    log.commit(guess(2)?);
    holds(2, log.kept() == 1)
}

/// The failure of guess 1 goes back to before the first of them.
fn goes_back_from_runs(alloc: Global, log: &mut ProcessLog) -> Result<(), Wrong>
    requires { last_tags [] (runs_of log.old.log.notes.items) ≡ [] }
{
    keeps_runs(alloc, log)?;
    let mut value = Some(process(104)?);
    holds(3, goes_back(log, &mut value, 1, 3)?)
}

fn keeps_and_goes_back(alloc: Global) -> Result<(), Wrong> {
    let mut log = ProcessLog::new(alloc);
    goes_back_from_runs(alloc, &mut log)
}

#[test]
fn a_process_log_keeps_its_runs(rt: HostRuntime) {
    passes(&rt, keeps_and_goes_back(rt.alloc()));
}
