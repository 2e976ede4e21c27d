//! What is asked of what is at play, and the answers. Nothing changes by them.
ghost use Rattle.std.specs.Prelude.{◌≡◌, ℕ, List, Ok, IfOk, OnOk};
ghost use Rattle.sk_talk.specs.Base.{find, AllByRecursion, Appends, Entity, entity, IsEntity, KernelView, state_at};
ghost use Rattle.sk_talk.specs.Base.{held_there, gathered_at, entity_text, terminal_said, words};
ghost use Rattle.std.specs.FinMap as map;
ghost use Rattle.sk_talk.specs.Played.{kernel_of};
ghost use Rattle.sk_talk.specs.Asked.{is_named, named, present_as, value_answer, tags_answer, counts_lines, dependents_line, trace_answer, TellsCounts, TellsDependents, IsAnswer};

use crate::play::Play;
use sk_counts::{Counts, write_counts};
use sk_ids::{Entity, GuessId};
use sk_kernel::Kernel;
use sk_objects::Value;
use sk_plain::View;
use sk_questions::{Question, entity};
use sk_report::{
    PrintedEntities, PrintedEntity, PrintedTags, PrintedView, Stop, Subject, write_names,
};
use sk_words::Words;
use std::alloc::{AllocError, Global};
use std::io::Write;

/// Whether the report names an entity so.
fn is_named(alloc: Global, entity: Entity, name: &[u8]) -> Result<bool, Stop>
    ensures { IfOk result (λ is. is ≡ is_named name.now entity) }
{
    let mut text = Vec::new(alloc);
    let entity = PrintedEntity(entity);
    write!(text, "{entity}")?;
    Ok(text.as_slice() == name)
}

/// The entity that the report names so, where it is present. The name is read, and looked up.
pub fn named(alloc: Global, kernel: &Kernel, name: &[u8]) -> Result<Option<Entity>, Stop>
    ensures { IfOk result (λ found. found ≡ named kernel.now name.now) }
{
    match entity(&Words::of(name)) {
        Ok(entity) => present(alloc, kernel, entity, name),
        Err(_) => Ok(None),
    }
}

/// An entity, where it is present and the report names it so.
fn present(
    alloc: Global,
    kernel: &Kernel,
    entity: Entity,
    name: &[u8],
) -> Result<Option<Entity>, Stop>
    ensures { IfOk result (λ found.
        found ≡ present_as name.now entity (map.get (state_at kernel.now) entity)) }
{
    if kernel.value(&entity).is_none() {
        return Ok(None);
    }
    if is_named(alloc, entity, name)? {
        return Ok(Some(entity));
    }
    Ok(None)
}

/// Writes what an entity has behind its name in the report; nothing where it is absent. All entities are gone through
/// only for the names of a directory.
pub fn write_value<W: Write>(kernel: &Kernel, entity: &Entity, out: &mut W) -> Result<(), Stop>
    ensures { OnOk result (Appends (W.contents out.old) (W.contents out.new)
        (held_there (map.get (state_at kernel.now)) (map.keys (state_at kernel.now)) entity.now)) }
{
    match kernel.value(entity) {
        None => Ok(()),
        Some(View::Value(Value::Dir)) => write_directory(kernel, entity, out),
        Some(view) => {
            write!(out, "{}", PrintedView(view))?;
            Ok(())
        }
    }
}

/// Writes the names of the directory that an entity is, gathered from all entities.
fn write_directory<W: Write>(kernel: &Kernel, entity: &Entity, out: &mut W) -> Result<(), Stop>
    ensures { OnOk result (Appends (W.contents out.old) (W.contents out.new)
        (gathered_at (map.get (state_at kernel.now)) (map.keys (state_at kernel.now)) entity.now)) }
{
    let all = kernel.entries()?;
    write_names(&all, entity, out)?;
    Ok(())
}

/// The line of what an entity has.
fn value(alloc: Global, kernel: &Kernel, entity: &Entity) -> Result<Vec<u8>, Stop>
    ensures { IfOk result (λ text. text.items ≡ value_answer kernel.now entity.now) }
{
    let mut text = Vec::new(alloc);
    if kernel.value(entity).is_none() {
        text.write_all(b"absent\n")?;
        return Ok(text);
    }
    text.write_all(b"value ")?;
    write_value(kernel, entity, &mut text)?;
    text.write_all(b"\n")?;
    Ok(text)
}

/// The line of the undecided guesses that an entity depends on.
fn tags(alloc: Global, kernel: &Kernel, entity: &Entity) -> Result<Vec<u8>, Stop>
    ensures { IfOk result (λ text. text.items ≡ tags_answer kernel.now entity.now) }
{
    let mut text = Vec::new(alloc);
    let tags = PrintedTags(kernel.tags_of(entity));
    writeln!(text, "tags {tags}")?;
    Ok(text)
}

/// The line of these entities.
fn listed(alloc: Global, entities: &[Entity]) -> Result<Vec<u8>, Stop>
    ensures { IfOk result (λ text. text.items ≡ dependents_line entities.now) }
{
    let mut text = Vec::new(alloc);
    let entities = PrintedEntities(entities);
    writeln!(text, "dependents {entities}")?;
    Ok(text)
}

/// The line of the entities that depend on a guess.
fn dependents(alloc: Global, kernel: &Kernel, id: GuessId) -> Result<Vec<u8>, Stop>
    ensures { IfOk result (λ text. TellsDependents kernel.now id text.items) }
{
    let text = listed(alloc, kernel.dependents(id))?;
    Ok(text)
}

/// The lines of a terminal.
fn terminal(alloc: Global, kernel: &Kernel, number: u16) -> Result<Vec<u8>, Stop>
    ensures { IfOk result (λ text. text.items ≡ terminal_said kernel.now number) }
{
    let mut text = Vec::new(alloc);
    kernel.write_terminal(number, &mut text)?;
    Ok(text)
}

/// The line `counts`, and these counts.
fn counted(alloc: Global, counts: &Counts) -> Result<Vec<u8>, Stop>
    ensures { IfOk result (λ text. text.items ≡ counts_lines counts.now) }
{
    let mut text = Vec::new(alloc);
    text.write_all(b"counts\n")?;
    write_counts(counts, &mut text)?;
    Ok(text)
}

/// The line `counts`, and the counts of a kernel.
fn counts(alloc: Global, kernel: &Kernel) -> Result<Vec<u8>, Stop>
    ensures { IfOk result (λ text. TellsCounts kernel.now text.items) }
{
    let counts = Counts::of(alloc, kernel)?;
    let text = counted(alloc, &counts)?;
    Ok(text)
}

/// The trace, between the line `trace` and the line `end`.
fn trace(alloc: Global, kernel: &Kernel) -> Result<Vec<u8>, Stop>
    ensures { IfOk result (λ text. text.items ≡ trace_answer kernel.now) }
{
    let events = kernel.trace().print(alloc)?;
    let mut text = Vec::new(alloc);
    text.write_all(b"trace\n")?;
    text.write_all(&events)?;
    text.write_all(b"end\n")?;
    Ok(text)
}

/// The answer to a question about this kernel, which is at play.
fn answer(play: &Play, alloc: Global, kernel: &Kernel, question: &Question) -> Result<Vec<u8>, Stop>
    requires { kernel.now ≡ kernel_of play.now }
    ensures { IfOk result (λ text. IsAnswer play.now question.now text.items) }
{
    match question {
        Question::Value(entity) => value(alloc, kernel, entity),
        Question::Tags(entity) => tags(alloc, kernel, entity),
        Question::Dependents(id) => dependents(alloc, kernel, *id),
        Question::Terminal(number) => terminal(alloc, kernel, number.get()),
        Question::Counts => counts(alloc, kernel),
        Question::Trace => trace(alloc, kernel),
        Question::Report => {
            let text = play.report(alloc)?;
            Ok(text)
        }
    }
}

impl Play {
    /// The answer to a question.
    pub fn asked(&self, alloc: Global, question: &Question) -> Result<Vec<u8>, AllocError>
        ensures { IfOk result (λ text. IsAnswer self.now question.now text.items) }
    {
        match answer(self, alloc, self.kernel(), question) {
            Ok(text) => Ok(text),
            Err(_) => Err(AllocError),
        }
    }
}

/// Every entity that there can be is read of the text that the report names it by, which is the name of no other. So where all
/// present entities are such, the one that is read and looked up is the first of them that the report names so.
pub fn names_are_read()
    ensures again { (e : Entity) → IsEntity e → entity (words (entity_text e)) ≡ Ok e }
    ensures once { (e f : Entity) → IsEntity e → IsEntity f
        → entity_text e ≡ entity_text f → e ≡ f }
    ensures found { (k : KernelView) (name : List ℕ)
        → AllByRecursion IsEntity (map.keys (state_at k))
        → named k name ≡ find (is_named name) (map.keys (state_at k)) }
{}
