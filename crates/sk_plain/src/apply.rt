//! Doing what was planned, where things stand. Nothing here knows of instructions.
ghost use Rattle.std.specs.Prelude.{◌≡◌, ◌≢◌, ◌≤◌, ◌+◌, ◌<◌, ◌^◌, true, OnOk, OnErr, Some, None, [], length};
ghost use Rattle.sk_plain.specs.Base.{Proc, Sig, Exit, Obj, Copy, empty_of, LAST_VERSION, moved, said_to, input_in};
ghost use Rattle.sk_plain.specs.Base.{became, process_in, IsProcess};
ghost use Rattle.sk_changes.specs.declared.change.Change.TheVariants as changes;
ghost use Rattle.sk_objects.specs.declared.value.Value.TheVariants as values;
ghost use Rattle.sk_store.specs.declared.entity_state.EntityState.TheVariants as stored;
ghost use Rattle.sk_store.specs.Changed.{FitsAt, changed as changed_there};
ghost use Rattle.sk_store.specs.Processes.{CanBecome as CanBecomeThere};
ghost use Rattle.sk_plain.specs.Files.{after_read, file_in};
ghost use Rattle.sk_plain.specs.Rows.{answered};
ghost use Rattle.sk_plain.specs.Planned.{child_of, said_by, texts_after, writes_of, wrote_all};
ghost use Rattle.sk_plain.specs.Seen.{CanPerform, HasContent, content_in, process_given, text_in, seen_with};
ghost use Rattle.sk_plain.specs.Writing.{CanAct, CanFork, CanMove, CanWrite, CanWriteOne, HasBecome, HasDone, HasSpoken, HasWritten, acted, forked, wrote_birth, wrote_both, wrote_one};

use crate::becomes::{Doing, FileReading, Filling, Forking, Measuring, Reading, read_there};
use crate::{Becomes, Beside, Errno, InputRef, Looks, Plan, ProcessChange, Row, Writes};
use sk_changes::Change;
use sk_ids::{Entity, Name, ObjId, Pid, Text};
use sk_objects::{Content, Kind, Value};
use sk_script::{Process, Register, Scripts, Val};
use sk_store::{Becoming, EntityState, Keeper, Look};
use sk_terminal::Terminals;
use std::alloc::AllocError;

/// The process of a number, which is there.
fn process_at<K: Look>(keeper: &K, pid: Pid) -> &Process
    requires { IsProcess (K.look keeper.now (Proc pid)) }
    ensures { result.now ≡ process_in (K.look keeper.now (Proc pid)) }
{
    match keeper.value(Entity::Proc(pid)) {
        Some(EntityState::Process(held)) => held.process(),
        _ => unreachable!(),
    }
}

/// Reads the bytes that a process reads of the entity that it looks at into a text.
fn read<K: Look>(keeper: &K, looks: &Looks, from: u64, count: u32, text: &mut Text)
    ensures { text.new ≡ text_in (K.look keeper.now) looks.now from count }
{
    match looks {
        Looks::At(entity) => read_there(keeper.value(*entity), from, count, text),
        Looks::Nowhere | Looks::AtName(..) => text.set(&[]),
    }
}

/// A version of a content whose bytes are a process's buffer.
fn version_of<K: Look>(keeper: &K, pid: Pid, version: u64) -> Content
    requires there { IsProcess (K.look keeper.now (Proc pid)) }
    requires version { version ≤ LAST_VERSION }
    ensures { result ≡ record
        { version = version; bytes = (process_in (K.look keeper.now (Proc pid))).buffer } }
{
    match Content::new(version, process_at(keeper, pid).buffer) {
        Some(content) => content,
        None => unreachable!(),
    }
}

/// A value of a kind with nothing in it.
#[inline(never)]
fn write_empty<K: Keeper>(keeper: &mut K, entity: Entity, kind: Kind) -> Result<K::Back, AllocError>
    requires { kind ≢ Kind.Link }
    ensures { HasWritten K.can_take_back K.taken_back result keeper.old keeper.new
        (K.wrote keeper.old entity (Some (stored.Value (empty_of kind)))) }
{
    let value = Value::empty(keeper.memory(), kind)?;
    keeper.write(entity, EntityState::Value(value))
}

/// The first version of a cached copy.
#[inline(never)]
fn write_first<K: Keeper>(keeper: &mut K, pid: Pid, entity: Entity) -> Result<K::Back, AllocError>
    requires { IsProcess (K.look keeper.old (Proc pid)) }
    ensures { HasWritten K.can_take_back K.taken_back result keeper.old keeper.new
        (K.wrote keeper.old entity (Some (stored.Value (values.Copy
        (record { version = 1; bytes = (process_in (K.look keeper.old (Proc pid))).buffer }))))) }
{
    let content = version_of(keeper, pid, 1);
    let copy = EntityState::content(keeper.memory(), content)?;
    keeper.write(entity, copy)
}

/// A name of an object.
#[inline(never)]
fn write_link<K: Keeper>(
    keeper: &mut K,
    entity: Entity,
    object: &ObjId,
) -> Result<K::Back, AllocError>
    ensures { HasWritten K.can_take_back K.taken_back result keeper.old keeper.new
        (K.wrote keeper.old entity (Some (stored.Value (values.Link object.now)))) }
{
    keeper.write(entity, EntityState::Value(Value::link(*object)))
}

/// An entity becomes this, whatever it is. Without memory nothing has changed.
#[inline(never)]
fn write_any<K: Keeper>(
    keeper: &mut K,
    pid: Pid,
    entity: Entity,
    writes: &Writes,
) -> Result<K::Back, AllocError>
    requires { CanWriteOne (K.look keeper.old) pid entity writes.now }
    ensures { HasWritten K.can_take_back K.taken_back result keeper.old keeper.new
        (wrote_one K.wrote K.look pid entity writes.now keeper.old) }
{
    let change = match writes {
        Writes::Empty(kind) => return write_empty(keeper, entity, *kind),
        Writes::Exited(status) => {
            return keeper.write(entity, EntityState::Value(Value::Exit(Some(*status))));
        }
        Writes::Linked(object) => return write_link(keeper, entity, object),
        Writes::First => return write_first(keeper, pid, entity),
        Writes::Over(version) => Change::SetCopy(version_of(keeper, pid, *version)),
        Writes::Cut(size) => Change::CutTo(*size),
        Writes::Put => Change::Put(process_at(keeper, pid).buffer),
        Writes::Take(count) => Change::Take(*count),
        Writes::Shut => Change::Shut,
        Writes::Signal(signal) => Change::PushSignal(*signal),
        Writes::TakeSignal => Change::TakeSignal,
    };
    keeper.change(entity, change)
}

/// An entity becomes this. Without memory nothing has changed. What is frequent stands by itself, so that it has no
/// place of a whole change in its frame.
fn write_one<K: Keeper>(
    keeper: &mut K,
    pid: Pid,
    entity: Entity,
    writes: &Writes,
) -> Result<K::Back, AllocError>
    requires { CanWriteOne (K.look keeper.old) pid entity writes.now }
    ensures { HasWritten K.can_take_back K.taken_back result keeper.old keeper.new
        (wrote_one K.wrote K.look pid entity writes.now keeper.old) }
{
    match writes {
        Writes::Empty(kind) => write_empty(keeper, entity, *kind),
        Writes::Linked(object) => write_link(keeper, entity, object),
        _ => write_any(keeper, pid, entity, writes),
    }
}

/// Goes on from a write with the last one, that of the process. Where that wants memory the first is
/// taken back.
fn write_last<K: Keeper, C: Becoming>(
    keeper: &mut K,
    back: K::Back,
    pid: Pid,
    by: &C,
) -> Result<(), AllocError>
    requires can { CanBecomeThere (C.can by.now) (K.look keeper.old (Proc pid)) }
    requires back { K.can_take_back keeper.old back }
    ensures ok { OnOk result (keeper.new ≡ K.wrote keeper.old (Proc pid)
        (Some (became (C.after by.now) (K.look keeper.old (Proc pid))))) }
    ensures err { OnErr result (keeper.new ≡ K.taken_back keeper.old back) }
{
    if keeper.change_process(pid, by).is_err() {
        keeper.take_back(back);
        return Err(AllocError);
    }
    Ok(())
}

/// A process as it becomes.
fn changed<C: Becoming>(process: &Process, by: &C) -> Process
    requires { C.can by.now process.now }
    ensures { result ≡ C.after by.now process.now }
{
    let mut process = *process;
    by.change(&mut process);
    process
}

/// The process, of which something is noted, and then an entity is made absent. Where that wants memory the
/// process is taken back.
#[inline(never)]
fn write_noted_gone<K: Keeper, C: Becoming>(
    keeper: &mut K,
    pid: Pid,
    entity: Entity,
    by: &C,
) -> Result<(), AllocError>
    requires { CanBecomeThere (C.can by.now) (K.look keeper.old (Proc pid)) }
    ensures { HasDone result keeper.old keeper.new (wrote_both K.wrote K.look pid (C.after by.now)
        (Beside.Gone entity)) }
{
    let process = changed(process_at(keeper, pid), by);
    let process = EntityState::process(keeper.memory(), process)?;
    let back = keeper.write(Entity::Proc(pid), process)?;
    if keeper.remove(entity).is_err() {
        keeper.take_back(back);
        return Err(AllocError);
    }
    Ok(())
}

/// The process, and then an entity is made absent. Without memory nothing has changed.
#[tactic(auto, using(crate::proofs::Others::apart_from))]
fn write_gone<K: Keeper, C: Becoming>(
    keeper: &mut K,
    pid: Pid,
    entity: &Entity,
    by: &C,
) -> Result<(), AllocError>
    requires { CanWrite (K.look keeper.old) pid (C.can by.now) (Beside.Gone entity.now) }
    ensures { HasDone result keeper.old keeper.new (wrote_both K.wrote K.look pid (C.after by.now)
        (Beside.Gone entity.now)) }
{
    if keeper.goes_unnoted(pid) {
        return keeper.remove_beside(entity, pid, by);
    }
    write_noted_gone(keeper, pid, *entity, by)
}

/// An entity becomes this, and then the process changes. Where that wants memory the first write is taken back.
#[inline(never)]
fn write_apart<K: Keeper, C: Becoming>(
    keeper: &mut K,
    pid: Pid,
    entity: &Entity,
    writes: &Writes,
    by: &C,
) -> Result<(), AllocError>
    requires { CanWrite (K.look keeper.old) pid (C.can by.now) (Beside.One entity.now writes.now) }
    ensures { HasDone result keeper.old keeper.new (wrote_both K.wrote K.look pid (C.after by.now)
        (Beside.One entity.now writes.now)) }
{
    let back = write_one(keeper, pid, *entity, writes)?;
    write_last(keeper, back, pid, by)
}

/// A name of an object, and then the process changes.
#[inline(never)]
fn link_apart<K: Keeper, C: Becoming>(
    keeper: &mut K,
    pid: Pid,
    entity: &Entity,
    object: &ObjId,
    by: &C,
) -> Result<(), AllocError>
    requires { CanWrite (K.look keeper.old) pid (C.can by.now)
        (Beside.One entity.now (Writes.Linked object.now)) }
    ensures { HasDone result keeper.old keeper.new (wrote_both K.wrote K.look pid (C.after by.now)
        (Beside.One entity.now (Writes.Linked object.now))) }
{
    let name = EntityState::Value(Value::link(*object));
    let back = keeper.write(*entity, name)?;
    write_last(keeper, back, pid, by)
}

/// A value of a kind with nothing in it, and then the process changes.
#[inline(never)]
fn make_apart<K: Keeper, C: Becoming>(
    keeper: &mut K,
    pid: Pid,
    entity: &Entity,
    kind: Kind,
    by: &C,
) -> Result<(), AllocError>
    requires { CanWrite (K.look keeper.old) pid (C.can by.now)
        (Beside.One entity.now (Writes.Empty kind)) }
    ensures { HasDone result keeper.old keeper.new (wrote_both K.wrote K.look pid (C.after by.now)
        (Beside.One entity.now (Writes.Empty kind))) }
{
    let value = Value::empty(keeper.memory(), kind)?;
    let back = keeper.write(*entity, EntityState::Value(value))?;
    write_last(keeper, back, pid, by)
}

/// A name of an object, and then the process changes. Where nothing is noted of the process, nothing is kept that takes
/// the name back.
#[inline(never)]
#[tactic(auto, using(crate::proofs::Others::apart_from))]
fn link_beside<K: Keeper, C: Becoming>(
    keeper: &mut K,
    pid: Pid,
    entity: &Entity,
    object: &ObjId,
    by: &C,
) -> Result<(), AllocError>
    requires { CanWrite (K.look keeper.old) pid (C.can by.now)
        (Beside.One entity.now (Writes.Linked object.now)) }
    ensures { HasDone result keeper.old keeper.new (wrote_both K.wrote K.look pid (C.after by.now)
        (Beside.One entity.now (Writes.Linked object.now))) }
{
    if keeper.goes_unnoted(pid) {
        let name = EntityState::Value(Value::link(*object));
        return keeper.write_beside(entity, name, pid, by);
    }
    link_apart(keeper, pid, entity, object, by)
}

/// A new value of a kind, with nothing in it, and then the process changes. Nothing is kept that takes the value back where
/// nothing is noted of the process.
#[inline(never)]
#[tactic(auto, using(crate::proofs::Others::apart_from))]
fn make_beside<K: Keeper, C: Becoming>(
    keeper: &mut K,
    pid: Pid,
    entity: &Entity,
    kind: Kind,
    by: &C,
) -> Result<(), AllocError>
    requires { CanWrite (K.look keeper.old) pid (C.can by.now)
        (Beside.One entity.now (Writes.Empty kind)) }
    ensures { HasDone result keeper.old keeper.new (wrote_both K.wrote K.look pid (C.after by.now)
        (Beside.One entity.now (Writes.Empty kind))) }
{
    if keeper.goes_unnoted(pid) {
        let value = EntityState::Value(Value::empty(keeper.memory(), kind)?);
        return keeper.write_beside(entity, value, pid, by);
    }
    make_apart(keeper, pid, entity, kind, by)
}

/// The buffer of a process, to be put at an end.
#[inline]
fn buffer_behind(process: &Process) -> Change
    ensures { result ≡ changes.Put process.now.buffer }
{
    Change::Put(process.buffer)
}

/// The process's buffer is put at the end of a pipe, and then the process changes. Where nothing is noted of the process,
/// nothing is kept that takes the write of the pipe back.
#[tactic(auto, using(crate::proofs::Others::apart_from))]
fn write_behind<K: Keeper, C: Becoming>(
    keeper: &mut K,
    pid: Pid,
    entity: &Entity,
    by: &C,
) -> Result<(), AllocError>
    requires { CanWrite (K.look keeper.old) pid (C.can by.now) (Beside.One entity.now Writes.Put) }
    ensures { HasDone result keeper.old keeper.new (wrote_both K.wrote K.look pid (C.after by.now)
        (Beside.One entity.now Writes.Put)) }
{
    let Some(process) = keeper.unnoted(pid) else {
        return write_apart(keeper, pid, entity, &Writes::Put, by);
    };
    let change = buffer_behind(process);
    keeper.change_both(entity, &change, pid, by)
}

/// So many bytes are taken from the front of a pipe, and then the process changes.
#[tactic(auto, using(crate::proofs::Others::apart_from))]
fn take_off<K: Keeper, C: Becoming>(
    keeper: &mut K,
    pid: Pid,
    entity: &Entity,
    count: u32,
    by: &C,
) -> Result<(), AllocError>
    requires { CanWrite (K.look keeper.old) pid (C.can by.now)
        (Beside.One entity.now (Writes.Take count)) }
    ensures { HasDone result keeper.old keeper.new (wrote_both K.wrote K.look pid (C.after by.now)
        (Beside.One entity.now (Writes.Take count))) }
{
    if !keeper.goes_unnoted(pid) {
        return write_apart(keeper, pid, entity, &Writes::Take(count), by);
    }
    let change = Change::Take(count);
    keeper.change_both(entity, &change, pid, by)
}

/// An entity becomes this, and then the process changes. Without memory nothing has changed.
fn write_both<K: Keeper, C: Becoming>(
    keeper: &mut K,
    pid: Pid,
    entity: &Entity,
    writes: &Writes,
    by: &C,
) -> Result<(), AllocError>
    requires { CanWrite (K.look keeper.old) pid (C.can by.now) (Beside.One entity.now writes.now) }
    ensures { HasDone result keeper.old keeper.new (wrote_both K.wrote K.look pid (C.after by.now)
        (Beside.One entity.now writes.now)) }
{
    match writes {
        Writes::Put => write_behind(keeper, pid, entity, by),
        Writes::Take(count) => take_off(keeper, pid, entity, *count, by),
        Writes::Linked(object) => link_beside(keeper, pid, entity, object, by),
        Writes::Empty(kind) => make_beside(keeper, pid, entity, *kind, by),
        _ => write_apart(keeper, pid, entity, writes, by),
    }
}

/// What a row writes beside its process, with the process: it is last, or before what is made absent.
fn write_beside<K: Keeper, C: Becoming>(
    keeper: &mut K,
    pid: Pid,
    beside: &Beside,
    by: &C,
) -> Result<(), AllocError>
    requires { CanWrite (K.look keeper.old) pid (C.can by.now) beside.now }
    ensures { HasDone result keeper.old keeper.new (wrote_both K.wrote K.look pid (C.after by.now)
        beside.now) }
{
    match beside {
        Beside::Nothing => keeper.change_process(pid, by),
        Beside::One(entity, writes) => write_both(keeper, pid, entity, writes, by),
        Beside::Gone(entity) => write_gone(keeper, pid, entity, by),
    }
}

/// A row that fills the process's buffer, from whatever there is. It stands by itself, so that the frequent one has no place
/// of a text in its frame.
#[inline(never)]
fn fill_any<K: Keeper>(
    keeper: &mut K,
    pid: Pid,
    row: &Row,
    from: u64,
    count: u32,
    number: Option<u64>,
) -> Result<(), AllocError>
    requires fills { row.now.change ≡ ProcessChange.Fills from count number }
    requires can { CanAct (K.look keeper.old) pid row.now }
    ensures { HasDone result keeper.old keeper.new (acted K.wrote K.look pid row.now) }
{
    let mut text = Text::empty();
    read(keeper, &row.looks, from, count, &mut text);
    let number = number.unwrap_or(text.len() as u64);
    let filling = Filling {
        text: &text,
        number,
    };
    write_beside(keeper, pid, &row.beside, &filling)
}

/// A row that fills the process's buffer. What an object or a copy has is read where it stands.
fn fill<K: Keeper>(
    keeper: &mut K,
    pid: Pid,
    row: &Row,
    from: u64,
    count: u32,
    number: Option<u64>,
) -> Result<(), AllocError>
    requires fills { row.now.change ≡ ProcessChange.Fills from count number }
    requires can { CanAct (K.look keeper.old) pid row.now }
    ensures { HasDone result keeper.old keeper.new (acted K.wrote K.look pid row.now) }
{
    match (&row.looks, &row.beside) {
        (Looks::At(entity @ (Entity::Obj(_) | Entity::Copy(_))), Beside::Nothing) => {
            let reading = Reading {
                from,
                count,
                number,
            };
            keeper.change_by(pid, entity, &reading)
        }
        _ => fill_any(keeper, pid, row, from, count, number),
    }
}

/// A row, as it was planned.
#[inline(never)]
fn act<K: Keeper>(keeper: &mut K, pid: Pid, row: &Row) -> Result<(), AllocError>
    requires { CanAct (K.look keeper.old) pid row.now }
    ensures { HasDone result keeper.old keeper.new (acted K.wrote K.look pid row.now) }
{
    match &row.change {
        ProcessChange::Does(becomes) => write_beside(keeper, pid, &row.beside, becomes),
        ProcessChange::Fills {
            from,
            count,
            number,
        } => fill(keeper, pid, row, *from, *count, *number),
    }
}

/// What an object has is read from a place on, where it is a file.
#[inline(always)]
fn read_file<K: Keeper>(
    keeper: &mut K,
    pid: Pid,
    object: &ObjId,
    from: Option<u64>,
) -> Result<(), AllocError>
    requires { CanMove (K.look keeper.old) pid }
    ensures { HasBecome result keeper.old keeper.new (K.wrote keeper.old (Proc pid) (Some
        (stored.Process (after_read (process_in (K.look keeper.old (Proc pid))) (file_in
        (K.look keeper.old (Obj object.now))) from)))) }
{
    keeper.change_by(pid, &Entity::Obj(*object), &FileReading { from })
}

/// A process's buffer is written at a place of a file, and the process goes on.
#[inline(always)]
fn write_file<K: Keeper>(
    keeper: &mut K,
    pid: Pid,
    object: &ObjId,
    at: u32,
) -> Result<(), AllocError>
    requires can { CanMove (K.look keeper.old) pid }
    requires fits { FitsAt (K.look keeper.old (Obj object.now))
        (changes.WriteAt at (process_in (K.look keeper.old (Proc pid))).buffer) }
    ensures { HasBecome result keeper.old keeper.new (K.wrote (K.wrote keeper.old (Obj object.now)
        (Some (changed_there (K.look keeper.old (Obj object.now)) (changes.WriteAt at (process_in
        (K.look keeper.old (Proc pid))).buffer)))) (Proc pid) (Some (stored.Process (answered
        (process_in (K.look keeper.old (Proc pid))) (length (process_in (K.look keeper.old
        (Proc pid))).buffer))))) }
{
    keeper.write_buffer(object, at, pid, &Measuring)
}

/// A content becomes a copy, and then what becomes of the process.
fn write_copy<K: Keeper, C: Becoming>(
    keeper: &mut K,
    pid: Pid,
    name: &Name,
    content: &Content,
    by: &C,
) -> Result<(), AllocError>
    requires { CanBecomeThere (C.can by.now) (K.look keeper.old (Proc pid)) }
    ensures ok { OnOk result (keeper.new ≡ K.wrote (K.wrote keeper.old (Copy name.now)
        (Some (stored.Value (values.Copy content.now)))) (Proc pid)
        (Some (became (C.after by.now) (K.look keeper.old (Proc pid))))) }
    ensures err { OnErr result (keeper.new ≡ keeper.old) }
{
    let copy = EntityState::content(keeper.memory(), *content)?;
    let back = keeper.write(Entity::Copy(*name), copy)?;
    write_last(keeper, back, pid, by)
}

/// The content of an input becomes the copy of a name, and is fetched, or told as an error.
#[inline(never)]
fn receive<K: Keeper>(
    keeper: &mut K,
    pid: Pid,
    name: &Name,
    input: InputRef<'_>,
) -> Result<(), AllocError>
    requires can { CanMove (K.look keeper.old) pid }
    requires content { HasContent (input_in input) }
    ensures { HasBecome result keeper.old keeper.new (K.wrote (K.wrote keeper.old (Copy name.now)
        (Some (stored.Value (values.Copy (content_in (input_in input.entry)))))) (Proc pid) (Some
        (stored.Process (process_given (process_in (K.look keeper.old (Proc pid)))
        (input_in input.entry))))) }
{
    match input {
        InputRef::Fresh(content) => {
            content.known();
            let filling = Filling {
                text: content.text(),
                number: content.version(),
            };
            write_copy(keeper, pid, name, content, &filling)
        }
        InputRef::Stale(content) => {
            let error = Val::Num(Errno::StaleCopy.answer());
            let failed = Becomes::Gives(Register::ANSWER, error);
            write_copy(keeper, pid, name, content, &failed)
        }
        InputRef::None | InputRef::Good => unreachable!(),
    }
}

/// A child of a process.
fn child_of(process: &Process, child: Pid, place: u32) -> Process
    ensures { result ≡ child_of process.now
        (record { pid = child; place = place; registers = process.now.registers }) }
{
    Process {
        pid: child,
        place,
        children: 0,
        objects: 0,
        saved: None,
        ended: false,
        ..*process
    }
}

/// A child's exit slot, and then its parent.
fn write_child_slot<K: Keeper>(keeper: &mut K, pid: Pid, by: &Forking) -> Result<(), AllocError>
    requires { CanBecomeThere (CanFork by.now) (K.look keeper.old (Proc pid)) }
    ensures ok { OnOk result (keeper.new ≡ K.wrote (K.wrote keeper.old (Exit by.now.child)
        (Some (stored.Value (values.Exit None)))) (Proc pid)
        (Some (became (forked by.now) (K.look keeper.old (Proc pid))))) }
    ensures err { OnErr result (keeper.new ≡ keeper.old) }
{
    let back = keeper.write(
        Entity::Exit(by.child),
        EntityState::Value(Value::Exit(None)),
    )?;
    write_last(keeper, back, pid, by)
}

/// A child's queue of signals, and then the rest.
fn write_child_queue<K: Keeper>(keeper: &mut K, pid: Pid, by: &Forking) -> Result<(), AllocError>
    requires { CanBecomeThere (CanFork by.now) (K.look keeper.old (Proc pid)) }
    ensures ok { OnOk result (keeper.new ≡ K.wrote (K.wrote
        (K.wrote keeper.old (Sig by.now.child) (Some (stored.Value (values.Signals []))))
        (Exit by.now.child) (Some (stored.Value (values.Exit None)))) (Proc pid)
        (Some (became (forked by.now) (K.look keeper.old (Proc pid))))) }
    ensures err { OnErr result (keeper.new ≡ keeper.old) }
{
    let queue = Value::empty(keeper.memory(), Kind::Signals)?;
    let back = keeper.write(Entity::Sig(by.child), EntityState::Value(queue))?;
    if write_child_slot(keeper, pid, by).is_err() {
        keeper.take_back(back);
        return Err(AllocError);
    }
    Ok(())
}

/// A child, and then its parent.
#[inline(never)]
fn bear<K: Keeper>(keeper: &mut K, pid: Pid, by: &Forking, place: u32) -> Result<(), AllocError>
    requires can { CanBecomeThere (CanFork by.now) (K.look keeper.old (Proc pid)) }
    requires apart { pid < by.now.child }
    ensures ok { OnOk result (keeper.new ≡ wrote_birth K.wrote K.look pid by.now place keeper.old) }
    ensures err { OnErr result (keeper.new ≡ keeper.old) }
{
    let first = child_of(process_at(keeper, pid), by.child, place);
    let child = EntityState::process(keeper.memory(), first)?;
    let back = keeper.write(Entity::Proc(by.child), child)?;
    if write_child_queue(keeper, pid, by).is_err() {
        keeper.take_back(back);
        return Err(AllocError);
    }
    Ok(())
}

/// Writes what was planned for the next step of a process, and says nothing. Without memory nothing
/// has changed.
pub fn apply_plan<K: Keeper>(
    keeper: &mut K,
    scripts: &Scripts,
    pid: Pid,
    input: InputRef<'_>,
    plan: &Plan,
) -> Result<(), AllocError>
    requires { CanPerform (K.look keeper.old) scripts.now pid (input_in input) plan.now }
    ensures ok { OnOk result
        (keeper.new
        ≡ wrote_all K.wrote
        (writes_of (K.look keeper.old) pid
        (seen_with (K.look keeper.old) scripts.now pid (input_in input.entry) plan.now))
        keeper.old) }
    ensures err { OnErr result (keeper.new ≡ keeper.old) }
{
    match plan {
        Plan::Private => keeper.change_process(pid, &Doing { scripts }),
        Plan::Speaks => keeper.change_process(pid, &Becomes::Moves),
        Plan::ReadsFile(object, from) => read_file(keeper, pid, object, *from),
        Plan::WritesFile(object, at) => write_file(keeper, pid, object, *at),
        Plan::Received(name) => receive(keeper, pid, name, input),
        Plan::Forks(register, child, place) => {
            let forking = Forking {
                register: *register,
                child: *child,
            };
            bear(keeper, pid, &forking, *place)
        }
        Plan::Acts(row) => act(keeper, pid, row),
    }
}

/// A process as it is after it spoke.
fn spoken(process: &Process) -> Process
    requires { process.now.place + 1 < 2 ^ 32 }
    ensures { result ≡ moved process.now }
{
    Process {
        place: process.place + 1,
        ..*process
    }
}

/// Writes a process, and says its buffer to its terminal.
fn speak<K: Keeper>(
    keeper: &mut K,
    terminals: &mut Terminals,
    pid: Pid,
    process: &Process,
) -> Result<(), AllocError>
    ensures writes { HasBecome result keeper.old keeper.new
        (K.wrote keeper.old (Proc pid) (Some (stored.Process process.now))) }
    ensures says { HasBecome result terminals.old terminals.new
        (said_to terminals.old process.now.terminal (process.now.buffer, K.step_tags keeper.old)) }
{
    let tags = keeper.step_tags()?;
    let spoken = EntityState::process(keeper.memory(), *process)?;
    let back = keeper.write(Entity::Proc(pid), spoken)?;
    if terminals
        .say(process.terminal, &process.buffer, tags)
        .is_err()
    {
        keeper.take_back(back);
        return Err(AllocError);
    }
    Ok(())
}

/// A process says its buffer to its terminal, and goes on where it stands: nothing is noted of it.
fn say_unnoted<K: Keeper>(
    keeper: &mut K,
    terminals: &mut Terminals,
    pid: Pid,
) -> Result<(), AllocError>
    requires unnoted { K.goes_unnoted keeper.old pid ≡ true }
    requires can { CanMove (K.look keeper.old) pid }
    ensures { HasSpoken K.wrote K.look pid (K.step_tags keeper.old) result keeper.old keeper.new
        terminals.old terminals.new }
{
    let tags = keeper.step_tags()?;
    let process = process_at(keeper, pid);
    terminals.say(process.terminal, &process.buffer, tags)?;
    keeper.become_unnoted(pid, &Becomes::Moves);
    Ok(())
}

/// A process goes on, and says its buffer to its terminal.
#[inline(never)]
fn say_buffer<K: Keeper>(
    keeper: &mut K,
    terminals: &mut Terminals,
    pid: Pid,
) -> Result<(), AllocError>
    requires { CanMove (K.look keeper.old) pid }
    ensures { HasSpoken K.wrote K.look pid (K.step_tags keeper.old) result keeper.old keeper.new
        terminals.old terminals.new }
{
    if keeper.goes_unnoted(pid) {
        return say_unnoted(keeper, terminals, pid);
    }
    let process = spoken(process_at(keeper, pid));
    speak(keeper, terminals, pid, &process)
}

/// Performs any plan. It stands by itself, so that the frequent one has no place in its frame.
#[inline(never)]
fn perform_any<K: Keeper>(
    keeper: &mut K,
    terminals: &mut Terminals,
    scripts: &Scripts,
    pid: Pid,
    input: InputRef<'_>,
    plan: &Plan,
) -> Result<(), AllocError>
    requires { CanPerform (K.look keeper.old) scripts.now pid (input_in input) plan.now }
    ensures writes { HasBecome result keeper.old keeper.new (wrote_all K.wrote (writes_of
        (K.look keeper.old) pid (seen_with (K.look keeper.old) scripts.now pid
        (input_in input.entry) plan.now)) keeper.old) }
    ensures says { HasBecome result terminals.old terminals.new
        (texts_after terminals.old (K.step_tags keeper.old)
        (said_by (seen_with (K.look keeper.old) scripts.now pid (input_in input.entry) plan.now))) }
{
    let Plan::Speaks = plan else {
        return apply_plan(keeper, scripts, pid, input, plan);
    };
    say_buffer(keeper, terminals, pid)
}

/// Performs what was planned for the next step of a process: its writes, and the text that it says,
/// which depends on what the step depends on. Without memory nothing has changed.
#[inline(always)]
#[tactic(auto, using(crate::proofs::Plans::row_quiet))]
pub fn perform_plan<K: Keeper>(
    keeper: &mut K,
    terminals: &mut Terminals,
    scripts: &Scripts,
    pid: Pid,
    input: InputRef<'_>,
    plan: &Plan,
) -> Result<(), AllocError>
    requires { CanPerform (K.look keeper.old) scripts.now pid (input_in input) plan.now }
    ensures writes { OnOk result
        (keeper.new
        ≡ wrote_all K.wrote
        (writes_of (K.look keeper.old) pid
        (seen_with (K.look keeper.old) scripts.now pid (input_in input.entry) plan.now))
        keeper.old) }
    ensures says { OnOk result
        (terminals.new
        ≡ texts_after terminals.old (K.step_tags keeper.old)
        (said_by (seen_with (K.look keeper.old) scripts.now pid (input_in input.entry) plan.now))) }
    ensures unwritten { OnErr result (keeper.new ≡ keeper.old) }
    ensures unsaid { OnErr result (terminals.new ≡ terminals.old) }
{
    match plan {
        Plan::Acts(
            Row {
                change: ProcessChange::Does(what),
                beside: Beside::Nothing,
                ..
            },
        ) => keeper.change_process(pid, what),
        Plan::Acts(row) => act(keeper, pid, row),
        Plan::ReadsFile(object, from) => read_file(keeper, pid, object, *from),
        Plan::WritesFile(object, at) => write_file(keeper, pid, object, *at),
        Plan::Private | Plan::Speaks | Plan::Received(_) | Plan::Forks(..) => {
            perform_any(keeper, terminals, scripts, pid, input, plan)
        }
    }
}
