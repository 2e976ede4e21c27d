//! What a step will do, in a few words: nothing here holds a process, or bytes that stand elsewhere.
ghost use Rattle.std.specs.Prelude.{◌≡◌};
ghost use Rattle.sk_plain.specs.Adds.{adds_beside, adds_of};
ghost use Rattle.sk_plain.specs.Planned.{read_by};
ghost use Rattle.sk_trace.specs.Kept.{input_in};
ghost use Rattle.sk_plain.specs.Seen.{looked, looks_of, written_in, written_row};

use crate::{Becomes, Entities, InputRef};
use sk_ids::{Entity, Name, ObjId, Pid};
use sk_objects::Kind;
use sk_script::Register;

/// What a step looks at beside the process.
#[derive(Clone, Copy)]
pub enum Looks {
    Nowhere,
    At(Entity),
    /// A directory, and then a name of it.
    AtName(ObjId, Name),
}

/// What becomes of the process.
#[derive(Clone, Copy)]
pub enum ProcessChange {
    Does(Becomes),
    /// Up to so many bytes, at most 512, of the entity that is looked at come to its buffer, from a
    /// place on; r0 has a number, or how many bytes there are.
    Fills {
        from: u64,
        count: u32,
        number: Option<u64>,
    },
}

/// What an entity becomes. The bytes that are written are the process's buffer before the step.
#[derive(Clone, Copy)]
pub enum Writes {
    /// A value of a kind with nothing in it.
    Empty(Kind),
    /// An exit slot with a status.
    Exited(u8),
    /// The first version of a cached copy.
    First,
    /// A later version of a cached copy.
    Over(u64),
    /// A file of another size.
    Cut(u32),
    /// A name of an object.
    Linked(ObjId),
    /// A pipe with the bytes at its end.
    Put,
    /// A pipe without so many at its front.
    Take(u32),
    Shut,
    Signal(u8),
    TakeSignal,
}

/// What a step writes beside its process.
#[derive(Clone, Copy)]
pub enum Beside {
    Nothing,
    One(Entity, Writes),
    /// An entity is absent then.
    Gone(Entity),
}

/// What a row of the table does.
#[derive(Clone, Copy)]
pub struct Row {
    pub change: ProcessChange,
    pub looks: Looks,
    pub beside: Beside,
}

/// What a step will do.
#[derive(Clone, Copy)]
pub enum Plan {
    /// The next instruction, which is private.
    Private,
    /// The process says its buffer.
    Speaks,
    /// What an object has comes to the buffer, from a place on, where it is a file and there is a place.
    ReadsFile(ObjId, Option<u64>),
    /// The buffer is written at a place of a file.
    WritesFile(ObjId, u32),
    /// The content of the input becomes the copy of a name, and is fetched, or told as an error.
    Received(Name),
    /// A child is born at a place, with an empty queue of signals and an exit slot that is not set, and
    /// is in a register of its parent. It has its parent's script, registers, buffer, handler and terminal.
    Forks(Register, Pid, u32),
    Acts(Row),
}

impl Plan {
    /// Becomes that of the next instruction, which is private. Mostly it is so already, and nothing is cleared.
    #[inline(always)]
    pub(crate) fn set_private(&mut self)
        ensures { self.new ≡ Plan.Private }
    {
        if !matches!(self, Plan::Private) {
            *self = Plan::Private;
        }
    }

    /// The entities that the step reads, with this input.
    pub fn reads(&self, pid: Pid, input: InputRef<'_>) -> Entities
        ensures { result ≡ read_by pid (input_in input.entry) (looked (looks_of self.now)) }
    {
        match self {
            Plan::Acts(row) => read_entities(pid, input, &row.looks),
            Plan::ReadsFile(object, _) | Plan::WritesFile(object, _) => {
                read_entities(pid, input, &Looks::At(Entity::Obj(*object)))
            }
            Plan::Private | Plan::Speaks | Plan::Received(_) | Plan::Forks(..) => {
                read_entities(pid, input, &Looks::Nowhere)
            }
        }
    }

    /// The directory that the step adds a name to.
    pub fn adds(&self) -> Option<ObjId>
        ensures { result ≡ adds_of self.now }
    {
        match self {
            Plan::Acts(row) => added_directory(&row.beside),
            _ => None,
        }
    }

    /// The entities that the step writes.
    pub fn writes(&self, pid: Pid) -> Entities
        ensures { result ≡ written_in pid self.now }
    {
        match self {
            Plan::Private | Plan::Speaks | Plan::ReadsFile(..) => Entities::one(Entity::Proc(pid)),
            Plan::WritesFile(object, _) => {
                let mut all = Entities::one(Entity::Obj(*object));
                all.push(Entity::Proc(pid));
                all
            }
            Plan::Received(name) => {
                let mut all = Entities::one(Entity::Copy(*name));
                all.push(Entity::Proc(pid));
                all
            }
            Plan::Forks(_, child, _) => {
                let mut all = Entities::one(Entity::Proc(*child));
                all.push(Entity::Sig(*child));
                all.push(Entity::Exit(*child));
                all.push(Entity::Proc(pid));
                all
            }
            Plan::Acts(row) => written_entities(pid, &row.beside),
        }
    }
}

/// The entities that a step with this input reads.
fn read_entities(pid: Pid, input: InputRef<'_>, looks: &Looks) -> Entities
    ensures { result ≡ read_by pid (input_in input.entry) (looked looks.now) }
{
    let mut all = Entities::one(Entity::Proc(pid));
    if let InputRef::None = input {
        all.push(Entity::Sig(pid));
    }
    match looks {
        Looks::Nowhere => {}
        Looks::At(entity) => all.push(*entity),
        Looks::AtName(directory, name) => {
            all.push(Entity::Obj(*directory));
            all.push(Entity::Link(*directory, *name));
        }
    }
    all
}

/// The directory that a row adds a name to.
fn added_directory(beside: &Beside) -> Option<ObjId>
    ensures { result ≡ adds_beside beside.now }
{
    match beside {
        Beside::One(Entity::Link(directory, _), _) => Some(*directory),
        Beside::One(..) | Beside::Nothing | Beside::Gone(_) => None,
    }
}

/// The entities that a row writes.
fn written_entities(pid: Pid, beside: &Beside) -> Entities
    ensures { result ≡ written_row pid beside.now }
{
    match beside {
        Beside::Nothing => Entities::one(Entity::Proc(pid)),
        Beside::One(entity, _) => {
            let mut all = Entities::one(*entity);
            all.push(Entity::Proc(pid));
            all
        }
        Beside::Gone(entity) => {
            let mut all = Entities::one(Entity::Proc(pid));
            all.push(*entity);
            all
        }
    }
}
