//! The shapes that rows have.
ghost use Rattle.std.specs.Prelude.{◌≡◌, ◌<◌, ◌^◌, pos, neg_ℤ};
ghost use Rattle.sk_script.specs.declared.register.Val.TheVariants as vals;
ghost use Rattle.sk_ids.specs.declared.entity.Entity.TheVariants.{Link};
ghost use Rattle.sk_plain.specs.Refusal.{error_number};
ghost use Rattle.sk_plain.specs.Seen.{row_of};

use crate::{Becomes, Beside, Errno, Looks, ProcessChange, Row, Writes};
use sk_ids::{Entity, Name, ObjId};
use sk_script::{Register, Val};

/// The process is at its next instruction, with a value in a register.
pub(crate) fn given(register: Register, val: Val) -> ProcessChange
    ensures { result ≡ ProcessChange.Does (Becomes.Gives register val) }
{
    ProcessChange::Does(Becomes::Gives(register, val))
}

/// The process is at its next instruction, with a number in r0.
pub(crate) fn answered(number: u64) -> ProcessChange
    requires { number < 2 ^ 63 }
    ensures { result ≡ ProcessChange.Does (Becomes.Gives 0 (vals.Num (pos number))) }
{
    given(Register::ANSWER, Val::Num(number as i64))
}

/// The process is at its next instruction, with an error in r0.
pub(crate) fn failed(error: Errno) -> ProcessChange
    ensures { result ≡ ProcessChange.Does
        (Becomes.Gives 0 (vals.Num (neg_ℤ (pos (error_number error))))) }
{
    given(Register::ANSWER, Val::Num(error.answer()))
}

/// Nothing but the process is written.
pub(crate) fn alone(change: ProcessChange) -> Row
    ensures { result ≡ row_of change Looks.Nowhere Beside.Nothing }
{
    Row {
        change,
        looks: Looks::Nowhere,
        beside: Beside::Nothing,
    }
}

/// An entity is looked at, and nothing but the process is written.
pub(crate) fn looked(change: ProcessChange, entity: Entity) -> Row
    ensures { result ≡ row_of change (Looks.At entity) Beside.Nothing }
{
    Row {
        change,
        looks: Looks::At(entity),
        beside: Beside::Nothing,
    }
}

/// A name of a directory is looked at, and nothing but the process is written.
pub(crate) fn looked_up(change: ProcessChange, directory: &ObjId, name: &Name) -> Row
    ensures { result ≡ row_of change (Looks.AtName directory.now name.now) Beside.Nothing }
{
    Row {
        change,
        looks: Looks::AtName(*directory, *name),
        beside: Beside::Nothing,
    }
}

/// A name that was looked at is linked.
pub(crate) fn linked(change: ProcessChange, directory: &ObjId, name: &Name, object: &ObjId) -> Row
    ensures { result ≡ row_of change (Looks.AtName directory.now name.now)
        (Beside.One (Link directory.now name.now) (Writes.Linked object.now)) }
{
    Row {
        change,
        looks: Looks::AtName(*directory, *name),
        beside: Beside::One(Entity::Link(*directory, *name), Writes::Linked(*object)),
    }
}

/// A name that was looked at is taken out.
pub(crate) fn unlinked(change: ProcessChange, directory: &ObjId, name: &Name) -> Row
    ensures { result ≡ row_of change (Looks.AtName directory.now name.now)
        (Beside.Gone (Link directory.now name.now)) }
{
    Row {
        change,
        looks: Looks::AtName(*directory, *name),
        beside: Beside::Gone(Entity::Link(*directory, *name)),
    }
}

/// An entity that was looked at is written too.
pub(crate) fn changed(change: ProcessChange, entity: &Entity, writes: Writes) -> Row
    ensures { result ≡ row_of change (Looks.At entity.now) (Beside.One entity.now writes) }
{
    Row {
        change,
        looks: Looks::At(*entity),
        beside: Beside::One(*entity, writes),
    }
}

/// An entity is written that was not looked at.
pub(crate) fn wrote(change: ProcessChange, entity: Entity, writes: Writes) -> Row
    ensures { result ≡ row_of change Looks.Nowhere (Beside.One entity writes) }
{
    Row {
        change,
        looks: Looks::Nowhere,
        beside: Beside::One(entity, writes),
    }
}
