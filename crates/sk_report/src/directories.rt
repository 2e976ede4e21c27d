//! What the line of an entity says. The names of a directory are gathered from the entities that they are.
ghost use Rattle.std.specs.Prelude.{◌≡◌, ◌∷◌, OnOk, flat_map, [], Some, None};
ghost use Rattle.sk_report.specs.Base.{Appends, IsStrictlySortedBy, entity_cmp, entities_of, filter};
ghost use Rattle.sk_report.specs.Directories.{is_before, is_name_of};
ghost use Rattle.sk_report.specs.Listed.{link_said, directory_said, names_said, held_said};

use crate::{PrintedProcess, PrintedValue};
use sk_ids::{Entity, ObjId};
use sk_objects::Value;
use sk_script::words::Printed;
use sk_store::{EntityState, Present};
use std::io;
use std::io::Write;

/// Whether an entity comes before each name of a directory.
fn is_before(entity: &Entity, directory: &ObjId) -> bool
    ensures { result ≡ is_before directory.now entity.now }
{
    match entity {
        Entity::Proc(_) | Entity::Sig(_) | Entity::Exit(_) | Entity::Obj(_) => true,
        Entity::Link(other, _) => other < directory,
        Entity::Copy(_) => false,
    }
}

/// Whether an entity is a name of a directory.
fn is_name_of(entity: &Entity, directory: &ObjId) -> bool
    ensures { result ≡ is_name_of directory.now entity.now }
{
    match entity {
        Entity::Link(other, _) => other == directory,
        Entity::Proc(_) | Entity::Sig(_) | Entity::Exit(_) | Entity::Obj(_) | Entity::Copy(_) => {
            false
        }
    }
}

/// The names of a directory among entities, which stand side by side.
fn names_of<'a, 'b>(all: &'a [Present<'b>], directory: &ObjId) -> &'a [Present<'b>]
    requires { IsStrictlySortedBy entity_cmp (entities_of all.now) }
    ensures { result.now ≡ filter (λ p. is_name_of directory.now p.entity) all.now }
{
    let first = all.partition_point(|one: &Present<'_>| is_before(&one.entity, directory));
    let rest = &all[first..];
    let count = rest.partition_point(|one: &Present<'_>| is_name_of(&one.entity, directory));
    &rest[..count]
}

/// Writes a name and its object.
fn write_link<W: Write>(link: &Present<'_>, out: &mut W) -> io::Result<()>
    ensures { OnOk result (Appends (W.contents out.old) (W.contents out.new)
        (link_said link.now.entity link.now.state.now)) }
{
    if let Entity::Link(_, name) = &link.entity {
        write!(out, "{}", Printed(*name))?;
    }
    write!(out, "=")?;
    match link.state {
        EntityState::Value(value) => write!(out, "{}", PrintedValue(value)),
        EntityState::Process(_) => Ok(()),
    }
}

/// Writes the names of a directory behind the first, each behind a space.
fn write_more<W: Write>(links: &[Present<'_>], out: &mut W) -> io::Result<()>
    ensures { OnOk result (Appends (W.contents out.old) (W.contents out.new)
        (flat_map (λ link. 32 ∷ link_said link.entity link.state.now) links.now)) }
{
    for link in links {
        write!(out, " ")?;
        write_link(link, out)?;
    }
    Ok(())
}

/// Writes the names of a directory; `-` where there is none.
fn write_directory<W: Write>(links: &[Present<'_>], out: &mut W) -> io::Result<()>
    ensures { OnOk result (Appends (W.contents out.old) (W.contents out.new)
        (directory_said links.now)) }
{
    write!(out, "dir ")?;
    match links {
        [] => write!(out, "-"),
        [first, others @ ..] => {
            write_link(first, out)?;
            write_more(others, out)
        }
    }
}

/// Writes the names of a directory, which are among these entities, with their objects.
pub fn write_names<W: Write>(all: &[Present<'_>], entity: &Entity, out: &mut W) -> io::Result<()>
    requires { IsStrictlySortedBy entity_cmp (entities_of all.now) }
    ensures { OnOk result (Appends (W.contents out.old) (W.contents out.new)
        (names_said all.now entity.now)) }
{
    match entity {
        Entity::Obj(directory) => write_directory(names_of(all, directory), out),
        Entity::Proc(_) | Entity::Sig(_) | Entity::Exit(_) | Entity::Link(..) | Entity::Copy(_) => {
            write_directory(&[], out)
        }
    }
}

/// Writes what an entity has behind its name. The names of a directory are those among these entities.
pub(crate) fn write_held<W: Write>(
    all: &[Present<'_>],
    one: &Present<'_>,
    out: &mut W,
) -> io::Result<()>
    requires { IsStrictlySortedBy entity_cmp (entities_of all.now) }
    ensures { OnOk result (Appends (W.contents out.old) (W.contents out.new)
        (held_said all.now one.now.entity one.now.state.now)) }
{
    match one.state {
        EntityState::Value(Value::Dir) => write_names(all, &one.entity, out),
        EntityState::Value(value) => write!(out, "{}", PrintedValue(value)),
        EntityState::Process(process) => write!(out, "{}", PrintedProcess(process.process())),
    }
}
