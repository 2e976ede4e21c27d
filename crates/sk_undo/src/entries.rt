//! The entities that are present, with what they have.
ghost use Rattle.std.specs.Prelude.{◌≡◌, ◌++◌, [], OnOk, IfOk, map as each, flat_map};
ghost use Rattle.sk_undo.specs.Base.{shown};
ghost use Rattle.std.specs.FinMap as map;
ghost use Rattle.sk_undo.specs.Present.{shown_at};

use crate::Slot;
use crate::entity_map::EntityMap;
use sk_ids::Entity;
use sk_store::Present;
use std::alloc::AllocError;

/// Adds an entity, where its slot has a value.
#[inline(always)]
fn add<'a>(all: &mut Vec<Present<'a>>, entity: Entity, slot: &'a Slot) -> Result<(), AllocError>
    ensures { OnOk result
        (each shown all.new.items ≡ each shown all.old.items ++ shown_at (entity, slot.now)) }
{
    let Some(state) = slot.value() else {
        return Ok(());
    };
    let tags = match slot.tags() {
        Some(tags) => tags.ids(),
        None => &[],
    };
    all.reserve(1)?;
    all.push_reserved(Present {
        entity,
        state,
        tags,
    });
    Ok(())
}

/// Lists the entities of which the slots have a value, by their order, with what they have.
fn list<'a>(slots: &'a EntityMap<Slot>, all: &mut Vec<Present<'a>>) -> Result<(), AllocError>
    requires { all.old.items ≡ [] }
    ensures { OnOk result (each shown all.new.items ≡ flat_map shown_at (map.entries slots.now)) }
{
    let by_kind = slots.iter();
    for (process, slot) in by_kind.processes {
        add(all, Entity::Proc(process.pid), slot)?;
    }
    for (signals, slot) in by_kind.signals {
        add(all, Entity::Sig(signals.pid), slot)?;
    }
    for (exit, slot) in by_kind.exits {
        add(all, Entity::Exit(exit.pid), slot)?;
    }
    for (object, slot) in by_kind.objects {
        add(all, Entity::Obj(object.id), slot)?;
    }
    for (link, slot) in by_kind.links {
        add(all, Entity::Link(link.directory.id, link.name), slot)?;
    }
    for (copy, slot) in by_kind.copies {
        add(all, Entity::Copy(*copy), slot)?;
    }
    Ok(())
}

/// The entities of which the slots have a value, by their order, with what they have.
pub(crate) fn present(slots: &EntityMap<Slot>) -> Result<Vec<Present<'_>>, AllocError>
    ensures { IfOk result
        (λ all. each shown all.items ≡ flat_map shown_at (map.entries slots.now)) }
{
    let mut all = Vec::with_capacity(slots.alloc(), slots.len())?;
    list(slots, &mut all)?;
    Ok(all)
}
