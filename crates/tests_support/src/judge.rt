//! Whether a kernel stands as the plain kernel does.
use crate::finding::Finding;
use sk_ids::Entity;
use sk_kernel::Kernel;
use sk_plain::{Entry, Plain, Trace, View, strike};
use sk_script::Boot;
use std::alloc::Global;

/// Whether two entities have the same.
fn is_same(one: Option<View>, other: Option<View>) -> bool {
    match (one, other) {
        (Some(View::Process(one)), Some(View::Process(other))) => *one == *other,
        (Some(View::Value(one)), Some(View::Value(other))) => *one == *other,
        (None, None) => true,
        _ => false,
    }
}

/// Whether an entity has the same with a kernel and with the plain kernel.
pub fn has_value(kernel: &Kernel, plain: &Plain, entity: &Entity) -> bool {
    is_same(kernel.value(entity), plain.value(entity))
}

/// Compares the entities that are present: hands them out.
fn judge_present(kernel: &Kernel, plain: &Plain) -> Result<Vec<Entity>, Finding> {
    let present = kernel.entities()?;
    if present != plain.entities()? {
        return Err(Finding::Entities);
    }
    Ok(present)
}

/// Compares what an entity has.
fn judge_value(kernel: &Kernel, plain: &Plain, entity: &Entity) -> Result<(), Finding> {
    if has_value(kernel, plain, entity) {
        Ok(())
    } else {
        Err(Finding::Value)
    }
}

/// Compares what the terminals of the boot's processes have released; their children have no others.
fn judge_terminals(boot: &Boot, kernel: &Kernel, plain: &Plain) -> Result<(), Finding> {
    for process in boot.processes() {
        let released = match kernel.terminal(process.terminal) {
            Some(terminal) => terminal.released(),
            None => &[],
        };
        if released != plain.said(process.terminal) {
            return Err(Finding::Terminal);
        }
    }
    Ok(())
}

/// Compares a kernel of which no guess is undecided with the plain kernel on the struck trace.
pub fn judge_settled(alloc: Global, boot: &Boot, kernel: &Kernel) -> Result<(), Finding> {
    if kernel.undecided() > 0 {
        return Err(Finding::Undecided);
    }
    let plain = plain_after(alloc, boot, kernel.trace())?;
    judge_all(boot, kernel, &plain)
}

/// Compares all that is there, and all that is said.
fn judge_all(boot: &Boot, kernel: &Kernel, plain: &Plain) -> Result<(), Finding> {
    judge_values(kernel, plain)?;
    judge_terminals(boot, kernel, plain)
}

/// The plain kernel on a struck trace.
fn plain_after(alloc: Global, boot: &Boot, trace: &Trace) -> Result<Plain, Finding> {
    let entries = strike(alloc, boot, trace)?;
    plain_on(alloc, boot, &entries)
}

/// The plain kernel on these entries.
fn plain_on(alloc: Global, boot: &Boot, entries: &[Entry]) -> Result<Plain, Finding> {
    let mut plain = Plain::boot(alloc, boot)?;
    take_all(&mut plain, entries)?;
    Ok(plain)
}

fn take_all(plain: &mut Plain, entries: &[Entry]) -> Result<(), Finding> {
    for entry in entries {
        plain.step(entry.pid, &entry.input)?;
    }
    Ok(())
}

/// Compares all that is there.
fn judge_values(kernel: &Kernel, plain: &Plain) -> Result<(), Finding> {
    let present = judge_present(kernel, plain)?;
    judge_each(kernel, plain, &present)
}

fn judge_each(kernel: &Kernel, plain: &Plain, entities: &[Entity]) -> Result<(), Finding> {
    for entity in entities {
        judge_value(kernel, plain, entity)?;
    }
    Ok(())
}
