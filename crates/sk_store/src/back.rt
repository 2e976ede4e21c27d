//! What takes a write back, in a store.
ghost use Rattle.std.specs.Prelude.{◌≡◌, OnOk, OnErr, IfOk};
ghost use Rattle.std.specs.FinMap as map;
ghost use Rattle.sk_ids.specs.declared.entity.Entity.TheVariants.{Proc};
ghost use Rattle.sk_store.specs.Changed.{FitsAt, changed};
ghost use Rattle.sk_store.specs.Processes.{CanBecome, IsProcess, became, process_in};
ghost use Rattle.sk_store.specs.Back.{put_back_at, CanPutBack};

use crate::{Becoming, BecomingBy, EntityState, Keeper, Look, Store};
use sk_changes::{Change, Undo};
use sk_ids::{Entity, ObjId, Pid, TagSet};
use sk_script::Process;
use std::alloc::{AllocError, Global};
use std::marker::Model;

/// What puts a write back, whatever it is that was written.
#[derive(Drop)]
pub enum PutBack<V> {
    /// What was there, if anything.
    Was(Option<V>),
    Changed(Undo),
}

/// An entity that was written, and what puts it back.
#[derive(Drop)]
pub struct Back {
    entity: Entity,
    undo: PutBack<EntityState>,
}

impl Model for Back {
    ghost use Rattle.sk_store.specs.Back.{BackView, back_code};

    ghost Value = { BackView };

    ghost coded = { back_code };

    ghost view = { λ n. record { entity = n.entity; undo = n.undo } };
}

/// Takes back a change of a value, where it stands.
fn change_back(store: &mut Store, entity: &Entity, undo: Undo)
    requires { CanPutBack store.old entity.now (PutBack.Changed undo) }
    ensures { store.new ≡ put_back_at store.old entity.now (PutBack.Changed undo) }
{
    match store.get_mut(entity) {
        Some(stored) => stored.undo(undo),
        None => unreachable!(),
    }
}

/// Changes a value where it stands. Without memory nothing has changed.
fn change_in(store: &mut Store, entity: &Entity, change: &Change) -> Result<Undo, AllocError>
    requires { FitsAt (map.get store.old entity.now) change.now }
    ensures ok { OnOk result
        (store.new ≡ map.insert store.old entity.now
        (changed (map.get store.old entity.now) change.now)) }
    ensures can { IfOk result (λ undo. CanPutBack store.new entity.now (PutBack.Changed undo)) }
    ensures back { IfOk result
        (λ undo. put_back_at store.new entity.now (PutBack.Changed undo) ≡ store.old) }
    ensures err { OnErr result (store.new ≡ store.old) }
{
    let alloc = store.alloc();
    match store.get_mut(entity) {
        Some(stored) => {
            let undo = stored.change(alloc, change)?;
            Ok(undo)
        }
        None => unreachable!(),
    }
}

/// Changes a value where it stands, and keeps nothing that takes that back. Without memory nothing has
/// changed.
fn change_alone_in(store: &mut Store, entity: &Entity, change: &Change) -> Result<(), AllocError>
    requires { FitsAt (map.get store.old entity.now) change.now }
    ensures ok { OnOk result
        (store.new ≡ map.insert store.old entity.now
        (changed (map.get store.old entity.now) change.now)) }
    ensures err { OnErr result (store.new ≡ store.old) }
{
    let alloc = store.alloc();
    match store.get_mut(entity) {
        Some(stored) => {
            stored.change_alone(alloc, change)?;
            Ok(())
        }
        None => unreachable!(),
    }
}

/// The process of a number, which is there.
fn process_in(store: &Store, pid: Pid) -> &Process
    requires { IsProcess (map.get store.now (Proc pid)) }
    ensures { result.now ≡ process_in (map.get store.now (Proc pid)) }
{
    match store.value(Entity::Proc(pid)) {
        Some(EntityState::Process(held)) => held.process(),
        _ => unreachable!(),
    }
}

/// Changes a process where it stands, which takes no memory.
fn become_in<C: Becoming>(store: &mut Store, pid: Pid, by: &C)
    requires { CanBecome (C.can by.now) (map.get store.old (Proc pid)) }
    ensures { store.new ≡ map.insert store.old (Proc pid)
        (became (C.after by.now) (map.get store.old (Proc pid))) }
{
    match store.get_mut(&Entity::Proc(pid)) {
        Some(stored) => stored.become_by(by),
        None => unreachable!(),
    }
}

/// Puts a write back, which takes no memory.
fn put_back(store: &mut Store, entity: &Entity, undo: PutBack<EntityState>)
    requires { CanPutBack store.old entity.now undo }
    ensures { store.new ≡ put_back_at store.old entity.now undo }
{
    match undo {
        PutBack::Was(None) => {
            store.remove(*entity);
        }
        PutBack::Was(Some(stored)) => match store.put(*entity, stored) {
            Ok(()) => {}
            Err(_) => unreachable!(),
        },
        PutBack::Changed(undo) => change_back(store, entity, undo),
    }
}

/// Sets what an entity has, and answers what puts it back.
#[tactic(auto, using(crate::proofs::Puts::puts))]
fn write_in(
    store: &mut Store,
    entity: &Entity,
    stored: EntityState,
) -> Result<PutBack<EntityState>, AllocError>
    ensures ok { OnOk result (store.new ≡ map.insert store.old entity.now stored) }
    ensures can { IfOk result (λ undo. CanPutBack store.new entity.now undo) }
    ensures back { IfOk result (λ undo. put_back_at store.new entity.now undo ≡ store.old) }
    ensures err { OnErr result (store.new ≡ store.old) }
{
    if let Some(held) = store.get_mut(entity) {
        let before = std::mem::replace(held, stored);
        return Ok(PutBack::Was(Some(before)));
    }
    store.put(*entity, stored)?;
    Ok(PutBack::Was(None))
}

impl Keeper for Store {
    type Back = Back;

    ghost use Rattle.std.specs.Prelude.{[], true};
    ghost use Rattle.sk_record.specs.Run.{put};
    ghost use Rattle.sk_store.specs.Back.{taken_back, CanTakeBack};

    ghost wrote = { put };

    ghost can_take_back = { CanTakeBack };

    ghost taken_back = { taken_back };

    ghost step_tags = { λ _. [] };

    ghost goes_unnoted = { λ _ _. true };

    fn memory(&self) -> Global {
        self.alloc()
    }

    fn step_tags(&self) -> Result<TagSet, AllocError> {
        Ok(TagSet::new(self.alloc()))
    }

    fn write(&mut self, entity: Entity, stored: EntityState) -> Result<Back, AllocError> {
        let undo = write_in(self, &entity, stored)?;
        Ok(Back { entity, undo })
    }

    fn change(&mut self, entity: Entity, change: Change) -> Result<Back, AllocError> {
        let undo = change_in(self, &entity, &change)?;
        Ok(Back {
            entity,
            undo: PutBack::Changed(undo),
        })
    }

    fn change_process<C: Becoming>(&mut self, pid: Pid, by: &C) -> Result<(), AllocError> {
        become_in(self, pid, by);
        Ok(())
    }

    fn change_by<C: BecomingBy>(
        &mut self,
        pid: Pid,
        entity: &Entity,
        by: &C,
    ) -> Result<(), AllocError> {
        let mut process = *process_in(self, pid);
        by.change(self.value(*entity), &mut process);
        become_in(self, pid, &process);
        Ok(())
    }

    fn write_buffer<C: Becoming>(
        &mut self,
        object: &ObjId,
        at: u32,
        pid: Pid,
        by: &C,
    ) -> Result<(), AllocError> {
        let change = Change::WriteAt {
            offset: at,
            bytes: process_in(self, pid).buffer,
        };
        self.change_both(&Entity::Obj(*object), &change, pid, by)
    }

    /// A store has no notes.
    fn goes_unnoted(&self, _pid: Pid) -> bool {
        true
    }

    fn unnoted(&self, pid: Pid) -> Option<&Process> {
        Some(process_in(self, pid))
    }

    fn become_unnoted<C: Becoming>(&mut self, pid: Pid, by: &C) {
        become_in(self, pid, by);
    }

    fn change_both<C: Becoming>(
        &mut self,
        entity: &Entity,
        change: &Change,
        pid: Pid,
        by: &C,
    ) -> Result<(), AllocError> {
        change_alone_in(self, entity, change)?;
        become_in(self, pid, by);
        Ok(())
    }

    fn write_beside<C: Becoming>(
        &mut self,
        entity: &Entity,
        stored: EntityState,
        pid: Pid,
        by: &C,
    ) -> Result<(), AllocError> {
        self.put(*entity, stored)?;
        become_in(self, pid, by);
        Ok(())
    }

    fn remove_beside<C: Becoming>(
        &mut self,
        entity: &Entity,
        pid: Pid,
        by: &C,
    ) -> Result<(), AllocError> {
        become_in(self, pid, by);
        Store::remove(self, *entity);
        Ok(())
    }

    fn remove(&mut self, entity: Entity) -> Result<(), AllocError> {
        Store::remove(self, entity);
        Ok(())
    }

    fn take_back(&mut self, back: Back) {
        let Back { entity, undo } = back;
        put_back(self, &entity, undo);
    }

    ghost use Rattle.sk_store.specs.OthersLaw.{put_others};

    ghost others = { put_others };
}
