//! Writing to what entities have.
use crate::{Becoming, BecomingBy, EntityState, Look};
use sk_changes::Change;
use sk_ids::{Entity, ObjId, Pid, TagSet};
use sk_script::Process;
use std::alloc::{AllocError, Global};

/// What performs the writes of a step, each of which can be taken back until the next one.
pub trait Keeper: Look {
    ghost use Rattle.std.specs.Prelude.{◌≡◌, OnOk, OnErr, IfOk, IfSome, is_some, ℕ, List, Option, Some, None};
    ghost use Rattle.sk_ids.specs.declared.entity.Entity.{Entity};
    ghost use Rattle.sk_ids.specs.declared.entity.Entity.TheVariants.{Proc, Obj};
    ghost use Rattle.sk_changes.specs.declared.change.Change.TheVariants as changes;
    ghost use Rattle.sk_store.specs.declared.entity_state.EntityState.{EntityState};
    ghost use Rattle.std.specs.Prelude.{Bool, true, false};
    ghost use Rattle.std.specs.Ordering.{eq_by_cmp};
    ghost use Rattle.sk_ids.specs.Entity.{entity_cmp};
    ghost use Rattle.sk_store.specs.Processes.{CanBecome, IsProcess, IsReadable, became, process_in};
    ghost use Rattle.sk_store.specs.Changed.{FitsAt, changed};

    /// What takes one write back.
    type Back: Drop;

    /// After one write, which sets what an entity has or makes it absent.
    ghost wrote: { Self → Entity → Option EntityState → Self };

    /// Whether a write can be taken back now.
    ghost can_take_back: { Self → Self.Back → Type 0 };

    /// After that.
    ghost taken_back: { Self → Self.Back → Self };

    /// The guesses that a step depends on.
    ghost step_tags: { Self → List ℕ };

    /// Whether nothing is noted of a write of a process, so that it wants no memory.
    ghost goes_unnoted: { Self → ℕ → Bool };

    /// What it takes its memory from.
    fn memory(&self) -> Global;

    /// Another set of the guesses that the step depends on whose writes it performs.
    fn step_tags(&self) -> Result<TagSet, AllocError>
        ensures { IfOk result (λ tags. tags ≡ step_tags self.now) };

    /// Sets what an entity has. Without memory nothing has changed.
    fn write(&mut self, entity: Entity, stored: EntityState) -> Result<Self::Back, AllocError>
        ensures ok { OnOk result (self.new ≡ wrote self.old entity (Some stored)) }
        ensures can { IfOk result (λ back. can_take_back self.new back) }
        ensures back { IfOk result (λ back. taken_back self.new back ≡ self.old) }
        ensures err { OnErr result (self.new ≡ self.old) };

    /// Changes the value of an entity. Without memory nothing has changed.
    fn change(&mut self, entity: Entity, change: Change) -> Result<Self::Back, AllocError>
        requires { FitsAt (Self.look self.old entity) change }
        ensures ok { OnOk result
            (self.new ≡ wrote self.old entity (Some (changed (Self.look self.old entity) change))) }
        ensures can { IfOk result (λ back. can_take_back self.new back) }
        ensures back { IfOk result (λ back. taken_back self.new back ≡ self.old) }
        ensures err { OnErr result (self.new ≡ self.old) };

    /// Changes a process where it stands, as the last write of a step. Without memory nothing has
    /// changed.
    fn change_process<C: Becoming>(&mut self, pid: Pid, by: &C) -> Result<(), AllocError>
        requires { CanBecome (C.can by.now) (Self.look self.old (Proc pid)) }
        ensures ok { OnOk result
            (self.new ≡ wrote self.old (Proc pid)
            (Some (became (C.after by.now) (Self.look self.old (Proc pid))))) }
        ensures err { OnErr result (self.new ≡ self.old) };

    /// Changes a process where it stands by what an object or a copy has, as the last write of a step. Without memory
    /// nothing has changed.
    fn change_by<C: BecomingBy>(
        &mut self,
        pid: Pid,
        entity: &Entity,
        by: &C,
    ) -> Result<(), AllocError>
        requires readable { IsReadable entity.now }
        requires can { CanBecome (C.can by.now (Self.look self.old entity.now))
            (Self.look self.old (Proc pid)) }
        ensures ok { OnOk result
            (self.new ≡ wrote self.old (Proc pid)
            (Some (became (C.after by.now (Self.look self.old entity.now))
            (Self.look self.old (Proc pid))))) }
        ensures err { OnErr result (self.new ≡ self.old) };

    /// Writes the buffer of a process at a place of a file, and then changes the process, as the last writes of a step.
    /// Without memory nothing has changed.
    fn write_buffer<C: Becoming>(
        &mut self,
        object: &ObjId,
        at: u32,
        pid: Pid,
        by: &C,
    ) -> Result<(), AllocError>
        requires fits { FitsAt (Self.look self.old (Obj object.now))
            (changes.WriteAt at (process_in (Self.look self.old (Proc pid))).buffer) }
        requires can { CanBecome (C.can by.now) (Self.look self.old (Proc pid)) }
        ensures ok { OnOk result
            (self.new ≡ wrote
            (wrote self.old (Obj object.now)
            (Some (changed (Self.look self.old (Obj object.now))
            (changes.WriteAt at (process_in (Self.look self.old (Proc pid))).buffer)))) (Proc pid)
            (Some (became (C.after by.now) (Self.look self.old (Proc pid))))) }
        ensures err { OnErr result (self.new ≡ self.old) };

    /// Whether nothing is noted of a write of a process, so that it wants no memory.
    fn goes_unnoted(&self, pid: Pid) -> bool
        ensures { result ≡ goes_unnoted self.now pid };

    /// A process of which nothing is noted when it is written, so that this wants no memory; `None` of another.
    fn unnoted(&self, pid: Pid) -> Option<&Process>
        requires { IsProcess (Self.look self.now (Proc pid)) }
        ensures exact { is_some result ≡ goes_unnoted self.now pid }
        ensures process { IfSome result
            (λ process. process.now ≡ process_in (Self.look self.now (Proc pid))) };

    /// Changes a process where it stands, of which nothing is noted, as the last write of a step. This takes
    /// no memory.
    fn become_unnoted<C: Becoming>(&mut self, pid: Pid, by: &C)
        requires unnoted { goes_unnoted self.old pid ≡ true }
        requires can { CanBecome (C.can by.now) (Self.look self.old (Proc pid)) }
        ensures { self.new ≡ wrote self.old (Proc pid)
            (Some (became (C.after by.now) (Self.look self.old (Proc pid)))) };

    /// Changes the value of an entity and then a process, of which nothing is noted, as the last writes of a
    /// step. Without memory nothing has changed.
    fn change_both<C: Becoming>(
        &mut self,
        entity: &Entity,
        change: &Change,
        pid: Pid,
        by: &C,
    ) -> Result<(), AllocError>
        requires unnoted { goes_unnoted self.old pid ≡ true }
        requires fits { FitsAt (Self.look self.old entity.now) change.now }
        requires can { CanBecome (C.can by.now) (Self.look self.old (Proc pid)) }
        requires apart { eq_by_cmp entity_cmp (Proc pid) entity.now ≡ false }
        ensures ok { OnOk result
            (self.new ≡ wrote
            (wrote self.old entity.now
            (Some (changed (Self.look self.old entity.now) change.now))) (Proc pid)
            (Some (became (C.after by.now) (Self.look self.old (Proc pid))))) }
        ensures err { OnErr result (self.new ≡ self.old) };

    /// Sets what an entity has and then changes a process, of which nothing is noted, as the last writes of a step.
    /// Without memory nothing has changed.
    fn write_beside<C: Becoming>(
        &mut self,
        entity: &Entity,
        stored: EntityState,
        pid: Pid,
        by: &C,
    ) -> Result<(), AllocError>
        requires unnoted { goes_unnoted self.old pid ≡ true }
        requires can { CanBecome (C.can by.now) (Self.look self.old (Proc pid)) }
        requires apart { eq_by_cmp entity_cmp (Proc pid) entity.now ≡ false }
        ensures ok { OnOk result
            (self.new ≡ wrote (wrote self.old entity.now (Some stored)) (Proc pid)
            (Some (became (C.after by.now) (Self.look self.old (Proc pid))))) }
        ensures err { OnErr result (self.new ≡ self.old) };

    /// Changes a process, of which nothing is noted, and makes an entity beside it absent, as the last writes of
    /// a step. Without memory nothing has changed.
    fn remove_beside<C: Becoming>(
        &mut self,
        entity: &Entity,
        pid: Pid,
        by: &C,
    ) -> Result<(), AllocError>
        requires unnoted { goes_unnoted self.old pid ≡ true }
        requires can { CanBecome (C.can by.now) (Self.look self.old (Proc pid)) }
        requires apart { eq_by_cmp entity_cmp (Proc pid) entity.now ≡ false }
        ensures ok { OnOk result
            (self.new ≡ wrote
            (wrote self.old (Proc pid)
            (Some (became (C.after by.now) (Self.look self.old (Proc pid))))) entity.now None) }
        ensures err { OnErr result (self.new ≡ self.old) };

    /// Makes an entity absent, as the last write of a step. Without memory nothing has changed.
    fn remove(&mut self, entity: Entity) -> Result<(), AllocError>
        ensures ok { OnOk result (self.new ≡ wrote self.old entity None) }
        ensures err { OnErr result (self.new ≡ self.old) };

    /// Takes the newest write back, which takes no memory.
    fn take_back(&mut self, back: Self::Back)
        requires { can_take_back self.old back }
        ensures { self.new ≡ taken_back self.old back };

    /// A write leaves all other entities as they are.
    ghost others: { (k : Self) (e q : Entity) (v : Option EntityState)
        → eq_by_cmp entity_cmp q e ≡ false → Self.look (wrote k e v) q ≡ Self.look k q };
}
