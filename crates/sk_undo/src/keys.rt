//! What entities of one kind are found by.
ghost use Rattle.std.specs.Prelude.{◌≡◌, ◌<◌, IsSome, refl};
ghost use Rattle.sk_undo.specs.Base.{unwrap_or, nat_cmp, ordering_then, object_cmp};

use sk_ids::{Name, ObjId, Pid};
use sk_map::Key;
use std::cmp::Ordering;
use std::marker::Model;

/// A process, or what belongs to one. Contracts see its number.
#[derive(Clone, Copy, PartialEq, Eq, PartialOrd)]
pub struct ProcessKey {
    pub(crate) pid: Pid,
}

impl Model for ProcessKey {
    ghost use Rattle.std.specs.Prelude.{ℕ};

    ghost Value = { ℕ };

    ghost view = { λ a. a.pid };

    ghost inverse = { λ n. record { pid = n } };
}

/// How the paths of two processes compare. A search goes on where the first is greater, so that is told first.
#[inline(always)]
fn processes_compared(one: u64, other: u64) -> Ordering
    ensures { result ≡ nat_cmp one other }
{
    if other < one {
        return Ordering::Greater;
    }
    if one < other {
        return Ordering::Less;
    }
    Ordering::Equal
}

impl Ord for ProcessKey {
    ghost use Rattle.sk_ids.specs.contracts.pid.PidOrd.TheImpl as process;
    ghost use Rattle.sk_ids.specs.contracts.pid.PidOrd.TheImpl.Laws.{total-law, matches_partial_cmp-law, matches_eq-law};

    ghost cmp = { (process.ghosts).cmp };

    ghost total = { total-law };

    ghost matches_partial_cmp = { matches_partial_cmp-law };

    ghost matches_eq = { matches_eq-law };

    #[inline(always)]
    fn cmp(&self, other: &ProcessKey) -> Ordering {
        processes_compared(self.pid.path(), other.pid.path())
    }
}

impl Key for ProcessKey {
    ghost use Rattle.std.specs.Ordering.{nat_cmp};
    ghost use Rattle.std.specs.FinMap.{nat_cmp-IsAntisymmetric};

    ghost order = { nat_cmp };

    ghost same = { refl };

    ghost exact = { nat_cmp-IsAntisymmetric };
}

/// An object, which is compared by numbers. Contracts see the object.
#[derive(Clone, Copy, PartialEq, Eq, PartialOrd)]
pub struct ObjectKey {
    pub(crate) id: ObjId,
}

impl Model for ObjectKey {
    ghost use Rattle.sk_ids.specs.declared.pid.ObjId.{ObjId};
    ghost use Rattle.sk_ids.specs.contracts.pid.ObjId as shown;

    ghost Value = { ObjId };

    ghost coded = { shown.the_row.coded };

    ghost view = { λ a. a.id };

    ghost inverse = { λ o. record { id = o } };
}

/// How two counts compare. A search goes on where the first is greater, so that is told first.
#[inline(always)]
fn counts_compared(one: u32, other: u32) -> Ordering
    ensures { result ≡ nat_cmp one other }
{
    if other < one {
        return Ordering::Greater;
    }
    if one < other {
        return Ordering::Less;
    }
    Ordering::Equal
}

/// How two objects compare whose makers have these paths: 0 is that of no maker.
#[inline(always)]
fn made_compared(maker: u64, count: u32, other_maker: u64, other_count: u32) -> Ordering
    ensures { result ≡ ordering_then (nat_cmp maker other_maker) (nat_cmp count other_count) }
{
    if maker == other_maker {
        return counts_compared(count, other_count);
    }
    if other_maker < maker {
        return Ordering::Greater;
    }
    Ordering::Less
}

/// The path of an object's maker, or 0. The object is copied, so that no jump stands before its path is read.
#[inline(always)]
fn maker_path(id: ObjId) -> u64
    ensures value { result ≡ unwrap_or id.maker 0 }
    ensures some { IsSome id.maker → 0 < result }
{
    match id.maker {
        Some(maker) => maker.path(),
        None => 0,
    }
}

/// How two objects compare. No path is 0, so those without a maker are first.
#[inline(always)]
fn objects_compared(one: &ObjId, other: &ObjId) -> Ordering
    ensures { result ≡ object_cmp one.now other.now }
{
    made_compared(maker_path(*one), one.count, maker_path(*other), other.count)
}

impl Ord for ObjectKey {
    ghost use Rattle.sk_ids.specs.contracts.pid.ObjIdOrd.TheImpl as object;
    ghost use Rattle.sk_ids.specs.contracts.pid.ObjIdOrd.TheImpl.Laws.{total-law, matches_partial_cmp-law, matches_eq-law};

    ghost cmp = { (object.ghosts).cmp };

    ghost total = { total-law };

    ghost matches_partial_cmp = { matches_partial_cmp-law };

    ghost matches_eq = { matches_eq-law };

    #[inline(always)]
    fn cmp(&self, other: &ObjectKey) -> Ordering {
        objects_compared(&self.id, &other.id)
    }
}

impl Key for ObjectKey {
    ghost use Rattle.sk_map.specs.KeyLemma.{object_same, object_tells};

    ghost order = { object_cmp };

    ghost same = { object_same };

    ghost exact = { object_tells };
}

/// A name of a directory.
#[derive(Clone, Copy, PartialEq, Eq, PartialOrd, Ord)]
pub struct LinkKey {
    pub(crate) directory: ObjectKey,
    pub(crate) name: Name,
}

impl Key for LinkKey {
    ghost use Rattle.sk_undo.specs.Kinds.{link_cmp};
    ghost use Rattle.sk_undo.specs.KindsLemma.{link_same, link_tells};

    ghost order = { link_cmp };

    ghost same = { link_same };

    ghost exact = { link_tells };
}
