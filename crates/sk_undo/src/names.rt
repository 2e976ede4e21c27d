//! How many names of each directory are there.
ghost use Rattle.std.specs.Prelude.{◌≡◌, ◌+◌, ◌-◌, ◌<◌, ◌^◌, true, false, OnOk, OnErr};
ghost use Rattle.std.specs.FinMap as map;
ghost use Rattle.sk_undo.specs.Names.{count_in, count_for, with_count, with_place, made_for, recounted_at, recounted};

use crate::keys::ObjectKey;
use sk_ids::{Entity, ObjId};
use sk_map::Map;
use std::alloc::{AllocError, Global};
use std::marker::Model;

/// A number for each directory. One without a number has none of its names.
#[derive(Drop)]
pub struct Names {
    counts: Map<ObjectKey, usize>,
}

impl Model for Names {
    ghost use Rattle.std.specs.Coded.{coded_ℕ};
    ghost use Rattle.std.specs.FinMap as map;
    ghost use Rattle.sk_ids.specs.Entity.{object_cmp};
    ghost use Rattle.sk_ids.specs.contracts.pid.ObjId as object;
    ghost use Rattle.sk_map.specs.Seen.{seen};
    ghost use Rattle.sk_undo.specs.Names.{NameMap};

    ghost Value = { NameMap };

    ghost coded = { map.code object.the_row.coded coded_ℕ };

    ghost view = { λ a. seen object_cmp a.counts };
}

impl Names {
    pub fn new(alloc: Global) -> Names
        ensures { result ≡ map.empty }
    {
        Names {
            counts: Map::new(alloc),
        }
    }

    /// The number of a directory.
    pub fn count(&self, directory: &ObjId) -> usize
        ensures { result ≡ count_in self.now directory.now }
    {
        self.counts
            .get(&ObjectKey { id: *directory })
            .copied()
            .unwrap_or(0)
    }

    /// A directory that has a number has one name more, which takes no memory.
    fn add_one(&mut self, directory: &ObjId)
        requires { count_in self.old directory.now < 2 ^ 63 }
        ensures { self.new
            ≡ with_count self.old directory.now (count_in self.old directory.now + 1) }
    {
        if let Some(count) = self.counts.get_mut(&ObjectKey { id: *directory }) {
            *count += 1;
        }
    }

    /// A directory has one name less.
    fn take_one(&mut self, directory: &ObjId)
        ensures { self.new
            ≡ with_count self.old directory.now (count_in self.old directory.now - 1) }
    {
        if let Some(count) = self.counts.get_mut(&ObjectKey { id: *directory }) {
            *count = count.saturating_sub(1);
        }
    }

    /// Makes a number for a directory that has none.
    fn make(&mut self, directory: &ObjId) -> Result<(), AllocError>
        ensures ok { OnOk result (self.new ≡ with_place self.old directory.now) }
        ensures err { OnErr result (self.new ≡ self.old) }
    {
        if self.counts.get(&ObjectKey { id: *directory }).is_some() {
            return Ok(());
        }
        self.counts.put(ObjectKey { id: *directory }, 0)
    }

    /// Makes a number for the directory of a name, which a recount of it needs.
    pub fn make_for(&mut self, entity: &Entity) -> Result<(), AllocError>
        ensures ok { OnOk result (self.new ≡ made_for self.old entity.now) }
        ensures err { OnErr result (self.new ≡ self.old) }
    {
        match entity {
            Entity::Link(directory, _) => self.make(directory),
            Entity::Proc(_) | Entity::Sig(_) | Entity::Exit(_) | Entity::Obj(_) | Entity::Copy(_) =>
                Ok(()),
        }
    }

    /// A directory has one name more, for which a number is made where it has none. It stands by itself, since most of what is
    /// put is no name.
    #[inline(never)]
    fn put_one(&mut self, directory: &ObjId) -> Result<(), AllocError>
        requires { count_in self.old directory.now < 2 ^ 63 }
        ensures ok { OnOk result
            (self.new ≡ recounted_at (with_place self.old directory.now) directory.now false true) }
        ensures err { OnErr result (self.new ≡ self.old) }
    {
        if let Some(count) = self.counts.get_mut(&ObjectKey { id: *directory }) {
            *count += 1;
            return Ok(());
        }
        self.counts.put(ObjectKey { id: *directory }, 1)
    }

    /// Counts a name more, which was not there and is, and makes a number for its directory where there is none.
    #[inline(always)]
    pub fn put(&mut self, entity: &Entity) -> Result<(), AllocError>
        requires { count_for self.old entity.now < 2 ^ 63 }
        ensures ok { OnOk result
            (self.new ≡ recounted (made_for self.old entity.now) entity.now false true) }
        ensures err { OnErr result (self.new ≡ self.old) }
    {
        match entity {
            Entity::Link(directory, _) => self.put_one(directory),
            Entity::Proc(_) | Entity::Sig(_) | Entity::Exit(_) | Entity::Obj(_) | Entity::Copy(_) =>
                Ok(()),
        }
    }

    /// Counts a name less, which was there and is not. This takes no memory.
    pub fn take(&mut self, entity: &Entity)
        ensures { self.new ≡ recounted self.old entity.now true false }
    {
        match entity {
            Entity::Link(directory, _) => self.take_one(directory),
            Entity::Proc(_) | Entity::Sig(_) | Entity::Exit(_) | Entity::Obj(_) | Entity::Copy(_) =>
                {}
        }
    }

    /// Counts a name of a directory anew that came, went, or did neither.
    fn recount_at(&mut self, directory: &ObjId, was: bool, is: bool)
        requires { count_in self.old directory.now < 2 ^ 63 }
        ensures { self.new ≡ recounted_at self.old directory.now was is }
    {
        match (was, is) {
            (false, true) => self.add_one(directory),
            (true, false) => self.take_one(directory),
            (true, true) | (false, false) => {}
        }
    }

    /// Counts a name anew that was there or not, and is there or not. This takes no memory.
    pub fn recount(&mut self, entity: &Entity, was: bool, is: bool)
        requires { count_for self.old entity.now < 2 ^ 63 }
        ensures { self.new ≡ recounted self.old entity.now was is }
    {
        match entity {
            Entity::Link(directory, _) => self.recount_at(directory, was, is),
            Entity::Proc(_) | Entity::Sig(_) | Entity::Exit(_) | Entity::Obj(_) | Entity::Copy(_) =>
                {}
        }
    }
}
