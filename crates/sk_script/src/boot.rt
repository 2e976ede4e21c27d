//! What a kernel starts from.
ghost use Rattle.std.specs.Prelude.{◌≡◌, ◌≤◌, ◌<◌, length, []};
ghost use Rattle.sk_script.specs.Base.{BootObject, BootProcess, Dir};
ghost use Rattle.std.specs.FinMap as map;
ghost use Rattle.sk_script.specs.Boot.{BootView, Declares, with_script, with_object, with_copy, with_process, script_fault, object_fault, copy_fault, process_fault, has_object, has_copy, has_process, BOOT_OBJECTS, IsBoot};

use crate::{Script, Scripts};
use sk_ids::{Name, Text};
use sk_map::Map;
use sk_objects::Content;
use std::alloc::{AllocError, AllocFailed, Global};
use std::marker::Model;
use thiserror::Error;

/// The greatest number of boot objects.
pub const BOOT_OBJECT_LIMIT: usize = 64;

/// What a boot object is.
#[derive(Clone, Copy, Debug, PartialEq, Eq)]
pub enum ObjectKind {
    File,
    Dir,
    Pipe,
}

/// An object that is there from the start, with what it holds. A directory holds nothing.
#[derive(Clone, Copy, Debug, PartialEq, Eq)]
pub struct BootObject {
    pub name: Name,
    pub kind: ObjectKind,
    pub bytes: Text,
}

/// A process that is there from the start: its number and its terminal's, from 1 on, and the name of
/// its script.
#[derive(Clone, Copy, Debug, PartialEq, Eq)]
pub struct BootProcess {
    pub number: u16,
    pub script: Name,
    pub terminal: u16,
}

/// Why something can't be declared.
#[derive(Clone, Copy, Debug, PartialEq, Eq, Error)]
pub enum BootFault {
    /// The name or number is taken.
    #[error("the name or number is taken")]
    Duplicate,
    /// There is no script of this name.
    #[error("there is no script of this name")]
    NoScript,
    /// A growth was refused.
    #[error("memory is wanting")]
    Memory,
}

impl From<AllocError> for BootFault {
    ghost use Rattle.std.specs.Prelude.{◌≡◌};
    ghost use Rattle.sk_script.specs.declared.boot.BootFault.TheVariants.{Memory};

    ghost from_gives = { λ _ fault. fault ≡ Memory };

    fn from(_error: AllocError) -> BootFault {
        BootFault::Memory
    }
}

impl<T: Drop> From<AllocFailed<T>> for BootFault {
    ghost use Rattle.std.specs.Prelude.{◌≡◌};
    ghost use Rattle.sk_script.specs.declared.boot.BootFault.TheVariants.{Memory};

    ghost from_gives = { λ _ fault. fault ≡ Memory };

    fn from(_error: AllocFailed<T>) -> BootFault {
        BootFault::Memory
    }
}

/// The scripts, objects, cached copies and processes that a kernel starts from, in the order of their
/// declaration.
#[derive(Drop)]
pub struct Boot {
    scripts: Scripts,
    objects: Vec<BootObject>,
    copies: Vec<(Name, Content)>,
    /// The names of the copies.
    copied: Map<Name, ()>,
    processes: Vec<BootProcess>,
    /// The numbers of the processes.
    numbered: Map<u16, ()>,
}

impl Model for Boot {
    ghost use Rattle.std.specs.Ordering.{nat_cmp};
    ghost use Rattle.sk_ids.specs.Name.{name_order};
    ghost use Rattle.sk_map.specs.Seen.{seen};
    ghost use Rattle.sk_script.specs.Boot.{BootView, boot_code, IsBoot, AreFound};

    ghost Value = { BootView };

    ghost coded = { boot_code };

    ghost view = { λ b. record {
      scripts = b.scripts;
      objects = b.objects.items;
      copies = b.copies.items;
      processes = b.processes.items;
    } };

    ghost invariant = { λ b.
        IsBoot
        (record {
          scripts = b.scripts;
          objects = b.objects.items;
          copies = b.copies.items;
          processes = b.processes.items;
        })
        × AreFound (seen name_order b.copied) (seen nat_cmp b.numbered)
        (record {
          scripts = b.scripts;
          objects = b.objects.items;
          copies = b.copies.items;
          processes = b.processes.items;
        }) };
}

impl Boot {
    /// Nothing declared.
    pub fn new(alloc: Global) -> Boot
        ensures { result
            ≡ record { scripts = map.empty; objects = []; copies = []; processes = [] } }
    {
        Boot {
            scripts: Scripts::new(alloc),
            objects: Vec::new(alloc),
            copies: Vec::new(alloc),
            copied: Map::new(alloc),
            processes: Vec::new(alloc),
            numbered: Map::new(alloc),
        }
    }

    /// Declares a script. `Duplicate` where the name is a script's already.
    pub fn script(&mut self, name: Name, script: Script) -> Result<(), BootFault>
        ensures { Declares result (script_fault self.old name) self.old
            (with_script self.old name script) self.new }
    {
        if self.scripts.get(&name).is_some() {
            return Err(BootFault::Duplicate);
        }
        self.scripts.insert(name, script)?;
        Ok(())
    }

    /// Declares the next object, of which there are at most 64, with at most 512 bytes, and none
    /// for a directory. `Duplicate` where the name is an object's already.
    pub fn object(&mut self, name: Name, kind: ObjectKind, bytes: &[u8]) -> Result<(), BootFault>
        requires room { length self.old.objects < BOOT_OBJECTS }
        requires short { length bytes.now ≤ 512 }
        requires no_bytes { kind ≡ Dir → bytes.now ≡ [] }
        ensures { Declares result (object_fault self.old name) self.old
            (with_object self.old name kind bytes.now) self.new }
    {
        if self.has_object(&name) {
            return Err(BootFault::Duplicate);
        }
        let Some(bytes) = Text::new(bytes) else {
            return Err(BootFault::Memory);
        };
        self.objects.push(BootObject { name, kind, bytes })?;
        Ok(())
    }

    /// Declares a cached copy. `Duplicate` where the name is a copy's already.
    pub fn copy(&mut self, name: Name, content: Content) -> Result<(), BootFault>
        ensures { Declares result (copy_fault self.old name) self.old
            (with_copy self.old name content) self.new }
    {
        if self.has_copy(&name) {
            return Err(BootFault::Duplicate);
        }
        self.copies.reserve(1)?;
        self.copied.put(name, ())?;
        self.copies.push_reserved((name, content));
        Ok(())
    }

    /// Declares a process by its number, its script and its terminal, both numbers from 1 on.
    /// `Duplicate` where the number is taken, `NoScript` where the script is not declared.
    pub fn process(&mut self, number: u16, script: &Name, terminal: u16) -> Result<(), BootFault>
        requires number { 0 < number }
        requires terminal { 0 < terminal }
        ensures { Declares result (process_fault self.old number script.now) self.old
            (with_process self.old number script.now terminal) self.new }
    {
        if self.has_process(number) {
            return Err(BootFault::Duplicate);
        }
        if self.scripts.get(script).is_none() {
            return Err(BootFault::NoScript);
        }
        self.processes.reserve(1)?;
        self.numbered.put(number, ())?;
        self.processes.push_reserved(BootProcess {
            number,
            script: *script,
            terminal,
        });
        Ok(())
    }

    pub fn scripts(&self) -> &Scripts
        ensures value { result.now ≡ self.now.scripts }
        ensures limits { IsBoot self.now }
    {
        &self.scripts
    }

    /// The objects in the order of their declaration.
    pub fn objects(&self) -> &[BootObject]
        ensures value { result.now ≡ self.now.objects }
        ensures limits { IsBoot self.now }
    {
        &self.objects
    }

    /// The cached copies in the order of their declaration.
    pub fn copies(&self) -> &[(Name, Content)]
        ensures value { result.now ≡ self.now.copies }
        ensures limits { IsBoot self.now }
    {
        &self.copies
    }

    /// The processes in the order of their declaration.
    pub fn processes(&self) -> &[BootProcess]
        ensures value { result.now ≡ self.now.processes }
        ensures limits { IsBoot self.now }
    {
        &self.processes
    }

    fn has_object(&self, name: &Name) -> bool
        ensures { result ≡ has_object self.now name.now }
    {
        self.objects.iter().any(|object| object.name == *name)
    }

    fn has_copy(&self, name: &Name) -> bool
        ensures { result ≡ has_copy self.now name.now }
    {
        self.copied.get(name).is_some()
    }

    fn has_process(&self, number: u16) -> bool
        ensures { result ≡ has_process self.now number }
    {
        self.numbered.get(&number).is_some()
    }
}
