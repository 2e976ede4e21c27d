//! What the declarations of a scenario say.
ghost use Rattle.std.specs.Prelude.{◌≡◌, [], Some, unwrap_or};
ghost use Rattle.sk_scenario.specs.Base.{words, first_of, has_object, Dir, Leaves, TRACE_LIMIT, KERNEL_NUMBER};
ghost use Rattle.sk_scenario.specs.Declarations.{nothing_declared, script as script_added, boot_fault, content_of, object, copy, has_remote, remote, process, once, declares, new_script, declared_next, says_next, line_said, SaysNext};

use sk_ids::{Name, Text};
use sk_objects::Content;
use sk_script::boot::BOOT_OBJECT_LIMIT;
use sk_script::{Boot, BootFault, ObjectKind, Script};
use sk_words::{FaultKind, Index, Natural, Words, first_word, none, one, three, two};
use std::alloc::Global;
use std::marker::Model;

/// The trace limit where a scenario names none.
pub const TRACE_LIMIT: u32 = 1_000_000;

/// The kernel's number where a scenario names none.
pub const KERNEL_NUMBER: u64 = 1;

/// The sections.
#[derive(Clone, Copy, Debug, PartialEq, Eq)]
pub enum Heading {
    Steps,
    World,
    Trace,
}

/// What a line among the declarations says.
#[derive(Clone, Copy, Debug, PartialEq, Eq)]
pub enum Said {
    /// Nothing, or what is declared now.
    Declared,
    /// That a script of this new name begins.
    Script(Name),
    /// That a section begins.
    Heading(Heading),
}

/// A file that the server has from the start.
#[derive(Clone, Copy, Debug, PartialEq, Eq)]
pub struct Remote {
    pub name: Name,
    pub content: Content,
}

/// What was declared so far.
#[derive(Drop)]
pub struct Declarations {
    boot: Boot,
    remotes: Vec<Remote>,
    limit: Option<u32>,
    number: Option<u64>,
}

impl Model for Declarations {
    ghost use Rattle.sk_scenario.specs.Declarations.{Declared, declared_code};

    ghost Value = { Declared };

    ghost coded = { declared_code };

    ghost view = { λ d. record
        { boot = d.boot; remotes = d.remotes.items; limit = d.limit; number = d.number } };
}

/// The kind of a declaration's fault.
fn kind_of(fault: BootFault) -> FaultKind
    ensures { result ≡ boot_fault fault }
{
    match fault {
        BootFault::Duplicate | BootFault::NoScript => FaultKind::Label,
        BootFault::Memory => FaultKind::Memory,
    }
}

/// The content of this version and these bytes.
fn content_of(version: Natural, bytes: Text) -> Content
    ensures { result ≡ content_of version bytes }
{
    Content::new(version.get(), bytes).unwrap()
}

impl Declarations {
    /// Nothing declared.
    pub fn new(alloc: Global) -> Declarations
        ensures { result ≡ nothing_declared }
    {
        Declarations {
            boot: Boot::new(alloc),
            remotes: Vec::new(alloc),
            limit: None,
            number: None,
        }
    }

    /// What the kernel starts from.
    pub fn boot(&self) -> &Boot
        ensures { result.now ≡ self.now.boot }
    {
        &self.boot
    }

    /// The files that the server has from the start, in the order of their declaration. No two have
    /// one name.
    pub fn remotes(&self) -> &[Remote]
        ensures { result.now ≡ self.now.remotes }
    {
        &self.remotes
    }

    /// The trace limit.
    pub fn limit(&self) -> u32
        ensures { result ≡ unwrap_or self.now.limit TRACE_LIMIT }
    {
        self.limit.unwrap_or(TRACE_LIMIT)
    }

    /// The kernel's number, up to 2^63 - 1.
    pub fn number(&self) -> u64
        ensures { result ≡ unwrap_or self.now.number KERNEL_NUMBER }
    {
        self.number.unwrap_or(KERNEL_NUMBER)
    }

    /// Declares a script.
    pub fn script(&mut self, name: Name, script: Script) -> Result<(), FaultKind>
        ensures { Leaves result (script_added self.old name script) self.old self.new }
    {
        self.boot.script(name, script).map_err(kind_of)
    }

    /// Declares what a line says.
    pub fn line(&mut self, line: &[u8]) -> Result<Said, FaultKind>
        ensures { SaysNext result (line_said self.old (first_of (words line.now))) self.old
            self.new }
    {
        match first_word(line) {
            Some((first, words)) => self.said_in(first, &words),
            None => Ok(Said::Declared),
        }
    }

    /// Declares what a line says whose first word these bytes are.
    fn said_in(&mut self, word: &[u8], words: &Words) -> Result<Said, FaultKind>
        ensures { SaysNext result (says_next self.old word.now words.now) self.old self.new }
    {
        match str::from_utf8(word) {
            Ok(word) => self.said(word, words),
            Err(_) => Err(FaultKind::Word),
        }
    }

    /// Declares what a line says whose first word this is.
    #[tactic(auto, unfolding(crate::specs::Declarations::says_next))]
    fn said(&mut self, word: &str, words: &Words) -> Result<Said, FaultKind>
        ensures { SaysNext result (says_next self.old word.now words.now) self.old self.new }
    {
        match word {
            "script" => Ok(Said::Script(self.new_script(words)?)),
            "steps" => {
                none(words)?;
                Ok(Said::Heading(Heading::Steps))
            }
            "world" => {
                none(words)?;
                Ok(Said::Heading(Heading::World))
            }
            "trace" => {
                none(words)?;
                Ok(Said::Heading(Heading::Trace))
            }
            _ => self.declared(word, words),
        }
    }

    /// Declares what a line says that begins neither a script nor a section.
    fn declared(&mut self, word: &str, words: &Words) -> Result<Said, FaultKind>
        ensures { SaysNext result (declared_next self.old word.now words.now) self.old self.new }
    {
        self.declare(word, words)?;
        Ok(Said::Declared)
    }

    /// The name of a script that is not declared yet.
    fn new_script(&self, words: &Words) -> Result<Name, FaultKind>
        ensures { result ≡ new_script self.now words.now }
    {
        let name = one(words)?;
        if self.boot.scripts().get(&name).is_some() {
            return Err(FaultKind::Label);
        }
        Ok(name)
    }

    /// Declares what a line says whose first word this is.
    #[tactic(auto, unfolding(crate::specs::Declarations::declares))]
    fn declare(&mut self, word: &str, words: &Words) -> Result<(), FaultKind>
        ensures { Leaves result (declares self.old word.now words.now) self.old self.new }
    {
        match word {
            "file" => {
                let (name, bytes) = two(words)?;
                self.object(name, ObjectKind::File, bytes)
            }
            "pipe" => {
                let (name, bytes) = two(words)?;
                self.object(name, ObjectKind::Pipe, bytes)
            }
            "dir" => {
                let name = one(words)?;
                self.object(name, ObjectKind::Dir, Text::empty())
            }
            "copy" => {
                let (name, version, bytes) = three(words)?;
                self.copy(name, version, bytes)
            }
            "remote" => {
                let (name, version, bytes) = three(words)?;
                self.remote(name, version, bytes)
            }
            "process" => {
                let (number, script, terminal) = three(words)?;
                self.process(number, script, terminal)
            }
            "limit" => {
                let limit = one(words)?;
                self.trace_limit(limit)
            }
            "number" => {
                let number = one(words)?;
                self.kernel_number(number)
            }
            _ => Err(FaultKind::Word),
        }
    }

    fn has_object(&self, name: &Name) -> bool
        ensures { result ≡ has_object self.now.boot name.now }
    {
        self.boot
            .objects()
            .iter()
            .any(|object| object.name == *name)
    }

    /// Declares the next boot object, which begins with these bytes; a directory has none.
    fn object(&mut self, name: Name, kind: ObjectKind, bytes: Text) -> Result<(), FaultKind>
        requires { kind ≡ Dir → bytes ≡ [] }
        ensures { Leaves result (object self.old kind (name, bytes)) self.old self.new }
    {
        if self.has_object(&name) {
            return Err(FaultKind::Label);
        }
        if self.boot.objects().len() < BOOT_OBJECT_LIMIT {
            return self
                .boot
                .object(name, kind, bytes.as_slice())
                .map_err(kind_of);
        }
        Err(FaultKind::TooLong)
    }

    fn copy(&mut self, name: Name, version: Natural, bytes: Text) -> Result<(), FaultKind>
        ensures { Leaves result (copy self.old (name, version, bytes)) self.old self.new }
    {
        self.boot
            .copy(name, content_of(version, bytes))
            .map_err(kind_of)
    }

    fn has_remote(&self, name: &Name) -> bool
        ensures { result ≡ has_remote self.now name.now }
    {
        self.remotes.iter().any(|remote| remote.name == *name)
    }

    fn remote(&mut self, name: Name, version: Natural, bytes: Text) -> Result<(), FaultKind>
        ensures { Leaves result (remote self.old (name, version, bytes)) self.old self.new }
    {
        if self.has_remote(&name) {
            return Err(FaultKind::Label);
        }
        let content = content_of(version, bytes);
        self.remotes.push(Remote { name, content })?;
        Ok(())
    }

    fn process(&mut self, number: Index, script: Name, terminal: Index) -> Result<(), FaultKind>
        ensures { Leaves result (process self.old (number, script, terminal)) self.old self.new }
    {
        self.boot
            .process(number.get(), &script, terminal.get())
            .map_err(kind_of)
    }

    fn trace_limit(&mut self, limit: u32) -> Result<(), FaultKind>
        ensures { Leaves result (once self.old.limit (record self.old { limit = Some limit }))
            self.old self.new }
    {
        if self.limit.is_some() {
            return Err(FaultKind::Label);
        }
        self.limit = Some(limit);
        Ok(())
    }

    fn kernel_number(&mut self, number: Natural) -> Result<(), FaultKind>
        ensures { Leaves result (once self.old.number (record self.old { number = Some number }))
            self.old self.new }
    {
        if self.number.is_some() {
            return Err(FaultKind::Label);
        }
        self.number = Some(number.get());
        Ok(())
    }
}
