//! The labels of a script.
ghost use Rattle.std.specs.Prelude.{◌≡◌, [], ◌++◌, ◌∷◌, OnOk, OnErr};
ghost use Rattle.sk_script.specs.Instructions.{place_of};

use sk_words::{FaultKind, Label};
use std::alloc::{AllocError, Global};
use std::marker::Model;

/// A label, and the place of the instruction behind it.
#[derive(Clone, Copy)]
struct Mark {
    name: Label,
    place: u32,
}

/// Labels in the order of their declaration, which contracts see as a list of pairs.
#[derive(Drop)]
pub(crate) struct Labels {
    marks: Vec<Mark>,
}

impl Model for Labels {
    ghost use Rattle.std.specs.Prelude.{List, ℕ, map};

    ghost Value = { List (List ℕ × ℕ) };

    ghost view = { λ l. map (λ m. (m.name, m.place)) l.marks.items };
}

impl Labels {
    pub(crate) fn new(alloc: Global) -> Labels
        ensures { result ≡ [] }
    {
        Labels {
            marks: Vec::new(alloc),
        }
    }

    pub(crate) fn add(&mut self, name: Label, place: u32) -> Result<(), AllocError>
        ensures ok { OnOk result (self.new ≡ self.old ++ (name, place) ∷ []) }
        ensures err { OnErr result (self.new ≡ self.old) }
    {
        self.marks.push(Mark { name, place })?;
        Ok(())
    }

    /// The place of a label, which is the first where it is declared twice.
    pub(crate) fn place_of(&self, name: &Label) -> Result<u32, FaultKind>
        ensures { result ≡ place_of self.now name.now }
    {
        for mark in &self.marks {
            if mark.name == *name {
                return Ok(mark.place);
            }
        }
        Err(FaultKind::Label)
    }
}
