//! Inputs as events keep them: a few words, with what is long in a box.
ghost use Rattle.std.specs.Prelude.{◌≡◌, IfOk, OnErr};
ghost use Rattle.sk_script.specs.declared.instruction.Input.TheVariants as inputs;
ghost use Rattle.sk_trace.specs.Kept.{HasContent, IsInput, input_in};
ghost use Rattle.sk_words.specs.Printed.{AreBytes};

use sk_objects::Content;
use sk_script::Input;
use std::alloc::{AllocError, Global};
use std::fmt;
use std::marker::Model;

/// An input where it stands: its content is lent.
#[derive(Clone, Copy, Debug)]
pub enum InputRef<'a> {
    None,
    Good,
    Fresh(&'a Content),
    Stale(&'a Content),
}

impl<'a> InputRef<'a> {
    /// Lends an input.
    pub fn of(input: &'a Input) -> InputRef<'a>
        ensures { input_in result ≡ input.now }
    {
        match input {
            Input::None => InputRef::None,
            Input::Good => InputRef::Good,
            Input::Fresh(content) => InputRef::Fresh(content),
            Input::Stale(content) => InputRef::Stale(content),
        }
    }
}

/// An input, with its content in a box.
#[derive(Debug, Drop)]
enum KeptWords {
    None,
    Good,
    Fresh(Box<Content>),
    Stale(Box<Content>),
}

/// An input that is kept, of which contracts see what they see of an `Input`.
#[derive(Debug, Drop)]
pub struct KeptInput {
    words: KeptWords,
}

impl Model for KeptInput {
    ghost use Rattle.sk_script.specs.declared.instruction.Input.{Input};
    ghost use Rattle.sk_trace.specs.Kept.{input_of};

    ghost Value = { Input };

    ghost view = { λ k. input_of k.words };
}

impl PartialEq for KeptInput {
    ghost use Rattle.std.specs.Cmp.{partial_equiv_from_equiv};
    ghost use Rattle.sk_script.specs.contracts.instruction.InputEq.TheImpl.Laws.{laws-law as input_laws};
    ghost use Rattle.sk_script.specs.contracts.instruction.InputPartialEq.TheImpl as input;

    ghost eq = { (input.ghosts).eq };

    ghost laws = { partial_equiv_from_equiv input_laws };

    fn eq(&self, other: &KeptInput) -> bool {
        self.input() == other.input()
    }
}

impl Eq for KeptInput {
    ghost use Rattle.sk_script.specs.contracts.instruction.InputEq.TheImpl.Laws.{laws-law as input_laws};

    ghost laws = { input_laws };
}

impl KeptInput {
    /// No input. This takes no memory.
    pub fn none() -> KeptInput
        ensures { result ≡ inputs.None }
    {
        KeptInput {
            words: KeptWords::None,
        }
    }

    /// That a cached copy is good. This takes no memory.
    pub fn good() -> KeptInput
        ensures { result ≡ inputs.Good }
    {
        KeptInput {
            words: KeptWords::Good,
        }
    }

    /// Keeps an input. It takes memory only for a content.
    pub fn keep(alloc: Global, input: InputRef<'_>) -> Result<KeptInput, AllocError>
        ensures ok { IfOk result (λ kept. kept ≡ input_in input.entry) }
        ensures err { OnErr result (HasContent (input_in input.entry)) }
    {
        let words = match input {
            InputRef::None => KeptWords::None,
            InputRef::Good => KeptWords::Good,
            InputRef::Fresh(content) => KeptWords::Fresh(Box::new(alloc, *content)?),
            InputRef::Stale(content) => KeptWords::Stale(Box::new(alloc, *content)?),
        };
        Ok(KeptInput { words })
    }

    pub fn input(&self) -> Input
        ensures { result ≡ self.now }
    {
        match &self.words {
            KeptWords::None => Input::None,
            KeptWords::Good => Input::Good,
            KeptWords::Fresh(content) => Input::Fresh(**content),
            KeptWords::Stale(content) => Input::Stale(**content),
        }
    }

    /// Lends the input.
    pub fn lend(&self) -> InputRef<'_>
        ensures { input_in result ≡ self.now }
    {
        match &self.words {
            KeptWords::None => InputRef::None,
            KeptWords::Good => InputRef::Good,
            KeptWords::Fresh(content) => InputRef::Fresh(content),
            KeptWords::Stale(content) => InputRef::Stale(content),
        }
    }

    /// What holds of every input, for proofs.
    pub fn known(&self)
        ensures { IsInput self.now }
    {
        match &self.words {
            KeptWords::None | KeptWords::Good => {}
            KeptWords::Fresh(content) | KeptWords::Stale(content) => {
                content.known();
                known_bytes(content.bytes().as_slice());
            }
        }
    }
}

/// What holds of all bytes, for proofs.
fn known_bytes(bytes: &[u8])
    ensures { AreBytes bytes.now }
{}

/// The words that say the input, with single spaces.
impl fmt::Display for KeptInput {
    ghost use Rattle.std.specs.Prelude.{Some};
    ghost use Rattle.sk_words.specs.Spelling.{spaced};
    ghost use Rattle.sk_script.specs.StepInput.{input_words};

    ghost output = { λ i. Some (spaced (input_words i)) };

    fn fmt<W: fmt::Write>(&self, f: &mut fmt::Formatter<W>) -> fmt::Result {
        let input = self.input();
        write!(f, "{input}")
    }
}
