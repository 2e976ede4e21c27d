//! A text that was said.
ghost use Rattle.std.specs.Prelude.{◌≡◌};
ghost use Rattle.sk_record.specs.Notes.{has, without};
ghost use Rattle.sk_terminal.specs.Terminal.{is_clear};

use sk_ids::{GuessId, TagSet, Text};
use std::marker::Model;

/// A text with the undecided guesses that it depends on; contracts see the two as a pair.
#[derive(Drop)]
pub(crate) struct BufferedText {
    text: Text,
    tags: TagSet,
}

impl Model for BufferedText {
    ghost use Rattle.sk_terminal.specs.Terminal.{TaggedText};

    ghost Value = { TaggedText };

    ghost view = { λ a. (a.text, a.tags) };
}

impl PartialEq for BufferedText {
    ghost use Rattle.std.specs.Cmp.{decided, partial_equiv_from_equiv};
    ghost use Rattle.sk_terminal.specs.Same.{same_said};
    ghost use Rattle.sk_terminal.specs.SameLemma.{exact_said};

    ghost eq = { same_said };

    ghost laws = { partial_equiv_from_equiv (decided same_said exact_said) };

    fn eq(&self, other: &BufferedText) -> bool {
        self.text == other.text && self.tags.ids() == other.tags.ids()
    }
}

impl BufferedText {
    /// A text that depends on these guesses.
    pub(crate) fn new(text: Text, tags: TagSet) -> BufferedText
        ensures { result ≡ (text, tags) }
    {
        BufferedText { text, tags }
    }

    /// What was said.
    pub(crate) fn text(&self) -> Text
        ensures { result ≡ self.now.0 }
    {
        self.text
    }

    /// Whether it depends on no guess.
    pub(crate) fn is_clear(&self) -> bool
        ensures { result ≡ is_clear self.now }
    {
        self.tags.ids().is_empty()
    }

    /// Whether it depends on a guess.
    pub(crate) fn rests_on(&self, id: GuessId) -> bool
        ensures { result ≡ has id self.now.1 }
    {
        self.tags.contains(id)
    }

    /// Takes a guess from what it depends on. This takes no memory.
    pub(crate) fn without(&mut self, id: GuessId)
        ensures { self.new ≡ (self.old.0, without id self.old.1) }
    {
        self.tags.without(id);
    }
}
