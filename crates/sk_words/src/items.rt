//! What the lines of a section say, one after the other.
ghost use Rattle.std.specs.Prelude.{◌≡◌, [], ◌∷◌, ◌++◌, All, Ok};
ghost use Rattle.sk_words.specs.Reading.{Leaves};

use crate::{FaultKind, Reader, Words, first_word};
use std::alloc::Global;
use std::marker::Model;

/// What the lines of a section list.
pub trait Listed: Sized + Drop {
    /// What a line says.
    type Item: Drop;

    /// What holds of each item that a line says.
    ghost fits: { Self.Item → Type 0 };
}

/// What the lines of a section say, by their first words.
pub trait Rules: Listed {
    ghost use Rattle.std.specs.Prelude.{ℕ, List, IfSome};
    ghost use Rattle.sk_words.specs.Reading.{Leaves};
    ghost use Rattle.sk_words.specs.Tables.{Rule, with_said};
    ghost use Rattle.sk_words.specs.Items.{with_item, BeginsWith};

    /// What a first word says with the words behind it.
    ghost rule: { List ℕ → Rule Self.Item };

    /// Adds what a line says whose first word this is, or says what is wrong with it; nothing has changed then.
    fn add(items: &mut Items<Self>, word: &[u8], words: &Words) -> Result<(), FaultKind>
        ensures { Leaves result
            (with_said items.old (rule word.now words.now)) items.old items.new };

    /// Adds what a line says; one without words adds nothing.
    fn line(items: &mut Items<Self>, line: &[u8]) -> Result<(), FaultKind>
        ensures { Leaves result (with_item rule items.old line.now) items.old items.new }
    {
        match first_word(line) {
            Some((first, words)) => Self::add(items, first, &words),
            None => Ok(()),
        }
    }

    /// What the first line of a text says where its bytes tell it at once, and what is behind that line.
    #[inline(always)]
    fn glance(_text: &[u8]) -> Option<(Self::Item, &[u8])>
        ensures { IfSome result (λ x. BeginsWith rule _text.now x.0 x.1.now × Self.fits x.0) }
    {
        None
    }
}

/// What the lines of a section say, in order.
#[derive(Drop)]
pub struct Items<R: Listed> {
    items: Vec<R::Item>,
}

impl<R: Listed> Model for Items<R> {
    ghost use Rattle.std.specs.Prelude.{List, All};

    ghost Value = { List R.Item };

    ghost view = { λ s. s.items.items };

    ghost invariant = { λ s. All R.fits s.items.items };
}

impl<R: Listed> Items<R> {
    /// No item.
    pub fn new(alloc: Global) -> Items<R>
        ensures { result ≡ [] }
    {
        Items {
            items: Vec::new(alloc),
        }
    }

    /// The items.
    pub fn as_slice(&self) -> &[R::Item]
        ensures { result.now ≡ self.now }
    {
        &self.items
    }

    /// All of them.
    pub fn into_vec(self) -> Vec<R::Item>
        ensures value { result.items ≡ self }
        ensures fits { All R.fits result.items }
    {
        self.items
    }

    /// The allocator that it takes memory of.
    pub fn allocator(&self) -> &Global {
        self.items.allocator()
    }

    /// Adds an item.
    #[inline(always)]
    pub fn push(&mut self, item: R::Item) -> Result<(), FaultKind>
        requires { R.fits item }
        ensures { Leaves result (Ok (self.old ++ item ∷ [])) self.old self.new }
    {
        self.items.reserve(1)?;
        self.items.push_reserved(item);
        Ok(())
    }
}

impl<R: Rules> Reader for Items<R> {
    ghost use Rattle.sk_words.specs.Items.{with_item};

    ghost said = { with_item R.rule };

    fn line(&mut self, line: &[u8]) -> Result<(), FaultKind> {
        R::line(self, line)
    }

    #[inline(always)]
    fn glance<'a>(&mut self, text: &'a [u8]) -> Option<&'a [u8]> {
        if self.items.len() == self.items.capacity() {
            return None;
        }
        let (said, rest) = R::glance(text)?;
        self.items.push_reserved(said);
        Some(rest)
    }
}
