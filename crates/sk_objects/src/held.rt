//! A content on the heap, so that what holds one is a few words.
ghost use Rattle.std.specs.Prelude.{◌≡◌, IfOk};

use crate::Content;
use std::alloc::{AllocError, Global};
use std::marker::Model;

/// A content in a box of its own; contracts see the content.
#[derive(Drop)]
pub struct HeldContent {
    content: Box<Content>,
}

impl Model for HeldContent {
    ghost use Rattle.sk_objects.specs.Content.{ContentView, content_code};

    ghost Value = { ContentView };

    ghost coded = { content_code };

    ghost view = { λ c. c.content.value };
}

impl PartialEq for HeldContent {
    ghost use Rattle.std.specs.Cmp.{partial_equiv_from_equiv};
    ghost use Rattle.sk_objects.specs.contracts.content.ContentEq.TheImpl.Laws.{laws-law as content_laws};
    ghost use Rattle.sk_objects.specs.contracts.content.ContentPartialEq.TheImpl as content;

    ghost eq = { (content.ghosts).eq };

    ghost laws = { partial_equiv_from_equiv content_laws };

    fn eq(&self, other: &HeldContent) -> bool {
        self.content() == other.content()
    }
}

impl Eq for HeldContent {
    ghost use Rattle.sk_objects.specs.contracts.content.ContentEq.TheImpl.Laws.{laws-law as content_laws};

    ghost laws = { content_laws };
}

impl HeldContent {
    /// Takes a content in. Inlined, so that it is not copied on its way into its box.
    #[inline(always)]
    pub fn new(alloc: Global, content: Content) -> Result<HeldContent, AllocError>
        ensures { IfOk result (λ held. held ≡ content) }
    {
        let content = Box::new(alloc, content)?;
        Ok(HeldContent { content })
    }

    pub fn content(&self) -> &Content
        ensures { result.now ≡ self.now }
    {
        &self.content
    }

    /// Another of the same content, in a box of its own.
    pub fn copy(&self) -> Result<HeldContent, AllocError>
        ensures { IfOk result (λ copy. copy ≡ self.now) }
    {
        let content = Box::new(*Box::allocator(&self.content), *self.content)?;
        Ok(HeldContent { content })
    }
}
