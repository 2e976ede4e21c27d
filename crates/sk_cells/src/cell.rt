//! A box as its pointer, or nothing.
ghost use Rattle.std.specs.Prelude.{◌≡◌, Option, Some, None, MatchOption};
ghost use Rattle.sk_cells.specs.Kept.{cell_at};

use crate::kept::Kept;
use std::alloc::Global;
use std::marker::Model;
use std::ptr::null_mut;

/// Where the value of a box lies, which is owned as by the box, or nothing, at null.
pub struct Cell<T> {
    pub at: *mut T,
    pub ghost held: { Option T },
}

impl<T> Model for Cell<T> {
    ghost also_owns = { λ c. cell_at T.row c.at c.held };
}

impl<T> Cell<T> {
    /// A cell of nothing.
    pub fn empty() -> Cell<T>
        ensures { result.held ≡ None }
    {
        Cell { at: null_mut() }
    }

    /// A cell of what a box has.
    pub(crate) fn of(whole: Box<T>) -> Cell<T>
    where
        T: Drop,
        ensures { result.held ≡ Some whole.value }
    {
        let at = Box::into_raw(whole);
        Cell { at }
    }

    /// What is held, in its box.
    pub(crate) fn into_box(self, alloc: Global) -> Option<Box<T>>
        ensures { MatchOption result (self.held ≡ None) (λ whole. self.held ≡ Some whole.value) }
    {
        match self.into_kept() {
            Some(kept) => Some(kept.into_box(alloc)),
            None => None,
        }
    }

    /// Ends a cell of nothing.
    pub fn let_go(self)
        requires { self.held ≡ None }
    {
        let Cell { at: _ } = self;
    }

    fn into_kept(self) -> Option<Kept<T>>
        ensures { MatchOption result (self.held ≡ None) (λ kept. self.held ≡ Some kept.value) }
    {
        let Cell { at } = self;
        if at == null_mut() {
            None
        } else {
            Some(Kept { at })
        }
    }
}
