//! A box as its pointer.
ghost use Rattle.std.specs.Prelude.{◌≡◌};
ghost use Rattle.sk_cells.specs.Kept.{kept_at};

use std::alloc::Global;
use std::marker::Model;

/// Where the value of a box lies, which is owned as by the box.
pub(crate) struct Kept<T> {
    pub(crate) at: *mut T,
    pub(crate) ghost value: { T },
}

impl<T> Model for Kept<T> {
    ghost also_owns = { λ k. kept_at T.row k.at k.value };
}

impl<T> Kept<T> {
    /// The box again.
    pub(crate) fn into_box(self, alloc: Global) -> Box<T>
        ensures { result.value ≡ self.value }
    {
        let Kept { at } = self;
        unsafe { Box::from_raw(alloc, at) }
    }
}
