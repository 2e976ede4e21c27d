//! Handles of C, and what they hold.
ghost use Rattle.std.specs.Prelude.{◌≡◌, Option, Some, None, MatchOption};

use crate::cell::Cell;
use std::alloc::Global;
use std::mem::replace;

/// A handle of C, which holds what a cell may hold.
pub trait Holds {
    type Held;

    ghost holds: { Self → Option Self.Held };

    fn of(cell: Cell<Self::Held>) -> Self
        ensures { holds result ≡ cell.held };

    fn into_cell(self) -> Cell<Self::Held>
        ensures { result.held ≡ holds self };
}

/// What is held, in its box; nothing is held then.
pub fn take_out<H: Holds>(handle: &mut H, alloc: Global) -> Option<Box<H::Held>>
    ensures was { MatchOption result (H.holds handle.old ≡ None) (λ held. H.holds handle.old ≡ Some held.value) }
    ensures none { H.holds handle.new ≡ None }
{
    replace(handle, H::of(Cell::empty()))
        .into_cell()
        .into_box(alloc)
}

/// Holds what a box has, where nothing is held.
pub fn put_in<H: Holds>(handle: &mut H, held: Box<H::Held>)
where
    H::Held: Drop,
    requires { H.holds handle.old ≡ None }
    ensures { H.holds handle.new ≡ Some held.value }
{
    replace(handle, H::of(Cell::of(held))).into_cell().let_go();
}
