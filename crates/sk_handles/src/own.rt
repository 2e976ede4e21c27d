//! What C holds of a kernel over its caller's own byte strings.
ghost use Rattle.std.specs.Prelude.{◌≡◌, Option};
ghost use Rattle.sk_handles.specs.Base.{HeldView};
ghost use Rattle.sk_cells.specs.Kept.{cell_at, cell_code};
ghost use Rattle.sk_held.specs.contracts.held.Held.{the_row};

use sk_cells::cell::Cell;
use sk_cells::holds::Holds;
use sk_held::Held;
use std::marker::Model;

/// Where such a kernel lies, or nothing, as in a handle of zeros. It can't be dropped: what it holds has to be closed.
#[repr(C)]
pub struct Own {
    at: *mut u8,
    pub ghost held: { Option HeldView } by { cell_code the_row },
}

impl Model for Own {
    ghost also_owns = { λ h. cell_at the_row h.at h.held };
}

impl Holds for Own {
    type Held = Held;

    ghost holds = { λ h. h.held };

    fn of(cell: Cell<Held>) -> Own
        ensures { result.held ≡ cell.held }
    {
        let Cell { at } = cell;
        Own { at: at as *mut u8 }
    }

    fn into_cell(self) -> Cell<Held>
        ensures { result.held ≡ self.held }
    {
        let Own { at } = self;
        Cell {
            at: at as *mut Held,
        }
    }
}
