//! What C holds of a store.
ghost use Rattle.std.specs.Prelude.{◌≡◌, Option};
ghost use Rattle.sk_handles.specs.Base.{the_row, StoreView};
ghost use Rattle.sk_cells.specs.Kept.{cell_at, cell_code};

use sk_cells::cell::Cell;
use sk_cells::holds::Holds;
use sk_durable::Store;
use std::marker::Model;

/// Where a store lies, or nothing, as in a handle of zeros. It can't be dropped: what it holds has to be closed.
#[repr(C)]
pub struct Durable {
    at: *mut u8,
    pub ghost held: { Option StoreView } by { cell_code the_row },
}

impl Model for Durable {
    ghost also_owns = { λ h. cell_at the_row h.at h.held };
}

impl Holds for Durable {
    type Held = Store;

    ghost holds = { λ h. h.held };

    fn of(cell: Cell<Store>) -> Durable
        ensures { result.held ≡ cell.held }
    {
        let Cell { at } = cell;
        Durable { at: at as *mut u8 }
    }

    fn into_cell(self) -> Cell<Store>
        ensures { result.held ≡ self.held }
    {
        let Durable { at } = self;
        Cell {
            at: at as *mut Store,
        }
    }
}
