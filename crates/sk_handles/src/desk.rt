//! What C holds of a desk.
ghost use Rattle.std.specs.Prelude.{◌≡◌, Option};
ghost use Rattle.sk_cells.specs.Kept.{cell_at, cell_code};
ghost use Rattle.sk_handles.specs.contracts.client.Client.{the_row};
ghost use Rattle.sk_handles.specs.declared.client.Client.{Client as ClientView};

use crate::client::Client;
use sk_cells::cell::Cell;
use sk_cells::holds::Holds;
use std::marker::Model;

/// Where a desk lies, or nothing, as in a handle of zeros. It can't be dropped: what it holds has to be closed.
#[repr(C)]
pub struct DeskHandle {
    at: *mut u8,
    pub ghost held: { Option ClientView } by { cell_code the_row },
}

impl Model for DeskHandle {
    ghost also_owns = { λ h. cell_at the_row h.at h.held };
}

impl Holds for DeskHandle {
    type Held = Client;

    ghost holds = { λ h. h.held };

    fn of(cell: Cell<Client>) -> DeskHandle
        ensures { result.held ≡ cell.held }
    {
        let Cell { at } = cell;
        DeskHandle { at: at as *mut u8 }
    }

    fn into_cell(self) -> Cell<Client>
        ensures { result.held ≡ self.held }
    {
        let DeskHandle { at } = self;
        Cell {
            at: at as *mut Client,
        }
    }
}
