//! What C holds of a log that is read.
ghost use Rattle.std.specs.Prelude.{◌≡◌, Option};
ghost use Rattle.sk_cells.specs.Kept.{cell_at, cell_code};
ghost use Rattle.sk_handles.specs.contracts.reading.Reading.{the_row};
ghost use Rattle.sk_handles.specs.declared.reading.Reading.{Reading as ReadingView};

use crate::reading::Reading;
use sk_cells::cell::Cell;
use sk_cells::holds::Holds;
use std::marker::Model;

/// Where what is read of a log lies, or nothing, as in a handle of zeros. It can't be dropped: what it holds has to be closed.
#[repr(C)]
pub struct Recovering {
    at: *mut u8,
    pub ghost held: { Option ReadingView } by { cell_code the_row },
}

impl Model for Recovering {
    ghost also_owns = { λ h. cell_at the_row h.at h.held };
}

impl Holds for Recovering {
    type Held = Reading;

    ghost holds = { λ h. h.held };

    fn of(cell: Cell<Reading>) -> Recovering
        ensures { result.held ≡ cell.held }
    {
        let Cell { at } = cell;
        Recovering { at: at as *mut u8 }
    }

    fn into_cell(self) -> Cell<Reading>
        ensures { result.held ≡ self.held }
    {
        let Recovering { at } = self;
        Cell {
            at: at as *mut Reading,
        }
    }
}
