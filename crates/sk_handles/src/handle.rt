//! What C holds.
ghost use Rattle.std.specs.Prelude.{◌≡◌, Option};
ghost use Rattle.sk_handles.specs.Base.{PlayView};
ghost use Rattle.sk_cells.specs.Kept.{cell_at, cell_code};
ghost use Rattle.sk_talk.specs.contracts.play.Play.{the_row};

use sk_cells::cell::Cell;
use sk_cells::holds::Holds;
use sk_talk::Play;
use std::marker::Model;

/// Where what is at play lies, or nothing, as in a handle of zeros. It can't be dropped: what it holds has to be closed.
#[repr(C)]
pub struct Handle {
    at: *mut u8,
    pub ghost held: { Option PlayView } by { cell_code the_row },
}

impl Model for Handle {
    ghost also_owns = { λ h. cell_at the_row h.at h.held };
}

impl Holds for Handle {
    type Held = Play;

    ghost holds = { λ h. h.held };

    fn of(cell: Cell<Play>) -> Handle
        ensures { result.held ≡ cell.held }
    {
        let Cell { at } = cell;
        Handle { at: at as *mut u8 }
    }

    fn into_cell(self) -> Cell<Play>
        ensures { result.held ≡ self.held }
    {
        let Handle { at } = self;
        Cell {
            at: at as *mut Play,
        }
    }
}
