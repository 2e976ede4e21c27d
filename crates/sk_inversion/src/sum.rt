//! Numbers that are added to.
use crate::{Before, Inversion, Write};
use std::mem;

/// Numbers are set, or amounts are added to them, wrapping. An amount is undone by the number before, which is no larger.
pub struct Sum;

impl Inversion<u64> for Sum {
    ghost use Rattle.std.specs.Prelude.{⊤, ◌+◌, ◌%◌, ◌^◌};
    ghost use Rattle.sk_inversion.specs.Undone.{written_by};

    type Write = Write<u64, u64>;

    type Undo = u64;

    ghost written = { written_by (λ amount v. (v + amount) % 2 ^ 64) };

    ghost undone = { λ before _. before };

    ghost fits = { λ _ _. ⊤ };

    fn write(value: &mut Option<u64>, write: Write<u64, u64>) -> Before<u64, u64> {
        match write {
            Write::Set(new) => Before::Was(mem::replace(value, new)),
            Write::Change(amount) => match value {
                Some(number) => {
                    let before = *number;
                    *number = before.wrapping_add(amount);
                    Before::Changed(before)
                }
                None => Before::Was(None),
            },
        }
    }

    fn undo(value: &mut u64, undo: u64) {
        *value = undo;
    }

    fn join(_later: u64, earlier: u64) -> u64 {
        earlier
    }
}
