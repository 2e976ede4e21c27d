//! Changes of pipes.
ghost use Rattle.std.specs.Prelude.{false, ◌≡◌, ◌≤◌, ◌+◌, ◌&&◌, not, nat_le, length};
ghost use Rattle.sk_changes.specs.Base.{TEXT_LIMIT, PIPE_LIMIT};
ghost use Rattle.sk_changes.specs.Pipes.{pipe_fits, pipe_grows, pipe_after, pipe_undo, CanUndoPipe, pipe_undone};

use crate::{Change, HeldBytes, Invertible, NotApplied, Undo};
use sk_ids::text::TEXT_LIMIT;
use sk_objects::Pipe;
use sk_objects::pipe::PIPE_LIMIT;
use std::alloc::Global;

/// Whether so many bytes, at most a text's, may be put where so many are held.
fn is_put(shut: bool, held: usize, count: usize) -> bool
    requires held { held ≤ PIPE_LIMIT }
    requires short { count ≤ TEXT_LIMIT }
    ensures { result ≡ (not shut
        && (nat_le 1 count && (nat_le count TEXT_LIMIT && nat_le (held + count) PIPE_LIMIT))) }
{
    !shut && count >= 1 && held + count <= PIPE_LIMIT
}

impl Invertible for Pipe {
    ghost valid = { λ p. length p.bytes ≤ PIPE_LIMIT };

    ghost fits = { pipe_fits };

    ghost grows = { pipe_grows };

    ghost applied = { pipe_after };

    ghost undo_of = { pipe_undo };

    ghost can_undo = { CanUndoPipe };

    ghost undone = { pipe_undone };

    fn apply(&mut self, alloc: Global, change: Change) -> Result<Undo, NotApplied> {
        let held = self.len();
        match change {
            Change::Put(bytes) => {
                if !is_put(self.is_shut(), held, bytes.len()) {
                    return Err(NotApplied::Unfit);
                }
                self.put(bytes.as_slice());
                Ok(Undo::Unput(held as u32))
            }
            Change::Take(count) => {
                if count == 0 || count as usize > TEXT_LIMIT || count as usize > held {
                    return Err(NotApplied::Unfit);
                }
                let bytes = HeldBytes::new(alloc, &self.front(count as usize))?;
                self.advance(count as usize);
                Ok(Undo::Untake(bytes))
            }
            Change::Shut => {
                if self.is_shut() {
                    return Err(NotApplied::Unfit);
                }
                self.set_shut(true);
                Ok(Undo::Reopen)
            }
            _ => Err(NotApplied::Unfit),
        }
    }

    fn undo(&mut self, undo: Undo) {
        match undo {
            Undo::Unput(held) => self.truncate(held as usize),
            Undo::Untake(bytes) => self.put_back(bytes.as_slice()),
            Undo::Reopen => self.set_shut(false),
            _ => {}
        }
    }

    ghost use Rattle.sk_ids.specs.declared.text.TheConstants.{TEXT_LIMIT};
    ghost use Rattle.sk_objects.specs.declared.pipe.TheConstants.{PIPE_LIMIT};
    ghost use Rattle.sk_changes.specs.PipesLaw.{pipe_restores};

    ghost restores = { pipe_restores };
}
