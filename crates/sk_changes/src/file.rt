//! Changes of files.
ghost use Rattle.std.specs.Prelude.{◌<◌, ◌^◌, ◌&&◌, nat_le, nat_lt, ◌≡◌, ◌≤◌, ◌+◌, length, true, IfOk, OnOk, OnErr};
ghost use Rattle.sk_changes.specs.Base.{TEXT_LIMIT, cut, FILE_LIMIT, CutTo};
ghost use Rattle.sk_changes.specs.Files.{file_fits, file_grows, file_after, file_undo, CanUndoFile, file_undone};

use crate::{Change, Invertible, NotApplied, Undo};
use sk_objects::File;
use sk_objects::file::FILE_LIMIT;
use std::alloc::{AllocError, Global};

/// Whether a write of so many bytes, at most a text's, fits.
fn is_write(at: usize, count: usize) -> bool
    requires low { at < 2 ^ 32 }
    requires short { count ≤ TEXT_LIMIT }
    ensures { result ≡ (nat_le 1 count
        && (nat_le count TEXT_LIMIT && nat_le (at + count) FILE_LIMIT)) }
{
    count >= 1 && at + count <= FILE_LIMIT
}

/// Keeps the first bytes, or appends zeros, and answers what takes that back. Zeros at the end want no memory, nor does
/// what takes them back.
fn cut_noted(file: &mut File, count: u32) -> Result<Undo, AllocError>
    requires { count ≤ FILE_LIMIT }
    ensures ok { OnOk result (file.new ≡ cut file.old count) }
    ensures undo { IfOk result (λ undo. undo ≡ file_undo file.old (CutTo count)) }
    ensures grows { OnErr result (nat_lt count (length file.old) ≡ true) }
    ensures err { OnErr result (file.new ≡ file.old) }
{
    let held = file.len();
    if (count as usize) < held {
        let old = file.copy()?;
        file.cut_to(count as usize)?;
        return Ok(Undo::Restore(old));
    }
    file.cut_to(count as usize)?;
    Ok(Undo::Unput(held as u32))
}

impl Invertible for File {
    ghost valid = { λ f. length f ≤ FILE_LIMIT };

    ghost fits = { file_fits };

    ghost grows = { file_grows };

    ghost applied = { file_after };

    ghost undo_of = { file_undo };

    ghost can_undo = { CanUndoFile };

    ghost undone = { file_undone };

    fn apply(&mut self, _alloc: Global, change: Change) -> Result<Undo, NotApplied> {
        let _len = self.len();
        match &change {
            Change::WriteAt { offset, bytes } => {
                if !is_write(*offset as usize, bytes.len()) {
                    return Err(NotApplied::Unfit);
                }
                let old = self.copy()?;
                self.write_at(*offset as usize, bytes.as_slice())?;
                Ok(Undo::Restore(old))
            }
            Change::CutTo(count) => {
                if *count as usize > FILE_LIMIT {
                    return Err(NotApplied::Unfit);
                }
                Ok(cut_noted(self, *count)?)
            }
            _ => Err(NotApplied::Unfit),
        }
    }

    fn undo(&mut self, undo: Undo) {
        match undo {
            Undo::Restore(old) => *self = old,
            Undo::Unput(count) => self.drop_zeros(count as usize),
            _ => {}
        }
    }

    ghost use Rattle.sk_changes.specs.FilesLaw.{file_restores};

    ghost restores = { file_restores };
}
