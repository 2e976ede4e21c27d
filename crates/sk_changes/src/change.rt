//! What a change is, what takes it back, and what each value promises of them.
ghost use Rattle.std.specs.Prelude.{◌≡◌, ◌↔◌, Bool, true, false, IfOk, OnOk, OnErr, Err};

use crate::HeldBytes;
use sk_ids::Text;
use sk_objects::{Content, File, HeldContent};
use std::alloc::{AllocError, Global};
use thiserror::Error;

/// A change of one value.
#[derive(Clone, Copy, Debug, PartialEq, Eq)]
pub enum Change {
    /// 1 to 512 bytes at a place of a file, with zeros in a gap; the file ends by 32,768.
    WriteAt { offset: u32, bytes: Text },
    /// A file's first bytes, so many, or all of them and zeros up to there; at most 32,768.
    CutTo(u32),
    /// 1 to 512 bytes at the end of a pipe that is not shut and then holds at most 4,096.
    Put(Text),
    /// So many bytes from the front of a pipe, 1 to 512 and at most what it holds.
    Take(u32),
    /// A pipe that is not shut is shut; its bytes stay.
    Shut,
    /// A signal from 1 to 31 at the back of a queue of under 32.
    PushSignal(u8),
    /// The signal at the front of a queue goes.
    TakeSignal,
    /// The status of an exit slot that is not set.
    SetExit(u8),
    /// Another content of a copy.
    SetCopy(Content),
}

/// What puts a value back. It holds all that it needs, so that to use it takes no memory; what is
/// long stands on the heap, so that an undo is a few words.
#[derive(Drop)]
pub enum Undo {
    /// The file as it was; it shares the blocks that were not written since.
    Restore(File),
    /// The number of bytes that a pipe held, or a file before zeros came behind them.
    Unput(u32),
    /// The bytes that left the front of a pipe.
    Untake(HeldBytes),
    /// A pipe was not shut.
    Reopen,
    /// The signal at the back is new.
    Unpush,
    /// The signal that left the front.
    Requeue(u8),
    /// An exit slot was not set.
    ClearExit,
    /// The content that a copy had.
    Recopy(HeldContent),
}

/// Why a change was not made.
#[derive(Debug, Drop, PartialEq, Eq, Error)]
pub enum NotApplied {
    #[error("the change does not fit")]
    Unfit,
    #[error("out of memory")]
    Memory,
}

impl From<AllocError> for NotApplied {
    ghost use Rattle.sk_changes.specs.declared.change.NotApplied.TheVariants.{Memory};

    ghost from_gives = { λ _ r. r ≡ Memory };

    fn from(_error: AllocError) -> NotApplied {
        NotApplied::Memory
    }
}

/// A value whose changes can be taken back.
pub trait Invertible {
    ghost use Rattle.sk_changes.specs.declared.change.Change.{Change};
    ghost use Rattle.sk_changes.specs.declared.change.Undo.{Undo};

    /// What holds of every value that there is.
    ghost valid: { Self → Type 0 };

    /// Whether a change fits.
    ghost fits: { Self → Change → Bool };

    /// Whether a change that fits can want memory.
    ghost grows: { Self → Change → Bool };

    /// The value after a change that fits.
    ghost applied: { Self → Change → Self };

    /// What puts the value back after it.
    ghost undo_of: { Self → Change → Undo };

    /// Whether an undo may be given back to a value.
    ghost can_undo: { Self → Undo → Type 0 };

    /// The value after that.
    ghost undone: { Self → Undo → Self };

    /// Makes the change, with memory for its undo from `alloc`. After an `Err` nothing has changed.
    /// Want of memory is told only of a change that fits and can want it.
    fn apply(&mut self, alloc: Global, change: Change) -> Result<Undo, NotApplied>
        ensures known { valid self.old }
        ensures fit { OnOk result (fits self.old change ≡ true) }
        ensures ok { IfOk result
            (λ undo. (self.new ≡ applied self.old change) × (undo ≡ undo_of self.old change)) }
        ensures unfit { (result ≡ Err NotApplied.Unfit) ↔ (fits self.old change ≡ false) }
        ensures err { OnErr result (self.new ≡ self.old) }
        ensures memory { result ≡ Err NotApplied.Memory → grows self.old change ≡ true }
        ensures back { IfOk result
            (λ undo. can_undo self.new undo × (undone self.new undo ≡ self.old)) };

    /// Takes back a change, which takes no memory.
    fn undo(&mut self, undo: Undo)
        requires { can_undo self.old undo }
        ensures { self.new ≡ undone self.old undo };

    /// A change that fits and then its undo give the value before.
    ghost restores: { (v : Self) (c : Change) → valid v → fits v c ≡ true
        → can_undo (applied v c) (undo_of v c) × (undone (applied v c) (undo_of v c) ≡ v) };
}
