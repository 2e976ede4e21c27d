//! How many notes are held.
ghost use Rattle.std.specs.Prelude.{◌≡◌, []};
ghost use Rattle.sk_kernel.specs.Kernel.{undecided_at};
ghost use Rattle.sk_kernel.specs.Notes.{CanHold};

use crate::Kernel;

impl Kernel {
    /// How many notes are held for what may be taken back: for each write that depends on an undecided guess one at most, as a
    /// note stands for later writes, too. None exactly where nothing depends on such a guess, and at least one for each entity
    /// that does. This takes no memory.
    pub fn notes(&self) -> usize
        ensures held { CanHold self.now result }
        ensures decided { undecided_at self.now ≡ [] → result ≡ 0 }
    {
        self.machine.notes()
    }
}
