//! How many notes are held.
ghost use Rattle.std.specs.Prelude.{◌≡◌, ◌↔◌, min, ◌-◌, ◌^◌};
ghost use Rattle.sk_undo.specs.Count.{AreUnnoted, notes_in};

use crate::Machine;

impl Machine {
    /// How many notes all entities have, or the largest number where there are more. This takes no memory.
    pub fn notes(&self) -> usize
        ensures count { result ≡ min (notes_in self.now.slots) (2 ^ 64 - 1) }
        ensures none { (result ≡ 0) ↔ AreUnnoted self.now.slots }
    {
        self.logs.notes()
    }
}
