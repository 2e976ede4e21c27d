//! Whether a directory has room for the name that a step adds.
ghost use Rattle.std.specs.Prelude.{◌≡◌, ℕ, false, nat_le, MatchOption};
ghost use Rattle.sk_plain.specs.Adds.{adds_of};
ghost use Rattle.sk_kernel.specs.Base.{DIRECTORY_LIMIT, IsCount, name_there, look_at};

use sk_machine::Machine;
use sk_plain::Plan;

/// The names that a directory may have when another is linked. A failure may leave more.
pub const DIRECTORY_LIMIT: usize = 64;

/// Whether a planned step adds a name to a directory that has no room for it. This takes no memory.
#[inline(always)]
pub(crate) fn is_crowded(machine: &Machine, plan: &Plan) -> bool
    ensures { MatchOption (adds_of plan.now) (result ≡ false)
        (λ d. (n : ℕ) → IsCount (name_there (look_at machine.now.slots)) d n
        → result ≡ nat_le DIRECTORY_LIMIT n) }
{
    match plan.adds() {
        Some(directory) => machine.names(&directory) >= DIRECTORY_LIMIT,
        None => false,
    }
}
