//! What keys have, as a command sees it.
ghost use Rattle.std.specs.Prelude.{◌≡◌};

use crate::ByteString;

/// A store that a command looks at.
pub trait Look {
    ghost use Rattle.std.specs.Prelude.{ℕ, List, Option};
    ghost use Rattle.std.specs.Option.{option_copied};

    ghost look: { Self → List ℕ → Option (List ℕ) };

    /// What a key has; `None` where it is absent.
    fn value(&self, key: &[u8]) -> Option<&ByteString>
        ensures { option_copied result ≡ look self.now key.now };
}
