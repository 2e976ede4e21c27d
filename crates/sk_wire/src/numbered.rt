//! What a wire carries.
ghost use Rattle.std.specs.Prelude.{◌≡◌, ℕ};

use sk_server::{Reply, Request};

/// What has a number.
pub trait HasNumber {
    ghost number_of: { Self → ℕ };

    /// Its number.
    fn number(&self) -> u64
        ensures { result ≡ number_of self.now };
}

impl HasNumber for Request {
    ghost number_of = { λ r. r.number };

    fn number(&self) -> u64 {
        self.number
    }
}

impl HasNumber for Reply {
    ghost number_of = { λ r. r.number };

    fn number(&self) -> u64 {
        self.number
    }
}
