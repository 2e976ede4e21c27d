//! What a file of the server holds, and a cached copy of it.
ghost use Rattle.std.specs.Prelude.{◌≡◌, ◌≤◌, ◌↔◌, IsSome, IfSome};
ghost use Rattle.sk_objects.specs.Value.{IsContent};
ghost use Rattle.sk_objects.specs.declared.content.TheConstants.{LAST_VERSION};

use sk_ids::Text;
use std::marker::Model;

/// The greatest version of a content, 2^63 - 1.
pub const LAST_VERSION: u64 = (1 << 63) - 1;

/// A version, at most 2^63 - 1, and at most 512 bytes.
#[derive(Clone, Copy, Debug, PartialEq, Eq)]
pub struct Content {
    version: u64,
    bytes: Text,
}

impl Model for Content {
    ghost use Rattle.std.specs.Prelude.{◌≤◌};
    ghost use Rattle.sk_objects.specs.Content.{ContentView, content_code};
    ghost use Rattle.sk_objects.specs.declared.content.TheConstants.{LAST_VERSION};

    ghost Value = { ContentView };

    ghost coded = { content_code };

    ghost view = { λ a. record { version = a.version; bytes = a.bytes } };

    ghost invariant = { λ a. a.version ≤ LAST_VERSION };

    ghost inverse = { λ v. record { version = v.version; bytes = v.bytes } };
}

impl Content {
    /// The content of this version and these bytes; `None` exactly where the version is above
    /// 2^63 - 1.
    pub fn new(version: u64, bytes: Text) -> Option<Content>
        ensures some { IsSome result ↔ (version ≤ LAST_VERSION) }
        ensures value { IfSome result (λ c. c ≡ record { version = version; bytes = bytes }) }
    {
        if version > LAST_VERSION {
            return None;
        }
        Some(Content { version, bytes })
    }

    /// The version, at most 2^63 - 1.
    pub fn version(&self) -> u64
        ensures value { result ≡ self.now.version }
        ensures limit { result ≤ LAST_VERSION }
    {
        self.version
    }

    /// What holds of every content, for proofs.
    pub fn known(&self)
        ensures { IsContent self.now }
    {
        let _ = self.bytes.len();
    }

    /// The bytes.
    pub fn bytes(&self) -> Text
        ensures { result ≡ self.now.bytes }
    {
        self.bytes
    }

    /// The bytes, lent.
    pub fn text(&self) -> &Text
        ensures { result.now ≡ self.now.bytes }
    {
        &self.bytes
    }
}
