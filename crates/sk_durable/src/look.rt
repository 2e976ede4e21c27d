//! What keys have, as commands see it.
ghost use Rattle.std.specs.Prelude.{◌≡◌};

use crate::Told;
use sk_bytes::Bytes;
use sk_commands::{ByteString, Look};

/// The keys of a kernel.
#[derive(Clone, Copy)]
pub(crate) struct Keys<'a> {
    pub(crate) kernel: &'a Bytes<ByteString, Told>,
}

impl Look for Keys<'_> {
    ghost use Rattle.sk_slots.specs.Slots.{look_at};
    ghost use Rattle.sk_index.specs.Index.{bytes_cmp};

    ghost look = { λ keys. look_at bytes_cmp keys.kernel.now.parts.slots };

    fn value(&self, key: &[u8]) -> Option<&ByteString> {
        self.kernel.value(key)
    }
}
