//! Byte strings that commands hold.
ghost use Rattle.std.specs.Prelude.{◌≡◌, ◌+◌, ◌++◌, ◌^◌, ◌<◌, IfOk, length, map};
ghost use Rattle.std.specs.Vec.{vec_items};

use std::alloc::{AllocError, Global};
use std::marker::Model;

/// A byte string: a key, what a key has, or a word of a request.
#[derive(Drop)]
pub struct ByteString {
    bytes: Vec<u8>,
}

impl Model for ByteString {
    ghost use Rattle.std.specs.Prelude.{ℕ, List};
    ghost use Rattle.std.specs.Coded.{coded_list, coded_ℕ};

    ghost Value = { List ℕ };

    ghost coded = { coded_list coded_ℕ };

    ghost view = { λ s. s.bytes.items };
}

impl ByteString {
    /// These bytes, which are not copied.
    pub fn new(bytes: Vec<u8>) -> ByteString
        ensures { result ≡ bytes.items }
    {
        ByteString { bytes }
    }

    /// A copy of these bytes.
    pub fn copy_of(alloc: Global, bytes: &[u8]) -> Result<ByteString, AllocError>
        ensures { IfOk result (λ copy. copy ≡ bytes.now) }
    {
        let bytes = Vec::from_slice(alloc, bytes)?;
        Ok(ByteString { bytes })
    }

    /// Some bytes, and more behind them.
    pub fn joined(alloc: Global, front: &[u8], back: &[u8]) -> Result<ByteString, AllocError>
        requires { length front.now + length back.now < 2 ^ 63 }
        ensures { IfOk result (λ both. both ≡ front.now ++ back.now) }
    {
        let mut bytes = Vec::with_capacity(alloc, front.len() + back.len())?;
        bytes.extend_from_slice(front)?;
        bytes.extend_from_slice(back)?;
        Ok(ByteString { bytes })
    }

    /// The bytes.
    pub fn as_slice(&self) -> &[u8]
        ensures { result.now ≡ self.now }
    {
        self.bytes.as_slice()
    }

    /// How many bytes there are.
    pub fn len(&self) -> usize
        ensures { result ≡ length self.now }
    {
        self.bytes.len()
    }

    /// The bytes, which are not copied.
    pub fn into_vec(self) -> Vec<u8>
        ensures { result.items ≡ self }
    {
        self.bytes
    }
}

/// Keys, in the order in which a request names them.
#[derive(Drop)]
pub struct Keys {
    keys: Vec<Vec<u8>>,
}

impl Model for Keys {
    ghost use Rattle.std.specs.Prelude.{ℕ, List, map};
    ghost use Rattle.std.specs.Vec.{vec_items};
    ghost use Rattle.std.specs.Coded.{coded_list, coded_ℕ};

    ghost Value = { List (List ℕ) };

    ghost coded = { coded_list (coded_list coded_ℕ) };

    ghost view = { λ k. map vec_items k.keys.items };
}

impl Keys {
    /// These keys, which are not copied.
    pub fn new(keys: Vec<Vec<u8>>) -> Keys
        ensures { result ≡ map vec_items keys.items }
    {
        Keys { keys }
    }

    /// The keys.
    pub fn as_slice(&self) -> &[Vec<u8>]
        ensures { map vec_items result.now ≡ self.now }
    {
        self.keys.as_slice()
    }

    /// The keys, which are not copied.
    pub fn into_vec(self) -> Vec<Vec<u8>>
        ensures { map vec_items result.items ≡ self }
    {
        self.keys
    }
}

/// What keys have, in the order of the keys; nothing for an absent one.
#[derive(Drop)]
pub struct Values {
    values: Vec<Option<ByteString>>,
}

impl Model for Values {
    ghost use Rattle.std.specs.Prelude.{ℕ, List, Option};
    ghost use Rattle.std.specs.Coded.{coded_list, coded_option, coded_ℕ};

    ghost Value = { List (Option (List ℕ)) };

    ghost coded = { coded_list (coded_option (coded_list coded_ℕ)) };

    ghost view = { λ v. v.values.items };
}

impl Values {
    /// These values.
    pub fn new(values: Vec<Option<ByteString>>) -> Values
        ensures { result ≡ values.items }
    {
        Values { values }
    }

    /// The values.
    pub fn as_slice(&self) -> &[Option<ByteString>]
        ensures { result.now ≡ self.now }
    {
        self.values.as_slice()
    }
}
