//! What commands look at.
ghost use Rattle.std.specs.Prelude.{◌≡◌, ◌∷◌, ◌++◌, [], map, if◌then◌else◌, OnErr, OnOk};
ghost use Rattle.std.specs.Vec.{vec_items};
ghost use Rattle.sk_commands.specs.Table.{asks, is_seen, is_told_of_all, may_write};

use crate::{Command, Options, When};
use std::alloc::{AllocError, Global};

/// Lists a copy of a key behind those that are listed.
pub(crate) fn copy_key(
    alloc: Global,
    key: &[u8],
    looked: &mut Vec<Vec<u8>>,
) -> Result<(), AllocError>
    ensures ok { OnOk result
        (map vec_items looked.new.items ≡ map vec_items looked.old.items ++ key.now ∷ []) }
    ensures err { OnErr result (looked.new.items ≡ looked.old.items) }
{
    let copy = Vec::from_slice(alloc, key)?;
    looked.reserve(1)?;
    looked.push_reserved(copy);
    Ok(())
}

/// Lists copies of keys behind those that are listed; without memory for all, of none.
pub(crate) fn copy_keys(
    alloc: Global,
    keys: &[Vec<u8>],
    looked: &mut Vec<Vec<u8>>,
) -> Result<(), AllocError>
    ensures ok { OnOk result
        (map vec_items looked.new.items
        ≡ map vec_items looked.old.items ++ map vec_items keys.now) }
    ensures err { OnErr result
        (map vec_items looked.new.items ≡ map vec_items looked.old.items) }
{
    let before = looked.len();
    for key in keys {
        if copy_key(alloc, key.as_slice(), looked).is_err() {
            looked.truncate(before);
            return Err(AllocError);
        }
    }
    Ok(())
}

/// Whether it matters for how a key is set, or for the reply, what it has.
fn is_seen(options: Options) -> bool
    ensures { result ≡ is_seen options.when options.gives }
{
    match options.when {
        When::Always => options.gives,
        When::Absent | When::Present => true,
    }
}

/// Lists a copy of a key that is to be set, where it matters what it has.
fn copy_seen(
    alloc: Global,
    key: &[u8],
    options: Options,
    looked: &mut Vec<Vec<u8>>,
) -> Result<(), AllocError>
    ensures ok { OnOk result
        (map vec_items looked.new.items ≡ map vec_items looked.old.items
        ++ (if is_seen options.when options.gives then key.now ∷ [] else [])) }
    ensures err { OnErr result (looked.new.items ≡ looked.old.items) }
{
    if is_seen(options) {
        copy_key(alloc, key, looked)
    } else {
        Ok(())
    }
}

impl Command {
    /// Whether the command is told of all keys.
    pub fn is_told_of_all(&self) -> bool
        ensures { result ≡ is_told_of_all self.now }
    {
        matches!(
            self,
            Command::DbSize | Command::KeysWith(_) | Command::FlushAll
        )
    }

    /// Whether the command may write. Where not, it writes nothing, whatever keys have.
    pub fn may_write(&self) -> bool
        ensures { result ≡ may_write self.now }
    {
        matches!(
            self,
            Command::Set(..)
                | Command::Del(_)
                | Command::Add(..)
                | Command::Append(..)
                | Command::MSet(_)
                | Command::FlushAll
        )
    }

    /// Copies of the keys that the command looks at stand behind those that are listed, where all keys are known. Without
    /// memory for all, none does.
    pub fn asks(
        &self,
        alloc: Global,
        known: &[Vec<u8>],
        looked: &mut Vec<Vec<u8>>,
    ) -> Result<(), AllocError>
        ensures ok { OnOk result
            (map vec_items looked.new.items
            ≡ map vec_items looked.old.items ++ asks (map vec_items known.now) self.now) }
        ensures err { OnErr result
            (map vec_items looked.new.items ≡ map vec_items looked.old.items) }
    {
        match self {
            Command::Get(key)
            | Command::Add(key, _)
            | Command::Append(key, _)
            | Command::StrLen(key) => copy_key(alloc, key.as_slice(), looked),
            Command::Set(key, _, options) => copy_seen(alloc, key.as_slice(), *options, looked),
            Command::Del(keys) | Command::Exists(keys) | Command::MGet(keys) => {
                copy_keys(alloc, keys.as_slice(), looked)
            }
            Command::DbSize | Command::KeysWith(_) | Command::FlushAll => {
                copy_keys(alloc, known, looked)
            }
            Command::MSet(_) | Command::Ping | Command::Echo(_) | Command::Wrong(_) => Ok(()),
        }
    }
}
