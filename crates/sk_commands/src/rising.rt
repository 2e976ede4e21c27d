//! Keys in the order of their bytes.
ghost use Rattle.std.specs.Prelude.{◌≡◌, true, map, IfOk, OnOk};
ghost use Rattle.sk_commands.specs.Base.{nat_cmp, slice_cmp, vec_items, IsStrictlySortedBy};
ghost use Rattle.sk_commands.specs.Table.{told};
ghost use Rattle.sk_commands.specs.Work.{known_after, with_known};

use crate::ByteString;
use std::alloc::{AllocError, Global};
use std::cmp::Ordering;
use std::collections::BTreeSet;

/// Whether keys stand in the order of their bytes, each once.
pub(crate) fn are_rising(keys: &[Vec<u8>]) -> bool
    ensures { result ≡ true → IsStrictlySortedBy (slice_cmp nat_cmp) (map vec_items keys.now) }
{
    for place in 1..keys.len() {
        let earlier = keys[place - 1].as_slice();
        let Ordering::Less = earlier.cmp(keys[place].as_slice()) else {
            return false;
        };
    }
    true
}

/// Adds a copy of a key to a set.
fn add_copy(alloc: Global, key: &[u8], all: &mut BTreeSet<Vec<u8>>) -> Result<(), AllocError>
    ensures { OnOk result
        (map vec_items all.new.keys ≡ with_known (map vec_items all.old.keys) key.now) }
{
    let copy = Vec::from_slice(alloc, key)?;
    all.insert(copy)?;
    Ok(())
}

/// Copies of keys that stand in the order of their bytes.
fn copies_of(alloc: Global, known: &[Vec<u8>]) -> Result<BTreeSet<Vec<u8>>, AllocError>
    requires { IsStrictlySortedBy (slice_cmp nat_cmp) (map vec_items known.now) }
    ensures { IfOk result (λ all. map vec_items all.keys ≡ map vec_items known.now) }
{
    let mut all = BTreeSet::new(alloc);
    for key in known {
        add_copy(alloc, key.as_slice(), &mut all)?;
    }
    Ok(all)
}

/// Copies of the keys of writes come to those of a set.
fn add_written(
    alloc: Global,
    written: &[(Vec<u8>, Option<ByteString>)],
    all: &mut BTreeSet<Vec<u8>>,
) -> Result<(), AllocError>
    ensures { OnOk result (map vec_items all.new.keys
        ≡ known_after (told written.now) (map vec_items all.old.keys)) }
{
    for write in written {
        add_copy(alloc, write.0.as_slice(), all)?;
    }
    Ok(())
}

/// The keys of a set, in their order.
fn listed(alloc: Global, all: BTreeSet<Vec<u8>>) -> Result<Vec<Vec<u8>>, AllocError>
    ensures { IfOk result (λ keys. keys.items ≡ all.keys) }
{
    let mut keys = Vec::new(alloc);
    for key in all {
        keys.push(key)?;
    }
    Ok(keys)
}

/// Copies of all keys when this is written, where they stand in the order of their bytes.
pub(crate) fn rising_after(
    alloc: Global,
    written: &[(Vec<u8>, Option<ByteString>)],
    known: &[Vec<u8>],
) -> Result<Vec<Vec<u8>>, AllocError>
    requires { IsStrictlySortedBy (slice_cmp nat_cmp) (map vec_items known.now) }
    ensures { IfOk result (λ all. map vec_items all.items
        ≡ known_after (told written.now) (map vec_items known.now)) }
{
    let mut all = copies_of(alloc, known)?;
    add_written(alloc, written, &mut all)?;
    listed(alloc, all)
}
