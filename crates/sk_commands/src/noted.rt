//! Writes that are looked at again.
ghost use Rattle.std.specs.Prelude.{◌≡◌, ◌∷◌, ◌++◌, [], map, OnErr, OnOk};
ghost use Rattle.std.specs.Option.{option_copied};
ghost use Rattle.sk_commands.specs.Noted.{digest_of, first_under, goes_first, had_by, is_of, place_of, AreKept, Kept};
ghost use Rattle.sk_commands.specs.Table.{is_among, told, Have};
ghost use Rattle.sk_commands.specs.Work.{after};

use crate::{ByteString, Writes};
use std::alloc::{AllocError, Global};
use std::collections::BTreeMap;
use std::hash::{DefaultHasher, Hasher};
use std::marker::Model;

/// What a key comes to under a hash.
fn digest_of(key: &[u8]) -> u64
    ensures { result ≡ digest_of key.now }
{
    let mut hasher = DefaultHasher::new();
    hasher.write(key);
    hasher.finish()
}

/// Whether there is a write, and of this key.
fn is_of(key: &[u8], write: Option<&(Vec<u8>, Option<ByteString>)>) -> bool
    ensures { result ≡ is_of key.now (option_copied write.entry) }
{
    match write {
        Some(write) => key == write.0.as_slice(),
        None => false,
    }
}

/// The places of the last writes of keys.
#[derive(Drop)]
pub(crate) struct Places {
    /// Under the digest of a key, which is seldom that of another: numbers are compared sooner than keys are.
    firsts: BTreeMap<u64, usize>,
    /// Of keys whose digest an earlier key had.
    others: BTreeMap<Vec<u8>, usize>,
}

impl Places {
    /// An empty table of places.
    fn new(alloc: Global) -> Places
        ensures { AreKept result [] }
    {
        Places {
            firsts: BTreeMap::new(alloc),
            others: BTreeMap::new(alloc),
        }
    }

    /// The place under the digest of a key.
    fn first(&self, key: &[u8]) -> Option<usize>
        ensures { result ≡ first_under self.now.firsts.entries key.now }
    {
        self.firsts.get(&digest_of(key)).copied()
    }

    /// The place of a key among these writes.
    fn find(&self, writes: &[(Vec<u8>, Option<ByteString>)], key: &[u8]) -> Option<usize>
        ensures { result ≡ place_of self.now writes.now key.now }
    {
        if let Some(first) = self.first(key) {
            if is_of(key, writes.get(first)) {
                return Some(first);
            }
        }
        self.others.get(key).copied()
    }

    /// Whether no other key has the digest of a key.
    fn goes_first(&self, writes: &[(Vec<u8>, Option<ByteString>)], key: &[u8]) -> bool
        ensures { result ≡ goes_first key.now writes.now (first_under self.now.firsts.entries key.now) }
    {
        match self.first(key) {
            Some(first) => is_of(key, writes.get(first)),
            None => true,
        }
    }

    /// The write of a key comes behind these writes. Without memory nothing has changed.
    fn keep(
        &mut self,
        alloc: Global,
        writes: &[(Vec<u8>, Option<ByteString>)],
        key: &[u8],
    ) -> Result<(), AllocError>
        ensures ok { OnOk result ((w : Kept) → w.0.items ≡ key.now
            → AreKept self.old writes.now → AreKept self.new (writes.now ++ w ∷ [])) }
        ensures err { OnErr result (AreKept self.old writes.now → AreKept self.new writes.now) }
    {
        if self.goes_first(writes, key) {
            self.firsts.insert(digest_of(key), writes.len())?;
        } else {
            let copy = Vec::from_slice(alloc, key)?;
            self.others.insert(copy, writes.len())?;
        }
        Ok(())
    }
}

/// Writes, one after another, with the place of the last one of each key, so that what a key has behind them is found at once.
#[derive(Drop)]
pub(crate) struct Noted {
    alloc: Global,
    writes: Writes,
    places: Places,
}

impl Model for Noted {
    ghost use Rattle.std.specs.Prelude.{List};
    ghost use Rattle.sk_commands.specs.Noted.{AreKept, Kept};

    ghost Value = { List Kept };

    ghost view = { λ n. n.writes.items };

    ghost invariant = { λ n. AreKept n.places n.writes.items };
}

impl Noted {
    /// No write is noted.
    pub(crate) fn new(alloc: Global) -> Noted
        ensures { result ≡ [] }
    {
        Noted {
            alloc,
            writes: Vec::new(alloc),
            places: Places::new(alloc),
        }
    }

    /// Whether a key is among those that are written.
    pub(crate) fn has(&self, key: &[u8]) -> bool
        ensures { result ≡ is_among key.now (map (λ w. w.0) (told self.now)) }
    {
        self.places.find(self.writes.as_slice(), key).is_some()
    }

    /// The last write of a key.
    pub(crate) fn last(&self, key: &[u8]) -> Option<&(Vec<u8>, Option<ByteString>)>
        ensures { (has : Have) → after (told self.now) has key.now
            ≡ had_by (option_copied result) (has key.now) }
    {
        match self.places.find(self.writes.as_slice(), key) {
            Some(place) => self.writes.get(place),
            None => None,
        }
    }

    /// One write more. Without memory nothing has changed.
    pub(crate) fn push(&mut self, key: Vec<u8>, value: Option<ByteString>) -> Result<(), AllocError>
        ensures ok { OnOk result (self.new ≡ self.old ++ (key, value) ∷ []) }
        ensures err { OnErr result (self.new ≡ self.old) }
    {
        self.writes.reserve(1)?;
        self.places
            .keep(self.alloc, self.writes.as_slice(), key.as_slice())?;
        self.writes.push_reserved((key, value));
        Ok(())
    }

    /// The writes.
    pub(crate) fn as_slice(&self) -> &[(Vec<u8>, Option<ByteString>)]
        ensures { result.now ≡ self.now }
    {
        self.writes.as_slice()
    }

    /// The writes, which are not copied.
    pub(crate) fn into_writes(self) -> Writes
        ensures { result.items ≡ self }
    {
        self.writes
    }
}
