//! The opening of a store behind what was read of its log.
ghost use Rattle.std.specs.Prelude.{◌≡◌, ◌≤◌, length, map, true, false, IfErr, IfOk, OnOk};
ghost use Rattle.std.specs.FinMap.{is_sorted};
ghost use Rattle.sk_plain_store.specs.Plain.{bytes_cmp};
ghost use Rattle.sk_replay.specs.Snapshot.{after_work, after_works, set_of};
ghost use Rattle.sk_reopened.specs.Reopened.{has_wrong, head_of, is_wrong, HasNumbers, HeadPost, ReopenPost, SetPost};

use crate::Refusal;
use sk_batches::Sealed;
use sk_bytes::KEY_LIMIT;
use sk_commands::{ByteString, Command, Options, When, Work};
use sk_durable::{Limits, Next, Store};
use sk_log::frame::{NUMBER_LIMIT, SEGMENT_LIMIT};
use sk_log::{HEAD, seal};
use sk_reserved::is_reserved;
use sk_served::names_reserved;
use std::alloc::{AllocError, Global};

/// The number of the kernel of a store.
const KERNEL: u64 = 1;

/// Where a log ends: the number of the frame that would follow, and that of its last segment.
#[derive(Clone, Copy, Debug, PartialEq, Eq)]
pub struct Last {
    pub frame: u64,
    pub segment: u64,
}

/// A store that goes on, and where the head is to be written first that stands in the room.
#[derive(Drop)]
pub struct Reopened {
    pub store: Store,
    pub head: Sealed,
}

/// Whether no store has such a key: it is reserved, or longer than may be.
fn is_wrong(key: &[u8]) -> bool
    ensures { result ≡ is_wrong key.now }
{
    is_reserved(key) || key.len() > KEY_LIMIT
}

/// The work that sets an entry, which is copied.
fn set_of(alloc: Global, entry: &(ByteString, ByteString)) -> Result<Work, AllocError>
    ensures { IfOk result (λ work. work ≡ set_of entry.now) }
{
    let key = ByteString::copy_of(alloc, entry.0.as_slice())?;
    let value = ByteString::copy_of(alloc, entry.1.as_slice())?;
    let always = Options {
        when: When::Always,
        gives: false,
    };
    Ok(Work::One(Command::Set(key, value, always)))
}

/// The store has an entry more, unless no store has such a key.
fn set(alloc: Global, store: &mut Store, entry: &(ByteString, ByteString)) -> Result<(), Refusal>
    ensures { SetPost (is_wrong entry.now.0) (after_work (set_of entry.now)) result store.old store.new }
{
    if is_wrong(entry.0.as_slice()) {
        return Err(Refusal::Key);
    }
    let work = set_of(alloc, entry)?;
    if names_reserved(&work) {
        return Err(Refusal::Key);
    }
    match store.restore(work) {
        Ok(()) => Ok(()),
        Err(_) => Err(Refusal::Memory),
    }
}

/// A new store has these entries.
fn fill(
    alloc: Global,
    store: &mut Store,
    entries: &[(ByteString, ByteString)],
) -> Result<(), Refusal>
    ensures { SetPost (has_wrong entries.now) (after_works (map set_of entries.now)) result
        store.old store.new }
{
    for entry in entries {
        set(alloc, store, entry)?;
    }
    Ok(())
}

/// Where the head of the next segment is to be written: an empty frame, which closes what may be torn behind the last.
fn head_behind(last: Last, room: usize) -> Result<Sealed, Refusal>
    ensures { HeadPost last room result }
{
    if last.frame >= NUMBER_LIMIT - 1 || last.segment >= SEGMENT_LIMIT - 1 {
        return Err(Refusal::NoNumber);
    }
    if room < HEAD {
        return Err(Refusal::Short);
    }
    Ok(Sealed {
        frame: last.frame,
        segment: last.segment + 1,
        offset: 0,
        len: HEAD,
    })
}

/// A store of these entries, which goes on behind the end of its log, at the front of a new segment. The head of that stands in
/// the room then: it is to be written and synced before the store is used. After a refusal the room is as it was.
pub fn reopen(
    alloc: Global,
    limits: Limits,
    seed: u64,
    entries: &[(ByteString, ByteString)],
    last: Last,
    room: &mut [u8],
) -> Result<Reopened, Refusal>
    requires { is_sorted bytes_cmp entries.now ≡ true }
    ensures { ReopenPost limits last entries.now result room.old room.new }
{
    if !limits.are_sound() {
        return Err(Refusal::Limits);
    }
    let head = head_behind(last, room.len())?;
    let next = Next {
        frame: last.frame + 1,
        segment: head.segment,
        offset: HEAD as u64,
    };
    let mut store = Store::new(alloc, limits, KERNEL, next, seed);
    fill(alloc, &mut store, entries)?;
    seal(&mut room[..HEAD], head.segment, head.frame);
    Ok(Reopened { store, head })
}
