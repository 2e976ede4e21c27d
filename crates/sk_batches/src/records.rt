//! The records of a batch.
ghost use Rattle.std.specs.Prelude.{◌≡◌, ◌+◌, ◌<◌, ◌≤◌, ◌^◌, ◌++◌, ◌∷◌, ◌==◌, [], length, take, drop, OnOk, OnErr};
ghost use Rattle.sk_batches.specs.Records.{kept, payload, but_last};

use crate::record::Record;
use std::alloc::{AllocError, Global};
use std::marker::Model;

/// The records of a batch, in order.
#[derive(Drop)]
pub(crate) struct Records {
    items: Vec<Record>,
    len: usize,
}

impl Model for Records {
    ghost use Rattle.std.specs.Prelude.{◌≡◌, List, length};
    ghost use Rattle.sk_batches.specs.Records.{RecordView, payload};

    ghost Value = { List RecordView };

    ghost view = { λ r. r.items.items };

    ghost invariant = { λ r. r.len ≡ length (payload r.items.items) };
}

impl Records {
    /// No records.
    pub(crate) fn new(alloc: Global) -> Records
        ensures { result ≡ [] }
    {
        Records {
            items: Vec::new(alloc),
            len: 0,
        }
    }

    /// How many bytes they have.
    pub(crate) fn len(&self) -> usize
        ensures { result ≡ length (payload self.now) }
    {
        self.len
    }

    pub(crate) fn is_empty(&self) -> bool
        ensures { result ≡ (length self.now == 0) }
    {
        self.items.is_empty()
    }

    /// Adds a record behind them.
    pub(crate) fn push(&mut self, added: Record) -> Result<(), AllocError>
        requires { length (payload self.old) + length added.bytes < 2 ^ 64 }
        ensures ok { OnOk result (self.new ≡ self.old ++ added ∷ []) }
        ensures err { OnErr result (self.new ≡ self.old) }
    {
        self.items.reserve(1)?;
        self.len += added.bytes().len();
        self.items.push_reserved(added);
        Ok(())
    }

    /// Lets go of the last.
    pub(crate) fn drop_last(&mut self)
        ensures { self.new ≡ but_last self.old }
    {
        if let Some(record) = self.items.pop() {
            self.len -= record.bytes().len();
        }
    }

    /// Lets go of those that depend on one of the batches from the first to the last.
    pub(crate) fn keep(&mut self, first: u64, last: u64)
        ensures { self.new ≡ kept first last self.old }
    {
        drop_struck(&mut self.items, first, last);
        self.len = len_of(self.items.as_slice(), self.len);
    }

    /// Writes their bytes from a place on.
    pub(crate) fn write(&self, room: &mut [u8], place: usize)
        requires { place + length (payload self.now) ≤ length room.old }
        ensures { room.new ≡ take place room.old
            ++ (payload self.now ++ drop (place + length (payload self.now)) room.old) }
    {
        let mut at = place;
        for record in self.items.as_slice() {
            let piece = record.bytes();
            put(room, at, piece);
            at += piece.len();
        }
    }
}

fn drop_struck(records: &mut Vec<Record>, first: u64, last: u64)
    ensures { records.new.items ≡ kept first last records.old.items }
{
    records.retain(|record: &Record| !record.is_struck(first, last));
}

/// How many bytes they have, where no more than so many.
fn len_of(records: &[Record], most: usize) -> usize
    requires { length (payload records.now) ≤ most }
    ensures { result ≡ length (payload records.now) }
{
    let mut len = 0;
    for record in records {
        len += record.bytes().len();
    }
    len
}

/// Writes bytes from a place on.
fn put(room: &mut [u8], place: usize, bytes: &[u8])
    requires { place + length bytes.now ≤ length room.old }
    ensures { room.new
        ≡ take place room.old ++ (bytes.now ++ drop (place + length bytes.now) room.old) }
{
    room[place..place + bytes.len()].copy_from_slice(bytes);
}
