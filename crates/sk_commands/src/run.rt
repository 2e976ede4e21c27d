//! What commands write and reply.
ghost use Rattle.std.specs.Prelude.{◌+◌, ◌<◌, ◌≤◌, ◌≡◌, ◌++◌, ◌&&◌, ℕ, List, drop, IfOk, OnOk, Some, bytes_eq, count_by, is_some, length, map, not, pos};
ghost use Rattle.sk_commands.specs.Base.{vec_capacity, vec_items, vec_len, list_any, option_copied, Array, Simple};
ghost use Rattle.sk_commands.specs.declared.reply.Word.TheVariants as word;
ghost use Rattle.sk_commands.specs.Table.{added, begins_with, bytes_of, deleted, flushed, is_among, joined, listed, number_at, one_more, outcome, pairs_of, present, puts, removals, set_as, shown, there, told, with_key, CarriesOut, Have};

use crate::noted::Noted;
use crate::number::{sum_of, text_of};
use crate::{
    ByteString, Command, Fault, Keys, Look, Options, Reply, Values, When, Word, number_of,
};
use std::alloc::{AllocError, Global};

/// The greatest length of what a key has.
pub const VALUE_LIMIT: usize = 16_777_216;

/// No more keys than these are looked for among each other one by one.
pub(crate) const FEW: usize = 8;

/// What keys get, one after another; nothing, where a key is made absent.
pub type Writes = Vec<(Vec<u8>, Option<ByteString>)>;

/// A key gets this.
fn put(
    key: ByteString,
    value: ByteString,
    reply: Reply,
    written: &mut Writes,
) -> Result<Reply, AllocError>
    ensures { CarriesOut (puts key value reply) written.old.items result written.new.items }
{
    written.reserve(1)?;
    written.push_reserved((key.into_vec(), Some(value)));
    Ok(reply)
}

/// A copy of what a key has.
fn show(alloc: Global, has: Option<&ByteString>) -> Result<Reply, AllocError>
    ensures { IfOk result (λ reply. reply ≡ shown (option_copied has.entry)) }
{
    match has {
        Some(value) => Ok(Reply::Bulk(ByteString::copy_of(alloc, value.as_slice())?)),
        None => Ok(Reply::Null),
    }
}

/// What a key has, where it matters for how it is set.
fn seen<'a, S: Look>(store: &'a S, key: &[u8], options: Options) -> Option<&'a ByteString>
    ensures { (value : List ℕ) → set_as key.now value options (option_copied result)
        ≡ set_as key.now value options (S.look store.now key.now) }
{
    match (options.when, options.gives) {
        (When::Always, false) => None,
        _ => store.value(key),
    }
}

/// A key gets this, where it may.
fn set(
    alloc: Global,
    key: ByteString,
    value: ByteString,
    options: Options,
    has: Option<&ByteString>,
    written: &mut Writes,
) -> Result<Reply, AllocError>
    ensures { CarriesOut (set_as key value options (option_copied has.entry))
        written.old.items result written.new.items }
{
    let sets = match options.when {
        When::Always => true,
        When::Absent => has.is_none(),
        When::Present => has.is_some(),
    };
    let reply = match (options.gives, sets) {
        (true, _) => show(alloc, has)?,
        (false, true) => Reply::Simple(Word::Ok),
        (false, false) => Reply::Null,
    };
    if sets {
        put(key, value, reply, written)
    } else {
        Ok(reply)
    }
}

/// Copies of what keys have.
fn show_all<S: Look>(alloc: Global, store: &S, keys: &Keys) -> Result<Reply, AllocError>
    ensures { IfOk result (λ reply. reply ≡ Array (map (S.look store.now) keys.now)) }
{
    let mut values = Vec::new(alloc);
    for key in keys.as_slice() {
        let value = match store.value(key.as_slice()) {
            Some(value) => Some(ByteString::copy_of(alloc, value.as_slice())?),
            None => None,
        };
        values.push(value)?;
    }
    Ok(Reply::Array(Values::new(values)))
}

/// A key gets so much more than it has.
fn add(
    alloc: Global,
    key: ByteString,
    by: i64,
    has: Option<&ByteString>,
    written: &mut Writes,
) -> Result<Reply, AllocError>
    ensures { CarriesOut (added key by (number_at (option_copied has.entry)))
        written.old.items result written.new.items }
{
    let number = match has {
        Some(text) => number_of(text.as_slice()),
        None => Some(0),
    };
    let Some(number) = number else {
        return Ok(Reply::Error(Fault::NotInteger));
    };
    let Some(sum) = sum_of(number, by) else {
        return Ok(Reply::Error(Fault::Overflow));
    };
    put(key, text_of(alloc, sum)?, Reply::Integer(sum), written)
}

/// A key gets more bytes behind those that it has.
fn append(
    alloc: Global,
    key: ByteString,
    more: ByteString,
    has: Option<&ByteString>,
    written: &mut Writes,
) -> Result<Reply, AllocError>
    ensures { CarriesOut (joined key (bytes_of (option_copied has.entry) ++ more))
        written.old.items result written.new.items }
{
    let bytes: &[u8] = match has {
        Some(value) => value.as_slice(),
        None => &[],
    };
    let len = bytes.len().saturating_add(more.len());
    if len > VALUE_LIMIT {
        return Ok(Reply::Error(Fault::TooLong));
    }
    let value = if bytes.is_empty() {
        more
    } else {
        ByteString::joined(alloc, bytes, more.as_slice())?
    };
    put(key, value, Reply::Integer(len as i64), written)
}

/// How many bytes a key has.
fn length_of(has: Option<&ByteString>) -> i64
    ensures { result ≡ pos (length (bytes_of (option_copied has.entry))) }
{
    match has {
        Some(value) => value.as_slice().len() as i64,
        None => 0,
    }
}

/// Whether a key is among those that are written here.
fn is_written(key: &[u8], written: &[(Vec<u8>, Option<ByteString>)]) -> bool
    ensures { result ≡ list_any (bytes_eq key.now) (map (λ w. vec_items w.0) written.now) }
{
    for write in written {
        if key == write.0.as_slice() {
            return true;
        }
    }
    false
}

/// Makes a key absent that is there, unless that is written behind a place already.
fn delete_one(is_there: bool, key: Vec<u8>, from: usize, written: &mut Writes)
    requires from { from ≤ length written.old.items }
    requires room { vec_len written.old < vec_capacity written.old }
    ensures written { written.new.items
        ≡ written.old.items ++ one_more is_there key (drop from written.old.items) }
    ensures capacity { vec_capacity written.new ≡ vec_capacity written.old }
    ensures len { vec_len written.new ≤ vec_len written.old + 1 }
{
    if is_there && !is_written(key.as_slice(), &written.as_slice()[from..]) {
        written.push_reserved((key, None));
    }
}

/// Makes the keys absent that are there. Each is counted once, however often it is named.
fn delete<S: Look>(store: &S, keys: Keys, written: &mut Writes) -> Result<Reply, AllocError>
    ensures { CarriesOut (deleted (there (S.look store.now) keys)) written.old.items result
        written.new.items }
{
    let mut keys = keys.into_vec();
    written.reserve(keys.len())?;
    let from = written.len();
    while let Some(key) = keys.pop() {
        let is_there = store.value(key.as_slice()).is_some();
        delete_one(is_there, key, from, written);
    }
    Ok(Reply::Integer((written.as_slice().len() - from) as i64))
}

/// Whether a key is there, and not among those that are to be made absent.
fn is_new(is_there: bool, key: &[u8], gone: &Noted) -> bool
    ensures { result ≡ (is_there && not (is_among key.now (map (λ w. w.0) (told gone.now)))) }
{
    is_there && !gone.has(key)
}

/// One key more is to be made absent, where it is there and not among those that are.
fn note_gone(is_there: bool, key: Vec<u8>, gone: &mut Noted) -> Result<(), AllocError>
    ensures { OnOk result ((has : Have) (found : List (List ℕ))
        → is_there ≡ is_some (has key.items) → told gone.old ≡ removals found
        → told gone.new ≡ removals (with_key has key.items found)) }
{
    if is_new(is_there, key.as_slice(), gone) {
        gone.push(key, None)?;
    }
    Ok(())
}

/// Those of the keys that are there, each once, to be made absent.
fn gone_of<S: Look>(alloc: Global, store: &S, keys: Keys) -> Result<Noted, AllocError>
    ensures { IfOk result (λ gone. told gone ≡ removals (there (S.look store.now) keys)) }
{
    let mut keys = keys.into_vec();
    let mut gone = Noted::new(alloc);
    while let Some(key) = keys.pop() {
        let is_there = store.value(key.as_slice()).is_some();
        note_gone(is_there, key, &mut gone)?;
    }
    Ok(gone)
}

/// Makes any number of keys absent, and replies how many were there, in a time that grows as their number does.
fn delete_many<S: Look>(
    alloc: Global,
    store: &S,
    keys: Keys,
    written: &mut Writes,
) -> Result<Reply, AllocError>
    ensures { CarriesOut (deleted (there (S.look store.now) keys)) written.old.items result
        written.new.items }
{
    let mut gone = gone_of(alloc, store, keys)?.into_writes();
    let count = gone.as_slice().len() as i64;
    written.append(&mut gone)?;
    Ok(Reply::Integer(count))
}

/// How many of the keys are there. One that is named twice counts twice.
fn count<S: Look>(store: &S, keys: &[Vec<u8>]) -> i64
    ensures { result
        ≡ pos (count_by (λ key. is_some (S.look store.now key)) (map vec_items keys.now)) }
{
    let mut count: i64 = 0;
    for key in keys {
        if store.value(key.as_slice()).is_some() {
            count += 1;
        }
    }
    count
}

/// Each key gets what stands behind it.
fn put_all(words: Keys, written: &mut Writes) -> Result<Reply, AllocError>
    ensures { CarriesOut (record { written = pairs_of words; reply = Simple word.Ok })
        written.old.items result written.new.items }
{
    let words = words.into_vec();
    written.reserve(words.len())?;
    let mut words = words.into_iter();
    while let Some(key) = words.next() {
        if let Some(value) = words.next() {
            written.push_reserved((key, Some(ByteString::new(value))));
        }
    }
    Ok(Reply::Simple(Word::Ok))
}

/// Whether a key begins so and is there.
fn is_listed<S: Look>(store: &S, prefix: &[u8], key: &[u8]) -> bool
    ensures { result ≡ (begins_with prefix.now key.now && is_some (S.look store.now key.now)) }
{
    key.starts_with(prefix) && store.value(key).is_some()
}

/// Replies with those of the keys that begin with a prefix and are there.
fn list<S: Look>(
    alloc: Global,
    store: &S,
    prefix: &[u8],
    keys: &[Vec<u8>],
) -> Result<Reply, AllocError>
    ensures { IfOk result (λ reply. reply
        ≡ Array (map Some (listed prefix.now (S.look store.now) (map vec_items keys.now)))) }
{
    let mut values = Vec::new(alloc);
    for key in keys {
        let key = key.as_slice();
        if is_listed(store, prefix, key) {
            values.push(Some(ByteString::copy_of(alloc, key)?))?;
        }
    }
    Ok(Reply::Array(Values::new(values)))
}

/// Those of the keys that are there become absent.
fn flush<S: Look>(
    alloc: Global,
    store: &S,
    keys: &[Vec<u8>],
    written: &mut Writes,
) -> Result<Reply, AllocError>
    ensures { CarriesOut (flushed (present (S.look store.now) (map vec_items keys.now)))
        written.old.items result written.new.items }
{
    let mut gone: Writes = Vec::new(alloc);
    for key in keys {
        let key = key.as_slice();
        if store.value(key).is_some() {
            gone.push((Vec::from_slice(alloc, key)?, None))?;
        }
    }
    written.append(&mut gone)?;
    Ok(Reply::Simple(Word::Ok))
}

impl Command {
    /// What the command writes, behind what is written, and what it replies, by what keys have, where all keys are known.
    /// Without memory nothing has changed.
    pub fn run<S: Look>(
        self,
        alloc: Global,
        store: &S,
        known: &[Vec<u8>],
        written: &mut Writes,
    ) -> Result<Reply, AllocError>
        ensures { CarriesOut (outcome (map vec_items known.now) self (S.look store.now))
            written.old.items result written.new.items }
    {
        match self {
            Command::Get(key) => show(alloc, store.value(key.as_slice())),
            Command::Set(key, value, options) => {
                let has = seen(store, key.as_slice(), options);
                set(alloc, key, value, options, has, written)
            }
            Command::Del(keys) if keys.as_slice().len() > FEW => delete_many(
                alloc, store, keys, written,
            ),
            Command::Del(keys) => delete(store, keys, written),
            Command::Exists(keys) => Ok(Reply::Integer(count(store, keys.as_slice()))),
            Command::Add(key, by) => {
                let has = store.value(key.as_slice());
                add(alloc, key, by, has, written)
            }
            Command::Append(key, more) => {
                let has = store.value(key.as_slice());
                append(alloc, key, more, has, written)
            }
            Command::StrLen(key) => Ok(Reply::Integer(length_of(store.value(key.as_slice())))),
            Command::MGet(keys) => show_all(alloc, store, &keys),
            Command::MSet(words) => put_all(words, written),
            Command::DbSize => Ok(Reply::Integer(count(store, known))),
            Command::KeysWith(prefix) => list(alloc, store, prefix.as_slice(), known),
            Command::FlushAll => flush(alloc, store, known, written),
            Command::Ping => Ok(Reply::Simple(Word::Pong)),
            Command::Echo(text) => Ok(Reply::Bulk(text)),
            Command::Wrong(fault) => Ok(Reply::Error(fault)),
        }
    }
}
