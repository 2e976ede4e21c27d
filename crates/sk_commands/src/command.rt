//! What is asked of a store.
use crate::{ByteString, Fault, Keys};

/// When a key is set.
#[derive(Clone, Copy, Debug, PartialEq, Eq)]
pub enum When {
    Always,
    /// NX: where it is absent.
    Absent,
    /// XX: where it is there.
    Present,
}

/// How a key is set.
#[derive(Clone, Copy, Debug, PartialEq, Eq)]
pub struct Options {
    pub when: When,
    /// GET: what it had is replied.
    pub gives: bool,
}

/// What is asked of a store. GETSET is `Set`, a PING of a word is `Echo`, and INCR, DECR, INCRBY and DECRBY are all `Add`.
#[derive(Drop)]
pub enum Command {
    Get(ByteString),
    Set(ByteString, ByteString, Options),
    Del(Keys),
    Exists(Keys),
    Add(ByteString, i64),
    Append(ByteString, ByteString),
    StrLen(ByteString),
    MGet(Keys),
    /// Keys, each with what it gets behind it.
    MSet(Keys),
    DbSize,
    /// KEYS of those that begin so.
    KeysWith(ByteString),
    FlushAll,
    Ping,
    Echo(ByteString),
    /// Its words are of a known command and as many as it has, but one of them is wrong: it only replies the fault.
    Wrong(Fault),
}

/// What a request says: a command, or a word about the queue of its channel.
#[derive(Drop)]
pub enum Order {
    Run(Command),
    /// Commands are queued from here on.
    Multi,
    /// Those of the queue are carried out.
    Exec,
    /// The queue is dropped.
    Discard,
}
