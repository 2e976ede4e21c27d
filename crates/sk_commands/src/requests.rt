//! Requests that say what was done, as a log keeps them.
ghost use Rattle.std.specs.Prelude.{◌≡◌, ◌∷◌, ◌++◌, [], flat_map, length, map, IfOk, OnOk};
ghost use Rattle.sk_commands.specs.Base.{signed_decimal, vec_items, KeysWith, Set, Syntax, Each, array_text, bulk_text};
ghost use Rattle.sk_commands.specs.Base.{array, bulks};
ghost use Rattle.sk_commands.specs.Names.{text_of};
ghost use Rattle.sk_commands.specs.Requests.{gives_words, log_text, when_words, words_for, wrong_words};

use crate::{Command, Fault, Name, Options, When, Work};
use itoa::Buffer;
use sk_requests::reply;
use std::alloc::{AllocError, Global};

/// How many bytes the request of a key that is set has beyond the key and its value, at most, without options.
const SET_ROOM: usize = 48;

/// Writes how many words a request has, and the first, its name.
fn begin(text: &mut Vec<u8>, name: Name, count: usize) -> Result<(), AllocError>
    ensures { OnOk result (text.new.items
        ≡ text.old.items ++ (array_text count ++ bulk_text (text_of name))) }
{
    reply::array(text, count)?;
    reply::bulk(text, name.text())
}

/// Writes a request without a word behind its name.
fn write_alone(text: &mut Vec<u8>, name: Name) -> Result<(), AllocError>
    ensures { OnOk result (text.new.items ≡ text.old.items ++ array (text_of name ∷ [])) }
{
    begin(text, name, 1)
}

/// Writes a request with one word.
fn write_one(text: &mut Vec<u8>, name: Name, word: &[u8]) -> Result<(), AllocError>
    ensures { OnOk result (text.new.items
        ≡ text.old.items ++ array (text_of name ∷ word.now ∷ [])) }
{
    begin(text, name, 2)?;
    reply::bulk(text, word)
}

/// Writes a request with two words.
fn write_two(text: &mut Vec<u8>, name: Name, first: &[u8], second: &[u8]) -> Result<(), AllocError>
    ensures { OnOk result (text.new.items
        ≡ text.old.items ++ array (text_of name ∷ first.now ∷ second.now ∷ [])) }
{
    begin(text, name, 3)?;
    reply::bulk(text, first)?;
    reply::bulk(text, second)
}

/// Writes a request with a key and a number.
fn write_number(text: &mut Vec<u8>, name: Name, key: &[u8], number: i64) -> Result<(), AllocError>
    ensures { OnOk result (text.new.items
        ≡ text.old.items ++ array (text_of name ∷ key.now ∷ signed_decimal number ∷ [])) }
{
    let mut buffer = Buffer::new();
    write_two(text, name, key, buffer.format(number).as_bytes())
}

/// Writes words, one behind the other.
fn write_words(text: &mut Vec<u8>, words: &[Vec<u8>]) -> Result<(), AllocError>
    ensures { OnOk result (text.new.items
        ≡ text.old.items ++ bulks (map vec_items words.now)) }
{
    for word in words {
        reply::bulk(text, word.as_slice())?;
    }
    Ok(())
}

/// Writes a request with these words.
fn write_all(text: &mut Vec<u8>, name: Name, words: &[Vec<u8>]) -> Result<(), AllocError>
    ensures { OnOk result (text.new.items
        ≡ text.old.items ++ array (text_of name ∷ map vec_items words.now)) }
{
    begin(text, name, words.len() + 1)?;
    write_words(text, words)
}

/// Writes where a key is set.
fn write_when(text: &mut Vec<u8>, when: When) -> Result<(), AllocError>
    ensures { OnOk result (text.new.items ≡ text.old.items ++ bulks (when_words when)) }
{
    match when {
        When::Always => Ok(()),
        When::Absent => reply::bulk(text, b"nx"),
        When::Present => reply::bulk(text, b"xx"),
    }
}

/// Writes whether what a key had is replied.
fn write_gives(text: &mut Vec<u8>, gives: bool) -> Result<(), AllocError>
    ensures { OnOk result (text.new.items ≡ text.old.items ++ bulks (gives_words gives)) }
{
    if gives {
        return reply::bulk(text, b"get");
    }
    Ok(())
}

/// Writes how a key is set.
#[tactic(auto, using(crate::proofs::Bulks::bulks_append))]
fn write_options(text: &mut Vec<u8>, options: Options) -> Result<(), AllocError>
    ensures { OnOk result (text.new.items
        ≡ text.old.items ++ bulks (when_words options.when ++ gives_words options.gives)) }
{
    write_when(text, options.when)?;
    write_gives(text, options.gives)
}

/// How many words say how a key is set.
fn option_count(options: Options) -> usize
    ensures { result ≡ length (when_words options.when ++ gives_words options.gives) }
{
    match (options.when, options.gives) {
        (When::Always, false) => 0,
        (When::Always, true) | (_, false) => 1,
        (_, true) => 2,
    }
}

/// Writes a request that sets a key.
fn write_set(
    text: &mut Vec<u8>,
    key: &[u8],
    value: &[u8],
    options: Options,
) -> Result<(), AllocError>
    ensures { OnOk result (text.new.items
        ≡ text.old.items ++ array (words_for (Set key.now value.now options))) }
{
    text.reserve(
        key.len()
            .saturating_add(value.len())
            .saturating_add(SET_ROOM),
    )?;
    begin(text, Name::Set, option_count(options) + 3)?;
    reply::bulk(text, key)?;
    reply::bulk(text, value)?;
    write_options(text, options)
}

/// Writes a request for the keys that begin so.
fn write_prefix(alloc: Global, text: &mut Vec<u8>, prefix: &[u8]) -> Result<(), AllocError>
    ensures { OnOk result (text.new.items
        ≡ text.old.items ++ array (words_for (KeysWith prefix.now))) }
{
    let mut pattern = Vec::from_slice(alloc, prefix)?;
    pattern.push(b'*')?;
    write_one(text, Name::Keys, pattern.as_slice())
}

/// Writes a request with this fault in its words.
fn write_wrong(text: &mut Vec<u8>, fault: Fault) -> Result<(), AllocError>
    ensures { OnOk result (text.new.items ≡ text.old.items ++ array (wrong_words fault)) }
{
    match fault {
        Fault::Syntax => write_set_wrong(text),
        Fault::NotInteger => write_two(text, Name::IncrBy, b"", b""),
        Fault::Overflow => write_number(text, Name::DecrBy, b"", i64::MIN),
        _ => write_one(text, Name::Keys, b""),
    }
}

/// Writes a request that sets a key with an option that is none.
fn write_set_wrong(text: &mut Vec<u8>) -> Result<(), AllocError>
    ensures { OnOk result (text.new.items ≡ text.old.items ++ array (wrong_words Syntax)) }
{
    begin(text, Name::Set, 4)?;
    reply::bulk(text, b"")?;
    reply::bulk(text, b"")?;
    reply::bulk(text, b"")
}

/// Writes the request that says a command.
fn write_command(alloc: Global, text: &mut Vec<u8>, command: &Command) -> Result<(), AllocError>
    ensures { OnOk result (text.new.items ≡ text.old.items ++ array (words_for command.now)) }
{
    match command {
        Command::Get(key) => write_one(text, Name::Get, key.as_slice()),
        Command::Set(key, value, options) => {
            write_set(text, key.as_slice(), value.as_slice(), *options)
        }
        Command::Del(keys) => write_all(text, Name::Del, keys.as_slice()),
        Command::Exists(keys) => write_all(text, Name::Exists, keys.as_slice()),
        Command::Add(key, by) => write_number(text, Name::IncrBy, key.as_slice(), *by),
        Command::Append(key, more) => {
            write_two(text, Name::Append, key.as_slice(), more.as_slice())
        }
        Command::StrLen(key) => write_one(text, Name::StrLen, key.as_slice()),
        Command::MGet(keys) => write_all(text, Name::MGet, keys.as_slice()),
        Command::MSet(words) => write_all(text, Name::MSet, words.as_slice()),
        Command::DbSize => write_alone(text, Name::DbSize),
        Command::KeysWith(prefix) => write_prefix(alloc, text, prefix.as_slice()),
        Command::FlushAll => write_alone(text, Name::FlushAll),
        Command::Ping => write_alone(text, Name::Ping),
        Command::Echo(word) => write_one(text, Name::Echo, word.as_slice()),
        Command::Wrong(fault) => write_wrong(text, *fault),
    }
}

/// Writes the requests that say commands, one behind the other.
fn write_each(alloc: Global, text: &mut Vec<u8>, commands: &[Command]) -> Result<(), AllocError>
    ensures { OnOk result (text.new.items
        ≡ text.old.items ++ flat_map array (map words_for commands.now)) }
{
    for command in commands {
        write_command(alloc, text, command)?;
    }
    Ok(())
}

/// Writes the requests of a queue, from MULTI to EXEC.
fn write_queue(alloc: Global, text: &mut Vec<u8>, commands: &[Command]) -> Result<(), AllocError>
    ensures { OnOk result (text.new.items ≡ text.old.items ++ log_text (Each commands.now)) }
{
    write_alone(text, Name::Multi)?;
    write_each(alloc, text, commands)?;
    write_alone(text, Name::Exec)
}

impl Work {
    /// The bytes of requests that say it again, for a log; none for what only replies.
    pub fn log_text(&self, alloc: Global) -> Result<Vec<u8>, AllocError>
        ensures { IfOk result (λ text. text.items ≡ log_text self.now) }
    {
        let mut text = Vec::new(alloc);
        match self {
            Work::Say(_) => {}
            Work::One(command) => write_command(alloc, &mut text, command)?,
            Work::Each(commands) => write_queue(alloc, &mut text, commands.as_slice())?,
        }
        Ok(text)
    }
}
