//! Keys that no command may name: those of batches.
ghost use Rattle.std.specs.Prelude.{◌≡◌, map};
ghost use Rattle.sk_served.specs.Base.{vec_items, list_any, pairs_of, is_reserved};
ghost use Rattle.sk_served.specs.Names.{command_names_reserved, names_reserved};

use sk_commands::{Command, Work};
use sk_reserved::is_reserved;

/// Whether one of these keys does.
fn are_reserved(keys: &[Vec<u8>]) -> bool
    ensures { result ≡ list_any is_reserved (map vec_items keys.now) }
{
    for key in keys {
        if is_reserved(key.as_slice()) {
            return true;
        }
    }
    false
}

/// Whether one of the keys that MSET sets does; each has its value behind it.
fn set_reserved(words: &[Vec<u8>]) -> bool
    ensures { result ≡ list_any is_reserved (map (λ w. w.0) (pairs_of (map vec_items words.now))) }
{
    let mut left = words;
    while let Some((key, behind)) = left.split_first() {
        let Some((_, behind)) = behind.split_first() else {
            return false;
        };
        if is_reserved(key.as_slice()) {
            return true;
        }
        left = behind;
    }
    false
}

/// Whether a command names a reserved key.
fn command_names_reserved(command: &Command) -> bool
    ensures { result ≡ command_names_reserved command.now }
{
    match command {
        Command::Get(key)
        | Command::Set(key, _, _)
        | Command::Add(key, _)
        | Command::Append(key, _)
        | Command::StrLen(key) => is_reserved(key.as_slice()),
        Command::Del(keys) | Command::Exists(keys) | Command::MGet(keys) => {
            are_reserved(keys.as_slice())
        }
        Command::MSet(words) => set_reserved(words.as_slice()),
        Command::DbSize
        | Command::KeysWith(_)
        | Command::FlushAll
        | Command::Ping
        | Command::Echo(_)
        | Command::Wrong(_) => false,
    }
}

/// Whether one of these commands does.
fn some_names_reserved(commands: &[Command]) -> bool
    ensures { result ≡ list_any command_names_reserved commands.now }
{
    for command in commands {
        if command_names_reserved(command) {
            return true;
        }
    }
    false
}

/// Whether work names a reserved key. Such work is refused before it comes to the store.
pub fn names_reserved(work: &Work) -> bool
    ensures { result ≡ names_reserved work.now }
{
    match work {
        Work::Say(_) => false,
        Work::One(command) => command_names_reserved(command),
        Work::Each(commands) => some_names_reserved(commands.as_slice()),
    }
}
