//! What words say: a command, or a word about the queue of a channel.
ghost use Rattle.std.specs.Prelude.{◌≡◌, ◌==◌, ◌%◌, Some, length, map};
ghost use Rattle.sk_commands.specs.Base.{list_any, vec_items, Append, NotInteger};
ghost use Rattle.sk_commands.specs.Numbers.{number_of};
ghost use Rattle.sk_commands.specs.Parsing.{add_or, alone, exchanged, is_of_prefix, is_special, made, matching, one_of, order_for, order_of, pairs_for, plainly, set_for, some_of, subtract_of, two_of, with_option, with_options};

use crate::name::is_alike;
use crate::number::negative_of;
use crate::{ByteString, Command, Fault, Keys, Name, Options, Order, When, number_of};

/// An order that takes no word behind its name.
fn alone(name: Name, order: Order, words: &[Vec<u8>]) -> Result<Order, Fault>
    ensures { result ≡ alone name order (map vec_items words.now) }
{
    if !words.is_empty() {
        return Err(Fault::WrongNumber(name));
    }
    Ok(order)
}

/// The word of a command that takes one.
fn one(name: Name, mut words: Vec<Vec<u8>>) -> Result<ByteString, Fault>
    ensures { result ≡ one_of name (map vec_items words.items) }
{
    match words.pop() {
        Some(word) if words.is_empty() => Ok(ByteString::new(word)),
        _ => Err(Fault::WrongNumber(name)),
    }
}

/// The words of a command that takes two.
fn two(name: Name, mut words: Vec<Vec<u8>>) -> Result<(ByteString, ByteString), Fault>
    ensures { result ≡ two_of name (map vec_items words.items) }
{
    let Some(last) = words.pop() else {
        return Err(Fault::WrongNumber(name));
    };
    match words.pop() {
        Some(first) if words.is_empty() => Ok((ByteString::new(first), ByteString::new(last))),
        _ => Err(Fault::WrongNumber(name)),
    }
}

/// All words, of which there is one at least.
fn some(name: Name, words: Vec<Vec<u8>>) -> Result<Keys, Fault>
    ensures { result ≡ some_of name (map vec_items words.items) }
{
    if words.is_empty() {
        return Err(Fault::WrongNumber(name));
    }
    Ok(Keys::new(words))
}

/// Adds what a text says to what a key has.
fn add(key: ByteString, text: &ByteString) -> Command
    ensures { result ≡ add_or NotInteger key (number_of text.now) }
{
    match number_of(text.as_slice()) {
        Some(by) => Command::Add(key, by),
        None => Command::Wrong(Fault::NotInteger),
    }
}

/// Takes what a text says off what a key has.
fn subtract(key: ByteString, text: &ByteString) -> Command
    ensures { result ≡ subtract_of key (number_of text.now) }
{
    let Some(by) = number_of(text.as_slice()) else {
        return Command::Wrong(Fault::NotInteger);
    };
    match negative_of(by) {
        Some(by) => Command::Add(key, by),
        None => Command::Wrong(Fault::Overflow),
    }
}

/// The options of a SET with what one word more says, where that is an option and none that was there is against it.
fn with_option(word: &[u8], options: Options) -> Option<Options>
    ensures { result ≡ with_option word.now options }
{
    let mut options = options;
    if is_alike(word, b"nx") {
        if options.when == When::Present {
            return None;
        }
        options.when = When::Absent;
    } else if is_alike(word, b"xx") {
        if options.when == When::Absent {
            return None;
        }
        options.when = When::Present;
    } else if is_alike(word, b"get") {
        options.gives = true;
    } else {
        return None;
    }
    Some(options)
}

/// How a key is set, by all options.
fn options_of(words: &[Vec<u8>]) -> Option<Options>
    ensures { result ≡ with_options (map vec_items words.now) (Some plainly) }
{
    let mut options = Options {
        when: When::Always,
        gives: false,
    };
    for word in words {
        options = with_option(word.as_slice(), options)?;
    }
    Some(options)
}

/// A key, what it gets, and options.
fn set(mut words: Vec<Vec<u8>>) -> Result<Command, Fault>
    ensures { result ≡ set_for (map vec_items words.items) }
{
    if words.len() < 2 {
        return Err(Fault::WrongNumber(Name::Set));
    }
    let options = options_of(&words.as_slice()[2..]);
    let value = words.remove(1);
    let key = words.remove(0);
    Ok(match options {
        Some(options) => Command::Set(ByteString::new(key), ByteString::new(value), options),
        None => Command::Wrong(Fault::Syntax),
    })
}

/// Keys, each with what it gets behind it.
fn pairs(words: Vec<Vec<u8>>) -> Result<Command, Fault>
    ensures { result
        ≡ pairs_for (map vec_items words.items) (length (map vec_items words.items) % 2 == 0) }
{
    if words.is_empty() || words.as_slice().len() % 2 != 0 {
        return Err(Fault::WrongNumber(Name::MSet));
    }
    Ok(Command::MSet(Keys::new(words)))
}

/// A byte that means something in a pattern.
fn is_special(byte: u8) -> bool
    ensures { result ≡ is_special byte }
{
    byte == b'*' || byte == b'?' || byte == b'[' || byte == b'\\'
}

/// Whether some byte means something in a pattern.
fn has_special(bytes: &[u8]) -> bool
    ensures { result ≡ list_any is_special bytes.now }
{
    for byte in bytes {
        if is_special(*byte) {
            return true;
        }
    }
    false
}

/// Whether a pattern is that of a prefix: `*` stands last in it, and nothing special before.
fn is_of_prefix(pattern: &[u8]) -> bool
    ensures { result ≡ is_of_prefix pattern.now }
{
    if pattern.is_empty() {
        return false;
    }
    let last = pattern.len() - 1;
    pattern[last] == b'*' && !has_special(&pattern[..last])
}

/// The keys that match a pattern.
fn matching(pattern: ByteString) -> Command
    ensures { result ≡ matching pattern }
{
    if !is_of_prefix(pattern.as_slice()) {
        return Command::Wrong(Fault::Pattern);
    }
    let mut prefix = pattern.into_vec();
    prefix.truncate(prefix.len().saturating_sub(1));
    Command::KeysWith(ByteString::new(prefix))
}

/// Adds what the second word says to what the first, a key, has.
fn increment(name: Name, words: Vec<Vec<u8>>) -> Result<Command, Fault>
    ensures { result
        ≡ made (λ w. add_or NotInteger w.0 (number_of w.1))
        (two_of name (map vec_items words.items)) }
{
    let (key, text) = two(name, words)?;
    Ok(add(key, &text))
}

/// Takes what the second word says off what the first, a key, has.
fn decrement(name: Name, words: Vec<Vec<u8>>) -> Result<Command, Fault>
    ensures { result
        ≡ made (λ w. subtract_of w.0 (number_of w.1)) (two_of name (map vec_items words.items)) }
{
    let (key, text) = two(name, words)?;
    Ok(subtract(key, &text))
}

/// A key, and more for it.
fn append(name: Name, words: Vec<Vec<u8>>) -> Result<Command, Fault>
    ensures { result ≡ made (λ w. Append w.0 w.1) (two_of name (map vec_items words.items)) }
{
    let (key, more) = two(name, words)?;
    Ok(Command::Append(key, more))
}

/// A key, and what it gets; what it had is replied.
fn exchange(name: Name, words: Vec<Vec<u8>>) -> Result<Command, Fault>
    ensures { result ≡ made (λ w. exchanged w.0 w.1) (two_of name (map vec_items words.items)) }
{
    let (key, value) = two(name, words)?;
    let options = Options {
        when: When::Always,
        gives: true,
    };
    Ok(Command::Set(key, value, options))
}

/// What a name says with these words behind it.
fn order_for(name: Name, words: Vec<Vec<u8>>) -> Result<Order, Fault>
    ensures { result ≡ order_for name (map vec_items words.items) }
{
    Ok(Order::Run(match name {
        Name::Get => Command::Get(one(name, words)?),
        Name::Set => set(words)?,
        Name::Del => Command::Del(some(name, words)?),
        Name::Exists => Command::Exists(some(name, words)?),
        Name::Incr => Command::Add(one(name, words)?, 1),
        Name::Decr => Command::Add(one(name, words)?, -1),
        Name::IncrBy => increment(name, words)?,
        Name::DecrBy => decrement(name, words)?,
        Name::Append => append(name, words)?,
        Name::StrLen => Command::StrLen(one(name, words)?),
        Name::GetSet => exchange(name, words)?,
        Name::MGet => Command::MGet(some(name, words)?),
        Name::MSet => pairs(words)?,
        Name::DbSize => return alone(name, Order::Run(Command::DbSize), &words),
        Name::Keys => matching(one(name, words)?),
        Name::FlushAll => return alone(name, Order::Run(Command::FlushAll), &words),
        Name::Multi => return alone(name, Order::Multi, &words),
        Name::Exec => return alone(name, Order::Exec, &words),
        Name::Discard => return alone(name, Order::Discard, &words),
        Name::Ping if words.is_empty() => Command::Ping,
        Name::Ping | Name::Echo => Command::Echo(one(name, words)?),
    }))
}

impl Order {
    /// What words say: the first names it. No word is copied.
    pub fn of(mut words: Vec<Vec<u8>>) -> Result<Order, Fault>
        ensures { result ≡ order_of (map vec_items words.items) }
    {
        if words.is_empty() {
            return Err(Fault::Unknown);
        }
        let word = words.remove(0);
        match Name::of(word.as_slice()) {
            Some(name) => order_for(name, words),
            None => Err(Fault::Unknown),
        }
    }
}
