//! What is done as one step: a command, or the commands of a queue, one after another.
ghost use Rattle.std.specs.Prelude.{◌≡◌, ◌∷◌, ◌++◌, [], flat_map, map, IfOk, OnErr, OnOk};
ghost use Rattle.sk_commands.specs.Base.{list_any, vec_items};
ghost use Rattle.sk_commands.specs.Table.{asks, is_told_of_all, may_write, outcome, told, CarriesOut};
ghost use Rattle.sk_commands.specs.Work.{after, comes_to, each, known_after, looks_at, may_write_some, wants_all, with_known, IsPlace};

use crate::asking::copy_keys;
use crate::noted::Noted;
use crate::rising::{are_rising, rising_after};
use crate::run::FEW;
use crate::{ByteString, Command, Look, Reply, Writes};
use std::alloc::{AllocError, Global};
use std::cmp::Ordering;
use std::marker::Model;

/// Commands, one after another.
#[derive(Drop)]
pub struct Commands {
    commands: Vec<Command>,
}

impl Model for Commands {
    ghost use Rattle.std.specs.Prelude.{List};
    ghost use Rattle.std.specs.Coded.{coded_list};
    ghost use Rattle.sk_commands.specs.declared.command.Command.{Command};
    ghost use Rattle.sk_commands.specs.contracts.command.Command as command_row;

    ghost Value = { List Command };

    ghost coded = { coded_list command_row.the_row.coded };

    ghost view = { λ c. c.commands.items };
}

impl Commands {
    /// No commands.
    pub fn new(alloc: Global) -> Commands
        ensures { result ≡ [] }
    {
        Commands {
            commands: Vec::new(alloc),
        }
    }

    /// Adds a command behind the others.
    pub fn push(&mut self, command: Command) -> Result<(), AllocError>
        ensures ok { OnOk result (self.new ≡ self.old ++ command ∷ []) }
        ensures err { OnErr result (self.new ≡ self.old) }
    {
        self.commands.push(command)?;
        Ok(())
    }

    /// The commands.
    pub fn as_slice(&self) -> &[Command]
        ensures { result.now ≡ self.now }
    {
        self.commands.as_slice()
    }

    /// The commands, which are not copied.
    pub fn into_vec(self) -> Vec<Command>
        ensures { result.items ≡ self }
    {
        self.commands
    }
}

/// Replies, one for each command.
#[derive(Drop)]
pub struct Replies {
    replies: Vec<Reply>,
}

impl Model for Replies {
    ghost use Rattle.std.specs.Prelude.{List};
    ghost use Rattle.std.specs.Coded.{coded_list};
    ghost use Rattle.sk_commands.specs.declared.reply.Reply.{Reply};
    ghost use Rattle.sk_commands.specs.contracts.reply.Reply as reply_row;

    ghost Value = { List Reply };

    ghost coded = { coded_list reply_row.the_row.coded };

    ghost view = { λ r. r.replies.items };
}

impl Replies {
    /// These replies.
    pub fn new(replies: Vec<Reply>) -> Replies
        ensures { result ≡ replies.items }
    {
        Replies { replies }
    }

    /// The replies.
    pub fn as_slice(&self) -> &[Reply]
        ensures { result.now ≡ self.now }
    {
        self.replies.as_slice()
    }
}

/// What is done for a request, as one step.
#[derive(Drop)]
pub enum Work {
    /// Nothing is done but to reply this.
    Say(Reply),
    One(Command),
    /// EXEC: the commands of a queue, one after another, all or none.
    Each(Commands),
}

/// What is replied to a request's work.
#[derive(Drop)]
pub enum Answer {
    One(Reply),
    /// An array: one reply for each command.
    Each(Replies),
}

/// A store behind writes: a key has what it got last.
#[derive_where(Clone, Copy)]
struct Behind<'a, S> {
    written: &'a Noted,
    store: &'a S,
}

impl<S: Look> Look for Behind<'_, S> {
    ghost use Rattle.sk_commands.specs.Table.{told};
    ghost use Rattle.sk_commands.specs.Work.{after};

    ghost look = { λ b. after (told b.written.now) (S.look b.store.now) };

    fn value(&self, key: &[u8]) -> Option<&ByteString> {
        match self.written.last(key) {
            Some(last) => last.1.as_ref(),
            None => self.store.value(key),
        }
    }
}

/// Where a key would stand among keys, in the order of their bytes; `None` where it is among them.
fn place_of(keys: &[Vec<u8>], key: &[u8]) -> Option<usize>
    ensures { IsPlace keys.now key.now result }
{
    for (i, other) in keys.iter().enumerate() {
        match key.cmp(other.as_slice()) {
            Ordering::Less => return Some(i),
            Ordering::Equal => return None,
            Ordering::Greater => {}
        }
    }
    Some(keys.len())
}

/// A copy of a key stands among keys once, in the order of their bytes.
fn place_key(alloc: Global, key: &[u8], keys: &mut Vec<Vec<u8>>) -> Result<(), AllocError>
    ensures { OnOk result
        (map vec_items keys.new.items ≡ with_known (map vec_items keys.old.items) key.now) }
{
    if let Some(place) = place_of(keys.as_slice(), key) {
        let copy = Vec::from_slice(alloc, key)?;
        keys.insert(place, copy)?;
    }
    Ok(())
}

/// Copies of all keys when this is written, each once, in the order of their bytes where they stood so. Each write is placed by
/// itself.
fn place_each(
    alloc: Global,
    written: &[(Vec<u8>, Option<ByteString>)],
    known: &[Vec<u8>],
) -> Result<Vec<Vec<u8>>, AllocError>
    ensures { IfOk result (λ all. map vec_items all.items
        ≡ known_after (told written.now) (map vec_items known.now)) }
{
    let mut all = Vec::new(alloc);
    copy_keys(alloc, known, &mut all)?;
    for write in written {
        place_key(alloc, write.0.as_slice(), &mut all)?;
    }
    Ok(all)
}

/// Copies of all keys when this is written, as of `place_each`. Keys that stand in the order of their bytes are looked through
/// once for many writes.
fn known_after(
    alloc: Global,
    written: &[(Vec<u8>, Option<ByteString>)],
    known: &[Vec<u8>],
) -> Result<Vec<Vec<u8>>, AllocError>
    ensures { IfOk result (λ all. map vec_items all.items
        ≡ known_after (told written.now) (map vec_items known.now)) }
{
    if written.len() > FEW && are_rising(known) {
        rising_after(alloc, written, known)
    } else {
        place_each(alloc, written, known)
    }
}

/// What a command writes behind what is written so far, and replies: it sees that.
fn run_behind<S: Look>(
    alloc: Global,
    command: Command,
    store: &S,
    known: &[Vec<u8>],
    so_far: &Noted,
    own: &mut Writes,
) -> Result<Reply, AllocError>
    ensures { CarriesOut
        (outcome (known_after (told so_far.now) (map vec_items known.now)) command
        (after (told so_far.now) (S.look store.now)))
        own.old.items result own.new.items }
{
    let seen = Behind {
        written: so_far,
        store,
    };
    if command.is_told_of_all() {
        let known = known_after(alloc, so_far.as_slice(), known)?;
        command.run(alloc, &seen, known.as_slice(), own)
    } else {
        command.run(alloc, &seen, &[], own)
    }
}

/// Writes stand behind those so far.
fn note_all(so_far: &mut Noted, own: Writes) -> Result<(), AllocError>
    ensures { OnOk result (told so_far.new ≡ told so_far.old ++ told own.items) }
{
    for write in own {
        let (key, value) = write;
        so_far.push(key, value)?;
    }
    Ok(())
}

/// One command more, which sees what is written so far.
fn run_next<S: Look>(
    alloc: Global,
    command: Command,
    store: &S,
    known: &[Vec<u8>],
    so_far: &mut Noted,
) -> Result<Reply, AllocError>
    ensures reply { IfOk result (λ reply. reply
        ≡ (outcome (known_after (told so_far.old) (map vec_items known.now)) command
        (after (told so_far.old) (S.look store.now))).reply) }
    ensures written { OnOk result (told so_far.new ≡ told so_far.old
        ++ (outcome (known_after (told so_far.old) (map vec_items known.now)) command
        (after (told so_far.old) (S.look store.now))).written) }
{
    let mut own = Vec::new(alloc);
    let reply = run_behind(alloc, command, store, known, so_far, &mut own)?;
    note_all(so_far, own)?;
    Ok(reply)
}

/// Commands, one after another: each sees what those before it wrote.
fn run_each<S: Look>(
    alloc: Global,
    commands: Commands,
    store: &S,
    known: &[Vec<u8>],
    written: &mut Writes,
) -> Result<Replies, AllocError>
    ensures { CarriesOut (each (map vec_items known.now) commands (S.look store.now))
        written.old.items result written.new.items }
{
    let mut so_far = Noted::new(alloc);
    let mut replies = Vec::new(alloc);
    for command in commands.into_vec() {
        let reply = run_next(alloc, command, store, known, &mut so_far)?;
        replies.push(reply)?;
    }
    let mut so_far = so_far.into_writes();
    written.append(&mut so_far)?;
    Ok(Replies::new(replies))
}

/// Copies of the keys that commands look at stand behind those that are listed. Without memory for all, none does.
fn ask_each(
    alloc: Global,
    commands: &[Command],
    known: &[Vec<u8>],
    looked: &mut Vec<Vec<u8>>,
) -> Result<(), AllocError>
    ensures ok { OnOk result
        (map vec_items looked.new.items
        ≡ map vec_items looked.old.items ++ flat_map (asks (map vec_items known.now)) commands.now) }
    ensures err { OnErr result
        (map vec_items looked.new.items ≡ map vec_items looked.old.items) }
{
    let before = looked.len();
    for command in commands {
        if command.asks(alloc, known, looked).is_err() {
            looked.truncate(before);
            return Err(AllocError);
        }
    }
    Ok(())
}

/// Whether some of these commands is told of all keys.
fn are_told_of_all(commands: &[Command]) -> bool
    ensures { result ≡ list_any is_told_of_all commands.now }
{
    for command in commands {
        if command.is_told_of_all() {
            return true;
        }
    }
    false
}

/// Whether some of these commands may write.
fn may_write(commands: &[Command]) -> bool
    ensures { result ≡ list_any may_write commands.now }
{
    for command in commands {
        if command.may_write() {
            return true;
        }
    }
    false
}

impl Work {
    /// Whether some of it may write. Where not, it writes nothing, whatever keys have.
    pub fn may_write(&self) -> bool
        ensures { result ≡ may_write_some self.now }
    {
        match self {
            Work::Say(_) => false,
            Work::One(command) => command.may_write(),
            Work::Each(commands) => may_write(commands.as_slice()),
        }
    }

    /// Whether some of it is told of all keys. Where not, what keys are known changes nothing.
    pub fn is_told_of_all(&self) -> bool
        ensures { result ≡ wants_all self.now }
    {
        match self {
            Work::Say(_) => false,
            Work::One(command) => command.is_told_of_all(),
            Work::Each(commands) => are_told_of_all(commands.as_slice()),
        }
    }

    /// Copies of the keys that are looked at stand behind those that are listed, where all keys are known. Without memory for
    /// all, none does.
    pub fn asks(
        &self,
        alloc: Global,
        known: &[Vec<u8>],
        looked: &mut Vec<Vec<u8>>,
    ) -> Result<(), AllocError>
        ensures ok { OnOk result
            (map vec_items looked.new.items
            ≡ map vec_items looked.old.items ++ looks_at (map vec_items known.now) self.now) }
        ensures err { OnErr result
            (map vec_items looked.new.items ≡ map vec_items looked.old.items) }
    {
        match self {
            Work::Say(_) => Ok(()),
            Work::One(command) => command.asks(alloc, known, looked),
            Work::Each(commands) => ask_each(alloc, commands.as_slice(), known, looked),
        }
    }

    /// What is written, behind what is written already, and what is answered, by what keys have, where all keys are known.
    /// Without memory nothing has changed.
    pub fn run<S: Look>(
        self,
        alloc: Global,
        store: &S,
        known: &[Vec<u8>],
        written: &mut Writes,
    ) -> Result<Answer, AllocError>
        ensures { CarriesOut (comes_to (map vec_items known.now) self (S.look store.now))
            written.old.items result written.new.items }
    {
        match self {
            Work::Say(reply) => Ok(Answer::One(reply)),
            Work::One(command) => Ok(Answer::One(command.run(alloc, store, known, written)?)),
            Work::Each(commands) => Ok(Answer::Each(run_each(
                alloc, commands, store, known, written,
            )?)),
        }
    }
}
