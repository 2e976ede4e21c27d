//! What an entity holds.
ghost use Rattle.std.specs.Prelude.{◌≡◌, ◌≢◌, ◌≤◌, min, [], unwrap_or, IfOk, IfSome};
ghost use Rattle.sk_objects.specs.Content.{LAST_VERSION};
ghost use Rattle.sk_ids.specs.declared.text.TheConstants.{TEXT_LIMIT};
ghost use Rattle.sk_objects.specs.File.{part as bytes_part};
ghost use Rattle.sk_objects.specs.declared.file.TheConstants.{FILE_LIMIT};
ghost use Rattle.sk_objects.specs.Value.{kind_of, empty_of, bytes_from, size_of, shut_of, target_of, queued_at, status_of, version_of};

use crate::{Content, File, HeldContent, Pipe, Signals};
use sk_ids::text::TEXT_LIMIT;
use sk_ids::{ObjId, Text};
use std::alloc::{AllocError, Global};

/// The greatest status of an exit slot.
pub const LAST_STATUS: u8 = u8::MAX;

/// What an entity other than a process holds.
#[derive(Drop, PartialEq, Eq)]
pub enum Value {
    /// A file.
    File(File),
    /// A directory. Its names are entities of their own.
    Dir,
    /// A name of a directory: the object that it is linked to.
    Link(ObjId),
    /// A pipe.
    Pipe(Pipe),
    /// A queue of signals.
    Signals(Signals),
    /// An exit slot: the status of a process that has ended.
    Exit(Option<u8>),
    /// A cached copy of a file of the server.
    Copy(HeldContent),
}

/// The kinds of values.
#[derive(Clone, Copy, Debug, PartialEq, Eq)]
pub enum Kind {
    File,
    Dir,
    Link,
    Pipe,
    Signals,
    Exit,
    Copy,
}

/// Up to `count` bytes of a text from a place on, read into another where it stands; none past the end.
fn part_into(from: &Text, at: usize, count: usize, text: &mut Text)
    ensures { text.new ≡ bytes_part from.now at count }
{
    let bytes = from.as_slice();
    let rest = &bytes[bytes.len().min(at)..];
    text.set(&rest[..count.min(rest.len())]);
}

/// Up to `count` bytes of a pipe from a place on, counted from the oldest, read into a text.
#[inline(never)]
fn pipe_into(pipe: &Pipe, at: usize, count: usize, text: &mut Text)
    requires { count ≤ TEXT_LIMIT }
    ensures { text.new ≡ bytes_part pipe.now.bytes at count }
{
    *text = pipe.part(at, count);
}

impl Value {
    /// The first value of a kind that is no link: empty, open, not set, version 0. The room that a pipe
    /// or a queue may need is made here.
    pub fn empty(alloc: Global, kind: Kind) -> Result<Value, AllocError>
        requires { kind ≢ Kind.Link }
        ensures { IfOk result (λ value. value ≡ empty_of kind) }
    {
        Ok(match kind {
            Kind::File => Value::File(File::new(alloc)?),
            Kind::Dir => Value::Dir,
            Kind::Link => unreachable!(),
            Kind::Pipe => Value::Pipe(Pipe::new(alloc)?),
            Kind::Signals => Value::Signals(Signals::new(alloc)?),
            Kind::Exit => Value::Exit(None),
            Kind::Copy => Value::content(alloc, Content::new(0, Text::empty()).unwrap())?,
        })
    }

    /// A name that is linked to this object. This takes no memory.
    pub fn link(object: ObjId) -> Value
        ensures { result ≡ Value.Link object }
    {
        Value::Link(object)
    }

    /// A cached copy of a content.
    #[inline(always)]
    pub fn content(alloc: Global, content: Content) -> Result<Value, AllocError>
        ensures { IfOk result (λ value. value ≡ Value.Copy content) }
    {
        Ok(Value::Copy(HeldContent::new(alloc, content)?))
    }

    /// Another value that holds the same.
    pub fn copy(&self) -> Result<Value, AllocError>
        ensures { IfOk result (λ copy. copy ≡ self.now) }
    {
        Ok(match self {
            Value::File(file) => Value::File(file.copy()?),
            Value::Dir => Value::Dir,
            Value::Link(object) => Value::Link(*object),
            Value::Pipe(pipe) => Value::Pipe(pipe.copy()?),
            Value::Signals(signals) => Value::Signals(signals.copy()?),
            Value::Exit(status) => Value::Exit(*status),
            Value::Copy(held) => Value::Copy(held.copy()?),
        })
    }

    pub fn kind(&self) -> Kind
        ensures { result ≡ kind_of self.now }
    {
        match self {
            Value::File(_) => Kind::File,
            Value::Dir => Kind::Dir,
            Value::Link(_) => Kind::Link,
            Value::Pipe(_) => Kind::Pipe,
            Value::Signals(_) => Kind::Signals,
            Value::Exit(_) => Kind::Exit,
            Value::Copy(_) => Kind::Copy,
        }
    }

    /// Up to `count` bytes of a file, a pipe or a copy from a place on, and at most 512; none past the
    /// end. A pipe's places count from its front. `None` for another kind.
    pub fn bytes_at(&self, offset: u64, count: usize) -> Option<Text>
        ensures { result ≡ bytes_from self.now offset count }
    {
        match self {
            Value::File(_) | Value::Pipe(_) | Value::Copy(_) => Some(self.text_at(offset, count)),
            _ => None,
        }
    }

    /// The bytes that `bytes_at` tells; none for another kind.
    pub fn text_at(&self, offset: u64, count: usize) -> Text
        ensures { result ≡ unwrap_or (bytes_from self.now offset count) [] }
    {
        let mut text = Text::empty();
        self.read_into(offset, count, &mut text);
        text
    }

    /// Reads the bytes of `text_at` into a text that is there.
    pub fn read_into(&self, offset: u64, count: usize, text: &mut Text)
        ensures { text.new ≡ unwrap_or (bytes_from self.now offset count) [] }
    {
        let at = offset as usize;
        let count = count.min(TEXT_LIMIT);
        match self {
            Value::File(file) => file.part_into(at, count, text),
            Value::Pipe(pipe) => pipe_into(pipe, at, count, text),
            Value::Copy(held) => part_into(held.content().text(), at, count, text),
            _ => text.set(&[]),
        }
    }

    /// The number of bytes of a file, a pipe or a copy; `None` for another kind.
    pub fn size(&self) -> Option<u32>
        ensures value { result ≡ size_of self.now }
        ensures limit { IfSome result (λ size. size ≤ FILE_LIMIT) }
    {
        match self {
            Value::File(file) => Some(file.len() as u32),
            Value::Pipe(pipe) => Some(pipe.len() as u32),
            Value::Copy(held) => Some(held.content().text().len() as u32),
            _ => None,
        }
    }

    /// Whether a pipe is shut; `None` for another kind.
    pub fn is_shut(&self) -> Option<bool>
        ensures { result ≡ shut_of self.now }
    {
        match self {
            Value::Pipe(pipe) => Some(pipe.is_shut()),
            _ => None,
        }
    }

    /// The object that a name is linked to; `None` for another kind.
    pub fn target(&self) -> Option<ObjId>
        ensures { result ≡ target_of self.now }
    {
        match self {
            Value::Link(object) => Some(*object),
            _ => None,
        }
    }

    /// The signal at a place of a queue, the oldest first; `None` past the last, and for another
    /// kind.
    pub fn signal_at(&self, place: usize) -> Option<u8>
        ensures { result ≡ queued_at self.now place }
    {
        match self {
            Value::Signals(signals) => signals.as_slice().get(place).copied(),
            _ => None,
        }
    }

    /// The status of an exit slot, `Some(None)` where it is not set; `None` for another kind.
    pub fn status(&self) -> Option<Option<u8>>
        ensures { result ≡ status_of self.now }
    {
        match self {
            Value::Exit(status) => Some(*status),
            _ => None,
        }
    }

    /// The version of a copy; `None` for another kind.
    pub fn version(&self) -> Option<u64>
        ensures value { result ≡ version_of self.now }
        ensures limit { IfSome result (λ version. version ≤ LAST_VERSION) }
    {
        match self {
            Value::Copy(held) => Some(held.content().version()),
            _ => None,
        }
    }
}
