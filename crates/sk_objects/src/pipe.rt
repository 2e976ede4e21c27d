//! Pipes.
ghost use Rattle.std.specs.Prelude.{◌≡◌, ◌≤◌, ◌<◌, ◌+◌, ◌++◌, ◌↔◌, IsTrue, false, [], length, take, drop, IfOk};
ghost use Rattle.sk_ids.specs.declared.text.TheConstants.{TEXT_LIMIT};
ghost use Rattle.sk_objects.specs.File.{part};
ghost use Rattle.sk_objects.specs.Pipe.{PipeView};
ghost use Rattle.sk_objects.specs.Ring.{turned, wrapped};
ghost use Rattle.sk_objects.specs.Same.{same_bytes};
ghost use Rattle.sk_objects.specs.declared.pipe.TheConstants.{PIPE_LIMIT};

use crate::block::place;
use sk_ids::Text;
use std::alloc::{AllocError, Global};
use std::marker::Model;

/// The greatest number of bytes that a pipe holds.
pub const PIPE_LIMIT: usize = 4_096;

/// At most 4,096 bytes in the order in which they came, and whether the pipe is shut. They stand in
/// a ring of 4,096, which is made with the pipe.
#[derive(Drop)]
pub struct Pipe {
    cells: Box<[u8; PIPE_LIMIT]>,
    head: usize,
    len: usize,
    shut: bool,
}

impl Model for Pipe {
    ghost use Rattle.sk_objects.specs.Invariants.{IsTidyPipe};
    ghost use Rattle.sk_objects.specs.Pipe.{PipeView};
    ghost use Rattle.sk_objects.specs.Ring.{ring_bytes};

    ghost Value = { PipeView };

    ghost view = { λ p. record { bytes = ring_bytes p.head p.len p.cells.value; shut = p.shut } };

    ghost invariant = { λ p. IsTidyPipe p.cells.value p.head p.len };
}

/// Writes bytes into the cells from one on, round the end.
fn write_round(cells: &mut [u8], at: usize, bytes: &[u8])
    requires cells { length cells.old ≡ PIPE_LIMIT }
    requires at { at < PIPE_LIMIT }
    requires fits { length bytes.now ≤ PIPE_LIMIT }
    ensures cells { turned at cells.new
        ≡ bytes.now ++ drop (length bytes.now) (turned at cells.old) }
    ensures len { length cells.new ≡ PIPE_LIMIT }
{
    let room = PIPE_LIMIT - at;
    if bytes.len() <= room {
        place(cells, at, bytes);
        return;
    }
    let (front, back) = bytes.split_at(room);
    place(cells, at, front);
    place(cells, 0, back);
}

/// Reads as many bytes as there is room for, from a cell on, round the end.
fn read_round(cells: &[u8], at: usize, out: &mut [u8])
    requires cells { length cells.now ≡ PIPE_LIMIT }
    requires at { at < PIPE_LIMIT }
    requires fits { length out.old ≤ PIPE_LIMIT }
    ensures { out.new ≡ take (length out.old) (turned at cells.now) }
{
    let room = PIPE_LIMIT - at;
    let count = out.len();
    if count <= room {
        out.copy_from_slice(&cells[at..at + count]);
        return;
    }
    out[..room].copy_from_slice(&cells[at..]);
    out[room..].copy_from_slice(&cells[..count - room]);
}

/// So many bytes, at most 512, from a cell on, round the end.
fn read_text(cells: &[u8], at: usize, count: usize) -> Text
    requires cells { length cells.now ≡ PIPE_LIMIT }
    requires at { at < PIPE_LIMIT }
    requires short { count ≤ TEXT_LIMIT }
    ensures { result ≡ take count (turned at cells.now) }
{
    let mut bytes = [0; 512];
    read_round(cells, at, &mut bytes[..count]);
    Text::new(&bytes[..count]).unwrap()
}

/// A cell's place, past the end from the front on.
fn wrapped(place: usize) -> usize
    requires { place < PIPE_LIMIT + PIPE_LIMIT }
    ensures small { result < PIPE_LIMIT }
    ensures value { result ≡ wrapped place }
{
    if place < PIPE_LIMIT {
        place
    } else {
        place - PIPE_LIMIT
    }
}

impl PartialEq for Pipe {
    ghost use Rattle.std.specs.Cmp.{decided, partial_equiv_from_equiv};
    ghost use Rattle.sk_objects.specs.Same.{same_pipe};
    ghost use Rattle.sk_objects.specs.SameLemma.{exact_pipe};

    ghost eq = { same_pipe };

    ghost laws = { partial_equiv_from_equiv (decided same_pipe exact_pipe) };

    /// True exactly where both hold the same.
    fn eq(&self, other: &Pipe) -> bool
        ensures computed { result ≡ same_pipe self.now other.now }
        ensures exact { IsTrue result ↔ (self.now ≡ other.now) }
    {
        self.shut == other.shut && self.has_same_bytes(other)
    }
}

impl Eq for Pipe {
    ghost use Rattle.std.specs.Cmp.{decided};
    ghost use Rattle.sk_objects.specs.Same.{same_pipe};
    ghost use Rattle.sk_objects.specs.SameLemma.{exact_pipe};

    ghost laws = { decided same_pipe exact_pipe };
}

/// Whether two lists of bytes, each in two parts, are the same, where the first part of the one is
/// not longer than that of the other.
fn same_parts(front: &[u8], rest: &[u8], start: &[u8], back: &[u8]) -> bool
    requires { length front.now ≤ length start.now }
    ensures { result ≡ same_bytes (front.now ++ rest.now) (start.now ++ back.now) }
{
    let (start, middle) = start.split_at(front.len());
    if rest.len() < middle.len() {
        return false;
    }
    let (inner, end) = rest.split_at(middle.len());
    front == start && (inner == middle && end == back)
}

impl Pipe {
    /// The empty pipe, not shut.
    pub fn new(alloc: Global) -> Result<Pipe, AllocError>
        ensures { IfOk result (λ pipe. pipe ≡ record { bytes = []; shut = false }) }
    {
        let cells = Box::new(alloc, [0; PIPE_LIMIT])?;
        Ok(Pipe {
            cells,
            head: 0,
            len: 0,
            shut: false,
        })
    }

    /// Another pipe that holds the same.
    pub fn copy(&self) -> Result<Pipe, AllocError>
        ensures { IfOk result (λ copy. copy ≡ self.now) }
    {
        let cells = Box::new(*Box::allocator(&self.cells), *self.cells)?;
        Ok(Pipe {
            cells,
            head: self.head,
            len: self.len,
            shut: self.shut,
        })
    }

    /// The number of bytes.
    pub fn len(&self) -> usize
        ensures value { result ≡ length self.now.bytes }
        ensures limit { result ≤ PIPE_LIMIT }
    {
        self.len
    }

    /// Whether the pipe is shut.
    pub fn is_shut(&self) -> bool
        ensures { result ≡ self.now.shut }
    {
        self.shut
    }

    /// The bytes in two parts, the oldest first.
    pub fn parts(&self) -> (&[u8], &[u8])
        ensures { result.0.now ++ result.1.now ≡ self.now.bytes }
    {
        let room = PIPE_LIMIT - self.head;
        if self.len <= room {
            return (&self.cells[self.head..self.head + self.len], &[]);
        }
        (&self.cells[self.head..], &self.cells[..self.len - room])
    }

    /// The `count` oldest bytes, at most 512 and at most those held.
    pub fn front(&self, count: usize) -> Text
        requires held { count ≤ length self.now.bytes }
        requires short { count ≤ TEXT_LIMIT }
        ensures { result ≡ take count self.now.bytes }
    {
        read_text(self.cells.as_slice(), self.head, count)
    }

    /// Up to `count` bytes, at most 512, from a place on, counted from the oldest; none past the end.
    pub fn part(&self, at: usize, count: usize) -> Text
        requires { count ≤ TEXT_LIMIT }
        ensures { result ≡ part self.now.bytes at count }
    {
        if at >= self.len {
            return Text::empty();
        }
        let rest = self.len - at;
        if rest < count {
            read_text(self.cells.as_slice(), wrapped(self.head + at), rest)
        } else {
            read_text(self.cells.as_slice(), wrapped(self.head + at), count)
        }
    }

    /// Whether the bytes are the same as another pipe's.
    fn has_same_bytes(&self, other: &Pipe) -> bool
        ensures { result ≡ same_bytes self.now.bytes other.now.bytes }
    {
        let (front, rest) = self.parts();
        let (start, back) = other.parts();
        if front.len() <= start.len() {
            same_parts(front, rest, start, back)
        } else {
            same_parts(start, back, front, rest)
        }
    }

    /// Appends bytes, for which there must be room. This takes no memory.
    pub fn put(&mut self, bytes: &[u8])
        requires { length self.old.bytes + length bytes.now ≤ PIPE_LIMIT }
        ensures { self.new ≡ record self.old { bytes = self.old.bytes ++ bytes.now } }
    {
        let end = wrapped(self.head + self.len);
        write_round(self.cells.as_mut(), end, bytes);
        self.len += bytes.len();
    }

    /// Drops the `count` oldest bytes.
    pub fn advance(&mut self, count: usize)
        requires { count ≤ length self.old.bytes }
        ensures { self.new ≡ record self.old { bytes = drop count self.old.bytes } }
    {
        self.head = wrapped(self.head + count);
        self.len -= count;
    }

    /// Puts bytes back at the front, for which there must be room. This takes no memory.
    pub fn put_back(&mut self, bytes: &[u8])
        requires { length self.old.bytes + length bytes.now ≤ PIPE_LIMIT }
        ensures { self.new ≡ record self.old { bytes = bytes.now ++ self.old.bytes } }
    {
        self.head = wrapped(self.head + PIPE_LIMIT - bytes.len());
        write_round(self.cells.as_mut(), self.head, bytes);
        self.len += bytes.len();
    }

    /// Drops the newest bytes down to a number.
    pub fn truncate(&mut self, len: usize)
        ensures { self.new ≡ record self.old { bytes = take len self.old.bytes } }
    {
        self.len = self.len.min(len);
    }

    /// Shuts the pipe, or opens it again; the bytes stay.
    pub fn set_shut(&mut self, shut: bool)
        ensures { self.new ≡ record self.old { shut = shut } }
    {
        self.shut = shut;
    }
}
