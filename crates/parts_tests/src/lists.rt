//! Values as plain lists, and the table of changes told of the lists alone.
use crate::values::linked;
use sk_changes::Change;
use sk_ids::Text;
use sk_objects::{Content, Kind, Value};
use std::alloc::Global;
use std::process::Abort;

/// The greatest length of a file, of a block, and of a pipe, in bytes.
const FILE: usize = 32_768;

const BLOCK: usize = 512;

const PIPE: usize = 4_096;

/// How many signals a queue has at most.
const SIGNALS: usize = 32;

/// What a value holds.
#[derive(Drop)]
pub struct Lists {
    kind: Kind,
    /// The bytes, or the signals of a queue.
    items: Vec<u8>,
    /// Of a pipe: whether it is shut.
    shut: bool,
    /// Of an exit slot.
    status: Option<u8>,
    /// Of a copy.
    version: u64,
}

/// Adds items behind the others.
fn add(rt: &impl Abort, items: &mut Vec<u8>, new: &[u8]) {
    items.extend_from_slice(new).expect(rt, "memory");
}

/// Cuts items to so many, or adds zeros up to there.
fn resize(rt: &impl Abort, items: &mut Vec<u8>, len: usize) {
    items.resize(len, 0).expect(rt, "memory");
}

/// Writes bytes over those of a file, where they fit.
fn write(rt: &impl Abort, alloc: Global, items: &mut Vec<u8>, offset: usize, new: &[u8]) -> bool {
    let end = offset.saturating_add(new.len());
    if new.is_empty() || end > FILE {
        return false;
    }
    let mut rest = Vec::new(alloc);
    add(rt, &mut rest, items.as_slice().get(end..).unwrap_or(&[]));
    resize(rt, items, offset);
    add(rt, items, new);
    add(rt, items, &rest);
    true
}

/// Cuts a file to a length, where it may have that.
fn cut(rt: &impl Abort, items: &mut Vec<u8>, len: usize) -> bool {
    if len > FILE {
        return false;
    }
    resize(rt, items, len);
    true
}

/// Puts bytes to the end of a pipe, where they fit.
fn put(rt: &impl Abort, items: &mut Vec<u8>, new: &[u8]) -> bool {
    if new.is_empty() || new.len() > PIPE.saturating_sub(items.len()) {
        return false;
    }
    add(rt, items, new);
    true
}

/// Takes so many items off the front, at most a block, where there are as many.
fn take(items: &mut Vec<u8>, count: usize) -> bool {
    if count < 1 || count > BLOCK || count > items.len() {
        return false;
    }
    let rest = items.len() - count;
    items.rotate_left(count);
    items.truncate(rest);
    true
}

/// Queues a signal, where there is such a signal and room for it.
fn push(rt: &impl Abort, items: &mut Vec<u8>, number: u8) -> bool {
    if items.len() >= SIGNALS || number < 1 || number > 31 {
        return false;
    }
    add(rt, items, &[number]);
    true
}

impl Lists {
    /// What the first value of a kind holds.
    pub fn empty(alloc: Global, kind: Kind) -> Lists {
        Lists {
            kind,
            items: Vec::new(alloc),
            shut: false,
            status: None,
            version: 0,
        }
    }

    /// A copy, with lists of its own.
    pub fn copy(&self, rt: &impl Abort, alloc: Global) -> Lists {
        let mut copy = Lists::empty(alloc, self.kind);
        add(rt, &mut copy.items, &self.items);
        copy.shut = self.shut;
        copy.status = self.status;
        copy.version = self.version;
        copy
    }

    fn shut(&mut self) -> bool {
        let fits = !self.shut;
        self.shut = true;
        fits
    }

    fn set_status(&mut self, status: u8) -> bool {
        let fits = self.status.is_none();
        if fits {
            self.status = Some(status);
        }
        fits
    }

    fn set_copy(&mut self, rt: &impl Abort, content: &Content) -> bool {
        self.version = content.version();
        self.items.clear();
        add(rt, &mut self.items, content.bytes().as_slice());
        true
    }

    /// Makes a change of what a value holds, and says whether it fits. One that does not changes nothing.
    pub fn change(&mut self, rt: &impl Abort, alloc: Global, change: &Change) -> bool {
        match (self.kind, change) {
            (Kind::File, Change::WriteAt { offset, bytes }) => {
                let offset = *offset as usize;
                write(rt, alloc, &mut self.items, offset, bytes.as_slice())
            }
            (Kind::File, Change::CutTo(len)) => cut(rt, &mut self.items, *len as usize),
            (Kind::Pipe, Change::Put(bytes)) if !self.shut => {
                put(rt, &mut self.items, bytes.as_slice())
            }
            (Kind::Pipe, Change::Take(count)) => take(&mut self.items, *count as usize),
            (Kind::Pipe, Change::Shut) => self.shut(),
            (Kind::Signals, Change::PushSignal(number)) => push(rt, &mut self.items, *number),
            (Kind::Signals, Change::TakeSignal) => take(&mut self.items, 1),
            (Kind::Exit, Change::SetExit(status)) => self.set_status(*status),
            (Kind::Copy, Change::SetCopy(content)) => self.set_copy(rt, content),
            _ => false,
        }
    }

    /// Whether the readers of a value tell just this.
    pub fn is_held_by(&self, value: &Value) -> bool {
        value.kind() == self.kind && self.is_told_by(value)
    }

    /// Whether the readers of a value of this kind tell just this.
    fn is_told_by(&self, value: &Value) -> bool {
        match self.kind {
            Kind::File => are_read(&self.items, value),
            Kind::Dir => value.target().is_none(),
            Kind::Link => value.target() == Some(linked()),
            Kind::Pipe => value.is_shut() == Some(self.shut) && are_read(&self.items, value),
            Kind::Signals => are_queued(&self.items, value),
            Kind::Exit => value.status() == Some(self.status),
            Kind::Copy => { value.version() == Some(self.version) && are_read(&self.items, value) }
        }
    }
}

/// Whether these are the signals of a queue, and all of them.
fn are_queued(numbers: &[u8], value: &Value) -> bool {
    for (place, number) in numbers.iter().enumerate() {
        if value.signal_at(place) != Some(*number) {
            return false;
        }
    }
    value.signal_at(numbers.len()).is_none()
}

/// Whether these are the bytes of a value, and all of them.
fn are_read(bytes: &[u8], value: &Value) -> bool {
    let mut offset = 0u64;
    for part in bytes.chunks(BLOCK) {
        if value.bytes_at(offset, BLOCK) != Text::new(part) {
            return false;
        }
        offset = offset.wrapping_add(BLOCK as u64);
    }
    value.size() == u32::try_from(bytes.len()).ok()
}
