//! Bytes that wait to be handed over.
ghost use Rattle.std.specs.Prelude.{◌≡◌, ◌+◌, ◌≤◌, ◌++◌, [], length, drop, take, min, vec_capacity, OnOk, OnErr};

use std::alloc::{AllocError, Global};
use std::marker::Model;

/// Bytes that wait to be handed over, in order. Of those that were handed over no more are kept than wait.
#[derive(Drop)]
pub(crate) struct Waiting {
    bytes: Vec<u8>,
    /// How many of them were handed over, from the front.
    handed: usize,
}

impl Model for Waiting {
    ghost use Rattle.std.specs.Prelude.{◌≤◌, ◌+◌, ℕ, List, drop, length};

    ghost Value = { List ℕ };

    ghost view = { λ w. drop w.handed w.bytes.items };

    ghost invariant = { λ w. w.handed + w.handed ≤ length w.bytes.items };
}

/// Takes bytes off the front.
fn drop_front(bytes: &mut Vec<u8>, count: usize)
    requires { count ≤ length bytes.old.items }
    ensures { bytes.new.items ≡ drop count bytes.old.items }
{
    let left = bytes.len() - count;
    bytes.rotate_left(count);
    bytes.truncate(left);
}

/// Puts bytes behind others, into room that is there.
fn append(bytes: &mut Vec<u8>, more: &[u8])
    requires { length bytes.old.items + length more.now ≤ vec_capacity bytes.old }
    ensures items { bytes.new.items ≡ bytes.old.items ++ more.now }
    ensures capacity { vec_capacity bytes.old ≤ vec_capacity bytes.new }
{
    let _appended = bytes.extend_from_slice(more);
}

/// Puts two texts behind others; without memory neither.
fn append_both(bytes: &mut Vec<u8>, front: &[u8], back: &[u8]) -> Result<(), AllocError>
    ensures ok { OnOk result (bytes.new.items ≡ bytes.old.items ++ (front.now ++ back.now)) }
    ensures err { OnErr result (bytes.new.items ≡ bytes.old.items) }
{
    bytes.reserve(front.len() + back.len())?;
    append(bytes, front);
    append(bytes, back);
    Ok(())
}

/// Copies as many bytes into the front of the room as there are, or fit.
fn copy_front(bytes: &[u8], room: &mut [u8]) -> usize
    ensures count { result ≡ min (length room.old) (length bytes.now) }
    ensures room { room.new ≡ take result bytes.now ++ drop result room.old }
{
    let count = room.len().min(bytes.len());
    room[..count].copy_from_slice(&bytes[..count]);
    count
}

impl Waiting {
    /// Nothing waits.
    pub(crate) fn new(alloc: Global) -> Waiting
        ensures { result ≡ [] }
    {
        Waiting {
            bytes: Vec::new(alloc),
            handed: 0,
        }
    }

    /// How many there are.
    pub(crate) fn len(&self) -> usize
        ensures { result ≡ length self.now }
    {
        self.bytes.len() - self.handed
    }

    /// Puts two texts behind the others; without memory neither.
    pub(crate) fn append(&mut self, front: &[u8], back: &[u8]) -> Result<(), AllocError>
        ensures ok { OnOk result (self.new ≡ self.old ++ (front.now ++ back.now)) }
        ensures err { OnErr result (self.new ≡ self.old) }
    {
        append_both(&mut self.bytes, front, back)
    }

    /// Moves as many bytes into the front of the room as wait, or fit.
    pub(crate) fn hand_over(&mut self, room: &mut [u8]) -> usize
        ensures count { result ≡ min (length room.old) (length self.old) }
        ensures room { room.new ≡ take result self.old ++ drop result room.old }
        ensures left { self.new ≡ drop result self.old }
    {
        let count = copy_front(&self.bytes[self.handed..], room);
        let handed = self.handed + count;
        if self.bytes.len() - handed < handed {
            drop_front(&mut self.bytes, handed);
            self.handed = 0;
        } else {
            self.handed = handed;
        }
        count
    }
}
