//! Names, texts, contents, processes, guesses and tags by plain bytes and numbers, and texts of many lines. Bytes and numbers
//! that are no such value end the test, and so does want of memory.
use sk_ids::{GuessId, Name, Pid, TagSet, Text};
use sk_objects::Content;
use std::alloc::Global;
use std::process::Abort;

pub fn name(rt: &impl Abort, bytes: &[u8]) -> Name {
    Name::new(bytes).expect(rt, "a name")
}

pub fn text(rt: &impl Abort, bytes: &[u8]) -> Text {
    Text::new(bytes).expect(rt, "a text")
}

pub fn content(rt: &impl Abort, version: u64, bytes: &[u8]) -> Content {
    Content::new(version, text(rt, bytes)).expect(rt, "a content")
}

/// A process of the boot.
pub fn pid(rt: &impl Abort, number: u16) -> Pid {
    Pid::boot(number).expect(rt, "a process")
}

/// A child of a process.
pub fn child(rt: &impl Abort, pid: Pid, number: u16) -> Pid {
    pid.child(number).expect(rt, "a child")
}

pub fn guess(rt: &impl Abort, number: u64) -> GuessId {
    GuessId::new(number).expect(rt, "a guess")
}

/// The guesses of both sets.
pub fn union(rt: &impl Abort, one: &TagSet, other: &TagSet) -> TagSet {
    one.union(other).expect(rt, "memory")
}

/// The tags of these guesses.
pub fn tags(rt: &impl Abort, alloc: Global, numbers: &[u64]) -> TagSet {
    let mut all = TagSet::new(alloc);
    for number in numbers {
        all = union(rt, &all, &TagSet::of(alloc, guess(rt, *number)));
    }
    all
}

/// Fails the test where what stands at this place of its file does not hold. A function that asserts by it, and not by an
/// `assert!` of its own, is proved in two thirds of the time.
pub fn check(rt: &impl Abort, place: u32, holds: bool) {
    assert!(rt; holds, "at {place}");
}
