//! The readers on values of each kind, and the calls that take memory.
ghost use Rattle.std.specs.Prelude.{◌<◌};

use crate::plain::check;
use sk_ids::{ObjId, Pid, Text};
use sk_objects::{Content, File, Kind, Value};
use std::alloc::Global;
use std::process::Abort;

/// The kinds of values.
const KINDS: [Kind; 7] = [
    Kind::File,
    Kind::Dir,
    Kind::Link,
    Kind::Pipe,
    Kind::Signals,
    Kind::Exit,
    Kind::Copy,
];

/// Both values are of one kind and have the same contents.
pub fn assert_same(rt: &impl Abort, left: &Value, right: &Value) {
    check(rt, 1, left.kind() == right.kind());
    check(rt, 2, *left == *right);
}

/// A copy of a value.
pub fn copy(rt: &impl Abort, value: &Value) -> Value {
    value.copy().expect(rt, "memory")
}

/// An object that a name is linked to.
pub fn linked() -> ObjId {
    ObjId {
        maker: Pid::boot(1),
        count: 3,
    }
}

/// The first value of a kind, or a link.
pub fn value_of(rt: &impl Abort, alloc: Global, kind: Kind) -> Value {
    match kind {
        Kind::Link => Value::link(linked()),
        kind => Value::empty(alloc, kind).expect(rt, "memory"),
    }
}

/// The readers tell this of the first value of a kind, whose copy is the same.
fn first_tells(rt: &impl Abort, alloc: Global, kind: Kind, size: Option<u32>, shut: Option<bool>) {
    let value = value_of(rt, alloc, kind);
    assert_same(rt, &copy(rt, &value), &value);
    check(rt, 3, value.kind() == kind);
    check(rt, 4, value.size() == size && value.is_shut() == shut);
}

#[test]
fn first_values(rt: HostRuntime) {
    let alloc = rt.alloc();
    first_tells(&rt, alloc, Kind::File, Some(0), None);
    first_tells(&rt, alloc, Kind::Pipe, Some(0), Some(false));
    first_tells(&rt, alloc, Kind::Copy, Some(0), None);
    for kind in [Kind::Dir, Kind::Link, Kind::Signals, Kind::Exit] {
        first_tells(&rt, alloc, kind, None, None);
    }
}

/// `abcdef`, written over from place 4 on.
fn written(rt: &impl Abort, alloc: Global) -> File {
    let mut file = File::new(alloc).expect(rt, "memory");
    file.write_at(0, b"abcdef").expect(rt, "memory");
    file.write_at(4, b"XYZ").expect(rt, "memory");
    file
}

#[test]
fn bytes_of_a_file(rt: HostRuntime) {
    let file = Value::File(written(&rt, rt.alloc()));
    let rows: [(u64, usize, &[u8]); 4] = [
        (2, 3, b"cdX"),
        (5, 9, b"YZ"),
        (7, 1, b""),
        (1_099_511_627_776, 4, b""),
    ];
    for (offset, count, want) in rows {
        check(&rt, 5, file.bytes_at(offset, count) == Text::new(want));
    }
}

/// One read of a file of 600 bytes gives 512.
#[test]
fn longest_read(rt: HostRuntime) {
    let mut file = written(&rt, rt.alloc());
    file.cut_to(600).expect(&rt, "memory");
    let bytes = Value::File(file).bytes_at(0, 600);
    check(&rt, 6, bytes.is_some_and(|bytes| bytes.len() == 512));
}

#[test]
fn a_link_tells_its_target(rt: HostRuntime) {
    let link = Value::link(linked());
    check(&rt, 7, link.target() == Some(linked()));
    check(&rt, 8, copy(&rt, &link).target() == Some(linked()));
    check(&rt, 9, link.kind() == Kind::Link);
    check(&rt, 10, link.status().is_none());
    check(&rt, 11, Value::Dir.target().is_none());
}

#[test]
fn exit_slots(rt: HostRuntime) {
    let set = Value::Exit(Some(3));
    check(&rt, 12, set.status() == Some(Some(3)));
    check(&rt, 13, set.signal_at(0).is_none());
}

/// The version of a cached copy, where there can be such a copy.
fn version(rt: &impl Abort, alloc: Global, number: u64) -> Option<Option<u64>> {
    let content = Content::new(number, Text::empty())?;
    let copy = Value::content(alloc, content).expect(rt, "memory");
    Some(copy.version())
}

#[test]
fn versions_of_copies(rt: HostRuntime) {
    let last = 9_223_372_036_854_775_807;
    check(&rt, 14, version(&rt, rt.alloc(), last) == Some(Some(last)));
    check(&rt, 15, version(&rt, rt.alloc(), last + 1).is_none());
}

/// The file of `written` with another byte at a place.
fn written_otherwise(rt: &impl Abort, alloc: Global, place: usize) -> Value
    requires { place < 7 }
{
    let mut file = written(rt, alloc);
    file.write_at(place, b"#").expect(rt, "memory");
    Value::File(file)
}

#[test]
fn equal_values(rt: HostRuntime) {
    let value = Value::File(written(&rt, rt.alloc()));
    check(&rt, 16, value == copy(&rt, &value));
    for place in 0..7 {
        check(&rt, 17, value != written_otherwise(&rt, rt.alloc(), place));
    }
}

/// The first values of two kinds are equal just where the kinds are.
fn equal_by_kind(rt: &impl Abort, alloc: Global, one: Kind, other: Kind) {
    let value = value_of(rt, alloc, one);
    check(
        rt,
        18,
        (value == value_of(rt, alloc, other)) == (one == other),
    );
}

#[test]
fn first_values_of_two_kinds(rt: HostRuntime) {
    for one in KINDS {
        for other in KINDS {
            equal_by_kind(&rt, rt.alloc(), one, other);
        }
    }
}
