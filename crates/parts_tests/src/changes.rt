//! The table of changes, each made and taken back, and many changes in turn.
ghost use Rattle.std.specs.Prelude.{◌<◌};

use crate::plain::{check, content, text};
use crate::values::{assert_same, copy, linked};
use sk_changes::run::{apply_all, undo_all};
use sk_changes::{Change, Invertible, NotApplied};
use sk_ids::Text;
use sk_objects::{Content, File, Kind, Pipe, Signals, Value};
use std::alloc::{AllocError, Global};
use std::process::Abort;

/// The change leaves what is wanted, and its undo what there was.
fn leaves(rt: &impl Abort, alloc: Global, value: &mut Value, change: Change, want: &Value) {
    let before = copy(rt, value);
    match value.apply(alloc, change) {
        Ok(undo) => {
            assert_same(rt, value, want);
            value.undo(undo);
        }
        Err(_) => panic!(rt; "the change fits"),
    }
    assert_same(rt, value, &before);
}

/// The change does not fit, and the value stays as it was.
fn stays(rt: &impl Abort, alloc: Global, value: &mut Value, change: Change) {
    let before = copy(rt, value);
    check(
        rt,
        1,
        matches!(value.apply(alloc, change), Err(NotApplied::Unfit)),
    );
    assert_same(rt, value, &before);
}

fn write(rt: &impl Abort, offset: u32, bytes: &[u8]) -> Change {
    let bytes = text(rt, bytes);
    Change::WriteAt { offset, bytes }
}

fn put(rt: &impl Abort, bytes: &[u8]) -> Change {
    Change::Put(text(rt, bytes))
}

fn file(rt: &impl Abort, alloc: Global, bytes: &[u8]) -> Value {
    let bytes = text(rt, bytes);
    Value::File(File::from_text(alloc, &bytes).expect(rt, "memory"))
}

/// A file of the first bytes has the others behind the change.
fn file_leaves(rt: &impl Abort, alloc: Global, first: &[u8], change: Change, want: &[u8]) {
    let want = file(rt, alloc, want);
    leaves(rt, alloc, &mut file(rt, alloc, first), change, &want);
}

#[test]
fn changes_of_files(rt: HostRuntime) {
    let rows: [(&[u8], Change, &[u8]); 4] = [
        (b"abc", write(&rt, 8, b"Z"), b"abc\0\0\0\0\0Z"),
        (b"abcdef", write(&rt, 4, b"XYZ"), b"abcdXYZ"),
        (b"abcdef", Change::CutTo(3), b"abc"),
        (b"abcdef", Change::CutTo(8), b"abcdef\0\0"),
    ];
    for (first, change, want) in rows {
        file_leaves(&rt, rt.alloc(), first, change, want);
    }
}

#[test]
fn unfit_changes_of_files(rt: HostRuntime) {
    let rows: [(&[u8], Change); 3] = [
        (b"", write(&rt, 32_767, b"ab")),
        (b"abc", write(&rt, 0, b"")),
        (b"abcdef", Change::CutTo(32_769)),
    ];
    for (first, change) in rows {
        stays(&rt, rt.alloc(), &mut file(&rt, rt.alloc(), first), change);
    }
}

/// A write makes an empty file as long as this, and its undo makes it empty.
fn reaches(rt: &impl Abort, alloc: Global, value: &mut Value, change: Change, size: u32) {
    match value.apply(alloc, change) {
        Ok(undo) => {
            check(rt, 2, value.size() == Some(size));
            value.undo(undo);
        }
        Err(_) => panic!(rt; "the change fits"),
    }
    check(rt, 3, value.size() == Some(0));
}

#[test]
fn longest_file(rt: HostRuntime) {
    let mut value = file(&rt, rt.alloc(), b"");
    let change = write(&rt, 32_766, b"ab");
    reaches(&rt, rt.alloc(), &mut value, change, 32_768);
}

fn try_pipe(alloc: Global, bytes: Text, shut: bool) -> Result<Value, AllocError> {
    let mut pipe = Pipe::new(alloc)?;
    pipe.put(bytes.as_slice());
    pipe.set_shut(shut);
    Ok(Value::Pipe(pipe))
}

fn pipe(rt: &impl Abort, alloc: Global, bytes: &[u8], shut: bool) -> Value {
    try_pipe(alloc, text(rt, bytes), shut).expect(rt, "memory")
}

/// A pipe of two bytes, shut or not, has these behind the change.
fn pipe_leaves(
    rt: &impl Abort,
    alloc: Global,
    shut: bool,
    change: Change,
    bytes: &[u8],
    is_shut: bool,
) {
    let want = pipe(rt, alloc, bytes, is_shut);
    leaves(rt, alloc, &mut pipe(rt, alloc, b"AB", shut), change, &want);
}

#[test]
fn changes_of_pipes(rt: HostRuntime) {
    let rows: [(bool, Change, &[u8], bool); 4] = [
        (false, put(&rt, b"CD"), b"ABCD", false),
        (false, Change::Take(1), b"B", false),
        (false, Change::Shut, b"AB", true),
        (true, Change::Take(2), b"", true),
    ];
    for (shut, change, bytes, is_shut) in rows {
        pipe_leaves(&rt, rt.alloc(), shut, change, bytes, is_shut);
    }
}

#[test]
fn unfit_changes_of_pipes(rt: HostRuntime) {
    let rows = [
        (false, Change::Take(3)),
        (false, write(&rt, 0, b"Z")),
        (false, write(&rt, 4, b"XYZ")),
        (true, put(&rt, b"C")),
        (true, Change::Shut),
    ];
    for (shut, change) in rows {
        let mut value = pipe(&rt, rt.alloc(), b"AB", shut);
        stays(&rt, rt.alloc(), &mut value, change);
    }
}

/// A directory and a link take no such change.
fn stay(rt: &impl Abort, alloc: Global, change: &Change) {
    stays(rt, alloc, &mut Value::Dir, *change);
    stays(rt, alloc, &mut Value::link(linked()), *change);
}

#[test]
fn no_change_of_directories_and_links(rt: HostRuntime) {
    let rows = [
        write(&rt, 0, b"Z"),
        Change::CutTo(0),
        put(&rt, b"C"),
        Change::Shut,
        Change::TakeSignal,
        Change::SetExit(1),
    ];
    for change in &rows {
        stay(&rt, rt.alloc(), change);
    }
}

fn try_queue(alloc: Global, numbers: &[u8]) -> Result<Value, AllocError> {
    let mut signals = Signals::new(alloc)?;
    for number in numbers {
        let number = *number;
        if signals.len() < 32 && number >= 1 && number <= 31 {
            signals.push(number);
        }
    }
    Ok(Value::Signals(signals))
}

fn queue(rt: &impl Abort, alloc: Global, numbers: &[u8]) -> Value {
    try_queue(alloc, numbers).expect(rt, "memory")
}

/// A queue of the first signals has the others behind the change.
fn queue_leaves(rt: &impl Abort, alloc: Global, first: &[u8], change: Change, want: &[u8]) {
    let want = queue(rt, alloc, want);
    leaves(rt, alloc, &mut queue(rt, alloc, first), change, &want);
}

#[test]
fn changes_of_queues(rt: HostRuntime) {
    let alloc = rt.alloc();
    queue_leaves(&rt, alloc, &[5, 9], Change::TakeSignal, &[9]);
    queue_leaves(&rt, alloc, &[5], Change::PushSignal(9), &[5, 9]);
    let mut full = [7; 32];
    full[31] = 31;
    queue_leaves(&rt, alloc, &[7; 31], Change::PushSignal(31), &full);
}

#[test]
fn unfit_changes_of_queues(rt: HostRuntime) {
    let rows: [(&[u8], Change); 3] = [
        (&[5, 9], Change::PushSignal(32)),
        (&[], Change::TakeSignal),
        (&[7; 32], Change::PushSignal(1)),
    ];
    for (first, change) in rows {
        stays(&rt, rt.alloc(), &mut queue(&rt, rt.alloc(), first), change);
    }
}

#[test]
fn changes_of_exit_slots(rt: HostRuntime) {
    let mut value = Value::Exit(None);
    let set = Value::Exit(Some(3));
    leaves(&rt, rt.alloc(), &mut value, Change::SetExit(3), &set);
}

#[test]
fn a_status_is_set_once(rt: HostRuntime) {
    let mut value = Value::Exit(Some(3));
    stays(&rt, rt.alloc(), &mut value, Change::SetExit(3));
}

/// A cached copy of a content.
fn cached(rt: &impl Abort, alloc: Global, content: Content) -> Value {
    Value::content(alloc, content).expect(rt, "memory")
}

/// A copy of the old content has the new one behind the change.
fn copy_leaves(rt: &impl Abort, alloc: Global, old: Content, new: Content) {
    let want = cached(rt, alloc, new);
    leaves(
        rt,
        alloc,
        &mut cached(rt, alloc, old),
        Change::SetCopy(new),
        &want,
    );
}

#[test]
fn changes_of_copies(rt: HostRuntime) {
    let (old, new) = (content(&rt, 3, b"old"), content(&rt, 4, b"new"));
    copy_leaves(&rt, rt.alloc(), old, new);
    copy_leaves(&rt, rt.alloc(), new, old);
}

/// 512 times a letter.
fn block(rt: &impl Abort, letter: u8) -> Text {
    text(rt, &[letter; 512])
}

/// A pipe holds a block of each of these letters.
fn holds(rt: &impl Abort, value: &Value, letters: &[u8]) {
    let mut offset = 0u64;
    for letter in letters {
        check(
            rt,
            4,
            value.bytes_at(offset, 512) == Some(block(rt, *letter)),
        );
        offset = offset.wrapping_add(512);
    }
}

/// A put of a block of each of these letters.
fn puts(rt: &impl Abort, alloc: Global, letters: &[u8]) -> Vec<Change> {
    let mut all = Vec::new(alloc);
    for letter in letters {
        all.push(Change::Put(block(rt, *letter)))
            .expect(rt, "memory");
    }
    all
}

/// A pipe of eight blocks is the same again once a turn of it is taken back.
fn turns_back(rt: &impl Abort, alloc: Global, value: &mut Value) {
    let turn = [Change::Take(512), Change::Put(block(rt, b'A'))];
    let mut undos = Vec::new(alloc);
    check(rt, 5, apply_all(value, &turn, &mut undos) == Ok(()));
    holds(rt, value, b"BCDEFGHA");
    undo_all(value, &mut undos);
    holds(rt, value, b"ABCDEFGH");
}

#[test]
fn pipe_order_restored(rt: HostRuntime) {
    let mut value = Value::empty(rt.alloc(), Kind::Pipe).expect(&rt, "memory");
    let mut undos = Vec::new(rt.alloc());
    let puts = puts(&rt, rt.alloc(), b"ABCDEFGH");
    check(&rt, 6, apply_all(&mut value, &puts, &mut undos) == Ok(()));
    holds(&rt, &value, b"ABCDEFGH");
    turns_back(&rt, rt.alloc(), &mut value);
}
