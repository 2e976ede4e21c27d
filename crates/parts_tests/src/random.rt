//! Random changes of values of every kind, held against plain lists: each made, taken back and made
//! for good; and then all of them in one chain, taken back from its end.
ghost use Rattle.std.specs.Prelude.{◌<◌};

use crate::lists::Lists;
use crate::plain::check;
use crate::values::{assert_same, value_of};
use rand_core::Rng;
use rand_pcg::Pcg32;
use sk_changes::run::{apply_all, try_all, undo_all};
use sk_changes::{Change, Invertible, NotApplied};
use sk_ids::Text;
use sk_objects::{Content, Kind, Value};
use std::alloc::Global;
use std::process::Abort;

/// A number below a limit.
fn below(rng: &mut Pcg32, limit: u32) -> u32
    requires { 0 < limit }
    ensures { result < limit }
{
    rng.next_u32() % limit
}

/// Mostly some bytes, at times as many as there may be, one more, or none.
fn text(rt: &impl Abort, rng: &mut Pcg32) -> Text {
    let mut cells = [0; 512];
    rng.fill_bytes(&mut cells);
    let len = match below(rng, 8) {
        0 => 512,
        1 => 0,
        2 => below(rng, 513) as usize,
        _ => below(rng, 40) as usize,
    };
    Text::new(&cells[..len.min(512)]).expect(rt, "a text")
}

/// A place in a file, mostly near the edge of a block.
fn place(rng: &mut Pcg32) -> u32 {
    let block = below(rng, 66) * 512;
    match below(rng, 3) {
        0 => block,
        1 => (block + below(rng, 40)).saturating_sub(20),
        _ => below(rng, 33_000),
    }
}

fn of_file(rt: &impl Abort, rng: &mut Pcg32) -> Change {
    if below(rng, 8) == 0 {
        return Change::CutTo(place(rng));
    }
    let offset = place(rng);
    let bytes = text(rt, rng);
    Change::WriteAt { offset, bytes }
}

fn of_pipe(rt: &impl Abort, rng: &mut Pcg32) -> Change {
    match below(rng, 400) {
        0 => Change::Shut,
        n if n % 3 == 0 => Change::Take(below(rng, 514)),
        _ => Change::Put(text(rt, rng)),
    }
}

fn of_queue(rng: &mut Pcg32) -> Change {
    if below(rng, 5) < 2 {
        return Change::TakeSignal;
    }
    Change::PushSignal(below(rng, 34) as u8)
}

fn of_copy(rt: &impl Abort, rng: &mut Pcg32) -> Change {
    let version = u64::from(rng.next_u32());
    let bytes = text(rt, rng);
    Change::SetCopy(Content::new(version, bytes).expect(rt, "a content"))
}

/// A change that is meant for a kind of value.
fn of_kind(rt: &impl Abort, rng: &mut Pcg32, kind: Kind) -> Change {
    match kind {
        Kind::File | Kind::Dir | Kind::Link => of_file(rt, rng),
        Kind::Pipe => of_pipe(rt, rng),
        Kind::Signals => of_queue(rng),
        Kind::Exit => Change::SetExit(below(rng, 256) as u8),
        Kind::Copy => of_copy(rt, rng),
    }
}

/// A change, one in twenty meant for any kind of value.
fn change(rt: &impl Abort, rng: &mut Pcg32, kind: Kind) -> Change {
    let kind = match below(rng, 120) {
        0 => Kind::File,
        1 => Kind::Dir,
        2 => Kind::Pipe,
        3 => Kind::Signals,
        4 => Kind::Exit,
        5 => Kind::Copy,
        _ => kind,
    };
    of_kind(rt, rng, kind)
}

/// The change leads from what these lists hold to what the others hold, and its undo back; then it is made for good.
fn leads(
    rt: &impl Abort,
    alloc: Global,
    value: &mut Value,
    change: &Change,
    before: &Lists,
    after: &Lists,
) {
    match value.apply(alloc, *change) {
        Ok(undo) => {
            check(rt, 1, after.is_held_by(value));
            value.undo(undo);
        }
        Err(_) => panic!(rt; "the change fits"),
    }
    check(rt, 2, before.is_held_by(value));
    check(rt, 3, matches!(value.apply(alloc, *change), Ok(_)));
    check(rt, 4, after.is_held_by(value));
}

/// The change does not fit a value that holds what the lists do.
fn stays(rt: &impl Abort, alloc: Global, value: &mut Value, change: &Change, lists: &Lists) {
    check(
        rt,
        5,
        matches!(value.apply(alloc, *change), Err(NotApplied::Unfit)),
    );
    check(rt, 6, lists.is_held_by(value));
}

/// All of these changes fit in turn and lead to the given value, and taken back they leave the first.
fn leads_back(
    rt: &impl Abort,
    alloc: Global,
    value: &mut Value,
    changes: &[Change],
    first: &Lists,
    last: &Value,
) {
    check(rt, 7, try_all(alloc, value, changes) == Ok(()));
    check(rt, 8, first.is_held_by(value));
    let mut undos = Vec::new(alloc);
    check(rt, 9, apply_all(value, changes, &mut undos) == Ok(()));
    assert_same(rt, value, last);
    undo_all(value, &mut undos);
    check(rt, 10, first.is_held_by(value));
}

/// One change more of a value that holds what the lists do: it is noted where it fits.
fn one_more(
    rt: &impl Abort,
    alloc: Global,
    value: &mut Value,
    lists: &mut Lists,
    change: Change,
    made: &mut Vec<Change>,
) {
    let before = lists.copy(rt, alloc);
    if lists.change(rt, alloc, &change) {
        leads(rt, alloc, value, &change, &before, lists);
        made.push(change).expect(rt, "memory");
    } else {
        stays(rt, alloc, value, &change, &before);
    }
}

/// So many changes of one value.
fn chain(rt: &impl Abort, alloc: Global, rng: &mut Pcg32, kind: Kind, len: u32) {
    let mut value = value_of(rt, alloc, kind);
    let mut lists = Lists::empty(alloc, kind);
    let mut made = Vec::new(alloc);
    for _ in 0..len {
        let change = change(rt, rng, kind);
        one_more(rt, alloc, &mut value, &mut lists, change, &mut made);
    }
    let first = Lists::empty(alloc, kind);
    let mut again = value_of(rt, alloc, kind);
    leads_back(rt, alloc, &mut again, &made, &first, &value);
}

/// So many chains of a hundred changes each.
fn chains(rt: &impl Abort, alloc: Global, kind: Kind, count: u32) {
    let mut rng = Pcg32::new(27, u64::from(count));
    for _ in 0..count {
        chain(rt, alloc, &mut rng, kind, 100);
    }
}

#[test]
fn random_changes_of_files(rt: HostRuntime) {
    chains(&rt, rt.alloc(), Kind::File, 300);
}

#[test]
fn no_change_of_a_directory_or_a_link(rt: HostRuntime) {
    chains(&rt, rt.alloc(), Kind::Dir, 20);
    chains(&rt, rt.alloc(), Kind::Link, 20);
}

#[test]
fn random_changes_of_pipes(rt: HostRuntime) {
    chains(&rt, rt.alloc(), Kind::Pipe, 250);
}

#[test]
fn random_changes_of_queues(rt: HostRuntime) {
    chains(&rt, rt.alloc(), Kind::Signals, 100);
}

#[test]
fn random_changes_of_exit_slots(rt: HostRuntime) {
    chains(&rt, rt.alloc(), Kind::Exit, 50);
}

#[test]
fn random_changes_of_copies(rt: HostRuntime) {
    chains(&rt, rt.alloc(), Kind::Copy, 100);
}
