//! Tag sets, processes and entities.
use crate::plain::{check, child, guess, name, pid, tags, union};
use sk_ids::{Entity, GuessId, Name, ObjId, Pid, TagSet, Text};
use std::alloc::Global;
use std::cmp::Ordering;
use std::process::Abort;

/// Whether a set has the guess of this number at a place, and contains it.
fn has_at(set: &TagSet, place: usize, number: u64) -> bool {
    match set.ids().get(place) {
        Some(id) => id.number() == number && set.contains(*id),
        None => false,
    }
}

/// Whether a set lists just these guesses, in this order, and contains each.
fn has(set: &TagSet, numbers: &[u64]) -> bool {
    for (place, number) in numbers.iter().enumerate() {
        if !has_at(set, place, *number) {
            return false;
        }
    }
    set.ids().len() == numbers.len()
}

/// The set of these guesses lists them so.
fn lists(rt: &impl Abort, alloc: Global, numbers: &[u64], want: &[u64]) {
    let set = tags(rt, alloc, numbers);
    check(rt, 1, has(&set, want));
}

/// The set of these guesses without one of them has just these.
fn loses(rt: &impl Abort, alloc: Global, numbers: &[u64], number: u64, want: &[u64]) {
    let mut set = tags(rt, alloc, numbers);
    set.without(guess(rt, number));
    check(rt, 2, has(&set, want));
}

/// The guesses of two sets together are just these.
fn join(rt: &impl Abort, one: &TagSet, other: &TagSet, want: &[u64]) {
    let both = union(rt, one, other);
    check(rt, 3, has(&both, want));
}

/// The sets of these guesses together are just the wanted ones.
fn joins(rt: &impl Abort, alloc: Global, one: &[u64], other: &[u64], want: &[u64]) {
    let one = tags(rt, alloc, one);
    let other = tags(rt, alloc, other);
    join(rt, &one, &other, want);
}

#[test]
fn small_calls_of_tag_sets(rt: HostRuntime) {
    const NINE: &[u64] = &[9, 8, 7, 6, 5, 4, 3, 2, 1];
    joins(&rt, rt.alloc(), &[1, 3], &[2, 3], &[1, 2, 3]);
    loses(&rt, rt.alloc(), &[1, 2, 3], 2, &[1, 3]);
    lists(&rt, rt.alloc(), NINE, &[1, 2, 3, 4, 5, 6, 7, 8, 9]);
}

/// The number of the guess of a number, where there is one.
fn number_of(number: u64) -> Option<u64> {
    Some(GuessId::new(number)?.number())
}

#[test]
fn limits_of_guess_numbers(rt: HostRuntime) {
    let last = 9_223_372_036_854_775_807;
    check(
        &rt,
        4,
        number_of(1) == Some(1) && number_of(last) == Some(last),
    );
    check(
        &rt,
        5,
        number_of(0).is_none() && number_of(last + 1).is_none(),
    );
}

/// The path of a child of the first process, where there is such a child.
fn path_of(number: u16) -> Option<u64> {
    Some(Pid::boot(1)?.child(number)?.path())
}

#[test]
fn small_calls_of_processes(rt: HostRuntime) {
    check(
        &rt,
        6,
        path_of(3) == Some(65_539) && path_of(65_535) == Some(131_071),
    );
    check(&rt, 7, Pid::boot(0).is_none() && path_of(0).is_none());
}

#[test]
fn four_levels_of_processes(rt: HostRuntime) {
    let third = child(&rt, child(&rt, pid(&rt, 1), 1), 1);
    let fourth = child(&rt, third, 1);
    check(
        &rt,
        8,
        fourth.path() == 281_479_271_743_489 && fourth.child(1).is_none(),
    );
}

/// The first entity stands before the other.
fn stands_before(rt: &impl Abort, one: &Entity, other: &Entity) {
    check(rt, 9, one.cmp(other) == Ordering::Less);
}

#[test]
fn entities_by_kind(rt: HostRuntime) {
    let (pid, name) = (pid(&rt, 7), name(&rt, b"/x"));
    stands_before(&rt, &Entity::Proc(pid), &Entity::Sig(pid));
    stands_before(&rt, &Entity::Exit(pid), &Entity::Copy(name));
}

/// A name of a directory stands behind its directory, and before the copies.
fn stands_between(rt: &impl Abort, directory: &ObjId, name: &Name) {
    let link = Entity::Link(*directory, *name);
    stands_before(rt, &Entity::Obj(*directory), &link);
    stands_before(rt, &link, &Entity::Copy(*name));
}

#[test]
fn names_between_directories_and_copies(rt: HostRuntime) {
    let directory = ObjId {
        maker: None,
        count: 9,
    };
    stands_between(&rt, &directory, &name(&rt, b"/x"));
}

#[test]
fn no_name_and_no_text(rt: HostRuntime) {
    check(&rt, 10, Name::new(b"a b").is_none());
    check(&rt, 11, Text::new([7u8; 513].as_slice()).is_none());
}
