//! Records, stores and steps, and what a failure leaves of a record.
use crate::start::{BARE, Start, Version, declares_all, passes};
use sk_ids::{Entity, Name, ObjId};
use sk_plain::{Entry, Event, InputRef, KeptInput, Trace, strike_guess};
use sk_script::{Boot, Input, ObjectKind, ROOT};
use sk_store::{EntityState, Look, Store};
use std::alloc::Global;
use tests_support::plain::{content, guess, name, pid};
use tests_support::wrong::{Wrong, holds};

/// What a process does: a step without input, a fetch from the copy, one of the server's content where
/// there is no copy, and one that is guessed.
#[derive(Clone, Copy)]
enum Did {
    Steps(u16),
    Good(u16),
    Fresh(u16),
    Guesses(u16),
}

/// A step without a guess.
fn plainly(number: u16, input: Input) -> Result<Entry, Wrong> {
    Ok(Entry {
        pid: pid(number)?,
        input,
        guess: None,
    })
}

/// A guessed step.
fn guessed(number: u16) -> Result<Entry, Wrong> {
    Ok(Entry {
        pid: pid(number)?,
        input: Input::Good,
        guess: Some(guess(1)?),
    })
}

fn entry_of(did: Did) -> Result<Entry, Wrong> {
    match did {
        Did::Steps(number) => plainly(number, Input::None),
        Did::Good(number) => plainly(number, Input::Good),
        Did::Fresh(number) => plainly(number, Input::Fresh(content(2, b"new")?)),
        Did::Guesses(number) => guessed(number),
    }
}

fn adds_all(entries: &mut Vec<Entry>, record: &[Did]) -> Result<(), Wrong> {
    for did in record {
        let entry = entry_of(*did)?;
        if entries.push(entry).is_err() {
            return Err(Wrong::Memory);
        }
    }
    Ok(())
}

/// What is left of entries from a store on when their guess fails.
fn left_from(
    alloc: Global,
    store: &mut Store,
    boot: &Boot,
    entries: &[Entry],
) -> Result<Vec<Entry>, Wrong> {
    let guess = guess(1)?;
    Ok(strike_guess(alloc, store, boot.scripts(), entries, guess)?)
}

/// What is left of them from the start.
fn left(alloc: Global, boot: &Boot, entries: &[Entry]) -> Result<Vec<Entry>, Wrong> {
    let mut store = Store::start(alloc, boot)?;
    let left = left_from(alloc, &mut store, boot, entries);
    drop(store);
    left
}

/// The entries are those of this record.
fn is_record(entries: &[Entry], want: &[Did]) -> Result<(), Wrong> {
    holds(0, entries.len() == want.len())?;
    for (entry, did) in entries.iter().zip(want) {
        holds(1, *entry == entry_of(*did)?)?;
    }
    Ok(())
}

/// This is left of entries when their guess fails.
fn leaves(alloc: Global, boot: &Boot, entries: &[Entry], want: &[Did]) -> Result<(), Wrong> {
    let left = left(alloc, boot, entries)?;
    let is_record = is_record(&left, want);
    drop(left);
    is_record
}

/// A record of a boot, and what is left of it when its guess fails.
#[derive(Clone, Copy)]
struct Row {
    start: Start<'static>,
    record: &'static [Did],
    left: &'static [Did],
}

/// This is left of a row's record, where the boot and the entries have nothing yet.
fn leaves_of(
    alloc: Global,
    boot: &mut Boot,
    entries: &mut Vec<Entry>,
    row: &Row,
) -> Result<(), Wrong> {
    declares_all(alloc, boot, &row.start)?;
    adds_all(entries, row.record)?;
    leaves(alloc, boot, entries, row.left)
}

fn strikes(alloc: Global, row: &Row) -> Result<(), Wrong> {
    let (mut boot, mut entries) = (Boot::new(alloc), Vec::new(alloc));
    let struck = leaves_of(alloc, &mut boot, &mut entries, row);
    drop(boot);
    drop(entries);
    struck
}

const COPIES: &[Version<'static>] = &[(b"/x", 3, b"new"), (b"/y", 1, b"new")];

const DEPENDENCE_THROUGH_FILES: &Row = &Row {
    start: Start {
        scripts: &[
            &[(b"mkfile r1\nfetch /x\nwrite r1 r2\nfetch /y\n", 1)],
            &[(b"mkfile r1\nfetch /y\nwrite r1 r2\ntext \"c\"\nsay\n", 1)],
        ],
        copies: COPIES,
        ..BARE
    },
    record: &[
        Did::Steps(1),
        Did::Steps(2),
        Did::Guesses(1),
        Did::Steps(1),
        Did::Fresh(1),
        Did::Good(2),
        Did::Steps(2),
        Did::Steps(2),
        Did::Steps(2),
    ],
    left: &[Did::Steps(1), Did::Steps(2)],
};

#[test]
fn dependence_through_files(rt: HostRuntime) {
    passes(&rt, strikes(rt.alloc(), DEPENDENCE_THROUGH_FILES));
}

const INDEPENDENT_PROCESS_SURVIVES: &Row = &Row {
    start: Start {
        scripts: &[
            &[(b"mkfile r1\nfetch /x\nwrite r1 r2\n", 1)],
            &[(b"mkfile r1\ntext \"h1\"\nwrite r1 r2\nsay\n", 1)],
        ],
        copies: COPIES,
        ..BARE
    },
    record: &[
        Did::Steps(1),
        Did::Steps(2),
        Did::Guesses(1),
        Did::Steps(2),
        Did::Steps(1),
        Did::Steps(2),
        Did::Steps(2),
    ],
    left: &[
        Did::Steps(1),
        Did::Steps(2),
        Did::Steps(2),
        Did::Steps(2),
        Did::Steps(2),
    ],
};

#[test]
fn independent_process_survives(rt: HostRuntime) {
    passes(&rt, strikes(rt.alloc(), INDEPENDENT_PROCESS_SURVIVES));
}

const WRITER_BEFORE_THE_GUESS: &Row = &Row {
    start: Start {
        scripts: &[
            &[(b"fetch /x\nfetch /y\n", 1)],
            &[(b"fetch /y\nfetch /y\n", 1)],
        ],
        copies: COPIES,
        ..BARE
    },
    record: &[Did::Fresh(2), Did::Guesses(1), Did::Good(1), Did::Fresh(2)],
    left: &[Did::Fresh(2), Did::Fresh(2)],
};

#[test]
fn writer_before_the_guess(rt: HostRuntime) {
    passes(&rt, strikes(rt.alloc(), WRITER_BEFORE_THE_GUESS));
}

fn boot_object(count: u32) -> ObjId {
    ObjId { maker: None, count }
}

/// The object of a name of the root; none where the name is absent.
fn named(store: &Store, name: Name) -> Option<ObjId> {
    match store.value(Entity::Link(ROOT, name)) {
        Some(EntityState::Value(link)) => link.target(),
        _ => None,
    }
}

/// Thirteen entities are in a store, and the names of the file and the pipe stand for the objects behind the root.
fn starts_with(store: &Store) -> Result<(), Wrong> {
    holds(0, named(store, name(b"f")?) == Some(boot_object(2)))?;
    holds(1, named(store, name(b"p")?) == Some(boot_object(3)))?;
    let entities = store.entities()?;
    holds(2, entities.len() == 13)
}

fn copy_of(store: &Store) -> Result<Store, Wrong> {
    Ok(store.copy()?)
}

/// A copy of the store that starts from a boot.
fn copied(alloc: Global, boot: &Boot) -> Result<Store, Wrong> {
    let store = Store::start(alloc, boot)?;
    let copy = copy_of(&store);
    drop(store);
    copy
}

/// Two processes, two copies, a file and a pipe.
const DECLARED: &Start<'static> = &Start {
    scripts: &[&[(b"say\n", 1)], &[]],
    copies: COPIES,
    objects: &[
        (b"f", ObjectKind::File, b"f0"),
        (b"p", ObjectKind::Pipe, b"ab"),
    ],
    ..BARE
};

/// The store of a boot that has nothing yet starts with what is declared.
fn starts(alloc: Global, boot: &mut Boot) -> Result<(), Wrong> {
    declares_all(alloc, boot, DECLARED)?;
    let store = copied(alloc, boot)?;
    let starts = starts_with(&store);
    drop(store);
    starts
}

fn starts_with_both(alloc: Global) -> Result<(), Wrong> {
    let mut boot = Boot::new(alloc);
    let starts = starts(alloc, &mut boot);
    drop(boot);
    starts
}

#[test]
fn starts_with_what_is_declared(rt: HostRuntime) {
    passes(&rt, starts_with_both(rt.alloc()));
}

/// Adds a step and a commit.
fn adds_two(trace: &mut Trace, step: &Entry) -> Result<(), Wrong> {
    let commit = guess(1)?;
    trace.reserve(2)?;
    let (pid, input) = (step.pid, trace.keep(InputRef::of(&step.input))?);
    trace.push(Event::Step { pid, input });
    trace.push(Event::Commit(commit));
    Ok(())
}

fn both_events(alloc: Global, step: &Entry) -> Result<[Event; 2], Wrong> {
    let (pid, commit) = (step.pid, guess(1)?);
    let input = KeptInput::keep(alloc, InputRef::of(&step.input))?;
    Ok([Event::Step { pid, input }, Event::Commit(commit)])
}

/// A trace has both events, of which the step has an entry.
fn has_both(trace: &Trace, step: &Entry, both: &[Event; 2]) -> Result<(), Wrong> {
    holds(0, both[0].entry() == Some(*step))?;
    holds(1, both[1].entry() == None)?;
    holds(2, trace.events() == both.as_slice())
}

/// A trace that has none yet keeps them.
fn keeps(trace: &mut Trace, step: &Entry, both: &[Event; 2]) -> Result<(), Wrong> {
    adds_two(trace, step)?;
    has_both(trace, step, both)
}

fn keeps_both(alloc: Global) -> Result<(), Wrong> {
    let step = entry_of(Did::Steps(1))?;
    let both = both_events(alloc, &step)?;
    let mut trace = Trace::new(alloc);
    keeps(&mut trace, &step, &both)
}

#[test]
fn keeps_events(rt: HostRuntime) {
    passes(&rt, keeps_both(rt.alloc()));
}
