//! What depends on a guess, through files, until the guess is decided.
use crate::plays::{Decision, KernelPlay, Thing, plays_until};
use crate::start::{BARE, Start, passes};
use sk_script::ObjectKind;

/// A process that writes what it fetches to a file, and one that copies this file to another, and says something.
const START: &Start<'static> = &Start {
    number: 1,
    scripts: &[
        &[(b"look r1 r7 f\nfetch /x\nwrite r1 r2\n", 1)],
        &[(
            b"look r1 r7 f\nlook r2 r7 g\nread r1 r3\nwrite r2 r3\ntext \"c\"\nsay\n",
            1,
        )],
    ],
    copies: &[(b"/x", 3, b"new"), (b"/y", 1, b"new")],
    objects: &[
        (b"f", ObjectKind::File, b"f0"),
        (b"g", ObjectKind::File, b"g0"),
        (b"h", ObjectKind::File, b"h0"),
    ],
    ..BARE
};

/// Process 1 guesses and writes a file, and process 2 copies it to the next: both and the files depend on
/// the guess.
const REST: &[KernelPlay] = &[
    KernelPlay::Steps(1, 1, Ok(())),
    KernelPlay::Steps(2, 2, Ok(())),
    KernelPlay::Rests(1, &[]),
    KernelPlay::Guesses(1, 1, 1),
    KernelPlay::Rests(1, &[Thing::Process(1)]),
    KernelPlay::Steps(1, 1, Ok(())),
    KernelPlay::Steps(2, 4, Ok(())),
    KernelPlay::Rests(
        1,
        &[
            Thing::Process(1),
            Thing::Process(2),
            Thing::Object(2),
            Thing::Object(3),
        ],
    ),
    KernelPlay::Rests(2, &[]),
];

const NONE: &[KernelPlay] = &[KernelPlay::Rests(1, &[])];

#[test]
fn dependents_until_a_decision(rt: HostRuntime) {
    for decision in [Decision::Fail, Decision::Commit] {
        passes(
            &rt,
            plays_until(&rt, rt.alloc(), START, REST, decision, NONE),
        );
    }
}
