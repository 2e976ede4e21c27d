//! What no world shows of a server: requests that come out of turn, and refused guesses that it forgets.
use crate::asking::{Ground, LOOSE, ServerWish, ToldAnswer};
use crate::start::passes;
use crate::turns::{ServerTurn, starts};
use sk_server::LAST_REQUEST;

const GET: ServerWish<'static> = ServerWish::Get(b"/x");

const STALE: ServerWish<'static> = ServerWish::Check(b"/x", 2);

const OLD: ToldAnswer<'static> = ToldAnswer::No(3, b"old");

const STORE_N: ServerWish<'static> = ServerWish::Store(b"/x", 3, b"n");

/// The guess 5 is refused.
const REFUSED: ServerTurn<'static> = ServerTurn::Asks(
    STALE,
    Ground {
        rests: &[],
        settled: 5,
        guess: Some(5),
    },
    OLD,
);

/// Then a store depends on it, where it is not settled.
const UNSETTLED: &[ServerTurn<'static>] = &[
    REFUSED,
    ServerTurn::Asks(
        STORE_N,
        Ground {
            rests: &[5],
            settled: 5,
            guess: None,
        },
        ToldAnswer::Dropped,
    ),
];

/// And where it is; from then on it is forgotten.
const SETTLED: &[ServerTurn<'static>] = &[
    REFUSED,
    ServerTurn::Asks(
        STORE_N,
        Ground {
            rests: &[5],
            settled: 6,
            guess: None,
        },
        ToldAnswer::Yes,
    ),
    ServerTurn::Holds(b"/x", 4, b"n"),
    ServerTurn::Asks(
        ServerWish::Check(b"/x", 4),
        Ground {
            rests: &[5],
            ..LOOSE
        },
        ToldAnswer::Yes,
    ),
];

#[test]
fn settled_forgets(rt: HostRuntime) {
    passes(&rt, starts(rt.alloc(), 3, b"old", UNSETTLED));
    passes(&rt, starts(rt.alloc(), 3, b"old", SETTLED));
}

const OUT_OF_TURN: &[ServerTurn<'static>] = &[
    ServerTurn::Early(5, 1),
    ServerTurn::Early(0, 1),
    ServerTurn::Early(2, 1),
    ServerTurn::Early(LAST_REQUEST, 1),
    ServerTurn::Early(u64::MAX, 1),
    ServerTurn::Next(1),
    ServerTurn::Asks(GET, LOOSE, ToldAnswer::Copy(3, b"old")),
];

#[test]
fn out_of_turn(rt: HostRuntime) {
    passes(&rt, starts(rt.alloc(), 3, b"old", OUT_OF_TURN));
}
