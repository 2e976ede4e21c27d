//! With ample memory no call of a server is refused for the many guesses that it remembers.
use crate::asking::{Ground, ServerWish, ToldAnswer};
use crate::start::{comes, passes, server_with};
use crate::turns::asks;
use sk_server::Server;
use std::alloc::Global;
use tests_support::wrong::Wrong;

/// Whether a stale check of `/x` with this guess is refused.
fn refuses(alloc: Global, server: &mut Server, guess: u64) -> Result<bool, Wrong> {
    let ground = Ground {
        rests: &[],
        settled: 1,
        guess: Some(guess),
    };
    let check = ServerWish::Check(b"/x", 2);
    asks(alloc, server, check, ground, ToldAnswer::No(3, b"old"))
}

/// Whether a request that depends on this guess is dropped.
fn drops(alloc: Global, server: &mut Server, guess: u64) -> Result<bool, Wrong> {
    let ground = Ground {
        rests: &[guess],
        settled: 1,
        guess: None,
    };
    let get = ServerWish::Get(b"/x");
    asks(alloc, server, get, ground, ToldAnswer::Dropped)
}

/// Refuses many guesses, and drops what depends on the first, on one between and on the last.
fn refuses_and_drops(alloc: Global, server: &mut Server) -> Result<(), Wrong> {
    for number in 1..3_000 {
        comes(0, refuses(alloc, server, number))?;
    }
    for number in [1, 1_024, 2_999] {
        comes(1, drops(alloc, server, number))?;
    }
    Ok(())
}

fn refuses_many(alloc: Global) -> Result<(), Wrong> {
    let mut server = server_with(alloc, (b"/x", 3, b"old"))?;
    let done = refuses_and_drops(alloc, &mut server);
    drop(server);
    done
}

#[test]
fn many_refused_guesses(rt: HostRuntime) {
    passes(&rt, refuses_many(rt.alloc()));
}
