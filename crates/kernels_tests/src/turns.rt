//! Tests as tables: the turns that are taken with a server, each with what has to come of it.
//! A table has plain numbers and bytes, so that a test is short to prove.
use crate::asking::{Ground, LOOSE, ServerWish, ToldAnswer, answer_of, ask_of, asked, request};
use crate::start::{comes, server_with};
use sk_server::{Ask, Request, Server, ServerRefusal};
use std::alloc::Global;
use tests_support::plain::{content, name};
use tests_support::wrong::Wrong;

/// A turn with a server, and what comes of it.
#[derive(Clone, Copy)]
pub enum ServerTurn<'a> {
    /// The next request and its answer.
    Asks(ServerWish<'a>, Ground<'a>, ToldAnswer<'a>),
    /// A request of this number, which is handed back since the other number is next.
    Early(u64, u64),
    /// The version and bytes of a file.
    Holds(&'a [u8], u64, &'a [u8]),
    /// The number of the next request.
    Next(u64),
}

/// Whether the next request has this answer.
pub fn asks(
    alloc: Global,
    server: &mut Server,
    wish: ServerWish<'_>,
    ground: Ground<'_>,
    told: ToldAnswer<'_>,
) -> Result<bool, Wrong> {
    let answer = asked(alloc, server, ask_of(wish)?, ground)?;
    Ok(answer == answer_of(told)?)
}

/// Whether a request is handed back, since the other number is next.
fn is_back(server: &mut Server, early: Request, number: u64, expected: u64) -> bool {
    match server.answer(early) {
        Ok(_) => false,
        Err((back, refusal)) => {
            back.number == number && refusal == ServerRefusal::OutOfTurn { expected }
        }
    }
}

/// Whether a request of this number is handed back so.
fn is_early(alloc: Global, server: &mut Server, number: u64, expected: u64) -> Result<bool, Wrong> {
    let early = request(alloc, number, Ask::Get(name(b"/x")?), LOOSE)?;
    Ok(is_back(server, early, number, expected))
}

/// Whether a file has this version and these bytes.
fn has_file(server: &Server, at: &[u8], version: u64, bytes: &[u8]) -> Result<bool, Wrong> {
    let want = content(version, bytes)?;
    Ok(server.file(&name(at)?) == Some(&want))
}

/// Takes a turn: whether it comes to what is wanted.
fn takes(alloc: Global, server: &mut Server, turn: ServerTurn<'_>) -> Result<bool, Wrong> {
    match turn {
        ServerTurn::Asks(wish, ground, told) => asks(alloc, server, wish, ground, told),
        ServerTurn::Early(number, expected) => is_early(alloc, server, number, expected),
        ServerTurn::Holds(at, version, bytes) => has_file(server, at, version, bytes),
        ServerTurn::Next(number) => Ok(server.next() == number),
    }
}

/// Takes one turn after the other.
fn takes_all(alloc: Global, server: &mut Server, turns: &[ServerTurn<'_>]) -> Result<(), Wrong> {
    for (place, turn) in turns.iter().enumerate() {
        comes(place, takes(alloc, server, *turn))?;
    }
    Ok(())
}

/// Takes turns with a server whose file `/x` starts with this version and these bytes.
pub fn starts(
    alloc: Global,
    version: u64,
    bytes: &[u8],
    turns: &[ServerTurn<'_>],
) -> Result<(), Wrong> {
    let mut server = server_with(alloc, (b"/x", version, bytes))?;
    let taken = takes_all(alloc, &mut server, turns);
    drop(server);
    taken
}
