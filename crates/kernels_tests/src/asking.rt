//! What a server is asked and answers, as plain data.
use sk_server::{Answer, Ask, Request, Server};
use std::alloc::Global;
use tests_support::plain::{content, guess, name, tags, text};
use tests_support::wrong::Wrong;

/// What a server is asked: the file, the version that it is to have, and the bytes.
#[derive(Clone, Copy, PartialEq, Eq)]
pub enum ServerWish<'a> {
    Get(&'a [u8]),
    Check(&'a [u8], u64),
    Store(&'a [u8], u64, &'a [u8]),
}

/// What it answers, a content by its version and bytes.
#[derive(Clone, Copy)]
pub enum ToldAnswer<'a> {
    Copy(u64, &'a [u8]),
    Yes,
    No(u64, &'a [u8]),
    Dropped,
}

/// What is asked.
pub fn ask_of(wish: ServerWish<'_>) -> Result<Ask, Wrong> {
    match wish {
        ServerWish::Get(at) => Ok(Ask::Get(name(at)?)),
        ServerWish::Check(at, version) => Ok(Ask::Check(name(at)?, version)),
        ServerWish::Store(at, version, bytes) => Ok(Ask::Store(name(at)?, version, text(bytes)?)),
    }
}

/// The answer itself.
pub fn answer_of(told: ToldAnswer<'_>) -> Result<Answer, Wrong> {
    match told {
        ToldAnswer::Copy(version, bytes) => Ok(Answer::Copy(content(version, bytes)?)),
        ToldAnswer::Yes => Ok(Answer::Yes),
        ToldAnswer::No(version, bytes) => Ok(Answer::No(content(version, bytes)?)),
        ToldAnswer::Dropped => Ok(Answer::Dropped),
    }
}

/// What a request depends on, and the guess that it is made with.
#[derive(Clone, Copy)]
pub struct Ground<'a> {
    pub rests: &'a [u64],
    pub settled: u64,
    pub guess: Option<u64>,
}

/// A request that depends on nothing and was made without a guess.
pub const LOOSE: Ground<'static> = Ground {
    rests: &[],
    settled: 1,
    guess: None,
};

/// A request of a number.
pub fn request(alloc: Global, number: u64, ask: Ask, ground: Ground<'_>) -> Result<Request, Wrong> {
    let made_with = match ground.guess {
        Some(number) => Some(guess(number)?),
        None => None,
    };
    let rests = tags(alloc, ground.rests)?;
    Ok(Request {
        number,
        rests,
        settled: ground.settled,
        guess: made_with,
        ask,
    })
}

/// What a server answers to its next request.
pub fn asked(
    alloc: Global,
    server: &mut Server,
    ask: Ask,
    ground: Ground<'_>,
) -> Result<Answer, Wrong> {
    let number = server.next();
    match server.answer(request(alloc, number, ask, ground)?) {
        Ok(reply) if reply.number == number => Ok(reply.answer),
        Ok(_) => Err(Wrong::Value),
        Err((_request, _refusal)) => Err(Wrong::Refused),
    }
}
