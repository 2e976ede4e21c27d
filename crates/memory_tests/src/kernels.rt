//! Steps on a kernel.
use crate::sights::{Sight, begins, shows};
use crate::texts::tells;
use sk_play::{CallAnswer, Session, write_answer};
use sk_scenario::{Call, Declarations};
use std::alloc::{AllocError, Global};
use std::io::Write;
use tests_support::finding::Finding;

fn starts(alloc: Global, declarations: &Declarations) -> Result<Session, AllocError> {
    match Session::new(alloc, declarations) {
        Ok(session) => Ok(session),
        Err(AllocError) => Session::new(alloc, declarations),
    }
}

/// Makes a call, and makes it again where memory was wanted and nothing has changed.
fn tries(
    alloc: Global,
    session: &mut Session,
    call: &Call,
    before: &Sight,
) -> Result<CallAnswer, Finding> {
    if let Ok(answer) = session.execute(call) {
        return Ok(answer);
    }
    before.stands(alloc, session.kernel())?;
    Ok(session.execute(call)?)
}

fn calls<W: Write>(
    alloc: Global,
    session: &mut Session,
    call: &Call,
    out: &mut W,
) -> Result<CallAnswer, Finding> {
    let before = Sight::of(alloc, session.kernel())?;
    begins(out)?;
    tries(alloc, session, call, &before)
}

/// Makes a call, twice where memory was wanted, and tells what it is answered.
fn calls_and_tells<W: Write>(
    alloc: Global,
    session: &mut Session,
    number: usize,
    call: &Call,
    out: &mut W,
) -> Result<(), Finding> {
    let answer = calls(alloc, session, call, out)?;
    Ok(write_answer(number, &answer, out)?)
}

fn calls_all<W: Write>(
    alloc: Global,
    session: &mut Session,
    steps: &[Call],
    out: &mut W,
) -> Result<(), Finding> {
    for (place, call) in steps.iter().enumerate() {
        calls_and_tells(alloc, session, place + 1, call, out)?;
    }
    shows(alloc, session.kernel(), out)
}

/// Makes the calls, and prints what comes of them.
fn plays_all<W: Write>(
    alloc: Global,
    text: &[u8],
    declarations: &Declarations,
    session: &mut Session,
    steps: &[Call],
    out: &mut W,
) -> Result<(), Finding> {
    calls_all(alloc, session, steps, out)?;
    let trace = session.kernel().trace();
    tells(alloc, text, declarations.boot(), trace, out)
}

/// Plays steps, and prints what comes of them.
pub fn plays_steps<W: Write>(
    alloc: Global,
    text: &[u8],
    declarations: &Declarations,
    steps: &[Call],
    out: &mut W,
) -> Result<(), Finding> {
    let mut session = starts(alloc, declarations)?;
    let played = plays_all(alloc, text, declarations, &mut session, steps, out);
    session.end();
    played
}
