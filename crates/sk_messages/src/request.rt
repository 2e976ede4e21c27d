//! Requests as bytes.
ghost use Rattle.std.specs.Prelude.{◌≡◌, ◌++◌, OnOk};
ghost use Rattle.sk_messages.specs.Requests.{guess_of, kind_of, name_of, request_bytes, stored_by, version_of};

use crate::numbers::{write_guesses, write_numbers};
use sk_ids::{GuessId, Name};
use sk_server::{Ask, Request};
use std::alloc::AllocError;

fn kind_of(ask: &Ask) -> u64
    ensures { result ≡ kind_of ask.now }
{
    match ask {
        Ask::Get(_) => 1,
        Ask::Check(..) => 2,
        Ask::Store(..) => 3,
    }
}

/// The version that is expected, 0 where none is.
fn version_of(ask: &Ask) -> u64
    ensures { result ≡ version_of ask.now }
{
    match ask {
        Ask::Get(_) => 0,
        Ask::Check(_, version) | Ask::Store(_, version, _) => *version,
    }
}

/// The name of the file that is asked about.
fn name_of(ask: &Ask) -> &Name
    ensures { result.now ≡ name_of ask.now }
{
    match ask {
        Ask::Get(name) | Ask::Check(name, _) | Ask::Store(name, _, _) => name,
    }
}

/// The bytes that a store writes; none for any other ask.
fn stored_by(ask: &Ask) -> &[u8]
    ensures { result.now ≡ stored_by ask.now }
{
    match ask {
        Ask::Get(_) | Ask::Check(..) => &[],
        Ask::Store(_, _, bytes) => bytes.as_slice(),
    }
}

/// The number of the guess that is decided, 0 where none is.
fn guess_of(guess: Option<GuessId>) -> u64
    ensures { result ≡ guess_of guess }
{
    match guess {
        Some(id) => id.number(),
        None => 0,
    }
}

/// Appends a request as bytes. Without memory a part of it may stand there.
pub fn write_request(request: &Request, out: &mut Vec<u8>) -> Result<(), AllocError>
    ensures { OnOk result (out.new.items ≡ out.old.items ++ request_bytes request.now) }
{
    let name = name_of(&request.ask).as_slice();
    let stored = stored_by(&request.ask);
    let rests = request.rests.ids();
    let head = [
        request.number,
        guess_of(request.guess),
        request.settled,
        kind_of(&request.ask),
        version_of(&request.ask),
        name.len() as u64,
        stored.len() as u64,
        rests.len() as u64,
    ];
    write_numbers(&head, out)?;
    out.extend_from_slice(name)?;
    out.extend_from_slice(stored)?;
    write_guesses(rests, out)
}
