//! What is carried out for what a channel asked for.
ghost use Rattle.std.specs.Prelude.{◌≡◌, false, IfOk};
ghost use Rattle.sk_served.specs.Names.{names_reserved};
ghost use Rattle.sk_durable.specs.Asked.{error, long_key_words, reserved_words, told_work, work_of};

use sk_channels::Ask;
use sk_commands::{ByteString, Reply, Work};
use sk_served::names_reserved;
use std::alloc::{AllocError, Global};

/// What is replied to a command that names a key which begins as those of batches do.
const RESERVED: &[u8] = b"ERR a key begins as those that are kept for batches";

/// What is replied to a command that names a key which is longer than may be.
const LONG_KEY: &[u8] = b"ERR a key is longer than 65536 bytes";

/// What is replied where the host knows no such command either.
pub(crate) const UNKNOWN: &[u8] = b"-ERR unknown command\r\n";

/// The work that only replies what the host told.
pub(crate) fn text(alloc: Global, reply: &[u8]) -> Result<Work, AllocError>
    ensures work { IfOk result (λ work. work ≡ told_work reply.now) }
    ensures named { IfOk result (λ work. names_reserved work ≡ false) }
{
    Ok(Work::Say(Reply::Text(ByteString::copy_of(alloc, reply)?)))
}

/// The work that only replies an error of these words.
fn error(words: Vec<u8>) -> Work
    ensures { result ≡ error words.items }
{
    Work::Say(Reply::Rejected(ByteString::new(words)))
}

/// The work that only replies that a key is too long.
pub(crate) fn too_long(alloc: Global) -> Result<Work, AllocError>
    ensures work { IfOk result (λ work. work ≡ error long_key_words) }
    ensures named { IfOk result (λ work. names_reserved work ≡ false) }
{
    Ok(error(Vec::from_slice(alloc, LONG_KEY)?))
}

/// The work that was asked for; or that only replies an error, where it names a reserved key, and for a rejection.
pub(crate) fn work_of(alloc: Global, ask: Ask) -> Result<Work, AllocError>
    ensures work { IfOk result (λ work. work ≡ work_of ask) }
    ensures named { IfOk result (λ work. names_reserved work ≡ false) }
{
    match ask {
        Ask::Do(work) => {
            if names_reserved(&work) {
                return Ok(error(Vec::from_slice(alloc, RESERVED)?));
            }
            Ok(work)
        }
        Ask::Reject(rejection) => Ok(error(rejection.words(alloc)?)),
    }
}
