//! Why what came is not carried out, in the words that clients know.
ghost use Rattle.std.specs.Prelude.{◌≡◌, IfOk};
ghost use Rattle.sk_channels.specs.Base.{error_text};
ghost use Rattle.sk_channels.specs.Rejections.{fault_words, rejection_words};

use sk_requests::{Fault, reply};
use std::alloc::{AllocError, Global};

/// Why a request is not carried out.
#[derive(Clone, Copy, Debug, PartialEq, Eq)]
pub enum Rejection {
    /// No request begins so: the channel is closed.
    Fault(Fault),
    /// The request is beyond the limits.
    TooLarge,
    /// There was no memory to queue the command.
    Memory,
    /// The commands that wait for EXEC take as many bytes as may.
    QueueFull,
}

/// The words that say what is wrong with a byte that stands where a word begins.
fn mark_words(alloc: Global, mark: u8) -> Result<Vec<u8>, AllocError>
    ensures { IfOk result (λ words. words.items ≡ fault_words (Fault.Mark mark)) }
{
    let mut words = Vec::from_slice(alloc, b"ERR Protocol error: expected '$', got '")?;
    words.extend_from_slice(&[mark, b'\''])?;
    Ok(words)
}

fn fault_words(alloc: Global, fault: Fault) -> Result<Vec<u8>, AllocError>
    ensures { IfOk result (λ words. words.items ≡ fault_words fault) }
{
    match fault {
        Fault::Count => Vec::from_slice(alloc, b"ERR Protocol error: invalid multibulk length"),
        Fault::Length => Vec::from_slice(alloc, b"ERR Protocol error: invalid bulk length"),
        Fault::Mark(mark) => mark_words(alloc, mark),
        Fault::Line => Vec::from_slice(alloc, b"ERR Protocol error: too big inline request"),
        Fault::End => Vec::from_slice(alloc, b"ERR Protocol error: expected CRLF behind a bulk"),
    }
}

impl Rejection {
    /// The words of the reply, without what makes a line of an error of them.
    pub fn words(self, alloc: Global) -> Result<Vec<u8>, AllocError>
        ensures { IfOk result (λ words. words.items ≡ rejection_words self) }
    {
        match self {
            Rejection::Fault(fault) => fault_words(alloc, fault),
            Rejection::TooLarge => Vec::from_slice(alloc, b"ERR the request is too large"),
            Rejection::Memory => {
                Vec::from_slice(alloc, b"OOM there is no memory to queue the command")
            }
            Rejection::QueueFull => {
                Vec::from_slice(
                    alloc,
                    b"ERR the commands that wait for EXEC take as many bytes as may",
                )
            }
        }
    }

    /// The bytes of the reply.
    pub fn text(self, alloc: Global) -> Result<Vec<u8>, AllocError>
        ensures { IfOk result (λ text. text.items ≡ error_text (rejection_words self)) }
    {
        let words = self.words(alloc)?;
        let mut text = Vec::new(alloc);
        reply::error(&mut text, words.as_slice())?;
        Ok(text)
    }
}
