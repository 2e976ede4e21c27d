//! Reading a whole input, within two limits.
ghost use Rattle.std.specs.Prelude.{◌≡◌, ◌≤◌, IfOk, IfErr, IfSome, vec_len};
ghost use Rattle.std.specs.Io.KnownBytes.{Consumes};
ghost use Rattle.sk_command.specs.ReadAll.{INPUT_LIMIT, IsFaultOf};

use std::alloc::Global;
use std::io::{ErrorKind, Read};
use thiserror::Error;

/// The greatest length of an input, in bytes.
pub const INPUT_LIMIT: usize = 67_108_864;

/// The greatest number of reads, one of which has to find the end.
pub const READ_LIMIT: u32 = 67_108_865;

/// Why an input was not read.
#[derive(Clone, Copy, Debug, PartialEq, Eq, Error)]
pub enum ReadFault {
    /// It has more than `INPUT_LIMIT` bytes.
    #[error("too long")]
    TooLong,
    /// A read failed, and was not merely interrupted.
    #[error("a read failed")]
    Failed(ErrorKind),
    /// `READ_LIMIT` reads did not find its end.
    #[error("no end")]
    NoEnd,
    #[error("out of memory")]
    Memory,
}

/// All that a reader has left: at most `INPUT_LIMIT` bytes, in at most `READ_LIMIT` reads. An
/// interrupted read counts, and is tried again.
pub fn read_all<R: Read>(alloc: Global, reader: &mut R) -> Result<Vec<u8>, ReadFault>
    ensures bytes { IfOk result
        (λ text. IfSome (R.remaining reader.old) (λ all. text.items ≡ all)) }
    ensures limit { IfOk result (λ text. vec_len text ≤ INPUT_LIMIT) }
    ensures fault { IfErr result (λ fault. IsFaultOf fault (R.remaining reader.old)) }
{
    let mut text = Vec::new(alloc);
    let mut part = [0u8; 4096];
    'reads: for _ in 0..READ_LIMIT {
        match reader.read(&mut part) {
            Ok(0) => return Ok(text),
            Ok(count) => {
                if count > INPUT_LIMIT - text.len() {
                    return Err(ReadFault::TooLong);
                }
                if text.extend_from_slice(&part[..count]).is_err() {
                    return Err(ReadFault::Memory);
                }
            }
            Err(error) => {
                let kind = error.kind();
                if kind != ErrorKind::Interrupted {
                    return Err(ReadFault::Failed(kind));
                }
            }
        }
    }
    Err(ReadFault::NoEnd)
}
