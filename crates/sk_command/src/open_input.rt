//! The input that the words name.
ghost use Rattle.std.specs.Prelude.{Option, None, Some, List, ℕ, ◌≡◌, ◌≤◌, IfOk, IfErr, IfSome, vec_len};
ghost use Rattle.sk_command.specs.ReadAll.{INPUT_LIMIT};

use crate::end::{End, tell_unread};
use crate::read_all::{ReadFault, read_all};
use std::alloc::Global;
use std::io;
use std::io::{Read, Write};

/// Where inputs come from, by name.
pub trait OpenInput {
    type Reader: Read + Drop;

    /// The bytes of the input of a name, where they are known.
    ghost bytes_of: { Self → List ℕ → Option (List ℕ) } = { λ _ _. None };

    fn open(&self, name: &str) -> io::Result<Self::Reader>
        ensures { IfOk result (λ reader. IfSome (bytes_of self.now name.now)
            (λ bytes. Self.Reader.remaining reader ≡ Some bytes)) };
}

/// The whole input of a name, which has at most `INPUT_LIMIT` bytes; or how the run ends, once it is
/// told that the input can't be read.
pub fn input<O: OpenInput, E: Write>(
    alloc: Global,
    inputs: &O,
    file: &str,
    err: &mut E,
) -> Result<Vec<u8>, End>
    ensures bytes { IfOk result (λ text. IfSome (O.bytes_of inputs.now file.now)
        (λ bytes. text.items ≡ bytes)) }
    ensures limit { IfOk result (λ text. vec_len text ≤ INPUT_LIMIT) }
    ensures err { IfErr result (λ end. end ≡ End.Trouble) }
{
    let read = match inputs.open(file) {
        Ok(mut reader) => read_all(alloc, &mut reader),
        Err(error) => Err(ReadFault::Failed(error.kind())),
    };
    match read {
        Ok(text) => Ok(text),
        Err(fault) => Err(tell_unread(fault, file, err)),
    }
}
