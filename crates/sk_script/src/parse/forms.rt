//! What forms the words behind the first word of an instruction have to have.
ghost use Rattle.std.specs.Prelude.{◌≡◌, None, Some, MatchOption};
ghost use Rattle.sk_script.specs.InstructionForms.{forms_in, value_forms, outer_of, byte_of, object_of, place_of, instruction_forms};

use crate::form::Form::{self, Index, Label, Literal, Name, Number, Register};

/// The forms behind a first word, in order.
pub type Forms = &'static [Form];

/// Behind the first word of an instruction; `None` where the word is none.
pub fn instruction_forms(word: &[u8]) -> Option<Forms>
    ensures { MatchOption result (instruction_forms word.now ≡ None)
        (λ forms. instruction_forms word.now ≡ Some forms.now) }
{
    if b"set".as_slice() == word {
        return Some(&[Register, Number]);
    }
    if b"move".as_slice() == word {
        return Some(&[Register, Register]);
    }
    if b"add".as_slice() == word {
        return Some(&[Register, Register]);
    }
    if b"text".as_slice() == word {
        return Some(&[Literal]);
    }
    if b"len".as_slice() == word {
        return Some(&[Register]);
    }
    if b"self".as_slice() == word {
        return Some(&[Register]);
    }
    if b"boot".as_slice() == word {
        return Some(&[Register, Index]);
    }
    place_of(word)
}

/// What stands behind the word of an instruction about places, or of one that `object_of` knows.
fn place_of(word: &[u8]) -> Option<Forms>
    ensures { MatchOption result (place_of word.now ≡ None)
        (λ forms. place_of word.now ≡ Some forms.now) }
{
    if b"jump".as_slice() == word {
        return Some(&[Label]);
    }
    if b"zero".as_slice() == word {
        return Some(&[Register, Label]);
    }
    if b"neg".as_slice() == word {
        return Some(&[Register, Label]);
    }
    if b"handler".as_slice() == word {
        return Some(&[Label]);
    }
    if b"return".as_slice() == word {
        return Some(&[]);
    }
    object_of(word)
}

/// What stands behind the word of an instruction about objects and names, or of one that `byte_of` knows.
fn object_of(word: &[u8]) -> Option<Forms>
    ensures { MatchOption result (object_of word.now ≡ None)
        (λ forms. object_of word.now ≡ Some forms.now) }
{
    if b"mkfile".as_slice() == word {
        return Some(&[Register]);
    }
    if b"mkdir".as_slice() == word {
        return Some(&[Register]);
    }
    if b"mkpipe".as_slice() == word {
        return Some(&[Register]);
    }
    if b"look".as_slice() == word {
        return Some(&[Register, Register, Name]);
    }
    if b"link".as_slice() == word {
        return Some(&[Register, Name, Register]);
    }
    if b"unlink".as_slice() == word {
        return Some(&[Register, Name]);
    }
    byte_of(word)
}

/// Behind an instruction about bytes, or one of the others.
fn byte_of(word: &[u8]) -> Option<Forms>
    ensures { MatchOption result (byte_of word.now ≡ None)
        (λ forms. byte_of word.now ≡ Some forms.now) }
{
    if b"size".as_slice() == word {
        return Some(&[Register]);
    }
    if b"write".as_slice() == word {
        return Some(&[Register, Register]);
    }
    if b"read".as_slice() == word {
        return Some(&[Register, Register]);
    }
    if b"cut".as_slice() == word {
        return Some(&[Register, Register]);
    }
    if b"put".as_slice() == word {
        return Some(&[Register]);
    }
    if b"take".as_slice() == word {
        return Some(&[Register, Register]);
    }
    if b"shut".as_slice() == word {
        return Some(&[Register]);
    }
    outer_of(word)
}

/// Behind an instruction about processes, the terminal and the server.
fn outer_of(word: &[u8]) -> Option<Forms>
    ensures { MatchOption result (outer_of word.now ≡ None)
        (λ forms. outer_of word.now ≡ Some forms.now) }
{
    if b"fork".as_slice() == word {
        return Some(&[Register, Label]);
    }
    if b"wait".as_slice() == word {
        return Some(&[Register, Register]);
    }
    if b"kill".as_slice() == word {
        return Some(&[Register, Register]);
    }
    if b"exit".as_slice() == word {
        return Some(&[Register]);
    }
    if b"say".as_slice() == word {
        return Some(&[]);
    }
    if b"fetch".as_slice() == word {
        return Some(&[Name]);
    }
    if b"store".as_slice() == word {
        return Some(&[Name]);
    }
    None
}
