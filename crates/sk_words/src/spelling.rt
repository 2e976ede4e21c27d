//! How literals and identifiers are printed.
ghost use Rattle.std.specs.Prelude.{◌≡◌, ◌<◌, ◌≤◌, ◌++◌, ◌∷◌, [], Some, None, IfSome, true, length, take, flat_map};
ghost use Rattle.sk_words.specs.Spelling.{hex_glyph, spelled_byte};
ghost use Rattle.sk_words.specs.Parts.{part_text};

use sk_ids::{Name, ObjId, Pid};
use std::fmt;

fn hex_glyph(digit: u8) -> char
    requires { digit < 16 }
    ensures value { result ≡ hex_glyph digit }
    ensures ascii { result < 128 }
{
    (if digit < 10 {
        b'0' + digit
    } else {
        b'a' - 10 + digit
    }) as char
}

/// A byte within a literal.
#[derive(Clone, Copy)]
struct Spelled(u8);

impl fmt::Display for Spelled {
    ghost use Rattle.std.specs.Prelude.{Some};
    ghost use Rattle.sk_words.specs.Spelling.{spelled_byte};

    ghost output = { λ b. Some (spelled_byte b.0) };

    fn fmt<W: fmt::Write>(&self, f: &mut fmt::Formatter<W>) -> fmt::Result {
        let byte = self.0;
        match byte {
            b'"' => write!(f, "\\\""),
            b'\\' => write!(f, "\\\\"),
            b'\n' => write!(f, "\\n"),
            b' '..=b'~' => write!(f, "{}", byte as char),
            _ => {
                let high = hex_glyph(byte / 16);
                let low = hex_glyph(byte % 16);
                write!(f, "\\x{high}{low}")
            }
        }
    }
}

/// A part of a literal: bytes that stand for themselves, or another one.
#[derive(Clone, Copy)]
enum Part<'a> {
    Plain(&'a [u8]),
    Other(Spelled),
}

impl fmt::Display for Part<'_> {
    ghost use Rattle.std.specs.Prelude.{Some};
    ghost use Rattle.sk_words.specs.Parts.{part_text};

    ghost output = { λ p. Some (part_text p) };

    fn fmt<W: fmt::Write>(&self, f: &mut fmt::Formatter<W>) -> fmt::Result {
        match self {
            Part::Plain(bytes) => match str::from_utf8(bytes) {
                Ok(text) => write!(f, "{text}"),
                Err(_) => Err(fmt::Error),
            },
            Part::Other(byte) => write!(f, "{byte}"),
        }
    }
}

/// Whether a byte stands for itself in a literal.
#[inline]
fn is_plain(byte: u8) -> bool
    ensures { result ≡ true → spelled_byte byte ≡ byte ∷ [] }
{
    matches!(byte, b' '..=b'~') && byte != b'"' && byte != b'\\'
}

/// How many bytes at the front stand for themselves in a literal.
fn plain_len(bytes: &[u8]) -> usize
    ensures within { result ≤ length bytes.now }
    ensures plain { flat_map spelled_byte (take result bytes.now) ≡ take result bytes.now }
{
    let mut len = 0;
    while len < bytes.len() && is_plain(bytes[len]) {
        len += 1;
    }
    len
}

/// The first part of a literal that is printed, as long as it can be, and the bytes behind it.
fn first_part(bytes: &[u8]) -> Option<(Part<'_>, &[u8])>
    ensures none { result ≡ None → bytes.now ≡ [] }
    ensures text { IfSome result (λ cut. flat_map spelled_byte bytes.now
        ≡ part_text cut.0 ++ flat_map spelled_byte cut.1.now) }
    ensures less { IfSome result (λ cut. length cut.1.now < length bytes.now) }
{
    let [byte, behind @ ..] = bytes else {
        return None;
    };
    let len = plain_len(bytes);
    if len == 0 {
        return Some((Part::Other(Spelled(*byte)), behind));
    }
    Some((Part::Plain(&bytes[..len]), &bytes[len..]))
}

/// Bytes as they stand between the quotes of a literal.
#[derive(Clone, Copy)]
pub struct Unquoted<'a>(pub &'a [u8]);

impl fmt::Display for Unquoted<'_> {
    ghost use Rattle.std.specs.Prelude.{Some, flat_map};
    ghost use Rattle.sk_words.specs.Spelling.{spelled_byte};

    ghost output = { λ t. Some (flat_map spelled_byte t.0.now) };

    fn fmt<W: fmt::Write>(&self, f: &mut fmt::Formatter<W>) -> fmt::Result {
        let mut rest = self.0;
        while let Some((part, behind)) = first_part(rest) {
            write!(f, "{part}")?;
            rest = behind;
        }
        Ok(())
    }
}

/// Bytes as a literal.
#[derive(Drop)]
pub struct Literal<'a>(pub &'a [u8]);

impl<'a> fmt::Display for Literal<'a> {
    ghost use Rattle.std.specs.Prelude.{Some};
    ghost use Rattle.sk_words.specs.Spelling.{spelled};

    ghost output = { λ t. Some (spelled t.0.now) };

    fn fmt<W: fmt::Write>(&self, f: &mut fmt::Formatter<W>) -> fmt::Result {
        let bytes = Unquoted(self.0);
        write!(f, "\"{bytes}\"")
    }
}

/// A thing as it is printed: a process as `1.3`, an object as `1.3:2`, a name as its bytes.
#[derive(Clone, Copy)]
pub struct Printed<T>(pub T);

/// The two last numbers of a path.
#[derive(Clone, Copy)]
struct TwoLevels(u64);

impl fmt::Display for TwoLevels {
    ghost use Rattle.std.specs.Prelude.{Some};
    ghost use Rattle.sk_words.specs.Spelling.{two_levels};

    ghost output = { λ p. Some (two_levels p.0) };

    fn fmt<W: fmt::Write>(&self, f: &mut fmt::Formatter<W>) -> fmt::Result {
        let upper = self.0 / 65_536 % 65_536;
        let last = self.0 % 65_536;
        write!(f, "{upper}.{last}")
    }
}

impl fmt::Display for Printed<Pid> {
    ghost use Rattle.std.specs.Prelude.{Some};
    ghost use Rattle.sk_words.specs.Spelling.{pid_word};

    ghost output = { λ p. Some (pid_word p.0) };

    fn fmt<W: fmt::Write>(&self, f: &mut fmt::Formatter<W>) -> fmt::Result {
        let path = self.0.path();
        let upper = path / 4_294_967_296;
        let lower = TwoLevels(path);
        if path < 1 << 16 {
            write!(f, "{path}")
        } else if path < 1 << 32 {
            write!(f, "{lower}")
        } else if path < 1 << 48 {
            write!(f, "{upper}.{lower}")
        } else {
            let upper = TwoLevels(upper);
            write!(f, "{upper}.{lower}")
        }
    }
}

impl fmt::Display for Printed<ObjId> {
    ghost use Rattle.std.specs.Prelude.{Some};
    ghost use Rattle.sk_words.specs.Spelling.{object_word};

    ghost output = { λ o. Some (object_word o.0) };

    fn fmt<W: fmt::Write>(&self, f: &mut fmt::Formatter<W>) -> fmt::Result {
        let count = self.0.count;
        match self.0.maker {
            None => write!(f, "0:{count}"),
            Some(maker) => {
                let maker = Printed(maker);
                write!(f, "{maker}:{count}")
            }
        }
    }
}

impl fmt::Display for Printed<Name> {
    ghost use Rattle.std.specs.Prelude.{Some};

    ghost output = { λ n. Some n.0 };

    fn fmt<W: fmt::Write>(&self, f: &mut fmt::Formatter<W>) -> fmt::Result {
        let bytes = self.0.as_slice();
        match str::from_utf8(bytes) {
            Ok(text) => write!(f, "{text}"),
            Err(_) => Err(fmt::Error),
        }
    }
}
