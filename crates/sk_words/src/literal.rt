//! Literals.
ghost use Rattle.std.specs.Prelude.{◌≡◌, ◌<◌, length, IfSome, false};
ghost use Rattle.sk_words.specs.Operands.{SaysSome};
ghost use Rattle.sk_words.specs.Literals.{text_from, at_most_512, Plain, Escaped, High, ends_here, Continues, hex_digit};

use crate::{FaultKind, Operand};
use sk_ids::Text;
use sk_ids::text::TEXT_LIMIT;

impl Operand for Text {
    ghost use Rattle.sk_words.specs.Literals.{literal};

    ghost said = { literal };

    fn read(word: &[u8]) -> Result<Text, FaultKind> {
        match word {
            [b'"', rest @ ..] => unquoted(rest),
            _ => Err(FaultKind::Operand),
        }
    }
}

/// What the bytes behind the opening quote say.
fn unquoted(bytes: &[u8]) -> Result<Text, FaultKind>
    ensures { result ≡ at_most_512 (text_from Plain bytes.now) }
{
    let mut cells = [0; 512];
    let mut len = 0;
    let mut rest = bytes;
    while rest != b"\"".as_slice() {
        let Some((byte, tail)) = character(rest) else {
            return Err(FaultKind::Operand);
        };
        if len == TEXT_LIMIT {
            return Err(FaultKind::Operand);
        }
        cells[len] = byte;
        len += 1;
        rest = tail;
    }
    Text::new(&cells[..len]).ok_or(FaultKind::Operand)
}

/// The next byte that a literal says, and what is behind it; `None` where it is malformed.
fn character(bytes: &[u8]) -> Option<(u8, &[u8])>
    requires { ends_here bytes.now ≡ false }
    ensures byte { Continues result (text_from Plain bytes.now) }
    ensures shorter { IfSome result (λ x. length x.1.now < length bytes.now) }
{
    match bytes {
        [b'\\', rest @ ..] => escaped(rest),
        [plain @ (b' ' | b'!' | b'#'..=b'~'), rest @ ..] => Some((*plain, rest)),
        _ => None,
    }
}

/// The byte that is said behind a backslash, and what is behind it.
fn escaped(bytes: &[u8]) -> Option<(u8, &[u8])>
    ensures byte { Continues result (text_from Escaped bytes.now) }
    ensures shorter { IfSome result (λ x. length x.1.now < length bytes.now) }
{
    match bytes {
        [quoted @ (b'"' | b'\\'), rest @ ..] => Some((*quoted, rest)),
        [b'n', rest @ ..] => Some((b'\n', rest)),
        [b'x', rest @ ..] => of_two_digits(rest),
        _ => None,
    }
}

/// The byte of two hexadecimal digits, and what is behind them.
fn of_two_digits(bytes: &[u8]) -> Option<(u8, &[u8])>
    ensures byte { Continues result (text_from High bytes.now) }
    ensures shorter { IfSome result (λ x. length x.1.now < length bytes.now) }
{
    match bytes {
        [high, low, rest @ ..] => Some((hex(*high)? * 16 + hex(*low)?, rest)),
        _ => None,
    }
}

fn hex(digit: u8) -> Option<u8>
    ensures { SaysSome result (hex_digit digit) }
{
    match digit {
        b'0'..=b'9' => Some(digit - b'0'),
        b'a'..=b'f' => Some(digit - b'a' + 10),
        b'A'..=b'F' => Some(digit - b'A' + 10),
        _ => None,
    }
}
