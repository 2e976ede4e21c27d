//! Integers of 64 bits, and their decimal texts.
ghost use Rattle.std.specs.Prelude.{◌≡◌, ◌+ℤ◌, neg_ℤ, true, bytes_eq, IfNone, IfOk, IfSome};
ghost use Rattle.sk_commands.specs.Base.{signed_decimal, signed_digits_value};
ghost use Rattle.sk_commands.specs.Numbers.{fits, fitting, number_of, IsNoNumber};

use crate::ByteString;
use itoa::Buffer;
use std::alloc::{AllocError, Global};
use std::str;

/// The integer that a text would be of, with signs and zeros that its decimal text may not have.
fn parsed(text: &[u8]) -> Option<i64>
    ensures fits { IfSome result (λ n. fits n ≡ true) }
    ensures some { IfSome result (λ n. n ≡ signed_digits_value 10 text.now) }
    ensures none { IfNone result (IsNoNumber text.now) }
{
    match str::from_utf8(text) {
        Ok(text) => text.parse::<i64>().ok(),
        Err(_) => None,
    }
}

/// Whether this is the decimal text of an integer.
fn is_text_of(number: i64, text: &[u8]) -> bool
    ensures { result ≡ bytes_eq text.now (signed_decimal number) }
{
    let mut buffer = Buffer::new();
    text == buffer.format(number).as_bytes()
}

/// The integer whose decimal text this is: no plus, no zeros before other digits, no minus before 0.
pub fn number_of(text: &[u8]) -> Option<i64>
    ensures { result ≡ number_of text.now }
{
    let number = parsed(text)?;
    if is_text_of(number, text) {
        Some(number)
    } else {
        None
    }
}

/// The sum, if it has 64 bits.
pub(crate) fn sum_of(left: i64, right: i64) -> Option<i64>
    ensures { result ≡ fitting (left +ℤ right) }
{
    left.checked_add(right)
}

/// The integer with the other sign, if that has 64 bits.
pub(crate) fn negative_of(number: i64) -> Option<i64>
    ensures { result ≡ fitting (neg_ℤ number) }
{
    number.checked_neg()
}

/// The decimal text of an integer.
pub(crate) fn text_of(alloc: Global, number: i64) -> Result<ByteString, AllocError>
    ensures { IfOk result (λ text. text ≡ signed_decimal number) }
{
    let mut buffer = Buffer::new();
    ByteString::copy_of(alloc, buffer.format(number).as_bytes())
}
