//! Parts of short lines that are told at a glance, byte by byte, as they are printed.
ghost use Rattle.std.specs.Prelude.{◌≡◌, ◌≤◌, ◌∷◌, ◌++◌, [], ℕ, List, Ok, IfSome, codes};
ghost use Rattle.sk_words.specs.Operands.{one_of, pid, positive};
ghost use Rattle.sk_scenario.specs.Glances.{EndsLine};

use sk_ids::{GuessId, Pid};
use sk_words::Operand;

/// What is behind `step` and a space.
#[inline(always)]
pub(crate) fn behind_step(text: &[u8]) -> Option<&[u8]>
    ensures { IfSome result (λ tail. text.now ≡ codes "step " ++ tail.now) }
{
    match text {
        [b's', b't', b'e', b'p', b' ', tail @ ..] => Some(tail),
        _ => None,
    }
}

/// What is behind `guess` and a space.
#[inline(always)]
pub(crate) fn behind_guess(text: &[u8]) -> Option<&[u8]>
    ensures { IfSome result (λ tail. text.now ≡ codes "guess " ++ tail.now) }
{
    match text {
        [b'g', b'u', b'e', b's', b's', b' ', tail @ ..] => Some(tail),
        _ => None,
    }
}

/// What is behind `commit` and a space.
#[inline(always)]
pub(crate) fn behind_commit(text: &[u8]) -> Option<&[u8]>
    ensures { IfSome result (λ tail. text.now ≡ codes "commit " ++ tail.now) }
{
    match text {
        [b'c', b'o', b'm', b'm', b'i', b't', b' ', tail @ ..] => Some(tail),
        _ => None,
    }
}

/// What is behind `fail` and a space.
#[inline(always)]
pub(crate) fn behind_fail(text: &[u8]) -> Option<&[u8]>
    ensures { IfSome result (λ tail. text.now ≡ codes "fail " ++ tail.now) }
{
    match text {
        [b'f', b'a', b'i', b'l', b' ', tail @ ..] => Some(tail),
        _ => None,
    }
}

/// What is behind `turn` and a space.
#[inline(always)]
pub(crate) fn behind_turn(text: &[u8]) -> Option<&[u8]>
    ensures { IfSome result (λ tail. text.now ≡ codes "turn " ++ tail.now) }
{
    match text {
        [b't', b'u', b'r', b'n', b' ', tail @ ..] => Some(tail),
        _ => None,
    }
}

/// What is behind the line `serve`.
#[inline(always)]
pub(crate) fn behind_serve(text: &[u8]) -> Option<&[u8]>
    ensures { IfSome result (λ rest. text.now ≡ codes "serve" ++ 10 ∷ rest.now) }
{
    match text {
        [b's', b'e', b'r', b'v', b'e', b'\n', rest @ ..] => Some(rest),
        _ => None,
    }
}

/// What is behind the line `reply`.
#[inline(always)]
pub(crate) fn behind_reply(text: &[u8]) -> Option<&[u8]>
    ensures { IfSome result (λ rest. text.now ≡ codes "reply" ++ 10 ∷ rest.now) }
{
    match text {
        [b'r', b'e', b'p', b'l', b'y', b'\n', rest @ ..] => Some(rest),
        _ => None,
    }
}

/// What is behind a line that ends with this byte.
#[inline(always)]
pub(crate) fn behind_byte(text: &[u8]) -> Option<&[u8]>
    ensures { IfSome result (λ rest. (b : ℕ) × (text.now ≡ b ∷ 10 ∷ rest.now)) }
{
    match text {
        [_, b'\n', rest @ ..] => Some(rest),
        _ => None,
    }
}

/// What is behind a line that ends with a byte and `none`.
#[inline(always)]
pub(crate) fn behind_none(text: &[u8]) -> Option<&[u8]>
    ensures { IfSome result (λ rest. (b : ℕ) × (text.now ≡ b ∷ 32 ∷ codes "none" ++ 10 ∷ rest.now)) }
{
    match text {
        [_, b' ', b'n', b'o', b'n', b'e', b'\n', rest @ ..] => Some(rest),
        _ => None,
    }
}

/// What is behind a line that ends with a byte and `good`.
#[inline(always)]
pub(crate) fn behind_good(text: &[u8]) -> Option<&[u8]>
    ensures { IfSome result (λ rest. (b : ℕ) × (text.now ≡ b ∷ 32 ∷ codes "good" ++ 10 ∷ rest.now)) }
{
    match text {
        [_, b' ', b'g', b'o', b'o', b'd', b'\n', rest @ ..] => Some(rest),
        _ => None,
    }
}

/// The boot process of one digit at the front of a text.
#[inline(always)]
pub(crate) fn digit_pid(text: &[u8]) -> Option<Pid>
    ensures { IfSome result (λ p. (digit : ℕ) × (rest : List ℕ) × (48 ≤ digit)
        × (text.now ≡ digit ∷ rest) × (pid (digit ∷ []) ≡ Ok p)) }
{
    let [b'0'..=b'9', _rest @ ..] = text else {
        return None;
    };
    Operand::read(&text[..1]).ok()
}

/// The digit at the front of a text, and what is behind it.
#[inline(always)]
fn behind_digit(text: &[u8]) -> Option<(u8, &[u8])>
    ensures { IfSome result
        (λ x. (48 ≤ x.0) × (x.0 ≤ 57) × (text.now ≡ x.0 ∷ x.1.now)) }
{
    match text {
        [digit @ b'0'..=b'9', tail @ ..] => Some((*digit, tail)),
        _ => None,
    }
}

/// What is behind the end of a line.
#[inline(always)]
fn behind_end(text: &[u8]) -> Option<&[u8]>
    ensures { IfSome result (λ rest. text.now ≡ 10 ∷ rest.now) }
{
    match text {
        [b'\n', rest @ ..] => Some(rest),
        _ => None,
    }
}

/// The guess whose number of few digits ends a line at the front of a text, and what is behind that line.
#[inline]
pub(crate) fn number_line(text: &[u8]) -> Option<(GuessId, &[u8])>
    ensures { IfSome result (λ x. EndsLine (one_of positive) text.now x.0 x.1.now) }
{
    let mut number = 0;
    let mut rest = text;
    while let Some((digit, tail)) = behind_digit(rest) {
        if number > 99_999_999 {
            return None;
        }
        number = number * 10 + u64::from(digit - b'0');
        rest = tail;
    }
    let behind = behind_end(rest)?;
    let id = GuessId::new(number)?;
    Some((id, behind))
}
