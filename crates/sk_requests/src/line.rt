//! Lines, and the numbers and words in them.
ghost use Rattle.std.specs.Prelude.{◌≡◌, ◌≢◌, ◌+◌, ◌-◌, ◌<◌, ◌≤◌, ◌^◌, ◌↔◌, ◌++◌, ◌∷◌, ℕ, List, decimal, length, slice_index, take, IsTrue, IfOk, IfSome, OnOk};
ghost use Rattle.sk_requests.specs.Inline.{ended, words_from, line_words, without_return};
ghost use Rattle.sk_requests.specs.Lines.{said, value_from};
ghost use Rattle.sk_requests.specs.Reading.{words_of};

use itoa::Buffer;
use std::alloc::{AllocError, Global};
use std::mem::replace;

/// How many bytes stand before the first that ends a line, or in all.
pub(crate) fn line_len(bytes: &[u8]) -> usize
    ensures within { result ≤ length bytes.now }
    ensures line { (i : ℕ) → i < result → slice_index bytes.now i ≢ 10 }
    ensures ends { result < length bytes.now → slice_index bytes.now result ≡ 10 }
{
    for (i, byte) in bytes.iter().enumerate() {
        if *byte == b'\n' {
            return i;
        }
    }
    bytes.len()
}

/// The number that digits say, where it is within the limit.
fn number(digits: &[u8], limit: usize) -> Option<usize>
    requires { limit < 2 ^ 32 }
    ensures some { IfSome result (λ n. (n ≤ limit) × (value_from 0 digits.now ≡ n)) }
    ensures none { result ≡ None → limit < value_from 0 digits.now }
{
    let mut number = 0;
    for digit in digits {
        number = number * 10 + digit.saturating_sub(b'0') as usize;
        if number > limit {
            return None;
        }
    }
    Some(number)
}

/// The number that a line says behind its mark, where it is written in decimal and within the limit.
pub(crate) fn number_in(line: &[u8], mark: u8, limit: usize) -> Option<usize>
    requires { limit < 2 ^ 32 }
    ensures some { IfSome result (λ n. (n ≤ limit) × (line.now ≡ said mark n)) }
    ensures none { result ≡ None → (n : ℕ) → n ≤ limit → line.now ≡ said mark n → ⊥ }
{
    if line.len() < 2 {
        return None;
    }
    let last = line.len() - 1;
    if line[0] != mark {
        return None;
    }
    if line[last] != b'\r' {
        return None;
    }
    let digits = &line[1..last];
    let said = number(digits, limit)?;
    let mut buffer = Buffer::new();
    let text = buffer.format(said);
    if !are_same(text.as_bytes(), digits) {
        return None;
    }
    Some(said)
}

/// The number in decimal at the front of bytes, where it is within the limit: how many digits it has, and the number.
pub(crate) fn digits_in(bytes: &[u8], limit: usize) -> Option<(usize, usize)>
    requires { limit < 2 ^ 32 }
    ensures { IfSome result (λ r. (r.0 ≤ length bytes.now) × (r.1 ≤ limit)
        × (take r.0 bytes.now ≡ decimal r.1)) }
{
    let mut number = 0;
    for (i, byte) in bytes.iter().enumerate() {
        if !byte.is_ascii_digit() {
            return if i > 0 { Some((i, number)) } else { None };
        }
        if i > 0 && number == 0 {
            return None;
        }
        number = number * 10 + (*byte - b'0') as usize;
        if number > limit {
            return None;
        }
    }
    None
}

/// Whether the bytes are the same.
fn are_same(a: &[u8], b: &[u8]) -> bool
    ensures { IsTrue result ↔ (a.now ≡ b.now) }
{
    a == b
}

/// The line without the carriage return at its end.
fn trimmed(line: &[u8]) -> &[u8]
    ensures { result.now ≡ without_return line.now }
{
    if line.is_empty() {
        return line;
    }
    let last = line.len() - 1;
    if line[last] == b'\r' {
        return &line[..last];
    }
    line
}

/// Puts a word behind others, unless it has no bytes.
fn end_word(words: &mut Vec<Vec<u8>>, word: Vec<u8>) -> Result<(), AllocError>
    ensures { OnOk result (words_of words.new.items ≡ words_of words.old.items ++ ended word.items) }
{
    if word.as_slice().is_empty() {
        return Ok(());
    }
    words.push(word)?;
    Ok(())
}

/// Takes a byte of a line: a space ends a word.
fn take_byte(
    alloc: Global,
    words: &mut Vec<Vec<u8>>,
    word: &mut Vec<u8>,
    byte: u8,
) -> Result<(), AllocError>
    ensures { OnOk result ((bytes : List ℕ)
        → words_of words.new.items ++ words_from word.new.items bytes
        ≡ words_of words.old.items ++ words_from word.old.items (byte ∷ bytes)) }
{
    if byte == b' ' {
        end_word(words, replace(word, Vec::new(alloc)))?;
        return Ok(());
    }
    word.push(byte)?;
    Ok(())
}

/// The words of a line, between spaces.
pub(crate) fn words_in(alloc: Global, line: &[u8]) -> Result<Vec<Vec<u8>>, AllocError>
    ensures { IfOk result (λ words. words_of words.items ≡ line_words line.now) }
{
    let text = trimmed(line);
    let mut words = Vec::new(alloc);
    let mut word = Vec::new(alloc);
    for byte in text {
        take_byte(alloc, &mut words, &mut word, *byte)?;
    }
    end_word(&mut words, word)?;
    Ok(words)
}
