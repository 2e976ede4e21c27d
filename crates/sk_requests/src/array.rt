//! A request that is whole, read in one pass.
ghost use Rattle.std.specs.Prelude.{◌≡◌, ◌+◌, ◌<◌, ◌≤◌, ◌^◌, ◌∷◌, true, length, drop, take, IfOk, IfSome};
ghost use Rattle.sk_requests.specs.Lines.{head};
ghost use Rattle.sk_requests.specs.Reading.{words_of};
ghost use Rattle.sk_requests.specs.Request.{bulk, Fits, IsArray};
ghost use Rattle.sk_requests.specs.Whole.{IsNextWord};
ghost use Rattle.sk_requests.specs.declared.limits.Limits.{Limits};

use crate::limits::Limits;
use crate::line::digits_in;
use std::alloc::{AllocError, Global};

/// A request has at most so many words.
pub(crate) const COUNT_LIMIT: usize = (1 << 31) - 1;

/// A word has at most so many bytes.
pub(crate) const LENGTH_LIMIT: usize = 1 << 29;

/// A word takes at least so many bytes, with the line before it and the end of its own.
const LEAST_LEN: usize = 6;

/// The bytes behind so many.
fn behind(bytes: &[u8], count: usize) -> &[u8]
    ensures { result.now ≡ drop count bytes.now }
{
    bytes.get(count..).unwrap_or(&[])
}

/// Whether bytes begin with the end of a line.
pub(crate) fn ends_line(bytes: &[u8]) -> bool
    ensures { result ≡ true → bytes.now ≡ 13 ∷ 10 ∷ drop 2 bytes.now }
{
    if bytes.len() < 2 {
        return false;
    }
    if bytes[0] != b'\r' {
        return false;
    }
    bytes[1] == b'\n'
}

/// The line at the front that says a number behind its mark, where it is whole and the number within the limit: how many bytes
/// it has, and the number.
pub(crate) fn head_in(bytes: &[u8], mark: u8, limit: usize) -> Option<(usize, usize)>
    requires { limit < 2 ^ 32 }
    ensures { IfSome result (λ r. (0 < r.0) × (r.0 ≤ length bytes.now) × (r.1 ≤ limit)
        × (take r.0 bytes.now ≡ head mark r.1)) }
{
    if bytes.len() < 2 {
        return None;
    }
    if bytes[0] != mark {
        return None;
    }
    let digits = behind(bytes, 1);
    let (count, number) = digits_in(digits, limit)?;
    if !ends_line(behind(digits, count)) {
        return None;
    }
    Some((count + 3, number))
}

/// The word at the front, where it is whole and its bytes find room: how many bytes it takes, and the word.
fn word_in(bytes: &[u8], room: usize) -> Option<(usize, &[u8])>
    ensures { IfSome result (λ r. (r.0 ≤ length bytes.now) × (length r.1.now ≤ room)
        × (length r.1.now ≤ 2 ^ 29) × (take r.0 bytes.now ≡ bulk r.1.now)) }
{
    let (at, size) = head_in(bytes, b'$', room.min(LENGTH_LIMIT))?;
    let rest = behind(bytes, at);
    if rest.len() < size {
        return None;
    }
    if !ends_line(behind(rest, size)) {
        return None;
    }
    Some((at + size + 2, &rest[..size]))
}

/// Puts the word at the front of bytes behind others, where it is whole and its bytes find room: how many bytes it takes, and
/// how many of them are the word's.
fn push_word(
    alloc: Global,
    words: &mut Vec<Vec<u8>>,
    bytes: &[u8],
    room: usize,
) -> Result<Option<(usize, usize)>, AllocError>
    ensures { IfOk result (λ r. IfSome r (λ n. IsNextWord (words_of words.old.items)
        (words_of words.new.items) bytes.now room n.0 n.1)) }
{
    let Some((count, word)) = word_in(bytes, room) else {
        return Ok(None);
    };
    let mut kept = Vec::new(alloc);
    kept.extend_from_slice(word)?;
    words.push(kept)?;
    Ok(Some((count, word.len())))
}

/// The request at the front of bytes, where it is whole and within the limits: how many bytes it takes, and its words.
pub(crate) fn array_in(
    alloc: Global,
    limits: Limits,
    bytes: &[u8],
) -> Result<Option<(usize, Vec<Vec<u8>>)>, AllocError>
    ensures { IfOk result (λ r. IfSome r (λ n. (0 < n.0) × (n.0 ≤ length bytes.now)
        × IsArray (words_of n.1.items) (take n.0 bytes.now) × Fits limits (words_of n.1.items))) }
{
    let Some((front, count)) = head_in(bytes, b'*', limits.words.min(COUNT_LIMIT)) else {
        return Ok(None);
    };
    if count > bytes.len() / LEAST_LEN {
        return Ok(None);
    }
    let mut words = Vec::new(alloc);
    words.reserve(count)?;
    let mut at = front;
    let mut room = limits.bytes;
    for _word in 0..count {
        let Some((len, size)) = push_word(alloc, &mut words, behind(bytes, at), room)? else {
            return Ok(None);
        };
        at += len;
        room -= size;
    }
    Ok(Some((at, words)))
}
