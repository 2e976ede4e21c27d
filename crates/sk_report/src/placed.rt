//! Words that are put in a line before a place, so that it is made from its end on, without formatting machinery.
ghost use Rattle.std.specs.Prelude.{◌≡◌, ◌≤◌, ◌+◌, ◌∷◌, [], ◌++◌, take, drop, length, decimal, flat_map, true, IfSome};
ghost use Rattle.sk_report.specs.Base.{signed_decimal, spelled, spelled_byte, two_levels, pid_word, object_word};
ghost use Rattle.sk_report.specs.Base.{DIGITS, LEVELS, OBJECT};

use itoa::write_digits;
use sk_ids::{ObjId, Pid};

/// The places of a number's digits, which no number goes past.
pub(crate) const DIGITS: usize = 20;

/// The places of the numbers of a process, of which there are four at most, with what stands before each.
pub(crate) const LEVELS: usize = 84;

/// The places of an object's maker and number, with a colon between.
pub(crate) const OBJECT: usize = 105;

/// Puts bytes in a line from a place on.
#[inline(always)]
fn place(line: &mut [u8], at: usize, bytes: &[u8])
    requires { at + length bytes.now ≤ length line.old }
    ensures { line.new ≡ take at line.old ++ bytes.now ++ drop (at + length bytes.now) line.old }
{
    line[at..at + bytes.len()].copy_from_slice(bytes);
}

/// Puts words in a line, before a place, and returns where they start.
#[inline(always)]
pub(crate) fn put_words(words: &[u8], line: &mut [u8], end: usize) -> usize
    requires { (length words.now ≤ end) × (end ≤ length line.old) }
    ensures line { drop result line.new ≡ words.now ++ drop end line.old }
    ensures start { result + length words.now ≡ end }
    ensures length { length line.new ≡ length line.old }
{
    let start = end - words.len();
    place(line, start, words);
    start
}

/// Puts a number and words behind it in a line, before a place, and returns where they start.
#[inline(always)]
pub(crate) fn put_number(number: u64, words: &[u8], line: &mut [u8], end: usize) -> usize
    requires { (DIGITS + length words.now ≤ end) × (end ≤ length line.old) }
    ensures line { drop result line.new ≡ decimal number ++ words.now ++ drop end line.old }
    ensures start { (result ≤ end) × (end ≤ result + DIGITS + length words.now) }
    ensures length { length line.new ≡ length line.old }
{
    let behind = put_words(words, line, end);
    write_digits(number, line, behind)
}

/// Puts a number that may be negative in a line, before a place, and returns where it starts.
pub(crate) fn put_signed(number: i64, line: &mut [u8], end: usize) -> usize
    requires { (DIGITS + 1 ≤ end) × (end ≤ length line.old) }
    ensures line { drop result line.new ≡ signed_decimal number ++ drop end line.old }
    ensures start { (result ≤ end) × (end ≤ result + DIGITS + 1) }
    ensures length { length line.new ≡ length line.old }
{
    let start = put_number(number.unsigned_abs(), b"", line, end);
    if number < 0 {
        return put_words(b"-", line, start);
    }
    start
}

/// Puts the two last numbers of a path in a line, joined by a dot, before a place, and returns where they start.
#[inline(always)]
fn put_two_levels(path: u64, line: &mut [u8], end: usize) -> usize
    requires { (DIGITS + 1 + DIGITS ≤ end) × (end ≤ length line.old) }
    ensures line { drop result line.new ≡ two_levels path ++ drop end line.old }
    ensures start { (result ≤ end) × (end ≤ result + DIGITS + 1 + DIGITS) }
    ensures length { length line.new ≡ length line.old }
{
    let last = put_number(path % 65_536, b"", line, end);
    put_number(path / 65_536 % 65_536, b".", line, last)
}

/// Puts the numbers of a process in a line, joined by dots, before a place, and returns where they start.
fn put_path(pid: Pid, line: &mut [u8], end: usize) -> usize
    requires { (LEVELS ≤ end) × (end ≤ length line.old) }
    ensures line { drop result line.new ≡ pid_word pid ++ drop end line.old }
    ensures start { (result ≤ end) × (end ≤ result + LEVELS) }
    ensures length { length line.new ≡ length line.old }
{
    let path = pid.path();
    if path < 1 << 16 {
        return put_number(path, b"", line, end);
    }
    let lower = put_two_levels(path, line, end);
    if path < 1 << 32 {
        return lower;
    }
    let upper = path / 4_294_967_296;
    let dot = put_words(b".", line, lower);
    if path < 1 << 48 {
        return put_number(upper, b"", line, dot);
    }
    put_two_levels(upper, line, dot)
}

/// Puts the numbers of a process and words behind them in a line, before a place, and returns where they start.
#[inline(always)]
pub(crate) fn put_pid(pid: Pid, words: &[u8], line: &mut [u8], end: usize) -> usize
    requires { (LEVELS + length words.now ≤ end) × (end ≤ length line.old) }
    ensures line { drop result line.new ≡ pid_word pid ++ words.now ++ drop end line.old }
    ensures start { (result ≤ end) × (end ≤ result + LEVELS + length words.now) }
    ensures length { length line.new ≡ length line.old }
{
    let behind = put_words(words, line, end);
    put_path(pid, line, behind)
}

/// Puts an object in a line, before a place, and returns where it starts.
fn put_id(object: ObjId, line: &mut [u8], end: usize) -> usize
    requires { (OBJECT ≤ end) × (end ≤ length line.old) }
    ensures line { drop result line.new ≡ object_word object ++ drop end line.old }
    ensures start { (result ≤ end) × (end ≤ result + OBJECT) }
    ensures length { length line.new ≡ length line.old }
{
    let count = put_number(u64::from(object.count), b"", line, end);
    match object.maker {
        None => put_words(b"0:", line, count),
        Some(maker) => put_pid(maker, b":", line, count),
    }
}

/// Puts an object and words behind it in a line, before a place, and returns where they start.
#[inline(always)]
pub(crate) fn put_object(object: ObjId, words: &[u8], line: &mut [u8], end: usize) -> usize
    requires { (OBJECT + length words.now ≤ end) × (end ≤ length line.old) }
    ensures line { drop result line.new ≡ object_word object ++ words.now ++ drop end line.old }
    ensures start { (result ≤ end) × (end ≤ result + OBJECT + length words.now) }
    ensures length { length line.new ≡ length line.old }
{
    let behind = put_words(words, line, end);
    put_id(object, line, behind)
}

/// Whether a byte stands for itself in a literal.
#[inline]
fn is_plain(byte: u8) -> bool
    ensures { result ≡ true → spelled_byte byte ≡ byte ∷ [] }
{
    matches!(byte, b' '..=b'~') && byte != b'"' && byte != b'\\'
}

/// Whether each byte stands for itself in a literal. All are looked at, so that many are at a time.
fn are_plain(bytes: &[u8]) -> bool
    ensures { result ≡ true → flat_map spelled_byte bytes.now ≡ bytes.now }
{
    let mut odd = false;
    for byte in bytes {
        odd |= !is_plain(*byte);
    }
    !odd
}

/// Puts bytes as a literal, and words behind it, in a line before a place, and returns where they start; `None` where a byte
/// does not stand for itself.
pub(crate) fn put_literal(bytes: &[u8], words: &[u8], line: &mut [u8], end: usize) -> Option<usize>
    requires { (length bytes.now + 2 + length words.now ≤ end) × (end ≤ length line.old) }
    ensures line { IfSome result (λ start.
        drop start line.new ≡ spelled bytes.now ++ words.now ++ drop end line.old) }
    ensures start { IfSome result (λ start.
        start + length bytes.now + 2 + length words.now ≡ end) }
    ensures length { length line.new ≡ length line.old }
{
    if !are_plain(bytes) {
        return None;
    }
    let start = put_words(words, line, end);
    let start = put_words(b"\"", line, start);
    let start = put_words(bytes, line, start);
    Some(put_words(b"\"", line, start))
}
