//! The reading of requests, whose bytes come in pieces.
ghost use Rattle.std.specs.Prelude.{◌≡◌, ◌+◌, ◌<◌, ◌≤◌, ◌^◌, ◌++◌, ◌∷◌, ◌↔◌, ◌==◌, if◌then◌else◌, ℕ, List, [], Option, true, length, slice_index, vec_len, vec_capacity, drop, take, Ok, IfSome, IsTrue, OnOk, OnErr};
ghost use Rattle.sk_requests.specs.Lines.{head, TakesLine};
ghost use Rattle.sk_requests.specs.Reading.{has_some, IsBehind, Reads, words_of};
ghost use Rattle.sk_requests.specs.Stream.{EndsWithin, HasRead, ReadsOn};
ghost use Rattle.sk_requests.specs.declared.limits.Limits.{Limits};

use crate::array::{COUNT_LIMIT, LENGTH_LIMIT, array_in, ends_line, head_in};
use crate::fault::{Fault, Refusal};
use crate::limits::Limits;
use crate::line::{line_len, number_in, words_in};
use crate::place::Place;
use std::alloc::{AllocError, Global};
use std::mem::replace;

/// What was found in the bytes that were taken.
#[derive(Drop)]
pub enum Found {
    /// No request is whole yet.
    Part,
    /// A request of these words.
    Request(Vec<Vec<u8>>),
    /// A request beyond the limits, which was passed over.
    TooLarge,
}

/// How many bytes were taken, and what was found in them.
#[derive(Drop)]
pub struct Taken {
    /// How many bytes were taken, from the front.
    pub count: usize,
    /// What was found.
    pub found: Found,
}

/// Reads requests, whose bytes come in pieces of any size.
#[derive(Drop)]
pub struct Reader {
    alloc: Global,
    limits: Limits,
    place: Place,
    /// What came of a line or of a word.
    part: Vec<u8>,
    /// The whole words of the request.
    words: Vec<Vec<u8>>,
    /// Whether the words are within the limits, and kept.
    keeping: bool,
    /// How many bytes more its words may have.
    room: usize,
}

/// The last byte of a request of these words.
fn whole(words: Vec<Vec<u8>>) -> Taken
    ensures { result ≡ record { count = 1; found = Found.Request words } }
{
    Taken {
        count: 1,
        found: Found::Request(words),
    }
}

/// So many bytes, and no request that is whole.
fn part(count: usize) -> Taken
    ensures { result ≡ record { count = count; found = Found.Part } }
{
    Taken {
        count,
        found: Found::Part,
    }
}

impl Reader {
    /// No byte came.
    pub fn new(alloc: Global, limits: Limits) -> Reader
        requires { 16 ≤ limits.line }
        ensures { HasRead limits [] [] result }
    {
        Reader {
            alloc,
            limits,
            place: Place::Front,
            part: Vec::new(alloc),
            words: Vec::new(alloc),
            keeping: true,
            room: 0,
        }
    }

    /// Takes bytes from the front: up to the end of a request, of a line or of a word, or all.
    pub fn take(&mut self, bytes: &[u8]) -> Result<Taken, Refusal>
        ensures { (limits : Limits) (told : List (Option (List (List ℕ)))) (stream : List ℕ)
            → HasRead limits told stream self.old
            → ReadsOn limits told stream bytes.now result self.new }
    {
        self.read(bytes)
    }

    /// Whether what came ends within a request.
    pub fn is_inside(&self) -> bool
        ensures { (limits : Limits) (told : List (Option (List (List ℕ)))) (stream : List ℕ)
            → HasRead limits told stream self.now → EndsWithin limits told stream result }
    {
        self.has_some()
    }

    /// Whether some of a request came: bytes of its line, or what stands behind that.
    fn has_some(&self) -> bool
        ensures { result ≡ has_some self.now.place self.now.part.items }
    {
        match self.place {
            Place::Front => !self.part.as_slice().is_empty(),
            Place::Length(_) | Place::Word(..) | Place::End(_) => true,
        }
    }

    /// Takes a request that is whole in one pass, or bytes of one.
    fn read(&mut self, bytes: &[u8]) -> Result<Taken, Refusal>
        ensures read { (text : List ℕ) → IsBehind text self.old
            → Reads text bytes.now result self.new }
        ensures limits { self.new.limits ≡ self.old.limits }
    {
        if self.has_some() {
            return self.step(bytes);
        }
        match array_in(self.alloc, self.limits, bytes)? {
            Some((count, words)) => Ok(Taken {
                count,
                found: Found::Request(words),
            }),
            None => self.step(bytes),
        }
    }

    /// Takes bytes from the front, where bytes of a request came before.
    fn step(&mut self, bytes: &[u8]) -> Result<Taken, Refusal>
        ensures read { (text : List ℕ) → IsBehind text self.old
            → Reads text bytes.now result self.new }
        ensures limits { self.new.limits ≡ self.old.limits }
    {
        if bytes.is_empty() {
            return Ok(part(0));
        }
        match self.place {
            Place::Front => self.front(bytes),
            Place::Length(left) => self.length(left, bytes),
            Place::Word(left, behind) => self.word(left, behind, bytes),
            Place::End(left) => self.end(left, bytes),
        }
    }

    /// In the first line of a request.
    fn front(&mut self, bytes: &[u8]) -> Result<Taken, Refusal>
        requires place { self.old.place ≡ Place.Front }
        requires some { 0 < length bytes.now }
        ensures read { (text : List ℕ) → IsBehind text self.old → Reads text bytes.now result self.new }
        ensures limits { self.new.limits ≡ self.old.limits }
    {
        let first = bytes[0];
        if first == b'\n' {
            return self.front_end();
        }
        match take_line(&mut self.part, self.limits.line, bytes)? {
            Some(count) => Ok(part(count)),
            None => Err(Refusal::Fault(front_fault(&self.part, first))),
        }
    }

    /// At the end of the first line.
    fn front_end(&mut self) -> Result<Taken, Refusal>
        requires { self.old.place ≡ Place.Front }
        ensures read { (text more : List ℕ) → IsBehind text self.old
            → Reads text (10 ∷ more) result self.new }
        ensures limits { self.new.limits ≡ self.old.limits }
    {
        let first = first_of(&self.part, b'\n');
        if first == b'*' {
            return self.count_end();
        }
        let words = words_in(self.alloc, &self.part)?;
        self.part.clear();
        Ok(whole(words))
    }

    /// At the end of a line that says how many words a request has.
    fn count_end(&mut self) -> Result<Taken, Refusal>
        requires { self.old.place ≡ Place.Front }
        ensures read { (text more : List ℕ) → IsBehind text self.old
            → slice_index (text ++ 10 ∷ []) 0 ≡ 42 → Reads text (10 ∷ more) result self.new }
        ensures limits { self.new.limits ≡ self.old.limits }
    {
        let Some(count) = number_in(&self.part, b'*', COUNT_LIMIT) else {
            return Err(Refusal::Fault(Fault::Count));
        };
        self.part.clear();
        if count == 0 {
            return Ok(whole(Vec::new(self.alloc)));
        }
        self.words.clear();
        self.keeping = is_within(count, self.limits.words);
        self.room = self.limits.bytes;
        self.place = Place::Length(count);
        Ok(part(1))
    }

    /// In the line before a word.
    fn length(&mut self, left: usize, bytes: &[u8]) -> Result<Taken, Refusal>
        requires place { self.old.place ≡ Place.Length left }
        requires some { 0 < length bytes.now }
        ensures read { (text : List ℕ) → IsBehind text self.old → Reads text bytes.now result self.new }
        ensures limits { self.new.limits ≡ self.old.limits }
    {
        let first = bytes[0];
        if first == b'\n' {
            return self.length_end(left);
        }
        if let Some((count, size)) = whole_size(&self.part, bytes) {
            return Ok(self.word_next(left, count, size));
        }
        match take_line(&mut self.part, self.limits.line, bytes)? {
            Some(count) => Ok(part(count)),
            None => Err(Refusal::Fault(length_fault(&self.part, first))),
        }
    }

    /// At the end of the line before a word.
    fn length_end(&mut self, left: usize) -> Result<Taken, Refusal>
        requires { self.old.place ≡ Place.Length left }
        ensures read { (text more : List ℕ) → IsBehind text self.old
            → Reads text (10 ∷ more) result self.new }
        ensures limits { self.new.limits ≡ self.old.limits }
    {
        let Some(size) = number_in(&self.part, b'$', LENGTH_LIMIT) else {
            return Err(Refusal::Fault(length_fault(&self.part, b'\n')));
        };
        Ok(self.word_next(left, 1, size))
    }

    /// Behind so many bytes, with which the line before a word ends that says its size.
    fn word_next(&mut self, left: usize, count: usize, size: usize) -> Taken
        requires place { self.old.place ≡ Place.Length left }
        requires short { size ≤ 2 ^ 29 }
        requires some { 0 < count }
        ensures read { (text bytes : List ℕ) → IsBehind text self.old → count ≤ length bytes
            → self.old.part.items ++ take count bytes ≡ head 36 size
            → Reads text bytes (Ok result) self.new }
        ensures limits { self.new.limits ≡ self.old.limits }
    {
        self.part.clear();
        self.place = Place::Word(left, size);
        if size > self.room {
            self.keeping = false;
            self.words.clear();
            return part(count);
        }
        self.room -= size;
        part(count)
    }

    /// In a word, or at the carriage return behind it.
    fn word(&mut self, left: usize, behind: usize, bytes: &[u8]) -> Result<Taken, Refusal>
        requires place { self.old.place ≡ Place.Word left behind }
        requires some { 0 < length bytes.now }
        ensures read { (text : List ℕ) → IsBehind text self.old → Reads text bytes.now result self.new }
        ensures limits { self.new.limits ≡ self.old.limits }
    {
        if behind == 0 {
            return self.word_end(left, bytes);
        }
        let count = behind.min(bytes.len());
        add(&mut self.part, self.keeping, &bytes[..count])?;
        self.place = Place::Word(left, behind - count);
        Ok(self.word_rest(left, behind - count, count, &bytes[count..]))
    }

    /// Behind so many bytes of a word, at its end or before: what is found with the rest, if that begins with the end of its
    /// line.
    fn word_rest(&mut self, left: usize, behind: usize, count: usize, rest: &[u8]) -> Taken
        requires place { self.old.place ≡ Place.Word left behind }
        requires some { 0 < count }
        requires short { count + length rest.now < 2 ^ 64 }
        ensures read { (text front : List ℕ) → IsBehind (text ++ front) self.old → length front ≡ count
            → Reads text (front ++ rest.now) (Ok result) self.new }
        ensures limits { self.new.limits ≡ self.old.limits }
    {
        if behind > 0 {
            return part(count);
        }
        if !ends_line(rest) {
            return part(count);
        }
        self.place = Place::End(left);
        match self.end(left, &rest[1..]) {
            Ok(taken) => {
                let all = (count + 1).saturating_add(taken.count);
                Taken {
                    count: all,
                    found: taken.found,
                }
            }
            Err(_refusal) => part(count + 1),
        }
    }

    /// At the carriage return behind a word.
    fn word_end(&mut self, left: usize, bytes: &[u8]) -> Result<Taken, Refusal>
        requires place { self.old.place ≡ Place.Word left 0 }
        requires some { 0 < length bytes.now }
        ensures read { (text : List ℕ) → IsBehind text self.old → Reads text bytes.now result self.new }
        ensures limits { self.new.limits ≡ self.old.limits }
    {
        let first = bytes[0];
        if first != b'\r' {
            return Err(Refusal::Fault(Fault::End));
        }
        self.place = Place::End(left);
        Ok(part(1))
    }

    /// At the end of the line behind a word.
    fn end(&mut self, left: usize, bytes: &[u8]) -> Result<Taken, Refusal>
        requires place { self.old.place ≡ Place.End left }
        requires some { 0 < length bytes.now }
        ensures read { (text : List ℕ) → IsBehind text self.old → Reads text bytes.now result self.new }
        ensures limits { self.new.limits ≡ self.old.limits }
    {
        let first = bytes[0];
        if first != b'\n' {
            return Err(Refusal::Fault(Fault::End));
        }
        keep(self.alloc, &mut self.words, &mut self.part, self.keeping)?;
        if left > 1 {
            self.place = Place::Length(left - 1);
            return Ok(part(1));
        }
        self.place = Place::Front;
        if !self.keeping {
            return Ok(Taken {
                count: 1,
                found: Found::TooLarge,
            });
        }
        Ok(whole(replace(&mut self.words, Vec::new(self.alloc))))
    }
}

/// Puts bytes behind others, if they are kept.
fn add(part: &mut Vec<u8>, keeping: bool, bytes: &[u8]) -> Result<(), AllocError>
    ensures ok { OnOk result (keeping ≡ true → part.new.items ≡ part.old.items ++ bytes.now) }
    ensures err { OnErr result (part.new.items ≡ part.old.items) }
{
    if !keeping {
        return Ok(());
    }
    part.extend_from_slice(bytes)?;
    Ok(())
}

/// The line before a word, where it is whole and no part of it came before: how many bytes it has, and the size that it says.
fn whole_size(part: &[u8], bytes: &[u8]) -> Option<(usize, usize)>
    ensures { IfSome result (λ r. (0 < r.0) × (r.0 ≤ length bytes.now) × (r.1 ≤ 2 ^ 29)
        × (part.now ++ take r.0 bytes.now ≡ head 36 r.1)) }
{
    if !part.is_empty() {
        return None;
    }
    head_in(bytes, b'$', LENGTH_LIMIT)
}

/// Whether a number is within a limit.
fn is_within(number: usize, limit: usize) -> bool
    ensures { IsTrue result ↔ (number ≤ limit) }
{
    number <= limit
}

/// Puts a word behind others, if they are kept.
fn keep(
    alloc: Global,
    words: &mut Vec<Vec<u8>>,
    word: &mut Vec<u8>,
    keeping: bool,
) -> Result<(), AllocError>
    ensures none { OnOk result (word.new.items ≡ []) }
    ensures kept { OnOk result (keeping ≡ true
        → words_of words.new.items ≡ words_of words.old.items ++ word.old.items ∷ []) }
    ensures words { OnErr result (words_of words.new.items ≡ words_of words.old.items) }
    ensures word { OnErr result (word.new.items ≡ word.old.items) }
{
    if !keeping {
        word.clear();
        return Ok(());
    }
    words.reserve(1)?;
    push_reserved(words, replace(word, Vec::new(alloc)));
    Ok(())
}

/// Puts a word behind others, into room that is there.
fn push_reserved(words: &mut Vec<Vec<u8>>, word: Vec<u8>)
    requires { vec_len words.old < vec_capacity words.old }
    ensures { words.new.items ≡ words.old.items ++ word ∷ [] }
{
    let _pushed = words.push(word);
}

/// Puts bytes behind a part of a line, up to its end; none where it is too long then.
fn take_line(part: &mut Vec<u8>, limit: usize, bytes: &[u8]) -> Result<Option<usize>, AllocError>
    ensures { TakesLine limit part.old.items bytes.now result part.new.items }
{
    let len = line_len(bytes);
    let room = limit.saturating_sub(part.as_slice().len());
    if len > room {
        return Ok(None);
    }
    part.extend_from_slice(&bytes[..len])?;
    Ok(Some(len))
}

/// The first byte of a line, of which this part came before this byte.
fn first_of(part: &[u8], next: u8) -> u8
    ensures { result ≡ slice_index (part.now ++ next ∷ []) 0 }
{
    match part.first() {
        Some(first) => *first,
        None => next,
    }
}

/// What is wrong with the first line of a request.
fn front_fault(part: &[u8], next: u8) -> Fault
    ensures { result ≡ (if slice_index (part.now ++ next ∷ []) 0 == 42
        then Fault.Count else Fault.Line) }
{
    if first_of(part, next) == b'*' {
        Fault::Count
    } else {
        Fault::Line
    }
}

/// What is wrong with the line before a word.
fn length_fault(part: &[u8], next: u8) -> Fault
    ensures { result ≡ (if slice_index (part.now ++ next ∷ []) 0 == 36
        then Fault.Length else Fault.Mark (slice_index (part.now ++ next ∷ []) 0)) }
{
    let first = first_of(part, next);
    if first == b'$' {
        Fault::Length
    } else {
        Fault::Mark(first)
    }
}
