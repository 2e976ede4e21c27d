//! Values that one word says.
ghost use Rattle.std.specs.Prelude.{◌≡◌, ◌≤◌, ◌<◌, ◌^◌, pos, Ok, IfSome};
ghost use Rattle.std.specs.List.{list_all};
ghost use Rattle.sk_words.specs.Operands.{integer, is_label_byte, between, index, child, pid, SaysSome};

use crate::text::cut;
use crate::{FaultKind, Operand};
use sk_ids::{GuessId, Name, Pid};
use std::marker::Model;

impl Operand for i64 {
    ghost use Rattle.sk_words.specs.Operands.{integer};

    ghost said = { integer };

    fn read(word: &[u8]) -> Result<i64, FaultKind> {
        integer(word).ok_or(FaultKind::Operand)
    }
}

/// The number that a word of few digits says, which is found without `parse`; `None` for every other word.
fn few_digits(word: &[u8]) -> Option<u64>
    ensures { IfSome result (λ n. (integer word.now ≡ Ok (pos n)) × (n < 2 ^ 63)) }
{
    let [_, ..] = word else {
        return None;
    };
    if let [digit @ b'0'..=b'9'] = word {
        return Some(u64::from(*digit - b'0'));
    }
    let mut number = 0;
    let mut rest = word;
    while let [digit, tail @ ..] = rest {
        if number > 99_999_999 || !digit.is_ascii_digit() {
            return None;
        }
        number = number * 10 + u64::from(*digit - b'0');
        rest = tail;
    }
    Some(number)
}

fn integer(word: &[u8]) -> Option<i64>
    ensures { SaysSome result (integer word.now) }
{
    match few_digits(word) {
        Some(number) => Some(number as i64),
        None => parsed_integer(word),
    }
}

/// What `parse` reads.
#[inline(never)]
fn parsed_integer(word: &[u8]) -> Option<i64>
    ensures { SaysSome result (integer word.now) }
{
    let Ok(text) = str::from_utf8(word) else {
        return None;
    };
    if word.starts_with(b"+") {
        return None;
    }
    text.parse().ok()
}

/// A number from 0 to 2^63 - 1.
#[derive(Clone, Copy, Debug, PartialEq, Eq)]
pub struct Natural(u64);

impl Model for Natural {
    ghost use Rattle.std.specs.Prelude.{ℕ, ◌≤◌};

    ghost Value = { ℕ };

    ghost view = { λ n. n.0 };

    ghost invariant = { λ n. n.0 ≤ 9223372036854775807 };

    ghost inverse = { λ n. record { 0 = n } };
}

impl Natural {
    /// The number, 0 to 2^63 - 1.
    pub fn get(self) -> u64
        ensures value { result ≡ self }
        ensures limit { result ≤ 9223372036854775807 }
    {
        self.0
    }
}

impl Operand for Natural {
    ghost use Rattle.sk_words.specs.Operands.{natural};

    ghost said = { natural };

    fn read(word: &[u8]) -> Result<Natural, FaultKind> {
        let number: i64 = Operand::read(word)?;
        if number < 0 {
            return Err(FaultKind::Operand);
        }
        Ok(Natural(number as u64))
    }
}

impl Operand for GuessId {
    ghost use Rattle.sk_words.specs.Operands.{positive};

    ghost said = { positive };

    fn read(word: &[u8]) -> Result<GuessId, FaultKind> {
        let number: i64 = Operand::read(word)?;
        if number < 1 {
            return Err(FaultKind::Operand);
        }
        GuessId::new(number as u64).ok_or(FaultKind::Operand)
    }
}

/// A number from 1 to 65,535.
#[derive(Clone, Copy, Debug, PartialEq, Eq)]
pub struct Index(u16);

impl Model for Index {
    ghost use Rattle.std.specs.Prelude.{ℕ, ◌≤◌};

    ghost Value = { ℕ };

    ghost view = { λ n. n.0 };

    ghost invariant = { λ n. 1 ≤ n.0 };

    ghost inverse = { λ n. record { 0 = n } };
}

impl Index {
    /// The number, 1 to 65,535.
    pub fn get(self) -> u16
        ensures value { result ≡ self }
        ensures least { 1 ≤ result }
    {
        self.0
    }
}

impl Operand for Index {
    ghost use Rattle.sk_words.specs.Operands.{index};

    ghost said = { index };

    fn read(word: &[u8]) -> Result<Index, FaultKind> {
        let number: i64 = Operand::read(word)?;
        if number < 1 || number > 65_535 {
            return Err(FaultKind::Operand);
        }
        Ok(Index(number as u16))
    }
}

impl Operand for u32 {
    ghost use Rattle.sk_words.specs.Operands.{short};

    ghost said = { short };

    fn read(word: &[u8]) -> Result<u32, FaultKind> {
        let number: i64 = Operand::read(word)?;
        if number < 0 || number > 4_294_967_295 {
            return Err(FaultKind::Operand);
        }
        Ok(number as u32)
    }
}

impl Operand for Name {
    ghost use Rattle.sk_words.specs.Operands.{name};

    ghost said = { name };

    fn read(word: &[u8]) -> Result<Name, FaultKind> {
        Name::new(word).ok_or(FaultKind::Operand)
    }
}

/// A label: 1 to 32 letters, digits and `_`, which contracts see as its bytes.
#[derive(Clone, Copy, Debug, PartialEq, Eq)]
pub struct Label {
    name: Name,
}

impl Model for Label {
    ghost use Rattle.std.specs.Prelude.{List, ℕ};

    ghost Value = { List ℕ };

    ghost view = { λ l. l.name };

    ghost inverse = { λ bytes. record { name = bytes } };
}

fn is_label_byte(byte: u8) -> bool
    ensures { result ≡ is_label_byte byte }
{
    matches!(byte, b'0'..=b'9' | b'A'..=b'Z' | b'a'..=b'z' | b'_')
}

fn is_label_text(word: &[u8]) -> bool
    ensures { result ≡ list_all is_label_byte word.now }
{
    word.iter().all(|byte| is_label_byte(*byte))
}

impl Operand for Label {
    ghost use Rattle.sk_words.specs.Operands.{label};

    ghost said = { label };

    fn read(word: &[u8]) -> Result<Label, FaultKind> {
        if !is_label_text(word) {
            return Err(FaultKind::Operand);
        }
        let name = Operand::read(word)?;
        Ok(Label { name })
    }
}

/// The child of a process whose number a word says.
fn child(parent: Pid, word: &[u8]) -> Result<Pid, FaultKind>
    ensures { result ≡ child parent word.now }
{
    let number: Index = Operand::read(word)?;
    parent.child(number.get()).ok_or(FaultKind::Operand)
}

/// The number that a word of one digit says; `None` for every other word.
#[inline(always)]
fn one_digit(word: &[u8]) -> Option<u16>
    ensures { IfSome result (λ n. (index word.now ≡ between 1 65535 (pos n)) × (n < 10)) }
{
    match word {
        [digit @ b'0'..=b'9'] => Some(u16::from(*digit - b'0')),
        _ => None,
    }
}

/// The boot process whose number a word says.
#[inline(always)]
fn boot(word: &[u8]) -> Result<Pid, FaultKind>
    ensures { result ≡ index word.now }
{
    if let Some(number) = one_digit(word) {
        return Pid::boot(number).ok_or(FaultKind::Operand);
    }
    let number: Index = Operand::read(word)?;
    Pid::boot(number.get()).ok_or(FaultKind::Operand)
}

impl Operand for Pid {
    ghost use Rattle.sk_words.specs.Operands.{pid};

    ghost said = { pid };

    #[inline(always)]
    fn read(word: &[u8]) -> Result<Pid, FaultKind> {
        if let [b'0'..=b'9'] = word {
            return boot(word);
        }
        path(word)
    }
}

/// The process whose numbers, joined by dots, a word says.
fn path(word: &[u8]) -> Result<Pid, FaultKind>
    ensures { result ≡ pid word.now }
{
    let Some((first, mut rest)) = cut(word, b'.') else {
        return boot(word);
    };
    let mut pid = boot(first)?;
    while let Some((number, others)) = cut(rest, b'.') {
        pid = child(pid, number)?;
        rest = others;
    }
    child(pid, rest)
}
