//! What the words behind the first of a line say.
ghost use Rattle.std.specs.Prelude.{◌≡◌, ◌∷◌, [], Ok, Err, IfSome, MatchResult, false};
ghost use Rattle.sk_words.specs.Words.{is_open};
ghost use Rattle.sk_words.specs.Operands.{NextWord, closed, no_more, none_of, one_of, both, the_two, two_of, three_of};

use crate::{FaultKind, Words, is_open};

/// A value that one word says.
pub trait Operand: Sized + Drop {
    ghost use Rattle.std.specs.Prelude.{◌≡◌, List, ℕ, Result};
    ghost use Rattle.sk_words.specs.declared.fault.FaultKind.{FaultKind};

    ghost said: { List ℕ → Result Self FaultKind };

    /// What a word says, or what is wrong with it.
    fn read(word: &[u8]) -> Result<Self, FaultKind>
        ensures { result ≡ said word.now };
}

/// These words, unless one is a literal without its closing quote.
pub fn closed<'a>(words: &Words<'a>) -> Result<Words<'a>, FaultKind>
    ensures { result ≡ closed words.now }
{
    if words.has_open_literal() {
        return Err(FaultKind::Operand);
    }
    Ok(words.again())
}

/// The next word, where there is one.
pub fn next_word<'a>(words: &mut Words<'a>) -> Result<&'a [u8], FaultKind>
    ensures { NextWord result words.old words.new }
{
    words.next().ok_or(FaultKind::Word)
}

/// Whether no word is left.
pub fn no_more(mut words: Words) -> Result<(), FaultKind>
    ensures { result ≡ no_more words.entry }
{
    match words.next() {
        None => Ok(()),
        Some(_) => Err(FaultKind::Word),
    }
}

/// No word.
#[tactic(auto, unfolding(crate::specs::Operands::none_of))]
pub fn none(words: &Words) -> Result<(), FaultKind>
    ensures { result ≡ none_of words.now }
{
    if words.again().next().is_none() {
        return Ok(());
    }
    no_more(closed(words)?)
}

/// The only one of these words, where it is no open literal; `None` for all other words.
fn only<'a>(words: &Words<'a>) -> Option<&'a [u8]>
    ensures words { IfSome result (λ word. words.now ≡ word.now ∷ []) }
    ensures closed { IfSome result (λ word. is_open word.now ≡ false) }
{
    let mut words = words.again();
    let word = words.next()?;
    if words.next().is_some() || is_open(word) {
        return None;
    }
    Some(word)
}

/// One word.
#[tactic(auto, unfolding(crate::specs::Operands::one_of))]
pub fn one<A: Operand>(words: &Words) -> Result<A, FaultKind>
    ensures { result ≡ one_of A.said words.now }
{
    if let Some(word) = only(words) {
        return A::read(word);
    }
    let mut words = closed(words)?;
    let a = next_word(&mut words)?;
    no_more(words)?;
    A::read(a)
}

/// What two words say, the first before the second.
#[tactic(auto, unfolding(crate::specs::Operands::both))]
fn both<A: Operand, B: Operand>(a: &[u8], b: &[u8]) -> Result<(A, B), FaultKind>
    ensures { result ≡ both A.said B.said a.now b.now }
{
    let a = A::read(a)?;
    let b = B::read(b)?;
    Ok((a, b))
}

/// The two words that are left.
#[tactic(auto, unfolding(crate::specs::Operands::the_two))]
fn the_two<'a>(mut words: Words<'a>) -> Result<(&'a [u8], &'a [u8]), FaultKind>
    ensures { MatchResult result (λ two. the_two words.entry ≡ Ok (two.0.now, two.1.now))
        (λ e. the_two words.entry ≡ Err e) }
{
    let a = next_word(&mut words)?;
    let b = next_word(&mut words)?;
    no_more(words)?;
    Ok((a, b))
}

/// Two words.
#[tactic(auto, unfolding(crate::specs::Operands::two_of))]
pub fn two<A: Operand, B: Operand>(words: &Words) -> Result<(A, B), FaultKind>
    ensures { result ≡ two_of A.said B.said words.now }
{
    let (a, b) = the_two(closed(words)?)?;
    both(a, b)
}

/// Three words.
#[tactic(auto, unfolding(crate::specs::Operands::three_of))]
pub fn three<A: Operand, B: Operand, C: Operand>(words: &Words) -> Result<(A, B, C), FaultKind>
    ensures { result ≡ three_of A.said B.said C.said words.now }
{
    let mut words = closed(words)?;
    let a = next_word(&mut words)?;
    let (b, c) = the_two(words)?;
    let a = A::read(a)?;
    let (b, c) = both(b, c)?;
    Ok((a, b, c))
}
