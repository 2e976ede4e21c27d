//! The terminals at which waiting texts depend on each guess.
ghost use Rattle.std.specs.Prelude.{◌≡◌, ◌==◌, ◌<◌, ◌&&◌, ◌||◌, ℕ, [], true, false, not, length, OnOk, OnErr, MatchOption};
ghost use Rattle.std.specs.List.{prefix_len};
ghost use Rattle.sk_record.specs.Notes.{has};
ghost use Rattle.sk_terminal.specs.Listing.{is_listed, rests_at, AreTidy, ListsAtMost, NoneListed};

use crate::number_set::NumberSet;
use crate::numbered::Numbered;
use sk_ids::{GuessId, TagSet};
use std::alloc::{AllocError, Global};

/// The terminals at which a waiting text depends on a guess, by rising number, each once.
#[derive(Drop)]
pub(crate) struct Listing {
    guess: GuessId,
    terminals: NumberSet,
}

/// How many lists stand before that of a guess.
fn place_of(lists: &[Listing], guess: GuessId) -> usize
    ensures { result ≡ prefix_len (λ l. not (l.guess == guess)) lists.now }
{
    lists
        .iter()
        .take_while(|list| is_of_another(*list, guess))
        .count()
}

/// As `place_of`, but the list at `hint` is looked at first: the lists of a text's guesses mostly stand one behind the other.
fn place_from(lists: &[Listing], guess: GuessId, hint: usize) -> usize
    requires { AreTidy lists.now }
    ensures { result ≡ prefix_len (λ l. not (l.guess == guess)) lists.now }
{
    match lists.get(hint) {
        Some(list) if list.guess == guess => hint,
        _ => place_of(lists, guess),
    }
}

fn is_of_another(list: &Listing, guess: GuessId) -> bool
    ensures { result ≡ not (list.now.guess == guess) }
{
    list.guess != guess
}

/// Takes out the list of a guess.
pub(crate) fn take_list(lists: &mut Vec<Listing>, guess: GuessId) -> Option<NumberSet>
    requires { AreTidy lists.old.items }
    ensures taken { MatchOption result (NoneListed guess lists.old.items)
        (λ numbers. (t : ℕ) → has t numbers ≡ is_listed guess t lists.old.items) }
    ensures gone { NoneListed guess lists.new.items }
    ensures others { (g t : ℕ) → (guess == g) ≡ false
        → is_listed g t lists.new.items ≡ is_listed g t lists.old.items }
    ensures tidy { AreTidy lists.new.items }
{
    let place = place_of(lists.as_slice(), guess);
    if place >= lists.len() {
        return None;
    }
    Some(lists.remove(place).terminals)
}

/// Lists a terminal, which may be listed, for a guess before whose list `place` others stand. Without memory nothing has changed.
fn add(
    alloc: Global,
    lists: &mut Vec<Listing>,
    guess: GuessId,
    place: usize,
    number: u16,
) -> Result<(), AllocError>
    requires tidy { AreTidy lists.old.items }
    requires place { place ≡ prefix_len (λ l. not (l.guess == guess)) lists.old.items }
    ensures ok { OnOk result
        ((g t : ℕ) → is_listed g t lists.new.items
        ≡ (is_listed g t lists.old.items || ((guess == g) && (number == t)))) }
    ensures err { OnErr result
        ((g t : ℕ) → is_listed g t lists.new.items ≡ is_listed g t lists.old.items) }
    ensures tidy { AreTidy lists.new.items }
{
    if place < lists.len() {
        lists[place].terminals.add(number)?;
        return Ok(());
    }
    let terminals = NumberSet::of(alloc, number)?;
    lists.reserve(1)?;
    lists.push_reserved(Listing { guess, terminals });
    Ok(())
}

/// Lists a terminal for each of the guesses. Without memory it is listed for some of them.
pub(crate) fn list(
    alloc: Global,
    lists: &mut Vec<Listing>,
    tags: &TagSet,
    number: u16,
) -> Result<(), AllocError>
    requires { AreTidy lists.old.items }
    ensures ok { OnOk result
        ((g t : ℕ) → is_listed g t lists.new.items
        ≡ (is_listed g t lists.old.items || (has g tags.now && (number == t)))) }
    ensures err { OnErr result (ListsAtMost number lists.old.items lists.new.items) }
    ensures tidy { AreTidy lists.new.items }
{
    let mut next = 0;
    for guess in tags.ids() {
        let place = place_from(lists.as_slice(), *guess, next);
        add(alloc, lists, *guess, place, number)?;
        next = place + 1;
    }
    Ok(())
}

/// Whether a terminal is listed though none of its texts depends on the guess.
fn is_free(list: &Listing, numbered: &Numbered, number: u16) -> bool
    ensures { result
        ≡ (has number list.now.terminals && not (rests_at list.now.guess numbered.now number)) }
{
    list.terminals.contains(number) && !numbered.rests_on(number, list.guess)
}

/// Takes a terminal out of a list where none of its texts depends on the guess.
fn take_free(list: &mut Listing, numbered: &Numbered, number: u16)
    ensures guess { list.new.guess ≡ list.old.guess }
    ensures left { (t : ℕ) → has t list.new.terminals
        ≡ (has t list.old.terminals
        && (not (number == t) || rests_at list.old.guess numbered.now t)) }
{
    if is_free(list, numbered, number) {
        list.terminals.without(number);
    }
}

/// As `take_free`, and answers whether any terminal is left in the list.
fn refresh(list: &mut Listing, numbered: &Numbered, number: u16) -> bool
    ensures guess { list.new.guess ≡ list.old.guess }
    ensures left { (t : ℕ) → has t list.new.terminals
        ≡ (has t list.old.terminals
        && (not (number == t) || rests_at list.old.guess numbered.now t)) }
    ensures some { result ≡ true → 0 < length list.new.terminals }
    ensures none { result ≡ false → list.new.terminals ≡ [] }
{
    take_free(list, numbered, number);
    !list.terminals.as_slice().is_empty()
}

/// Takes a terminal out of the lists of those guesses on which none of its texts depends. This takes no memory.
pub(crate) fn take_off(lists: &mut Vec<Listing>, numbered: &Numbered, number: u16)
    requires { AreTidy lists.old.items }
    ensures left { (g t : ℕ) → is_listed g t lists.new.items
        ≡ (is_listed g t lists.old.items && (not (number == t) || rests_at g numbered.now t)) }
    ensures tidy { AreTidy lists.new.items }
{
    lists.retain_mut(|list: &mut Listing| refresh(list, numbered, number));
}

/// Takes each of these terminals out as `take_off` does.
pub(crate) fn take_off_all(lists: &mut Vec<Listing>, numbered: &Numbered, numbers: &[u16])
    requires { AreTidy lists.old.items }
    ensures left { (g t : ℕ) → is_listed g t lists.new.items
        ≡ (is_listed g t lists.old.items
        && (not (has t numbers.now) || rests_at g numbered.now t)) }
    ensures tidy { AreTidy lists.new.items }
{
    for number in numbers {
        take_off(lists, numbered, *number);
    }
}
