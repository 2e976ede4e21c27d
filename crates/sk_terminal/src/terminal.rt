//! The texts said to one terminal.
ghost use Rattle.std.specs.Prelude.{◌≡◌, ◌+◌, ◌≤◌, ◌++◌, ◌∷◌, ◌↔◌, IsTrue, [], ℕ, true, false, not, length, map, take, drop, OnOk, OnErr};
ghost use Rattle.std.specs.Vec.{vec_capacity};
ghost use Rattle.std.specs.List.{prefix_len, list_all, list_any, filter};
ghost use Rattle.sk_record.specs.Notes.{has};
ghost use Rattle.sk_terminal.specs.Held.{texts_of, AreBounded};
ghost use Rattle.sk_record.specs.Machine.{released, lightened, not_dropped};
ghost use Rattle.sk_terminal.specs.Terminal.{any_rests, is_clear, clear, waiting_of};
ghost use Rattle.sk_terminal.specs.Same.{same_texts};

use crate::buffered_text::BufferedText;
use sk_ids::{GuessId, TagSet, Text};
use std::alloc::{AllocError, Global};
use std::marker::Model;

/// The texts said and not thrown away, in order. Those before the first that depends on a guess are
/// released. All calls but `say` take no memory.
#[derive(Drop)]
pub struct Terminal {
    out: Vec<Text>,
    waiting: Vec<Held>,
    /// At least each guess that a text depended on.
    newest: u64,
}

/// A text that waits.
#[derive(Drop)]
pub(crate) struct Held {
    said: BufferedText,
    /// At least each guess that this text or one before it depends on.
    newest: u64,
}

/// What was said, whatever the number.
impl PartialEq for Held {
    ghost use Rattle.std.specs.Cmp.{decided, on_equiv, partial_equiv_from_equiv};
    ghost use Rattle.sk_terminal.specs.Same.{same_said};
    ghost use Rattle.sk_terminal.specs.SameLemma.{exact_said};

    ghost eq = { λ a b. same_said a.said b.said };

    ghost laws = { partial_equiv_from_equiv
        (on_equiv (λ h. h.said) (decided same_said exact_said)) };

    fn eq(&self, other: &Held) -> bool {
        self.said == other.said
    }
}

impl Model for Terminal {
    ghost use Rattle.std.specs.Prelude.{◌++◌, List, length, map};
    ghost use Rattle.std.specs.Vec.{vec_capacity};
    ghost use Rattle.sk_terminal.specs.Terminal.{TaggedText, clear};
    ghost use Rattle.sk_terminal.specs.Held.{texts_of};
    ghost use Rattle.sk_terminal.specs.TerminalInvariant.{IsTidyTerminal};

    ghost Value = { List TaggedText };

    ghost view = { λ a. map clear a.out.items ++ texts_of a.waiting.items };

    ghost invariant = { λ a. IsTidyTerminal (length a.out.items) (vec_capacity a.out)
        a.waiting.items a.newest };
}

impl PartialEq for Terminal {
    ghost use Rattle.std.specs.Cmp.{decided, partial_equiv_from_equiv};
    ghost use Rattle.sk_terminal.specs.Same.{same_texts};
    ghost use Rattle.sk_terminal.specs.SameLemma.{exact_texts};

    ghost eq = { same_texts };

    ghost laws = { partial_equiv_from_equiv (decided same_texts exact_texts) };

    /// True exactly for the same texts, each with the same guesses.
    fn eq(&self, other: &Terminal) -> bool
        ensures computed { result ≡ same_texts self.now other.now }
        ensures exact { IsTrue result ↔ (self.now ≡ other.now) }
    {
        let released = self.out.as_slice() == other.out.as_slice();
        released && same_waiting(self.waiting.as_slice(), other.waiting.as_slice())
    }
}

impl Eq for Terminal {
    ghost use Rattle.std.specs.Cmp.{decided};
    ghost use Rattle.sk_terminal.specs.Same.{same_texts};
    ghost use Rattle.sk_terminal.specs.SameLemma.{exact_texts};

    ghost laws = { decided same_texts exact_texts };
}

impl Terminal {
    /// No text said yet.
    pub fn new(alloc: Global) -> Terminal
        ensures { result ≡ [] }
    {
        Terminal {
            out: Vec::new(alloc),
            waiting: Vec::new(alloc),
            newest: 0,
        }
    }

    /// Says a text that depends on these undecided guesses. Without memory everything is as it was.
    pub fn say(&mut self, text: Text, tags: TagSet) -> Result<(), AllocError>
        ensures said { OnOk result (self.new ≡ self.old ++ (text, tags) ∷ []) }
        ensures refused { OnErr result (self.new ≡ self.old) }
    {
        self.say_lent(&text, tags)
    }

    /// As `say`, of a text that is lent: one that goes out at once is copied to those that are out, and nowhere else.
    pub(crate) fn say_lent(&mut self, text: &Text, tags: TagSet) -> Result<(), AllocError>
        ensures said { OnOk result (self.new ≡ self.old ++ (text.now, tags) ∷ []) }
        ensures refused { OnErr result (self.new ≡ self.old) }
    {
        if self.waiting.is_empty() && tags.ids().is_empty() {
            self.out.reserve(1)?;
            self.out.push_reserved(*text);
            return Ok(());
        }
        self.out.reserve(self.waiting.len() + 1)?;
        let newest = newest_of(self.newest, &tags);
        let said = BufferedText::new(*text, tags);
        self.waiting.push(Held { said, newest })?;
        self.newest = newest;
        release(&mut self.out, &mut self.waiting);
        Ok(())
    }

    /// A guess is committed: no text depends on it any more. This looks at the texts said since it was drawn.
    pub fn commit(&mut self, id: GuessId)
        ensures { self.new ≡ lightened id self.old }
    {
        take_out(&mut self.waiting, id);
        release(&mut self.out, &mut self.waiting);
    }

    /// Throws away the texts that depend on a guess.
    pub fn drop_of(&mut self, id: GuessId)
        ensures { self.new ≡ not_dropped id self.old }
    {
        throw_away(&mut self.waiting, id);
        release(&mut self.out, &mut self.waiting);
    }

    /// Whether a text depends on a guess. This looks back to the texts said before the guess was drawn.
    pub(crate) fn rests_on(&self, id: GuessId) -> bool
        ensures { result ≡ any_rests id self.now }
    {
        any_rest_on(self.waiting.as_slice(), id)
    }

    /// The texts released, in the order in which they were said.
    pub fn released(&self) -> &[Text]
        ensures { result.now ≡ released self.now }
    {
        self.out.as_slice()
    }

    /// How many texts wait.
    pub fn waiting(&self) -> usize
        ensures { result ≡ waiting_of self.now }
    {
        self.waiting.len()
    }
}

/// Whether the same texts wait.
fn same_waiting(texts: &[Held], others: &[Held]) -> bool
    ensures { result ≡ same_texts (texts_of texts.now) (texts_of others.now) }
{
    texts == others
}

/// The greatest of a number and the guesses of a set.
fn newest_of(newest: u64, tags: &TagSet) -> u64
    ensures above { newest ≤ result }
    ensures tags { (g : ℕ) → has g tags.now ≡ true → g ≤ result }
{
    let mut greatest = newest;
    for id in tags.ids() {
        greatest = greatest.max(id.number());
    }
    greatest
}

/// Releases the texts before the first that depends on a guess, into room that is there.
fn release(out: &mut Vec<Text>, waiting: &mut Vec<Held>)
    requires { length out.old.items + length waiting.old.items ≤ vec_capacity out.old }
    ensures texts { map clear out.new.items ++ texts_of waiting.new.items
        ≡ map clear out.old.items ++ texts_of waiting.old.items }
    ensures held { released (texts_of waiting.new.items) ≡ [] }
    ensures room { length out.new.items + length waiting.new.items ≤ vec_capacity out.new }
    ensures bounds { (high : ℕ) → AreBounded 0 waiting.old.items high
        → AreBounded 0 waiting.new.items high }
{
    let count = clear_count(waiting.as_slice());
    if count > 0 {
        append(out, &waiting[..count]);
        drop_front(waiting, count);
    }
}

/// How many texts stand before the first that depends on a guess.
fn clear_count(texts: &[Held]) -> usize
    ensures { result ≡ prefix_len (λ h. is_clear h.said) texts.now }
{
    texts.iter().take_while(|held| is_clear_text(*held)).count()
}

fn is_clear_text(held: &Held) -> bool
    ensures { result ≡ is_clear held.now.said }
{
    held.said.is_clear()
}

/// Appends the texts, into room that is there.
fn append(out: &mut Vec<Text>, texts: &[Held])
    requires { length out.old.items + length texts.now ≤ vec_capacity out.old }
    ensures texts { out.new.items ≡ out.old.items ++ map (λ h. h.said.0) texts.now }
    ensures room { vec_capacity out.new ≡ vec_capacity out.old }
{
    for held in texts {
        out.push_reserved(held.said.text());
    }
}

/// Drops the first texts.
fn drop_front(texts: &mut Vec<Held>, count: usize)
    requires { count ≤ length texts.old.items }
    ensures { texts.new.items ≡ drop count texts.old.items }
{
    texts.drain(..count);
}

/// Whether one of the texts depends on a guess.
fn any_rest_on(texts: &[Held], id: GuessId) -> bool
    ensures { (high : ℕ) → AreBounded 0 texts.now high
        → result ≡ list_any (λ h. has id h.said.1) texts.now }
{
    let mut place = texts.len();
    while place > 0 && texts[place - 1].newest >= id.number() {
        place -= 1;
        if texts[place].said.rests_on(id) {
            return true;
        }
    }
    false
}

/// Takes a guess from the texts that may depend on it.
fn take_out(texts: &mut Vec<Held>, id: GuessId)
    ensures texts { (high : ℕ) → AreBounded 0 texts.old.items high
        → texts_of texts.new.items ≡ lightened id (texts_of texts.old.items) }
    ensures bounds { (high : ℕ) → AreBounded 0 texts.old.items high
        → AreBounded 0 texts.new.items high }
    ensures as_many { length texts.new.items ≡ length texts.old.items }
{
    let mut before = texts.as_slice().len();
    while before > 0 && texts[before - 1].newest >= id.number() {
        before -= 1;
        texts[before].said.without(id);
    }
}

/// Where the texts begin that stand last and depend on a guess.
fn resting_from(texts: &[Held], id: GuessId) -> usize
    ensures within { result ≤ length texts.now }
    ensures rest { list_all (λ h. has id h.said.1) (drop result texts.now) ≡ true }
{
    let mut from = texts.len();
    while from > 0 && texts[from - 1].said.rests_on(id) {
        from -= 1;
    }
    from
}

/// Whether a text before this place may depend on a guess.
fn may_rest_before(texts: &[Held], place: usize, id: GuessId) -> bool
    requires { place ≤ length texts.now }
    ensures { (high : ℕ) → AreBounded 0 texts.now high → result ≡ false
        → list_any (λ h. has id h.said.1) (take place texts.now) ≡ false }
{
    if place == 0 {
        return false;
    }
    if texts[place - 1].newest < id.number() {
        return false;
    }
    true
}

/// Throws away the texts that depend on a guess. Those that stand last go at once, without a look at those
/// that were said before it was drawn.
fn throw_away(texts: &mut Vec<Held>, id: GuessId)
    ensures texts { (high : ℕ) → AreBounded 0 texts.old.items high
        → texts_of texts.new.items ≡ not_dropped id (texts_of texts.old.items) }
    ensures bounds { (high : ℕ) → AreBounded 0 texts.old.items high
        → AreBounded 0 texts.new.items high }
    ensures fewer { length texts.new.items ≤ length texts.old.items }
{
    let from = resting_from(texts.as_slice(), id);
    if may_rest_before(texts.as_slice(), from, id) {
        drop_resting(texts, id);
        return;
    }
    texts.truncate(from);
}

/// Drops the texts that depend on a guess, one by one.
fn drop_resting(texts: &mut Vec<Held>, id: GuessId)
    ensures texts { texts.new.items ≡ filter (λ h. not (has id h.said.1)) texts.old.items }
    ensures fewer { length texts.new.items ≤ length texts.old.items }
{
    texts.retain(|held| !held.said.rests_on(id));
}
