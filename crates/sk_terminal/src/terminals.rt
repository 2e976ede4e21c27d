//! What was said to each terminal.
ghost use Rattle.std.specs.Prelude.{◌≡◌, ◌↔◌, ℕ, IsTrue, OnOk, OnErr};
ghost use Rattle.std.specs.Option.{option_copied, option_map};
ghost use Rattle.std.specs.FinMap as map;
ghost use Rattle.sk_record.specs.Machine.{lightened, not_dropped};
ghost use Rattle.sk_terminal.specs.Listing.{AreListed, AreTidy, ListsAtMost};
ghost use Rattle.sk_terminal.specs.Terminals.{texts_at, said_to};

use crate::Terminal;
use crate::listing::{Listing, list, take_list, take_off, take_off_all};
use crate::numbered::Numbered;
use sk_ids::{GuessId, TagSet, Text};
use std::alloc::{AllocError, Global};
use std::marker::Model;

/// The terminals that something was said to, by number. A decision looks at those alone at which a text
/// depends on its guess.
#[derive(Drop)]
pub struct Terminals {
    alloc: Global,
    numbered: Numbered,
    lists: Vec<Listing>,
}

impl Model for Terminals {
    ghost use Rattle.sk_terminal.specs.Listing.{AreListed, AreTidy};
    ghost use Rattle.sk_terminal.specs.Terminals.{TerminalMap, terminals_code};

    ghost Value = { TerminalMap };

    ghost coded = { terminals_code };

    ghost view = { λ a. a.numbered };

    ghost invariant = { λ a. AreTidy a.lists.items × AreListed a.numbered a.lists.items };
}

impl PartialEq for Terminals {
    ghost use Rattle.std.specs.Cmp.{decided, partial_equiv_from_equiv};
    ghost use Rattle.sk_terminal.specs.Same.{same_terminals};
    ghost use Rattle.sk_terminal.specs.SameLemma.{exact_terminals};

    ghost eq = { same_terminals };

    ghost laws = { partial_equiv_from_equiv (decided same_terminals exact_terminals) };

    /// True exactly for the same texts at each terminal.
    fn eq(&self, other: &Terminals) -> bool
        ensures computed { result ≡ same_terminals self.now other.now }
        ensures exact { IsTrue result ↔ (self.now ≡ other.now) }
    {
        self.numbered == other.numbered
    }
}

impl Eq for Terminals {
    ghost use Rattle.std.specs.Cmp.{decided};
    ghost use Rattle.sk_terminal.specs.Same.{same_terminals};
    ghost use Rattle.sk_terminal.specs.SameLemma.{exact_terminals};

    ghost laws = { decided same_terminals exact_terminals };
}

impl Terminals {
    /// Nothing said yet.
    pub fn new(alloc: Global) -> Terminals
        ensures { result ≡ map.empty }
    {
        let numbered = Numbered::new(alloc);
        let lists = Vec::new(alloc);
        Terminals {
            alloc,
            numbered,
            lists,
        }
    }

    /// A terminal; `None` where nothing was said to it.
    pub fn get(&self, number: u16) -> Option<&Terminal>
        ensures { option_copied result ≡ map.get self.now number }
    {
        self.numbered.get(number)
    }

    /// Says a text to a terminal. Without memory everything is as it was.
    pub fn say(&mut self, number: u16, text: &Text, tags: TagSet) -> Result<(), AllocError>
        ensures ok { OnOk result (self.new ≡ said_to self.old number (text.now, tags)) }
        ensures err { OnErr result (self.new ≡ self.old) }
    {
        say_or_not(
            self.alloc,
            &mut self.numbered,
            &mut self.lists,
            number,
            text,
            tags,
        )
    }

    /// A guess is committed: no text depends on it any more. This takes no memory.
    pub fn commit(&mut self, id: GuessId)
        ensures terminals { (t : ℕ) → map.get self.new t
            ≡ option_map (lightened id) (map.get self.old t) }
        ensures texts { (t : ℕ) → texts_at self.new t ≡ lightened id (texts_at self.old t) }
    {
        lighten(&mut self.numbered, &mut self.lists, id);
    }

    /// Throws away the texts that depend on a guess. This takes no memory.
    pub fn drop_of(&mut self, id: GuessId)
        ensures terminals { (t : ℕ) → map.get self.new t
            ≡ option_map (not_dropped id) (map.get self.old t) }
        ensures texts { (t : ℕ) → texts_at self.new t ≡ not_dropped id (texts_at self.old t) }
    {
        throw_away(&mut self.numbered, &mut self.lists, id);
    }
}

/// Lists a terminal for the guesses that a text depends on, and says the text to it. Without memory the terminal may be listed
/// for guesses on which no text of it depends.
fn say_listed(
    alloc: Global,
    numbered: &mut Numbered,
    lists: &mut Vec<Listing>,
    number: u16,
    text: &Text,
    tags: TagSet,
) -> Result<(), AllocError>
    requires tidy { AreTidy lists.old.items }
    requires listed { AreListed numbered.old lists.old.items }
    ensures ok { OnOk result (numbered.new ≡ said_to numbered.old number (text.now, tags)) }
    ensures listed { OnOk result (AreListed numbered.new lists.new.items) }
    ensures err { OnErr result (numbered.new ≡ numbered.old) }
    ensures more { OnErr result (ListsAtMost number lists.old.items lists.new.items) }
    ensures tidy { AreTidy lists.new.items }
{
    list(alloc, lists, &tags, number)?;
    numbered.say(number, text, tags)?;
    Ok(())
}

/// As `say_listed`, but without memory the terminal is listed just for the guesses on which a text of it depends.
fn say_or_not(
    alloc: Global,
    numbered: &mut Numbered,
    lists: &mut Vec<Listing>,
    number: u16,
    text: &Text,
    tags: TagSet,
) -> Result<(), AllocError>
    requires tidy { AreTidy lists.old.items }
    requires listed { AreListed numbered.old lists.old.items }
    ensures ok { OnOk result (numbered.new ≡ said_to numbered.old number (text.now, tags)) }
    ensures err { OnErr result (numbered.new ≡ numbered.old) }
    ensures listed { AreListed numbered.new lists.new.items }
    ensures tidy { AreTidy lists.new.items }
{
    match say_listed(alloc, numbered, lists, number, text, tags) {
        Ok(()) => Ok(()),
        Err(error) => {
            take_off(lists, numbered, number);
            Err(error)
        }
    }
}

/// Takes a guess from the texts that depend on it, and its list.
fn lighten(numbered: &mut Numbered, lists: &mut Vec<Listing>, id: GuessId)
    requires tidy { AreTidy lists.old.items }
    requires listed { AreListed numbered.old lists.old.items }
    ensures terminals { (t : ℕ) → map.get numbered.new t
        ≡ option_map (lightened id) (map.get numbered.old t) }
    ensures listed { AreListed numbered.new lists.new.items }
    ensures tidy { AreTidy lists.new.items }
{
    if let Some(numbers) = take_list(lists, id) {
        numbered.commit(numbers.as_slice(), id);
    }
}

/// Throws away the texts that depend on a guess, its list, and from the other lists the terminals at which nothing
/// depends on their guess any more.
fn throw_away(numbered: &mut Numbered, lists: &mut Vec<Listing>, id: GuessId)
    requires tidy { AreTidy lists.old.items }
    requires listed { AreListed numbered.old lists.old.items }
    ensures terminals { (t : ℕ) → map.get numbered.new t
        ≡ option_map (not_dropped id) (map.get numbered.old t) }
    ensures listed { AreListed numbered.new lists.new.items }
    ensures tidy { AreTidy lists.new.items }
{
    if let Some(numbers) = take_list(lists, id) {
        let freed = numbers.as_slice();
        numbered.drop_of(freed, id);
        take_off_all(lists, numbered, freed);
    }
}
