//! The terminals by number.
ghost use Rattle.std.specs.Prelude.{◌≡◌, ◌==◌, ℕ, OnOk, OnErr, if◌then◌else◌};
ghost use Rattle.std.specs.Option.{option_copied, option_map};
ghost use Rattle.std.specs.FinMap as map;
ghost use Rattle.sk_record.specs.Machine.{lightened, not_dropped};
ghost use Rattle.sk_record.specs.Notes.{has};
ghost use Rattle.sk_terminal.specs.Terminals.{said_to};
ghost use Rattle.sk_terminal.specs.Listing.{rests_at};

use crate::Terminal;
use sk_ids::{GuessId, TagSet, Text};
use sk_map::Map;
use std::alloc::{AllocError, Global};
use std::marker::Model;

/// The terminals that something was said to, by number.
#[derive(Drop)]
pub(crate) struct Numbered {
    terminals: Map<u16, Terminal>,
}

impl Model for Numbered {
    ghost use Rattle.std.specs.Ordering.{nat_cmp};
    ghost use Rattle.sk_map.specs.Seen.{seen};
    ghost use Rattle.sk_terminal.specs.Terminals.{TerminalMap, terminals_code};

    ghost Value = { TerminalMap };

    ghost coded = { terminals_code };

    ghost view = { λ a. seen nat_cmp a.terminals };
}

impl PartialEq for Numbered {
    ghost use Rattle.std.specs.Cmp.{decided, partial_equiv_from_equiv};
    ghost use Rattle.sk_terminal.specs.Same.{same_terminals};
    ghost use Rattle.sk_terminal.specs.SameLemma.{exact_terminals};

    ghost eq = { same_terminals };

    ghost laws = { partial_equiv_from_equiv (decided same_terminals exact_terminals) };

    fn eq(&self, other: &Numbered) -> bool {
        self.terminals == other.terminals
    }
}

impl Numbered {
    /// Nothing said yet.
    pub(crate) fn new(alloc: Global) -> Numbered
        ensures { result ≡ map.empty }
    {
        Numbered {
            terminals: Map::new(alloc),
        }
    }

    /// A terminal; `None` where nothing was said to it.
    pub(crate) fn get(&self, number: u16) -> Option<&Terminal>
        ensures { option_copied result ≡ map.get self.now number }
    {
        self.terminals.get(&number)
    }

    /// Says a text to a terminal. Without memory everything is as it was.
    pub(crate) fn say(&mut self, number: u16, text: &Text, tags: TagSet) -> Result<(), AllocError>
        ensures ok { OnOk result (self.new ≡ said_to self.old number (text.now, tags)) }
        ensures err { OnErr result (self.new ≡ self.old) }
    {
        if let Some(terminal) = self.terminals.get_mut(&number) {
            return terminal.say_lent(text, tags);
        }
        let mut terminal = Terminal::new(self.terminals.alloc());
        terminal.say_lent(text, tags)?;
        self.terminals.put(number, terminal)
    }

    /// Whether a text of a terminal depends on a guess.
    pub(crate) fn rests_on(&self, number: u16, id: GuessId) -> bool
        ensures { result ≡ rests_at id self.now number }
    {
        match self.get(number) {
            Some(terminal) => terminal.rests_on(id),
            None => false,
        }
    }

    /// A guess is committed at one terminal.
    fn commit_at(&mut self, number: u16, id: GuessId)
        ensures { (t : ℕ) → map.get self.new t
            ≡ (if number == t then option_map (lightened id) (map.get self.old t) else map.get
            self.old t) }
    {
        if let Some(terminal) = self.terminals.get_mut(&number) {
            terminal.commit(id);
        }
    }

    /// A guess is committed at these terminals. This takes no memory.
    pub(crate) fn commit(&mut self, numbers: &[u16], id: GuessId)
        ensures { (t : ℕ) → map.get self.new t
            ≡ (if has t numbers.now then option_map (lightened id) (map.get self.old t) else
            map.get self.old t) }
    {
        for number in numbers {
            self.commit_at(*number, id);
        }
    }

    /// Throws away the texts of one terminal that depend on a guess.
    fn drop_at(&mut self, number: u16, id: GuessId)
        ensures { (t : ℕ) → map.get self.new t
            ≡ (if number == t then option_map (not_dropped id) (map.get self.old t) else map.get
            self.old t) }
    {
        if let Some(terminal) = self.terminals.get_mut(&number) {
            terminal.drop_of(id);
        }
    }

    /// Throws away the texts of these terminals that depend on a guess. This takes no memory.
    pub(crate) fn drop_of(&mut self, numbers: &[u16], id: GuessId)
        ensures { (t : ℕ) → map.get self.new t
            ≡ (if has t numbers.now then option_map (not_dropped id) (map.get self.old t) else
            map.get self.old t) }
    {
        for number in numbers {
            self.drop_at(*number, id);
        }
    }
}
