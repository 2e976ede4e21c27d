//! The texts released to each terminal, where nothing more is said.
ghost use Rattle.std.specs.Prelude.{◌≡◌};
ghost use Rattle.sk_terminal.specs.Terminals.{released_at};

use crate::Terminals;
use sk_ids::Text;
use std::marker::Model;

/// For each terminal its released texts.
#[derive(Drop)]
pub struct Texts {
    terminals: Terminals,
}

impl Model for Texts {
    ghost use Rattle.sk_terminal.specs.Terminals.{TerminalMap, terminals_code};

    ghost Value = { TerminalMap };

    ghost coded = { terminals_code };

    ghost view = { λ a. a.terminals };
}

impl Texts {
    /// What terminals have released.
    pub fn new(terminals: Terminals) -> Texts
        ensures { result ≡ terminals }
    {
        Texts { terminals }
    }

    /// The texts of a terminal, in the order in which they were said; none where it has none. This takes
    /// no memory.
    pub fn of(&self, number: u16) -> &[Text]
        ensures { result.now ≡ released_at self.now number }
    {
        match self.terminals.get(number) {
            Some(terminal) => terminal.released(),
            None => &[],
        }
    }
}
