//! What a command says to its channel.
ghost use Rattle.std.specs.Prelude.{◌≡◌};

use sk_commands::Answer;
use std::marker::Model;

/// What a command says to its channel: the answer, with the ticket that the command came with.
#[derive(Drop)]
pub struct Told {
    pub(crate) ticket: u64,
    pub(crate) answer: Answer,
}

impl Model for Told {
    ghost use Rattle.std.specs.Prelude.{ℕ};
    ghost use Rattle.std.specs.Coded.{coded×, coded_ℕ};
    ghost use Rattle.sk_commands.specs.declared.work.Answer.{Answer};
    ghost use Rattle.sk_commands.specs.contracts.work.Answer as answer_row;

    ghost Value = { ℕ × Answer };

    ghost coded = { coded× coded_ℕ answer_row.the_row.coded };

    ghost view = { λ t. (t.ticket, t.answer) };
}

impl Told {
    /// This answer, for this ticket.
    pub fn new(ticket: u64, answer: Answer) -> Told
        ensures ticket { result.0 ≡ ticket }
        ensures answer { result.1 ≡ answer }
    {
        Told { ticket, answer }
    }

    pub fn ticket(&self) -> u64
        ensures { result ≡ self.now.0 }
    {
        self.ticket
    }

    pub fn answer(&self) -> &Answer
        ensures { result.now ≡ self.now.1 }
    {
        &self.answer
    }
}
