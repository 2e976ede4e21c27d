//! What happens in a kernel: steps, guesses and their decisions.
ghost use Rattle.std.specs.Prelude.{◌≡◌};
ghost use Rattle.sk_trace.specs.Event.{entry_of, IsEvent};

use crate::KeptInput;
use sk_ids::{GuessId, Pid};
use sk_script::Input;
use std::marker::Model;

/// A step that was taken: by which process, with which input, and the guess that it made, if any.
#[derive(Clone, Copy, Debug, PartialEq, Eq)]
pub struct Entry {
    pub pid: Pid,
    pub input: Input,
    pub guess: Option<GuessId>,
}

impl Model for Entry {
    ghost use Rattle.sk_trace.specs.Entry.{EntryView};

    ghost Value = { EntryView };

    ghost view = { λ e. record { pid = e.pid; input = e.input; guess = e.guess } };

    ghost inverse = { λ e. record { pid = e.pid; input = e.input; guess = e.guess } };
}

/// Something that happened in a kernel, in a few words.
#[derive(Debug, PartialEq, Eq, Drop)]
pub enum Event {
    /// A step that made no guess.
    Step {
        pid: Pid,
        input: KeptInput,
    },
    /// A step that made this guess.
    Guess {
        id: GuessId,
        pid: Pid,
        input: KeptInput,
    },
    Commit(GuessId),
    Fail(GuessId),
}

impl Event {
    /// The entry of a step; `None` for a decision.
    pub fn entry(&self) -> Option<Entry>
        ensures { result ≡ entry_of self.now }
    {
        match self {
            Event::Step { pid, input } => Some(Entry {
                pid: *pid,
                input: input.input(),
                guess: None,
            }),
            Event::Guess { id, pid, input } => Some(Entry {
                pid: *pid,
                input: input.input(),
                guess: Some(*id),
            }),
            Event::Commit(_) | Event::Fail(_) => None,
        }
    }

    /// What holds of every event, for proofs.
    pub fn known(&self)
        ensures { IsEvent self.now }
    {
        match self {
            Event::Step { pid, input } => {
                pid.path();
                input.known();
            }
            Event::Guess { id, pid, input } => {
                id.number();
                pid.path();
                input.known();
            }
            Event::Commit(id) | Event::Fail(id) => {
                id.number();
            }
        }
    }
}
