//! What a line of a section is told.
ghost use Rattle.std.specs.Prelude.{Some};
ghost use Rattle.sk_talk.specs.Lines.{line_text};

use sk_play::{CallAnswer, WorldTold};
use sk_words::FaultKind;
use std::fmt;

/// What a line is told.
#[derive(Clone, Copy)]
pub enum LineTold {
    /// What the kernel answers to a step.
    Answered(CallAnswer),
    /// What is told of an event of a world.
    Happened(WorldTold),
    /// The line says nothing.
    Nothing,
    /// What is wrong with the line, or want of memory.
    Fault(FaultKind),
}

impl fmt::Display for LineTold {
    ghost output = { λ told. Some (line_text told) };

    fn fmt<W: fmt::Write>(&self, f: &mut fmt::Formatter<W>) -> fmt::Result {
        match self {
            LineTold::Answered(answer) => write!(f, "{answer}"),
            LineTold::Happened(told) => write!(f, "{told}"),
            LineTold::Nothing | LineTold::Fault(_) => Ok(()),
        }
    }
}
