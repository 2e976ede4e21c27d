//! How events are printed.
use crate::Event;
use sk_words::Printed;
use std::fmt;

/// The words of a trace's line, with single spaces.
impl fmt::Display for Event {
    ghost use Rattle.std.specs.Prelude.{Some};
    ghost use Rattle.sk_trace.specs.Text.{event_text};

    ghost output = { λ e. Some (event_text e) };

    fn fmt<W: fmt::Write>(&self, f: &mut fmt::Formatter<W>) -> fmt::Result {
        match self {
            Event::Step { pid, input } => {
                let pid = Printed(*pid);
                write!(f, "step {pid} {input}")
            }
            Event::Guess { id, pid, input } => {
                let id = id.number();
                let pid = Printed(*pid);
                write!(f, "guess {id} {pid} {input}")
            }
            Event::Commit(id) => {
                let id = id.number();
                write!(f, "commit {id}")
            }
            Event::Fail(id) => {
                let id = id.number();
                write!(f, "fail {id}")
            }
        }
    }
}
