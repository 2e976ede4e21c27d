//! All that happened in a kernel, in order.
ghost use Rattle.std.specs.Prelude.{◌≡◌, ◌<◌, ◌+◌, ◌≤◌, ◌∷◌, ◌++◌, [], All, OnOk, OnErr, IfOk, length, vec_len, vec_capacity};
ghost use Rattle.std.specs.Str.Lines.{lines};
ghost use Rattle.sk_words.specs.Lines.{last_line};
ghost use Rattle.sk_trace.specs.Event.{IsEvent};
ghost use Rattle.sk_trace.specs.Kept.{HasContent, input_in};
ghost use Rattle.sk_trace.specs.Lines.{trace_from, trace_of, Says};
ghost use Rattle.sk_trace.specs.Text.{trace_text};

use crate::line::EventRules;
use crate::{Event, InputRef, KeptInput};
use sk_words::{Cursor, Fault, Items, read};
use std::alloc::{AllocError, Global};
use std::fmt::Write;
use std::marker::Model;

/// What happened, in order, which contracts see as a list with room for so many more events.
#[derive(Drop)]
pub struct Trace {
    events: Vec<Event>,
}

impl Model for Trace {
    ghost use Rattle.std.specs.Prelude.{◌-◌, All, vec_len, vec_capacity};
    ghost use Rattle.sk_trace.specs.Event.{IsEvent};
    ghost use Rattle.sk_trace.specs.Trace.{TraceView};

    ghost Value = { TraceView };

    ghost view = { λ t. record
        { events = t.events.items; room = vec_capacity t.events - vec_len t.events } };

    ghost invariant = { λ t. All IsEvent t.events.items };
}

impl Trace {
    /// The trace of nothing.
    pub fn new(alloc: Global) -> Trace
        ensures { result.events ≡ [] }
    {
        Trace {
            events: Vec::new(alloc),
        }
    }

    /// The trace that a text says, or its first faulty line.
    pub fn parse(alloc: Global, text: &[u8]) -> Result<Trace, Fault>
        ensures { Says result (trace_of text.now) 1 (length (lines text.now)) }
    {
        Trace::read(alloc, &Cursor::of(text))
    }

    /// The trace that the lines left of a text say, or the first of them that is faulty.
    pub fn read(alloc: Global, lines: &Cursor) -> Result<Trace, Fault>
        ensures { Says result (trace_from (lines.now.line + 1) lines.now.lines) (lines.now.line + 1)
            (last_line lines.now) }
    {
        let events = read(Items::<EventRules>::new(alloc), lines)?;
        Ok(Trace {
            events: events.into_vec(),
        })
    }

    /// The events, the oldest first.
    pub fn events(&self) -> &[Event]
        ensures { result.now ≡ self.now.events }
    {
        self.events.as_slice()
    }

    /// Its text: a line for each event.
    pub fn print(&self, alloc: Global) -> Result<Vec<u8>, AllocError>
        ensures { IfOk result (λ bytes. bytes.items ≡ trace_text self.now.events) }
    {
        let mut text = String::new(alloc);
        for event in &self.events {
            writeln!(text, "{event}")?;
        }
        Ok(text.into_bytes())
    }

    /// What holds of every trace, for proofs.
    pub fn known(&self)
        ensures { All IsEvent self.now.events }
    {
        let _events = &self.events;
    }

    /// Makes room for so many more events, which only fails where there is less. The events stay.
    pub fn reserve(&mut self, more: usize) -> Result<(), AllocError>
        ensures events { self.new.events ≡ self.old.events }
        ensures room { OnOk result (more ≤ self.new.room) }
        ensures kept { self.old.room ≤ self.new.room }
        ensures full { OnErr result (self.old.room < more) }
        ensures err { OnErr result (self.new.room ≡ self.old.room) }
    {
        self.events.reserve(more)
    }

    /// Keeps an input for an event of this trace. It takes memory only for a content.
    pub fn keep(&self, input: InputRef<'_>) -> Result<KeptInput, AllocError>
        ensures ok { IfOk result (λ kept. kept ≡ input_in input.entry) }
        ensures err { OnErr result (HasContent (input_in input.entry)) }
    {
        KeptInput::keep(*self.events.allocator(), input)
    }

    /// Adds an event, for which there is room. This takes no memory.
    #[inline(always)]
    pub fn push(&mut self, event: Event)
        requires { 0 < self.old.room }
        ensures events { self.new.events ≡ self.old.events ++ event ∷ [] }
        ensures room { self.new.room + 1 ≡ self.old.room }
    {
        event.known();
        self.events.push_reserved(event);
    }
}
