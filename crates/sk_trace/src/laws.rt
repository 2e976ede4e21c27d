//! What is printed of a trace is read again. Each law is the contract of a function that does nothing.
ghost use Rattle.std.specs.Prelude.{◌≡◌, List, Ok, All};
ghost use Rattle.sk_trace.specs.declared.event.Event.{Event};
ghost use Rattle.sk_trace.specs.Event.{IsEvent};
ghost use Rattle.sk_trace.specs.Lines.{trace_of};
ghost use Rattle.sk_trace.specs.Text.{trace_text};

use crate::Trace;

/// The text of a trace says its events.
pub fn trace_is_read_again(trace: &Trace)
    ensures { trace_of (trace_text trace.now.events) ≡ Ok trace.now.events }
{
    trace.known();
}

/// The text of events within their limits says these events, and is that of no others.
pub fn texts()
    ensures again { (es : List Event) → All IsEvent es → trace_of (trace_text es) ≡ Ok es }
    ensures once { (ds es : List Event) → All IsEvent ds → All IsEvent es
        → trace_text ds ≡ trace_text es → ds ≡ es }
{}
