//! Events of a world as they are kept: a few words, with what is long in a box.
ghost use Rattle.std.specs.Prelude.{◌≡◌, IfOk};
ghost use Rattle.sk_trace.specs.LentEvent.{event_in};
ghost use Rattle.sk_trace.specs.declared.world_event.WorldEvent.TheVariants as events;

use sk_ids::{Name, Pid, Text};
use sk_trace::EventRef;
use std::alloc::{AllocError, Global};
use std::marker::Model;

/// A write of another client.
#[derive(Debug, Drop)]
struct Edit {
    name: Name,
    expected: u64,
    bytes: Text,
}

/// An event, with an edit in a box.
#[derive(Debug, Drop)]
enum EventWords {
    Turn(Pid),
    Serve,
    Reply,
    Edit(Box<Edit>),
}

/// An event that is kept, of which contracts see what they see of a `WorldEvent`.
#[derive(Debug, Drop)]
pub struct KeptEvent {
    words: EventWords,
}

impl Model for KeptEvent {
    ghost use Rattle.sk_trace.specs.declared.world_event.WorldEvent.{WorldEvent};
    ghost use Rattle.sk_scenario.specs.KeptEvent.{event_of, event_code};

    ghost Value = { WorldEvent };

    ghost coded = { event_code };

    ghost view = { λ k. event_of k.words };
}

impl KeptEvent {
    /// A turn of a process. This takes no memory.
    #[inline(always)]
    pub fn turn(pid: Pid) -> KeptEvent
        ensures { result ≡ events.Turn pid }
    {
        KeptEvent {
            words: EventWords::Turn(pid),
        }
    }

    /// That the next request is answered. This takes no memory.
    #[inline(always)]
    pub fn serve() -> KeptEvent
        ensures { result ≡ events.Serve }
    {
        KeptEvent {
            words: EventWords::Serve,
        }
    }

    /// That the next reply is given. This takes no memory.
    #[inline(always)]
    pub fn reply() -> KeptEvent
        ensures { result ≡ events.Reply }
    {
        KeptEvent {
            words: EventWords::Reply,
        }
    }

    /// That another client writes a file that has this version.
    pub fn edit(
        alloc: Global,
        name: Name,
        expected: u64,
        bytes: Text,
    ) -> Result<KeptEvent, AllocError>
        ensures { IfOk result (λ kept. kept ≡ events.Edit name expected bytes) }
    {
        let edit = Edit {
            name,
            expected,
            bytes,
        };
        Ok(KeptEvent {
            words: EventWords::Edit(Box::new(alloc, edit)?),
        })
    }

    /// Lends the event.
    #[inline(always)]
    pub fn lend(&self) -> EventRef<'_>
        ensures { event_in result ≡ self.now }
    {
        match &self.words {
            EventWords::Turn(pid) => EventRef::Turn(pid),
            EventWords::Serve => EventRef::Serve,
            EventWords::Reply => EventRef::Reply,
            EventWords::Edit(edit) => EventRef::Edit(&edit.name, edit.expected, &edit.bytes),
        }
    }
}
