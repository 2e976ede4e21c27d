//! Events of a world, as they are told and as they are lent.
ghost use Rattle.std.specs.Prelude.{◌≡◌};
ghost use Rattle.sk_trace.specs.LentEvent.{event_in};

use sk_ids::{Name, Pid, Text};

/// What happens in a world.
#[derive(Clone, Copy, Debug)]
pub enum WorldEvent {
    /// A turn of a process.
    Turn(Pid),
    /// The next request is answered.
    Serve,
    /// The next reply is given.
    Reply,
    /// Another client writes a file that has this version.
    Edit(Name, u64, Text),
}

/// An event where it stands: what is long of it is lent.
#[derive(Clone, Copy, Debug)]
pub enum EventRef<'a> {
    Turn(&'a Pid),
    Serve,
    Reply,
    Edit(&'a Name, u64, &'a Text),
}

impl WorldEvent {
    /// Lends it.
    pub fn lent(&self) -> EventRef<'_>
        ensures { event_in result ≡ self.now }
    {
        match self {
            WorldEvent::Turn(pid) => EventRef::Turn(pid),
            WorldEvent::Serve => EventRef::Serve,
            WorldEvent::Reply => EventRef::Reply,
            WorldEvent::Edit(name, expected, bytes) => EventRef::Edit(name, *expected, bytes),
        }
    }
}
