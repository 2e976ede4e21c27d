//! Sets of channels.
ghost use Rattle.std.specs.Prelude.{◌≡◌, ◌<◌, ◌≤◌, ◌+◌, ◌==◌, ◌||◌, ℕ, [], true, length, None, OnOk, IfSome};
ghost use Rattle.sk_record.specs.Notes.{has, without};

use std::alloc::{AllocError, Global};
use std::cmp;
use std::marker::Model;

/// Channels by rising order, each once.
#[derive(Drop)]
pub(crate) struct Channels {
    list: Vec<u16>,
}

impl Model for Channels {
    ghost use Rattle.std.specs.Prelude.{vec_capacity};
    ghost use Rattle.std.specs.List.Sorted.{IsStrictlySortedBy};
    ghost use Rattle.std.specs.Ordering.{nat_cmp};
    ghost use Rattle.sk_outputs.specs.Ready.{ChannelsView};

    ghost Value = { ChannelsView };

    ghost view = { λ c. record { channels = c.list.items; places = vec_capacity c.list } };

    ghost invariant = { λ c. IsStrictlySortedBy nat_cmp c.list.items };
}

impl Channels {
    /// No channel.
    pub(crate) fn new(alloc: Global) -> Channels
        ensures { result.channels ≡ [] }
    {
        Channels {
            list: Vec::new(alloc),
        }
    }

    /// The first channel of the set.
    pub(crate) fn first(&self) -> Option<u16>
        ensures some { IfSome result (λ channel. has channel self.now.channels ≡ true) }
        ensures none { result ≡ None → self.now.channels ≡ [] }
    {
        self.list.first().copied()
    }

    pub(crate) fn contains(&self, channel: u16) -> bool
        ensures { result ≡ has channel self.now.channels }
    {
        self.list.binary_search(&channel).is_ok()
    }

    /// Makes room for so many channels in all, and for one more than there are.
    pub(crate) fn reserve(&mut self, count: usize) -> Result<(), AllocError>
        ensures channels { self.new.channels ≡ self.old.channels }
        ensures places { self.old.places ≤ self.new.places }
        ensures ok { OnOk result
            ((count ≤ self.new.places) × (length self.new.channels < self.new.places)) }
    {
        self.list
            .reserve(cmp::max(count.saturating_sub(self.list.len()), 1))
    }

    /// Adds a channel, which may be there, into room that is there.
    pub(crate) fn put(&mut self, channel: u16)
        requires { length self.old.channels < self.old.places }
        ensures has { (t : ℕ) → has t self.new.channels
            ≡ ((channel == t) || has t self.old.channels) }
        ensures places { self.old.places ≤ self.new.places }
        ensures count { length self.new.channels ≤ length self.old.channels + 1 }
    {
        if let Err(place) = self.list.binary_search(&channel) {
            let Ok(()) = self.list.insert(place, channel) else {
                unreachable!();
            };
        }
    }

    /// Takes a channel out, which need not be there.
    pub(crate) fn take_off(&mut self, channel: u16)
        ensures channels { self.new.channels ≡ without channel self.old.channels }
        ensures places { self.new.places ≡ self.old.places }
        ensures count { length self.new.channels ≤ length self.old.channels }
    {
        if let Ok(place) = self.list.binary_search(&channel) {
            self.list.remove(place);
        }
    }

    /// Takes all out.
    pub(crate) fn clear(&mut self)
        ensures channels { self.new.channels ≡ [] }
        ensures places { self.new.places ≡ self.old.places }
    {
        self.list.clear();
    }
}
