//! Channels by number.
ghost use Rattle.std.specs.Prelude.{◌≡◌, ◌<◌, ℕ, None, Some};
ghost use Rattle.sk_channels.specs.Base.{LendsIf, sem, option_copied, option_copied_mut};
ghost use Rattle.sk_channels.specs.contracts.table.Channels.{the_row};
ghost use Rattle.sk_channels.specs.contracts.channel.Channel as channel_row;
ghost use Rattle.sk_channels.specs.Table.{channel_at, is_hung_up, place_at, with_channel, Connects, HangsUp, Releases};

use crate::{Channel, Refusal};
use slab::Slab;
use std::alloc::Global;

/// There are at most so many channels.
pub const CHANNEL_LIMIT: usize = 10_000;

/// Channels by number. A number is given again only when it was released.
#[derive(Drop)]
pub struct Channels {
    /// What was hung up has only its place.
    places: Slab<Option<Channel>>,
}

impl Channels {
    /// No channel.
    pub fn new(alloc: Global) -> Channels
        ensures { (number : ℕ) → place_at result number ≡ None }
    {
        Channels {
            places: Slab::new(alloc),
        }
    }

    /// A channel gets a number that no other has; where it is refused, it is dropped.
    pub fn connect(&mut self, channel: Channel) -> Result<u16, Refusal>
        ensures { Connects channel result self.old self.new }
    {
        let number = self.places.vacant_key();
        if number >= CHANNEL_LIMIT {
            return Err(Refusal::Full);
        }
        self.places.reserve(1)?;
        let number = self.places.insert_reserved(Some(channel));
        Ok(number as u16)
    }

    /// Lends the channel with this number.
    pub fn channel(&mut self, number: u16) -> Option<&mut Channel>
        ensures* writes_back { sem 𝓛 (LendsIf the_row channel_row.the_row self.entry result
            (λ channel. with_channel self.old number channel) self.old) }
        ensures value { option_copied_mut result ≡ channel_at self.old number }
    {
        self.places.get_mut(number as usize)?.as_mut()
    }

    /// Shows the channel with this number.
    pub fn get(&self, number: u16) -> Option<&Channel>
        ensures { option_copied result ≡ channel_at self.now number }
    {
        self.places.get(number as usize)?.as_ref()
    }

    /// Drops the channel with this number, which stays taken until it is released.
    pub fn hang_up(&mut self, number: u16)
        ensures { HangsUp number self.old self.new }
    {
        if let Some(place) = self.places.get_mut(number as usize) {
            *place = None;
        }
    }

    /// Whether the channel with this number was hung up.
    pub fn is_hung_up(&self, number: u16) -> bool
        ensures { result ≡ is_hung_up (place_at self.now number) }
    {
        matches!(self.places.get(number as usize), Some(None))
    }

    /// Frees a number whose channel was hung up.
    pub fn release(&mut self, number: u16)
        ensures { Releases number self.old self.new }
    {
        if self.is_hung_up(number) {
            self.places.remove(number as usize);
        }
    }
}
