//! Epochs with what the last refusal took back, and what their calls are told.
ghost use Rattle.std.specs.Prelude.{◌≡◌};
ghost use Rattle.hidewillow_epochs.specs.Calls.{AcceptsTold, AsksAct, AsksChanged, AsksNeeds, AsksUndone, AsksVersion, BeginsTold, CountsWaiting, HappensTold, IsNew, RefusesTold, ShowsTold};

use crate::told::{DONE, NONE, SHOWN, Told};
use real_epochs::{Back, Epochs, Event};
use std::alloc::Global;
use std::num::NonZeroU16;

/// Epochs, and the names that the last refusal took back.
#[derive(Drop)]
pub struct Session {
    pub epochs: Epochs,
    pub undone: Vec<u64>,
}

impl Session {
    pub fn new(alloc: Global, limit: NonZeroU16) -> Session
        ensures { IsNew result }
    {
        Session {
            epochs: Epochs::new(alloc, limit),
            undone: Vec::new(alloc),
        }
    }

    pub fn begin(&mut self, checkpoint: u64) -> Told
        ensures { BeginsTold checkpoint result self.old self.new }
    {
        Told::of_number(self.epochs.begin(checkpoint))
    }

    pub fn happens(&mut self, event: Event) -> Told
        ensures { HappensTold event result self.old self.new }
    {
        Told::of_step(self.epochs.happens(event))
    }

    pub fn accepted(&mut self) -> Told
        ensures { AcceptsTold result self.old self.new }
    {
        Told::of_place(self.epochs.accepted(), DONE)
    }

    pub fn refused(&mut self) -> Told
        ensures { RefusesTold result self.old self.new }
    {
        match self.epochs.refused() {
            Some(back) => {
                let Back { checkpoint, names } = back;
                let count = names.len();
                self.undone = names;
                Told::of(DONE, checkpoint).with_names(count)
            }
            None => Told::of(NONE, 0),
        }
    }

    pub fn shown(&mut self, stream: u16) -> Told
        ensures { ShowsTold stream result self.old self.new }
    {
        Told::of_place(self.epochs.shown(stream), SHOWN)
    }

    /// A name among those that the last refusal took back.
    pub fn undone(&self, place: usize) -> Told
        ensures { AsksUndone place result self.now }
    {
        Told::of_place(self.undone.get(place).copied(), SHOWN)
    }

    pub fn version(&self, name: u64) -> Told
        ensures { AsksVersion name result self.now }
    {
        Told::of_place(self.epochs.version(name), SHOWN)
    }

    pub fn has_changed(&self, name: u64) -> Told
        ensures { AsksChanged name result self.now }
    {
        Told::of_answer(self.epochs.has_changed(name))
    }

    pub fn needs(&self, checkpoint: u64) -> Told
        ensures { AsksNeeds checkpoint result self.now }
    {
        Told::of_answer(self.epochs.needs(checkpoint))
    }

    pub fn may_act(&self) -> Told
        ensures { AsksAct result self.now }
    {
        Told::of_answer(self.epochs.may_act())
    }

    pub fn waiting(&self) -> Told
        ensures { CountsWaiting result self.now }
    {
        Told::of(SHOWN, self.epochs.waiting() as u64)
    }
}
