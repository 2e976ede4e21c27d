//! The frames that count, carried out in a plain store one after another.
ghost use Rattle.std.specs.Prelude.{◌≡◌, ◌+◌, ◌++◌, ◌∷◌, ℕ, true, List, [], length, None, OnOk};
ghost use Rattle.sk_recovered.specs.Base.{Entries, after_works};
ghost use Rattle.sk_recovered.specs.Frames.{with_one, DamagedAt, HasTaken};

use sk_commands::Work;
use sk_plain_store::PlainStore;
use sk_replay::{Refusal, works_of};
use std::alloc::{AllocError, Global};

/// Where a frame stands.
#[derive(Clone, Copy, Debug, PartialEq, Eq)]
pub struct Place {
    pub segment: u64,
    /// In bytes from the front of the segment.
    pub offset: u64,
    /// The number of the frame.
    pub number: u64,
}

/// A whole frame that says no works.
#[derive(Clone, Copy, Debug, PartialEq, Eq)]
pub struct Damage {
    pub place: Place,
    pub why: Refusal,
}

/// A plain store behind the frames so far.
#[derive(Drop)]
pub struct Frames {
    pub(crate) alloc: Global,
    pub(crate) store: PlainStore,
    /// How many commands and queues were carried out.
    pub(crate) works: u64,
    /// The first frame that says no works: from there on nothing is carried out.
    pub(crate) damage: Option<Damage>,
}

/// Carries out works, one after another.
fn run_all(store: &mut PlainStore, works: Vec<Work>) -> Result<(), AllocError>
    ensures { OnOk result (store.new ≡ after_works works.items store.old) }
{
    for work in works {
        store.run(work)?;
    }
    Ok(())
}

impl Frames {
    /// No frame yet.
    pub(crate) fn new(alloc: Global, store: PlainStore) -> Frames
        ensures taken { (first : ℕ) → HasTaken first store [] result }
        ensures none { result.damage ≡ None }
    {
        Frames {
            alloc,
            store,
            works: 0,
            damage: None,
        }
    }

    /// Carries out what the next frame says, unless the frames are damaged before it.
    fn take(&mut self, place: Place, payload: &[u8]) -> Result<(), AllocError>
        ensures taken { OnOk result ((first : ℕ) (start : Entries) (payloads : List (List ℕ))
            → HasTaken first start payloads self.old → place.number ≡ first + length payloads
            → HasTaken first start (payloads ++ payload.now ∷ []) self.new) }
        ensures place { OnOk result (DamagedAt true place self.old.damage self.new.damage) }
    {
        if self.damage.is_some() {
            return Ok(());
        }
        match works_of(self.alloc, payload) {
            Ok(works) => {
                self.works = self.works.saturating_add(works.len() as u64);
                run_all(&mut self.store, works)
            }
            Err(Refusal::Memory) => Err(AllocError),
            Err(why) => {
                self.damage = Some(Damage { place, why });
                Ok(())
            }
        }
    }

    /// Carries out what the next frame says, as `take` does, where the frame counts; else nothing is done.
    pub(crate) fn take_if(
        &mut self,
        counts: bool,
        place: Place,
        payload: &[u8],
    ) -> Result<(), AllocError>
        ensures taken { OnOk result ((first : ℕ) (start : Entries) (payloads : List (List ℕ))
            → HasTaken first start payloads self.old
            → (counts ≡ true → place.number ≡ first + length payloads)
            → HasTaken first start (with_one counts payloads payload.now) self.new) }
        ensures place { OnOk result (DamagedAt counts place self.old.damage self.new.damage) }
    {
        if !counts {
            return Ok(());
        }
        self.take(place, payload)
    }
}
