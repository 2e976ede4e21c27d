//! An entity that is present.

use crate::EntityState;
use sk_ids::{Entity, GuessId};

/// An entity that is present, what it has, and the undecided guesses that it depends on.
#[derive(Clone, Copy)]
pub struct Present<'a> {
    pub entity: Entity,
    pub state: &'a EntityState,
    pub tags: &'a [GuessId],
}
