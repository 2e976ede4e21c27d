//! A log that is kept by a consensus engine: what each answer of the engine means, and what holds of all hosts that heed it.
#![tactic(auto)]

pub mod answer;
pub mod laws;
pub mod request;
pub mod rounds;
pub mod value;

pub use answer::{
    BatchAnswer, BatchSeen, FenceAnswer, FenceSeen, Held, LeadAnswer, LeadSeen, RoundAnswer,
    held_under,
};
pub use request::{Batch, Fence, Round, Told};
pub use rounds::{RoundRefusal, Rounds};
pub use value::{OWNER_LEN, owner, sign};
