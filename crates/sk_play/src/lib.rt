//! A scenario at play: the kernel that it declares, with the tokens of its guesses, and what its steps are answered; and
//! the world that it declares, joined or as its desk and its server, what is told of its events, and its report.
#![tactic(auto)]

pub mod ahead;
pub mod answer;
pub mod epoch;
pub mod leasing;
mod line;
pub mod replaying;
pub mod session;
pub mod told;
pub mod world_report;
pub mod worlds;

pub use ahead::upcoming;
pub use answer::{CallAnswer, put_answer, write_answer};
pub use epoch::EpochTold;
pub use leasing::{LeaseTold, lease_at_desk, lease_in_world};
pub use line::Line;
pub use replaying::{Unreplayed, replay};
pub use session::Session;
pub use told::{WorldTold, write_told};
pub use world_report::{write_desk_report, write_workers, write_world_report};
pub use worlds::{desk_of, happen, happen_line, world_of};
