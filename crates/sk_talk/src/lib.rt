//! What is at play, a kernel or a world, called by the lines of a section, and asked by questions; new
//! epochs, and texts that are handed out.
#![tactic(auto)]

pub mod asked;
pub mod epoch;
pub mod handed_out;
pub mod leasing;
pub mod line;
pub mod play;

pub use asked::{named, write_value};
pub use handed_out::{HandedOut, released};
pub use line::LineTold;
pub use play::Play;
