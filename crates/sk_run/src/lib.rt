//! What the program does with a scenario, to the end of its run: it plays it, talks to it, replays a trace or runs it plainly.
#![tactic(auto)]

pub mod ending;
pub mod explaining;
pub mod listing;
pub mod plain_run;
pub mod player;
pub mod playing;
pub mod replaying;
pub mod strict;
pub mod talking;
