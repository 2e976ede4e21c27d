//! Commands over byte strings: what each looks at, writes and replies.
#![tactic(auto)]

mod asking;
mod byte_string;
mod command;
mod fault;
pub mod laws;
mod look;
mod name;
mod noted;
mod number;
mod parse;
mod reply;
mod requests;
mod rising;
mod run;
mod session;
mod text;
mod work;

pub use byte_string::{ByteString, Keys, Values};
pub use command::{Command, Options, Order, When};
pub use fault::Fault;
pub use look::Look;
pub use name::Name;
pub use number::number_of;
pub use reply::{Reply, Word};
pub use run::{VALUE_LIMIT, Writes};
pub use session::{Queue, Session};
pub use work::{Answer, Commands, Replies, Work};
