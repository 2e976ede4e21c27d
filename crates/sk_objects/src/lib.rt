//! The values that kernel objects have.
#![tactic(auto)]

pub mod block;
pub mod content;
pub mod file;
pub mod held;
pub mod pipe;
pub mod signals;
pub mod slots;
pub mod value;

pub use block::Block;
pub use content::Content;
pub use file::File;
pub use held::HeldContent;
pub use pipe::Pipe;
pub use signals::Signals;
pub use value::{Kind, Value};
