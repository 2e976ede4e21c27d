//! What all text forms share: lines and their words, what words say, the reader of lines, and how
//! literals and identifiers are printed.
#![tactic(auto)]

pub mod cursor;
pub mod fault;
pub mod items;
pub mod laws;
pub mod line;
pub mod literal;
pub mod operands;
pub mod reader;
pub mod spelling;
pub mod text;
pub mod values;

pub use cursor::Cursor;
pub use fault::{Fault, FaultKind};
pub use items::{Items, Listed, Rules};
pub use line::{Words, first_word, is_open};
pub use operands::{Operand, closed, next_word, no_more, none, one, three, two};
pub use reader::{Reader, read};
pub use spelling::{Literal, Printed, Unquoted};
pub use text::Lines;
pub use values::{Index, Label, Natural};
