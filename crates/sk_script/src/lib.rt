//! Scripts, the processes that run them, and what a kernel starts from.
#![tactic(auto)]

pub mod boot;
pub mod form;
pub mod help;
pub mod instruction;
pub mod lease;
pub mod parse;
pub mod private;
pub mod process;
pub mod register;
pub mod script;
pub mod scripts;
pub mod shared_script;
pub mod step_input;

pub use boot::{Boot, BootFault, BootObject, BootProcess, ObjectKind};
pub use form::{Form, brings_content, is_input};
pub use help::INSTRUCTIONS_TABLE;
pub use instruction::{Input, Instruction};
pub use lease::Lease;
pub use parse::forms::{Forms, instruction_forms};
pub use process::{Process, ROOT};
pub use register::{Register, Registers, Val};
pub use script::Script;
pub use scripts::Scripts;
pub use sk_words as words;
