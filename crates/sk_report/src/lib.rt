//! The report of a kernel: its terminals, its entities and the last line; and how entities and what they have are printed.
#![tactic(auto)]

pub mod directories;
pub mod footprints;
mod line;
mod placed;
pub mod printed;
pub mod report;
pub mod stop;
pub mod subject;
mod tags;

pub use directories::write_names;
pub use footprints::{PrintedEntities, write_footprint};
pub use printed::{
    PrintedEntity, PrintedProcess, PrintedTags, PrintedValue, PrintedVersion, PrintedView,
};
pub use report::{write_kernel, write_plain_report, write_report};
pub use stop::Stop;
pub use subject::Subject;
