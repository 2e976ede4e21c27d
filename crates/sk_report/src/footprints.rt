//! What a step touched: what it read, what it wrote, and the guesses that it depends on.
ghost use Rattle.std.specs.Prelude.{Some, ◌∷◌, OnOk, flat_map};
ghost use Rattle.std.specs.Io.KnownBytes.{Appends};
ghost use Rattle.sk_report.specs.Footprints.{entities_text, footprint_lines};
ghost use Rattle.sk_report.specs.Printed.{entity_text};

use crate::{PrintedEntity, PrintedTags};
use sk_ids::{Entity, TagSet};
use sk_kernel::Footprint;
use std::io::Write;
use std::{fmt, io};

/// Entities, each behind a space.
#[derive(Drop)]
struct MoreEntities<'a>(&'a [Entity]);

impl fmt::Display for MoreEntities<'_> {
    ghost output = { λ s. Some (flat_map (λ e. 32 ∷ entity_text e) s.0.now) };

    fn fmt<W: fmt::Write>(&self, f: &mut fmt::Formatter<W>) -> fmt::Result {
        for entity in self.0 {
            let entity = PrintedEntity(*entity);
            write!(f, " {entity}")?;
        }
        Ok(())
    }
}

/// Entities in their order, with single spaces between; `-` where there is none.
#[derive(Drop)]
pub struct PrintedEntities<'a>(pub &'a [Entity]);

impl fmt::Display for PrintedEntities<'_> {
    ghost output = { λ s. Some (entities_text s.0.now) };

    fn fmt<W: fmt::Write>(&self, f: &mut fmt::Formatter<W>) -> fmt::Result {
        match self.0 {
            [] => write!(f, "-"),
            [first, others @ ..] => {
                let first = PrintedEntity(*first);
                let others = MoreEntities(others);
                write!(f, "{first}{others}")
            }
        }
    }
}

/// Writes what a step read and wrote, and the guesses that it depends on, a line each.
pub fn write_footprint<W: Write>(
    footprint: &Footprint,
    tags: &TagSet,
    out: &mut W,
) -> io::Result<()>
    ensures { OnOk result (Appends (W.contents out.old) (W.contents out.new)
        (footprint_lines footprint.now tags.now)) }
{
    let reads = PrintedEntities(footprint.reads.as_slice());
    let writes = PrintedEntities(footprint.writes.as_slice());
    let tags = PrintedTags(tags);
    writeln!(out, "reads {reads}\nwrites {writes}\ntags {tags}")
}
