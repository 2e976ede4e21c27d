//! Reading a scenario.
ghost use Rattle.std.specs.Prelude.{◌≡◌, ◌≤◌, ◌+◌, ◌++◌, ◌∷◌, [], None, Some, MatchOption, true, not, length};
ghost use Rattle.sk_scenario.specs.Base.{lines, last_line, list_all, Leaves};
ghost use Rattle.sk_scenario.specs.Declarations.{Declared};
ghost use Rattle.sk_scenario.specs.Scenario.{is_end, ended, goes_on, section_from, scenario_from, scenario_of, Says, SaysSection, Goes, GoesOn, NoEnd, AreLeft};

use crate::call::Calls;
use crate::declarations::{Declarations, Heading, Said};
use crate::world::WorldEvents;
use sk_ids::Name;
use sk_script::Script;
use sk_trace::Trace;
use sk_words::{Cursor, Fault, FaultKind, Words, none, read};
use std::alloc::Global;

/// The section below the declarations.
#[derive(Drop)]
pub enum Section {
    /// The steps in order.
    Steps(Calls),
    /// The events of a world in order.
    World(WorldEvents),
    /// What happened.
    Trace(Trace),
}

/// What a kernel starts from, and what happens then.
#[derive(Drop)]
pub struct Scenario {
    pub declarations: Declarations,
    pub section: Section,
}

impl Scenario {
    /// The scenario that a text says, or its first faulty line.
    pub fn parse(alloc: Global, text: &[u8]) -> Result<Scenario, Fault>
        ensures { Says result (scenario_of text.now) (lines text.now) }
    {
        let mut declarations = Declarations::new(alloc);
        let mut cursor = Cursor::of(text);
        while let Some(line) = cursor.next() {
            let said = match declarations.line(line) {
                Ok(said) => said,
                Err(kind) => return Err(cursor.fault(kind)),
            };
            if let Some(section) = go_on(alloc, &mut declarations, said, &mut cursor)? {
                return Ok(Scenario {
                    declarations,
                    section,
                });
            }
        }
        Ok(Scenario {
            declarations,
            section: Section::Steps(Calls::new(alloc)),
        })
    }
}

/// Reads what belongs to the line taken last: a script, or the section that begins.
fn go_on(
    alloc: Global,
    declarations: &mut Declarations,
    said: Said,
    cursor: &mut Cursor<'_>,
) -> Result<Option<Section>, Fault>
    ensures left { length cursor.new.lines ≤ length cursor.old.lines }
    ensures last { last_line cursor.new ≡ last_line cursor.old }
    ensures rest { AreLeft cursor.new.lines cursor.old.lines }
    ensures said { GoesOn result said
        (goes_on said declarations.old (cursor.old.line + 1) cursor.old.lines
        (λ begun. scenario_from declarations.old begun (cursor.old.line + 1) cursor.old.lines))
        declarations.new
        (scenario_from declarations.new None (cursor.new.line + 1) cursor.new.lines)
        (cursor.old.line + 1) (last_line cursor.old) cursor.old.lines }
{
    match said {
        Said::Declared => Ok(None),
        Said::Script(name) => {
            script(alloc, declarations, name, cursor)?;
            Ok(None)
        }
        Said::Heading(heading) => Ok(Some(section_of(alloc, heading, cursor)?)),
    }
}

/// The lines of a script, and the line that ends it, if there is one.
#[derive(Drop)]
struct ScriptLines<'a> {
    lines: Cursor<'a>,
    end: Option<&'a [u8]>,
}

/// Whether a line ends a script: its first word is `end`.
fn is_end(line: &[u8]) -> bool
    ensures { result ≡ is_end line.now }
{
    match Words::of(line).next() {
        Some(word) => word == b"end".as_slice(),
        None => false,
    }
}

/// Takes a script's lines, up to the first whose first word is `end`.
fn take_script<'a>(cursor: &mut Cursor<'a>) -> ScriptLines<'a>
    ensures first { result.lines.line ≡ cursor.old.line }
    ensures none { NoEnd result.lines.lines }
    ensures end { MatchOption result.end
        (cursor.old.lines ≡ result.lines.lines × cursor.new.lines ≡ [])
        (λ line. (cursor.old.lines ≡ result.lines.lines ++ line.now ∷ cursor.new.lines)
        × (is_end line.now ≡ true)) }
    ensures line { MatchOption result.end
        (cursor.new.line ≡ cursor.old.line + length result.lines.lines)
        (λ line. cursor.new.line ≡ cursor.old.line + length result.lines.lines + 1) }
{
    let lines = cursor.again();
    let mut count = 0;
    while let Some(line) = cursor.next() {
        if is_end(line) {
            return ScriptLines {
                lines: lines.first(count),
                end: Some(line),
            };
        }
        count += 1;
    }
    ScriptLines {
        lines: lines.first(count),
        end: None,
    }
}

/// Declares the script whose first line comes next. One without an end is a fault of the text's last
/// line, behind any other fault of it.
fn script(
    alloc: Global,
    declarations: &mut Declarations,
    name: Name,
    cursor: &mut Cursor<'_>,
) -> Result<(), Fault>
    ensures left { length cursor.new.lines ≤ length cursor.old.lines }
    ensures last { last_line cursor.new ≡ last_line cursor.old }
    ensures rest { AreLeft cursor.new.lines cursor.old.lines }
    ensures goes { Goes result
        (scenario_from declarations.old
        (Some (record { name = name; first = cursor.old.line + 1; lines = [] }))
        (cursor.old.line + 1) cursor.old.lines)
        (scenario_from declarations.new None (cursor.new.line + 1) cursor.new.lines)
        (cursor.old.line + 1) (last_line cursor.old) cursor.old.lines }
{
    let taken = take_script(cursor);
    let script = Script::parse_lines(alloc, &taken.lines)?;
    match taken.end {
        None => Err(cursor.fault(FaultKind::Word)),
        Some(end) => match ended(declarations, name, script, end) {
            Ok(()) => Ok(()),
            Err(kind) => Err(cursor.fault(kind)),
        },
    }
}

/// Declares a script that ends with this line.
fn ended(
    declarations: &mut Declarations,
    name: Name,
    script: Script,
    end: &[u8],
) -> Result<(), FaultKind>
    ensures { Leaves result (ended declarations.old name script end.now) declarations.old
        declarations.new }
{
    let mut words = Words::of(end);
    words.next();
    none(&words)?;
    declarations.script(name, script)
}

/// The section below a heading.
fn section_of(alloc: Global, heading: Heading, lines: &Cursor) -> Result<Section, Fault>
    ensures { (d : Declared)
        → SaysSection result (section_from d heading (lines.now.line + 1) lines.now.lines) d
        (lines.now.line + 1) (last_line lines.now) }
{
    match heading {
        Heading::Steps => Ok(Section::Steps(read(Calls::new(alloc), lines)?)),
        Heading::World => Ok(Section::World(read(WorldEvents::new(alloc), lines)?)),
        Heading::Trace => Ok(Section::Trace(Trace::read(alloc, lines)?)),
    }
}
