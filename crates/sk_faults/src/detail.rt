//! The place of a text's fault, and its reason.
ghost use Rattle.std.specs.Prelude.{◌≡◌, [], IfSome, IsSomeAnd, MatchOption, length};
ghost use Rattle.sk_faults.specs.Base.{lines, words, first_of, Declarations};
ghost use Rattle.sk_faults.specs.Found.{found_of};
ghost use Rattle.sk_faults.specs.Details.{IsAt, IsSomewhere, IsAtFound, IsTold, IsUntold};
ghost use Rattle.sk_faults.specs.Parts.{line_at};

use crate::found::{Found, Why, find};
use crate::part::{Part, line_at};
use crate::place::{Place, place_of};
use crate::reason::{Reason, Thing};
use crate::tables::{forms_of, is_label};
use crate::wanted::Wanted;
use sk_script::Form;
use sk_words::{Fault, FaultKind, Index, Lines, Operand, first_word};
use std::io::Write;
use std::{fmt, io};

/// Where in a text its first fault stands, and what is at fault there.
#[derive(Clone, Copy)]
pub struct Detail<'a> {
    /// The number of the line, from 1 on.
    pub line: u64,
    pub place: Place<'a>,
    pub reason: Reason<'a>,
}

/// `LINE:COLUMN: REASON`, where the columns are bytes from 1 on.
impl fmt::Display for Detail<'_> {
    fn fmt<W: fmt::Write>(&self, f: &mut fmt::Formatter<W>) -> fmt::Result {
        let line = self.line;
        let column = self.place.start.saturating_add(1);
        let reason = self.reason;
        write!(f, "{line}:{column}: {reason}")
    }
}

/// The place behind a line's last byte.
fn end_of(line: &[u8]) -> Place<'_>
    ensures start { result.start ≡ length line.now }
    ensures word { result.word.now ≡ [] }
{
    Place {
        start: line.len(),
        word: &[],
    }
}

/// The place of the word of this index, or the line's end where there is none.
pub(crate) fn place_at(line: &[u8], index: usize) -> Place<'_>
    ensures { IsAt line.now index result.start result.word.now }
{
    match place_of(line, index) {
        Some(place) => place,
        None => end_of(line),
    }
}

/// As `place_at`, of which a caller needs no more than that it is a place in the line.
pub(crate) fn somewhere(line: &[u8], index: usize) -> Place<'_>
    ensures { IsSomewhere line.now result.start result.word.now }
{
    place_at(line, index)
}

/// The first word of a line; no byte where it has none.
pub(crate) fn first_in(line: &[u8]) -> &[u8] {
    match first_word(line) {
        Some((word, _)) => word,
        None => &[],
    }
}

/// What is at fault with the word that was found.
pub(crate) fn reason_of<'a>(part: Part, first: &'a [u8], why: Why, word: &'a [u8]) -> Reason<'a> {
    match why {
        Why::Unknown => Reason::Unknown { word, part },
        Why::Open => Reason::Open,
        Why::Input => Reason::Malformed {
            word,
            wanted: Wanted::Form(Form::Input),
        },
        Why::Missing(form) => Reason::Missing {
            first,
            wanted: Wanted::Form(form),
        },
        Why::Surplus => Reason::Surplus { word, first },
        Why::Malformed(form) => Reason::Malformed {
            word,
            wanted: Wanted::Form(form),
        },
    }
}

/// The fault of the words of a line; where each is as it must be, it is the last of a script without an end.
fn of_words(number: u64, part: Part, line: &[u8]) -> Detail<'_>
    ensures number { result.line ≡ number }
    ensures place { IsAtFound (found_of part (first_of (words line.now))) line.now
        result.place.start result.place.word.now }
{
    match find(part, line) {
        Some(found) => {
            let place = place_at(line, found.index);
            let reason = reason_of(part, first_in(line), found.why, place.word);
            Detail {
                line: number,
                place,
                reason,
            }
        }
        None => Detail {
            line: number,
            place: end_of(line),
            reason: Reason::NoEnd,
        },
    }
}

/// The number of the process that a line declares.
fn process_in(line: &[u8]) -> Option<u16> {
    let (first, mut words) = first_word(line)?;
    if first != b"process".as_slice() {
        return None;
    }
    let number: Index = Operand::read(words.next()?).ok()?;
    Some(number.get())
}

/// Whether a line before the one of this number declares the process that this line declares.
fn has_process(text: &[u8], number: u64, line: &[u8]) -> bool {
    let process = process_in(line);
    let mut lines = Lines::of(text);
    for _ in 1..number {
        let Some(before) = lines.next() else {
            return false;
        };
        if process_in(before) == process {
            return true;
        }
    }
    false
}

/// The index of a name that is declared twice or not at all, and which of the two it is.
#[derive(Clone, Copy)]
struct Named {
    index: usize,
    thing: Thing,
    is_twice: bool,
}

/// The name that is at fault in a line of a script.
fn named_in_script(first: &[u8]) -> Named {
    if is_label(first) {
        return Named {
            index: 0,
            thing: Thing::Label,
            is_twice: true,
        };
    }
    let index = match forms_of(Part::Script, false, first) {
        Some(forms) => forms.len(),
        None => 0,
    };
    Named {
        index,
        thing: Thing::Label,
        is_twice: false,
    }
}

/// The name that is at fault in a declaration, other than that of a process.
fn named_in_declaration(first: &[u8]) -> Named {
    let (index, thing) = match first {
        b"script" => (1, Thing::Script),
        b"copy" => (1, Thing::Copy),
        b"remote" => (1, Thing::Remote),
        b"limit" => (0, Thing::Limit),
        b"number" => (0, Thing::Number),
        _ => (1, Thing::Object),
    };
    Named {
        index,
        thing,
        is_twice: true,
    }
}

/// The name that is at fault in the declaration of a process.
fn named_in_process(is_twice: bool) -> Named {
    let (index, thing) = if is_twice {
        (1, Thing::Process)
    } else {
        (2, Thing::Script)
    };
    Named {
        index,
        thing,
        is_twice,
    }
}

/// The fault of a name.
fn of_names<'a>(text: &'a [u8], number: u64, part: Part, line: &'a [u8]) -> Detail<'a>
    ensures number { result.line ≡ number }
    ensures place { IsSomewhere line.now result.place.start result.place.word.now }
{
    let first = first_in(line);
    let named = if part == Part::Script {
        named_in_script(first)
    } else if first == b"process".as_slice() {
        named_in_process(has_process(text, number, line))
    } else {
        named_in_declaration(first)
    };
    let place = somewhere(line, named.index);
    let word = place.word;
    let thing = named.thing;
    let reason = if named.is_twice {
        Reason::Twice { word, thing }
    } else {
        Reason::Undeclared { word, thing }
    };
    Detail {
        line: number,
        place,
        reason,
    }
}

/// The fault of a line that is one too many.
fn of_length(number: u64, part: Part, line: &[u8]) -> Detail<'_>
    ensures number { result.line ≡ number }
    ensures place { IsSomewhere line.now result.place.start result.place.word.now }
{
    let reason = match part {
        Part::Script => Reason::Instructions,
        _ => Reason::Objects,
    };
    let place = somewhere(line, 0);
    Detail {
        line: number,
        place,
        reason,
    }
}

/// Where a fault that was told of a text stands, and what is at fault there; `None` for want of memory.
pub fn explain<'a>(text: &'a [u8], fault: &Fault) -> Option<Detail<'a>>
    ensures number { IfSome result (λ detail. detail.line ≡ fault.now.line) }
    ensures place { MatchOption result
        (IsUntold fault.now.kind (line_at Declarations fault.now.line (lines text.now)))
        (λ detail. IsSomeAnd (line_at Declarations fault.now.line (lines text.now))
        (λ x. IsTold fault.now.kind x detail.place.start detail.place.word.now)) }
{
    let Fault { line: number, kind } = *fault;
    let (part, line) = line_at(text, number)?;
    match kind {
        FaultKind::Word => Some(of_words(number, part, line)),
        FaultKind::Operand => Some(of_words(number, part, line)),
        FaultKind::Label => Some(of_names(text, number, part, line)),
        FaultKind::TooLong => Some(of_length(number, part, line)),
        FaultKind::Memory => None,
    }
}

/// Writes where a fault that was told of a file stands, and what is at fault there, on a line of its own.
pub fn write_detail<E: Write>(
    file: &str,
    text: &[u8],
    fault: &Fault,
    err: &mut E,
) -> io::Result<()> {
    match explain(text, fault) {
        Some(detail) => writeln!(err, "{file}:{detail}"),
        None => Ok(()),
    }
}
