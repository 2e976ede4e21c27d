//! What is at fault in a line, and what was expected there.
use crate::part::Part;
use crate::wanted::Wanted;
use sk_words::Unquoted;
use std::fmt;

/// How many bytes of a word are told.
const SHOWN: usize = 60;

/// The first words of the lines of a talk that are no events.
const QUESTIONS: &str =
    "value, tags, dependents, terminal, released, counts, trace, report, epoch, lease";

/// What is declared by a name, a label or a number.
#[derive(Clone, Copy)]
pub enum Thing {
    Label,
    Script,
    Object,
    Copy,
    Remote,
    Process,
    Limit,
    Number,
}

impl Thing {
    fn called(self) -> &'static str {
        match self {
            Thing::Label => "label",
            Thing::Script => "script",
            Thing::Object => "boot object",
            Thing::Copy => "copy",
            Thing::Remote => "remote file",
            Thing::Process => "process",
            Thing::Limit => "limit",
            Thing::Number => "number",
        }
    }
}

/// What is at fault. The words are those of the line.
#[derive(Clone, Copy)]
pub enum Reason<'a> {
    /// The first word of a line is unknown in its part.
    Unknown { word: &'a [u8], part: Part },
    /// The first word of a line of a talk is unknown, where the events of this part are talked of.
    Unheard { word: &'a [u8], part: Part },
    /// A literal has no closing quote.
    Open,
    /// The line ends where this is wanted.
    Missing { first: &'a [u8], wanted: Wanted },
    /// One word more than the first word takes.
    Surplus { word: &'a [u8], first: &'a [u8] },
    /// A word is not what is wanted.
    Malformed { word: &'a [u8], wanted: Wanted },
    /// A thing is declared twice.
    Twice { word: &'a [u8], thing: Thing },
    /// A thing is not declared.
    Undeclared { word: &'a [u8], thing: Thing },
    /// An instruction more than a script may have.
    Instructions,
    /// A boot object more than there may be.
    Objects,
    /// A script has no end.
    NoEnd,
}

/// A word as it is told: its first bytes, as in a literal.
#[derive(Clone, Copy)]
struct Shown<'a>(&'a [u8]);

impl fmt::Display for Shown<'_> {
    fn fmt<W: fmt::Write>(&self, f: &mut fmt::Formatter<W>) -> fmt::Result {
        let word = self.0;
        if word.len() <= SHOWN {
            let whole = Unquoted(word);
            return write!(f, "\"{whole}\"");
        }
        let (front, _) = word.split_at(SHOWN);
        let front = Unquoted(front);
        write!(f, "\"{front}\"..")
    }
}

/// What a first word may be in a part.
fn first_words(part: Part) -> &'static str {
    match part {
        Part::Declarations => {
            "script, file, pipe, dir, copy, remote, process, limit, number, steps, world, trace"
        }
        Part::Script =>
            "an instruction, a label with :, or end; speculate help instructions has them",
        Part::Steps | Part::Trace => "step, guess, commit, fail",
        Part::World => "turn, serve, reply, edit",
    }
}

/// Where a line stands.
fn place_in(part: Part) -> &'static str {
    match part {
        Part::Declarations => "among the declarations",
        Part::Script => "in a script",
        Part::Steps => "in section steps",
        Part::World => "in section world",
        Part::Trace => "in section trace",
    }
}

/// Whether a word begins with a byte order mark.
fn has_mark(word: &[u8]) -> bool {
    matches!(word, [0xEF, 0xBB, 0xBF, ..])
}

fn write_unknown<W: fmt::Write>(word: &[u8], part: Part, f: &mut fmt::Formatter<W>) -> fmt::Result {
    if has_mark(word) {
        return write!(f, "a byte order mark before the first word (expected none)");
    }
    if word == b"end".as_slice() && part == Part::Declarations {
        return write!(f, "end without a script");
    }
    let word = Shown(word);
    let place = place_in(part);
    let known = first_words(part);
    write!(f, "unknown word {word} {place} (expected {known})")
}

fn write_surplus<W: fmt::Write>(
    word: &[u8],
    first: &[u8],
    f: &mut fmt::Formatter<W>,
) -> fmt::Result {
    let first = Shown(first);
    let word = Shown(word);
    write!(
        f,
        "{word} is a word too many behind {first} (expected the line's end)"
    )
}

fn write_unheard<W: fmt::Write>(word: &[u8], part: Part, f: &mut fmt::Formatter<W>) -> fmt::Result {
    if has_mark(word) {
        return write!(f, "a byte order mark before the first word (expected none)");
    }
    let word = Shown(word);
    let events = first_words(part);
    write!(
        f,
        "unknown word {word} in a talk (expected {events}, {QUESTIONS}, or end alone)"
    )
}

fn write_malformed<W: fmt::Write>(
    word: &[u8],
    wanted: Wanted,
    f: &mut fmt::Formatter<W>,
) -> fmt::Result {
    let word = Shown(word);
    let called = wanted.called();
    write!(f, "{word} is no {called} (expected {wanted})")
}

fn write_twice<W: fmt::Write>(word: &[u8], thing: Thing, f: &mut fmt::Formatter<W>) -> fmt::Result {
    let called = thing.called();
    if let Thing::Limit | Thing::Number = thing {
        return write!(f, "a second {called} (expected one at most)");
    }
    let word = Shown(word);
    write!(
        f,
        "{called} {word} is declared twice (expected another name)"
    )
}

impl fmt::Display for Reason<'_> {
    fn fmt<W: fmt::Write>(&self, f: &mut fmt::Formatter<W>) -> fmt::Result {
        match *self {
            Reason::Unknown { word, part } => write_unknown(word, part, f),
            Reason::Unheard { word, part } => write_unheard(word, part, f),
            Reason::Open => write!(f, "a literal without its closing quote"),
            Reason::Missing { first, wanted } => {
                let first = Shown(first);
                let called = wanted.called();
                write!(f, "{first} lacks its {called} (expected {wanted})")
            }
            Reason::Surplus { word, first } => write_surplus(word, first, f),
            Reason::Malformed { word, wanted } => write_malformed(word, wanted, f),
            Reason::Twice { word, thing } => write_twice(word, thing, f),
            Reason::Undeclared { word, thing } => {
                let called = thing.called();
                let word = Shown(word);
                write!(f, "{called} {word} is not declared")
            }
            Reason::Instructions => write!(f, "one instruction too many (at most 4096)"),
            Reason::Objects => write!(f, "one boot object too many (at most 64)"),
            Reason::NoEnd => write!(f, "the script has no end (expected a line end)"),
        }
    }
}
