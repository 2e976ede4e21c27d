//! What the words of the command line ask for.
use std::env;

/// What each step does.
#[derive(Clone, Copy, Debug, PartialEq, Eq)]
pub(crate) enum Deed {
    /// Looks at one key, writes it and another, which it makes absent now and then, and every fourth says something.
    Mixed,
    /// Looks at one key and writes it.
    Write,
    /// Looks at one key, writes it, and says something.
    Say,
}

impl Deed {
    /// Whether some of the steps say something.
    pub(crate) fn says(self) -> bool {
        self != Deed::Write
    }
}

/// How guesses end.
#[derive(Clone, Copy, Debug, PartialEq, Eq)]
pub(crate) enum Ends {
    /// Each second one is wrong.
    Mixed,
    Right,
    Wrong,
}

impl Ends {
    /// Whether a guess is right, by its place among all.
    pub(crate) fn is_right(self, turn: u64) -> bool {
        match self {
            Ends::Mixed => turn % 2 == 0,
            Ends::Right => true,
            Ends::Wrong => false,
        }
    }
}

/// What is asked for.
#[derive(Clone, Copy, Debug)]
pub(crate) struct StepPlan {
    pub(crate) guesses: u64,
    /// How many steps each guess has before it is decided; without guesses, how many there are in all.
    pub(crate) steps: u64,
    /// How many keys steps go over.
    pub(crate) keys: u16,
    pub(crate) deed: Deed,
    pub(crate) ends: Ends,
    /// How many keys there are at the start, from the first on.
    pub(crate) present: u64,
}

/// The number that a word says; 0 where there is no word.
fn number(word: Option<&String>) -> anyhow::Result<u64> {
    match word {
        Some(word) => Ok(word.parse::<u64>()?),
        None => Ok(0),
    }
}

/// What a word says that each step does: `write`, `say`, or else the mixed deed.
fn read_deed(word: Option<&String>) -> Deed {
    match word {
        Some(word) if word.as_str() == "write" => Deed::Write,
        Some(word) if word.as_str() == "say" => Deed::Say,
        _ => Deed::Mixed,
    }
}

/// How a word says that guesses end: `right`, `wrong`, or else each second one as wrong.
fn read_ends(word: Option<&String>) -> Ends {
    match word {
        Some(word) if word.as_str() == "right" => Ends::Right,
        Some(word) if word.as_str() == "wrong" => Ends::Wrong,
        _ => Ends::Mixed,
    }
}

/// The plan that the words of the command line say.
pub(crate) fn read_plan(rt: &HostRuntime) -> anyhow::Result<StepPlan> {
    let words = env::args(rt)?.collect::<Vec<String>>(rt.alloc())?;
    Ok(StepPlan {
        guesses: number(words.get(1))?,
        steps: number(words.get(2))?,
        keys: u16::try_from(number(words.get(3))?)?,
        deed: read_deed(words.get(4)),
        ends: read_ends(words.get(5)),
        present: number(words.get(6))?,
    })
}
