//! What actors do: steps that are functions of the values that they look at.

/// How many keys there are; the last two are those of the actors.
pub const KEYS: u32 = 8;

/// The key of the first actor.
pub const ACTORS: u32 = 6;

/// How many channels there are.
pub const CHANNELS: u16 = 3;

/// One step of an actor: it looks at its own key and at another, writes its own, one more or two, and may say something.
#[derive(Clone, Copy, Drop)]
pub struct Job {
    /// The key of the actor; none where the step is nobody's.
    pub actor: Option<u32>,
    pub looks: Option<u32>,
    pub writes: Option<u32>,
    /// A second write, maybe of the same key.
    pub also: Option<u32>,
    /// Whether each of these two is an amount that is added.
    pub adds: [bool; 2],
    pub says: Option<u16>,
    pub number: u64,
}

/// What is written of a key: what it has then, or an amount that is added to what it has.
#[derive(Clone, Copy, PartialEq, Eq, Drop)]
pub enum Written {
    Set(Option<u64>),
    Add(u64),
}

/// The keys that a step looks at, its writes, and what it says.
#[derive(Clone, Copy, Drop)]
pub struct Deed {
    pub looked: [Option<u32>; 2],
    pub written: [(Option<u32>, Written); 3],
    pub said: Option<(u16, u64)>,
}

/// A step that does nothing.
pub const NOTHING: Deed = Deed {
    looked: [None; 2],
    written: [(None, Written::Set(None)); 3],
    said: None,
};

/// The bit of the key, the channel or the guess at a place.
pub fn bit_of(place: usize) -> u64 {
    match place {
        0..=63 => 1u64 << place,
        _ => 0,
    }
}

/// A number that has something of two others.
fn mixed(number: u64, more: u64) -> u64 {
    number
        .wrapping_mul(6_364_136_223_846_793_005)
        .wrapping_add(more)
}

/// A value that is absent for every fourth number.
fn value_of(number: u64) -> Option<u64> {
    if number % 4 == 0 { None } else { Some(number) }
}

/// A number of what a key has.
fn number_of(value: Option<u64>) -> u64 {
    match value {
        Some(number) => number.wrapping_add(1),
        None => 0,
    }
}

impl Written {
    /// What it makes of what a key has: an amount leaves an absent key absent.
    pub fn on(self, value: Option<u64>) -> Option<u64> {
        match (self, value) {
            (Written::Set(new), _) => new,
            (Written::Add(amount), Some(number)) => Some(number.wrapping_add(amount)),
            (Written::Add(_), None) => None,
        }
    }
}

/// A value that comes from a number, or the number as an amount.
fn write_of(number: u64, adds: bool) -> Written {
    if adds {
        Written::Add(number)
    } else {
        Written::Set(value_of(number))
    }
}

impl Job {
    /// The number that all its writes and what it says come from, where its keys have these values.
    fn outcome(&self, own: Option<u64>, seen: Option<u64>) -> u64 {
        mixed(mixed(self.number, number_of(own)), number_of(seen))
    }

    /// What it does, where its keys have these values.
    pub fn deed(&self, own: Option<u64>, seen: Option<u64>) -> Deed {
        let outcome = self.outcome(own, seen);
        Deed {
            looked: [self.actor, self.looks],
            written: [
                (self.actor, Written::Set(Some(number_of(own)))),
                (self.writes, write_of(outcome, self.adds[0])),
                (self.also, write_of(outcome / 4, self.adds[1])),
            ],
            said: match self.says {
                Some(channel) => Some((channel, outcome)),
                None => None,
            },
        }
    }
}
