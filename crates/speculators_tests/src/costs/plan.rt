//! How many steps and guesses are asked for.
use std::alloc::Alloc;
use std::env;
use std::env::Env;

/// How many keys steps go over.
pub const KEYS: u64 = 100;

/// What is asked for.
#[derive(Clone, Copy)]
pub struct Plan {
    /// How many keys there are at the start.
    pub present: u64,
    /// How many guesses of others are open, each with a key of its own behind those that steps go over.
    pub others: u64,
    pub guesses: u64,
    /// How many steps each guess has beside its own; without guesses, how many there are.
    pub steps: u64,
}

/// The number that the environment says, or another where it says none.
fn number<R: Env + Alloc>(rt: &R, name: &str, other: u64) -> u64 {
    match env::var(rt, name) {
        Ok(text) => text.parse::<u64>().unwrap_or(other),
        Err(_) => other,
    }
}

/// What the environment asks for; a little where it says nothing.
pub fn read_plan<R: Env + Alloc>(rt: &R) -> Plan {
    Plan {
        present: number(rt, "PRESENT", KEYS),
        others: number(rt, "OTHERS", 3),
        guesses: number(rt, "GUESSES", 10),
        steps: number(rt, "STEPS", 10),
    }
}
