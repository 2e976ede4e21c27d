//! A kernel over numbers, and what of it is held against the record.
use crate::job::bit_of;
use sk_guesses::Guess;
use sk_ids::GuessId;
use sk_inversion::Sum;
use sk_speculator::{Committed, Failed, Speculator};
use std::process::Abort;

/// The kernel.
pub type Numbers = Speculator<u32, u64, u64, Sum>;

/// What a failure tells: a bit for each key, or `None` where they do not rise, and how many guesses it struck.
#[derive(Clone, Copy, PartialEq, Eq)]
pub struct Told {
    pub keys: Option<u64>,
    pub struck: usize,
}

/// How many guesses there are.
#[derive(Clone, Copy, PartialEq, Eq)]
pub struct Counts {
    pub undecided: usize,
    /// How many struck ones have tokens that are out.
    pub struck: usize,
    /// The oldest undecided one, or the next one where none is undecided.
    pub settled: u64,
}

/// Spends a token by a commit.
pub fn commit(rt: &impl Abort, kernel: &mut Numbers, token: Guess) -> Committed {
    match kernel.commit(token) {
        Ok(committed) => committed,
        Err(_token) => panic!(rt; "a stranger"),
    }
}

/// Spends a token by a failure; `None` where its guess was struck before.
pub fn fail(rt: &impl Abort, kernel: &mut Numbers, token: Guess) -> Option<Told> {
    match kernel.fail(token) {
        Ok(Failed::Done(undone)) => Some(Told {
            keys: bits_of(undone.keys.as_slice()),
            struck: undone.struck,
        }),
        Ok(Failed::Gone) => None,
        Err(_token) => panic!(rt; "a stranger"),
    }
}

/// A bit for each of these keys; `None` where they do not rise.
fn bits_of(keys: &[u32]) -> Option<u64> {
    let mut bits = 0u64;
    for key in keys {
        let bit = bit_of(*key as usize);
        if bit <= bits {
            return None;
        }
        bits |= bit;
    }
    Some(bits)
}

/// Whether these are the keys that a kernel has, a bit for each.
pub fn has_keys(kernel: &Numbers, keys: u64) -> bool {
    let mut told: u64 = 0;
    for key in kernel.keys() {
        let bit = bit_of(*key as usize);
        if told & bit != 0 {
            return false;
        }
        told |= bit;
    }
    told == keys
}

/// A bit for each key that depends on a guess; `None` where they do not rise.
pub fn dependents(kernel: &Numbers, id: GuessId) -> Option<u64> {
    bits_of(kernel.dependents(id))
}

pub fn counted(kernel: &Numbers) -> Counts {
    Counts {
        undecided: kernel.undecided(),
        struck: kernel.struck().len(),
        settled: kernel.settled(),
    }
}

/// Whether a channel that a kernel names is one of these, a bit for each, and none is named where there are none.
pub fn names_one_of(kernel: &Numbers, channels: u64) -> bool {
    match kernel.next_channel() {
        Some(channel) => channels & bit_of(usize::from(channel)) != 0,
        None => channels == 0,
    }
}

/// Ends a kernel; whether no guess of it is undecided.
pub fn shuts(kernel: Numbers) -> bool {
    match kernel.shut() {
        Ok(left) => {
            drop(left);
            true
        }
        Err(kernel) => {
            drop(kernel);
            false
        }
    }
}
