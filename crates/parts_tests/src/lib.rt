//! The tests of the parts of a kernel over those public calls that no door shows: identifiers, values and changes, traces and
//! guesses. What texts say, private instructions and terminals are tested through C's calls (`rust/tests/calls`). Tests stand in
//! crates of their own, since the checker proves a crate anew for its tests.
#![tactic(auto)]

#[cfg(test)]
mod changes;
#[cfg(test)]
mod guesses;
#[cfg(test)]
mod ids;
#[cfg(test)]
mod lists;
#[cfg(test)]
mod plain;
#[cfg(test)]
mod random;
#[cfg(test)]
mod sizes;
#[cfg(test)]
mod traces;
#[cfg(test)]
mod values;
