//! Tests of the kernel over its user's own keys, of which no door shows numbers: writes and what puts them back, numbers that are
//! added to, random runs, each held after each call against a plain record of the steps that depend on no failed guess, which does
//! them again from nothing, what grows past 70,000 in it with ample memory, and what steps cost beside open guesses of others.
//! Kernels over byte strings are tested through C's calls (`rust/tests/random.rs`, `rust/tests/growths`).
#![tactic(auto)]

#[cfg(test)]
mod costs;
#[cfg(test)]
mod growths;
#[cfg(test)]
mod inversion;
#[cfg(test)]
mod job;
#[cfg(test)]
mod kernel;
#[cfg(test)]
mod own;
#[cfg(test)]
mod record;
#[cfg(test)]
mod runs;
#[cfg(test)]
mod session;
#[cfg(test)]
mod step;
#[cfg(test)]
mod sums;
#[cfg(test)]
mod wrong;
