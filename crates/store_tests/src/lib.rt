//! What no call of a store shows of what it is made of: the bytes of a frame, a record that is withdrawn, tickets that do not wait,
//! whose a batch is, and the bytes of replies. All else is tested through C's calls (`rust/tests/calls`, `rust/tests/store`).
#![tactic(auto)]

#[cfg(test)]
mod check;
#[cfg(test)]
mod frames;
#[cfg(test)]
mod owners;
#[cfg(test)]
mod replies;
#[cfg(test)]
mod tickets;
#[cfg(test)]
mod withdrawn;
