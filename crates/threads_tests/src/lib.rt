//! The tests of wires, and of workers who share a desk, over their public calls.
#![tactic(auto)]

#[cfg(test)]
mod books;
#[cfg(test)]
mod leases;
#[cfg(test)]
mod replies;
#[cfg(test)]
mod rounds;
#[cfg(test)]
mod same;
#[cfg(test)]
mod shares;
#[cfg(test)]
mod sizes;
#[cfg(test)]
mod start;
#[cfg(test)]
mod two_threads;
#[cfg(test)]
mod wire;
