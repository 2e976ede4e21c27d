//! The tests of records, kernels, servers and a client's desks over those public calls that no door shows; what can grow through doors
//! is grown past 70,000 there (`rust/tests/growths`).
#![tactic(auto)]

#[cfg(test)]
mod ample_server;
#[cfg(test)]
mod asking;
#[cfg(test)]
mod dependents;
#[cfg(test)]
mod desk_leases;
#[cfg(test)]
mod desk_shuts;
#[cfg(test)]
mod epochs;
#[cfg(test)]
mod growths;
#[cfg(test)]
mod kernels;
#[cfg(test)]
mod leases;
#[cfg(test)]
mod logs;
#[cfg(test)]
mod openings;
#[cfg(test)]
mod plays;
#[cfg(test)]
mod records;
#[cfg(test)]
mod server;
#[cfg(test)]
mod sizes;
#[cfg(test)]
mod start;
#[cfg(test)]
mod turns;
