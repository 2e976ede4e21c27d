//! Private instructions that a process of what is at play does away from its kernel.
ghost use Rattle.std.specs.Prelude.{Some, None, MatchResult};
ghost use Rattle.sk_talk.specs.Leases.{LeaseComes};

use crate::play::Play;
use sk_ids::Pid;
use sk_play::{LeaseTold, lease_in_world};
use std::alloc::AllocError;

impl Play {
    /// Lends a process, has it do up to so many private instructions, and hands it in: each is a step of the trace. What is
    /// refused changes nothing.
    pub fn lease(&mut self, pid: Pid, count: u32) -> Result<LeaseTold, AllocError>
        ensures { MatchResult result
            (λ told. LeaseComes (Some told) pid count self.old self.new)
            (λ _. LeaseComes None pid count self.old self.new) }
    {
        match self {
            Play::Steps(session) => session.lease(pid, count),
            Play::World(world) => lease_in_world(world, pid, count),
        }
    }
}
