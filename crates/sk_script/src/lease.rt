//! Leases.
ghost use Rattle.std.specs.Prelude.{◌≡◌, Some};
ghost use Rattle.std.specs.Arc.{arc_value};
ghost use Rattle.sk_script.specs.Lease.{leased, ran, Advances, after_private};

use crate::{Process, Script};
use std::marker::Model;
use std::sync::Arc;

/// A process that does private instructions away from its kernel. It can't be dropped: hand it in, or give
/// it up.
pub struct Lease {
    lent: Process,
    script: Arc<Script>,
    count: u32,
    current: Process,
}

impl Model for Lease {
    ghost use Rattle.std.specs.Prelude.{◌≡◌, Some};
    ghost use Rattle.std.specs.Arc.{arc_value};
    ghost use Rattle.sk_script.specs.Lease.{LeaseView, after_private};

    ghost Value = { LeaseView };

    ghost view = { λ l. record
        { lent = l.lent; script = arc_value l.script; count = l.count; now = l.current } };

    ghost invariant = { λ l. after_private (arc_value l.script) l.count l.lent ≡ Some l.current };
}

impl Lease {
    /// Lends a process, with its script.
    pub fn of(process: Process, script: Arc<Script>) -> Lease
        ensures { result ≡ leased process (arc_value script) }
    {
        let now = process;
        Lease {
            lent: process,
            script,
            count: 0,
            current: now,
        }
    }

    /// Does one private instruction, or answers false and changes nothing.
    fn advance(&mut self) -> bool
        ensures { Advances result self.old self.new }
    {
        if self.count == u32::MAX {
            return false;
        }
        if !self.current.private(&self.script) {
            return false;
        }
        self.count += 1;
        true
    }

    /// Does up to n private instructions. It stops before one that is not private, and where the count is at
    /// its last value. This takes no memory, and waits for nobody.
    pub fn run(&mut self, n: u32)
        ensures { self.new ≡ ran n self.old }
    {
        for _ in 0..n {
            if !self.advance() {
                break;
            }
        }
    }

    /// How many instructions were done.
    pub fn count(&self) -> u32
        ensures { result ≡ self.now.count }
    {
        self.count
    }

    /// The process as it was lent.
    pub fn lent(&self) -> &Process
        ensures { result.now ≡ self.now.lent }
    {
        &self.lent
    }

    /// The process after the instructions.
    pub fn now(&self) -> &Process
        ensures value { result.now ≡ self.now.now }
        ensures done { after_private self.now.script self.now.count self.now.lent
            ≡ Some result.now }
    {
        &self.current
    }

    pub fn script(&self) -> &Script
        ensures { result.now ≡ self.now.script }
    {
        &self.script
    }

    /// Ends a lease that is not handed in.
    pub fn give_up(self) {
        let Lease {
            lent: _,
            script: _,
            count: _,
            current: _,
        } = self;
    }
}
