//! What is played: a kernel, by calls, or a world, by events.
ghost use Rattle.sk_run.specs.Base.{declared_world, world_report_text};
ghost use Rattle.sk_run.specs.Run.{declared_session, kernel_of_session, session_report, kernel_of_world, noted_nowhere, CallTakes, EventTakes};
ghost use Rattle.sk_run.specs.Explained.{process_of_call, process_of_event};

use crate::explaining::{process_of_call, process_of_event};
use crate::listing::{foresee, write_foreseen};
use sk_client::World;
use sk_ids::Pid;
use sk_kernel::Kernel;
use sk_play::{
    Line, Session, happen, happen_line, put_answer, upcoming, world_of, write_answer, write_told,
    write_world_report,
};
use sk_report::{Stop, write_report};
use sk_scenario::{Call, Declarations, KeptEvent};
use std::alloc::{AllocError, Global};
use std::io::Write;

/// A kernel or a world that plays the items of a scenario.
pub trait Player: Sized {
    ghost use Rattle.std.specs.Prelude.{◌≡◌, ℕ, Bool, List, Option, IfOk, OnOk, Err, true, false};
    ghost use Rattle.std.specs.Io.KnownBytes.{Appends};
    ghost use Rattle.sk_kernel.specs.Kernel.{KernelView};
    ghost use Rattle.sk_report.specs.declared.stop.Stop.TheVariants as stops;
    ghost use Rattle.sk_scenario.specs.Declarations.{Declared};
    ghost use Rattle.sk_run.specs.InTurn.{Lists, Writes};

    /// A call or an event.
    type Item;

    /// What plays a declared scenario, at its start.
    ghost declared: { Declared → Self };

    /// Its kernel.
    ghost kernel_of: { Self → KernelView };

    /// Whether an item was refused, where that is noted.
    ghost has_refusal: { Self → Bool };

    /// The process of an item, where it is of one alone.
    ghost process_of: { Self.Item → Option ℕ };

    /// What it is to take an item of a number: what it leaves, and the line that is told of it.
    ghost takes: { ℕ → Self.Item → Self → Self → List ℕ → Type 0 };

    /// Its report.
    ghost report: { Self → List ℕ };

    /// What plays a declared scenario, at its start.
    fn begin(alloc: Global, declarations: &Declarations) -> Result<Self, AllocError>
        ensures { IfOk result (λ player. player ≡ declared declarations.now) };

    /// Its kernel.
    fn inner_kernel(&self) -> &Kernel
        ensures { result.now ≡ kernel_of self.now };

    /// Whether an item was refused, where that is noted.
    fn is_refused(&self) -> bool
        ensures { result ≡ has_refusal self.now };

    /// The process of an item, where it is of one alone.
    fn process(item: &Self::Item) -> Option<Pid>
        ensures { result ≡ process_of item.now };

    /// Takes an item, and writes the line that is told of it.
    fn take<W: Write>(&mut self, number: usize, item: &Self::Item, out: &mut W) -> Result<(), Stop>
        ensures told { OnOk result
            (Writes (Lists kernel_of takes false) number item.now self.old self.new
            (W.contents out.old) (W.contents out.new)) }
        ensures memory { result ≡ Err stops.Memory → out.new ≡ out.old };

    /// Takes an item, and writes the line that is told of it, and below that what it touched.
    fn list<W: Write>(&mut self, number: usize, item: &Self::Item, out: &mut W) -> Result<(), Stop>
        ensures told { OnOk result
            (Writes (Lists kernel_of takes true) number item.now self.old self.new
            (W.contents out.old) (W.contents out.new)) }
        ensures memory { result ≡ Err stops.Memory → out.new ≡ out.old };

    fn write_report<W: Write>(&self, alloc: Global, out: &mut W) -> Result<(), Stop>
        ensures { OnOk result
            (Appends (W.contents out.old) (W.contents out.new) (report self.now)) };

    /// Fails the guesses that are left, and ends.
    fn finish(self);
}

impl Player for Session {
    type Item = Call;

    ghost declared = { declared_session };

    ghost kernel_of = { kernel_of_session };

    ghost has_refusal = { noted_nowhere };

    ghost process_of = { process_of_call };

    ghost takes = { CallTakes };

    ghost report = { session_report };

    fn begin(alloc: Global, declarations: &Declarations) -> Result<Session, AllocError> {
        Session::new(alloc, declarations)
    }

    fn inner_kernel(&self) -> &Kernel {
        self.kernel()
    }

    fn is_refused(&self) -> bool {
        false
    }

    fn process(item: &Call) -> Option<Pid> {
        process_of_call(item)
    }

    fn take<W: Write>(&mut self, number: usize, item: &Call, out: &mut W) -> Result<(), Stop> {
        let answer = self.execute(item)?;
        let mut line = Line::new();
        put_answer(number, &answer, &mut line);
        out.write_all(line.as_bytes())?;
        Ok(())
    }

    fn list<W: Write>(&mut self, number: usize, item: &Call, out: &mut W) -> Result<(), Stop> {
        let foreseen = foresee(self.kernel(), upcoming(item));
        let answer = self.execute(item)?;
        write_answer(number, &answer, out)?;
        write_foreseen(self.kernel(), &foreseen, out)?;
        Ok(())
    }

    fn write_report<W: Write>(&self, alloc: Global, out: &mut W) -> Result<(), Stop> {
        write_report(alloc, self.kernel(), out)
    }

    fn finish(self) {
        self.end();
    }
}

impl Player for World {
    type Item = KeptEvent;

    ghost declared = { declared_world };

    ghost kernel_of = { kernel_of_world };

    ghost has_refusal = { noted_nowhere };

    ghost process_of = { process_of_event };

    ghost takes = { EventTakes };

    ghost report = { world_report_text };

    fn begin(alloc: Global, declarations: &Declarations) -> Result<World, AllocError> {
        world_of(alloc, declarations)
    }

    fn inner_kernel(&self) -> &Kernel {
        self.desk().kernel()
    }

    fn is_refused(&self) -> bool {
        false
    }

    fn process(item: &KeptEvent) -> Option<Pid> {
        process_of_event(item)
    }

    fn take<W: Write>(&mut self, number: usize, item: &KeptEvent, out: &mut W) -> Result<(), Stop> {
        let mut line = Line::new();
        happen_line(self, number, item.lend(), &mut line)?;
        out.write_all(line.as_bytes())?;
        Ok(())
    }

    fn list<W: Write>(&mut self, number: usize, item: &KeptEvent, out: &mut W) -> Result<(), Stop> {
        let foreseen = foresee(self.desk().kernel(), self.upcoming(item.lend()));
        let told = happen(self, item.lend())?;
        write_told(number, &told, out)?;
        write_foreseen(self.desk().kernel(), &foreseen, out)?;
        Ok(())
    }

    fn write_report<W: Write>(&self, alloc: Global, out: &mut W) -> Result<(), Stop> {
        write_world_report(alloc, self, out)
    }

    fn finish(self) {
        self.abandon();
    }
}
