//! What is played where refusals are to be told: the same, and whether one was met is noted.
ghost use Rattle.std.specs.Prelude.{◌≡◌, ◌||◌};
ghost use Rattle.sk_run.specs.Run.{kernel_of_session, session_report, kernel_of_world};
ghost use Rattle.sk_run.specs.Base.{world_report_text};
ghost use Rattle.sk_run.specs.Explained.{process_of_call, process_of_event};
ghost use Rattle.sk_run.specs.Strict.{declared_strictly, declared_strict_world, is_refusal, is_refusal_told, StrictCallTakes, StrictEventTakes};

use crate::explaining::{process_of_call, process_of_event};
use crate::listing::{foresee, write_foreseen};
use crate::player::Player;
use sk_client::World;
use sk_ids::Pid;
use sk_kernel::Kernel;
use sk_play::{
    CallAnswer, Session, WorldTold, happen, upcoming, world_of, write_answer, write_told,
    write_world_report,
};
use sk_report::{Stop, write_report};
use sk_scenario::{Call, Declarations, KeptEvent};
use std::alloc::{AllocError, Global};
use std::io::Write;

/// A kernel at play by calls, and whether one was refused.
pub struct StrictSession {
    session: Session,
    is_refused: bool,
}

/// A world at play by events, and whether one was refused.
pub struct StrictWorld {
    world: World,
    is_refused: bool,
}

/// Whether a call was refused, this answer included.
fn noted(is_refused: bool, answer: &CallAnswer) -> bool
    ensures { result ≡ (is_refused || is_refusal answer.now) }
{
    match answer {
        CallAnswer::Refused(_) => true,
        _ => is_refused,
    }
}

/// Whether an event was refused, this one included, of which this is told.
fn noted_told(is_refused: bool, told: &WorldTold) -> bool
    ensures { result ≡ (is_refused || is_refusal_told told.now) }
{
    match told {
        WorldTold::Refused(_) | WorldTold::OtherVersion => true,
        WorldTold::Answered(_) | WorldTold::Idle => is_refused,
    }
}

impl Player for StrictSession {
    type Item = Call;

    ghost declared = { declared_strictly };

    ghost kernel_of = { λ s. kernel_of_session s.session };

    ghost has_refusal = { λ s. s.is_refused };

    ghost process_of = { process_of_call };

    ghost takes = { StrictCallTakes };

    ghost report = { λ s. session_report s.session };

    fn begin(alloc: Global, declarations: &Declarations) -> Result<StrictSession, AllocError> {
        let session = Session::new(alloc, declarations)?;
        Ok(StrictSession {
            session,
            is_refused: false,
        })
    }

    fn inner_kernel(&self) -> &Kernel {
        self.session.kernel()
    }

    fn is_refused(&self) -> bool {
        self.is_refused
    }

    fn process(item: &Call) -> Option<Pid> {
        process_of_call(item)
    }

    fn take<W: Write>(&mut self, number: usize, item: &Call, out: &mut W) -> Result<(), Stop> {
        let answer = self.session.execute(item)?;
        self.is_refused = noted(self.is_refused, &answer);
        write_answer(number, &answer, out)?;
        Ok(())
    }

    fn list<W: Write>(&mut self, number: usize, item: &Call, out: &mut W) -> Result<(), Stop> {
        let foreseen = foresee(self.session.kernel(), upcoming(item));
        let answer = self.session.execute(item)?;
        self.is_refused = noted(self.is_refused, &answer);
        write_answer(number, &answer, out)?;
        write_foreseen(self.session.kernel(), &foreseen, out)?;
        Ok(())
    }

    fn write_report<W: Write>(&self, alloc: Global, out: &mut W) -> Result<(), Stop> {
        write_report(alloc, self.session.kernel(), out)
    }

    fn finish(self) {
        let StrictSession {
            session,
            is_refused: _,
        } = self;
        session.end();
    }
}

impl Player for StrictWorld {
    type Item = KeptEvent;

    ghost declared = { declared_strict_world };

    ghost kernel_of = { λ w. kernel_of_world w.world };

    ghost has_refusal = { λ w. w.is_refused };

    ghost process_of = { process_of_event };

    ghost takes = { StrictEventTakes };

    ghost report = { λ w. world_report_text w.world };

    fn begin(alloc: Global, declarations: &Declarations) -> Result<StrictWorld, AllocError> {
        let world = world_of(alloc, declarations)?;
        Ok(StrictWorld {
            world,
            is_refused: false,
        })
    }

    fn inner_kernel(&self) -> &Kernel {
        self.world.desk().kernel()
    }

    fn is_refused(&self) -> bool {
        self.is_refused
    }

    fn process(item: &KeptEvent) -> Option<Pid> {
        process_of_event(item)
    }

    fn take<W: Write>(&mut self, number: usize, item: &KeptEvent, out: &mut W) -> Result<(), Stop> {
        let told = happen(&mut self.world, item.lend())?;
        self.is_refused = noted_told(self.is_refused, &told);
        write_told(number, &told, out)?;
        Ok(())
    }

    fn list<W: Write>(&mut self, number: usize, item: &KeptEvent, out: &mut W) -> Result<(), Stop> {
        let foreseen = foresee(self.world.desk().kernel(), self.world.upcoming(item.lend()));
        let told = happen(&mut self.world, item.lend())?;
        self.is_refused = noted_told(self.is_refused, &told);
        write_told(number, &told, out)?;
        write_foreseen(self.world.desk().kernel(), &foreseen, out)?;
        Ok(())
    }

    fn write_report<W: Write>(&self, alloc: Global, out: &mut W) -> Result<(), Stop> {
        write_world_report(alloc, &self.world, out)
    }

    fn finish(self) {
        let StrictWorld {
            world,
            is_refused: _,
        } = self;
        world.abandon();
    }
}
