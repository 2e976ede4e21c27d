//! The speculative kernel.
ghost use Rattle.std.specs.Prelude.{◌≡◌, ◌↔◌, ℕ, true, is_some, length, IfOk, IfSome, MatchOption, None, Some, []};
ghost use Rattle.sk_kernel.specs.Base.{All, IsStrictlySortedBy, entity_cmp, is_in, has, Entity, next_of, unplanned};
ghost use Rattle.sk_kernel.specs.Base.{PlansStep, told, cause, Shows, names_in, IsPresent, entities_of, input_in};
ghost use Rattle.sk_kernel.specs.Base.{Status, look_at, released_at};
ghost use Rattle.std.specs.FinMap as map;
ghost use Rattle.sk_script.specs.declared.instruction.Input.TheVariants as inputs;
ghost use Rattle.sk_trace.specs.declared.event.Event.TheVariants as events;
ghost use Rattle.sk_kernel.specs.Kernel.{booted, state_at, undecided_at, tags_at, texts_at, said_by_record, room, next_guess, settled, entry, effect_at, is_other, next_at, no_room, step_misfit, or_else, guess_misfits, too_many, step_refused, guess_refused, HasStatus, RestsOn};
ghost use Rattle.sk_kernel.specs.Footprint.{footprint_of};
ghost use Rattle.sk_kernel.specs.Opening.{opening_of};
ghost use Rattle.sk_kernel.specs.Laws.{HasSoundTrace};
ghost use Rattle.sk_kernel.specs.Calls.{StepPost, GuessPost, CommitPost, FailPost, EpochPost, ShowsTerminal, LeavesTexts, PlansGuess};

use crate::room::is_crowded;
use crate::{Footprint, Opening};
use sk_guesses::{Guess, Redeemed, Status};
use sk_ids::{Entity, GuessId, ObjId, Pid, TagSet};
use sk_machine::Machine;
use sk_plain::{
    Event, InputRef, Next, Plan, Refusal, Trace, View, heading_of, next_of, plan_into, plan_step,
};
use sk_script::{Boot, Input};
use sk_store::{Look, Present};
use sk_terminal::{Terminal, Texts};
use std::alloc::{AllocError, Global};
use std::marker::Model;
use std::mem;
use thiserror::Error;

/// What a decision came to.
#[derive(Clone, Copy, Debug, PartialEq, Eq)]
pub enum Outcome {
    Done,
    /// The guess was struck by another's failure: nothing is left to decide.
    Gone,
}

/// A token that is not this kernel's, or whose guess is decided; it comes back.
pub struct Stranger {
    pub guess: Guess,
}

/// Why a failure was not taken; the token comes back, and nothing has changed.
pub enum FailRefusal {
    Stranger(Guess),
}

/// A kernel whose processes go on from guessed replies. Contracts see its number, its scripts, the state that its
/// trace begins at, its trace limit, what became of the guesses of earlier epochs, and its trace, from which all
/// else follows by definition.
#[derive(Drop)]
pub struct Kernel {
    pub(crate) opening: Opening,
    pub(crate) trace: Trace,
    pub(crate) machine: Machine,
    /// The place for the plan of a step, so that none is cleared at each. What it holds says nothing.
    plan: Plan,
}

impl Model for Kernel {
    ghost use Rattle.sk_kernel.specs.Kernel.{KernelView, kernel_code};
    ghost use Rattle.std.specs.Prelude.{◌≡◌};
    ghost use Rattle.sk_kernel.specs.Opening.{begun_at, opening_of};
    ghost use Rattle.sk_kernel.specs.Invariant.{IsWhole};

    ghost Value = { KernelView };

    ghost coded = { kernel_code };

    ghost view = { λ k. begun_at k.opening k.machine.guesses.kernel k.machine.guesses.earlier
        k.trace.events };

    ghost invariant = { λ k.
        let guesses = k.machine.guesses in
        let v = begun_at k.opening guesses.kernel guesses.earlier k.trace.events in
        IsWhole v k.machine k.trace.room × (k.opening ≡ opening_of v) };
}

/// Why no epoch was begun; nothing has changed.
#[derive(Clone, Copy, Debug, PartialEq, Eq, Error)]
pub enum EpochRefusal {
    /// So many guesses are undecided.
    #[error("{0} guesses are undecided")]
    Undecided(usize),
    #[error("out of memory")]
    Memory,
}

/// What a step with an input will do, or why it is refused, by the scripts of the opening.
fn plan_at(
    machine: &Machine,
    opening: &Opening,
    pid: Pid,
    input: InputRef<'_>,
) -> Result<Plan, Refusal>
    ensures { PlansStep (look_at machine.now.slots) opening.now.start.scripts pid
        (input_in input.entry) result }
{
    plan_step(machine, opening.scripts(), pid, input)
}

/// What a guess with an input will do, or why it is refused.
#[inline(always)]
fn plan_guess(
    machine: &Machine,
    opening: &Opening,
    pid: Pid,
    input: InputRef<'_>,
    plan: &mut Plan,
) -> Result<(), Refusal>
    ensures { PlansGuess (look_at machine.now.slots) opening.now.start.scripts pid
        (input_in input.entry) (told result plan.new) }
{
    let planned = plan_into(machine, opening.scripts(), pid, input, plan);
    if let InputRef::None = input {
        return Err(match planned {
            Err(Refusal::NoProcess) => Refusal::NoProcess,
            Err(Refusal::Ended) => Refusal::Ended,
            _ => Refusal::Mismatch,
        });
    }
    planned?;
    Ok(())
}

/// Whether a process does next what has no name of its own.
fn is_other(next: &Next) -> bool
    ensures { result ≡ is_other next.now }
{
    matches!(next, Next::Other)
}

impl Kernel {
    /// A kernel of this number and trace limit, as it is booted. It keeps a copy of the start.
    pub fn boot(alloc: Global, number: u64, boot: &Boot, limit: u32) -> Result<Kernel, AllocError>
        ensures { IfOk result (λ kernel. kernel ≡ booted number boot.now limit) }
    {
        let opening = Opening::boot(alloc, number, boot, limit)?;
        let machine = Machine::boot(alloc, number, boot)?;
        Ok(Kernel {
            opening,
            trace: Trace::new(alloc),
            machine,
            plan: Plan::Private,
        })
    }

    /// Where the trace begins: at the boot, or where the last epoch began. Its state, the kernel's number, its trace
    /// limit, and the next guess there. This takes no memory.
    pub fn opening(&self) -> &Opening
        ensures { result.now ≡ opening_of self.now }
    {
        &self.opening
    }

    /// What an entity has; `None` where it is absent.
    pub fn value(&self, entity: &Entity) -> Option<View<'_>>
        ensures { Shows (map.get (state_at self.now) entity.now) result }
    {
        match self.machine.value(*entity) {
            Some(stored) => Some(View::of(stored)),
            None => None,
        }
    }

    /// The undecided guesses that an entity depends on.
    pub fn tags_of(&self, entity: &Entity) -> &TagSet
        ensures computed { result.now ≡ tags_at self.now entity.now }
        ensures exact { (id : ℕ) → (has id result.now ≡ true) ↔ RestsOn self.now entity.now id }
    {
        self.machine.tags_of(entity)
    }

    /// The entities that depend on a guess, by rising order; none where it is not undecided. This takes no
    /// memory.
    pub fn dependents(&self, id: GuessId) -> &[Entity]
        ensures rising { IsStrictlySortedBy entity_cmp result.now }
        ensures exact { (e : Entity) → is_in entity_cmp result.now e ≡ has id (tags_at self.now e) }
    {
        self.machine.dependents(id)
    }

    /// What became of a guess; `None` where it was never drawn.
    pub fn status(&self, id: GuessId) -> Option<Status>
        ensures { (s : Status) → (result ≡ Some s) ↔ HasStatus self.now id s }
    {
        self.machine.status(id)
    }

    /// The texts of a terminal; `None` where none was said that counts.
    pub fn terminal(&self, number: u16) -> Option<&Terminal>
        ensures { MatchOption result
            ((texts_at self.now number ≡ []) × (said_by_record self.now number ≡ []))
            (λ terminal. ShowsTerminal self.now number terminal.now) }
    {
        self.machine.terminal(number)
    }

    /// All that was done since the epoch began, in order: a sound trace.
    pub fn trace(&self) -> &Trace
        ensures events { result.now.events ≡ self.now.trace }
        ensures sound { HasSoundTrace self.now }
    {
        &self.trace
    }

    /// The entities that are present, each once, by rising order.
    pub fn entities(&self) -> Result<Vec<Entity>, AllocError>
        ensures present { IfOk result (λ entities. entities.items ≡ map.keys (state_at self.now)) }
        ensures rising { IfOk result (λ entities. IsStrictlySortedBy entity_cmp entities.items) }
    {
        self.machine.entities()
    }

    /// The entities that are present, each once, by rising order, with what they have and the undecided guesses that they
    /// depend on.
    pub fn entries(&self) -> Result<Vec<Present<'_>>, AllocError>
        ensures present { IfOk result
            (λ all. entities_of all.items ≡ map.keys (state_at self.now)) }
        ensures each { IfOk result (λ all. All
            (IsPresent (map.get (state_at self.now)) (tags_at self.now)) all.items) }
    {
        self.machine.entries()
    }

    /// How many guesses are undecided.
    pub fn undecided(&self) -> usize
        ensures { result ≡ length (undecided_at self.now) }
    {
        self.machine.open_count()
    }

    /// The places of the trace that are free, with one kept for the decision of each undecided guess.
    pub fn room(&self) -> usize
        ensures { result ≡ room self.now }
    {
        (self.opening.limit() as usize)
            .saturating_sub(self.trace.events().len())
            .saturating_sub(self.machine.open_count())
    }

    /// The number of the oldest undecided guess, or of the next one where none is undecided.
    pub fn settled(&self) -> u64
        ensures { result ≡ settled self.now }
    {
        self.machine.settled()
    }

    /// Why a step would be refused, the trace's limit and want of memory aside.
    pub fn step_refusal(&self, pid: Pid, input: InputRef<'_>) -> Option<Refusal>
        ensures exact { result ≡ step_misfit self.now (entry pid (input_in input.entry) None) }
        ensures told { IfSome result (λ why. cause why ≡ Some why) }
    {
        match plan_at(&self.machine, &self.opening, pid, input) {
            Ok(plan) => is_crowded(&self.machine, &plan).then_some(Refusal::NoRoom),
            Err(why) => Some(why),
        }
    }

    /// Why a guess would be refused, the trace's limit and want of memory aside.
    pub fn guess_refusal(&self, pid: Pid, input: InputRef<'_>) -> Option<Refusal>
        ensures exact { result ≡ or_else
            (guess_misfits (input_in input.entry)
            (effect_at self.now
            (entry pid (input_in input.entry) (Some (next_guess self.now))))) (too_many self.now) }
        ensures told { IfSome result (λ why. cause why ≡ Some why) }
    {
        let mut plan = Plan::Private;
        if let Err(why) = plan_guess(&self.machine, &self.opening, pid, input, &mut plan) {
            return Some(why);
        }
        if self.machine.is_full() {
            return Some(Refusal::TooMany);
        }
        None
    }

    /// What the next step of a process with an input would read and write. Refused as the step would be, the
    /// limits of the trace and of directories aside. This takes no memory.
    pub fn footprint(&self, pid: Pid, input: InputRef<'_>) -> Result<Footprint, Refusal>
        ensures { result ≡ footprint_of
            (effect_at self.now (entry pid (input_in input.entry) None)) }
    {
        match plan_at(&self.machine, &self.opening, pid, input) {
            Ok(plan) => Ok(Footprint {
                reads: plan.reads(pid, input),
                writes: plan.writes(pid),
            }),
            Err(why) => Err(why),
        }
    }

    /// What a process does next in the plain kernel.
    fn plain_next(&self, pid: Pid) -> Result<Next, Refusal>
        ensures { result ≡ next_of (map.get (state_at self.now)) self.now.scripts pid }
    {
        next_of(&self.machine, self.opening.scripts(), pid)
    }

    /// What a process does next. Refused with `NoProcess` or `Ended`. This takes no memory.
    pub fn next_of(&self, pid: Pid) -> Result<Next, Refusal>
        ensures { result ≡ next_at self.now pid }
    {
        match self.plain_next(pid) {
            Ok(next) => {
                if is_other(&next) && self.lacks_room(pid) {
                    return Ok(Next::Full);
                }
                Ok(next)
            }
            Err(why) => Err(why),
        }
    }

    /// What a process does next, told without a plan: a signal, a fetch and a store are told apart, and all else is
    /// `Other`. Refused with `NoProcess` or `Ended`. This takes no memory.
    pub fn heading(&self, pid: Pid) -> Result<Next, Refusal>
        ensures { result ≡ unplanned (next_at self.now pid) }
    {
        heading_of(&self.machine, self.opening.scripts(), pid)
    }

    /// Whether the step of a process without input would add a name to a directory that has no room for it.
    fn lacks_room(&self, pid: Pid) -> bool
        ensures { result ≡ is_some
            (no_room (state_at self.now)
            (effect_at self.now (entry pid inputs.None None))) }
    {
        match plan_at(&self.machine, &self.opening, pid, InputRef::None) {
            Ok(plan) => is_crowded(&self.machine, &plan),
            Err(_) => false,
        }
    }

    /// How many names of a directory are there. This takes no memory.
    pub fn names_of(&self, directory: &ObjId) -> usize
        ensures { result ≡ names_in (state_at self.now) directory.now }
    {
        self.machine.names(directory)
    }

    /// Takes a step of a process with an input. After a refusal the kernel is as it was.
    pub fn step(&mut self, pid: Pid, input: Input) -> Result<(), Refusal>
        ensures { StepPost result (step_refused self.old (entry pid input None))
            (events.Step pid input) self.old self.new }
    {
        self.step_lent(pid, InputRef::of(&input))
    }

    /// Draws the next guess and takes its step with the guessed input. After a refusal the kernel is
    /// as it was.
    pub fn create_speculation(&mut self, pid: Pid, input: Input) -> Result<Guess, Refusal>
        ensures { GuessPost result
            (guess_refused self.old (entry pid input (Some (next_guess self.old)))) pid input
            self.old self.new }
    {
        self.speculate_lent(pid, InputRef::of(&input))
    }

    /// Takes a step of a process with an input that is lent, as `step` does. After a refusal the kernel is as it was.
    pub fn step_lent(&mut self, pid: Pid, input: InputRef<'_>) -> Result<(), Refusal>
        ensures { StepPost result
            (step_refused self.old (entry pid (input_in input.entry) None))
            (events.Step pid (input_in input.entry)) self.old self.new }
    {
        let room = self.room();
        let scripts = self.opening.scripts();
        let found = match plan_into(&self.machine, scripts, pid, input, &mut self.plan) {
            Ok(found) => found,
            Err(why) => return Err(why),
        };
        if is_crowded(&self.machine, &self.plan) {
            return Err(Refusal::NoRoom);
        }
        let _limit = self.opening.limit();
        if room < 1 {
            return Err(Refusal::TraceFull);
        }
        if self.trace.reserve(self.machine.open_count() + 1).is_err() {
            return Err(Refusal::Memory);
        }
        let kept = match self.trace.keep(input) {
            Ok(kept) => kept,
            Err(_) => return Err(Refusal::Memory),
        };
        if self
            .machine
            .take_step(scripts, pid, input, &self.plan, found)
            .is_err()
        {
            return Err(Refusal::Memory);
        }
        self.trace.push(Event::Step { pid, input: kept });
        Ok(())
    }

    /// Draws the next guess and takes its step with a guessed input that is lent. After a refusal the kernel is
    /// as it was.
    pub fn speculate_lent(&mut self, pid: Pid, input: InputRef<'_>) -> Result<Guess, Refusal>
        ensures { GuessPost result
            (guess_refused self.old
            (entry pid (input_in input.entry) (Some (next_guess self.old)))) pid
            (input_in input.entry) self.old self.new }
    {
        let room = self.room();
        plan_guess(&self.machine, &self.opening, pid, input, &mut self.plan)?;
        let _limit = self.opening.limit();
        if self.machine.is_full() {
            return Err(Refusal::TooMany);
        }
        if room < 2 {
            return Err(Refusal::TraceFull);
        }
        if self.trace.reserve(self.machine.open_count() + 2).is_err() {
            return Err(Refusal::Memory);
        }
        let kept = match self.trace.keep(input) {
            Ok(kept) => kept,
            Err(_) => return Err(Refusal::Memory),
        };
        let Ok(guess) = self
            .machine
            .take_guess(self.opening.scripts(), pid, input, &self.plan)
        else {
            return Err(Refusal::Memory);
        };
        let id = guess.id();
        let input = kept;
        self.trace.push(Event::Guess { id, pid, input });
        Ok(guess)
    }

    /// Commits a guess: nothing depends on it any more. This takes no memory.
    pub fn commit_speculation(&mut self, guess: Guess) -> Result<Outcome, Stranger>
        ensures { CommitPost result guess self.old self.new }
    {
        let redeemed = match self.machine.redeem(guess) {
            Ok(redeemed) => redeemed,
            Err(guess) => return Err(Stranger { guess }),
        };
        match redeemed {
            Redeemed::Struck(_gone) => Ok(Outcome::Gone),
            Redeemed::Undecided(id) => {
                self.machine.commit(id);
                self.trace.push(Event::Commit(id));
                Ok(Outcome::Done)
            }
        }
    }

    /// Fails a guess: what depends on it is taken back, in place and without memory.
    pub fn fail_speculation(&mut self, guess: Guess) -> Result<Outcome, FailRefusal>
        ensures { FailPost result guess self.old self.new }
    {
        let redeemed = match self.machine.redeem(guess) {
            Ok(redeemed) => redeemed,
            Err(guess) => return Err(FailRefusal::Stranger(guess)),
        };
        match redeemed {
            Redeemed::Struck(_struck) => Ok(Outcome::Gone),
            Redeemed::Undecided(id) => {
                self.machine.fail(id);
                self.trace.push(Event::Fail(id));
                Ok(Outcome::Done)
            }
        }
    }

    /// Ends a kernel of which no guess is undecided: its trace, and what its terminals have released. This
    /// takes no memory.
    pub fn shut(self) -> (Trace, Texts)
        requires { undecided_at self ≡ [] }
        ensures trace { result.0.events ≡ self.trace }
        ensures texts { (t : ℕ) → LeavesTexts self t (released_at result.1 t) }
    {
        (self.trace, self.machine.into_texts())
    }

    /// The opening of an epoch that begins now.
    fn next_opening(&self) -> Result<Opening, AllocError>
        ensures { IfOk result
            (λ opening. opening
            ≡ record {
              start = record
                  { scripts = self.now.scripts; state = state_at self.now; texts = map.empty };
              number = self.now.number;
              limit = self.now.limit;
              guess = next_guess self.now;
            }) }
    {
        let store = self.machine.present()?;
        self.opening.later(store, self.machine.next_number())
    }

    /// Begins a new epoch where no guess is undecided: what entities have now is the start, and what was done
    /// and released is handed out. Numbers of guesses go on, and each guess keeps its status. It copies the state,
    /// while the old start is still there.
    pub fn new_epoch(&mut self) -> Result<(Trace, Texts), EpochRefusal>
        ensures { EpochPost result self.old self.new }
    {
        let undecided = self.undecided();
        if undecided > 0 {
            return Err(EpochRefusal::Undecided(undecided));
        }
        let Ok(opening) = self.next_opening() else {
            return Err(EpochRefusal::Memory);
        };
        let Ok(texts) = self.machine.settle() else {
            return Err(EpochRefusal::Memory);
        };
        self.opening = opening;
        let trace = mem::replace(&mut self.trace, Trace::new(self.machine.alloc()));
        Ok((trace, texts))
    }
}
