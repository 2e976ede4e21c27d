//! Values in place with their undo logs, the open guesses, statuses and texts.
ghost use Rattle.std.specs.Prelude.{◌≡◌, [], ◌∷◌, ◌++◌, ◌||◌, ◌&&◌, ◌==◌, if◌then◌else◌, ℕ, length, get_or, true, false, is_some, IfOk, IfSome, OnOk, OnErr, Ok, Some, None};
ghost use Rattle.sk_machine.specs.Base.{All, IsStrictlySortedBy, nat_cmp, has, marks, is_in, is_marked, IsTidy};
ghost use Rattle.sk_machine.specs.Base.{numbers, step_tags, tags_at, Fails, MergedTakes, MergedCommits, Undecided};
ghost use Rattle.sk_machine.specs.Base.{Committed, option_copied, redeemed, decided, drawn, is_full, next_of, settled};
ghost use Rattle.sk_machine.specs.Base.{status_of, status_since, undecided_of, is_empty, AllGrow, AllRest, Lightened};
ghost use Rattle.sk_machine.specs.Base.{entity_cmp, Entity, Proc, IsCount, name_there, start_of, look_at, input_in};
ghost use Rattle.sk_machine.specs.Base.{plain, read_by, DoesNext, looked, looks_of, seen_with, written_in, HasRoom};
ghost use Rattle.std.specs.FinMap as map;
ghost use Rattle.sk_store.specs.Present as listed;
ghost use Rattle.sk_machine.specs.Parts.{IsAtStart, IsPlanned, any_rests, machine_of, planned_effect, undo_state_of};
ghost use Rattle.sk_machine.specs.Dependents.{Covers, IsOrdered, tags_in};
ghost use Rattle.sk_machine.specs.Performed.{CanPerformWith, HasPerformed};
ghost use Rattle.sk_machine.specs.Taken.{CanTake, HasTaken};

use crate::as_process::{are_all, set_alike};
use crate::lists::{depend_all, is_alone, relieve_all, relieve_freed, tags_of};
use sk_guesses::{Guess, Guesses, Redeemed, Status};
use sk_ids::{Entity, GuessId, ObjId, Pid, TagSet};
use sk_plain::{Beside, Entities, InputRef, Plan, perform_plan};
use sk_script::{Boot, Instruction, Scripts};
use sk_store::{EntityState, Look, Present, Store};
use sk_terminal::{Terminal, Terminals, Texts};
use sk_undo::Logs;
use std::alloc::{AllocError, Global};
use std::marker::Model;
use std::mem;

/// What a kernel keeps beside its trace.
#[derive(Drop)]
pub struct Machine {
    pub(crate) alloc: Global,
    pub(crate) logs: Logs,
    pub(crate) guesses: Guesses<Entity>,
    terminals: Terminals,
    pub(crate) untagged: TagSet,
}

impl Model for Machine {
    ghost use Rattle.std.specs.Prelude.{◌≡◌, []};
    ghost use Rattle.sk_guesses.specs.Opens.{opens_of};
    ghost use Rattle.sk_machine.specs.Dependents.{AllExact, tags_in};
    ghost use Rattle.sk_machine.specs.Parts.{Parts, parts_code};

    ghost Value = { Parts };

    ghost coded = { parts_code };

    ghost view = { λ m. record {
      slots = m.logs.slots;
      opens = opens_of m.guesses.opens;
      guesses = m.guesses.view;
      texts = m.terminals;
    } };

    ghost invariant = { λ m. AllExact (tags_in m.logs.slots) m.guesses.opens × (m.untagged ≡ []) };
}

impl Look for Machine {
    ghost use Rattle.sk_undo.specs.Logs.{look_at};

    ghost look = { λ m. look_at m.slots };

    #[inline(always)]
    fn value(&self, entity: Entity) -> Option<&EntityState> {
        self.logs.value(entity)
    }
}

/// Performs a plan, whose writes and text depend on the guesses of the next step. Without memory nothing has changed.
#[inline(always)]
fn perform(
    logs: &mut Logs,
    terminals: &mut Terminals,
    scripts: &Scripts,
    pid: Pid,
    input: InputRef<'_>,
    plan: &Plan,
) -> Result<(), AllocError>
    requires { CanPerformWith logs.old.slots logs.old.tags scripts.now pid (input_in input) plan.now }
    ensures { HasPerformed result logs.old.slots logs.old.tags scripts.now pid
        (input_in input.entry) plan.now logs.new.slots terminals.old terminals.new }
{
    perform_plan(logs, terminals, scripts, pid, input, plan)
}

/// Makes room for the next guess and so many dependents of it, and performs its plan. Without memory
/// nothing has changed.
#[inline(always)]
fn perform_guess(
    guesses: &mut Guesses<Entity>,
    logs: &mut Logs,
    terminals: &mut Terminals,
    scripts: &Scripts,
    pid: Pid,
    input: InputRef<'_>,
    plan: &Plan,
    tags: TagSet,
    count: usize,
) -> Result<(), AllocError>
    requires { CanPerformWith logs.old.slots tags scripts.now pid (input_in input) plan.now }
    ensures view { guesses.new.view ≡ guesses.old.view }
    ensures opens { guesses.new.opens ≡ guesses.old.opens }
    ensures room { OnOk result (HasRoom guesses.new count) }
    ensures did { HasPerformed result logs.old.slots tags scripts.now pid (input_in input.entry)
        plan.now logs.new.slots terminals.old terminals.new }
{
    guesses.reserve(count)?;
    logs.set_tags(tags);
    perform(logs, terminals, scripts, pid, input, plan)
}

/// Puts the entities that a plan writes into a list. It stands by itself, so that a guess that writes its process alone has no
/// place for more in its frame.
#[inline(never)]
fn put_all(plan: &Plan, pid: Pid, all: &mut Entities)
    ensures { all.new ≡ written_in pid plan.now }
{
    *all = plan.writes(pid);
}

/// Puts the entities that a plan writes into a list that has the process alone. Most guesses write nothing else.
#[inline(always)]
fn put_written(plan: &Plan, pid: Pid, all: &mut Entities)
    requires { all.old ≡ Proc pid ∷ [] }
    ensures { all.new ≡ written_in pid plan.now }
{
    match plan {
        Plan::Private | Plan::Speaks | Plan::ReadsFile(..) => {}
        Plan::WritesFile(..) | Plan::Received(_) | Plan::Forks(..) => put_all(plan, pid, all),
        Plan::Acts(row) => match row.beside {
            Beside::Nothing => {}
            Beside::One(..) | Beside::Gone(_) => put_all(plan, pid, all),
        },
    }
}

/// Whether there is no guess in a set.
pub(crate) fn is_none(tags: &TagSet) -> bool
    ensures { result ≡ is_empty tags.now }
{
    tags.ids().is_empty()
}

/// Adds guesses to a set. Most sets have them.
fn with_tags(all: TagSet, more: &TagSet) -> Result<TagSet, AllocError>
    ensures { IfOk result (λ both. (g : ℕ) → has g both ≡ (has g all || has g more.now)) }
{
    if all.covers(more) {
        return Ok(all);
    }
    if is_none(&all) {
        return more.copy();
    }
    all.union(more)
}

impl Machine {
    /// What a boot starts from: nothing is noted, no guess drawn, no text said.
    pub fn boot(alloc: Global, number: u64, boot: &Boot) -> Result<Machine, AllocError>
        ensures { IfOk result (λ machine. IsAtStart number (start_of boot.now) machine) }
    {
        let store = Store::start(alloc, boot)?;
        Ok(Machine {
            alloc,
            logs: Logs::open(store)?,
            guesses: Guesses::new(alloc, number),
            terminals: Terminals::new(alloc),
            untagged: TagSet::new(alloc),
        })
    }

    /// Adds to a set the guesses that these entities depend on.
    pub(crate) fn add_tags(&self, tags: TagSet, entities: &[Entity]) -> Result<TagSet, AllocError>
        ensures members { IfOk result
            (λ all. (g : ℕ) → has g all ≡ (has g tags || any_rests self.now g entities.now)) }
        ensures rising { IfOk result (λ all. IsStrictlySortedBy nat_cmp all) }
    {
        let mut all = tags;
        for entity in entities {
            if let Some(more) = self.logs.tags(*entity) {
                all = with_tags(all, more)?;
            }
        }
        let _rising = all.ids();
        Ok(all)
    }

    /// The set of a step's own guess.
    fn own_tags(&self, own: &Option<GuessId>) -> TagSet
        ensures { (g : ℕ) → has g result ≡ is_marked own.now g }
    {
        match own {
            Some(id) => TagSet::of(self.alloc, *id),
            None => TagSet::new(self.alloc),
        }
    }

    /// Adds to a set the guesses of each entity that a planned step touches.
    #[inline(never)]
    fn add_each(
        &self,
        own: TagSet,
        pid: Pid,
        input: InputRef<'_>,
        plan: &Plan,
        written: &[Entity],
    ) -> Result<TagSet, AllocError>
        ensures members { IfOk result (λ all. (g : ℕ)
            → has g all
            ≡ ((has g own
            || any_rests self.now g (read_by pid (input_in input.entry) (looked (looks_of plan.now))))
            || any_rests self.now g written.now)) }
        ensures rising { IfOk result (λ all. IsStrictlySortedBy nat_cmp all) }
    {
        let read = self.add_tags(own, plan.reads(pid, input).as_slice())?;
        self.add_tags(read, written)
    }

    /// Adds to a set the guesses of all that a planned step touches. Where its process depends on all that are open, nothing
    /// else is looked at. It stands by itself, so that a step while no guess is open has no place for what it reads in its frame.
    #[inline(never)]
    fn add_touched(
        &self,
        own: TagSet,
        pid: Pid,
        input: InputRef<'_>,
        plan: &Plan,
        written: &[Entity],
    ) -> Result<TagSet, AllocError>
        requires { IsOrdered (undo_state_of self.now) }
        ensures members { IfOk result (λ all. (g : ℕ)
            → has g all
            ≡ ((has g own
            || any_rests self.now g (read_by pid (input_in input.entry) (looked (looks_of plan.now))))
            || any_rests self.now g written.now)) }
        ensures rising { IfOk result (λ all. IsStrictlySortedBy nat_cmp all) }
    {
        let process = tags_of(&self.logs, &self.untagged, &Entity::Proc(pid));
        if !are_all(&self.guesses, process) {
            return self.add_each(own, pid, input, plan, written);
        }
        let tags = with_tags(own, process)?;
        let _rising = tags.ids();
        Ok(tags)
    }

    /// The guesses that a planned step depends on: those of all that it touches, of which there are none where no guess is
    /// open, and its own.
    #[inline(always)]
    fn step_tags(
        &self,
        scripts: &Scripts,
        pid: Pid,
        input: InputRef<'_>,
        plan: &Plan,
        written: &[Entity],
        own: &Option<GuessId>,
    ) -> Result<TagSet, AllocError>
        requires written { written.now ≡ written_in pid plan.now }
        requires tidy { IsTidy (undo_state_of self.now) }
        requires rising { IsStrictlySortedBy nat_cmp (numbers self.now.opens ++ marks own.now) }
        ensures exact { IfOk result
            (λ tags. tags
            ≡ step_tags (undo_state_of self.now)
            (planned_effect self.now
            (record { pid = pid; input = (input_in input.entry); guess = own.now })
            (seen_with (look_at self.now.slots) scripts.now pid (input_in input.entry) plan.now))) }
        ensures own { IfOk result
            (λ tags. (g : ℕ) → is_marked own.now g ≡ true → has g tags ≡ true) }
        ensures covers { IfOk result
            (λ tags. Covers tags (written_in pid plan.now) (tags_in self.now.slots)) }
    {
        let own = self.own_tags(own);
        if self.open_count() == 0 {
            let _rising = own.ids();
            return Ok(own);
        }
        self.add_touched(own, pid, input, plan, written)
    }

    /// Takes a planned step that is no guess, whose private instruction was found, or none. Without memory nothing has changed.
    pub fn take_step(
        &mut self,
        scripts: &Scripts,
        pid: Pid,
        input: InputRef<'_>,
        plan: &Plan,
        found: Option<&Instruction>,
    ) -> Result<(), AllocError>
        requires can { CanTake self.old scripts.now pid (input_in input) plan.now }
        requires next { IfSome found
            (λ i. DoesNext (look_at self.old.slots) scripts.now pid plan.now i.now) }
        ensures { HasTaken result scripts.now pid (input_in input.entry) self.old self.new }
    {
        if let Some(instruction) = found {
            if self.go_on(scripts, pid, input, plan, instruction) {
                return Ok(());
            }
        }
        if self.take_alike(scripts, pid, input, plan)? {
            return Ok(());
        }
        self.take_apart(scripts, pid, input, plan)
    }

    /// Takes the step where it depends on just what its process does. Answers whether; else, and without memory, nothing has
    /// changed.
    fn take_alike(
        &mut self,
        scripts: &Scripts,
        pid: Pid,
        input: InputRef<'_>,
        plan: &Plan,
    ) -> Result<bool, AllocError>
        requires { CanTake self.old scripts.now pid (input_in input) plan.now }
        ensures takes { IfOk result (λ alike. alike ≡ true
            → MergedTakes (plain scripts.now) (machine_of self.old)
            (record { pid = pid; input = (input_in input.entry); guess = None })
            (machine_of self.new)) }
        ensures guesses { self.new.guesses ≡ self.old.guesses }
        ensures same { IfOk result (λ alike. alike ≡ false → self.new ≡ self.old) }
        ensures err { OnErr result (self.new ≡ self.old) }
    {
        let alike = set_alike(
            &mut self.logs,
            &self.guesses,
            &self.untagged,
            pid,
            input,
            plan,
        )?;
        if !alike {
            return Ok(false);
        }
        perform(
            &mut self.logs,
            &mut self.terminals,
            scripts,
            pid,
            input,
            plan,
        )?;
        Ok(true)
    }

    /// Takes the step where what it writes may come to depend on more. Without memory nothing has changed.
    #[inline(never)]
    fn take_apart(
        &mut self,
        scripts: &Scripts,
        pid: Pid,
        input: InputRef<'_>,
        plan: &Plan,
    ) -> Result<(), AllocError>
        requires { CanTake self.old scripts.now pid (input_in input) plan.now }
        ensures { HasTaken result scripts.now pid (input_in input.entry) self.old self.new }
    {
        let written = plan.writes(pid);
        let entities = written.as_slice();
        let tags = self.step_tags(scripts, pid, input, plan, entities, &None)?;
        depend_all(
            &mut self.guesses,
            &self.logs,
            &self.untagged,
            &tags,
            entities,
        )?;
        self.logs.set_tags(tags);
        if perform(
            &mut self.logs,
            &mut self.terminals,
            scripts,
            pid,
            input,
            plan,
        )
        .is_err()
        {
            relieve_all(&mut self.guesses, &self.logs, &self.untagged, entities);
            return Err(AllocError);
        }
        Ok(())
    }

    /// Draws the next guess and takes its planned step. Without memory nothing has changed.
    #[inline(always)]
    pub fn take_guess(
        &mut self,
        scripts: &Scripts,
        pid: Pid,
        input: InputRef<'_>,
        plan: &Plan,
    ) -> Result<Guess, AllocError>
        requires planned { IsPlanned self.old scripts.now pid (input_in input) plan.now }
        requires tidy { IsTidy (undo_state_of self.old) }
        requires rising { IsStrictlySortedBy nat_cmp
            (numbers self.old.opens ++ marks (Some (next_of self.old.guesses))) }
        requires free { is_full self.old.guesses ≡ false }
        ensures token { IfOk result
            (λ guess. guess
            ≡ record { kernel = self.old.guesses.kernel; id = next_of self.old.guesses }) }
        ensures ok { OnOk result
            (MergedTakes (plain scripts.now) (machine_of self.old)
            (record {
              pid = pid;
              input = (input_in input.entry);
              guess = Some
                  (next_of self.old.guesses);
            }) (machine_of self.new)) }
        ensures guesses { OnOk result (self.new.guesses ≡ drawn self.old.guesses) }
        ensures err { OnErr result (self.new ≡ self.old) }
    {
        let Some(id) = self.guesses.free() else {
            unreachable!();
        };
        let mut written = Entities::one(Entity::Proc(pid));
        put_written(plan, pid, &mut written);
        let entities = written.as_slice();
        let tags = self.step_tags(scripts, pid, input, plan, entities, &Some(id))?;
        let own_tags = tags.copy()?;
        depend_all(
            &mut self.guesses,
            &self.logs,
            &self.untagged,
            &tags,
            entities,
        )?;
        let performed = perform_guess(
            &mut self.guesses,
            &mut self.logs,
            &mut self.terminals,
            scripts,
            pid,
            input,
            plan,
            tags,
            entities.len(),
        );
        if performed.is_err() {
            relieve_all(&mut self.guesses, &self.logs, &self.untagged, entities);
            return Err(AllocError);
        }
        Ok(self.guesses.draw_reserved(own_tags, entities))
    }

    /// Commits an undecided guess: nothing depends on it any more. This takes no memory.
    pub fn commit(&mut self, id: GuessId)
        requires grow { AllGrow self.old.slots }
        requires rest { AllRest self.old.slots }
        requires undecided { status_since self.old.guesses id ≡ Some Undecided }
        ensures commits { MergedCommits (machine_of self.old) id (machine_of self.new) }
        ensures logs { Lightened self.old.slots id self.new.slots }
        ensures guesses { self.new.guesses ≡ decided self.old.guesses id Committed }
    {
        let _known = self.guesses.dependents(id);
        let freed = self.guesses.take_dependents(id);
        self.logs.commit(id, freed.as_slice());
        self.guesses.commit(id);
        self.guesses.reuse(freed);
        self.terminals.commit(id);
    }

    /// Fails an undecided guess: what depends on it is taken back in place, and the open guesses whose
    /// steps do are struck. This takes no memory.
    pub fn fail(&mut self, id: GuessId)
        requires grow { AllGrow self.old.slots }
        requires undecided { status_since self.old.guesses id ≡ Some Undecided }
        ensures fails { Fails (machine_of self.old) id (machine_of self.new) }
        ensures kernel { self.new.guesses.kernel ≡ self.old.guesses.kernel }
        ensures earlier { self.new.guesses.earlier ≡ self.old.guesses.earlier }
        ensures drawn { length self.new.guesses.statuses ≡ length self.old.guesses.statuses }
    {
        let alone = is_alone(&self.guesses, &self.logs, &self.untagged, id);
        self.logs.unwind(id, self.guesses.dependents(id));
        let freed = self.guesses.take_dependents(id);
        self.guesses.fail(id);
        self.guesses.strike_resting(id);
        relieve_freed(
            &mut self.guesses,
            &self.logs,
            &self.untagged,
            alone,
            freed.as_slice(),
        );
        self.guesses.reuse(freed);
        self.terminals.drop_of(id);
    }

    /// The entities that are present, by their order, each once.
    pub fn entities(&self) -> Result<Vec<Entity>, AllocError>
        ensures rising { IfOk result (λ all. IsStrictlySortedBy entity_cmp all.items) }
        ensures present { IfOk result
            (λ all. (e : Entity)
            → is_in entity_cmp all.items e ≡ is_some (look_at self.now.slots e)) }
    {
        self.logs.entities()
    }

    /// The entities that are present, by their order, each once, with what they have and the undecided guesses that they
    /// depend on.
    pub fn entries(&self) -> Result<Vec<Present<'_>>, AllocError>
        ensures rising { IfOk result
            (λ all. IsStrictlySortedBy entity_cmp (listed.entities_of all.items)) }
        ensures present { IfOk result (λ all. (e : Entity)
            → is_in entity_cmp (listed.entities_of all.items) e
            ≡ is_some (look_at self.now.slots e)) }
        ensures each { IfOk result (λ all. All
            (listed.IsPresent (look_at self.now.slots) (tags_at (undo_state_of self.now)))
            all.items) }
    {
        self.logs.entries()
    }

    /// The undecided guesses that an entity depends on.
    pub fn tags_of(&self, entity: &Entity) -> &TagSet
        ensures { result.now ≡ tags_at (undo_state_of self.now) entity.now }
    {
        tags_of(&self.logs, &self.untagged, entity)
    }

    /// The entities that depend on a guess, by rising order; none where it is not undecided.
    pub fn dependents(&self, id: GuessId) -> &[Entity]
        ensures rising { IsStrictlySortedBy entity_cmp result.now }
        ensures exact { has id (numbers self.now.opens) ≡ true → (e : Entity)
            → is_in entity_cmp result.now e ≡ has id (tags_at (undo_state_of self.now) e) }
        ensures none { has id (numbers self.now.opens) ≡ false → result.now ≡ [] }
    {
        self.guesses.dependents(id)
    }

    /// What became of a guess; `None` where it was never drawn.
    pub fn status(&self, id: GuessId) -> Option<Status>
        ensures { result ≡ status_of self.now.guesses id }
    {
        self.guesses.status(id)
    }

    /// The texts of a terminal; `None` where none was said.
    pub fn terminal(&self, number: u16) -> Option<&Terminal>
        ensures { option_copied result ≡ map.get self.now.texts number }
    {
        self.terminals.get(number)
    }

    /// What the terminals have released. This takes no memory.
    pub fn into_texts(self) -> Texts
        ensures { result ≡ self.texts }
    {
        Texts::new(self.terminals)
    }

    /// A copy of what entities have now.
    pub fn present(&self) -> Result<Store, AllocError>
        ensures { IfOk result (λ store. (e : Entity) → map.get store e ≡ look_at self.now.slots e) }
    {
        self.logs.present()
    }

    /// Ends an epoch: what was said is handed out, and each guess keeps its status. Without memory nothing
    /// has changed.
    pub fn settle(&mut self) -> Result<Texts, AllocError>
        requires { undecided_of self.old.guesses.statuses ≡ 0 }
        ensures texts { IfOk result (λ texts. texts ≡ self.old.texts) }
        ensures ok { OnOk result
            (self.new ≡ record self.old { guesses = settled self.old.guesses; texts = map.empty }) }
        ensures err { OnErr result (self.new ≡ self.old) }
    {
        self.guesses.settle()?;
        let said = mem::replace(&mut self.terminals, Terminals::new(self.alloc));
        Ok(Texts::new(said))
    }

    /// The number of the guess that is drawn next.
    pub fn next_number(&self) -> u64
        ensures { result ≡ next_of self.now.guesses }
    {
        self.guesses.next()
    }

    /// How many names of a directory are there. This takes no memory.
    pub fn names(&self, directory: &ObjId) -> usize
        ensures { IsCount (name_there (look_at self.now.slots)) directory.now result }
    {
        self.logs.names(directory)
    }

    /// What it takes its memory from.
    pub fn alloc(&self) -> Global {
        self.alloc
    }

    /// How many guesses are open.
    pub fn open_count(&self) -> usize
        ensures { result ≡ length self.now.opens }
    {
        self.guesses.undecided()
    }

    /// The number of the oldest open guess, or of the next one where none is open.
    pub fn settled(&self) -> u64
        ensures { result ≡ get_or (numbers self.now.opens) 0 (next_of self.now.guesses) }
    {
        match self.guesses.oldest() {
            Some(id) => id.number(),
            None => self.guesses.next(),
        }
    }

    /// Whether no guess can be drawn.
    pub fn is_full(&self) -> bool
        ensures { result ≡ is_full self.now.guesses }
    {
        self.guesses.is_full()
    }

    /// Takes a token in, or hands it back where it is another kernel's, or its guess is neither
    /// undecided nor struck.
    pub fn redeem(&self, guess: Guess) -> Result<Redeemed, Guess>
        ensures { result ≡ redeemed self.now.guesses guess }
    {
        self.guesses.redeem(guess)
    }
}
