//! The plain kernel: it takes steps, and knows no guesses.
ghost use Rattle.std.specs.Prelude.{◌≡◌, ◌↔◌, [], IsTrue, IfOk, option_map};
ghost use Rattle.sk_plain.specs.Base.{All, entity_cmp, Proc, IsProcess, input_in};
ghost use Rattle.std.specs.List.Sorted.{IsStrictlySortedBy};
ghost use Rattle.std.specs.FinMap as map;
ghost use Rattle.sk_store.specs.Present.{IsPresent, entities_of};
ghost use Rattle.sk_plain.specs.Planned.{said_by};
ghost use Rattle.sk_plain.specs.Seen.{seen_with};
ghost use Rattle.sk_plain.specs.View.{Shows};
ghost use Rattle.sk_plain.specs.Plain.{plain_start, texts_said, all_said, step_of, Steps};

use crate::{InputRef, Plan, Refusal, View, perform_plan, plan_step};
use sk_ids::{Entity, Pid, Text};
use sk_script::{Boot, Input, Scripts};
use sk_store::{EntityState, Look, Present, Store};
use sk_terminal::Terminals;
use std::alloc::{AllocError, Global};
use std::marker::Model;

/// A kernel without guesses. No text that it keeps depends on one.
#[derive(Drop)]
pub struct Plain {
    scripts: Scripts,
    store: Store,
    texts: Terminals,
}

impl Model for Plain {
    ghost use Rattle.sk_plain.specs.Plain.{PlainView, plain_code, AllClear};

    ghost Value = { PlainView };

    ghost coded = { plain_code };

    ghost view = { λ k. record { scripts = k.scripts; state = k.store; texts = k.texts } };

    ghost invariant = { λ k. AllClear k.texts };
}

impl PartialEq for Plain {
    ghost use Rattle.std.specs.Cmp.{decided, partial_equiv_from_equiv};
    ghost use Rattle.sk_plain.specs.Same.{exact_plain, same_plain};

    ghost eq = { same_plain };

    ghost laws = { partial_equiv_from_equiv (decided same_plain exact_plain) };

    /// True exactly for the same scripts, the same that entities have, and the same texts. This takes no memory.
    fn eq(&self, other: &Plain) -> bool
        ensures computed { result ≡ same_plain self.now other.now }
        ensures exact { IsTrue result ↔ (self.now ≡ other.now) }
    {
        if self.scripts != other.scripts {
            return false;
        }
        if self.store != other.store {
            return false;
        }
        self.texts == other.texts
    }
}

impl Eq for Plain {
    ghost use Rattle.std.specs.Cmp.{decided};
    ghost use Rattle.sk_plain.specs.Same.{exact_plain, same_plain};

    ghost laws = { decided same_plain exact_plain };
}

/// The text that a planned step will say: the buffer of its process.
#[tactic(auto, using(crate::proofs::Plans::row_quiet))]
fn text_of(
    store: &Store,
    _scripts: &Scripts,
    pid: Pid,
    _input: InputRef<'_>,
    plan: &Plan,
) -> Option<Text>
    requires { IsProcess (map.get store.now (Proc pid)) }
    ensures { result ≡ option_map (λ s. s.text) (said_by (seen_with
        (map.get store.now) _scripts.now pid (input_in _input.entry) plan.now)) }
{
    let Plan::Speaks = plan else {
        return None;
    };
    match store.value(Entity::Proc(pid)) {
        Some(EntityState::Process(held)) => Some(held.process().buffer),
        _ => unreachable!(),
    }
}

impl Plain {
    /// The kernel at the start of a boot.
    pub fn boot(alloc: Global, boot: &Boot) -> Result<Plain, AllocError>
        ensures { IfOk result (λ plain. plain ≡ plain_start boot.now) }
    {
        Ok(Plain {
            scripts: boot.scripts().copy()?,
            store: Store::start(alloc, boot)?,
            texts: Terminals::new(alloc),
        })
    }

    /// The kernel with these scripts where entities have this, and nothing is said. This takes no memory.
    pub fn of(scripts: Scripts, store: Store) -> Plain
        ensures { result ≡ record { scripts = scripts; state = store; texts = map.empty } }
    {
        let texts = Terminals::new(store.alloc());
        Plain {
            scripts,
            store,
            texts,
        }
    }

    /// The scripts that it was booted with.
    pub fn scripts(&self) -> &Scripts
        ensures { result.now ≡ self.now.scripts }
    {
        &self.scripts
    }

    /// What all entities have.
    pub fn state(&self) -> &Store
        ensures { result.now ≡ self.now.state }
    {
        &self.store
    }

    /// Takes the next step of a process with an input, and answers the text that it says. After a
    /// refusal nothing has changed.
    pub fn step(&mut self, pid: Pid, input: &Input) -> Result<Option<Text>, Refusal>
        ensures { Steps result (step_of self.old pid input.now) self.old self.new }
    {
        let input = InputRef::of(input);
        let plan = match plan_step(&self.store, &self.scripts, pid, input) {
            Ok(plan) => plan,
            Err(why) => return Err(why),
        };
        let text = text_of(&self.store, &self.scripts, pid, input, &plan);
        perform_plan(
            &mut self.store,
            &mut self.texts,
            &self.scripts,
            pid,
            input,
            &plan,
        )?;
        Ok(text)
    }

    /// What an entity has; `None` where it is absent.
    pub fn value(&self, entity: &Entity) -> Option<View<'_>>
        ensures { Shows (map.get self.now.state entity.now) result }
    {
        match self.store.value(*entity) {
            Some(stored) => Some(View::of(stored)),
            None => None,
        }
    }

    /// All texts said to a terminal so far: each is released as it is said.
    pub fn said(&self, terminal: u16) -> &[Text]
        ensures released { result.now ≡ texts_said self.now terminal }
        ensures all { result.now ≡ all_said self.now terminal }
    {
        match self.texts.get(terminal) {
            Some(terminal) => terminal.released(),
            None => &[],
        }
    }

    /// The entities that are present, each once, by rising order.
    pub fn entities(&self) -> Result<Vec<Entity>, AllocError>
        ensures present { IfOk result (λ entities. entities.items ≡ map.keys self.now.state) }
        ensures rising { IfOk result (λ entities. IsStrictlySortedBy entity_cmp entities.items) }
    {
        self.store.entities()
    }

    /// The entities that are present, each once, by rising order, with what they have.
    pub fn entries(&self) -> Result<Vec<Present<'_>>, AllocError>
        ensures present { IfOk result (λ all. entities_of all.items ≡ map.keys self.now.state) }
        ensures each { IfOk result
            (λ all. All (IsPresent (map.get self.now.state) (λ e. [])) all.items) }
    {
        self.store.entries()
    }
}
