//! The keys that have numbers, and the step that is handed over with them.
ghost use Rattle.std.specs.Prelude.{◌≡◌, ℕ, [], true, false, None, length, OnErr, OnOk};
ghost use Rattle.sk_bytes.specs.Base.{nat_cmp, is_in, IsDeed, log_at, number_of};
ghost use Rattle.sk_bytes.specs.Steps.{byte_deed, deed_in};
ghost use Rattle.sk_bytes.specs.Told.{slot_shown, AllRest, IsTwoWay};
ghost use Rattle.sk_bytes.specs.Numbers.{names, Gains, LetsGo};
ghost use Rattle.sk_bytes.specs.Steps.{IsHandedOver, Swaps};

use crate::ByteStep;
use crate::numbers::{exchange, give_back_all, number_step};
use sk_index::{Index, Number};
use sk_speculator::{Speculator, Step};
use std::alloc::{AllocError, Global};
use std::mem;

/// The keys by their numbers, with a step over these.
#[derive(Drop)]
pub(crate) struct Keys<V, O> {
    pub(crate) index: Index,
    /// A step with numbers for its keys; empty between calls.
    pub(crate) numbered: Step<Number, V, O>,
    /// Numbers that may have to be given back: between calls, those of the keys that the last failure took back.
    pub(crate) loose: Vec<Number>,
}

/// Exchanges what steps write to their keys, and what they say.
fn swap_steps<V, O>(step: &mut ByteStep<V, O>, numbered: &mut Step<Number, V, O>)
    requires { length step.old.written.items ≡ length numbered.old.written.items }
    ensures { Swaps step.old numbered.old step.new numbered.new }
{
    exchange(&mut step.written, &mut numbered.written);
    mem::swap(&mut step.said, &mut numbered.said);
}

impl<V, O> Keys<V, O> {
    /// No key has a number.
    pub(crate) fn new(alloc: Global, seed: u64) -> Keys<V, O>
        ensures index { result.index ≡ [] }
        ensures looked { result.numbered.looked.items ≡ [] }
        ensures written { result.numbered.written.items ≡ [] }
        ensures said { result.numbered.said ≡ None }
        ensures loose { result.loose.items ≡ [] }
    {
        Keys {
            index: Index::new(alloc, seed),
            numbered: Step::new(alloc),
            loose: Vec::new(alloc),
        }
    }
}

impl<V: Drop, O: Drop> Keys<V, O> {
    /// Moves a step over, with numbers for its keys. Those that were given are among the loose ones, also where memory ends; then
    /// the step is as it was.
    pub(crate) fn hand_over(&mut self, step: &mut ByteStep<V, O>) -> Result<(), AllocError>
        requires two_way { IsTwoWay self.old.index }
        requires looked { self.old.numbered.looked.items ≡ [] }
        requires written { self.old.numbered.written.items ≡ [] }
        requires said { self.old.numbered.said ≡ None }
        requires loose { self.old.loose.items ≡ [] }
        ensures gains { Gains self.old.index self.new.loose.items self.new.index }
        ensures deed { OnOk result
            (IsDeed (number_of self.new.index) (byte_deed step.old) (deed_in self.new.numbered)) }
        ensures loose { OnOk result (self.new.loose.items ≡ names self.new.numbered.written.items) }
        ensures handed { OnOk result (IsHandedOver step.old step.new self.new.numbered) }
        ensures err { OnErr result (step.new ≡ step.old) }
        ensures none { OnErr result (self.new.numbered.said ≡ None) }
    {
        number_step(&mut self.index, step, &mut self.numbered, &mut self.loose)?;
        swap_steps(step, &mut self.numbered);
        Ok(())
    }

    /// Moves a refused step back.
    pub(crate) fn hand_back(&mut self, step: &mut ByteStep<V, O>)
        requires { length step.old.written.items ≡ length self.old.numbered.written.items }
        ensures swaps { Swaps step.old self.old.numbered step.new self.new.numbered }
        ensures index { self.new.index ≡ self.old.index }
        ensures loose { self.new.loose ≡ self.old.loose }
    {
        swap_steps(step, &mut self.numbered);
    }

    /// Gives the loose numbers back whose keys are absent and depend on nothing, and lets go of the step.
    pub(crate) fn let_go(&mut self, kernel: &Speculator<Number, V, O>)
        requires two_way { IsTwoWay self.old.index }
        requires rests { (n : ℕ) → AllRest (log_at nat_cmp kernel.now.slots n) }
        ensures gone { LetsGo self.old.index (is_in nat_cmp self.old.loose.items) kernel.now.slots
            self.new.index }
        ensures looked { self.new.numbered.looked.items ≡ [] }
        ensures written { self.new.numbered.written.items ≡ [] }
        ensures said { self.new.numbered.said ≡ self.old.numbered.said }
        ensures loose { self.new.loose.items ≡ [] }
    {
        self.numbered.looked.clear();
        self.numbered.written.clear();
        give_back_all(&mut self.index, kernel, self.loose.as_slice());
        self.loose.clear();
    }

    /// As `let_go`, behind a step that was taken. Where it made no key absent each has something, and keeps its number.
    pub(crate) fn let_go_taken(&mut self, kernel: &Speculator<Number, V, O>, makes_absent: bool)
        requires two_way { IsTwoWay self.old.index }
        requires rests { (n : ℕ) → AllRest (log_at nat_cmp kernel.now.slots n) }
        requires set { makes_absent ≡ false
            → (n : ℕ) → is_in nat_cmp self.old.loose.items n ≡ true
            → slot_shown kernel.now.slots n ≡ None → ⊥ }
        ensures gone { LetsGo self.old.index (is_in nat_cmp self.old.loose.items) kernel.now.slots
            self.new.index }
        ensures looked { self.new.numbered.looked.items ≡ [] }
        ensures written { self.new.numbered.written.items ≡ [] }
        ensures said { self.new.numbered.said ≡ self.old.numbered.said }
        ensures loose { self.new.loose.items ≡ [] }
    {
        if makes_absent {
            self.let_go(kernel);
            return;
        }
        self.numbered.looked.clear();
        self.numbered.written.clear();
        self.loose.clear();
    }
}
