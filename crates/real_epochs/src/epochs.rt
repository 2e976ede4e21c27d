//! Epochs that wait for their replies, and what depends on them.
ghost use Rattle.std.specs.Prelude.{◌≡◌, ◌==◌, ℕ, [], false, true, length, IfErr, OnOk, if◌then◌else◌};
ghost use Rattle.sk_speculator.specs.Calls.{FailsIn, TookBack};
ghost use Rattle.real_epochs.specs.declared.refused.Refused.{Refused};
ghost use Rattle.real_epochs.specs.Answers.{are_none, is_needed, known_of};
ghost use Rattle.real_epochs.specs.Calls.{Accepted, Began, Happened, Shown, TakenBack};
ghost use Rattle.std.specs.List.Sorted.{IsStrictlySortedBy};
ghost use Rattle.std.specs.Ordering.{nat_cmp};
ghost use Rattle.sk_record.specs.Effects.{is_in};
ghost use Rattle.sk_record.specs.Notes.{has};
ghost use Rattle.sk_record.specs.UndoState.{numbers};
ghost use Rattle.real_epochs.specs.Forgotten.{AreForgotten, IsForgotten};
ghost use Rattle.real_epochs.specs.Host.{begins_with_tree};
ghost use Rattle.real_epochs.specs.Refusals.{misfit, RefusesEvent};
ghost use Rattle.real_epochs.specs.Story.{all_in, changed_in, no_story, Story};
ghost use Rattle.real_epochs.specs.Tells.{Tells};

use crate::begun::Begun;
use crate::steps::{TREE, first_step, step_of};
use crate::{Back, Event, Refused};
use sk_guesses::Guess;
use sk_speculator::{Failed, Speculator, Undone};
use std::alloc::Global;
use std::marker::Model;
use std::num::NonZeroU16;

/// The number of the kernel. Its tokens never meet those of another.
const KERNEL: u64 = 1;

/// Decides what of the work of processes may be shown, and what is taken back, while the epochs that it is done in wait for
/// their replies. Replies come in the order in which epochs began.
pub struct Epochs {
    alloc: Global,
    kernel: Speculator<u64, u64, u64>,
    line: Vec<Begun>,
}

impl Model for Epochs {
    ghost use Rattle.std.specs.Prelude.{◌≡◌};
    ghost use Rattle.real_epochs.specs.Story.{Story};
    ghost use Rattle.real_epochs.specs.Tells.{EpochsView, Tells};

    ghost Value = { EpochsView };

    ghost view = { λ e. record { parts = e.kernel; line = e.line.items } };

    ghost invariant = { λ e. (s : Story) × Tells s (record { parts = e.kernel; line = e.line.items }) };
}

impl Epochs {
    /// Nothing has happened. So many epochs may wait for their replies at once.
    pub fn new(alloc: Global, limit: NonZeroU16) -> Epochs
        ensures { Tells no_story result }
    {
        Epochs {
            alloc,
            kernel: Speculator::new(alloc, KERNEL, limit),
            line: Vec::new(alloc),
        }
    }

    /// An epoch begins: all stands at a checkpoint, and goes on as if the server's reply were known. Told is its number.
    pub fn begin(&mut self, checkpoint: u64) -> Result<u64, Refused>
        ensures { Began checkpoint result self.old self.new }
    {
        self.kernel.next_guess()?;
        let mut step = first_step(self.alloc, checkpoint)?;
        self.line.reserve(1)?;
        let token = self.kernel.guess(&mut step)?;
        let number = token.id().number();
        self.line.push_reserved(Begun { token, checkpoint });
        Ok(number)
    }

    /// Something happens. It belongs to the newest epoch without its reply, and to none where there is none, or where the server
    /// tells it.
    pub fn happens(&mut self, event: Event) -> Result<(), Refused>
        ensures { Happened event result self.old self.new }
    {
        self.check(event)?;
        let mut step = step_of(self.alloc, event)?;
        self.kernel.take(&mut step)?;
        Ok(())
    }

    /// Why something doesn't fit, whatever memory there is.
    fn check(&self, event: Event) -> Result<(), Refused>
        ensures ok { OnOk result ((s : Story) → Tells s self.now → misfit s event ≡ None) }
        ensures why { IfErr result
            (λ why. (s : Story) → Tells s self.now → RefusesEvent s event why) }
    {
        match event {
            Event::Changes { name, .. } => check_name(name),
            Event::Told { name, .. } => {
                check_name(name)?;
                if self.has_changed(name) {
                    return Err(Refused::Changed);
                }
                Ok(())
            }
            Event::Says { .. } => Ok(()),
        }
    }

    /// Whether an epoch without its reply has changed a name, of which what the server tells is refused then.
    pub fn has_changed(&self, name: u64) -> bool
        ensures { (s : Story) → Tells s self.now → (name == 0) ≡ false
            → result ≡ changed_in (all_in s.waiting) name }
    {
        match self.line.first() {
            Some(oldest) => self.kernel.tags_of(&name).contains(oldest.token.id()),
            None => false,
        }
    }

    /// The server accepted the oldest epoch. Told is its checkpoint, which may be let go of.
    pub fn accepted(&mut self) -> Option<u64>
        ensures { Accepted result self.old self.new }
    {
        if self.line.is_empty() {
            return None;
        }
        let Begun { token, checkpoint } = self.line.remove(0);
        match self.kernel.commit(token) {
            Ok(_committed) => Some(checkpoint),
            Err(_stranger) => unreachable!(),
        }
    }

    /// The server refused the oldest epoch, and with it all that depend on it. Told is the checkpoint that all goes back to, with
    /// the names that are undone. This takes no memory.
    pub fn refused(&mut self) -> Option<Back>
        ensures { TakenBack result self.old self.new }
    {
        take_back(&mut self.kernel, &mut self.line)
    }

    /// The next output of a stream that depends on no epoch without its reply: it may be shown, and is taken out.
    pub fn shown(&mut self, stream: u16) -> Option<u64>
        ensures { Shown stream result self.old self.new }
    {
        self.kernel.released(stream)
    }

    /// What is known of a name now.
    pub fn version(&self, name: u64) -> Option<u64>
        ensures { (s : Story) → Tells s self.now → result ≡ known_of s name }
    {
        if name == TREE {
            return None;
        }
        self.kernel.value(&name).copied()
    }

    /// Whether an epoch without its reply goes back to a checkpoint, which may be let go of where none does.
    pub fn needs(&self, checkpoint: u64) -> bool
        ensures { (s : Story) → Tells s self.now → result ≡ is_needed checkpoint s.waiting }
    {
        self.line.iter().any(|begun| begun.checkpoint == checkpoint)
    }

    /// Whether what can't be taken back may be done now: no epoch waits for its reply.
    pub fn may_act(&self) -> bool
        ensures { (s : Story) → Tells s self.now → result ≡ are_none s.waiting }
    {
        self.line.is_empty()
    }

    /// How many epochs wait for their replies.
    pub fn waiting(&self) -> usize
        ensures { (s : Story) → Tells s self.now → result ≡ length s.waiting }
    {
        self.line.len()
    }
}

/// Refuses the number that is no name's.
fn check_name(name: u64) -> Result<(), Refused>
    ensures ok { OnOk result ((name == 0) ≡ false) }
    ensures err { IfErr result (λ why. (why ≡ Refused.NoName) × ((name == 0) ≡ true)) }
{
    if name == TREE {
        return Err(Refused::NoName);
    }
    Ok(())
}

/// Whether keys begin with that of the tree.
fn begins_with_tree(keys: &[u64]) -> bool
    ensures { result ≡ begins_with_tree keys.now }
{
    match keys.first() {
        Some(first) => *first == TREE,
        None => false,
    }
}

/// The names among keys that were taken back.
fn names_in(keys: Vec<u64>) -> Vec<u64>
    requires { IsStrictlySortedBy nat_cmp keys.items }
    ensures names { (name : ℕ) → is_in nat_cmp result.items name
        ≡ (if name == 0 then false else is_in nat_cmp keys.items name) }
    ensures rising { IsStrictlySortedBy nat_cmp result.items }
{
    let mut names = keys;
    if begins_with_tree(names.as_slice()) {
        names.remove(0);
    }
    names
}

/// Fails the guess of the oldest epoch. This takes no memory.
fn fail_oldest(kernel: &mut Speculator<u64, u64, u64>, token: Guess) -> Undone<u64>
    requires own { token.kernel ≡ kernel.old.guesses.kernel }
    requires undecided { has token.id (numbers kernel.old.opens) ≡ true }
    requires kept { has token.id kernel.old.guesses.struck ≡ false }
    ensures back { TookBack nat_cmp kernel.old token.id result }
    ensures fails { FailsIn nat_cmp kernel.old token.id kernel.new }
{
    match kernel.fail(token) {
        Ok(Failed::Done(undone)) => undone,
        Ok(Failed::Gone) => unreachable!(),
        Err(_stranger) => unreachable!(),
    }
}

/// Takes back the oldest epoch, and with it all that depend on it. This takes no memory.
fn take_back(kernel: &mut Speculator<u64, u64, u64>, line: &mut Vec<Begun>) -> Option<Back>
    requires { (s : Story) × Tells s (record { parts = kernel.old; line = line.old.items }) }
    ensures back { TakenBack result (record { parts = kernel.old; line = line.old.items })
        (record { parts = kernel.new; line = line.new.items }) }
    ensures none { line.new.items ≡ [] }
{
    if line.is_empty() {
        return None;
    }
    let Begun { token, checkpoint } = line.remove(0);
    let undone = fail_oldest(kernel, token);
    let names = names_in(undone.keys);
    forget_all(kernel, line);
    Some(Back { checkpoint, names })
}

/// Lets go of the tokens of epochs that were struck. This takes no memory.
fn forget_all(kernel: &mut Speculator<u64, u64, u64>, line: &mut Vec<Begun>)
    requires { AreForgotten kernel.old line.old.items }
    ensures kernel { IsForgotten kernel.old kernel.new }
    ensures line { line.new.items ≡ [] }
{
    while let Some(begun) = line.pop() {
        let Begun {
            token,
            checkpoint: _,
        } = begun;
        match kernel.fail(token) {
            Ok(_gone) => {}
            Err(_stranger) => unreachable!(),
        }
    }
}

/// Epochs that still wait are refused.
impl Drop for Epochs {
    fn drop(self) {
        let Epochs {
            alloc: _,
            mut kernel,
            mut line,
        } = self;
        let _back = take_back(&mut kernel, &mut line);
        line.destroy_empty();
    }
}
