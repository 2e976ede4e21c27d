//! Tests as tables: what is done with a kernel and the tokens of its guesses, each with what has to
//! come of it. A table has plain numbers, so that a test is short to prove.
ghost use Rattle.std.specs.Prelude.{◌≡◌, vec_len};

use crate::start::{Start, comes, kernel_of};
use sk_guesses::{Guess, Status};
use sk_ids::{Entity, ObjId, Pid};
use sk_kernel::{EpochRefusal, FailRefusal, Kernel, Outcome, Stranger};
use sk_plain::{Refusal, View};
use sk_script::Input;
use std::alloc::Global;
use std::process::Abort;
use tests_support::plain::{guess, pid};
use tests_support::wrong::Wrong;

/// How a guess is decided.
#[derive(Clone, Copy)]
pub enum Decision {
    Commit,
    Fail,
}

/// What there is to count.
#[derive(Clone, Copy)]
pub enum Count {
    /// The place of a process.
    Place(u16),
    /// The texts that a terminal has released.
    Released(u16),
    Events,
    /// The places of the trace that are free.
    Room,
}

/// Something that can depend on a guess.
#[derive(Clone, Copy)]
pub enum Thing {
    Process(u16),
    /// An object of the boot.
    Object(u32),
}

/// Something that is done, and what comes of it.
#[derive(Clone, Copy)]
pub enum KernelPlay {
    /// So many steps of a process, each without input, up to the first that is refused.
    Steps(u16, usize, Result<(), Refusal>),
    /// A step of a process with the input `good`.
    Good(u16),
    /// The guesses of a process from this number on to that; their tokens are kept.
    Guesses(u16, u64, u64),
    /// The decision of the oldest guess whose token is kept.
    Decides(Decision, Outcome),
    /// How much there is.
    Has(Count, usize),
    /// Just these depend on the guess of this number, by rising order.
    Rests(u64, &'static [Thing]),
    /// A new epoch: how many events are handed out, and how many texts of terminal 1; or why there is none.
    Epoch(Result<(usize, usize), EpochRefusal>),
    /// What became of the guess of this number.
    Became(u64, Option<Status>),
}

/// A kernel, and the tokens that are kept, the oldest first.
pub struct Player {
    pub kernel: Kernel,
    pub tokens: Vec<Guess>,
}

/// Takes so many steps of a process, each without input.
fn stepped(kernel: &mut Kernel, pid: Pid, count: usize) -> Result<(), Refusal> {
    for _ in 0..count {
        kernel.step(pid, Input::None)?;
    }
    Ok(())
}

/// Whether the steps of a process come to this.
fn steps(
    kernel: &mut Kernel,
    number: u16,
    count: usize,
    want: Result<(), Refusal>,
) -> Result<bool, Wrong> {
    Ok(stepped(kernel, pid(number)?, count) == want)
}

/// Whether a step with the input `good` is taken.
fn is_good(kernel: &mut Kernel, number: u16) -> Result<bool, Wrong> {
    Ok(kernel.step(pid(number)?, Input::Good).is_ok())
}

/// Draws the next guess of a process, and keeps its token: the number of the guess.
fn drawn(player: &mut Player, pid: Pid) -> Result<u64, Wrong> {
    player.tokens.reserve(1)?;
    let token = player.kernel.create_speculation(pid, Input::Good)?;
    let number = token.id().number();
    player.tokens.push_reserved(token);
    Ok(number)
}

/// Whether the next guesses of a process have these numbers.
fn guesses(player: &mut Player, process: u16, first: u64, last: u64) -> Result<bool, Wrong> {
    let pid = pid(process)?;
    for number in first..=last {
        if drawn(player, pid)? != number {
            return Ok(false);
        }
    }
    Ok(true)
}

/// Commits the guess of a token.
fn committed(rt: &impl Abort, kernel: &mut Kernel, token: Guess) -> Outcome {
    match kernel.commit_speculation(token) {
        Ok(outcome) => outcome,
        Err(Stranger { guess: _guess }) => panic!(rt; "a stranger"),
    }
}

/// Fails the guess of a token.
fn failed(rt: &impl Abort, kernel: &mut Kernel, token: Guess) -> Outcome {
    match kernel.fail_speculation(token) {
        Ok(outcome) => outcome,
        Err(FailRefusal::Stranger(_guess)) => panic!(rt; "a stranger"),
    }
}

/// What the decision of the guess of a token comes to.
fn decided(rt: &impl Abort, kernel: &mut Kernel, token: Guess, decision: Decision) -> Outcome {
    match decision {
        Decision::Commit => committed(rt, kernel, token),
        Decision::Fail => failed(rt, kernel, token),
    }
}

/// What the decision of the oldest guess comes to whose token is kept.
fn decided_oldest(rt: &impl Abort, player: &mut Player, decision: Decision) -> Option<Outcome> {
    if player.tokens.is_empty() {
        return None;
    }
    let token = player.tokens.remove(0);
    Some(decided(rt, &mut player.kernel, token, decision))
}

/// The place of a process, where it is present.
fn place_of(kernel: &Kernel, pid: Pid) -> Option<usize> {
    match kernel.value(&Entity::Proc(pid)) {
        Some(View::Process(process)) => Some(process.place as usize),
        _ => None,
    }
}

/// How many texts a terminal has released, where one was said that counts.
fn released(kernel: &Kernel, number: u16) -> Option<usize> {
    match kernel.terminal(number) {
        Some(terminal) => Some(terminal.released().len()),
        None => None,
    }
}

fn counted(kernel: &Kernel, count: Count) -> Result<Option<usize>, Wrong> {
    match count {
        Count::Place(number) => Ok(place_of(kernel, pid(number)?)),
        Count::Released(number) => Ok(released(kernel, number)),
        Count::Events => Ok(Some(kernel.trace().events().len())),
        Count::Room => Ok(Some(kernel.room())),
    }
}

/// Whether there is so much.
fn has(kernel: &Kernel, count: Count, want: usize) -> Result<bool, Wrong> {
    Ok(counted(kernel, count)? == Some(want))
}

fn entity_of(thing: Thing) -> Result<Entity, Wrong> {
    match thing {
        Thing::Process(number) => Ok(Entity::Proc(pid(number)?)),
        Thing::Object(count) => Ok(Entity::Obj(ObjId { maker: None, count })),
    }
}

/// Whether the entities are these.
fn are_things(entities: &[Entity], things: &[Thing]) -> Result<bool, Wrong> {
    for (entity, thing) in entities.iter().zip(things) {
        if *entity != entity_of(*thing)? {
            return Ok(false);
        }
    }
    Ok(entities.len() == things.len())
}

/// Whether just these depend on a guess, by rising order.
fn rests(kernel: &Kernel, number: u64, want: &[Thing]) -> Result<bool, Wrong> {
    are_things(kernel.dependents(guess(number)?), want)
}

/// What a new epoch comes to.
fn epoch(kernel: &mut Kernel) -> Result<(usize, usize), EpochRefusal> {
    match kernel.new_epoch() {
        Ok((trace, texts)) => Ok((trace.events().len(), texts.of(1).len())),
        Err(why) => Err(why),
    }
}

/// Whether this became of a guess.
fn became(kernel: &Kernel, number: u64, want: Option<Status>) -> Result<bool, Wrong> {
    Ok(kernel.status(guess(number)?) == want)
}

/// Does one thing: whether it comes to what is wanted.
pub fn does(rt: &impl Abort, player: &mut Player, play: KernelPlay) -> Result<bool, Wrong> {
    match play {
        KernelPlay::Steps(number, count, want) => steps(&mut player.kernel, number, count, want),
        KernelPlay::Good(number) => is_good(&mut player.kernel, number),
        KernelPlay::Guesses(number, first, last) => guesses(player, number, first, last),
        KernelPlay::Decides(decision, want) => {
            Ok(decided_oldest(rt, player, decision) == Some(want))
        }
        KernelPlay::Has(count, want) => has(&player.kernel, count, want),
        KernelPlay::Rests(number, want) => rests(&player.kernel, number, want),
        KernelPlay::Epoch(want) => Ok(epoch(&mut player.kernel) == want),
        KernelPlay::Became(number, want) => became(&player.kernel, number, want),
    }
}

/// Does one thing after the other.
pub fn does_all(rt: &impl Abort, player: &mut Player, plays: &[KernelPlay]) -> Result<(), Wrong> {
    for (place, play) in plays.iter().enumerate() {
        comes(place, does(rt, player, *play))?;
    }
    Ok(())
}

/// Plays one part after the other.
fn does_parts(rt: &impl Abort, player: &mut Player, parts: &[&[KernelPlay]]) -> Result<(), Wrong> {
    for plays in parts {
        does_all(rt, player, plays)?;
    }
    Ok(())
}

/// Spends the tokens that are left by commits.
fn spends(rt: &impl Abort, player: &mut Player)
    ensures { vec_len player.new.tokens ≡ 0 }
{
    while !player.tokens.is_empty() {
        let token = player.tokens.remove(0);
        committed(rt, &mut player.kernel, token);
    }
}

impl Player {
    /// A new kernel.
    pub fn new(alloc: Global, start: &Start<'_>) -> Result<Player, Wrong> {
        let kernel = kernel_of(alloc, start)?;
        let tokens = Vec::new(alloc);
        Ok(Player { kernel, tokens })
    }

    /// Spends the tokens that are left, and hands the kernel out.
    pub fn end(self, rt: &impl Abort) -> Kernel {
        let mut player = self;
        spends(rt, &mut player);
        let Player { kernel, tokens } = player;
        tokens.destroy_empty();
        kernel
    }

    /// Spends the tokens that are left.
    pub fn abandon(self, rt: &impl Abort) {
        drop(self.end(rt));
    }
}

/// Plays one part after the other with a new kernel.
fn plays_all(
    rt: &impl Abort,
    alloc: Global,
    start: &Start<'_>,
    parts: &[&[KernelPlay]],
) -> Result<(), Wrong> {
    let mut player = Player::new(alloc, start)?;
    let done = does_parts(rt, &mut player, parts);
    player.abandon(rt);
    done
}

/// Plays with a new kernel.
pub fn plays(
    rt: &impl Abort,
    alloc: Global,
    start: &Start<'_>,
    plays: &[KernelPlay],
) -> Result<(), Wrong> {
    plays_all(rt, alloc, start, &[plays])
}

/// Plays with a new kernel, decides the oldest guess so, and plays on.
pub fn plays_until(
    rt: &impl Abort,
    alloc: Global,
    start: &Start<'_>,
    before: &[KernelPlay],
    decision: Decision,
    after: &[KernelPlay],
) -> Result<(), Wrong> {
    let decides = KernelPlay::Decides(decision, Outcome::Done);
    plays_all(rt, alloc, start, &[before, &[decides], after])
}
