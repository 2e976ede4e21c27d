//! The limit of undecided guesses, tokens of decided ones, second decisions, and lists of dependents.
use crate::plain::{check, guess, pid, tags};
use sk_guesses::{DrawRefusal, GUESS_LIMIT, Guess, Guesses, Redeemed, Status};
use sk_ids::{Entity, GuessId, Pid, TagSet};
use std::alloc::Global;
use std::process::Abort;

/// The number of the kernel that the guesses are of.
const KERNEL: u64 = 7;

/// What becomes of a guess by its decision.
const DECIDED: [Status; 3] = [Status::Committed, Status::Failed, Status::Struck];

/// Draws a guess whose step depends on itself alone, and on which these entities depend.
fn draw(
    alloc: Global,
    guesses: &mut Guesses<Entity>,
    entities: &[Entity],
) -> Result<Guess, DrawRefusal> {
    let tags = match guesses.free() {
        Some(id) => TagSet::of(alloc, id),
        None => TagSet::new(alloc),
    };
    guesses.draw(tags, entities)
}

/// Draws a guess, whose number is the next.
fn drawn(
    rt: &impl Abort,
    alloc: Global,
    guesses: &mut Guesses<Entity>,
    entities: &[Entity],
) -> Guess {
    check(rt, 1, !guesses.is_full());
    let next = guesses.next();
    let token = draw(alloc, guesses, entities).expect(rt, "a guess");
    check(
        rt,
        2,
        token.kernel() == KERNEL && token.id().number() == next,
    );
    token
}

/// What a token says that is taken in.
fn said(rt: &impl Abort, guesses: &Guesses<Entity>, token: Guess) -> Redeemed {
    match guesses.redeem(token) {
        Ok(redeemed) => redeemed,
        Err(_token) => panic!(rt; "the token is taken in"),
    }
}

/// Spends the token of an undecided guess, which stays so.
fn spend(rt: &impl Abort, guesses: &Guesses<Entity>, token: Guess) -> GuessId {
    let id = token.id();
    check(rt, 3, said(rt, guesses, token) == Redeemed::Undecided(id));
    id
}

/// Draws a guess on which nothing depends, and spends its token.
fn draws(rt: &impl Abort, alloc: Global, guesses: &mut Guesses<Entity>) -> GuessId {
    let token = drawn(rt, alloc, guesses, &[]);
    spend(rt, guesses, token)
}

/// No guess can be drawn.
fn refuses(rt: &impl Abort, alloc: Global, guesses: &mut Guesses<Entity>) {
    match draw(alloc, guesses, &[]) {
        Ok(_token) => panic!(rt; "a guess too many"),
        Err(why) => check(rt, 4, why == DrawRefusal::TooMany),
    }
}

/// As many guesses are drawn as may be undecided, and no more.
fn draws_all(rt: &impl Abort, alloc: Global, guesses: &mut Guesses<Entity>) {
    for number in 1..65u64 {
        check(rt, 5, draws(rt, alloc, guesses).number() == number);
    }
    check(rt, 6, guesses.undecided() == GUESS_LIMIT);
    refuses(rt, alloc, guesses);
}

#[test]
fn sixty_four_guesses(rt: HostRuntime) {
    let mut guesses = Guesses::new(rt.alloc(), KERNEL);
    draws_all(&rt, rt.alloc(), &mut guesses);
}

/// Decides the guess so.
fn decide(guesses: &mut Guesses<Entity>, id: GuessId, to: Status) {
    match to {
        Status::Undecided => {}
        Status::Committed => guesses.commit(id),
        Status::Failed => guesses.fail(id),
        Status::Struck => guesses.strike(id),
    }
}

/// The token of an undecided or a struck guess says what became of it.
fn tells(rt: &impl Abort, alloc: Global, guesses: &mut Guesses<Entity>, to: Status) {
    let token = drawn(rt, alloc, guesses, &[]);
    let id = token.id();
    decide(guesses, id, to);
    let want = match to {
        Status::Struck => Redeemed::Struck(id),
        _ => Redeemed::Undecided(id),
    };
    check(rt, 7, said(rt, guesses, token) == want);
    check(rt, 8, guesses.status(id) == Some(to));
}

/// The token of a guess that is decided so comes back. It is spent at a twin, which has drawn the guess and not decided it.
fn comes_back(
    rt: &impl Abort,
    alloc: Global,
    guesses: &mut Guesses<Entity>,
    twin: &mut Guesses<Entity>,
    to: Status,
) {
    let id = draws(rt, alloc, twin);
    let token = drawn(rt, alloc, guesses, &[]);
    decide(guesses, id, to);
    match guesses.redeem(token) {
        Ok(_) => panic!(rt; "the guess is decided"),
        Err(token) => check(rt, 9, spend(rt, twin, token) == id),
    }
    check(rt, 10, guesses.status(id) == Some(to));
}

/// The tokens of guesses that are committed and failed come back.
fn come_back(
    rt: &impl Abort,
    alloc: Global,
    guesses: &mut Guesses<Entity>,
    twin: &mut Guesses<Entity>,
) {
    comes_back(rt, alloc, guesses, twin, Status::Committed);
    comes_back(rt, alloc, guesses, twin, Status::Failed);
}

/// The tokens of two guesses come back, and those of two more say what became of them.
fn decides_four(rt: &impl Abort, alloc: Global, guesses: &mut Guesses<Entity>) {
    let mut twin = Guesses::new(alloc, KERNEL);
    come_back(rt, alloc, guesses, &mut twin);
    tells(rt, alloc, guesses, Status::Undecided);
    tells(rt, alloc, guesses, Status::Struck);
}

#[test]
fn tokens_after_a_decision(rt: HostRuntime) {
    let mut guesses = Guesses::new(rt.alloc(), KERNEL);
    decides_four(&rt, rt.alloc(), &mut guesses);
    let fifth = guesses.status(guess(&rt, 5));
    check(&rt, 11, guesses.undecided() == 1 && fifth.is_none());
}

/// A guess keeps what became of it through a second decision.
fn stays(
    rt: &impl Abort,
    guesses: &mut Guesses<Entity>,
    id: GuessId,
    status: Option<Status>,
    again: Status,
) {
    decide(guesses, id, again);
    check(rt, 12, guesses.status(id) == status);
}

/// The next guess is decided so, and then in each way once more.
fn decides_again(rt: &impl Abort, alloc: Global, guesses: &mut Guesses<Entity>, first: Status) {
    let id = draws(rt, alloc, guesses);
    decide(guesses, id, first);
    for second in &DECIDED {
        stays(rt, guesses, id, Some(first), *second);
    }
}

/// Each guess keeps what became of it first, and one that was not drawn has no status.
fn decides_all_again(rt: &impl Abort, alloc: Global, guesses: &mut Guesses<Entity>) {
    for first in &DECIDED {
        decides_again(rt, alloc, guesses, *first);
    }
    let undrawn = guess(rt, guesses.next());
    stays(rt, guesses, undrawn, None, Status::Committed);
    check(rt, 13, guesses.undecided() == 0);
}

#[test]
fn decided_once(rt: HostRuntime) {
    let mut guesses = Guesses::new(rt.alloc(), KERNEL);
    decides_all_again(&rt, rt.alloc(), &mut guesses);
}

/// Draws a guess on which these entities depend, and spends its token.
fn draws_with(rt: &impl Abort, alloc: Global, guesses: &mut Guesses<Entity>, entities: &[Entity]) {
    let token = drawn(rt, alloc, guesses, entities);
    spend(rt, guesses, token);
}

/// A process as an entity.
fn process(rt: &impl Abort, number: u16) -> Entity {
    Entity::Proc(pid(rt, number))
}

/// Whether an entity is the process of a number.
fn is_process(entity: Option<&Entity>, number: u16) -> bool {
    match entity {
        Some(Entity::Proc(pid)) => Pid::boot(number) == Some(*pid),
        _ => false,
    }
}

/// Whether these entities are just these processes, in this order.
fn are(entities: &[Entity], processes: &[u16]) -> bool {
    for (place, number) in processes.iter().enumerate() {
        if !is_process(entities.get(place), *number) {
            return false;
        }
    }
    entities.len() == processes.len()
}

/// Just these processes depend on the guess of a number.
fn rest(rt: &impl Abort, guesses: &Guesses<Entity>, number: u64, processes: &[u16]) {
    check(
        rt,
        14,
        are(guesses.dependents(guess(rt, number)), processes),
    );
}

/// Each entity stands once in the list of a guess.
fn draws_two(rt: &impl Abort, alloc: Global, guesses: &mut Guesses<Entity>) {
    let twice = [process(rt, 2), process(rt, 1), process(rt, 2)];
    draws_with(rt, alloc, guesses, &twice);
    rest(rt, guesses, 1, &[1, 2]);
    draws_with(rt, alloc, guesses, &[process(rt, 2)]);
}

/// The third process comes to depend on both guesses, which is told twice. Nothing depends on a guess that was not drawn.
fn rests_on_both(rt: &impl Abort, alloc: Global, guesses: &mut Guesses<Entity>) {
    let (both, third) = (tags(rt, alloc, &[1, 2]), process(rt, 3));
    guesses.depend(&both, &third).expect(rt, "memory");
    guesses.depend(&both, &third).expect(rt, "memory");
    rest(rt, guesses, 1, &[1, 2, 3]);
    rest(rt, guesses, 2, &[2, 3]);
    rest(rt, guesses, 3, &[]);
}

/// The second process depends on the second guess no more, and the third on that alone.
fn relieves(rt: &impl Abort, alloc: Global, guesses: &mut Guesses<Entity>) {
    let second = TagSet::of(alloc, guess(rt, 2));
    guesses.relieve(&second, &process(rt, 2));
    guesses.leave_to(&second, &process(rt, 3));
    rest(rt, guesses, 1, &[1, 2]);
    rest(rt, guesses, 2, &[3]);
}

/// The list of the first guess is moved out: it is just this, and none is left.
fn gives_up(rt: &impl Abort, guesses: &mut Guesses<Entity>) {
    let list = guesses.take_dependents(guess(rt, 1));
    check(rt, 15, are(list.as_slice(), &[1, 2]));
    rest(rt, guesses, 1, &[]);
}

/// The first guess fails and the second is struck: no list is left.
fn decides_both(rt: &impl Abort, guesses: &mut Guesses<Entity>) {
    let (first, second) = (guess(rt, 1), guess(rt, 2));
    guesses.fail(first);
    guesses.strike_resting(first);
    check(rt, 16, guesses.oldest() == Some(second));
    guesses.strike(second);
    check(rt, 17, guesses.dependents(second).is_empty());
    check(rt, 18, guesses.oldest().is_none());
}

/// Two guesses are drawn, and what depends on them changes until both are decided.
fn lists_change(rt: &impl Abort, alloc: Global, guesses: &mut Guesses<Entity>) {
    draws_two(rt, alloc, guesses);
    rests_on_both(rt, alloc, guesses);
    relieves(rt, alloc, guesses);
    gives_up(rt, guesses);
    decides_both(rt, guesses);
}

#[test]
fn lists_of_dependents(rt: HostRuntime) {
    let mut guesses = Guesses::new(rt.alloc(), KERNEL);
    lists_change(&rt, rt.alloc(), &mut guesses);
}

/// Ends an epoch in which no guess is undecided.
fn settles(rt: &impl Abort, guesses: &mut Guesses<Entity>) {
    if guesses.undecided() > 0 {
        panic!(rt; "a guess is undecided");
    }
    guesses.settle().expect(rt, "memory");
}

fn of_number(number: u64) -> Status {
    match number % 3 {
        0 => Status::Struck,
        1 => Status::Committed,
        _ => Status::Failed,
    }
}

/// Draws and decides thirty guesses, in epochs of so many.
fn decides_thirty(rt: &impl Abort, alloc: Global, guesses: &mut Guesses<Entity>, count: u64) {
    for number in 1..=30u64 {
        let id = draws(rt, alloc, guesses);
        decide(guesses, id, of_number(number));
        if number.checked_rem(count) == Some(0) {
            settles(rt, guesses);
        }
    }
}

/// The guess of a number has its status, and keeps it through a second decision.
fn keeps_its(rt: &impl Abort, guesses: &mut Guesses<Entity>, number: u64) {
    let (id, status) = (guess(rt, number), Some(of_number(number)));
    check(rt, 19, guesses.status(id) == status);
    stays(rt, guesses, id, status, Status::Committed);
}

/// Each of thirty guesses keeps its status.
fn keep_theirs(rt: &impl Abort, guesses: &mut Guesses<Entity>) {
    for number in 1..31u64 {
        keeps_its(rt, guesses, number);
    }
    check(rt, 20, guesses.next() == 31);
}

/// Thirty guesses are decided in epochs of so many, and each keeps its status.
fn epochs_of(rt: &impl Abort, alloc: Global, count: u64) {
    let mut guesses = Guesses::new(alloc, KERNEL);
    decides_thirty(rt, alloc, &mut guesses, count);
    keep_theirs(rt, &mut guesses);
}

#[test]
fn statuses_of_earlier_epochs(rt: HostRuntime) {
    const COUNTS: [u64; 8] = [1, 2, 3, 4, 5, 7, 30, 31];
    for count in &COUNTS {
        epochs_of(&rt, rt.alloc(), *count);
    }
}

/// Draws a guess that is struck, and ends the epoch.
fn strikes(rt: &impl Abort, alloc: Global, guesses: &mut Guesses<Entity>) -> Guess {
    let struck = drawn(rt, alloc, guesses, &[]);
    guesses.strike(struck.id());
    settles(rt, guesses);
    struck
}

/// Its token tells so in the next epoch.
fn tells_struck(rt: &impl Abort, alloc: Global, guesses: &mut Guesses<Entity>) {
    let struck = strikes(rt, alloc, guesses);
    let want = Redeemed::Struck(struck.id());
    check(rt, 21, said(rt, guesses, struck) == want);
}

/// The token of a guess that was struck in an earlier epoch tells so.
#[test]
fn tokens_of_an_earlier_epoch(rt: HostRuntime) {
    let mut guesses = Guesses::new(rt.alloc(), KERNEL);
    tells_struck(&rt, rt.alloc(), &mut guesses);
}
