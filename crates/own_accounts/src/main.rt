//! Accounts over a kernel of own keys: a transfer goes on a guess, another depends on it, and the guess is decided.
#![tactic(auto)]

ghost use Rattle.std.specs.Prelude.{◌≡◌, IfOk, OnOk, Some, None};
ghost use Rattle.hidewillow.specs.UndoState.{numbers};
ghost use Rattle.hidewillow.specs.OwnSlots.{look_at};
ghost use Rattle.hidewillow.specs.RecordTrace.{Taken};
ghost use Rattle.hidewillow.specs.OwnCalls.{next_of};
ghost use Rattle.hidewillow.specs.OwnLaw.{Happens, OwnRunsAsPlain};
ghost use Rattle.hidewillow.specs.OwnParts.{deed};
ghost use Rattle.std.specs.Ordering.{nat_cmp};
ghost use Rattle.own_accounts.specs.Accounts.{accounts, balance, IsHonest};
ghost use Rattle.own_accounts.specs.Own.{IsOwn};

mod order;

use hidewillow::Guess;
use hidewillow::own::{Speculator, Step};
use order::{Order, Refused};
use std::alloc::Global;
use std::num::NonZeroU16;

/// How many orders are taken at most.
const BOOKED: u8 = 3;

/// After any orders, guesses, commits, failures and takings of output, each account has what it has after a plain run of the
/// orders that depend on no failed guess, and so do the outputs. This is the law at our own step function: it holds since
/// what `carry_out` hands in is what an order does.
pub fn accounts_stand()
    ensures { OwnRunsAsPlain accounts }
{}

/// What an account has.
fn balance(bank: &Speculator<u16, u64, u64>, account: u16) -> u64
    ensures { result ≡ balance (look_at nat_cmp bank.now.slots account) }
{
    match bank.value(&account) {
        Some(amount) => *amount,
        None => 0,
    }
}

/// The step of an order, on what is there.
fn carry_out(
    bank: &Speculator<u16, u64, u64>,
    alloc: Global,
    order: Order,
) -> Result<Step<u16, u64, u64>, Refused>
    ensures { IfOk result
        (λ step. IsHonest bank.now.slots order
        (deed step.looked.items step.written.items step.said)) }
{
    let mut step = Step::new(alloc);
    let (account, amount) = match order {
        Order::Deposit(account, amount) => (account, amount),
        Order::Transfer(sender, receiver, amount) => {
            if sender == receiver {
                return Err(Refused::Short);
            }
            let Some(left) = balance(bank, sender).checked_sub(amount) else {
                return Err(Refused::Short);
            };
            step.looked.push(sender)?;
            step.written.push((sender, Some(left)))?;
            (receiver, amount)
        }
    };
    let Some(sum) = balance(bank, account).checked_add(amount) else {
        return Err(Refused::Full);
    };
    step.looked.push(account)?;
    step.written.push((account, Some(sum)))?;
    step.said = Some((0, amount));
    Ok(step)
}

/// Takes an order, which depends on whatever its accounts depend on: what is handed in is what it does, as the law wants it. No
/// guess is drawn or decided.
fn take(bank: &mut Speculator<u16, u64, u64>, alloc: Global, order: Order) -> Result<(), Refused>
    ensures happens { OnOk result
        (Happens accounts bank.old (Taken (record { order = order; guess = None })) bank.new) }
    ensures guesses { bank.new.guesses ≡ bank.old.guesses }
    ensures opens { numbers bank.new.opens ≡ numbers bank.old.opens }
{
    let mut step = carry_out(bank, alloc, order)?;
    bank.take(&mut step)?;
    Ok(())
}

/// Takes an order that may turn out wrong, on a guess. All that depends on it can be taken back.
fn guess(
    bank: &mut Speculator<u16, u64, u64>,
    alloc: Global,
    order: Order,
) -> Result<Guess, Refused>
    ensures happens { OnOk result
        (Happens accounts bank.old
        (Taken (record { order = order; guess = Some (next_of bank.old.guesses) })) bank.new) }
    ensures own { IfOk result (λ guess. IsOwn bank.new guess) }
{
    let mut step = carry_out(bank, alloc, order)?;
    Ok(bank.guess(&mut step)?)
}

/// Decides a guess of these accounts. It can't come back as a stranger.
fn decide(bank: &mut Speculator<u16, u64, u64>, guess: Guess, is_right: bool)
    requires { IsOwn bank.old guess }
{
    if is_right {
        match bank.commit(guess) {
            Ok(_committed) => {}
            Err(_stranger) => unreachable!(),
        }
    } else {
        match bank.fail(guess) {
            Ok(_failed) => {}
            Err(_stranger) => unreachable!(),
        }
    }
}

/// A transfer on a guess, and one that depends on it; then the guess is decided. A token can't be let go, so that it is spent
/// before any `?`.
fn go_on(
    bank: &mut Speculator<u16, u64, u64>,
    alloc: Global,
    is_right: bool,
) -> Result<(), Refused> {
    let token = guess(bank, alloc, Order::Transfer(1, 2, 30))?;
    let taken = take(bank, alloc, Order::Transfer(2, 3, 10));
    decide(bank, token, is_right);
    taken
}

/// Writes what is booked, and takes it out.
fn show_booked(rt: &HostRuntime, bank: &mut Speculator<u16, u64, u64>) -> anyhow::Result<()> {
    for _ in 0..BOOKED {
        if let Some(amount) = bank.released(0) {
            println!(rt; "booked: {amount}")?;
        }
    }
    Ok(())
}

/// A deposit and what depends on a guess; then what was booked, and what each account has.
fn show(
    rt: &HostRuntime,
    bank: &mut Speculator<u16, u64, u64>,
    is_right: bool,
) -> anyhow::Result<()> {
    take(bank, rt.alloc(), Order::Deposit(1, 100))?;
    go_on(bank, rt.alloc(), is_right)?;
    show_booked(rt, bank)?;
    let (one, two, three) = (balance(bank, 1), balance(bank, 2), balance(bank, 3));
    println!(rt; "accounts: {one} {two} {three}")?;
    Ok(())
}

/// All of it, over a bank of its own.
fn run(rt: &HostRuntime, is_right: bool) -> anyhow::Result<()> {
    let mut bank = Speculator::new(rt.alloc(), 1, NonZeroU16::MAX);
    show(rt, &mut bank, is_right)
}

fn main(rt: HostRuntime) -> anyhow::Result<()> {
    for is_right in [true, false] {
        run(&rt, is_right)?;
    }
    Ok(())
}
