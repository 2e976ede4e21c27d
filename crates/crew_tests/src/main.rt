//! `crew_tests WORKERS TURNS CREWS [AHEAD] < SCENARIO`: crews run the processes of a scenario, one crew after the other, and each
//! is judged: each worker makes the turns that are its own, in its rounds, and passes the gate before each of them, where in
//! every second crew all meet; a fresh desk and a fresh server answer each call as the crew's did and come to the same trace and
//! files; and the kernel stands as the plain kernel does. A worker runs up to AHEAD private instructions before a turn, 64 where
//! the word is not there.
#![tactic(auto)]

ghost use Rattle.std.specs.Prelude.{◌≤◌, IfOk, IfSome};

mod again;
mod crews;
mod judge;
mod meeting;
mod turns;

use crate::crews::judge_crews;
use sk_command::read_all::read_all;
use sk_crew::CrewPlan;
use sk_scenario::Scenario;
use std::env;
use std::io::Write;
use std::process::ExitCode;
use std::sync::Wait;
use std::thread::Threads;
use tests_support::finding::Finding;

/// How many private instructions a worker runs at most before each of its turns, where no word says it.
const AHEAD: u32 = 64;

/// How many crews there are, and how large each is.
#[derive(Clone, Copy)]
struct CrewSizes {
    plan: CrewPlan,
    crews: u32,
}

/// The number that a word says.
fn number(words: &[String], place: usize) -> Option<u32> {
    words.get(place)?.parse::<u32>().ok()
}

/// How many private instructions a worker runs at most before each of its turns.
fn ahead(words: &[String]) -> Option<u32> {
    if words.len() > 4 {
        number(words, 4)
    } else {
        Some(AHEAD)
    }
}

/// What the words after the program's name ask for.
fn wish_of(words: &[String]) -> Option<CrewSizes>
    ensures workers { IfSome result (λ wish. (1 ≤ wish.plan.workers) × (wish.plan.workers ≤ 8)) }
    ensures turns { IfSome result (λ wish. 1 ≤ wish.plan.turns) }
{
    let workers = number(words, 1)?;
    let turns = number(words, 2)?;
    let crews = number(words, 3)?;
    let ahead = ahead(words)?;
    if workers < 1 || 8 < workers || turns < 1 {
        return None;
    }
    let plan = CrewPlan {
        workers: workers as u8,
        turns,
        ahead,
    };
    Some(CrewSizes { plan, crews })
}

/// What the words of the process ask for.
fn read_wish(rt: &HostRuntime) -> Result<CrewSizes, Finding>
    ensures workers { IfOk result (λ wish. (1 ≤ wish.plan.workers) × (wish.plan.workers ≤ 8)) }
    ensures turns { IfOk result (λ wish. 1 ≤ wish.plan.turns) }
{
    let words = env::args(rt)?.collect::<Vec<String>>(rt.alloc())?;
    match wish_of(&words) {
        Some(wish) => Ok(wish),
        None => Err(Finding::Words),
    }
}

/// The scenario on the standard input.
fn read_scenario(rt: &HostRuntime) -> Result<Scenario, Finding> {
    match read_all(rt.alloc(), &mut rt.reader()) {
        Ok(text) => Ok(Scenario::parse(rt.alloc(), &text)?),
        Err(_) => Err(Finding::Input),
    }
}

/// Judges crews of the scenario on the standard input.
fn judge_input<T: Threads + Wait + Sync>(rt: &HostRuntime, threads: &T) -> Result<(), Finding> {
    let CrewSizes { plan, crews } = read_wish(rt)?;
    let scenario = read_scenario(rt)?;
    let judged = judge_crews(threads, rt.alloc(), &scenario.declarations, plan, crews);
    drop(scenario);
    judged
}

fn main(rt: HostRuntime) -> ExitCode {
    match judge_input(&rt, &rt) {
        Ok(()) => ExitCode::SUCCESS,
        Err(finding) => {
            let _ = writeln!(rt.stderr(), "{finding}");
            ExitCode::FAILURE
        }
    }
}
