//! Traces, and that what is printed of them is read again.
use crate::plain::{check, child, content, guess, pid};
use rand_core::Rng;
use rand_pcg::Pcg32;
use sk_ids::Pid;
use sk_objects::Content;
use sk_script::Input;
use sk_trace::{Event, InputRef, KeptInput, Trace};
use std::alloc::Global;
use std::process::Abort;

/// A trace whose text is well.
fn parsed(rt: &impl Abort, alloc: Global, text: &[u8]) -> Trace {
    Trace::parse(alloc, text).expect(rt, "a trace")
}

/// A trace is printed so.
fn prints(rt: &impl Abort, alloc: Global, trace: &Trace, text: &[u8]) {
    let printed = trace.print(alloc).expect(rt, "memory");
    check(rt, 1, printed.as_slice() == text);
}

/// Whether an event is a step of the process with no input.
fn is_step(event: &Event, process: Pid) -> bool {
    match event {
        Event::Step { pid, input } => *pid == process && input.input() == Input::None,
        _ => false,
    }
}

/// Whether an event is a guess of the process, at which a check is guessed to say that all is well.
fn is_guess(event: &Event, process: Pid, number: u64) -> bool {
    match event {
        Event::Guess { id, pid, input } => {
            id.number() == number && *pid == process && input.input() == Input::Good
        }
        _ => false,
    }
}

/// Whether these are just a guess of the process, with steps around it, and its failure.
fn are_six(events: &[Event], pid: Pid) -> bool {
    match events {
        [one, two, three, four, five, Event::Fail(id)] => {
            is_step(one, pid)
                && is_step(two, pid)
                && is_guess(three, pid, 1)
                && is_step(four, pid)
                && is_step(five, pid)
                && id.number() == 1
        }
        _ => false,
    }
}

#[test]
fn trace_text(rt: HostRuntime) {
    let text = b"step 1 none\nstep 1 none\nguess 1 1 good\nstep 1 none\nstep 1 none\nfail 1\n";
    let trace = parsed(&rt, rt.alloc(), text);
    check(&rt, 2, are_six(trace.events(), pid(&rt, 1)));
    prints(&rt, rt.alloc(), &trace, text);
}

#[test]
fn one_text_of_a_trace(rt: HostRuntime) {
    let text =
        b"# a\r\n\n step\t1.03  fresh 007 \"a\\x4A\\n\\\"\x20\"\r\n\t# commit 0\ncommit 0009";
    let trace = parsed(&rt, rt.alloc(), text);
    let want = b"step 1.3 fresh 7 \"aJ\\n\\\" \"\ncommit 9\n";
    prints(&rt, rt.alloc(), &trace, want);
}

/// A number of a path: the least, the greatest, a small one or any.
fn index(rng: &mut Pcg32) -> u16 {
    match rng.next_u32() % 4 {
        0 => 1,
        1 => 65_535,
        2 => 1 + (rng.next_u32() % 12) as u16,
        _ => 1 + (rng.next_u32() % 65_535) as u16,
    }
}

/// A number from 0 to 2^63 - 1: the least, the greatest, a small one or any.
fn number(rng: &mut Pcg32) -> u64 {
    match rng.next_u32() % 4 {
        0 => 0,
        1 => (1 << 63) - 1,
        2 => u64::from(rng.next_u32() % 100),
        _ => rng.next_u64() >> 1,
    }
}

/// A process of any level.
fn process(rt: &impl Abort, rng: &mut Pcg32) -> Pid {
    let mut pid = pid(rt, index(rng));
    for _ in 0..rng.next_u32() % 4 {
        pid = child(rt, pid, index(rng));
    }
    pid
}

/// A version and bytes of every kind, in one of eight cases as many as there may be.
fn any_content(rt: &impl Abort, rng: &mut Pcg32) -> Content {
    let mut cells = [0; 512];
    rng.fill_bytes(&mut cells);
    let len = match rng.next_u32() % 8 {
        0 => 512,
        _ => (rng.next_u32() % 24) as usize,
    };
    content(rt, number(rng), &cells[..len.min(512)])
}

fn input(rt: &impl Abort, rng: &mut Pcg32) -> Input {
    match rng.next_u32() % 4 {
        0 => Input::None,
        1 => Input::Good,
        2 => Input::Fresh(any_content(rt, rng)),
        _ => Input::Stale(any_content(rt, rng)),
    }
}

/// An event with this input, if it has one.
fn event(rt: &impl Abort, rng: &mut Pcg32, input: KeptInput) -> Event {
    let kind = rng.next_u32() % 4;
    let id = guess(rt, number(rng).max(1));
    let pid = process(rt, rng);
    match kind {
        0 => Event::Step { pid, input },
        1 => Event::Guess { id, pid, input },
        2 => Event::Commit(id),
        _ => Event::Fail(id),
    }
}

/// Adds an event.
fn happens(rt: &impl Abort, trace: &mut Trace, event: Event) {
    if trace.reserve(1).is_err() {
        panic!(rt; "memory");
    }
    trace.push(event);
}

/// A trace of so many events.
fn random_trace(rt: &impl Abort, alloc: Global, rng: &mut Pcg32, len: u32) -> Trace {
    let mut trace = Trace::new(alloc);
    for _ in 0..len {
        let input = KeptInput::keep(alloc, InputRef::of(&input(rt, rng))).expect(rt, "memory");
        happens(rt, &mut trace, event(rt, rng, input));
    }
    trace
}

/// A text is read as a trace of just these events, and printed as that text again.
fn is_read(rt: &impl Abort, alloc: Global, text: &[u8], events: &[Event]) {
    let again = parsed(rt, alloc, text);
    check(rt, 6, again.events() == events);
    prints(rt, alloc, &again, text);
}

/// A trace is read again from its text, and printed as that text again.
fn is_read_again(rt: &impl Abort, alloc: Global, trace: &Trace) {
    let text = trace.print(alloc).expect(rt, "memory");
    is_read(rt, alloc, &text, trace.events());
}

#[test]
fn random_traces(rt: HostRuntime) {
    let mut rng = Pcg32::new(20, 1);
    for _ in 0..3_000 {
        let len = rng.next_u32() % 40;
        let trace = random_trace(&rt, rt.alloc(), &mut rng, len);
        is_read_again(&rt, rt.alloc(), &trace);
    }
}

/// The event of a number: guesses, steps and commits come in turn.
fn event_of(rt: &impl Abort, pid: Pid, number: u32, input: KeptInput) -> Event {
    let id = guess(rt, u64::from(number / 3 + 1));
    match number % 3 {
        0 => Event::Guess { id, pid, input },
        1 => Event::Step { pid, input },
        _ => Event::Commit(id),
    }
}

/// A trace of so many events, guesses and their commits among them.
fn long_trace(rt: &impl Abort, alloc: Global, pid: Pid, len: u32) -> Trace {
    let mut trace = Trace::new(alloc);
    for number in 0..len {
        let input = KeptInput::keep(alloc, InputRef::Good).expect(rt, "memory");
        happens(rt, &mut trace, event_of(rt, pid, number, input));
    }
    trace
}

#[test]
fn long_traces(rt: HostRuntime) {
    let pid = pid(&rt, 1);
    for len in [1_025, 4_097, 65_537, 100_001] {
        let trace = long_trace(&rt, rt.alloc(), pid, len);
        is_read_again(&rt, rt.alloc(), &trace);
    }
}
