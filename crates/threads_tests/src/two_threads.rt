//! A wire between two threads.
ghost use Rattle.std.specs.Prelude.{◌≡◌, ◌<◌, ◌≤◌, ◌+◌, ◌^◌};
ghost use Rattle.crossbeam_queue.specs.Passes.{view};
ghost use Rattle.sk_wire.specs.Rule.{sender};
ghost use Rattle.sk_wire.specs.Wire.{IsSending, IsReceiving};

use crate::replies::{empties, reply, wire_from};
use crate::same::same;
use sk_server::Reply;
use sk_wire::{Wire, WirePass};
use std::sync::Wait;
use std::thread;
use std::thread::Threads;

/// Sends so many replies from `first` on, each again where the wire is full.
fn send_all<R: Wait>(
    rt: &R,
    wire: &Wire<Reply>,
    pass: WirePass<Reply>,
    first: u64,
    count: u64,
) -> WirePass<Reply>
    requires pass { IsSending wire.now pass × (view pass ≡ sender first) }
    requires numbers { first + count < 2 ^ 63 }
    requires limit { count ≤ 2 ^ 62 }
    ensures { IsSending wire.now result }
{
    let mut pass = pass;
    let mut number = first;
    for _ in rt.forever() {
        if number >= first + count {
            break;
        }
        let (back, sent) = wire.push(rt, pass, reply(number));
        pass = back;
        match sent {
            Ok(()) => number += 1,
            Err(_) => thread::yield_now(),
        }
    }
    pass
}

/// Receives so many replies: how many of them were those from `first` on, in their order.
fn receive_all<R: Wait>(
    rt: &R,
    wire: &Wire<Reply>,
    pass: WirePass<Reply>,
    first: u64,
    count: u64,
) -> (WirePass<Reply>, u64)
    requires pass { IsReceiving wire.now pass }
    requires numbers { first + count < 2 ^ 63 }
    ensures { IsReceiving wire.now result.0 }
{
    let mut pass = pass;
    let mut received = 0;
    let mut right = 0u64;
    for _ in rt.forever() {
        if received >= count {
            break;
        }
        let (back, item) = wire.pop(rt, pass);
        pass = back;
        match item {
            Some(item) => {
                right = right.saturating_add((item == reply(first + received)) as u64);
                received += 1;
            }
            None => thread::yield_now(),
        }
    }
    (pass, right)
}

/// Sends in one thread and receives in another: the pass of both, and how many replies came in their order.
fn both<R: Threads + Wait + Sync>(
    rt: &R,
    wire: &Wire<Reply>,
    sending: WirePass<Reply>,
    receiving: WirePass<Reply>,
) -> (WirePass<Reply>, u64)
    requires sending { IsSending wire.now sending × (view sending ≡ sender 1) }
    requires receiving { IsReceiving wire.now receiving }
    ensures { IsReceiving wire.now result.0 }
{
    let (sending, (receiving, right)) = thread::join(
        rt,
        move || -> WirePass<Reply>
            requires { IsSending wire.now sending × (view sending ≡ sender 1) }
            ensures { IsSending wire.entry.now result }
        { send_all(rt, wire, sending, 1, 5_000) },
        move || -> (WirePass<Reply>, u64)
            requires { IsReceiving wire.now receiving }
            ensures { IsReceiving wire.entry.now result.0 }
        { receive_all(rt, wire, receiving, 1, 5_000) },
    );
    (wire.end(rt, sending, receiving), right)
}

#[test]
fn two_threads(rt: HostRuntime) {
    let (wire, sending, receiving) = wire_from::<Reply>(&rt, rt.alloc(), 1);
    let (pass, right) = both(&rt, &wire, sending, receiving);
    same(&rt, &right, &5_000);
    let _pass = empties(&rt, &wire, pass, 0, 0);
}
