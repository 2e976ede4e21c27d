//! A wire fills up and empties.
ghost use Rattle.std.specs.Prelude.{◌≡◌, ◌<◌, ◌+◌, ◌^◌, length, IfSome};
ghost use Rattle.crossbeam_queue.specs.Passes.{view};
ghost use Rattle.sk_wire.specs.Rule.{sender};
ghost use Rattle.sk_wire.specs.Wire.{IsSending, IsReceiving};

use crate::replies::{empties, receives, reply, wire_from};
use crate::same::same;
use sk_ids::{Name, TagSet};
use sk_server::{Ask, Reply, Request};
use sk_wire::{HasNumber, WIRE_LIMIT, Wire, WirePass};
use std::alloc::Global;
use std::process::Abort;
use std::sync::Wait;
use tests_support::plain::name;

/// Sends the replies from 7 on until one comes back: how many were taken, and the one that came back.
fn fill<R: Wait>(
    rt: &R,
    wire: &Wire<Reply>,
    pass: WirePass<Reply>,
) -> (WirePass<Reply>, u64, Option<Reply>)
    requires { IsSending wire.now pass × (view pass ≡ sender 7) }
    ensures pass { IsSending wire.now result.0 }
    ensures number { IfSome result.2
        (λ back. back.number ≡ (view result.0).first + length (view result.0).sent) }
    ensures limit { IfSome result.2 (λ back. back.number < (view result.0).first + 2 ^ 62) }
{
    let mut pass = pass;
    for k in 0..100u64 {
        let (back, sent) = wire.push(rt, pass, reply(7 + k));
        pass = back;
        if let Err(item) = sent {
            return (pass, k, Some(item));
        }
    }
    (pass, 100, None)
}

/// Fills a wire, which hands back what it does not take, and empties it.
fn fills_and_empties<R: Wait + Abort>(
    rt: &R,
    wire: &Wire<Reply>,
    sending: WirePass<Reply>,
    receiving: WirePass<Reply>,
)
    requires sending { IsSending wire.now sending × (view sending ≡ sender 7) }
    requires receiving { IsReceiving wire.now receiving }
{
    let (sending, count, back) = fill(rt, wire, sending);
    same(rt, &count, &(WIRE_LIMIT as u64));
    same(rt, &back, &Some(reply(71)));
    let receiving = receives(rt, wire, receiving, 7);
    let Some(item) = back else {
        panic!(rt; "no item")
    };
    let (sending, sent) = wire.push(rt, sending, item);
    same(rt, &sent, &Ok(()));
    let receiving = empties(rt, wire, receiving, 8, 72);
    let both = wire.end(rt, sending, receiving);
    let _both = empties(rt, wire, both, 0, 0);
}

#[test]
fn full_wire_hands_back(rt: HostRuntime) {
    let (wire, sending, receiving) = wire_from::<Reply>(&rt, rt.alloc(), 7);
    fills_and_empties(&rt, &wire, sending, receiving);
}

#[test]
fn empty_wire_has_none(rt: HostRuntime) {
    let (wire, _sending, receiving) = wire_from::<Reply>(&rt, rt.alloc(), 1);
    let _receiving = empties(&rt, &wire, receiving, 0, 0);
}

/// A request of a number, which asks for a file.
fn request(alloc: Global, number: u64, at: Name) -> Request
    ensures { result.number ≡ number }
{
    Request {
        number,
        rests: TagSet::new(alloc),
        settled: 1,
        guess: None,
        ask: Ask::Get(at),
    }
}

/// The number of a request that asks for a file, and that file.
fn asked_by(received: &Option<Request>) -> Option<(u64, Name)> {
    match received {
        Some(request) => match &request.ask {
            Ask::Get(at) => Some((request.number(), *at)),
            Ask::Check(_, _) | Ask::Store(_, _, _) => None,
        },
        None => None,
    }
}

/// Receives the request of a number, which asks for a file; or none.
fn receives_request<R: Wait + Abort>(
    rt: &R,
    wire: &Wire<Request>,
    pass: WirePass<Request>,
    wanted: Option<(u64, Name)>,
) -> WirePass<Request>
    requires { IsReceiving wire.now pass }
    ensures { IsReceiving wire.now result }
{
    let (pass, received) = wire.pop(rt, pass);
    same(rt, &received.is_some(), &wanted.is_some());
    same(rt, &asked_by(&received), &wanted);
    pass
}

/// Sends two requests, which ask for these files, and receives them in their order.
fn sends_two<R: Wait + Abort>(
    rt: &R,
    alloc: Global,
    wire: &Wire<Request>,
    sending: WirePass<Request>,
    receiving: WirePass<Request>,
    names: (Name, Name),
)
    requires sending { IsSending wire.now sending × (view sending ≡ sender 1) }
    requires receiving { IsReceiving wire.now receiving }
{
    let (sending, sent) = wire.push(rt, sending, request(alloc, 1, names.0));
    same(rt, &sent.is_ok(), &true);
    let (sending, sent) = wire.push(rt, sending, request(alloc, 2, names.1));
    same(rt, &sent.is_ok(), &true);
    let receiving = receives_request(rt, wire, receiving, Some((1, names.0)));
    let receiving = receives_request(rt, wire, receiving, Some((2, names.1)));
    let receiving = receives_request(rt, wire, receiving, None);
    let _both = wire.end(rt, sending, receiving);
}

#[test]
fn requests_in_turn(rt: HostRuntime) {
    let names = (
        name(b"/x").expect(&rt, "a name"),
        name(b"/y").expect(&rt, "a name"),
    );
    let (wire, sending, receiving) = wire_from::<Request>(&rt, rt.alloc(), 1);
    sends_two(&rt, rt.alloc(), &wire, sending, receiving, names);
}
