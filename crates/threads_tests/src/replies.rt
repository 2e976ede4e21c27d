//! Replies that go by a wire, each told apart from all others.
ghost use Rattle.std.specs.Prelude.{◌≡◌, ◌<◌, ◌+◌, ◌^◌, length};
ghost use Rattle.crossbeam_queue.specs.Passes.{view};
ghost use Rattle.sk_wire.specs.Rule.{sender};
ghost use Rattle.sk_wire.specs.Wire.{IsSending, IsReceiving};

use crate::same::same;
use sk_ids::Text;
use sk_objects::Content;
use sk_objects::content::LAST_VERSION;
use sk_server::{Answer, Reply};
use sk_wire::{HasNumber, Wire, WirePass};
use std::alloc::Global;
use std::process::Abort;
use std::sync::Wait;

/// A wire for items that are numbered from `first` on, its sending and its receiving pass.
pub fn wire_from<T: HasNumber + Drop>(
    rt: &impl Abort,
    alloc: Global,
    first: u64,
) -> (Wire<T>, WirePass<T>, WirePass<T>)
    ensures sending { IsSending result.0 result.1 × (view result.1 ≡ sender first) }
    ensures receiving { IsReceiving result.0 result.2 }
{
    Wire::<T>::new(alloc, first).expect(rt, "memory")
}

/// The reply of a number, with an answer of its own.
pub fn reply(number: u64) -> Reply
    ensures { result.number ≡ number }
{
    let answer = match Content::new(number % LAST_VERSION, Text::empty()) {
        Some(content) => Answer::Copy(content),
        None => Answer::Dropped,
    };
    Reply { number, answer }
}

/// Sends the reply of a number, for which there is room.
pub fn sends<R: Wait + Abort>(
    rt: &R,
    wire: &Wire<Reply>,
    pass: WirePass<Reply>,
    number: u64,
) -> WirePass<Reply>
    requires pass { IsSending wire.now pass }
    requires number { number ≡ (view pass).first + length (view pass).sent }
    requires limit { number < (view pass).first + 2 ^ 62 }
    ensures pass { IsSending wire.now result }
    ensures first { (view result).first ≡ (view pass).first }
    ensures sent { length (view result).sent ≡ length (view pass).sent + 1 }
{
    let (pass, sent) = wire.push(rt, pass, reply(number));
    if sent.is_err() {
        panic!(rt; "a full wire");
    }
    pass
}

/// Receives the reply of a number.
pub fn receives<R: Wait + Abort>(
    rt: &R,
    wire: &Wire<Reply>,
    pass: WirePass<Reply>,
    number: u64,
) -> WirePass<Reply>
    requires { IsReceiving wire.now pass }
    ensures { IsReceiving wire.now result }
{
    let (pass, received) = wire.pop(rt, pass);
    same(rt, &received, &Some(reply(number)));
    pass
}

/// Receives the replies of these numbers, and then none.
pub fn empties<R: Wait + Abort>(
    rt: &R,
    wire: &Wire<Reply>,
    pass: WirePass<Reply>,
    from: u64,
    to: u64,
) -> WirePass<Reply>
    requires { IsReceiving wire.now pass }
    ensures { IsReceiving wire.now result }
{
    let mut pass = pass;
    for number in from..to {
        pass = receives(rt, wire, pass, number);
    }
    let (pass, none) = wire.pop(rt, pass);
    same(rt, &none, &None);
    pass
}
