//! The newest record of a batch is withdrawn, as where its step found no memory.
use crate::check::check;
use sk_batches::{Queue, Refusal, Taken};
use std::alloc::Global;
use std::num::NonZeroU16;
use std::process::Abort;

/// A record that depends on nothing is of batch 1.
fn adds(queue: &mut Queue, bytes: &[u8]) -> bool {
    queue.append(&[], bytes) == Ok(1)
}

/// What is sent is what stands, in its order.
fn sends(rt: &impl Abort, queue: &mut Queue) {
    check(rt, 1, adds(queue, b"ab") && adds(queue, b"xx"));
    queue.withdraw();
    check(rt, 2, adds(queue, b"cd"));
    let mut room = [9; 40];
    let taken: Result<Taken, Refusal> = queue.take(&mut room);
    check(rt, 3, taken == Ok(Taken { frame: 7, len: 4 }));
    check(rt, 4, room.get(..5) == Some(b"abcd\t".as_slice()));
}

fn withdraws(rt: &impl Abort, alloc: Global) {
    let most = NonZeroU16::new(4).expect(rt, "a number");
    let mut queue = Queue::new(alloc, most, 40, 7);
    sends(rt, &mut queue);
    drop(queue);
}

#[test]
fn what_is_withdrawn_is_not_sent(rt: HostRuntime) {
    withdraws(&rt, rt.alloc());
}
