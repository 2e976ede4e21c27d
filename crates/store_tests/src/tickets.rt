//! Tickets that do not wait, and replies for which there is no room.
use crate::check::check;
use sk_channels::{Channel, Refusal};
use sk_requests::Limits;
use std::alloc::Global;
use std::process::Abort;

/// How large requests may be.
const LIMITS: Limits = Limits {
    words: 8,
    bytes: 64,
    line: 64,
};

/// A channel on which a hundred bytes may wait.
fn new_channel(alloc: Global) -> Channel {
    Channel::new(alloc, LIMITS, 100)
}

/// So many of these bytes are taken, and something is asked for, or nothing is.
fn feeds(rt: &impl Abort, channel: &mut Channel, bytes: &[u8], count: usize, is_asked: bool) {
    let fed = channel.feed(bytes).expect(rt, "bytes are taken");
    check(rt, fed.count, fed.count == count);
    check(rt, count, fed.asked.is_some() == is_asked);
    drop(fed);
}

/// So many tickets are given.
fn take_tickets(rt: &impl Abort, channel: &mut Channel, count: usize) {
    for _ in 0..count {
        feeds(rt, channel, b"PING", 4, false);
        feeds(rt, channel, b"\n", 1, true);
    }
}

/// Tickets that do not wait.
fn refuses(rt: &impl Abort, channel: &mut Channel) {
    take_tickets(rt, channel, 2);
    check(
        rt,
        0,
        channel.reply(3, b"+OK\r\n") == Err(Refusal::NoTicket),
    );
    check(rt, 1, channel.refuse_up_to(4) == Err(Refusal::NoTicket));
    check(rt, 2, channel.reply(2, b"+OK\r\n") == Ok(()));
    check(
        rt,
        3,
        channel.reply(1, b"+OK\r\n") == Err(Refusal::NoTicket),
    );
}

#[test]
fn tickets_that_do_not_wait_are_refused(rt: HostRuntime) {
    let mut channel = new_channel(rt.alloc());
    refuses(&rt, &mut channel);
    drop(channel);
}

/// Too much waits for one more reply.
fn fills(rt: &impl Abort, channel: &mut Channel) {
    take_tickets(rt, channel, 4);
    check(rt, 0, channel.reply(2, b"+OK\r\n") == Ok(()));
    check(rt, 1, channel.reply(3, &[b'x'; 50]) == Ok(()));
    check(rt, 2, channel.refuse_up_to(5) == Err(Refusal::Full));
    check(rt, 3, channel.reply(4, b"+OK\r\n") == Err(Refusal::Full));
}

#[test]
fn no_reply_is_taken_while_too_much_waits(rt: HostRuntime) {
    let mut channel = new_channel(rt.alloc());
    fills(&rt, &mut channel);
    drop(channel);
}
