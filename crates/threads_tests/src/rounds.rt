//! Many replies go by, past the wire's limit and past round numbers.
ghost use Rattle.std.specs.Prelude.{◌<◌, ◌≤◌, ◌+◌, ◌^◌};

use crate::replies::{empties, receives, sends, wire_from};
use sk_server::Reply;
use std::alloc::Global;
use std::process::Abort;
use std::sync::Wait;

/// So many replies go by, numbered from `first` on. Each is received as soon as `held` came after it.
fn go_by<R: Wait + Abort>(rt: &R, alloc: Global, first: u64, count: u64, held: u64)
    requires numbers { first + count < 2 ^ 63 }
    requires limit { count ≤ 2 ^ 62 }
    requires held { held ≤ count }
{
    let (wire, mut sending, mut receiving) = wire_from::<Reply>(rt, alloc, first);
    for k in 0..count {
        sending = sends(rt, &wire, sending, first + k);
        if k >= held {
            receiving = receives(rt, &wire, receiving, first + (k - held));
        }
    }
    let receiving = empties(rt, &wire, receiving, first + (count - held), first + count);
    let _both = wire.end(rt, sending, receiving);
}

#[test]
fn many_rounds(rt: HostRuntime) {
    go_by(&rt, rt.alloc(), 1, 20_000, 0);
    go_by(&rt, rt.alloc(), 1, 70_000, 63);
    go_by(&rt, rt.alloc(), 65_000, 1_000, 31);
    go_by(&rt, rt.alloc(), 4_294_967_000, 1_000, 62);
    go_by(&rt, rt.alloc(), 9_223_372_036_854_774_000, 1_000, 7);
}
