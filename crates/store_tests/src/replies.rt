//! The bytes of replies.
use sk_requests::reply::{array, bulk, error, integer, null, simple};
use std::alloc::AllocError;

/// Writes a reply of each kind.
fn replies(out: &mut Vec<u8>) -> Result<(), AllocError> {
    simple(out, b"OK")?;
    error(out, b"ERR a\r\nb")?;
    integer(out, i64::MIN)?;
    bulk(out, b"a\r\nb")?;
    null(out)?;
    array(out, 12)
}

const REPLIES: &[u8] =
    b"+OK\r\n-ERR a  b\r\n:-9223372036854775808\r\n$4\r\na\r\nb\r\n$-1\r\n*12\r\n";

#[test]
fn replies_are_written_as_known(rt: HostRuntime) {
    let mut out = Vec::new(rt.alloc());
    replies(&mut out).expect(&rt, "memory");
    assert!(rt; out.as_slice() == REPLIES);
}
