//! Whose a batch is.
use crate::check::check;
use sk_engine::{Held, held_under, owner, sign};
use std::rt::HostRuntime;

#[test]
fn bytes_begin_with_their_owner(rt: HostRuntime) {
    let mut value = [9; 10];
    sign(&mut value, 258);
    check(&rt, 1, value == [0, 0, 0, 0, 0, 0, 1, 2, 9, 9]);
    check(&rt, 2, owner(&value) == Some(258));
    check(&rt, 3, owner(&value[..8]) == Some(258));
    check(&rt, 4, owner(&value[..7]) == None);
}

#[test]
fn equal_bytes_are_its_own(rt: HostRuntime) {
    check(&rt, 1, held_under(b"ab", b"ab") == Held::Mine);
    check(&rt, 2, held_under(b"ab", b"abc") == Held::Another);
    check(&rt, 3, held_under(b"ab", b"aa") == Held::Another);
}
