//! Writes and what puts them back, through the trait.
use sk_inversion::{Inversion, Sum, Whole, Write, put_back};

/// Writes, and puts that back; answers what was there between.
fn there_and_back<V: Copy + Drop, I: Inversion<V>>(
    value: &mut Option<V>,
    write: I::Write,
) -> Option<V> {
    let before = I::write(value, write);
    let after = *value;
    put_back::<V, I>(value, before);
    after
}

#[test]
fn adds_and_takes_back(rt: HostRuntime) {
    let mut value = Some(40u64);
    let after = there_and_back::<u64, Sum>(&mut value, Write::Change(2));
    assert_eq!(rt; after, Some(42));
    assert_eq!(rt; value, Some(40));
    assert_eq!(rt; Sum::join(42, 40), 40);
}

#[test]
fn sets_and_takes_back(rt: HostRuntime) {
    let mut value = None;
    let after = there_and_back::<u64, Whole>(&mut value, Some(2));
    assert_eq!(rt; after, Some(2));
    assert_eq!(rt; value, None);
}
