//! What is kept for each change is small.
use sk_changes::Undo;
use std::mem::size_of;

#[test]
fn an_undo_is_a_few_words(rt: HostRuntime) {
    assert!(rt; size_of::<Undo>() <= 72);
}
