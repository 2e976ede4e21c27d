//! What is kept of each call is small.
use sk_workers::{HistoryEntry, Receipt};
use std::mem::size_of;

#[test]
fn an_entry_and_a_receipt_are_a_few_words(rt: HostRuntime) {
    assert!(rt; size_of::<HistoryEntry>() <= 88);
    assert!(rt; size_of::<Receipt>() <= 96);
}
