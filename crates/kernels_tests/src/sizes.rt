//! What is passed about for each step, and what is kept of it, is small.
use sk_plain::{Event, Plan};
use sk_store::{EntityState, PutBack};
use sk_undo::{Note, Slot};
use std::mem::size_of;

#[test]
fn a_plan_is_a_few_words(rt: HostRuntime) {
    assert!(rt; size_of::<Plan>() <= 248);
}

#[test]
fn an_event_is_a_few_words(rt: HostRuntime) {
    assert!(rt; size_of::<Event>() <= 48);
}

#[test]
fn a_note_is_a_few_words(rt: HostRuntime) {
    assert!(rt; size_of::<Note<PutBack<EntityState>>>() <= 136);
}

#[test]
fn a_slot_is_a_few_words(rt: HostRuntime) {
    assert!(rt; size_of::<Slot>() <= 96);
}
