//! What should hold, by its place.
use std::process::Abort;

/// What stands at this place of a test holds.
pub fn check(rt: &impl Abort, place: usize, is: bool) {
    assert!(rt; is, "{place}");
}
