//! Two values that have to be the same.
use std::process::Abort;

/// Fails the test where two values are not the same.
pub fn same<T: PartialEq>(rt: &impl Abort, found: &T, wanted: &T) {
    assert!(rt; *found == *wanted);
}
