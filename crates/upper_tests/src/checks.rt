//! What tests compare. It stands here once, since the proof of each function that has an `assert_eq!` of its own
//! takes as long again.

use std::fmt::Debug;
use std::process::Abort;

/// What was found is what was wanted.
pub(crate) fn is_same<T: PartialEq + Debug + Drop>(rt: &impl Abort, found: T, wanted: T) {
    assert_eq!(rt; found, wanted);
}
