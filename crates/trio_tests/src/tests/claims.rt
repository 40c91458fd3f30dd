//! Claims, as calls: an assertion is proved where it stands with all that it prints, and a call costs next to nothing.
use std::fmt::Debug;
use std::process::Abort;

/// Ends the test with both values unless they are equal.
pub fn same<T: PartialEq + Debug>(rt: &impl Abort, got: &T, want: &T) {
    assert_eq!(rt; got, want);
}

/// Ends the test unless this is true.
pub fn holds(rt: &impl Abort, is_true: bool) {
    assert!(rt; is_true);
}
