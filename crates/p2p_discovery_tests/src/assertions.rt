//! The assertions of the tests: each is proved once here, and not wherever values are compared.

use std::fmt::Debug;
use std::process::Abort;

/// Asserts that a value equals the expected one.
pub(crate) fn assert_same<T: PartialEq + Debug + Copy>(rt: &impl Abort, value: T, expected: T) {
    assert_eq!(rt; value, expected);
}

/// Asserts that a value equals the expected one, and says of which case if it does not.
pub(crate) fn assert_same_for<T: PartialEq + Debug + Copy>(
    rt: &impl Abort,
    value: T,
    expected: T,
    case: impl Debug + Copy,
) {
    assert_eq!(rt; value, expected, "{case:?}");
}

/// Asserts what holds, and says of which case if it does not.
pub(crate) fn assert_holds(rt: &impl Abort, holds: bool, case: impl Debug + Copy) {
    assert!(rt; holds, "{case:?}");
}
