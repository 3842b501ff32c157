//! Values that are compared.
use std::fmt::Debug;
use std::process::Abort;

/// A value is as is wanted. It is a call, so that a function that asserts much has no branch for
/// each assertion.
pub(crate) fn assert_same<T: PartialEq + Debug + Drop>(rt: &impl Abort, got: T, wanted: T) {
    assert_eq!(rt; got, wanted);
}
