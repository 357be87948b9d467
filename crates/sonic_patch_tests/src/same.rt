// Assertions as calls: what `assert_eq!` writes out is proved once here, and not at each place.
use std::fmt::Debug;
use std::process::Abort;

// What was found is what is wanted in this case.
pub(crate) fn same_at<T: PartialEq + Debug + Drop, C: Debug + Drop>(
    rt: &impl Abort,
    found: T,
    wanted: T,
    case: C,
) {
    assert_eq!(rt; found, wanted, "{case:?}");
}
