/// A call of a disk or a shelf failed. The count of faults of the object rose, or stands at its
/// last value.
#[derive(Clone, Copy, Debug, PartialEq, Eq)]
pub struct Failed;
