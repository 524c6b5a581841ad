/// The failure of a call on an outside object, such as a file. The object's count of faults rose,
/// or is the greatest `u64`.
#[derive(Clone, Copy, Debug, PartialEq, Eq)]
pub struct Failed;
