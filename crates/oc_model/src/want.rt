use oc_base::GroupName;

/// The bytes of a group that a step sends.
#[derive(Clone, Copy, Debug, PartialEq, Eq)]
pub struct Want {
    pub group: GroupName,
    pub start: u64,
    pub count: u64,
}
