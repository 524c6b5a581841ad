use crate::{Bytes, GroupName};

/// A group at a node: its bytes from the first on, and whether it is sealed.
#[derive(Clone, Debug, Drop)]
pub struct Group {
    pub name: GroupName,
    pub bytes: Bytes,
    pub sealed: bool,
}
