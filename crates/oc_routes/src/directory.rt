use oc_policy::Key;

/// The parts of its network that the replies of a node depend on.
#[derive(Clone, Copy, Drop)]
pub struct Directory<'a> {
    /// The addresses of the nodes, by their ids, where they have one.
    pub addresses: &'a [Option<String>],
    /// Their names, by their ids, where they have one.
    pub names: &'a [Option<String>],
    /// Whether they are retired, by their ids.
    pub retired: &'a [bool],
    /// The key under which messages that go out have a MAC, where the network has one.
    pub key: Option<&'a Key>,
}
