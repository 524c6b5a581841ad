use oc_io::Disk;

/// The disks of the three files of a node.
#[derive(Drop)]
pub struct Files<D: Disk> {
    /// The first control file.
    pub control: D,
    /// The second control file. Each of the two takes the place of the other when that is long.
    pub alternate: D,
    /// The content file.
    pub content: D,
}
