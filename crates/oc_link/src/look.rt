use oc_base::Bytes;

/// What a look at the file of a program's configuration gives.
#[derive(Debug, Drop)]
pub enum Look {
    /// Nothing to be read: the file is as it was, it is being written, or it was not looked at.
    Nothing,
    /// The file was read: these bytes, or the first of them where it has too many.
    Text(Bytes),
    /// The file could not be read.
    Failed,
}
