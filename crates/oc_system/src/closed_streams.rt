use std::fs::File;
use std::os::fd::AsRawFd;
use std::rt::Files;

/// The number of the last of the three standard streams.
const LAST_STREAM: i32 = 2;

/// A guard that occupies the numbers of the standard streams that were closed at the start of the
/// program.
///
/// The system gives the number of a closed stream to the next file or socket that is opened.
/// Without the guard that would be a file of a node or a connection, and each line for the stream
/// would be written there. The guard opens a folder at the number instead: reads and writes of this
/// folder fail, as those of a closed stream do.
#[derive(Drop)]
pub struct ClosedStreams {
    _first: Option<File>,
    _second: Option<File>,
    _third: Option<File>,
}

impl ClosedStreams {
    /// Occupies the numbers of the streams that are closed. Call this before anything is opened.
    pub fn hold<R: Files<File = File>>(rt: &R) -> ClosedStreams {
        ClosedStreams {
            _first: held(rt),
            _second: held(rt),
            _third: held(rt),
        }
    }
}

/// An open folder at the lowest free number, if that number belongs to a standard stream.
fn held<R: Files<File = File>>(rt: &R) -> Option<File> {
    let folder = File::open(rt, "/").ok()?;
    (folder.as_raw_fd() <= LAST_STREAM).then_some(folder)
}
