//! Sources and sinks of bytes, and disks, which may crash: in memory, and over the operating system.
//!
//! A [`Source`] gives bytes and a [`Sink`] takes them. Contracts describe each by relations between the
//! value before a call and the value after it: `gives old bytes new` says that these bytes came and that
//! nothing else happened, `fails old bytes new` that these bytes came and a call then failed. Each object
//! counts its faults: no count falls, and a call answers [`Failed`] only if its count rose.
//!
//! The layers above use [`read_all`] and [`write_all`]. `read_all` gives exactly the bytes up to the end,
//! or says that a call failed or that more bytes came than were allowed. `write_all` gives all bytes to
//! the sink, or says that a call failed after a prefix of them.
//!
//! A [`Disk`] is a file that may crash at any moment. One view of a disk (`specs/DiskView`) holds all facts
//! about it: the bytes that a read gives, the images that a crash now or since an earlier moment may leave,
//! whether the disk keeps the disk model, its size, its spare room, its count of faults, whether it is
//! reliable, and the names of the borrows through which it is reached. The layers above use the clauses of
//! its five calls, the properties of every honest disk, and one more promise: on a reliable disk no call
//! within the size and the spare room fails.
//!
//! In memory: [`MemSource`] and [`MemSink`] keep their bytes and fail at given calls, which a
//! [`CallTally`] counts. [`MemDisk`] notes each call that worked, with the bytes that it wrote over, and
//! tells from these the images that a crash at each moment may have left. It can be stopped and crashed,
//! and is reliable if no stop is set and no call is listed to fail.
//!
//! Over the system: a [`ReaderSource`] gives the bytes that its reader loses, and a [`WriterSink`] takes
//! the bytes by which its writer grows, if the reader or the writer tells its bytes. For every reader and
//! writer a counter rises by the number of bytes that pass.
#![tactic(auto)]

mod call_tally;
mod disk;
mod disk_log;
mod failures;
mod fault;
mod gathering;
mod mem_disk;
mod mem_sink;
mod mem_source;
mod read_fault;
mod reader_source;
mod retrying;
mod sink;
mod source;
mod traffic;
mod writer_sink;
mod writing;

pub use call_tally::CallTally;
pub use disk::Disk;
pub use fault::Failed;
pub use gathering::read_all;
pub use mem_disk::MemDisk;
pub use mem_sink::MemSink;
pub use mem_source::MemSource;
pub use read_fault::ReadFault;
pub use reader_source::ReaderSource;
pub use sink::Sink;
pub use source::Source;
pub use traffic::Traffic;
pub use writer_sink::WriterSink;
pub use writing::write_all;
