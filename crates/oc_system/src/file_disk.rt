ghost use Rattle.std.specs.Prelude.{◌≡◌, ◌-◌, ◌≤◌, min};
ghost use Rattle.oc_io.specs.Faults.{Rose};

use crate::limits::{MOST_PAGES, PAGE};
use crate::trouble::Trouble;
use oc_io::{Disk, Failed};
use std::alloc::AllocError;
use std::fs::{File, OpenOptions};
use std::io;
use std::os::unix::fs::FileExt;
use std::rt::Files;

/// A file as a disk.
///
/// The file is opened at the first call, and made if it is missing; then its folder is synced, so
/// that the file is still there after a crash. The file is locked as long as it is open, so that
/// two programs never write to it. A call that cannot open or lock it fails, and the next call
/// tries again.
///
/// After a failed sync the system may treat bytes that it could not write as written, and the sync
/// of the next program would succeed. Therefore those pages are written again, which makes the next
/// sync write them.
#[derive(Drop)]
pub struct FileDisk<'a, R> {
    rt: &'a R,
    place: FilePlace<'a>,
    file: Option<File>,
    size: u64,
    faults: u64,
    /// The range of bytes written since the last sync that succeeded.
    unsure_from: u64,
    unsure_to: u64,
    /// The error of the last call that failed.
    error: Option<io::Error>,
}

/// The place of a file: its path, which begins with that of its folder, and its name in the folder.
#[derive(Clone, Copy)]
pub struct FilePlace<'a> {
    pub folder: &'a str,
    pub path: &'a str,
    pub name: &'a str,
}

impl<'a, R: Files<File = File>> FileDisk<'a, R> {
    /// The disk of the file at this place.
    pub fn new(rt: &'a R, place: FilePlace<'a>) -> FileDisk<'a, R> {
        FileDisk {
            rt,
            place,
            file: None,
            size: 0,
            faults: 0,
            unsure_from: u64::MAX,
            unsure_to: 0,
            error: None,
        }
    }

    /// The reason of the last failure, if a call failed.
    pub fn trouble(&self) -> Option<Trouble<'a>> {
        match self.error {
            Some(error) => Some(Trouble {
                place: self.place.name,
                error,
            }),
            None => None,
        }
    }

    /// Counts a failure, and keeps the error.
    fn fault(&mut self, error: io::Error) -> Failed
        ensures count { Rose self.old.faults self.new.faults }
        ensures faults { self.old.faults ≤ self.new.faults }
        ensures size { self.new.size ≡ self.old.size }
    {
        self.faults = self.faults.saturating_add(1);
        self.error = Some(error);
        Failed
    }
}

/// The file, opened and locked if it was not open yet.
fn opened<'f, R: Files<File = File>>(
    rt: &R,
    place: FilePlace<'_>,
    file: &'f mut Option<File>,
) -> io::Result<&'f File> {
    if file.is_none() {
        *file = Some(open_locked(rt, place)?);
    }
    match file {
        Some(file) => Ok(file),
        None => Err(io::Error::from(io::ErrorKind::NotFound)),
    }
}

/// Opens the file and takes its lock; makes the file if it is missing. The folder is synced each
/// time: an earlier program may have made the file and been stopped before the sync. A device or a
/// pipe is refused: the system gives no size for it, so that all its bytes would seem to be gone at
/// the next start.
fn open_locked<R: Files<File = File>>(rt: &R, place: FilePlace<'_>) -> io::Result<File> {
    let mut how = OpenOptions::new();
    how.read(true).write(true).create(true);
    let file = how.open(rt, place.path)?;
    if !file.metadata()?.is_file() {
        return Err(io::Error::new(io::ErrorKind::InvalidInput, "not a regular file"));
    }
    file.try_lock()?;
    File::open(rt, place.folder)?.sync_all()?;
    Ok(file)
}

impl<R: Files<File = File>> Disk for FileDisk<'_, R> {
    ghost use Rattle.std.proofs.lemmas.Bool.{false≢true};
    ghost use Rattle.oc_system.specs.Untold.{file_view};

    ghost view = { λ disk. file_view disk.size disk.faults };

    ghost consistent = { λ disk honest. absurd (false≢true honest) };

    ghost reliable_keeps = { λ disk reliable. absurd (false≢true reliable) };

    fn size(&mut self) -> Result<u64, Failed> {
        match size_of(self.rt, self.place, &mut self.file) {
            Ok(size) => {
                self.size = size;
                Ok(size)
            }
            Err(error) => Err(self.fault(error)),
        }
    }

    fn read_at(&mut self, at: u64, buf: &mut [u8]) -> Result<usize, Failed> {
        let count = within(at, self.size, buf.len());
        match read_whole(self.rt, self.place, &mut self.file, at, &mut buf[..count]) {
            Ok(()) => Ok(count),
            Err(error) => Err(self.fault(error)),
        }
    }

    fn reserve(&mut self, _bytes: u64) -> Result<(), AllocError> {
        Ok(())
    }

    fn write_at(&mut self, at: u64, bytes: &[u8]) -> Result<(), Failed> {
        let Some(end) = at.checked_add(bytes.len() as u64) else {
            return Err(self.fault(io::Error::from(io::ErrorKind::FileTooLarge)));
        };
        self.unsure_from = self.unsure_from.min(at);
        self.unsure_to = self.unsure_to.max(end);
        match write_whole(self.rt, self.place, &mut self.file, at, bytes) {
            Ok(()) => {
                self.size = self.size.max(end);
                Ok(())
            }
            Err(error) => Err(self.fault(error)),
        }
    }

    fn sync(&mut self) -> Result<(), Failed> {
        match sync_data(self.rt, self.place, &mut self.file) {
            Ok(()) => {
                self.unsure_from = u64::MAX;
                self.unsure_to = 0;
                Ok(())
            }
            Err(error) => {
                if let Some(file) = &self.file {
                    touch_pages(file, self.unsure_from, self.unsure_to);
                }
                Err(self.fault(error))
            }
        }
    }
}

/// The number of bytes, at most `most`, from this offset up to the size.
fn within(at: u64, size: u64, most: usize) -> usize
    ensures { result ≡ min most (size - at) }
{
    usize::try_from(size.saturating_sub(at)).map_or(most, |left| left.min(most))
}

fn size_of<R: Files<File = File>>(
    rt: &R,
    place: FilePlace<'_>,
    file: &mut Option<File>,
) -> io::Result<u64> {
    Ok(opened(rt, place, file)?.metadata()?.len())
}

fn read_whole<R: Files<File = File>>(
    rt: &R,
    place: FilePlace<'_>,
    file: &mut Option<File>,
    at: u64,
    buf: &mut [u8],
) -> io::Result<()> {
    if buf.is_empty() {
        return Ok(());
    }
    opened(rt, place, file)?.read_exact_at(buf, at)
}

fn write_whole<R: Files<File = File>>(
    rt: &R,
    place: FilePlace<'_>,
    file: &mut Option<File>,
    at: u64,
    bytes: &[u8],
) -> io::Result<()> {
    opened(rt, place, file)?.write_all_at(bytes, at)
}

fn sync_data<R: Files<File = File>>(
    rt: &R,
    place: FilePlace<'_>,
    file: &mut Option<File>,
) -> io::Result<()> {
    opened(rt, place, file)?.sync_data()
}

/// Writes one byte of each page in a range again, unchanged, so that the system has to write these
/// pages. Pages that can't be read or written are left.
fn touch_pages(file: &File, from: u64, to: u64) {
    let mut byte = [0u8];
    let mut at = from;
    for _ in 0..MOST_PAGES {
        if at >= to {
            return;
        }
        if file.read_exact_at(&mut byte, at).is_ok() {
            let _touched = file.write_all_at(&byte, at).is_ok();
        }
        at = at.saturating_add(PAGE - at % PAGE);
    }
}
