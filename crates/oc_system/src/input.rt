ghost use Rattle.std.specs.Io.{ReadsAtMost};

use crate::trouble::Trouble;
use std::fs::File;
use std::io::{self, Read, Stdin};
use std::rt::Files;

/// The input of a program: the standard input, or a file, which is opened at the first read. A read that cannot
/// open it fails, and the next one tries again.
#[derive(Drop)]
pub enum Input<'a, R> {
    Standard(Stdin),
    Named(NamedFile<'a, R>),
}

/// A file, by its path in the folder in which the program runs.
#[derive(Drop)]
pub struct NamedFile<'a, R> {
    rt: &'a R,
    path: &'a str,
    file: Option<File>,
    /// The error of the last read that failed.
    error: Option<io::Error>,
}

impl<'a, R: Files<File = File>> NamedFile<'a, R> {
    /// The file at this path, not opened yet.
    pub fn new(rt: &'a R, path: &'a str) -> NamedFile<'a, R> {
        NamedFile {
            rt,
            path,
            file: None,
            error: None,
        }
    }
}

impl<'a, R: Files<File = File>> Input<'a, R> {
    /// The reason of the last failure, if a read of a file failed.
    pub fn trouble(&self) -> Option<Trouble<'a>> {
        match self {
            Input::Standard(_) => None,
            Input::Named(file) => match file.error {
                Some(error) => Some(Trouble {
                    place: file.path,
                    error,
                }),
                None => None,
            },
        }
    }
}

impl<R: Files<File = File>> Read for NamedFile<'_, R> {
    fn read(&mut self, buf: &mut [u8]) -> io::Result<usize> {
        let read = read_from(self.rt, self.path, &mut self.file, buf);
        if let Err(error) = &read {
            self.error = Some(*error);
        }
        read
    }
}

/// Reads from a file, and opens it first if it is not open yet.
fn read_from<R: Files<File = File>>(
    rt: &R,
    path: &str,
    file: &mut Option<File>,
    buf: &mut [u8],
) -> io::Result<usize>
    ensures bound { ReadsAtMost result buf.new }
{
    if file.is_none() {
        *file = Some(File::open(rt, path)?);
    }
    match file {
        Some(file) => file.read(buf),
        None => Err(io::Error::from(io::ErrorKind::NotFound)),
    }
}

impl<R: Files<File = File>> Read for Input<'_, R> {
    fn read(&mut self, buf: &mut [u8]) -> io::Result<usize> {
        match self {
            Input::Standard(stdin) => stdin.read(buf),
            Input::Named(file) => file.read(buf),
        }
    }
}
