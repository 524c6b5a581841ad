//! The end of a run.

use crate::texts::{cut_line, excerpt, first_difference, first_missing, from_event};
use std::alloc::{AllocError, Global};
use std::process::Output;
use std::{fs, io};

/// The expected end of a run.
#[derive(Clone, Copy)]
pub struct Ending<'a> {
    status: Option<i32>,
    /// The file with the expected output, or nothing.
    output: Option<&'a str>,
    /// The expected lines on the error output, with ` // ` between them; after `<` the file with
    /// all of them; or nothing.
    errors: Option<&'a str>,
}

impl<'a> Ending<'a> {
    /// The end that a row expects: a status, the output, and the error output. `-` means nothing,
    /// and so does a missing field.
    pub fn read(text: &'a str) -> Ending<'a> {
        let (status, rest) = text.split_once(' ').unwrap_or((text, ""));
        let (output, errors) = rest.split_once(' ').unwrap_or((rest, ""));
        Ending {
            status: status.parse::<i32>().ok(),
            output: given(output),
            errors: given(errors),
        }
    }

    /// The first difference between a run and this end, if there is one: in the status, on the
    /// error output, or on the output.
    pub fn difference(&self, rt: &HostRuntime, got: &Output) -> io::Result<Option<String>> {
        if got.status.code() != self.status {
            return Ok(Some(told_status(rt.alloc(), got)?));
        }
        let errors = self.wanted_errors(rt)?;
        if let Some(told) = told_difference(rt, "error output", &got.stderr, &errors)? {
            return Ok(Some(told));
        }
        self.output_difference(rt, &got.stdout)
    }

    /// The expected bytes on the error output.
    fn wanted_errors(&self, rt: &HostRuntime) -> io::Result<Vec<u8>> {
        let Some(errors) = self.errors else {
            return Ok(Vec::new(rt.alloc()));
        };
        if let Some(file) = errors.strip_prefix("<") {
            return fs::read(rt, file);
        }
        let lines = errors.replace(rt.alloc(), " // ", "\n")?;
        Ok(format!(in rt.alloc(); "{lines}\n")?.into_bytes())
    }

    /// The difference between the output and the expected one. A file `NAME.tail` has the end of
    /// the output, beginning with the event in its first line; `NAME.excerpt` has its length and
    /// some of its lines; `NAME.some` has some of its lines, in order; any other file has all of
    /// it.
    fn output_difference(&self, rt: &HostRuntime, seen: &[u8]) -> io::Result<Option<String>> {
        let Some(file) = self.output else {
            return told_difference(rt, "output", seen, b"");
        };
        let wanted = fs::read(rt, file)?;
        if file.ends_with(".excerpt") {
            let seen = excerpt(rt.alloc(), seen, &wanted)?;
            return told_difference(rt, "excerpt", &seen, &wanted);
        }
        if file.ends_with(".some") {
            return told_missing(rt, seen, &wanted);
        }
        if file.ends_with(".tail") {
            return told_difference(rt, "tail", from_event(seen, &wanted), &wanted);
        }
        told_difference(rt, "output", seen, &wanted)
    }
}

/// A field of a row, if it is not left out.
fn given(field: &str) -> Option<&str> {
    match field {
        "" | "-" => None,
        _ => Some(field),
    }
}

/// A message with the status of a run, and the first line on its error output.
fn told_status(alloc: Global, got: &Output) -> Result<String, AllocError> {
    let (line, _) = cut_line(&got.stderr);
    let line = shown(line);
    match got.status.code() {
        Some(status) => format!(in alloc; "status {status}, {line}"),
        None => format!(in alloc; "ended by a signal, {line}"),
    }
}

/// A message with the first line of a text that is not as expected.
fn told_difference(
    rt: &HostRuntime,
    name: &str,
    seen: &[u8],
    wanted: &[u8],
) -> io::Result<Option<String>> {
    let Some((number, line)) = first_difference(seen, wanted) else {
        return Ok(None);
    };
    Ok(Some(format!(in rt.alloc(); "line {} of the {}, {}", number, name, shown(line))?))
}

/// A message with the first expected line that a text does not have, after the others.
fn told_missing(rt: &HostRuntime, seen: &[u8], wanted: &[u8]) -> io::Result<Option<String>> {
    let Some(line) = first_missing(seen, wanted) else {
        return Ok(None);
    };
    Ok(Some(format!(in rt.alloc(); "the output has no line {}", shown(line))?))
}

/// The form of bytes in a report.
fn shown(bytes: &[u8]) -> &str {
    std::str::from_utf8(bytes).unwrap_or("no text")
}
