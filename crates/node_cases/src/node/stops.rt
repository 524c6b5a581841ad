//! Inputs that are stopped in the middle of their writes.

use crate::node::keeps;
use std::alloc::Global;
use test_tools::{Fault, RowDisk, RowFields};

/// An input that is stopped: the number of calls of the load on the written file, the input, and
/// the node with its files.
#[derive(Clone, Copy)]
struct Stopped<'a> {
    loading: u8,
    step: &'a str,
    files: &'a str,
}

/// Appends the words of a row: for each of 0 to 4 calls a word, with a letter for each of the
/// images 0, 1 and 7: `o` if a crash leaves the node before the input, `n` if it leaves the node
/// after the input, `=` if they are the same, and `?` if it leaves another.
pub fn put_words<D: RowDisk>(alloc: Global, given: &str, said: &mut String) -> Result<(), Fault> {
    let (loading, given) = given.split_once(' ').unwrap_or((given, ""));
    let (step, files) = given.split_once(' ').unwrap_or((given, ""));
    let stopped = Stopped {
        loading: RowFields::of(loading, ' ').byte()?,
        step,
        files,
    };
    play::<D>(alloc, &stopped, said)
}

/// Plays a row, and puts its letters.
fn play<D: RowDisk>(alloc: Global, stopped: &Stopped<'_>, said: &mut String) -> Result<(), Fault> {
    let old = left::<D>(alloc, stopped.files, "", "")?;
    let new = left::<D>(alloc, stopped.files, "", stopped.step)?;
    put_all::<D>(alloc, stopped, old.as_str(), new.as_str(), said)
}

fn put_all<D: RowDisk>(
    alloc: Global,
    stopped: &Stopped<'_>,
    old: &str,
    new: &str,
    said: &mut String,
) -> Result<(), Fault> {
    for calls in 0..5 {
        for image in [0, 1, 7] {
            let calls = stopped.loading.saturating_add(calls);
            let left = left_behind::<D>(alloc, stopped, calls, image)?;
            said.push(letter(left.as_str(), old, new))?;
        }
        said.push(' ')?;
    }
    Ok(())
}

/// The words of the input if it is stopped after `calls` calls with this image.
fn left_behind<D: RowDisk>(
    alloc: Global,
    stopped: &Stopped<'_>,
    calls: u8,
    image: u8,
) -> Result<String, Fault> {
    let stop = format!(in alloc; "/stop:{calls},{image}")?;
    left::<D>(alloc, stopped.files, stop.as_str(), stopped.step)
}

/// The words of a step at the node of these files, if the disk marked by a `*` fails in this way.
fn left<D: RowDisk>(
    alloc: Global,
    files: &str,
    failing: &str,
    step: &str,
) -> Result<String, Fault> {
    let files = files.replace(alloc, '*', failing)?;
    crashed::<D>(alloc, files.as_str(), step)
}

/// The words of a step at the node of these files.
fn crashed<D: RowDisk>(alloc: Global, files: &str, step: &str) -> Result<String, Fault> {
    let row = format!(in alloc; "node {files} {step}")?;
    let mut said = String::new(alloc);
    keeps::put_words::<D>(alloc, row.as_str(), &mut said)?;
    Ok(said)
}

/// The letter of the words that a stop leaves.
fn letter(left: &str, old: &str, new: &str) -> char {
    let left = recovered(left);
    match (left == recovered(old), left == recovered(new)) {
        (true, true) => '=',
        (true, false) => 'o',
        (false, true) => 'n',
        (false, false) => '?',
    }
}

/// The recovered node in the words, after the result of the step.
fn recovered(words: &str) -> &str {
    words.split_once('[').unwrap_or(("", words)).1
}
