//! Tables whose rows name a setting.

use crate::serve::FOLDER;
use crate::serve::settings::Setting;
use std::alloc::Global;
use std::io;
use std::rt::Files;
use test_tools::{Fault, Row, read_table, tell};

/// The answers of a table to its rows.
pub trait Scenes {
    /// The words that result from the rest of a row after its setting.
    fn answer(alloc: Global, setting: &Setting, given: &str) -> Result<String, Fault>;
}

/// Plays a table, which is the file `NAME.txt`. Prints for each row the names of the table and of
/// the row and `ok`, or the words that came instead of the expected ones.
pub fn play_table<T: Scenes, R: Files + Print + Eprint + AllocGlobal>(
    rt: &R,
    settings: &str,
    name: &str,
) -> io::Result<()> {
    let rows = read_table(rt, FOLDER, name)?;
    for line in rows.lines() {
        if let Some(row) = Row::read(line) {
            tell(rt, name, &row, answer::<T>(rt.alloc(), settings, row.given))?;
        }
    }
    Ok(())
}

/// The words that result from a row.
fn answer<T: Scenes>(alloc: Global, settings: &str, given: &str) -> Result<String, Fault> {
    let (name, given) = given.split_once(' ').unwrap_or((given, ""));
    let setting = Setting::find(alloc, settings, name)?;
    T::answer(alloc, &setting, given)
}
