//! Connections that end after each of their bytes.

use crate::serve::outcome::words_of;
use crate::serve::requests::{PARTS, scene_of, split_connection};
use crate::serve::runs::Runs;
use crate::serve::settings::Setting;
use crate::serve::table::Scenes;
use std::alloc::Global;
use test_tools::{Fault, spelled_in};

/// The words of a row: the results of the connection in order of the number of its bytes, from none
/// to all, each as a range of numbers and its lines and replies.
pub struct EndingScenes;

impl Scenes for EndingScenes {
    fn answer(alloc: Global, setting: &Setting, text: &str) -> Result<String, Fault> {
        let (connection, steps) = split_connection(text);
        let bytes = spelled_in(alloc, connection)?;
        let mut runs = Runs::new(alloc);
        put_all(alloc, setting, &bytes, steps, &mut runs)?;
        runs.finish()
    }
}

/// Puts the words of the connection that ends after each number of these bytes, with these steps after it.
fn put_all(
    alloc: Global,
    setting: &Setting,
    bytes: &[u8],
    steps: &str,
    runs: &mut Runs,
) -> Result<(), Fault> {
    for count in 0..bytes.len().saturating_add(1) {
        let front = bytes.get(..count).unwrap_or(bytes);
        runs.put(words_of_front(alloc, setting, front, steps)?)?;
    }
    Ok(())
}

/// The words of a connection with these bytes alone, and these steps after it.
fn words_of_front(
    alloc: Global,
    setting: &Setting,
    bytes: &[u8],
    steps: &str,
) -> Result<String, Fault> {
    let mut text = String::new(alloc);
    for byte in bytes {
        write!(text, "\\x{byte:02x}")?;
    }
    write!(text, " ^ {steps}")?;
    let scene = scene_of(alloc, text.as_str(), 0)?;
    words_of(alloc, setting, scene.as_str(), &PARTS)
}
