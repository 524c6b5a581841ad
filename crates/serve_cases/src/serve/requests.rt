//! Single connections: their lines and their replies.

use crate::serve::outcome::{Part, both_words_of, words_of};
use crate::serve::settings::Setting;
use crate::serve::steps::said_by;
use crate::serve::table::Scenes;
use std::alloc::Global;
use test_tools::{Fault, spelled_in};

/// The numbers of pieces into which a connection is cut.
const PIECES: [usize; 3] = [2, 3, 7];

/// The length in bytes up to which a connection also comes byte by byte.
const SHORT: usize = 40;

/// The length in bytes above which a connection is cut in one way only.
const LONG: usize = 1_000;

/// The parts that the words of a row have.
pub const PARTS: [Part<'static>; 2] = [Part::Lines, Part::Written];

/// The same parts without ticks, which depend on the number of turns.
const WITHOUT_TICKS: [Part<'static>; 2] = [Part::Deeds, Part::Written];

/// The words of a row: the lines, and the bytes given to the connection. If these differ, apart
/// from ticks, when the bytes come piece by piece, the other words follow; with a step `whole` the
/// bytes only come at once.
pub struct RequestScenes;

impl Scenes for RequestScenes {
    fn answer(alloc: Global, setting: &Setting, text: &str) -> Result<String, Fault> {
        let (connection, steps) = split_connection(text);
        let length = spelled_in(alloc, connection)?.len();
        let scene = scene_of(alloc, text, 0)?;
        let (whole, words) = both_words_of(alloc, setting, scene.as_str(), &WITHOUT_TICKS, &PARTS)?;
        if said_by(steps, "whole").is_some() {
            return Ok(words);
        }
        match first_other(alloc, setting, text, length, &whole)? {
            Some(other) => Ok(other),
            None => Ok(words),
        }
    }
}

/// The scene of a connection, with the steps after it, whose bytes come `cut` at a time. Its end is
/// reported once more, as after the permission to send a body.
pub fn scene_of(alloc: Global, text: &str, cut: usize) -> Result<String, Fault> {
    Ok(format!(in alloc; "cut:{cut} ^ come:{text} ^ again:1")?)
}

/// The connection of a row, and the steps after it.
pub fn split_connection(text: &str) -> (&str, &str) {
    text.split_once(" ^ ").unwrap_or((text, ""))
}

/// The first different words of a connection of this length that is cut, with the number of bytes
/// that come at a time.
fn first_other(
    alloc: Global,
    setting: &Setting,
    text: &str,
    length: usize,
    whole: &String,
) -> Result<Option<String>, Fault> {
    for pieces in PIECES {
        let other = other(alloc, setting, text, length / pieces.max(1) + 1, whole)?;
        if other.is_some() || length > LONG {
            return Ok(other);
        }
    }
    if length <= SHORT {
        return other(alloc, setting, text, 1, whole);
    }
    Ok(None)
}

/// The words of a connection whose bytes come `cut` at a time, if they differ.
fn other(
    alloc: Global,
    setting: &Setting,
    text: &str,
    cut: usize,
    whole: &String,
) -> Result<Option<String>, Fault> {
    let scene = scene_of(alloc, text, cut)?;
    let words = words_of(alloc, setting, scene.as_str(), &WITHOUT_TICKS)?;
    if words == *whole {
        return Ok(None);
    }
    Ok(Some(format!(in alloc; "{cut} at a time: {words}")?))
}
